//! Laws of reading and spelling, for values in the range of their types: a number of the
//! definitions has no bound of its own.

ghost use Rattle.hw_types.specs.Spelling.{SpellsUnit, SpellsVertex, SpellsConfig, SpellsFrame};
ghost use Rattle.hw_types.specs.Reading.{unit_at, signed_at, vertex_at, config_at, frame_at, unit_of, vertex_of, config_of, frame_of};
ghost use Rattle.hw_codec.specs.Ranges.{UnitInRange, SignedInRange, VertexInRange, ConfigInRange, FrameInRange};
ghost use Rattle.hw_codec.specs.Laws.{SpellsSigned, NoneBeginsAnother, EachSpellsOne, ReadsWhatIsSpelled, ReadsNothingElse, ReadsSpellings};

/// No spelling of a value is the beginning of a longer spelling of the same kind.
pub fn no_spelling_begins_another()
    ensures unit { NoneBeginsAnother UnitInRange SpellsUnit }
    ensures signed { NoneBeginsAnother SignedInRange SpellsSigned }
    ensures vertex { NoneBeginsAnother VertexInRange SpellsVertex }
    ensures config { NoneBeginsAnother ConfigInRange SpellsConfig }
    ensures frame { NoneBeginsAnother FrameInRange SpellsFrame }
{}

/// Equal spellings are of equal values.
pub fn equal_spellings_are_of_equal_values()
    ensures unit { EachSpellsOne UnitInRange SpellsUnit }
    ensures signed { EachSpellsOne SignedInRange SpellsSigned }
    ensures vertex { EachSpellsOne VertexInRange SpellsVertex }
    ensures config { EachSpellsOne ConfigInRange SpellsConfig }
    ensures frame { EachSpellsOne FrameInRange SpellsFrame }
{}

/// Reading what was spelled gives it back, whatever follows, and stops where the spelling ends.
pub fn reading_gives_back_what_was_spelled()
    ensures unit { ReadsWhatIsSpelled UnitInRange SpellsUnit unit_at }
    ensures signed { ReadsWhatIsSpelled SignedInRange SpellsSigned signed_at }
    ensures vertex { ReadsWhatIsSpelled VertexInRange SpellsVertex vertex_at }
    ensures config { ReadsWhatIsSpelled ConfigInRange SpellsConfig config_at }
    ensures frame { ReadsWhatIsSpelled FrameInRange SpellsFrame frame_at }
{}

/// What was read keeps its limits, and the bytes that were read are its spelling.
pub fn what_was_read_is_spelled()
    ensures unit { ReadsNothingElse UnitInRange SpellsUnit unit_at }
    ensures signed { ReadsNothingElse SignedInRange SpellsSigned signed_at }
    ensures vertex { ReadsNothingElse VertexInRange SpellsVertex vertex_at }
    ensures config { ReadsNothingElse ConfigInRange SpellsConfig config_at }
    ensures frame { ReadsNothingElse FrameInRange SpellsFrame frame_at }
{}

/// Where bytes are read to their end, they are read as a value exactly where they spell it.
pub fn reading_is_spelling()
    ensures unit { ReadsSpellings UnitInRange SpellsUnit unit_of }
    ensures vertex { ReadsSpellings VertexInRange SpellsVertex vertex_of }
    ensures config { ReadsSpellings ConfigInRange SpellsConfig config_of }
    ensures frame { ReadsSpellings FrameInRange SpellsFrame frame_of }
{}
