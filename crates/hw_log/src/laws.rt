//! What is written is read again, and what was read is written so.

ghost use Rattle.std.specs.{Prelude.{◌≡◌, ◌↔◌, ℕ, Bool, Ok, Some, None, List, [], ◌∷◌, ◌++◌, length, take, slice_index}, List.{All}};
ghost use Rattle.hw_types.specs.{declared.config.Config.{Config}, declared.unit.Vertex.{Vertex}, Limits.{config_fault}, Spelling.{ConfigFits, VertexFits}};
ghost use Rattle.hw_codec.specs.Ranges.{AreBytes, ConfigInRange, VertexInRange};
ghost use Rattle.hw_log.specs.declared.entry.LogEntry.{LogEntry};
ghost use Rattle.hw_log.specs.declared.error.LogError.TheVariants.{Torn};
ghost use Rattle.hw_log.specs.Lasts.{LastUnits, IsVersion, vertex_in};
ghost use Rattle.hw_log.specs.Log.{Entries, log_of, header_bytes, entry_bytes, log_bytes, lasts_in};
ghost use Rattle.hw_log.specs.Laws.{ThatSaidIsRead, ThatOneIsSaid, ThatAllIsSaid, ThatLogsAreThere, ThatOneKeepsLimits, ThatErrorsAreThere, ThatEntryErrorsAreThere};
ghost use Rattle.hw_log.specs.Spelled.{SpellsIn, LastsInRange, EntryFits, SaysSame};

/// A header that is written is a log without entries.
pub fn a_header_is_an_empty_log()
    ensures { (version : ℕ) (config : Config) → IsVersion version → ConfigInRange config → ConfigFits config → config_fault config ≡ None
        → log_of (header_bytes version config) ≡ Ok (config, record { given = []; fault = None }) }
{}

/// An entry that is appended to a log without an error is its last one, and all else stays.
pub fn an_append_adds_the_entry()
    ensures { (bytes : List ℕ) (config : Config) (given : List LogEntry) (verdict : Bool) (vertex : Vertex)
        → log_of bytes ≡ Ok (config, record { given = given; fault = None }) → VertexInRange vertex → VertexFits vertex
        → log_of (bytes ++ entry_bytes (lasts_in bytes config given) verdict vertex) ≡ Ok (config, record { given = given ++ record { at = length bytes; verdict = verdict; vertex = vertex } ∷ []; fault = None }) }
{}

/// Behind any last units a vertex is read of all bytes exactly where they are its one spelling.
pub fn a_vertex_is_read_where_it_is_spelled()
    ensures { (lasts : LastUnits) (bytes : List ℕ) (vertex : Vertex) → LastsInRange lasts.units → AreBytes bytes
        → (vertex_in lasts bytes ≡ Ok vertex) ↔ (VertexInRange vertex × SpellsIn lasts bytes vertex) }
{}

/// The bytes of a log without an error are what its configuration and its entries are written as.
pub fn a_log_is_what_it_says_as_written()
    ensures { (bytes : List ℕ) (config : Config) (given : List LogEntry) → AreBytes bytes
        → log_of bytes ≡ Ok (config, record { given = given; fault = None })
        → bytes ≡ log_bytes (slice_index bytes 4) config given }
{}

/// A configuration and entries that are written are said by the bytes, in either version.
pub fn what_is_written_is_said()
    ensures { (version : ℕ) (config : Config) (entries : List LogEntry) → IsVersion version → ConfigInRange config → ConfigFits config → config_fault config ≡ None → All EntryFits entries
        → SaysSame config entries (log_bytes version config entries) }
{}

/// What a log says, up to its end or its first error, is said too where it is written in either
/// version.
pub fn a_log_written_anew_says_the_same()
    ensures { (bytes : List ℕ) (config : Config) (said : Entries) (version : ℕ) → AreBytes bytes → log_of bytes ≡ Ok (config, said) → IsVersion version
        → SaysSame config said.given (log_bytes version config said.given) }
{}

/// In a log that is torn at an entry the bytes before it are its header and its whole entries as
/// they are written.
pub fn whole_entries_stand_before_a_cut()
    ensures { (bytes : List ℕ) (config : Config) (given : List LogEntry) (at : ℕ) → AreBytes bytes
        → log_of bytes ≡ Ok (config, record { given = given; fault = Some (Torn at) })
        → take at bytes ≡ log_bytes (slice_index bytes 4) config given }
{}

/// The relations of the grammar and the reader's steps agree.
pub fn writes_is_log_of()
    ensures read { ThatSaidIsRead }
    ensures one { ThatOneIsSaid }
    ensures all { ThatAllIsSaid }
{}

/// There are logs, and bytes with each error of a header and of an entry.
pub fn logs_and_errors_are_there()
    ensures logs { ThatLogsAreThere }
    ensures lone { ThatOneKeepsLimits }
    ensures errors { ThatErrorsAreThere }
    ensures entries { ThatEntryErrorsAreThere }
{}
