//! Worked values: spellings, names and formulas.

ghost use Rattle.hw_samples.specs.Spelled.{UnitIsSpelled, VerticesAreSpelled, ConfigIsSpelled, FramesAreSpelled};
ghost use Rattle.hw_samples.specs.RealNames.{RealNames, FourUnitsByTheirDigests};
ghost use Rattle.hw_samples.specs.Formulas.{Quorums, Rounds};
ghost use Rattle.hw_samples.specs.Gathered.{RandomValues};

/// A unit byte by byte, and each error at its place.
pub fn unit_is_spelled()
    ensures { UnitIsSpelled }
{}

/// Vertices byte by byte, and each error at its place.
pub fn vertices_are_spelled()
    ensures { VerticesAreSpelled }
{}

/// Configurations byte by byte, and each error at its place.
pub fn config_is_spelled()
    ensures { ConfigIsSpelled }
{}

/// Frames byte by byte, and each error at its place.
pub fn frames_are_spelled()
    ensures { FramesAreSpelled }
{}

/// Names of units and of an instance, by SHA-256 of their spellings.
pub fn real_names()
    ensures { RealNames }
{}

/// With these names the four units are decided, and conflict with the other side.
pub fn four_units_by_their_digests()
    ensures { FourUnitsByTheirDigests }
{}

/// The least weights of committees.
pub fn quorums()
    ensures { Quorums }
{}

/// Rounds, witness times, leaders and changes of the exponent.
pub fn rounds()
    ensures { Rounds }
{}

/// Random bytes and numbers, by a second reading.
pub fn random_values()
    ensures { RandomValues }
{}
