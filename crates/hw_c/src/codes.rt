//! What calls answer: a status, and details of it.

ghost use Rattle.std.specs.Prelude.{◌≡◌, ◌≤◌};
ghost use Rattle.hw_c.specs.Told.{codec_status, codec_place, config_status, config_place, cause_status, cause_digest, cert_status, cert_place, status_of, answer_of, zeros};
ghost use Rattle.hw_c.specs.declared.codes.Fault.TheVariants as faults;

use hw_light::CertError;
use hw_text::rule_number;
use hw_types::{Cause, CodecError, ConfigFault, OutOfMemory, PairFault};

/// Why a call did nothing.
#[derive(Clone, Copy)]
pub enum Fault {
    /// The handle holds no node.
    Empty,
    /// The handle holds a node already.
    Full,
    /// The call ran out of memory.
    OutOfMemory,
    /// Nothing is there.
    Nothing,
    /// A number is outside its range.
    OutOfRange,
    /// What was asked for is longer than its format or its journal allows.
    TooLong,
    /// The two nodes are of different configurations.
    OtherInstance,
    /// The bytes are no spelling.
    Bytes(CodecError),
    /// The configuration breaks this limit.
    Config(ConfigFault),
    /// The vertex was refused.
    Refused(Cause),
    /// The bytes are no certificate.
    Certificate(CertError),
}

/// Details of a status. A field that a status does not need is 0.
#[repr(C)]
#[derive(Clone, Copy)]
pub struct Answer {
    pub kind: u32,
    pub count: u32,
    pub at: u64,
    pub digest: [u8; 32],
}

/// The call succeeded.
pub const OK: u32 = 0;

/// The call ran out of memory, and nothing has changed.
pub const OUT_OF_MEMORY: u32 = 1;

/// Nothing is there.
pub const NONE: u32 = 2;

/// A number is outside its range.
pub const OUT_OF_RANGE: u32 = 3;

/// The handle holds no node.
pub const EMPTY: u32 = 4;

/// The handle holds a node already.
pub const FULL: u32 = 5;

/// What was asked for is longer than its format or its journal allows.
pub const TOO_LONG: u32 = 6;

/// The two nodes are of different configurations.
pub const OTHER_INSTANCE: u32 = 7;

/// The bytes are no spelling: the last digit says why, and `at` has the place.
pub const BAD_BYTES: u32 = 0x100;

/// The configuration breaks a limit: the last digit says which one, counted from 1.
pub const BAD_CONFIG: u32 = 0x200;

/// The verdict was no.
pub const BAD_SIGNATURE: u32 = 0x300;

/// The two units of an evidence don't show an equivocation here: the last digit says why.
pub const BAD_PAIR: u32 = 0x310;

/// Another unit has this digest. The field `digest` has it.
pub const CLASH: u32 = 0x320;

/// The journal is full.
pub const RECORDS_FULL: u32 = 0x321;

/// The park is full.
pub const PARK_FULL: u32 = 0x322;

/// The unit breaks a rule that concerns it alone. The status is this plus the number of the rule.
pub const LOCAL_RULE: u32 = 0x400;

/// The bytes are no certificate: the last digit says why.
pub const BAD_CERTIFICATE: u32 = 0x500;

/// The configuration in a certificate is no spelling: the last digit says why.
pub const BAD_CERTIFIED_CONFIG: u32 = 0x510;

/// A vertex in a certificate is no spelling: the last digit says why.
pub const BAD_CERTIFIED_VERTEX: u32 = 0x520;

impl From<OutOfMemory> for Fault {
    ghost from_gives = { λ _ f. f ≡ faults.OutOfMemory };

    fn from(_e: OutOfMemory) -> Fault {
        Fault::OutOfMemory
    }
}

impl From<CertError> for Fault {
    ghost from_gives = { λ e f. f ≡ faults.Certificate e };

    fn from(e: CertError) -> Fault {
        Fault::Certificate(e)
    }
}

impl From<CodecError> for Fault {
    ghost from_gives = { λ e f. f ≡ faults.Bytes e };

    fn from(e: CodecError) -> Fault {
        Fault::Bytes(e)
    }
}

fn codec_status(error: CodecError) -> u32
    ensures status { result ≡ codec_status error }
    ensures small { result ≤ 260 }
{
    match error {
        CodecError::Truncated(_) => BAD_BYTES,
        CodecError::Trailing(_) => BAD_BYTES + 1,
        CodecError::BadTag(_) => BAD_BYTES + 2,
        CodecError::TooLong(_) => BAD_BYTES + 3,
        CodecError::OutOfRange(_) => BAD_BYTES + 4,
        CodecError::OutOfMemory => OUT_OF_MEMORY,
    }
}

fn codec_place(error: CodecError) -> u64
    ensures { result ≡ codec_place error }
{
    match error {
        CodecError::Truncated(at)
        | CodecError::Trailing(at)
        | CodecError::BadTag(at)
        | CodecError::TooLong(at)
        | CodecError::OutOfRange(at) => at,
        CodecError::OutOfMemory => 0,
    }
}

/// The status of a configuration that breaks this limit.
pub fn config_status(fault: ConfigFault) -> u32
    ensures { result ≡ config_status fault }
{
    match fault {
        ConfigFault::Validators => BAD_CONFIG + 1,
        ConfigFault::ZeroWeight(_) => BAD_CONFIG + 2,
        ConfigFault::Total => BAD_CONFIG + 3,
        ConfigFault::Threshold => BAD_CONFIG + 4,
        ConfigFault::Levels => BAD_CONFIG + 5,
        ConfigFault::Exponents => BAD_CONFIG + 6,
        ConfigFault::LeaderTable => BAD_CONFIG + 7,
        ConfigFault::Records => BAD_CONFIG + 8,
        ConfigFault::Parked => BAD_CONFIG + 9,
    }
}

fn config_place(fault: ConfigFault) -> u64
    ensures { result ≡ config_place fault }
{
    match fault {
        ConfigFault::ZeroWeight(validator) => u64::from(validator),
        _ => 0,
    }
}

/// The status of a refusal.
pub fn cause_status(cause: Cause) -> u32
    ensures { result ≡ cause_status cause }
{
    match cause {
        Cause::BadSignature => BAD_SIGNATURE,
        Cause::Local(rule) => LOCAL_RULE + rule_number(rule),
        Cause::Pair(PairFault::Creator) => BAD_PAIR,
        Cause::Pair(PairFault::Sequence) => BAD_PAIR + 1,
        Cause::Pair(PairFault::Instance) => BAD_PAIR + 2,
        Cause::Pair(PairFault::Same) => BAD_PAIR + 3,
        Cause::Clash { .. } => CLASH,
        Cause::RecordsFull => RECORDS_FULL,
        Cause::ParkFull => PARK_FULL,
        Cause::OutOfMemory => OUT_OF_MEMORY,
    }
}

fn cause_digest(cause: Cause) -> [u8; 32]
    ensures { result ≡ cause_digest cause }
{
    match cause {
        Cause::Clash { known } => known.0,
        _ => [0; 32],
    }
}

fn cert_status(error: CertError) -> u32
    ensures { result ≡ cert_status error }
{
    match error {
        CertError::BadMagic => BAD_CERTIFICATE,
        CertError::Version(_) => BAD_CERTIFICATE + 1,
        CertError::Torn(_) => BAD_CERTIFICATE + 2,
        CertError::TooLong(_) => BAD_CERTIFICATE + 3,
        CertError::Trailing(_) => BAD_CERTIFICATE + 4,
        CertError::BadConfig(error) => codec_status(error) + (BAD_CERTIFIED_CONFIG - BAD_BYTES),
        CertError::BadVertex(_, error) => codec_status(error) + (BAD_CERTIFIED_VERTEX - BAD_BYTES),
        CertError::OutOfMemory => OUT_OF_MEMORY,
    }
}

fn cert_place(error: CertError) -> u64
    ensures { result ≡ cert_place error }
{
    match error {
        CertError::BadMagic | CertError::OutOfMemory => 0,
        CertError::Version(_) => 4,
        CertError::Torn(at) | CertError::TooLong(at) | CertError::Trailing(at) => at,
        CertError::BadConfig(error) => codec_place(error),
        CertError::BadVertex(at, _) => at,
    }
}

/// The status of a fault.
pub fn status_of(fault: Fault) -> u32
    ensures { result ≡ status_of fault }
{
    match fault {
        Fault::Empty => EMPTY,
        Fault::Full => FULL,
        Fault::OutOfMemory => OUT_OF_MEMORY,
        Fault::Nothing => NONE,
        Fault::OutOfRange => OUT_OF_RANGE,
        Fault::TooLong => TOO_LONG,
        Fault::OtherInstance => OTHER_INSTANCE,
        Fault::Bytes(error) => codec_status(error),
        Fault::Config(fault) => config_status(fault),
        Fault::Refused(cause) => cause_status(cause),
        Fault::Certificate(error) => cert_status(error),
    }
}

/// An answer without details.
pub fn blank() -> Answer
    ensures { result ≡ record { kind = 0; count = 0; at = 0; digest = zeros } }
{
    Answer {
        kind: 0,
        count: 0,
        at: 0,
        digest: [0; 32],
    }
}

/// Details of a fault's status.
pub fn answer_of(fault: Fault) -> Answer
    ensures { result ≡ answer_of fault }
{
    let mut answer = blank();
    match fault {
        Fault::Bytes(error) => answer.at = codec_place(error),
        Fault::Config(fault) => answer.at = config_place(fault),
        Fault::Refused(cause) => {
            let digest = cause_digest(cause);
            answer.digest = digest;
        }
        Fault::Certificate(error) => answer.at = cert_place(error),
        _ => {}
    }
    answer
}
