// Why a call is turned down: the Rust's `Error` with the reasons that the port adds, each with its number.
#![tactic(auto)]

ghost use Rattle.std.specs.Prelude.{◌≡◌};
ghost use Rattle.error.specs.Error.{PositiveLaw, error_number, verdict_number};

// The reasons. The Rust has those named after it; the others are the port's.
#[derive(Clone, Copy, PartialEq, Eq)]
pub enum Error {
    // A time is above its limit.
    InvalidTime = 1,
    // Another argument, a lent list or a lent store is out of range.
    InvalidArgument = 2,
    // An incoming initiation was made for another key.
    WrongKey = 3,
    // An incoming initiation came before.
    ReplayedHandshakeInitiation = 4,
    // An incoming initiation is older than the tunnel.
    InitiationPredatesTunnel = 5,
    // A message names another local index.
    WrongIndex = 6,
    // A message failed to open.
    InvalidAeadTag = 7,
    // No initiation or cookie is awaited that the message answers.
    UnexpectedPacket = 8,
    // A counter is at or above the limit, or too far behind.
    InvalidCounter = 9,
    // A counter was committed before.
    DuplicateCounter = 10,
    // The connection has expired.
    ConnectionExpired = 11,
    // No session is usable, or too few counters are left.
    NoCurrentSession = 12,
    // A time is earlier than the greatest one.
    ClockWentBack = 13,
    // The state is none that the calls leave behind.
    DamagedState = 14,
    // A datagram has an unknown type.
    UnknownType = 15,
    // A datagram has a wrong length for its type.
    WrongLength = 16,
    // A trailer of a log breaks its rule.
    BrokenTrailer = 17,
    // A record of a log breaks its rule.
    BrokenRecord = 18,
    // The free end of a log's store is too short.
    StoreFull = 19,
    // The operation is outside the user's rights.
    OutsideRights = 20,
}

impl Error {
    // The number that stands for it in lists and lines.
    pub fn number(self) -> u8
        ensures { result ≡ error_number self }
    {
        self as u8
    }
}

// The number of a verdict: 0 where it is good.
pub fn verdict_number(verdict: Result<(), Error>) -> u8
    ensures { result ≡ verdict_number verdict }
{
    match verdict {
        Ok(()) => 0,
        Err(error) => error.number(),
    }
}

// No error has the number 0 of a good verdict.
pub fn positive_law()
    ensures { PositiveLaw }
{}
