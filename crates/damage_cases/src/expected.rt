// What a call is to answer, and how it has to leave the tunnel.
use crate::call::Call;
use crate::request::Request;
use error::Error;
use tunnel::answer::Answer;
use tunnel::tunnel::Tunnel;

// What is expected of a call.
#[derive(Clone, Copy)]
pub enum Expected {
    // Just this: the tunnel is then left as `left_by` says, and what was lent as it came.
    Just(Result<Answer, Error>),
    // Any answer.
    Answered,
    // Any answer, or to be turned down for anything but a damaged state.
    Undamaged,
}

// The number of a reason to turn a call down, 0 for one that none of these calls gives.
fn number_of(reason: Error) -> u8 {
    match reason {
        Error::InvalidTime => 1,
        Error::InvalidArgument => 2,
        Error::WrongKey => 3,
        Error::ReplayedHandshakeInitiation => 4,
        Error::InitiationPredatesTunnel => 5,
        Error::InvalidAeadTag => 7,
        Error::ConnectionExpired => 11,
        Error::NoCurrentSession => 12,
        Error::ClockWentBack => 13,
        Error::DamagedState => 14,
        _ => 0,
    }
}

impl Expected {
    // Whether an answer is one that is expected: where a call is turned down, by its number.
    pub fn fits(self, answer: Result<Answer, Error>) -> bool {
        match (self, answer) {
            (Expected::Just(Err(reason)), Err(error)) => error.number() == number_of(reason),
            (Expected::Just(expected), _) => answer == expected,
            (Expected::Answered, _) => answer.is_ok(),
            (Expected::Undamaged, Err(error)) => error.number() != 14,
            (Expected::Undamaged, Ok(_)) => true,
        }
    }

    // Whether a call may change the tunnel and what was lent.
    pub fn changes(self) -> bool {
        !matches!(self, Expected::Just(_))
    }

    // The tunnel that must come back where nothing else may change: as it came, save that a call without an answer and a settling without
    // a waking raise the greatest time and that an initiation turned down by its outcome has used up its local index.
    pub fn left_by(self, mut tunnel: Tunnel, request: Request) -> Tunnel {
        match (self, request.call) {
            (Expected::Just(Ok(Answer::NoAnswer | Answer::Woke(_))), _) => {
                tunnel.greatest = request.now
            }
            (
                Expected::Just(
                    Err(
                        Error::WrongKey
                        | Error::ReplayedHandshakeInitiation
                        | Error::InitiationPredatesTunnel
                        | Error::InvalidAeadTag,
                    ),
                ),
                Call::HandleHandshakeInitiation,
            ) => tunnel.control.sessions.last_index = 261,
            _ => {}
        }
        tunnel
    }
}

// What a call on the sound tunnel gives: a start has nothing to send.
pub fn of_sound(call: Call) -> Expected {
    match call {
        Call::InitiateHandshake => Expected::Just(Ok(Answer::NoAnswer)),
        _ => Expected::Answered,
    }
}

// What a call on an expired tunnel gives; the event and the missing report are as ever.
fn of_ended(call: Call, report: Expected) -> Expected {
    match call {
        Call::InitiateHandshake | Call::RestartHandshake | Call::HandleTimeout => {
            Expected::Just(Ok(Answer::NoAnswer))
        }
        Call::PollEvent => Expected::Answered,
        Call::PollTimeout => Expected::Just(Ok(Answer::Deadline(None))),
        Call::Missing => report,
        Call::Settle => Expected::Just(Ok(Answer::Woke(0))),
        _ => Expected::Just(Err(Error::ConnectionExpired)),
    }
}

// What a call on an expired tunnel with sessions gives.
pub fn of_expired(call: Call) -> Expected {
    of_ended(call, Expected::Answered)
}

// What a call on an expired tunnel without sessions gives.
pub fn of_empty(call: Call) -> Expected {
    of_ended(call, Expected::Just(Err(Error::NoCurrentSession)))
}

// What an outcome gives: its own reason where the call names it, and otherwise that it is out of range.
pub fn of_outcome(call: Call, outcome: u64) -> Expected {
    match (outcome, call) {
        (0, _) => Expected::Answered,
        (7, _) => Expected::Just(Err(Error::InvalidAeadTag)),
        (3, Call::HandleHandshakeInitiation) => Expected::Just(Err(Error::WrongKey)),
        (4, Call::HandleHandshakeInitiation) => {
            Expected::Just(Err(Error::ReplayedHandshakeInitiation))
        }
        (5, Call::HandleHandshakeInitiation) => Expected::Just(Err(
            Error::InitiationPredatesTunnel,
        )),
        _ => Expected::Just(Err(Error::InvalidArgument)),
    }
}
