// The rights: which operations each kind of user has.
#![tactic(auto, using(base::proofs::Choice::picks), unfolding(base::specs::Choice::choose, crate::specs::Rights::allowed, crate::specs::Rights::operator_may, crate::specs::Rights::controller_may))]

ghost use Rattle.std.specs.Prelude.{◌≡◌};
ghost use Rattle.access.specs.Rights.{NamesKind, NamesOperation, allowed, kind_number, operation_number};

use error::Error;

// The kinds of user, each with its number.
#[derive(Clone, Copy, PartialEq, Eq)]
pub enum Kind {
    // Sends, receives, wakes, settles and takes events.
    Operator = 0,
    // Reads the deadline, the missing reports and the whole log.
    Controller = 1,
    // Reads the log with its fields hidden.
    Trainer = 2,
}

// What a user can ask for, each with its number.
#[derive(Clone, Copy, PartialEq, Eq)]
pub enum Operation {
    // To grant a range of counters.
    Send = 0,
    // To commit a batch.
    Receive = 1,
    // To wake the tunnel.
    Wake = 2,
    // To make the wakings that are due.
    Settle = 3,
    // To take the oldest event.
    Event = 4,
    // To read the deadline.
    Deadline = 5,
    // To read a missing report.
    Missing = 6,
    // To read the log, copied or in lists.
    Log = 7,
}

impl TryFrom<u64> for Kind {
    type Error = Error;

    ghost try_from_gives = { NamesKind };

    // The kind of user with a number; an unknown one has no rights.
    fn try_from(number: u64) -> Result<Kind, Error> {
        match number {
            0 => Ok(Kind::Operator),
            1 => Ok(Kind::Controller),
            2 => Ok(Kind::Trainer),
            _ => Err(Error::OutsideRights),
        }
    }
}

impl TryFrom<u64> for Operation {
    type Error = Error;

    ghost try_from_gives = { NamesOperation };

    // The operation with a number; an unknown one is in nobody's rights.
    fn try_from(number: u64) -> Result<Operation, Error> {
        match number {
            0 => Ok(Operation::Send),
            1 => Ok(Operation::Receive),
            2 => Ok(Operation::Wake),
            3 => Ok(Operation::Settle),
            4 => Ok(Operation::Event),
            5 => Ok(Operation::Deadline),
            6 => Ok(Operation::Missing),
            7 => Ok(Operation::Log),
            _ => Err(Error::OutsideRights),
        }
    }
}

impl Kind {
    // Whether an operation is in this kind's rights.
    fn may(self, operation: Operation) -> bool
        ensures { result ≡ allowed (kind_number self) (operation_number operation) }
    {
        match self {
            Kind::Operator => matches!(
                operation,
                Operation::Send
                    | Operation::Receive
                    | Operation::Wake
                    | Operation::Settle
                    | Operation::Event
            ),
            Kind::Controller => matches!(
                operation,
                Operation::Deadline | Operation::Missing | Operation::Log
            ),
            Kind::Trainer => operation == Operation::Log,
        }
    }
}

// Whether an operation is in the rights of a kind of user: none is in those of an unknown kind, and an unknown operation is in nobody's.
pub fn allowed(user: u64, operation: u64) -> bool
    ensures { result ≡ allowed user operation }
{
    match (Kind::try_from(user), Operation::try_from(operation)) {
        (Ok(kind), Ok(operation)) => kind.may(operation),
        _ => false,
    }
}
