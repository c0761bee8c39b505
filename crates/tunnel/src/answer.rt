// The answers of the calls.
use crate::event::Event;
use sessions::range::Range;

// What a call answers that is not turned down.
#[derive(Clone, Copy, PartialEq, Eq)]
pub enum Answer {
    // Good, and nothing to tell.
    Done,
    // Good, and there is nothing to send.
    NoAnswer,
    // The local index of an initiation.
    Initiation(u32),
    // The local index and the peer's index of a response.
    Response(u32, u32),
    // The peer's index and the counter of a keepalive.
    Keepalive(u32, u64),
    Granted(Range),
    // The oldest event, if any is queued.
    Polled(Option<Event>),
    Deadline(Option<u64>),
    // How many window counters are not committed.
    Report(u64),
    // How many wakings a settling made.
    Woke(u8),
}
