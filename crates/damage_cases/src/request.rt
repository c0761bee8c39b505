// A call with its arguments.
use crate::call::Call;

// How many elements of each list of a batch are lent.
#[derive(Clone, Copy)]
pub struct Lengths {
    pub counters: usize,
    pub kinds: usize,
    pub verdicts: usize,
    pub skips: usize,
}

// So many elements of each list.
pub fn equal(len: usize) -> Lengths {
    Lengths {
        counters: len,
        kinds: len,
        verdicts: len,
        skips: len,
    }
}

// A call and its arguments. Of the store and the lists only so many elements are lent.
#[derive(Clone, Copy)]
pub struct Request {
    pub call: Call,
    pub now: u64,
    pub index: u32,
    // The id of the session that a batch is for.
    pub id: u64,
    pub peer: u32,
    // The counter of a look and of each message.
    pub counter: u64,
    pub count: u64,
    pub jitter: u64,
    pub outcome: u64,
    // The kind of the message at this place of the list; the others are data.
    pub kind: u8,
    pub place: usize,
    // What each word of the store holds.
    pub word: u64,
    pub words: usize,
    pub lengths: Lengths,
}

// The local index that the sound tunnel answers: an initiation's for a response or a cookie reply, otherwise a session's.
fn good_index(call: Call) -> u32 {
    match call {
        Call::HandleCookieReply | Call::HandleHandshakeResponse => 260,
        _ => 257,
    }
}

// A call with good arguments.
pub fn good(call: Call, now: u64) -> Request {
    Request {
        call,
        now,
        index: good_index(call),
        id: 0,
        peer: 7,
        counter: 9,
        count: 1,
        jitter: 0,
        outcome: 0,
        kind: 0,
        place: 0,
        word: 0x0123456789ABCDEF,
        words: 1024,
        lengths: equal(3),
    }
}

// A call whose every argument but the time is out of range.
pub fn bad(call: Call, now: u64) -> Request {
    Request {
        count: 0,
        jitter: 333_000_001,
        outcome: 9,
        words: 1023,
        ..good(call, now)
    }
}
