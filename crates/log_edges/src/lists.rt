// The lists that are lent, eight elements each, of which a call gets the first ones; and whether an answer is the one that is expected.
use error::Error;

// The greatest time of a record.
pub const TIME_LIMIT: u64 = 4_000_000_000_000_000_000;

// The times of seven reports, and 165, what each list that is read into holds before.
pub const TIMES: [u64; 8] = [TIME_LIMIT, 0, 2, 3, 4, 5, 6, 165];

// Their counters.
pub const COUNTERS: [u64; 8] = [u64::MAX, 0, 5, 6, 4, 5, 6, 165];

// Their session ids.
pub const SESSION_IDS: [u64; 8] = [9223372036854775808, 0, 8, 9, 4, 5, 6, 165];

// Their local indices.
pub const LOCAL_INDICES: [u32; 8] = [u32::MAX, 0, 11, 12, 4, 5, 6, 165];

// Their verdicts.
pub const VERDICTS: [u8; 8] = [10, 0, 7, 9, 0, 7, 9, 165];

// The number of a reason to turn a call down, 0 for one that neither call gives.
fn number_of(reason: Error) -> u8 {
    match reason {
        Error::InvalidTime => 1,
        Error::InvalidArgument => 2,
        Error::BrokenTrailer => 17,
        Error::BrokenRecord => 18,
        Error::StoreFull => 19,
        _ => 0,
    }
}

// Whether an answer is the one that is expected: where a call is turned down, by its number.
pub fn fits(answer: Result<usize, Error>, expected: Result<usize, Error>) -> bool {
    match (answer, expected) {
        (Err(error), Err(reason)) => error.number() == number_of(reason),
        _ => answer == expected,
    }
}

// How many elements of each list are lent.
#[derive(Clone, Copy)]
pub struct Lengths {
    pub counts: usize,
    pub times: usize,
    pub counters: usize,
    pub session_ids: usize,
    pub local_indices: usize,
    pub verdicts: usize,
}

// So many elements of every list.
pub fn equal(len: usize) -> Lengths {
    Lengths {
        counts: len,
        times: len,
        counters: len,
        session_ids: len,
        local_indices: len,
        verdicts: len,
    }
}
