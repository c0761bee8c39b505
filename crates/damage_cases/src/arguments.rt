// The cases of numbers 1 and 2: arguments out of range.
use crate::call::Call;
use crate::expected::{Expected, of_outcome};
use crate::judge::{every, one};
use crate::request::{Lengths, Request, equal, good};
use crate::sound::{GREATEST, sound};
use error::Error;
use std::io;
use std::io::Write;
use tally::Tally;
use tunnel::timers::MAX_JITTER;
use tunnel::tunnel::TIME_LIMIT;

// What is expected of a call with an argument out of range.
const INVALID: Expected = Expected::Just(Err(Error::InvalidArgument));

// Every call that has a time, at a time above the limit.
fn time_cases(now: u64) -> Tally {
    every(
        sound(),
        Call::has_time,
        |call| good(call, now),
        |_| Expected::Just(Err(Error::InvalidTime)),
    )
}

// Every call that takes the store, with a store of wrong length.
fn store_cases(words: usize) -> Tally {
    every(
        sound(),
        Call::has_store,
        |call| Request {
            words,
            ..good(call, GREATEST)
        },
        |_| INVALID,
    )
}

// A batch with lists of these lengths.
fn lists_case(lengths: Lengths, expected: Expected) -> Tally {
    let request = good(Call::Receive, GREATEST);
    one(sound(), Request { lengths, ..request }, expected)
}

// Lists of which one is longer or shorter than the others.
fn unequal_lists(some: usize, other: usize) -> Tally {
    let lengths = equal(some);
    lists_case(
        Lengths {
            counters: other,
            ..lengths
        },
        INVALID,
    ) + lists_case(
        Lengths {
            kinds: other,
            ..lengths
        },
        INVALID,
    ) + lists_case(
        Lengths {
            verdicts: other,
            ..lengths
        },
        INVALID,
    ) + lists_case(
        Lengths {
            skips: other,
            ..lengths
        },
        INVALID,
    )
}

// Lists of unequal length.
fn all_unequal_lists() -> Tally {
    unequal_lists(3, 2)
        + unequal_lists(3, 4)
        + unequal_lists(3, 0)
        + unequal_lists(0, 1)
        + unequal_lists(1024, 1023)
}

// Lists of more than 1,024, and the longest and the shortest that are taken.
fn long_lists() -> Tally {
    unequal_lists(1024, 1025)
        + lists_case(equal(1025), INVALID)
        + lists_case(equal(1024), Expected::Answered)
        + lists_case(equal(0), Expected::Answered)
}

// A batch of so many messages with a kind at a place.
fn kind_case(len: usize, place: usize, kind: u8, expected: Expected) -> Tally {
    let request = Request {
        kind,
        place,
        lengths: equal(len),
        ..good(Call::Receive, GREATEST)
    };
    one(sound(), request, expected)
}

// A kind at the first, a middle and the last place of a short batch and of the longest.
fn kind_places(kind: u8, expected: Expected) -> Tally {
    kind_case(3, 0, kind, expected)
        + kind_case(3, 1, kind, expected)
        + kind_case(3, 2, kind, expected)
        + kind_case(1024, 0, kind, expected)
        + kind_case(1024, 511, kind, expected)
        + kind_case(1024, 1023, kind, expected)
}

// Kinds that are not named, those that are, and one after the end of the list.
fn kinds() -> Tally {
    kind_places(3, INVALID)
        + kind_places(255, INVALID)
        + kind_places(1, Expected::Answered)
        + kind_places(2, Expected::Answered)
        + kind_case(3, 3, 3, Expected::Answered)
}

// The three handshake messages with an outcome.
fn outcome_cases(outcome: u64) -> Tally {
    every(
        sound(),
        Call::has_outcome,
        |call| Request {
            outcome,
            ..good(call, GREATEST)
        },
        |call| of_outcome(call, outcome),
    )
}

// The three handshake messages with outcomes from 0 to 16 and with great ones.
fn outcomes() -> Tally {
    (0..17).chain([256, u64::MAX]).map(outcome_cases).sum()
}

// A send of so many counters.
fn count_case(count: u64, expected: Expected) -> Tally {
    let request = good(Call::Send, GREATEST);
    one(sound(), Request { count, ..request }, expected)
}

// A call with a jitter.
fn jitter_case(call: Call, jitter: u64, expected: Expected) -> Tally {
    let request = good(call, GREATEST);
    one(sound(), Request { jitter, ..request }, expected)
}

// The jitters of a call at the edges.
fn jitters(call: Call) -> Tally {
    jitter_case(call, MAX_JITTER, Expected::Answered)
        + jitter_case(call, MAX_JITTER + 1, INVALID)
        + jitter_case(call, u64::MAX, INVALID)
}

// The counts and jitters at the edges.
fn numbers() -> Tally {
    count_case(0, INVALID)
        + count_case(1, Expected::Answered)
        + jitters(Call::HandleTimeout)
        + jitters(Call::Settle)
}

// Writes the groups of numbers 1 and 2.
pub fn argument_groups<W: Write>(out: &mut W) -> io::Result<()> {
    let times = time_cases(TIME_LIMIT + 1) + time_cases(u64::MAX);
    let stores = store_cases(0) + store_cases(1023) + store_cases(1025);
    writeln!(out, "1 time: {times}")?;
    writeln!(out, "2 store length: {stores}")?;
    writeln!(out, "2 unequal lists: {}", all_unequal_lists())?;
    writeln!(out, "2 long lists: {}", long_lists())?;
    writeln!(out, "2 kinds: {}", kinds())?;
    writeln!(out, "2 outcomes: {}", outcomes())?;
    writeln!(out, "2 count and jitter: {}", numbers())
}
