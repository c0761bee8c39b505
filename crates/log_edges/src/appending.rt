// The cases of appending. Each store has 165s before the call.
use crate::lists::{
    COUNTERS, LOCAL_INDICES, Lengths, SESSION_IDS, TIME_LIMIT, TIMES, VERDICTS, equal, fits,
};
use callout_log::append::{Reports, append};
use error::Error;
use std::io;
use std::io::Write;
use tally::Tally;

// A callout: how much of the lists is lent, and the time and the verdict of the fourth report.
#[derive(Clone, Copy)]
struct Callout {
    lengths: Lengths,
    time: u64,
    verdict: u8,
}

// A callout with so much of the lists, all of it right.
fn good(lengths: Lengths) -> Callout {
    Callout {
        lengths,
        time: 3,
        verdict: 9,
    }
}

impl Callout {
    // Appends the callout to a store.
    fn append(self, store: &mut [u8], used: usize) -> Result<usize, Error> {
        let mut times = TIMES;
        let mut verdicts = VERDICTS;
        times[3] = self.time;
        verdicts[3] = self.verdict;
        let reports = Reports {
            times: &times[..self.lengths.times.min(8)],
            counters: &COUNTERS[..self.lengths.counters.min(8)],
            session_ids: &SESSION_IDS[..self.lengths.session_ids.min(8)],
            local_indices: &LOCAL_INDICES[..self.lengths.local_indices.min(8)],
            verdicts: &verdicts[..self.lengths.verdicts.min(8)],
        };
        append(store, used, reports)
    }
}

// Appends the first so many records to a store.
pub fn append_records(store: &mut [u8], used: usize, count: usize) {
    let _ = good(equal(count)).append(store, used);
}

// Whether each byte is 165.
fn are_kept(bytes: &[u8]) -> bool {
    bytes.iter().all(|byte| *byte == 165)
}

// Whether an append to so many bytes of a store is turned down for a reason and leaves the store as it came, or answers the used length
// behind the callout and leaves the store before and behind it as it came.
fn holds(
    store: &mut [u8],
    size: usize,
    used: usize,
    callout: Callout,
    expected: Result<(), Error>,
) -> bool {
    let lent = size.min(store.len());
    let answer = callout.append(&mut store[..lent], used);
    match expected {
        Err(error) => fits(answer, Err(error)) && are_kept(store),
        Ok(()) => {
            let end = used.wrapping_add(16 + 32 * callout.lengths.times.min(8));
            let before = used.min(store.len());
            let behind = end.min(store.len());
            answer == Ok(end) && are_kept(&store[..before]) && are_kept(&store[behind..])
        }
    }
}

// An append to 256 bytes.
fn small(used: usize, callout: Callout, expected: Result<(), Error>) -> Tally {
    let mut store = [165u8; 256];
    Tally::from(holds(&mut store, 256, used, callout, expected))
}

// An append of the first so many records to so many bytes.
fn sized(size: usize, used: usize, count: usize, expected: Result<(), Error>) -> Tally {
    let mut store = [165u8; 65537];
    let callout = good(equal(count));
    Tally::from(holds(&mut store, size, used, callout, expected))
}

// Stores of few bytes: a trailer has 16, a record and its trailer 48.
fn few_bytes() -> Tally {
    sized(0, 0, 0, Err(Error::StoreFull))
        + sized(0, 1, 0, Err(Error::InvalidArgument))
        + sized(15, 0, 0, Err(Error::StoreFull))
        + sized(16, 0, 0, Ok(()))
        + sized(16, 1, 0, Err(Error::StoreFull))
        + sized(47, 0, 1, Err(Error::StoreFull))
        + sized(48, 0, 1, Ok(()))
        + sized(48, 48, 0, Err(Error::StoreFull))
}

// Stores of the most bytes, and of one more.
fn most_bytes() -> Tally {
    sized(65536, 65488, 1, Ok(()))
        + sized(65536, 65489, 1, Err(Error::StoreFull))
        + sized(65536, 65520, 0, Ok(()))
        + sized(65536, 65521, 0, Err(Error::StoreFull))
        + sized(65536, 65536, 0, Err(Error::StoreFull))
        + sized(65536, 65537, 0, Err(Error::InvalidArgument))
        + sized(65536, usize::MAX, 1, Err(Error::InvalidArgument))
        + sized(65537, 0, 1, Err(Error::InvalidArgument))
}

// Every length of one list beside four elements of each other, with the time of the fourth report: what four elements give, and what
// fewer and more.
fn lengths<L: Fn(usize) -> Lengths>(
    with: L,
    used: usize,
    time: u64,
    four: Result<(), Error>,
    other: Error,
) -> Tally
    requires { L.IsAlwaysCallable with }
{
    (0..9)
        .map(|len| {
            let callout = Callout {
                lengths: with(len),
                time,
                verdict: 9,
            };
            small(used, callout, if len == 4 { four } else { Err(other) })
        })
        .sum()
}

// Every list but that of times.
fn lists(used: usize, time: u64, four: Result<(), Error>, other: Error) -> Tally {
    let others = equal(4);
    lengths(
        |counters| Lengths { counters, ..others },
        used,
        time,
        four,
        other,
    ) + lengths(
        |session_ids| Lengths {
            session_ids,
            ..others
        },
        used,
        time,
        four,
        other,
    ) + lengths(
        |local_indices| Lengths {
            local_indices,
            ..others
        },
        used,
        time,
        four,
        other,
    ) + lengths(
        |verdicts| Lengths { verdicts, ..others },
        used,
        time,
        four,
        other,
    )
}

// The list of times at every length.
fn times_list() -> Tally {
    let others = equal(4);
    lengths(
        |times| Lengths { times, ..others },
        100,
        0,
        Ok(()),
        Error::InvalidArgument,
    )
}

// Four reports with a time and a verdict of the last.
fn fourth(used: usize, time: u64, verdict: u8, expected: Result<(), Error>) -> Tally {
    let callout = Callout {
        lengths: equal(4),
        time,
        verdict,
    };
    small(used, callout, expected)
}

// Verdicts: two that a record may have, and others, in a store with no room too.
fn verdicts() -> Tally {
    fourth(100, 0, 0, Ok(()))
        + fourth(100, 0, 10, Ok(()))
        + fourth(100, 0, 8, Err(Error::InvalidArgument))
        + fourth(100, 0, 255, Err(Error::InvalidArgument))
        + fourth(256, 0, 11, Err(Error::InvalidArgument))
}

// A time at the limit, and times above it in calls that would be turned down for another reason too.
fn times() -> Tally {
    fourth(100, TIME_LIMIT, 9, Ok(()))
        + fourth(100, TIME_LIMIT + 1, 9, Err(Error::InvalidTime))
        + fourth(100, TIME_LIMIT + 1, 255, Err(Error::InvalidTime))
        + fourth(256, TIME_LIMIT + 1, 9, Err(Error::InvalidTime))
        + fourth(257, u64::MAX, 9, Err(Error::InvalidTime))
        + lists(
            100,
            TIME_LIMIT + 1,
            Err(Error::InvalidTime),
            Error::InvalidTime,
        )
}

// Writes the groups of appending.
pub fn append_groups<W: Write>(out: &mut W) -> io::Result<()> {
    let lists = times_list()
        + lists(100, 0, Ok(()), Error::InvalidArgument)
        + lists(256, 0, Err(Error::StoreFull), Error::InvalidArgument);
    writeln!(out, "append, stores: {}", few_bytes() + most_bytes())?;
    writeln!(out, "append, lists: {lists}")?;
    writeln!(out, "append, times: {}", times())?;
    writeln!(out, "append, verdicts: {}", verdicts())
}
