// The cases of reading. The log has three callouts, oldest first: one record in 48 bytes, none in 16, and three in 112.
use crate::appending::append_records;
use crate::lists::{COUNTERS, LOCAL_INDICES, Lengths, SESSION_IDS, TIMES, VERDICTS, equal, fits};
use callout_log::read::{Lists, read};
use error::Error;
use std::io;
use std::io::Write;
use tally::Tally;

// What the six lists hold.
#[derive(Clone, Copy, PartialEq, Eq)]
struct Held {
    counts: [u32; 8],
    times: [u64; 8],
    counters: [u64; 8],
    session_ids: [u64; 8],
    local_indices: [u32; 8],
    verdicts: [u8; 8],
}

// The counts after an answer, the last callout's first.
fn counts_after(answer: Result<usize, Error>) -> [u32; 8] {
    match answer {
        Ok(1) => [1, 165, 165, 165, 165, 165, 165, 165],
        Ok(2) => [0, 1, 165, 165, 165, 165, 165, 165],
        Ok(3) => [3, 0, 1, 165, 165, 165, 165, 165],
        _ => [165; 8],
    }
}

// Which of the reports are read with an answer, 7 for none.
fn reports_after(answer: Result<usize, Error>) -> [usize; 8] {
    match answer {
        Ok(1 | 2) => [0, 7, 7, 7, 7, 7, 7, 7],
        Ok(3) => [0, 1, 2, 0, 7, 7, 7, 7],
        _ => [7; 8],
    }
}

// What the lists must hold after an answer.
fn held_after(answer: Result<usize, Error>) -> Held {
    let reports = reports_after(answer);
    Held {
        counts: counts_after(answer),
        times: reports.map(|report| TIMES[report % 8]),
        counters: reports.map(|report| COUNTERS[report % 8]),
        session_ids: reports.map(|report| SESSION_IDS[report % 8]),
        local_indices: reports.map(|report| LOCAL_INDICES[report % 8]),
        verdicts: reports.map(|report| VERDICTS[report % 8]),
    }
}

// Whether reading the log in a store into so much of lists of 165s gives an answer.
fn holds(store: &[u8], used: usize, lengths: Lengths, answer: Result<usize, Error>) -> bool {
    let mut counts = [165; 8];
    let mut times = [165; 8];
    let mut counters = [165; 8];
    let mut session_ids = [165; 8];
    let mut local_indices = [165; 8];
    let mut verdicts = [165; 8];
    let mut lists = Lists {
        counts: &mut counts[..lengths.counts.min(8)],
        times: &mut times[..lengths.times.min(8)],
        counters: &mut counters[..lengths.counters.min(8)],
        session_ids: &mut session_ids[..lengths.session_ids.min(8)],
        local_indices: &mut local_indices[..lengths.local_indices.min(8)],
        verdicts: &mut verdicts[..lengths.verdicts.min(8)],
    };
    let answered = read(store, used, false, &mut lists);
    let held = Held {
        counts,
        times,
        counters,
        session_ids,
        local_indices,
        verdicts,
    };
    fits(answered, answer) && held == held_after(answer)
}

// Writes the log to the front of a store.
fn append_log(store: &mut [u8]) {
    append_records(store, 0, 1);
    append_records(store, 48, 0);
    append_records(store, 64, 3);
}

// The log in 256 bytes, one of which is set to 255.
fn small(at: usize, lengths: Lengths, answer: Result<usize, Error>) -> Tally {
    let mut store = [165u8; 256];
    append_log(&mut store);
    store[at % 256] = 255;
    Tally::from(holds(&store, 176, lengths, answer))
}

// Whether reading the log in so many bytes of a store gives an answer.
fn sized_holds(store: &mut [u8], size: usize, used: usize, answer: Result<usize, Error>) -> bool {
    let room = store.len().min(256);
    let end = size.min(store.len());
    append_log(&mut store[..room]);
    holds(&store[..end], used, equal(8), answer)
}

// The log in so many bytes.
fn sized(size: usize, used: usize, answer: Result<usize, Error>) -> Tally {
    let mut store = [165u8; 65537];
    Tally::from(sized_holds(&mut store, size, used, answer))
}

// Used lengths: those of the first callouts are good.
fn used_lengths() -> Tally {
    sized(0, 0, Ok(0))
        + sized(15, 15, Err(Error::BrokenTrailer))
        + sized(16, 16, Err(Error::BrokenTrailer))
        + sized(47, 47, Err(Error::BrokenTrailer))
        + sized(47, 48, Err(Error::InvalidArgument))
        + sized(48, 48, Ok(1))
        + sized(64, 64, Ok(2))
        + sized(176, 176, Ok(3))
        + sized(177, 177, Err(Error::BrokenTrailer))
}

// Stores of the most bytes, and of one more.
fn most_bytes() -> Tally {
    sized(65536, 0, Ok(0))
        + sized(65536, 176, Ok(3))
        + sized(65536, 65536, Err(Error::BrokenTrailer))
        + sized(65536, 65537, Err(Error::InvalidArgument))
        + sized(65536, usize::MAX, Err(Error::InvalidArgument))
        + sized(65537, 0, Err(Error::InvalidArgument))
        + sized(65537, 176, Err(Error::InvalidArgument))
}

// Every length of one list, of which so many elements are needed, beside lists of another length that is enough.
fn lengths<L: Fn(usize) -> Lengths>(needed: usize, with: L) -> Tally
    requires { L.IsAlwaysCallable with }
{
    (0..9)
        .map(|len| {
            let answer = if len < needed {
                Err(Error::InvalidArgument)
            } else {
                Ok(3)
            };
            small(255, with(len), answer)
        })
        .sum()
}

// Every list.
fn lists(others: usize) -> Tally {
    let others = equal(others);
    lengths(3, |counts| Lengths { counts, ..others })
        + lengths(4, |times| Lengths { times, ..others })
        + lengths(4, |counters| Lengths { counters, ..others })
        + lengths(
            4,
            |session_ids| Lengths {
                session_ids,
                ..others
            },
        )
        + lengths(
            4,
            |local_indices| Lengths {
                local_indices,
                ..others
            },
        )
        + lengths(4, |verdicts| Lengths { verdicts, ..others })
}

// Each byte from a place to another set to 255, with so much of every list lent.
fn bytes(from: usize, to: usize, len: usize, error: Error) -> Tally {
    (from..to).map(|at| small(at, equal(len), Err(error))).sum()
}

// The bytes of each trailer.
fn trailers(len: usize) -> Tally {
    bytes(32, 64, len, Error::BrokenTrailer) + bytes(160, 176, len, Error::BrokenTrailer)
}

// The last byte of the time, the verdict and the zero bytes of each record.
fn records(len: usize) -> Tally {
    [0, 64, 96, 128]
        .into_iter()
        .map(|at| {
            bytes(at + 7, at + 8, len, Error::BrokenRecord)
                + bytes(at + 28, at + 32, len, Error::BrokenRecord)
        })
        .sum()
}

// Writes the groups of reading.
pub fn read_groups<W: Write>(out: &mut W) -> io::Result<()> {
    writeln!(out, "read, stores: {}", used_lengths() + most_bytes())?;
    writeln!(out, "read, lists: {}", lists(4) + lists(8))?;
    writeln!(out, "read, trailers: {}", trailers(8) + trailers(0))?;
    writeln!(out, "read, records: {}", records(8) + records(0))
}
