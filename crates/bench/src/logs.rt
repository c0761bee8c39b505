// The callout log: a callout is appended over and over near the front of a store, or a log is read over and over.
ghost use Rattle.std.specs.Prelude.{◌≤◌};

use crate::sum;
use callout_log::append::{Reports, append};
use callout_log::read::{Lists, read};
use std::array;

// What the local indices are raised by from one record to the next.
const INDEX_STEP: u32 = 0x01020304;

// The number of records in a callout.
pub fn records_of(letter: u8) -> usize
    ensures { result ≤ 2047 }
{
    match letter {
        b'1' => 1,
        b'2' => 64,
        b'3' => 1024,
        _ => 2047,
    }
}

// The number of callouts in the log that is read.
pub fn callouts_of(pattern: u8) -> usize {
    match pattern {
        b'c' => 1365,
        _ => 1,
    }
}

// Numbers that are a step apart.
fn numbers(step: u64) -> [u64; 2047] {
    array::from_fn(|place| step.wrapping_mul(place as u64))
}

// Appends of one callout, each at one of the first sixteen places.
fn appends(store: &mut [u8], reports: Reports, turns: usize) -> u64 {
    let mut total = 0u64;
    for turn in 0..turns {
        let used = append(store, turn % 16, reports).unwrap_or(0);
        total = total.wrapping_add(used as u64);
    }
    total.wrapping_add(sum(store))
}

// The used length of a log of so many callouts with the same records, written to the front of a store.
fn write_log(store: &mut [u8], reports: Reports, callouts: usize) -> usize {
    let mut used = 0;
    for _ in 0..callouts {
        used = append(store, used, reports).unwrap_or(0);
    }
    used
}

// Reads of the log.
fn reads(store: &[u8], used: usize, lists: &mut Lists, turns: usize) -> u64 {
    let mut total = 0u64;
    for _ in 0..turns {
        let weight = match read(store, used, false, lists) {
            Ok(callouts) => callouts as u64,
            Err(error) => u64::from(error.number()),
        };
        total = total.wrapping_add(weight);
    }
    total
}

// Reads of the log, and the sum of what the lists hold in the end.
fn read_case(store: &[u8], used: usize, turns: usize) -> u64 {
    let mut counts = [0u32; 4096];
    let mut times = [0u64; 2048];
    let mut counters = [0u64; 2048];
    let mut session_ids = [0u64; 2048];
    let mut local_indices = [0u32; 2048];
    let mut verdicts = [0u8; 2048];
    let mut lists = Lists {
        counts: &mut counts,
        times: &mut times,
        counters: &mut counters,
        session_ids: &mut session_ids,
        local_indices: &mut local_indices,
        verdicts: &mut verdicts,
    };
    let answers = reads(store, used, &mut lists, turns);
    [times, counters, session_ids]
        .iter()
        .flatten()
        .copied()
        .fold(answers, u64::wrapping_add)
        .wrapping_add(u64::from(counts.iter().copied().fold(0, u32::wrapping_add)))
        .wrapping_add(u64::from(local_indices.iter().copied().fold(0, u32::wrapping_add)))
        .wrapping_add(sum(&verdicts))
}

// Reads a log of so many callouts, or appends one callout where no number is given, each of so many records: the sum of what is answered
// and of the numbers that are read or the bytes that are written.
pub fn logs(callouts: Option<usize>, records: usize, turns: usize) -> u64
    requires { records ≤ 2047 }
{
    let mut store = [0u8; 65536];
    let times = numbers(1_000_000_007);
    let counters = numbers(0x0102030405060708);
    let session_ids = numbers(3);
    let local_indices: [u32; 2047] = array::from_fn(|i| INDEX_STEP.wrapping_mul(i as u32));
    let verdicts: [u8; 2047] = array::from_fn(|place| [0, 7, 9, 10][place % 4]);
    let reports = Reports {
        times: &times[..records],
        counters: &counters[..records],
        session_ids: &session_ids[..records],
        local_indices: &local_indices[..records],
        verdicts: &verdicts[..records],
    };
    let Some(callouts) = callouts else {
        return appends(&mut store, reports, turns);
    };
    let used = write_log(&mut store, reports, callouts);
    read_case(&store, used, turns)
}
