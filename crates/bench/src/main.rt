// Makes one call over and over, so that its instructions can be counted: standard input has the case's letter, the pattern of the
// counters, the length of a batch, and then a byte for each turn. It writes four numbers of the tunnel as the turns left it, or, where
// datagrams or logs are read or written, a sum.
#![tactic(auto)]

mod begin;
mod counters;
mod datagrams;
mod day;
mod lists;
mod logs;
mod turns;

ghost use Rattle.std.specs.Prelude.{◌≤◌};

use crate::begin::{carrying, established, filled, started, weight};
use crate::counters::fill;
use crate::day::rounds;
use crate::lists::Lists;
use crate::logs::{callouts_of, logs, records_of};
use crate::turns::{
    SECOND, deadlines, drained, events, looks, receives, reports, sends, settles, wakes,
};
use std::io;
use std::io::{Read, Write};
use tunnel::tunnel::{Answered, Tunnel};

// What the input asks for.
#[derive(Clone, Copy)]
struct Asked<'a> {
    case: u8,
    pattern: u8,
    len: u8,
    turns: &'a [u8],
}

// Reads what is asked for: no turn where the input is too short.
fn ask(input: &[u8]) -> Asked<'_> {
    match input {
        [case, pattern, len, turns @ ..] => Asked {
            case: *case,
            pattern: *pattern,
            len: *len,
            turns,
        },
        _ => Asked {
            case: 0,
            pattern: 0,
            len: 0,
            turns: &[],
        },
    }
}

// The number of messages in a batch.
fn length_of(letter: u8) -> usize
    ensures { (1 ≤ result) × (result ≤ 1024) }
{
    match letter {
        b'1' => 1,
        b'2' => 64,
        _ => 1024,
    }
}

// The sum of bytes.
fn sum(bytes: &[u8]) -> u64 {
    bytes
        .iter()
        .fold(0, |total, byte| total.wrapping_add(u64::from(*byte)))
}

// Carries out a case of a tunnel: the tunnel as its turns leave it. Nine batches come before missing reports.
fn run(case: u8, counters: &[u64], lists: &mut Lists, turns: u64) -> Tunnel {
    match case {
        b's' => sends(established(lists.store, 0), turns),
        b'r' => receives(established(lists.store, 25), counters, lists, turns),
        b'q' => receives(established(lists.store, 25), counters, lists, 9),
        b'm' => rounds(established(lists.store, 25), counters, lists, turns),
        b'k' => wakes(established(lists.store, 1), lists.store, SECOND, turns),
        b'h' => wakes(started(lists.store, 0), lists.store, 5 * SECOND, turns),
        b'i' => wakes(carrying(lists.store), lists.store, 1, turns),
        b't' => drained(settles(carrying(lists.store), lists.store, 1, turns)),
        b'u' => drained(settles(established(lists.store, 1), lists.store, SECOND, turns)),
        b'l' => looks(carrying(lists.store), lists.store, turns),
        b'd' => deadlines(carrying(lists.store), turns),
        b'f' => deadlines(filled(lists.store), turns),
        _ => events(carrying(lists.store), turns),
    }
}

// Writes a number that depends on a call's answer.
fn print<W: Write>(out: &mut W, answered: Answered) -> io::Result<()> {
    let number = weight(answered.answer);
    write!(out, "{number} ")
}

// The cases of a tunnel: the last of the missing reports, one where they are not the case, the deadline, the counter of a send and the
// verdicts' sum.
fn tunnel_case<W: Write>(out: &mut W, asked: Asked) -> io::Result<()> {
    let mut store = [0u64; 1024];
    let mut counters = [0u64; 65536];
    let kinds = [0u8; 1024];
    let mut verdicts = [0u8; 1024];
    let mut skips = [0u64; 1024];
    let len = length_of(asked.len);
    let turns = asked.turns.len() as u64;
    fill(&mut counters, asked.pattern);
    let mut lists = Lists {
        store: &mut store,
        kinds: &kinds[..len],
        verdicts: &mut verdicts[..len],
        skips: &mut skips[..len],
    };
    let tunnel = run(asked.case, &counters, &mut lists, turns);
    let counted = if asked.case == b'q' { turns } else { 1 };
    print(out, reports(tunnel, &store, counted))?;
    print(out, tunnel.poll_timeout())?;
    print(out, tunnel.send(1, tunnel.greatest))?;
    let total = sum(&verdicts);
    writeln!(out, "{total}")
}

fn main(rt: HostRuntime) -> io::Result<()> {
    let mut input = [0u8; 65536];
    let count = rt.reader().read(&mut input)?;
    let mut out = io::writer(&rt);
    let asked = ask(&input[..count]);
    let turns = asked.turns.len();
    let total = match asked.case {
        b'g' => datagrams::read_case(asked.turns),
        b'w' => datagrams::write_case(turns),
        b'a' => logs(None, records_of(asked.len), turns),
        b'v' => logs(
            Some(callouts_of(asked.pattern)),
            records_of(asked.len),
            turns,
        ),
        _ => return tunnel_case(&mut out, asked),
    };
    writeln!(out, "{total}")
}
