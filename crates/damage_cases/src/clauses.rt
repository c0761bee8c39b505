// The cases of number 14: each clause and each call.
ghost use Rattle.std.specs.Prelude.{◌≤◌};

use crate::expected::{Expected, of_sound};
use crate::fields::{
    with_established, with_head, with_heard, with_keepalive, with_len, with_present,
    with_scheduled, with_session, with_timer,
};
use crate::judge::every;
use crate::request::{Request, good};
use crate::sound::{GREATEST, but, sound};
use crate::unlooked::unlooked;
use error::Error;
use sessions::session::REJECT_AFTER_MESSAGES;
use std::io;
use std::io::Write;
use tally::Tally;
use tunnel::timers::MAX_JITTER;
use tunnel::tunnel::{TIME_LIMIT, Tunnel};

// The filled slots.
const FILLED: [u8; 3] = [1, 2, 5];

// The empty slots.
const EMPTY: [u8; 5] = [0, 3, 4, 6, 7];

// The places of the ring that hold the queue.
const QUEUED: [u8; 7] = [12, 13, 14, 15, 0, 1, 2];

// The places of the ring that hold none of it.
const UNUSED: [u8; 9] = [3, 4, 5, 6, 7, 8, 9, 10, 11];

// What is expected of a call on a damaged tunnel.
const DAMAGED: Expected = Expected::Just(Err(Error::DamagedState));

// What is expected of a call on a tunnel that number 14 lets through.
const UNDAMAGED: Expected = Expected::Undamaged;

// The time from which the age of a filled slot's session counts.
fn established(slot: u8) -> u64
    ensures { 1 ≤ result }
{
    match slot {
        2 => 5500,
        _ => 3000,
    }
}

// The time at which a filled slot's session was last heard.
fn heard(slot: u8) -> u64
    ensures { result ≤ 5500 }
{
    match slot {
        2 => 5500,
        _ => 4000,
    }
}

// Each field of a slot at the last value that number 14 lets through.
fn at_edge(slot: u8) -> [Tunnel; 4] {
    let index = 4294967288 + u32::from(slot % 8);
    with_session(slot, heard(slot), REJECT_AFTER_MESSAGES, index)
}

// Each field of a slot at a value that number 14 does not let through in a filled one.
fn past_edge(slot: u8) -> [Tunnel; 4] {
    let index = 257 + u32::from(slot);
    with_session(slot, heard(slot) + 1, REJECT_AFTER_MESSAGES + 1, index)
}

// Every call on each of the tunnels, at a time that is good for it.
fn calls(tunnels: &[Tunnel], expected: Expected) -> Tally {
    tunnels
        .iter()
        .map(|tunnel| {
            let now = tunnel.greatest.min(TIME_LIMIT);
            every(*tunnel, |_| true, |call| good(call, now), |_| expected)
        })
        .sum()
}

// The cases of each of these slots or places.
fn each<F: Fn(u8) -> Tally>(places: &[u8], cases: F) -> Tally
    requires { F.IsAlwaysCallable cases }
{
    places.iter().map(|place| cases(*place)).sum()
}

// Every call on the sound tunnel, over a store whose words all hold this.
fn sound_calls(word: u64) -> Tally {
    every(
        sound(),
        |_| true,
        |call| Request {
            word,
            ..good(call, GREATEST)
        },
        of_sound,
    )
}

// The sound tunnel with its greatest time.
fn with_greatest(time: u64) -> Tunnel {
    but(|tunnel| tunnel.greatest = time)
}

// Writes the groups of damaged tunnels.
fn damaged_groups<W: Write>(out: &mut W) -> io::Result<()> {
    let greatest = calls(&[with_greatest(TIME_LIMIT + 1)], DAMAGED);
    let timers = calls(&with_timer(GREATEST + 1), DAMAGED);
    let present = calls(&with_present(GREATEST + 1), DAMAGED);
    let scheduled = calls(&[with_scheduled(GREATEST + MAX_JITTER + 1)], DAMAGED);
    let keepalive = calls(&[with_keepalive(0), with_keepalive(65536)], DAMAGED);
    let ring = calls(&[with_head(16), with_len(17)], DAMAGED);
    let filled = each(&FILLED, |slot| calls(&past_edge(slot), DAMAGED));
    let early = each(
        &FILLED,
        |slot| calls(&[with_heard(slot, established(slot) - 1)], DAMAGED),
    );
    let late = each(
        &FILLED,
        |slot| calls(&[with_heard(slot, GREATEST + 1)], DAMAGED),
    );
    let queued = each(
        &QUEUED,
        |place| calls(&with_established(place, GREATEST + 1), DAMAGED),
    );
    writeln!(out, "14 greatest time: {greatest}")?;
    writeln!(out, "14 timers: {timers}")?;
    writeln!(out, "14 present times: {present}")?;
    writeln!(out, "14 scheduled handshake: {scheduled}")?;
    writeln!(out, "14 keepalive: {keepalive}")?;
    writeln!(out, "14 ring head and length: {ring}")?;
    writeln!(out, "14 filled slots: {filled}")?;
    writeln!(out, "14 last heard before the session's time: {early}")?;
    writeln!(out, "14 last heard after the greatest time: {late}")?;
    writeln!(out, "14 queued events: {queued}")
}

// Every call on each tunnel with a field, but those of the slots and of the events, at the last value that number 14 lets through.
fn fields_at() -> Tally {
    calls(&[with_greatest(TIME_LIMIT)], UNDAMAGED)
        + calls(&with_timer(GREATEST), UNDAMAGED)
        + calls(&with_present(GREATEST), UNDAMAGED)
        + calls(&[with_scheduled(GREATEST + MAX_JITTER)], UNDAMAGED)
        + calls(&[with_keepalive(1), with_keepalive(65535)], UNDAMAGED)
        + calls(&[with_head(15), with_len(16)], UNDAMAGED)
}

// Writes the groups of tunnels that number 14 lets through.
fn let_through_groups<W: Write>(out: &mut W) -> io::Result<()> {
    let filled = each(&FILLED, |slot| calls(&at_edge(slot), UNDAMAGED));
    let heard = each(&FILLED, |slot| {
        calls(
            &[
                with_heard(slot, established(slot)),
                with_heard(slot, GREATEST),
            ],
            UNDAMAGED,
        )
    });
    let queued = each(
        &QUEUED,
        |place| calls(&with_established(place, GREATEST), UNDAMAGED),
    );
    let empty = each(&EMPTY, |slot| {
        calls(&past_edge(slot), UNDAMAGED) + calls(&[with_heard(slot, GREATEST + 1)], UNDAMAGED)
    });
    let unused = each(
        &UNUSED,
        |place| calls(&with_established(place, GREATEST + 1), UNDAMAGED),
    );
    let others = calls(&unlooked(), UNDAMAGED);
    let words = sound_calls(0) + sound_calls(u64::MAX);
    writeln!(out, "edges of fields: {}", fields_at())?;
    writeln!(out, "edges of filled slots: {filled}")?;
    writeln!(out, "edges of last heard times: {heard}")?;
    writeln!(out, "edges of queued events: {queued}")?;
    writeln!(out, "not looked at: empty slots: {empty}")?;
    writeln!(out, "not looked at: unused ring places: {unused}")?;
    writeln!(out, "not looked at: other fields: {others}")?;
    writeln!(out, "not looked at: words: {words}")
}

// Writes every group of number 14.
pub fn clause_groups<W: Write>(out: &mut W) -> io::Result<()> {
    writeln!(out, "sound: {}", sound_calls(1))?;
    damaged_groups(out)?;
    let_through_groups(out)
}
