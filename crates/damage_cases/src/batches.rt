// Batches that the state turns down: an expired tunnel, and no live session with the local index and the session id. The session
// that the others stand beside is the sound tunnel's with local index 257 and session id 0.
use crate::call::Call;
use crate::expected::Expected;
use crate::fields::in_slot;
use crate::judge::one;
use crate::request::{Request, equal, good};
use crate::sound::{GREATEST, ended, sound, woken};
use error::Error;
use std::io;
use std::io::Write;
use tally::Tally;
use tunnel::tunnel::Tunnel;

// The time at which the session, established at 3,000, is 180 s old.
const TOO_OLD: u64 = 180_000_003_000;

// What is expected of a batch on an expired tunnel.
const EXPIRED: Expected = Expected::Just(Err(Error::ConnectionExpired));

// What is expected of a batch for no live session.
const NO_SESSION: Expected = Expected::Just(Err(Error::NoCurrentSession));

// A request with no messages, with three and with as many as a batch may have.
fn lengths(tunnel: Tunnel, request: Request, expected: Expected) -> Tally {
    [0, 3, 1024]
        .into_iter()
        .map(|len| {
            let lengths = equal(len);
            one(tunnel, Request { lengths, ..request }, expected)
        })
        .sum()
}

// Batches with good arguments at a time.
fn batches_at(tunnel: Tunnel, now: u64, expected: Expected) -> Tally {
    lengths(tunnel, good(Call::Receive, now), expected)
}

// Batches with the session's local index and a session id.
fn id_batches(id: u64, expected: Expected) -> Tally {
    let request = good(Call::Receive, GREATEST + 1);
    lengths(sound(), Request { id, ..request }, expected)
}

// Batches with a local index and the session's id, for which there is no session.
fn index_batches(tunnel: Tunnel, index: u32) -> Tally {
    let request = good(Call::Receive, GREATEST + 1);
    lengths(tunnel, Request { index, ..request }, NO_SESSION)
}

// The sound tunnel with local index 256 in slot 0, which is empty.
fn unfilled() -> Tunnel {
    in_slot(0, |session| session.receiving_index = 256)
}

// Writes the groups of batches that the state turns down: expired tunnels, with sessions and without; the session's id, another session's
// and the greatest; the local index of an empty slot, of an empty slot that holds it, and of the session's slot; and the session's age, a
// nanosecond below 180 s and 180 s.
pub fn batch_groups<W: Write>(out: &mut W) -> io::Result<()> {
    let expired = batches_at(ended(), GREATEST + 1, EXPIRED)
        + batches_at(woken(), 100_000_000_001, EXPIRED);
    let ids = id_batches(0, Expected::Answered)
        + id_batches(1, NO_SESSION)
        + id_batches(u64::MAX, NO_SESSION);
    let indices = index_batches(sound(), 259)
        + index_batches(unfilled(), 256)
        + index_batches(sound(), 265);
    let ages = batches_at(sound(), TOO_OLD - 1, Expected::Answered)
        + batches_at(sound(), TOO_OLD, NO_SESSION);
    writeln!(out, "11 batches: {expired}")?;
    writeln!(out, "12 session id of a batch: {ids}")?;
    writeln!(out, "12 local index of a batch: {indices}")?;
    writeln!(out, "12 age of a batch's session: {ages}")
}
