// The order of the checks, a clock that goes back, and expired tunnels.
use crate::call::Call;
use crate::expected::{Expected, of_empty, of_expired};
use crate::judge::every;
use crate::request::{bad, good};
use crate::sound::{GREATEST, but, ended, sound, woken};
use error::Error;
use std::io;
use std::io::Write;
use tally::Tally;
use tunnel::tunnel::{TIME_LIMIT, Tunnel};

// The sound tunnel with its last update beyond the greatest time.
fn late() -> Tunnel {
    but(|tunnel| tunnel.last_update = GREATEST + 1)
}

// Every call with a time, with good arguments, is turned down for this.
fn timed(tunnel: Tunnel, now: u64, error: Error) -> Tally {
    every(
        tunnel,
        Call::has_time,
        |call| good(call, now),
        |_| Expected::Just(Err(error)),
    )
}

// Every call with a time and an argument that can be out of range, with bad arguments, is turned down for this.
fn timed_ranged(now: u64, error: Error) -> Tally {
    every(
        sound(),
        |call| call.has_time() && call.has_range(),
        |call| bad(call, now),
        |_| Expected::Just(Err(error)),
    )
}

// Writes the groups of the order.
fn order_of_checks<W: Write>(out: &mut W) -> io::Result<()> {
    let ranged = every(
        late(),
        Call::has_range,
        |call| bad(call, GREATEST),
        |_| Expected::Just(Err(Error::InvalidArgument)),
    );
    let all = every(
        late(),
        |_| true,
        |call| good(call, GREATEST - 1),
        |_| Expected::Just(Err(Error::DamagedState)),
    );
    writeln!(
        out,
        "1 before 2: {}",
        timed_ranged(TIME_LIMIT + 1, Error::InvalidTime)
    )?;
    writeln!(
        out,
        "1 before 14: {}",
        timed(late(), TIME_LIMIT + 1, Error::InvalidTime)
    )?;
    writeln!(out, "2 before 14: {ranged}")?;
    writeln!(
        out,
        "2 before 13: {}",
        timed_ranged(GREATEST - 1, Error::InvalidArgument)
    )?;
    writeln!(out, "14 before 13: {all}")?;
    writeln!(
        out,
        "13 before 11: {}",
        timed(ended(), GREATEST - 1, Error::ClockWentBack)
    )
}

// Writes the groups of the order, the clock and the end.
pub fn order_groups<W: Write>(out: &mut W) -> io::Result<()> {
    order_of_checks(out)?;
    let back = timed(sound(), GREATEST - 1, Error::ClockWentBack)
        + timed(sound(), 0, Error::ClockWentBack);
    let with_sessions = every(
        ended(),
        |_| true,
        |call| good(call, GREATEST + 1),
        of_expired,
    );
    let by_waking = every(
        woken(),
        |_| true,
        |call| good(call, 100_000_000_001),
        of_empty,
    );
    writeln!(out, "13 clock that goes back: {back}")?;
    writeln!(out, "11 expired with sessions: {with_sessions}")?;
    writeln!(out, "11 expired by a waking: {by_waking}")
}
