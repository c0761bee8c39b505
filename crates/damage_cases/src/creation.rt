// The cases of creation.
use crate::expected::Expected;
use crate::sound::made;
use error::Error;
use std::io;
use std::io::Write;
use tally::Tally;
use tunnel::answer::Answer;
use tunnel::tunnel::{TIME_LIMIT, Tunnel};

// A creation over so many words that is turned down for this, with the words as they came and the tunnel of index 0.
fn turned_down(n: usize, keepalive: u64, now: u64, error: Error) -> Tally {
    let mut words = [7u64; 1025];
    let answered = Tunnel::new(&mut words[..n.min(1025)], 256, keepalive, now);
    Tally::from(
        Expected::Just(Err(error)).fits(answered.answer)
            && words == [7; 1025]
            && answered.tunnel == made(0, 0, 0),
    )
}

// A creation that is good and zeroes the store.
fn created(keepalive: u64, now: u64) -> Tally {
    let mut words = [7u64; 1024];
    let answered = Tunnel::new(&mut words, u32::MAX, keepalive, now);
    Tally::from(answered.answer == Ok(Answer::Done) && words == [0; 1024])
}

// Writes the groups of creation.
pub fn creation_groups<W: Write>(out: &mut W) -> io::Result<()> {
    let times = turned_down(1024, 25, TIME_LIMIT + 1, Error::InvalidTime)
        + turned_down(1023, 65536, TIME_LIMIT + 1, Error::InvalidTime);
    let arguments = turned_down(0, 25, 0, Error::InvalidArgument)
        + turned_down(1023, 25, 0, Error::InvalidArgument)
        + turned_down(1025, 25, 0, Error::InvalidArgument)
        + turned_down(1024, 65536, 0, Error::InvalidArgument);
    writeln!(out, "creation 1: {times}")?;
    writeln!(out, "creation 2: {arguments}")?;
    writeln!(
        out,
        "creation: {}",
        created(0, 0) + created(65535, TIME_LIMIT)
    )
}
