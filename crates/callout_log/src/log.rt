// The log in a store: its tests, and the walk over its trailers from the last one to the front.
ghost use Rattle.std.specs.Prelude.{◌≡◌, true, ◌+◌, ◌*◌, ◌≤◌, length, MatchResult};
ghost use Rattle.callout_log.specs.Record.{is_record};
ghost use Rattle.callout_log.specs.Trailer.{is_trailer};
ghost use Rattle.callout_log.specs.Log.{ends, ends_before, every, is_store, opened, places, places_from, walked_trailers};

use crate::record::{RECORD_SZ, is_record};
use crate::trailer::{distance, records_before, trailer_before};
use error::Error;

// The most bytes that a store has.
pub const STORE_SZ: usize = 65536;

// Whether a store of so many bytes can hold a log of this used length.
#[tactic(auto, unfolding(crate::specs::Log::is_store, base::specs::Choice::choose))]
pub fn is_store(size: usize, used: usize) -> bool
    ensures { result ≡ is_store size used }
{
    size <= STORE_SZ && used <= size
}

// Walks from the last trailer to the front: how many callouts and records there are.
#[tactic(auto, using(crate::proofs::Walking::walks))]
fn walk(bytes: &[u8]) -> Result<(usize, usize), Error>
    ensures { result ≡ walked_trailers bytes.now }
{
    let mut end = bytes.len();
    let mut callouts = 0;
    let mut records = 0;
    while end > 0 {
        let count = trailer_before(bytes, end)?;
        end -= distance(count);
        callouts += 1;
        records += count as usize;
    }
    Ok((callouts, records))
}

// A callout of a log: where its first record stands, and how many it has.
#[derive(Clone, Copy)]
pub struct Callout {
    pub first: usize,
    pub count: u32,
}

// The callouts of a log up to a place, from the last one to the front.
#[derive(Drop)]
pub struct Callouts<'a> {
    pub bytes: &'a [u8],
    pub end: usize,
    ghost within: { end ≤ length bytes.now },
    ghost trailers: { every (is_trailer bytes.now) (ends_before end bytes.now end) ≡ true },
}

impl Iterator for Callouts<'_> {
    ghost use Rattle.std.specs.Iterator.{at_most};
    ghost use Rattle.callout_log.specs.Callouts.{Steps};

    type Item = Callout;

    ghost next_gives = { Steps };

    ghost remaining = { λ s. at_most s.end };

    #[tactic(auto, using(crate::proofs::Walking::steps))]
    fn next(&mut self) -> Option<Callout> {
        if self.end == 0 {
            return None;
        }
        let count = records_before(self.bytes, self.end);
        self.end -= distance(count);
        Some(Callout {
            first: self.end,
            count,
        })
    }
}

impl<'a> Callouts<'a> {
    // The callouts of a log with good trailers.
    #[tactic(auto, unfolding(crate::specs::Log::ends))]
    fn of(bytes: &'a [u8]) -> Callouts<'a>
        requires { every (is_trailer bytes.now) (ends bytes.now) ≡ true }
        ensures bytes { result.bytes.now ≡ bytes.now }
        ensures end { result.end ≡ length bytes.now }
    {
        Callouts {
            bytes,
            end: bytes.len(),
        }
    }
}

// Whether the records of a callout keep their rule.
fn are_records(bytes: &[u8], callout: Callout) -> bool
    requires { callout.first + 32 * callout.count ≤ length bytes.now }
    ensures { result ≡ every (is_record bytes.now) (places_from callout.first callout.count) }
{
    (0..callout.count as usize).all(|i| is_record(bytes, callout.first + RECORD_SZ * i))
}

// Whether all records of a log with good trailers keep their rule.
#[tactic(auto, using(crate::proofs::Walking::checks))]
fn are_callouts(bytes: &[u8]) -> bool
    requires { every (is_trailer bytes.now) (ends bytes.now) ≡ true }
    ensures { result ≡ every (is_record bytes.now) (places bytes.now) }
{
    for callout in Callouts::of(bytes) {
        if !are_records(bytes, callout) {
            return false;
        }
    }
    true
}

// A log whose trailers and records keep their rules, with the number of its callouts and that of its records.
#[derive(Clone, Copy)]
pub struct Log<'a> {
    pub bytes: &'a [u8],
    pub callouts: usize,
    pub records: usize,
    ghost trailers: { every (is_trailer bytes.now) (ends bytes.now) ≡ true },
    ghost callouts_counted: { callouts ≡ length (ends bytes.now) },
    ghost records_counted: { records ≡ length (places bytes.now) },
}

impl<'a> Log<'a> {
    // Its callouts.
    pub fn callouts(self) -> Callouts<'a>
        ensures bytes { result.bytes.now ≡ self.entry.bytes.now }
        ensures end { result.end ≡ length self.entry.bytes.now }
    {
        Callouts::of(self.bytes)
    }
}

// Opens the log in a store up to its used length.
#[tactic(auto, using(crate::proofs::Opening::ways))]
pub fn open(store: &[u8], used: usize) -> Result<Log<'_>, Error>
    ensures { MatchResult result (λ log. Ok log.bytes.now ≡ opened store.now used) (λ error. Err error ≡ opened store.now used) }
{
    if !is_store(store.len(), used) {
        return Err(Error::InvalidArgument);
    }
    let bytes = &store[..used];
    let (callouts, records) = walk(bytes)?;
    if !are_callouts(bytes) {
        return Err(Error::BrokenRecord);
    }
    Ok(Log {
        bytes,
        callouts,
        records,
    })
}
