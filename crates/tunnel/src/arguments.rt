// What the calls make of their arguments, and which arguments number 2 turns down.
#![tactic(auto, unfolding(crate::specs::Arguments::interval_of, crate::specs::Arguments::opening_outcome, crate::specs::Arguments::initiation_outcome, crate::specs::Arguments::unnamed, crate::specs::Arguments::lacking, crate::specs::Arguments::bad_outcome, crate::specs::Arguments::bad_jitter, crate::specs::Arguments::bad_batch, crate::specs::Arguments::creation_number, base::specs::Choice::choose))]

ghost use Rattle.std.specs.Prelude.{◌≡◌};
ghost use Rattle.tunnel.specs.Arguments.{interval_of, opening_outcome, initiation_outcome, lacking, bad_outcome, bad_jitter, bad_batch, creation_number};

use crate::timers::MAX_JITTER;
use crate::tunnel::TIME_LIMIT;
use error::Error;
use sessions::batch::fits;

// The keepalive interval that a number of seconds stands for: 0 is none.
pub(crate) fn interval_of(seconds: u64) -> Option<u64>
    ensures { result ≡ interval_of seconds }
{
    match seconds {
        0 => None,
        _ => Some(seconds),
    }
}

// The outcome of opening a message: 0 good, 7 failed; no other number is named.
pub(crate) fn opening_outcome(outcome: u64) -> Option<Result<(), Error>>
    ensures { result ≡ opening_outcome outcome }
{
    match outcome {
        0 => Some(Ok(())),
        7 => Some(Err(Error::InvalidAeadTag)),
        _ => None,
    }
}

// The outcome of an incoming initiation: 0 good, 3 wrong key, 4 replayed, 5 predates the tunnel, 7 failed; no other number is named.
pub(crate) fn initiation_outcome(outcome: u64) -> Option<Result<(), Error>>
    ensures { result ≡ initiation_outcome outcome }
{
    match outcome {
        0 => Some(Ok(())),
        3 => Some(Err(Error::WrongKey)),
        4 => Some(Err(Error::ReplayedHandshakeInitiation)),
        5 => Some(Err(Error::InitiationPredatesTunnel)),
        7 => Some(Err(Error::InvalidAeadTag)),
        _ => None,
    }
}

// Whether a store is not of 1,024 words.
pub(crate) fn lacks(store: &[u64]) -> bool
    ensures { result ≡ lacking store.now }
{
    store.len() != 1024
}

// Whether number 2 turns down an outcome or the store that comes with it.
pub(crate) fn bad_outcome(outcome: Option<Result<(), Error>>, store: &[u64]) -> bool
    ensures { result ≡ bad_outcome outcome store.now }
{
    outcome.is_none() || lacks(store)
}

// Whether number 2 turns down a jitter or the store that comes with it.
pub(crate) fn bad_jitter(jitter: u64, store: &[u64]) -> bool
    ensures { result ≡ bad_jitter jitter store.now }
{
    jitter > MAX_JITTER || lacks(store)
}

// Whether number 2 turns down a batch's lists or the store that comes with them.
pub(crate) fn bad_batch(
    store: &[u64],
    counters: &[u64],
    kinds: &[u8],
    verdicts: &[u8],
    skips: &[u64],
) -> bool
    ensures { result ≡ bad_batch store.now counters.now kinds.now verdicts.now skips.now }
{
    lacks(store) || !fits(counters, kinds, verdicts, skips)
}

// Whether a creation is let through, or what turns it down.
pub(crate) fn creation_number(store: &[u64], keepalive: u64, now: u64) -> Result<(), Error>
    ensures { result ≡ creation_number store.now keepalive now }
{
    if now > TIME_LIMIT {
        return Err(Error::InvalidTime);
    }
    if keepalive > 65535 || lacks(store) {
        return Err(Error::InvalidArgument);
    }
    Ok(())
}
