// A granted range of counters: the Rust's `PendingEncapsulate` without its key.
ghost use Rattle.std.specs.Prelude.{◌≡◌};
ghost use Rattle.sessions.specs.Range.{ends_above_limit, split_off};

use crate::session::REJECT_AFTER_MESSAGES;
use error::Error;

// Consecutive counters granted for messages to one peer.
#[derive(Clone, Copy, PartialEq, Eq)]
pub struct Range {
    // The peer's index.
    pub peer: u32,
    pub first: u64,
    pub len: u64,
}

impl Range {
    // Whether the range ends above the counter limit.
    #[tactic(auto, unfolding(crate::specs::Range::ends_above_limit))]
    fn ends_above_limit(self) -> bool
        ensures { result ≡ ends_above_limit self }
    {
        self.len > REJECT_AFTER_MESSAGES || self.first > REJECT_AFTER_MESSAGES - self.len
    }

    // Splits off the counters from `at` onwards. At the whole length or beyond it answers nothing; a length or a cut of 0 and a range that
    // ends above the limit are turned down.
    #[tactic(auto, unfolding(crate::specs::Range::split_off, crate::specs::Range::ends_above_limit, base::specs::Choice::choose))]
    pub fn split_off(self, at: u64) -> Result<Option<(Range, Range)>, Error>
        ensures { result ≡ split_off self at }
    {
        if self.len == 0 || at == 0 || self.ends_above_limit() {
            return Err(Error::InvalidArgument);
        }
        if at >= self.len {
            return Ok(None);
        }
        Ok(Some((
            Range { len: at, ..self },
            Range {
                first: self.first + at,
                len: self.len - at,
                ..self
            },
        )))
    }
}
