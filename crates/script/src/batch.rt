// The messages of a batch in a line: pairs of a counter and a kind.
ghost use Rattle.std.specs.Prelude.{◌≤◌};

use crate::words::Words;
use error::Error;
use sessions::batch::{DATA, FAILED, KEEPALIVE};

// The most messages that are kept: one more than a batch may have.
pub(crate) const MESSAGES: usize = 1025;

// The messages at the front of the lists. Of more than the lists have places for, as many as they have.
#[derive(Drop)]
pub(crate) struct Batch {
    pub(crate) counters: [u64; MESSAGES],
    pub(crate) kinds: [u8; MESSAGES],
    pub(crate) len: usize,
    ghost within: { len ≤ 1025 },
}

// The kind that a word stands for: d, k or f.
fn kind_of(word: &[u8]) -> Result<u8, Error> {
    match word {
        b"d" => Ok(DATA),
        b"k" => Ok(KEEPALIVE),
        b"f" => Ok(FAILED),
        _ => Err(Error::InvalidArgument),
    }
}

impl Batch {
    // No message.
    pub(crate) fn new() -> Batch {
        Batch {
            counters: [0; MESSAGES],
            kinds: [0; MESSAGES],
            len: 0,
        }
    }

    // Adds a message while there is room.
    fn push(&mut self, counter: u64, kind: u8) {
        if self.len < MESSAGES {
            self.counters[self.len] = counter;
            self.kinds[self.len] = kind;
            self.len += 1;
        }
    }

    // Reads the messages to the line's end, in place of those before.
    pub(crate) fn read(&mut self, mut words: Words) -> Result<(), Error> {
        self.len = 0;
        while !words.is_empty() {
            let counter = words.number()?;
            let kind = kind_of(words.word()?)?;
            self.push(counter, kind);
        }
        Ok(())
    }
}
