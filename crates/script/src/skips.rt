// The skips of the last batch that was answered good.
use crate::answer::put_words;
use crate::batch::MESSAGES;
use crate::words::Words;
use error::Error;
use text::text::Output;

// The skips of the last batch that was answered good since the tunnel was made, at the front of the list: of so many messages, or there
// is none yet. The list is lent to each batch, and one that is turned down leaves it as it came.
#[derive(Drop)]
pub(crate) struct Skips {
    pub(crate) list: [u64; MESSAGES],
    pub(crate) messages: Option<usize>,
}

impl Skips {
    // There is none yet.
    pub(crate) fn new() -> Skips {
        Skips {
            list: [0; MESSAGES],
            messages: None,
        }
    }

    // Tells the skips.
    pub(crate) fn tell(&self, words: Words, out: &mut Output) -> Result<(), Error> {
        words.end()?;
        match self.messages {
            None => out.put_text(b"ok none"),
            Some(messages) => put_words(out, b"ok", &self.list[..messages.min(MESSAGES)]),
        }
        Ok(())
    }
}
