// The words of a line, read one after another. What cannot be read is turned down as an invalid argument.
ghost use Rattle.std.specs.Prelude.{◌≤◌, IfOk, OnOk, length};
ghost use Rattle.script.specs.Words.{Further};

use error::Error;
use text::hex::read_hex;
use text::word::{read_number, skip_spaces, word_end};

// The places for the bytes that a word stands for: more than a word of the longest line needs.
pub(crate) const BYTES: usize = 32768;

// The words that are left: the position stands at the first byte of the next one, or at the line's end.
#[derive(Clone, Copy)]
pub(crate) struct Words<'a> {
    line: &'a [u8],
    at: usize,
}

impl<'a> Words<'a> {
    // All words of a line.
    pub(crate) fn new(line: &'a [u8]) -> Words<'a> {
        Words {
            line,
            at: skip_spaces(line, 0),
        }
    }

    // Whether no word is left.
    pub(crate) fn is_empty(self) -> bool {
        self.at >= self.line.len()
    }

    // The next word.
    pub(crate) fn word(&mut self) -> Result<&'a [u8], Error>
        ensures { OnOk result (Further self.old self.new) }
    {
        let start = self.at;
        let end = word_end(self.line, start);
        if start >= end {
            return Err(Error::InvalidArgument);
        }
        self.at = skip_spaces(self.line, end);
        Ok(&self.line[start..end])
    }

    // The next word, a number.
    pub(crate) fn number(&mut self) -> Result<u64, Error>
        ensures { OnOk result (Further self.old self.new) }
    {
        let (number, next) = read_number(self.line, self.at).ok_or(Error::InvalidArgument)?;
        self.at = next;
        Ok(number)
    }

    // The next word, an index of 32 bits.
    pub(crate) fn index(&mut self) -> Result<u32, Error>
        ensures { OnOk result (Further self.old self.new) }
    {
        u32::try_from(self.number()?).or(Err(Error::InvalidArgument))
    }

    // The end of the line.
    pub(crate) fn end(self) -> Result<(), Error> {
        if self.is_empty() {
            Ok(())
        } else {
            Err(Error::InvalidArgument)
        }
    }

    // The last word, a number.
    pub(crate) fn last_number(mut self) -> Result<u64, Error> {
        let number = self.number()?;
        self.end()?;
        Ok(number)
    }

    // The last word, an index of 32 bits.
    pub(crate) fn last_index(mut self) -> Result<u32, Error> {
        let index = self.index()?;
        self.end()?;
        Ok(index)
    }

    // The last word, bytes in hexadecimal digits: it is read into a buffer, at whose front so many bytes stand.
    pub(crate) fn last_bytes(mut self, bytes: &mut [u8]) -> Result<usize, Error>
        ensures { IfOk result (λ n. n ≤ length bytes.new) }
    {
        let word = self.word()?;
        self.end()?;
        read_hex(word, bytes).ok_or(Error::InvalidArgument)
    }
}
