// The lines about the callout log.
use crate::answer::{put_bytes, put_words};
use crate::reports::ReportLists;
use crate::words::{BYTES, Words};
use callout_log::append::append;
use callout_log::read::{Lists, read};
use error::Error;
use text::text::Output;

// The bytes that the log has room for.
const BUFFER: usize = 70000;

// The log: the first bytes of a buffer, and the used length that the calls are handed; and room for the reports of a line.
#[derive(Drop)]
pub(crate) struct Log {
    buffer: [u8; BUFFER],
    size: usize,
    used: usize,
    reports: ReportLists,
}

impl Log {
    // The log before the first line.
    pub(crate) fn new() -> Log {
        Log {
            buffer: [0; BUFFER],
            size: 65536,
            used: 0,
            reports: ReportLists::new(),
        }
    }

    // The store.
    fn store(&self) -> &[u8] {
        &self.buffer[..self.size.min(BUFFER)]
    }

    // The store, to be written to.
    fn store_mut(&mut self) -> &mut [u8] {
        let size = self.size.min(BUFFER);
        let buffer = &mut self.buffer[..];
        &mut buffer[..size]
    }

    // Gives the log a store of so many zero bytes.
    pub(crate) fn set_store(&mut self, words: Words, out: &mut Output) -> Result<(), Error> {
        let size = words.last_number()?;
        if size > BUFFER as u64 {
            return Err(Error::InvalidArgument);
        }
        self.size = size as usize;
        self.used = 0;
        self.store_mut().fill(0);
        out.put_text(b"ok");
        Ok(())
    }

    // Sets the used length.
    pub(crate) fn set_used(&mut self, words: Words, out: &mut Output) -> Result<(), Error> {
        self.used = words.last_number()? as usize;
        out.put_text(b"ok");
        Ok(())
    }

    // Writes bytes at a place of the store, where they fit in it.
    pub(crate) fn poke(
        &mut self,
        mut words: Words,
        bytes: &mut [u8; BYTES],
        out: &mut Output,
    ) -> Result<(), Error> {
        let at = words.number()? as usize;
        let len = words.last_bytes(bytes)?;
        let store = self.store_mut();
        if at > store.len() || len > store.len() - at {
            return Err(Error::InvalidArgument);
        }
        store[at..at + len].copy_from_slice(&bytes[..len]);
        out.put_text(b"ok");
        Ok(())
    }

    // Shows bytes of the store.
    pub(crate) fn peek(&self, mut words: Words, out: &mut Output) -> Result<(), Error> {
        let at = words.number()? as usize;
        let len = words.last_number()? as usize;
        let store = self.store();
        if at > store.len() || len > store.len() - at {
            return Err(Error::InvalidArgument);
        }
        put_bytes(out, &store[at..at + len]);
        Ok(())
    }

    // Appends a callout.
    pub(crate) fn append(&mut self, words: Words, out: &mut Output) -> Result<(), Error> {
        self.reports.read(words)?;
        let size = self.size.min(BUFFER);
        let store = &mut self.buffer[..];
        self.used = append(&mut store[..size], self.used, self.reports.reports())?;
        put_words(out, b"ok used", &[self.used as u64]);
        Ok(())
    }

    // Reads the log with lists of so many counts, up to 4,096, and records, up to 2,048; and tells its callouts, each with its count and
    // its records, which stand in the lists one after another.
    pub(crate) fn walk(&self, mut words: Words, out: &mut Output) -> Result<(), Error> {
        let c = words.number()?;
        let r = words.last_number()?;
        if c > 4096 || r > 2048 {
            return Err(Error::InvalidArgument);
        }
        let (c, r) = (c as usize, r as usize);
        let mut counts = [0u32; 4096];
        let mut times = [0u64; 2048];
        let mut counters = [0u64; 2048];
        let mut session_ids = [0u64; 2048];
        let mut local_indices = [0u32; 2048];
        let mut verdicts = [0u8; 2048];
        let mut lists = Lists {
            counts: &mut counts[..c],
            times: &mut times[..r],
            counters: &mut counters[..r],
            session_ids: &mut session_ids[..r],
            local_indices: &mut local_indices[..r],
            verdicts: &mut verdicts[..r],
        };
        let callouts = read(self.store(), self.used, false, &mut lists)?;
        put_words(out, b"ok log", &[callouts as u64]);
        let mut first = 0usize;
        for count in counts.iter().take(callouts) {
            out.put_number(u64::from(*count));
            let end = r.min(first.saturating_add(*count as usize));
            for i in first..end {
                out.put_number(times[i]);
                out.put_number(counters[i]);
                out.put_number(session_ids[i]);
                out.put_number(u64::from(local_indices[i]));
                out.put_number(u64::from(verdicts[i]));
            }
            first = end;
        }
        Ok(())
    }
}
