// The reports of a callout in a line: groups of a time, a counter, a session id, a local index and a verdict.
ghost use Rattle.std.specs.Prelude.{◌≤◌, OnOk};
ghost use Rattle.script.specs.Words.{Further};

use crate::words::Words;
use callout_log::append::Reports;
use error::Error;

// The most reports that the longest line has.
const REPORTS: usize = 6554;

// The reports at the front of the lists, with a place for each of the longest line.
#[derive(Drop)]
pub(crate) struct ReportLists {
    times: [u64; REPORTS],
    counters: [u64; REPORTS],
    session_ids: [u64; REPORTS],
    local_indices: [u32; REPORTS],
    verdicts: [u8; REPORTS],
    len: usize,
    ghost within: { len ≤ 6554 },
}

impl ReportLists {
    // No report.
    pub(crate) fn new() -> ReportLists {
        ReportLists {
            times: [0; REPORTS],
            counters: [0; REPORTS],
            session_ids: [0; REPORTS],
            local_indices: [0; REPORTS],
            verdicts: [0; REPORTS],
            len: 0,
        }
    }

    // Reads one more report, and keeps it while there is room. A verdict above 255 is kept as 255, which is none either.
    fn read_report(&mut self, words: &mut Words) -> Result<(), Error>
        ensures { OnOk result (Further words.old words.new) }
    {
        let time = words.number()?;
        let counter = words.number()?;
        let session_id = words.number()?;
        let local_index = words.index()?;
        let verdict = u8::try_from(words.number()?).unwrap_or(255);
        let i = self.len;
        if i < REPORTS {
            self.times[i] = time;
            self.counters[i] = counter;
            self.session_ids[i] = session_id;
            self.local_indices[i] = local_index;
            self.verdicts[i] = verdict;
            self.len += 1;
        }
        Ok(())
    }

    // Reads the reports to the line's end, in place of those before.
    pub(crate) fn read(&mut self, mut words: Words) -> Result<(), Error> {
        self.len = 0;
        while !words.is_empty() {
            self.read_report(&mut words)?;
        }
        Ok(())
    }

    // The reports.
    pub(crate) fn reports(&self) -> Reports<'_> {
        let n = self.len;
        Reports {
            times: &self.times[..n],
            counters: &self.counters[..n],
            session_ids: &self.session_ids[..n],
            local_indices: &self.local_indices[..n],
            verdicts: &self.verdicts[..n],
        }
    }
}
