// Appending a callout to a log.
ghost use Rattle.std.specs.Prelude.{◌≡◌, ◌*◌, ◌<◌, length};
ghost use Rattle.callout_log.specs.Record.{is_time, is_verdict, records_bytes};
ghost use Rattle.callout_log.specs.Log.{every};
ghost use Rattle.callout_log.specs.Append.{OneLength, appending, append_log, beside, records_of, report_at, reported};

use crate::log::is_store;
use crate::record::{RECORD_SZ, Record, TIME_LIMIT, is_verdict, write_record};
use crate::trailer::{TRAILER_SZ, write_trailer};
use error::Error;

// The reports of a callout, in five lists side by side.
#[derive(Clone, Copy)]
pub struct Reports<'a> {
    pub times: &'a [u64],
    pub counters: &'a [u64],
    pub session_ids: &'a [u64],
    pub local_indices: &'a [u32],
    pub verdicts: &'a [u8],
}

impl Reports<'_> {
    // Whether the lists have one length.
    #[tactic(auto, unfolding(crate::specs::Append::beside, base::specs::Choice::choose))]
    fn are_beside(self) -> bool
        ensures { result ≡ beside (reported self.entry) }
    {
        let count = self.times.len();
        self.counters.len() == count
            && self.session_ids.len() == count
            && self.local_indices.len() == count
            && self.verdicts.len() == count
    }

    // The report at a place.
    #[tactic(auto, unfolding(crate::specs::Append::report_at))]
    fn at(self, i: usize) -> Record
        requires one { OneLength (reported self) }
        requires inside { i < length self.times.now }
        ensures { result ≡ report_at (reported self.entry) i }
    {
        Record {
            time: self.times[i],
            counter: self.counters[i],
            session_id: self.session_ids[i],
            local_index: self.local_indices[i],
            verdict: self.verdicts[i],
        }
    }
}

// Whether no time is above the limit.
fn are_times(times: &[u64]) -> bool
    ensures { result ≡ every is_time times.now }
{
    times.iter().all(|time| *time <= TIME_LIMIT)
}

// Whether each number is a verdict that a record may have.
fn are_verdicts(verdicts: &[u8]) -> bool
    ensures { result ≡ every is_verdict verdicts.now }
{
    verdicts.iter().all(|verdict| is_verdict(*verdict as u32))
}

// Writes the records of the reports.
#[tactic(auto, using(crate::proofs::Writing::writes))]
fn write_records(bytes: &mut [u8], reports: Reports)
    requires one { OneLength (reported reports) }
    requires long { length bytes.old ≡ 32 * length reports.times.now }
    ensures { bytes.new ≡ records_bytes (records_of (reported reports.entry)) }
{
    for i in 0..reports.times.len() {
        let at = RECORD_SZ * i;
        write_record(&mut bytes[at..at + RECORD_SZ], reports.at(i));
    }
}

// Appends a callout with a report for each place of the lists behind the used length of a store, of which it reads nothing, and answers
// the new used length. Turned down by InvalidTime, by InvalidArgument for the store, the used length, the lists or a verdict, by StoreFull
// where the free end is too short.
#[inline]
#[tactic(auto, using(crate::proofs::Appending::ways))]
pub fn append(store: &mut [u8], used: usize, reports: Reports) -> Result<usize, Error>
    ensures { appending result store.new ≡ append_log store.old used (reported reports.entry) }
{
    if !are_times(reports.times) {
        return Err(Error::InvalidTime);
    }
    if !is_store(store.len(), used) || !reports.are_beside() || !are_verdicts(reports.verdicts) {
        return Err(Error::InvalidArgument);
    }
    let count = reports.times.len();
    let free = store.len() - used;
    if free < TRAILER_SZ || count > (free - TRAILER_SZ) / RECORD_SZ {
        return Err(Error::StoreFull);
    }
    let trailer = used + RECORD_SZ * count;
    let end = trailer + TRAILER_SZ;
    write_records(&mut store[used..trailer], reports);
    write_trailer(&mut store[trailer..end], count as u32);
    Ok(end)
}
