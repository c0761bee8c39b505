// Reading a log: its callouts from the last to the first, the records of each front to back.
ghost use Rattle.std.specs.Prelude.{◌≡◌, true, ◌+◌, ◌*◌, ◌≤◌, map, length};
ghost use Rattle.callout_log.specs.Record.{record_at, shown};
ghost use Rattle.callout_log.specs.Trailer.{count_before};
ghost use Rattle.callout_log.specs.Log.{ends, places, places_from};
ghost use Rattle.callout_log.specs.Read.{HasRoom, SameLists, held, hold, listing, put_all, put_at, reading};
ghost use Rattle.callout_log.specs.View.{read_seen};

use crate::log::{Callout, Log, open};
use crate::record::{RECORD_SZ, Record, record_at};
use error::Error;

// The lists that a log is read into: the number of records of each callout, and five lists for the records.
#[derive(Drop)]
pub struct Lists<'a> {
    pub counts: &'a mut [u32],
    pub times: &'a mut [u64],
    pub counters: &'a mut [u64],
    pub session_ids: &'a mut [u64],
    pub local_indices: &'a mut [u32],
    pub verdicts: &'a mut [u8],
}

impl Lists<'_> {
    // Whether they have room for so many callouts and records.
    #[tactic(auto, unfolding(crate::specs::Read::hold, base::specs::Choice::choose))]
    fn have_room(&self, callouts: usize, records: usize) -> bool
        ensures { result ≡ hold callouts records (held self.now) }
    {
        self.counts.len() >= callouts
            && self.times.len() >= records
            && self.counters.len() >= records
            && self.session_ids.len() >= records
            && self.local_indices.len() >= records
            && self.verdicts.len() >= records
    }

    // Puts a record at a place.
    fn put(&mut self, at: usize, report: Record)
        requires { HasRoom (at + 1) (held self.old) }
        ensures put { held self.new ≡ put_at at report (held self.old) }
        ensures same { SameLists self.new self.old }
    {
        self.times[at] = report.time;
        self.counters[at] = report.counter;
        self.session_ids[at] = report.session_id;
        self.local_indices[at] = report.local_index;
        self.verdicts[at] = report.verdict;
    }
}

// Reads the records of a callout into lists from a place on.
#[tactic(auto, using(crate::proofs::Filling::puts))]
fn read_records(bytes: &[u8], callout: Callout, hides: bool, lists: &mut Lists, at: usize)
    requires inside { callout.first + 32 * callout.count ≤ length bytes.now }
    requires room { HasRoom (at + callout.count) (held lists.old) }
    ensures put { held lists.new ≡ put_all at (map (λ place. shown hides (record_at bytes.now place)) (places_from callout.first callout.count)) (held lists.old) }
    ensures same { SameLists lists.new lists.old }
{
    for i in 0..callout.count as usize {
        let report = record_at(bytes, callout.first + RECORD_SZ * i);
        lists.put(at + i, report.seen(hides));
    }
}

// Reads all callouts of a log into lists that hold them.
fn read_callouts(log: Log, hides: bool, lists: &mut Lists)
    requires { hold log.callouts log.records (held lists.old) ≡ true }
    ensures listing { held lists.new ≡ listing (map (count_before log.entry.bytes.now) (ends log.entry.bytes.now)) (map (λ place. shown hides (record_at log.entry.bytes.now place)) (places log.entry.bytes.now)) (held lists.old) }
    ensures same { SameLists lists.new lists.old }
{
    let mut records = 0;
    for (i, callout) in log.callouts().enumerate() {
        lists.counts[i] = callout.count;
        read_records(log.bytes, callout, hides, lists, records);
        records += callout.count as usize;
    }
}

// Reads the log in a store up to its used length, with the hidden fields of its records as 0 or not: into `counts` the number of records
// of each callout, the last callout first, and into the other lists their records, those of a callout front to back. Turned down by
// InvalidArgument for the store or the used length, by BrokenTrailer, by BrokenRecord, by InvalidArgument for a list that is too short;
// the rest of a longer list stays as it came.
#[tactic(auto, using(crate::proofs::Reading::reads))]
pub fn read(store: &[u8], used: usize, hides: bool, lists: &mut Lists) -> Result<usize, Error>
    ensures reads { reading result (held lists.new) ≡ read_seen hides store.now used (held lists.old) }
    ensures same { SameLists lists.new lists.old }
{
    let log = open(store, used)?;
    if !lists.have_room(log.callouts, log.records) {
        return Err(Error::InvalidArgument);
    }
    read_callouts(log, hides, lists);
    Ok(log.callouts)
}
