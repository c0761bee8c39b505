// The record of a report: time, counter, session id, local index, verdict and three zero bytes.
ghost use Rattle.std.specs.Prelude.{◌≡◌, ◌+◌, ◌≤◌, length};
ghost use Rattle.callout_log.specs.Record.{record_at, record_bytes, is_verdict, is_record};

use endian::little_endian::{read_u32, read_u64, write_u32, write_u64};

// The bytes of a record.
pub const RECORD_SZ: usize = 32;

// The greatest time of a record.
pub const TIME_LIMIT: u64 = 4000000000000000000;

// A report of a callout.
#[derive(Clone, Copy)]
pub struct Record {
    pub time: u64,
    pub counter: u64,
    pub session_id: u64,
    pub local_index: u32,
    pub verdict: u8,
}

impl Record {
    ghost use Rattle.callout_log.specs.Record.{shown};

    // The record as it is seen: with its counter, session id and local index 0, or whole.
    #[tactic(auto, unfolding(crate::specs::Record::shown, crate::specs::Record::blanked, base::specs::Choice::choose))]
    pub fn seen(self, hides: bool) -> Record
        ensures { result ≡ shown hides self }
    {
        if !hides {
            return self;
        }
        Record {
            counter: 0,
            session_id: 0,
            local_index: 0,
            ..self
        }
    }
}

// Whether a number is a verdict that a record may have.
#[tactic(auto, unfolding(crate::specs::Record::is_verdict, base::specs::Choice::choose))]
pub fn is_verdict(number: u32) -> bool
    ensures { result ≡ is_verdict number }
{
    matches!(number, 0 | 7 | 9 | 10)
}

// Writes a record into 32 bytes.
pub fn write_record(bytes: &mut [u8], report: Record)
    requires { length bytes.old ≡ 32 }
    ensures { bytes.new ≡ record_bytes report }
{
    write_u64(&mut bytes[0..8], report.time);
    write_u64(&mut bytes[8..16], report.counter);
    write_u64(&mut bytes[16..24], report.session_id);
    write_u32(&mut bytes[24..28], report.local_index);
    write_u32(&mut bytes[28..32], report.verdict as u32);
}

// The record that stands at a place.
#[tactic(auto, using(crate::proofs::Records::record_read))]
pub fn record_at(bytes: &[u8], at: usize) -> Record
    requires { at + 32 ≤ length bytes.now }
    ensures { result ≡ record_at bytes.now at }
{
    let record = &bytes[at..at + RECORD_SZ];
    Record {
        time: read_u64(&record[0..8]),
        counter: read_u64(&record[8..16]),
        session_id: read_u64(&record[16..24]),
        local_index: read_u32(&record[24..28]),
        verdict: record[28],
    }
}

// Whether the 32 bytes from a place on are a record that keeps its rule.
#[tactic(auto, using(crate::proofs::Records::record_late, crate::proofs::Records::record_told))]
pub fn is_record(bytes: &[u8], at: usize) -> bool
    requires { at + 32 ≤ length bytes.now }
    ensures { result ≡ is_record bytes.now at }
{
    let record = &bytes[at..at + RECORD_SZ];
    read_u64(&record[0..8]) <= TIME_LIMIT && is_verdict(read_u32(&record[28..32]))
}
