// The log as it is seen: copied into lent bytes, whole or with its hidden fields as zero bytes. Hidden are the counter, the session id
// and the local index of every record.
ghost use Rattle.std.specs.Prelude.{◌≡◌, ◌+◌, ◌*◌, ◌≤◌, length};
ghost use Rattle.callout_log.specs.Log.{places, places_from};
ghost use Rattle.callout_log.specs.View.{hide_all, seen, viewing, view_log};

use crate::log::{Callout, Log, open};
use crate::record::RECORD_SZ;
use error::Error;

// Hides the fields of the records of a callout.
#[tactic(auto, using(crate::proofs::Viewing::hides))]
fn hide_records(bytes: &mut [u8], callout: Callout)
    requires { callout.first + 32 * callout.count ≤ length bytes.old }
    ensures { bytes.new ≡ hide_all (places_from callout.first callout.count) bytes.old }
{
    for i in 0..callout.count as usize {
        let at = callout.first + RECORD_SZ * i;
        bytes[at + 8..at + 28].fill(0);
    }
}

// Hides the fields of all records of a log in a copy of it.
#[tactic(auto, using(crate::proofs::Viewing::callouts))]
fn hide_callouts(log: Log, bytes: &mut [u8])
    requires { length bytes.old ≡ length log.bytes.now }
    ensures { bytes.new ≡ hide_all (places log.entry.bytes.now) bytes.old }
{
    for callout in log.callouts() {
        hide_records(bytes, callout);
    }
}

// Copies a log into as many bytes, as it is seen.
#[tactic(auto, using(crate::proofs::Viewing::copies))]
fn copy_seen(log: Log, hides: bool, bytes: &mut [u8])
    requires { length bytes.old ≡ length log.bytes.now }
    ensures { bytes.new ≡ seen hides log.entry.bytes.now }
{
    bytes.copy_from_slice(log.bytes);
    if hides {
        hide_callouts(log, bytes);
    }
}

// Copies the log in a store up to its used length into the front of lent bytes, whole or with its hidden fields as zero bytes. Turned
// down by InvalidArgument for the store or the used length, by BrokenTrailer, by BrokenRecord, by InvalidArgument for bytes that are too
// few; the rest of more bytes stays as it came.
#[tactic(auto, using(crate::proofs::Reading::views))]
pub fn view(store: &[u8], used: usize, hides: bool, bytes: &mut [u8]) -> Result<usize, Error>
    ensures { viewing result bytes.new ≡ view_log hides store.now used bytes.old }
{
    let log = open(store, used)?;
    if bytes.len() < used {
        return Err(Error::InvalidArgument);
    }
    copy_seen(log, hides, &mut bytes[..used]);
    Ok(used)
}
