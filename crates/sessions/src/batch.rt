// A batch of received messages, over lists that the caller lends: a counter and a kind for each, and room for its verdict and its skip.
ghost use Rattle.std.specs.Prelude.{◌≡◌, length};
ghost use Rattle.sessions.specs.Store.{Leaves};
ghost use Rattle.sessions.specs.Batch.{LeavesBatch, known, fits, finish_receive_packet_data, finish_all, after_batch, receiving_session, receive};

use crate::index::slot_of;
use crate::session::Session;
use crate::sessions::Sessions;
use crate::store::{STORE_WORDS, words_of};
use error::{Error, verdict_number};

// The kind of a message that opened as data.
pub const DATA: u8 = 0;

// The kind of a message that opened as a keepalive.
pub const KEEPALIVE: u8 = 1;

// The kind of a message that did not open.
pub const FAILED: u8 = 2;

// What the messages of a batch have brought about so far.
#[derive(Clone, Copy)]
pub struct Progress {
    // The window's next expected counter.
    pub next: u64,
    // Whether any message was accepted.
    pub accepted: bool,
    // Whether any accepted message was data.
    pub data: bool,
}

// A message's verdict, how many counters it skipped, and the progress with it.
#[derive(Clone, Copy)]
pub struct Finished {
    pub verdict: Result<(), Error>,
    pub skipped: u64,
    pub progress: Progress,
}

// Whether every kind is one of the three. The loop has no early exit, so that many kinds can be tested at once.
#[tactic(auto, using(crate::proofs::Batches::known_all, std::proofs::lemmas::List::Folds::list_all_more))]
fn known(kinds: &[u8]) -> bool
    ensures { result ≡ known kinds.now }
{
    let mut good = true;
    for kind in kinds {
        good &= *kind <= FAILED;
    }
    good
}

// Whether lists make a batch: of one length, of at most 1,024 messages, each of a known kind.
#[tactic(auto, unfolding(crate::specs::Batch::fits, base::specs::Choice::choose))]
pub fn fits(counters: &[u64], kinds: &[u8], verdicts: &[u8], skips: &[u64]) -> bool
    ensures { result ≡ fits counters.now kinds.now verdicts.now skips.now }
{
    counters.len() <= 1024
        && kinds.len() == counters.len()
        && verdicts.len() == counters.len()
        && skips.len() == counters.len()
        && known(kinds)
}

// Commits one message's counter to a window's words, or gives the verdict that fails it.
#[tactic(auto, using(crate::proofs::Words::left_so), unfolding(crate::specs::Batch::finish_receive_packet_data, base::specs::Choice::choose, base::specs::Choice::case_result, window::specs::Window::mark_did_receive, window::specs::Window::words_after))]
fn finish_receive_packet_data(
    words: &mut [u64],
    progress: Progress,
    counter: u64,
    kind: u8,
) -> Finished
    ensures { Leaves result (finish_receive_packet_data words.old progress counter kind).finished words.new (finish_receive_packet_data words.old progress counter kind).words }
{
    if kind == FAILED {
        return Finished {
            verdict: Err(Error::InvalidAeadTag),
            skipped: 0,
            progress,
        };
    }
    let marked = window::mark_did_receive(words, progress.next, counter);
    if marked.verdict.is_err() {
        return Finished {
            verdict: marked.verdict,
            skipped: 0,
            progress,
        };
    }
    Finished {
        verdict: Ok(()),
        skipped: marked.skipped,
        progress: Progress {
            next: marked.next,
            accepted: true,
            data: progress.data || kind == DATA,
        },
    }
}

// Commits the messages in order to a window's words, each with the window as those before it left it. A skip is 0 at first, so that it
// need not be kept through the commit of a message that skips none. The progress is taken over field by field, without the padding between
// them.
fn finish_all(
    words: &mut [u64],
    start: Progress,
    counters: &[u64],
    kinds: &[u8],
    verdicts: &mut [u8],
    skips: &mut [u64],
) -> Progress
    requires { (length kinds.now ≡ length counters.now) × (length verdicts.old ≡ length counters.now) × (length skips.old ≡ length counters.now) }
    ensures { LeavesBatch (finish_all words.old start counters.now kinds.now) result words.new verdicts.new skips.new }
{
    let mut progress = start;
    for (i, counter) in counters.iter().enumerate() {
        skips[i] = 0;
        let finished = finish_receive_packet_data(words, progress, *counter, kinds[i]);
        verdicts[i] = verdict_number(finished.verdict);
        if finished.skipped != 0 {
            skips[i] = finished.skipped;
        }
        let Progress {
            next,
            accepted,
            data,
        } = finished.progress;
        progress = Progress {
            next,
            accepted,
            data,
        };
    }
    progress
}

impl Session {
    // The session after a batch: its window's next expected counter, whether any data has been received, and when it was last heard.
    #[tactic(auto, unfolding(base::specs::Choice::choose))]
    fn after_batch(mut self, progress: Progress, now: u64) -> Session
        ensures { result ≡ after_batch self progress now }
    {
        self.next = progress.next;
        self.received_data |= progress.data;
        if progress.accepted {
            self.last_heard = now;
        }
        self
    }
}

impl Sessions {
    // The session that a batch is for: the one with this index and id, if it is not expired.
    #[tactic(auto, unfolding(crate::specs::Batch::receiving_session, base::specs::Choice::choose, base::specs::Choice::case_option))]
    fn receiving_session(self, index: u32, id: u64, now: u64) -> Option<Session>
        ensures { result ≡ receiving_session self index id now }
    {
        self.get(index)
            .filter(|session| session.id == id && !session.expired_at(now))
    }

    // Gives each message of a batch for the session with this index and id its verdict and its skip, over the words of the session's
    // slot, which are lent on by themselves: the session afterwards and what its messages brought about. Turned down by 2 for a store not of 1,024 words or lists that make no batch, then by 12 where there
    // is no such session or it is expired.
    #[tactic(auto, unfolding(crate::specs::Batch::receive, base::specs::Choice::choose, base::specs::Choice::case_option))]
    pub fn receive(
        self,
        store: &mut [u64],
        index: u32,
        id: u64,
        now: u64,
        counters: &[u64],
        kinds: &[u8],
        verdicts: &mut [u8],
        skips: &mut [u64],
    ) -> Result<(Session, Progress), Error>
        ensures { LeavesBatch (receive self store.old index id now counters.now kinds.now verdicts.old skips.old) result store.new verdicts.new skips.new }
    {
        if store.len() != STORE_WORDS || !fits(counters, kinds, verdicts, skips) {
            return Err(Error::InvalidArgument);
        }
        let Some(session) = self.receiving_session(index, id, now) else {
            return Err(Error::NoCurrentSession);
        };
        let before = Progress {
            next: session.next,
            accepted: false,
            data: false,
        };
        let words = &mut store[words_of(slot_of(session.receiving_index))];
        let progress = finish_all(words, before, counters, kinds, verdicts, skips);
        Ok((session.after_batch(progress, now), progress))
    }
}
