// Data and keepalives received.
#![tactic(auto, unfolding(crate::specs::Decapsulate::confirm_first_session, crate::specs::Decapsulate::accept, crate::specs::Decapsulate::commit_decapsulate, crate::specs::Decapsulate::begin_decapsulate, base::specs::Choice::choose, base::specs::Choice::case_option, base::specs::Choice::case_result, base::specs::Choice::case_results))]

ghost use Rattle.std.specs.Prelude.{◌≡◌};
ghost use Rattle.sessions.specs.Batch.{LeavesBatch};
ghost use Rattle.tunnel.specs.RingBuffer.{RingWithin};
ghost use Rattle.tunnel.specs.Control.{done};
ghost use Rattle.tunnel.specs.declared.answer.Answer.TheVariants.{Done};
ghost use Rattle.tunnel.specs.Decapsulate.{confirm_first_session, accept, commit_decapsulate, begin_decapsulate};

use crate::answer::Answer;
use crate::control::{Control, Out};
use crate::event::Event;
use error::Error;
use sessions::batch::Progress;
use sessions::session::Session;

impl Control {
    // Queues the event of the first session's confirmation.
    pub(crate) fn confirm_first_session(mut self, started_at: u64, now: u64) -> Control
        requires { RingWithin self.events }
        ensures { result ≡ confirm_first_session self started_at now }
    {
        if self.established {
            return self;
        }
        self = self.push_back(Event::Established(started_at, now));
        self.established = true;
        self
    }

    // Stores the session of a judged batch; an accepted message selects it, ticks the timers and confirms the first session.
    fn accept(mut self, session: Session, progress: Progress, index: u32, now: u64) -> Out
        requires { RingWithin self.events }
        ensures { result ≡ done (accept self session progress index now) Done }
    {
        self.sessions = self.sessions.put(session);
        if progress.accepted {
            self.sessions = self.sessions.set_current(index);
            self.timers = self.timers.tick_accepted(progress.data, now);
            self = self.confirm_first_session(session.established_at, now);
        }
        self.done(Answer::Done)
    }

    // Accepts the messages of a batch after checking its session and their replay counters.
    pub(crate) fn commit_decapsulate(
        self,
        store: &mut [u64],
        index: u32,
        id: u64,
        now: u64,
        counters: &[u64],
        kinds: &[u8],
        verdicts: &mut [u8],
        skips: &mut [u64],
    ) -> Out
        requires { RingWithin self.events }
        ensures { LeavesBatch (commit_decapsulate self store.old index id now counters.now kinds.now verdicts.old skips.old) result store.new verdicts.new skips.new }
    {
        if self.is_expired() {
            return self.refuse(Error::ConnectionExpired);
        }
        let received = self
            .sessions
            .receive(store, index, id, now, counters, kinds, verdicts, skips);
        let (session, progress) = match received {
            Ok(judged) => judged,
            Err(error) => return self.refuse(error),
        };
        self.accept(session, progress, index, now)
    }

    // The early look at a data message, which changes nothing.
    pub(crate) fn begin_decapsulate(self, store: &[u64], index: u32, counter: u64, now: u64) -> Out
        ensures { result ≡ begin_decapsulate self store.now index counter now }
    {
        if self.is_expired() {
            return self.refuse(Error::ConnectionExpired);
        }
        let Some(session) = self.sessions.in_slot_of(index) else {
            return self.refuse(Error::NoCurrentSession);
        };
        if session.expired_at(now) {
            return self.refuse(Error::NoCurrentSession);
        }
        if let Err(error) = session.will_receive(store, index, counter) {
            return self.refuse(error);
        }
        self.done_unraised(Answer::Done)
    }
}
