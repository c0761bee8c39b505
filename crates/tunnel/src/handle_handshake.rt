// Handshake messages received.
#![tactic(auto, unfolding(crate::specs::HandleHandshake::responding, crate::specs::HandleHandshake::respond, crate::specs::HandleHandshake::handle_handshake_initiation, crate::specs::HandleHandshake::confirming, crate::specs::HandleHandshake::establish, crate::specs::HandleHandshake::complete, crate::specs::HandleHandshake::handle_handshake_response, crate::specs::HandleHandshake::handle_cookie_reply, base::specs::Choice::choose, base::specs::Choice::case_pair, base::specs::Choice::case_result, base::specs::Choice::case_results))]

ghost use Rattle.std.specs.Prelude.{◌≡◌};
ghost use Rattle.sessions.specs.Sessions.{insert};
ghost use Rattle.sessions.specs.Store.{Leaves};
ghost use Rattle.tunnel.specs.HandleHandshake.{responding, respond, handle_handshake_initiation, confirming, establish, complete, handle_handshake_response, handle_cookie_reply};
ghost use Rattle.tunnel.specs.RingBuffer.{RingWithin};

use crate::answer::Answer;
use crate::control::{Control, Out};
use crate::handshake::Handshake;
use error::Error;
use sessions::session::Session;

impl Control {
    // Stores the session of an initiation that is answered.
    fn responded(
        mut self,
        handshake: Handshake,
        store: &mut [u64],
        session: Session,
        now: u64,
    ) -> Control
        ensures { Leaves result (responding self handshake store.old session now) store.new (insert self.sessions store.old session).store }
    {
        self.handshake = handshake;
        self.sessions = self.sessions.insert(store, session);
        self.timers = self.timers.tick_response(now);
        self
    }

    // Answers a handshake initiation with a local index already allocated.
    fn respond(
        self,
        store: &mut [u64],
        local_index: u32,
        peer: u32,
        outcome: Result<(), Error>,
        now: u64,
    ) -> Out
        ensures { Leaves result (respond self store.old local_index peer outcome now).out store.new (respond self store.old local_index peer outcome now).store }
    {
        let completed = self
            .handshake
            .receive_handshake_initialization(local_index, peer, outcome, now);
        let (answered, session) = match completed {
            Ok(opened) => opened,
            Err(error) => return self.refuse(error),
        };
        self.responded(answered, store, session, now)
            .done(Answer::Response(local_index, peer))
    }

    // Answers a handshake initiation. Its local index is used up even where it is turned down.
    pub(crate) fn handle_handshake_initiation(
        mut self,
        store: &mut [u64],
        peer: u32,
        outcome: Result<(), Error>,
        now: u64,
    ) -> Out
        ensures { Leaves result (handle_handshake_initiation self store.old peer outcome now).out store.new (handle_handshake_initiation self store.old peer outcome now).store }
    {
        if self.is_expired() {
            return self.refuse(Error::ConnectionExpired);
        }
        let allocated = self.sessions.next_index();
        self.sessions = allocated.sessions;
        self.respond(store, allocated.index, peer, outcome, now)
    }

    // Makes the session of a completed handshake the current one and confirms it.
    fn confirm(mut self, local_index: u32, now: u64) -> Control
        requires { RingWithin self.events }
        ensures { result ≡ confirming self local_index now }
    {
        self.timers = self.timers.tick_completed(now);
        self.sessions = self.sessions.set_current(local_index);
        self.confirm_first_session(self.first_initiation_at.unwrap_or(now), now)
    }

    // Makes the session current, confirms it, and takes the keepalive that tells the responder.
    fn establish(self, local_index: u32, now: u64) -> Out
        requires { RingWithin self.events }
        ensures { result ≡ establish self local_index now }
    {
        let encrypted = self.confirm(local_index, now).encrypt_keepalive(now);
        let Some((peer, counter)) = encrypted.keepalive else {
            return encrypted.control.refuse(Error::NoCurrentSession);
        };
        encrypted.control.done(Answer::Keepalive(peer, counter))
    }

    // Stores the session of a handshake that is completed and confirms it.
    fn complete(
        mut self,
        ended: Handshake,
        store: &mut [u64],
        session: Session,
        receiver: u32,
        now: u64,
    ) -> Out
        requires { RingWithin self.events }
        ensures { Leaves result (complete self ended store.old session receiver now) store.new (insert self.sessions store.old session).store }
    {
        self.handshake = ended;
        self.sessions = self.sessions.insert(store, session);
        self.establish(receiver, now)
    }

    // Completes a handshake that this tunnel initiated.
    pub(crate) fn handle_handshake_response(
        self,
        store: &mut [u64],
        receiver: u32,
        peer: u32,
        outcome: Result<(), Error>,
        now: u64,
    ) -> Out
        requires { RingWithin self.events }
        ensures { Leaves result (handle_handshake_response self store.old receiver peer outcome now).out store.new (handle_handshake_response self store.old receiver peer outcome now).store }
    {
        if self.is_expired() {
            return self.refuse(Error::ConnectionExpired);
        }
        let completed = self
            .handshake
            .receive_handshake_response(receiver, peer, outcome, now);
        let (ended, session) = match completed {
            Ok(opened) => opened,
            Err(error) => return self.refuse(error),
        };
        self.complete(ended, store, session, receiver, now)
    }

    // Stores the cookie from a reply to a handshake message of this tunnel.
    pub(crate) fn handle_cookie_reply(
        mut self,
        receiver: u32,
        outcome: Result<(), Error>,
        now: u64,
    ) -> Out
        ensures { result ≡ handle_cookie_reply self receiver outcome now }
    {
        if self.is_expired() {
            return self.refuse(Error::ConnectionExpired);
        }
        self.handshake = match self.handshake.receive_cookie_reply(receiver, outcome, now) {
            Ok(stored) => stored,
            Err(error) => return self.refuse(error),
        };
        self.done(Answer::Done)
    }
}
