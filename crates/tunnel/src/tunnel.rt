// The calls. Each hands the tunnel back with its answer; one that is turned down answers an error. The checks come in
// the order 1, 2, 14, 13; then follows what the Rust itself tests.
#![tactic(auto, using(crate::proofs::Facts::sound_ring, crate::proofs::Settling::unwoken), unfolding(crate::specs::Tunnel::new_tunnel, crate::specs::Tunnel::gate, crate::specs::Tunnel::timeless_gate, crate::specs::Tunnel::refused, crate::specs::Tunnel::let_through, crate::specs::Tunnel::timed, crate::specs::Tunnel::timeless, crate::specs::Tunnel::kept, crate::specs::Tunnel::timed_turn, crate::specs::Tunnel::timed_batch, crate::specs::Tunnel::call_new, crate::specs::Tunnel::call_start, crate::specs::Tunnel::call_restart, crate::specs::Tunnel::call_send, crate::specs::Tunnel::call_receive, crate::specs::Tunnel::call_look, crate::specs::Tunnel::call_initiation, crate::specs::Tunnel::call_response, crate::specs::Tunnel::call_cookie, crate::specs::Tunnel::call_timeout, crate::specs::Tunnel::call_settle, crate::specs::Tunnel::call_event, crate::specs::Tunnel::call_deadline, crate::specs::Tunnel::call_missing, crate::specs::Arguments::unnamed, crate::specs::Arguments::named_of, crate::specs::Arguments::lacking, crate::specs::Arguments::creation_number, base::specs::Choice::choose, base::specs::Choice::case_result))]

ghost use Rattle.std.specs.Prelude.{◌≡◌};
ghost use Rattle.sessions.specs.Batch.{LeavesBatch};
ghost use Rattle.sessions.specs.Store.{Leaves};
ghost use Rattle.tunnel.specs.Tunnel.{gate, timeless_gate, new_tunnel, refused, let_through, call_new, call_start, call_restart, call_send, call_receive, call_look, call_initiation, call_response, call_cookie, call_timeout, call_settle, call_event, call_deadline, call_missing};

use crate::answer::Answer;
use crate::arguments::{
    bad_batch, bad_jitter, bad_outcome, creation_number, initiation_outcome, interval_of, lacks,
    opening_outcome,
};
use crate::control::{Control, Out};
use crate::handle_timeout::Waking;
use error::Error;
use sessions::store::zero;

// The greatest time that a call may have.
pub const TIME_LIMIT: u64 = 4_000_000_000_000_000_000;

// A point-to-point WireGuard connection, without keys and without the store of its windows.
#[derive(Clone, Copy, PartialEq, Eq)]
pub struct Tunnel {
    pub control: Control,
    // `TimeLastUpdate`: when the timers were last updated.
    pub last_update: u64,
    // The greatest time that a call had.
    pub greatest: u64,
}

// The tunnel after a call, and the call's answer.
#[derive(Clone, Copy, PartialEq, Eq)]
pub struct Answered {
    pub tunnel: Tunnel,
    pub answer: Result<Answer, Error>,
}

impl Tunnel {
    // The tunnel that a creation makes.
    fn new_tunnel(index: u32, keepalive: u64, now: u64) -> Tunnel
        ensures { result ≡ new_tunnel index keepalive now }
    {
        Tunnel {
            control: Control::new(index, interval_of(keepalive), now),
            last_update: now,
            greatest: now,
        }
    }

    // What turns down a call at a time, if anything.
    fn gate(&self, bad: bool, now: u64) -> Result<(), Error>
        ensures { result ≡ gate self.now bad now }
    {
        if now > TIME_LIMIT {
            return Err(Error::InvalidTime);
        }
        if bad {
            return Err(Error::InvalidArgument);
        }
        if !self.undamaged() {
            return Err(Error::DamagedState);
        }
        if now < self.greatest {
            return Err(Error::ClockWentBack);
        }
        Ok(())
    }

    // What turns down a call without a time, if anything.
    fn timeless_gate(&self, bad: bool) -> Result<(), Error>
        ensures { result ≡ timeless_gate self.now bad }
    {
        if bad {
            return Err(Error::InvalidArgument);
        }
        if !self.undamaged() {
            return Err(Error::DamagedState);
        }
        Ok(())
    }

    // A call that a check turns down.
    fn refused(self, error: Error) -> Answered
        ensures { result ≡ refused self error }
    {
        Answered {
            tunnel: self,
            answer: Err(error),
        }
    }

    // A call that the checks let through.
    fn let_through(mut self, now: u64, out: Out) -> Answered
        ensures { result ≡ let_through self now out }
    {
        self.control = out.control;
        if out.updates {
            self.last_update = now;
        }
        if out.raises {
            self.greatest = now;
        }
        Answered {
            tunnel: self,
            answer: out.answer,
        }
    }

    // Creates a tunnel and zeroes the store. Turned down, it hands back the tunnel made from index 0, no keepalive and time 0.
    pub fn new(store: &mut [u64], index: u32, keepalive: u64, now: u64) -> Answered
        ensures { Leaves result (call_new store.old index keepalive now).answered store.new (call_new store.old index keepalive now).store }
    {
        if let Err(error) = creation_number(store, keepalive, now) {
            let none = Tunnel::new_tunnel(0, 0, 0);
            return none.refused(error);
        }
        zero(store);
        Answered {
            tunnel: Tunnel::new_tunnel(index, keepalive, now),
            answer: Ok(Answer::Done),
        }
    }

    // Starts a handshake: answers its local index, or nothing where one is in progress or the tunnel is expired.
    pub fn initiate_handshake(self, now: u64) -> Answered
        ensures { result ≡ call_start self now }
    {
        if let Err(error) = self.gate(false, now) {
            return self.refused(error);
        }
        self.let_through(now, self.control.initiate_handshake(now))
    }

    // Starts a new handshake, replacing one in progress: answers its local index, or nothing where the tunnel is expired.
    pub fn restart_handshake(self, now: u64) -> Answered
        ensures { result ≡ call_restart self now }
    {
        if let Err(error) = self.gate(false, now) {
            return self.refused(error);
        }
        self.let_through(now, self.control.restart_handshake(now))
    }

    // Grants a range of counters.
    pub fn send(self, count: u64, now: u64) -> Answered
        ensures { result ≡ call_send self count now }
    {
        if let Err(error) = self.gate(count == 0, now) {
            return self.refused(error);
        }
        self.let_through(now, self.control.send(count, now))
    }

    // Commits a batch to the session with this local index and session id, and fills in the verdicts and the
    // skips.
    pub fn receive(
        self,
        store: &mut [u64],
        index: u32,
        id: u64,
        now: u64,
        counters: &[u64],
        kinds: &[u8],
        verdicts: &mut [u8],
        skips: &mut [u64],
    ) -> Answered
        ensures { LeavesBatch (call_receive self store.old index id now counters.now kinds.now verdicts.old skips.old) result store.new verdicts.new skips.new }
    {
        if let Err(error) = self.gate(bad_batch(store, counters, kinds, verdicts, skips), now) {
            return self.refused(error);
        }
        let out = self
            .control
            .commit_decapsulate(store, index, id, now, counters, kinds, verdicts, skips);
        self.let_through(now, out)
    }

    // The early look at a data message.
    pub fn look(self, store: &[u64], index: u32, counter: u64, now: u64) -> Answered
        ensures { result ≡ call_look self store.now index counter now }
    {
        if let Err(error) = self.gate(lacks(store), now) {
            return self.refused(error);
        }
        self.let_through(
            now,
            self.control.begin_decapsulate(store, index, counter, now),
        )
    }

    // Answers an incoming initiation with its new local index and the peer's.
    pub fn handle_handshake_initiation(
        self,
        store: &mut [u64],
        peer: u32,
        outcome: u64,
        now: u64,
    ) -> Answered
        ensures { Leaves result (call_initiation self store.old peer outcome now).answered store.new (call_initiation self store.old peer outcome now).store }
    {
        let found = initiation_outcome(outcome);
        if let Err(error) = self.gate(bad_outcome(found, store), now) {
            return self.refused(error);
        }
        let opened = found.unwrap_or(Err(Error::InvalidArgument));
        let out = self
            .control
            .handle_handshake_initiation(store, peer, opened, now);
        self.let_through(now, out)
    }

    // Completes a handshake with a response: answers the peer's index and the keepalive's counter.
    pub fn handle_handshake_response(
        self,
        store: &mut [u64],
        receiver: u32,
        peer: u32,
        outcome: u64,
        now: u64,
    ) -> Answered
        ensures { Leaves result (call_response self store.old receiver peer outcome now).answered store.new (call_response self store.old receiver peer outcome now).store }
    {
        let found = opening_outcome(outcome);
        if let Err(error) = self.gate(bad_outcome(found, store), now) {
            return self.refused(error);
        }
        let opened = found.unwrap_or(Err(Error::InvalidArgument));
        let out = self
            .control
            .handle_handshake_response(store, receiver, peer, opened, now);
        self.let_through(now, out)
    }

    // Stores the cookie of a reply.
    pub fn handle_cookie_reply(self, receiver: u32, outcome: u64, now: u64) -> Answered
        ensures { result ≡ call_cookie self receiver outcome now }
    {
        let found = opening_outcome(outcome);
        if let Err(error) = self.gate(found.is_none(), now) {
            return self.refused(error);
        }
        let opened = found.unwrap_or(Err(Error::InvalidArgument));
        self.let_through(now, self.control.handle_cookie_reply(receiver, opened, now))
    }

    // Wakes the tunnel: advances its timers and queues due events.
    pub fn handle_timeout(self, store: &mut [u64], jitter: u64, now: u64) -> Answered
        ensures { Leaves result (call_timeout self store.old jitter now).answered store.new (call_timeout self store.old jitter now).store }
    {
        if let Err(error) = self.gate(bad_jitter(jitter, store), now) {
            return self.refused(error);
        }
        let waking = Waking { now, jitter };
        let out = self.control.handle_timeout(store, waking);
        self.let_through(now, out)
    }

    // Wakes the tunnel at one time while its next deadline, queued events disregarded, is at or before it, three times at most, and answers
    // how often. Where no waking is due it raises the greatest time only.
    pub fn settle(mut self, store: &mut [u64], jitter: u64, now: u64) -> Answered
        ensures { Leaves result (call_settle self store.old jitter now).answered store.new (call_settle self store.old jitter now).store }
    {
        if let Err(error) = self.gate(bad_jitter(jitter, store), now) {
            return self.refused(error);
        }
        if !self.control.waking_due(now) {
            self.greatest = now;
            return Answered {
                tunnel: self,
                answer: Ok(Answer::Woke(0)),
            };
        }
        let waking = Waking { now, jitter };
        let out = self.control.settle(store, waking);
        self.let_through(now, out)
    }

    // Answers the oldest queued event.
    pub fn poll_event(self) -> Answered
        ensures { result ≡ call_event self }
    {
        if let Err(error) = self.timeless_gate(false) {
            return self.refused(error);
        }
        self.let_through(0, self.control.poll_event())
    }

    // Answers the next deadline for waking the tunnel.
    pub fn poll_timeout(self) -> Answered
        ensures { result ≡ call_deadline self }
    {
        if let Err(error) = self.timeless_gate(false) {
            return self.refused(error);
        }
        Answered {
            tunnel: self,
            answer: Ok(Answer::Deadline(self.control.poll_timeout(self.last_update))),
        }
    }

    // Answers how many window counters of the session with this local index are not committed.
    pub fn missing(self, store: &[u64], index: u32) -> Answered
        ensures { result ≡ call_missing self store.now index }
    {
        if let Err(error) = self.timeless_gate(lacks(store)) {
            return self.refused(error);
        }
        self.let_through(0, self.control.missing(store, index))
    }
}
