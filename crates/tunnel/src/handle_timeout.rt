// The waking, after `handle_timeout` of src/tunnel.rs: what comes due is done, and what is to be sent is queued.
#![tactic(auto, using(crate::proofs::Steps::cookie_within, crate::proofs::Steps::expiry_within, crate::proofs::Steps::initiated_ring, crate::proofs::Steps::encrypted_ring, crate::proofs::Steps::undiscarded, crate::proofs::Steps::cleared_ring, crate::proofs::Later::current_known), unfolding(crate::specs::HandleTimeout::clear_all, crate::specs::HandleTimeout::expire_control, crate::specs::HandleTimeout::scheduling, crate::specs::HandleTimeout::queue_keepalive, crate::specs::HandleTimeout::keepalive_due, crate::specs::HandleTimeout::passive_timers, crate::specs::HandleTimeout::keepalive_timers, crate::specs::HandleTimeout::send_keepalive, crate::specs::HandleTimeout::keepalive_if_due, crate::specs::HandleTimeout::rekey_due, crate::specs::HandleTimeout::rekey_or_keepalive, crate::specs::HandleTimeout::give_up_or_retry, crate::specs::HandleTimeout::maintain_connection, crate::specs::HandleTimeout::is_lost, crate::specs::HandleTimeout::is_replaced, crate::specs::HandleTimeout::expire_sessions, crate::specs::HandleTimeout::send_scheduled, crate::specs::HandleTimeout::handle_due, crate::specs::HandleTimeout::handle_timeout, crate::specs::PollTimeout::reject_deadline, crate::specs::PollTimeout::attempt_deadline, crate::specs::PollTimeout::response_deadline, crate::specs::PollTimeout::passive_deadline, crate::specs::PollTimeout::persistent_deadline, sessions::specs::Cases::case_role, base::specs::Choice::choose, base::specs::Choice::case_option, base::specs::Choice::case_pair))]

ghost use Rattle.std.specs.Prelude.{◌≡◌, ◌≤◌};
ghost use Rattle.sessions.specs.Session.{time_limit};
ghost use Rattle.sessions.specs.Store.{Leaves};
ghost use Rattle.tunnel.specs.RingBuffer.{RingWithin};
ghost use Rattle.tunnel.specs.Timers.{max_jitter};
ghost use Rattle.tunnel.specs.HandleTimeout.{clear_all, expire_control, queue_keepalive, scheduling, keepalive_due, keepalive_timers, send_keepalive, rekey_due, maintain_connection, is_lost, is_replaced, expire_sessions, send_scheduled, handle_due, handle_timeout};
ghost use Rattle.tunnel.specs.Facts.{ControlWithin};

use crate::answer::Answer;
use crate::control::{Control, Out};
use crate::event::Event;
use crate::poll_timeout::{
    reject_after_time_on_receive, rekey_after_messages, rekey_after_time_on_send,
};
use crate::timers::Timers;
use sessions::session::{Role, Session, due_by};

// The time and the jitter of a waking, both within their limits.
#[derive(Clone, Copy)]
pub(crate) struct Waking {
    pub(crate) now: u64,
    pub(crate) jitter: u64,
    ghost timely: { now ≤ time_limit },
    ghost small: { jitter ≤ max_jitter },
}

impl Control {
    // Drops all sessions and resets the timers.
    fn clear_all(mut self, store: &mut [u64], now: u64) -> Control
        ensures { Leaves result (clear_all self store.old now).control store.new (clear_all self store.old now).store }
    {
        self.sessions = self.sessions.clear(store);
        self.timers = self.timers.clear(now);
        self
    }

    // Ends the connection.
    fn expire(mut self, store: &mut [u64], now: u64) -> Control
        requires { RingWithin self.events }
        ensures { Leaves result (expire_control self store.old now).control store.new (expire_control self store.old now).store }
    {
        self.handshake = self.handshake.set_expired();
        self.clear_all(store, now)
            .push_back(Event::ConnectionExpired)
    }

    // Schedules a handshake after the jitter.
    fn schedule_handshake(mut self, waking: Waking) -> Control
        ensures { result ≡ scheduling self waking.jitter waking.now }
    {
        self.timers = self.timers.schedule_handshake(waking.now + waking.jitter);
        self
    }

    // Queues a keepalive if there is a session for it, by the steps of `encrypt_keepalive`, whose call copies the control twice more. It
    // starts no handshake and waits for none.
    #[tactic(auto, unfolding(crate::specs::HandleTimeout::queue_keepalive, crate::specs::Encapsulate::encrypt_keepalive, crate::specs::Control::queueing, base::specs::Choice::case_option, base::specs::Choice::case_pair))]
    fn queue_keepalive(mut self, now: u64) -> Control
        requires { RingWithin self.events }
        ensures { result ≡ queue_keepalive self now }
    {
        let reserved = self
            .sessions
            .sending_session(now)
            .and_then(|session| session.reserve_counters(1));
        let Some((counter, counted)) = reserved else {
            return self;
        };
        self.sessions = self.sessions.put(counted);
        self.timers = self.timers.tick_last_packet_sent(now);
        self.events = self
            .events
            .push_back(Event::SendKeepalive(counted.sending_index, counter));
        self
    }

    // Whether a keepalive is due.
    fn keepalive_due(self, now: u64) -> bool
        requires { ControlWithin self time_limit }
        ensures { result ≡ keepalive_due self now }
    {
        due_by(self.timers.keepalive_after_time_without_send(), now)
            || due_by(self.timers.next_persistent_keepalive(), now)
    }

    // The timers after the keepalives that are due: the passive one's deadline is dropped and the persistent one's time ticked.
    fn keepalive_timers(self, now: u64) -> Timers
        requires { ControlWithin self time_limit }
        ensures { result ≡ keepalive_timers self now }
    {
        let mut timers = self.timers;
        if due_by(self.timers.keepalive_after_time_without_send(), now) {
            timers = timers.consume_passive_keepalive();
        }
        if due_by(self.timers.next_persistent_keepalive(), now) {
            timers = timers.tick_persistent_keepalive(now);
        }
        timers
    }

    // Queues one keepalive for those that are due. Their timers change even if there is no session for it.
    fn send_keepalive(mut self, now: u64) -> Control
        requires { ControlWithin self time_limit }
        ensures { result ≡ send_keepalive self now }
    {
        self.timers = self.keepalive_timers(now);
        self.queue_keepalive(now)
    }

    // Whether a handshake is required while none is in progress.
    fn rekey_due(self, now: u64) -> bool
        requires { ControlWithin self time_limit }
        ensures { result ≡ rekey_due self now }
    {
        let current = self.sessions.current();
        due_by(rekey_after_time_on_send(current), now)
            || due_by(
                rekey_after_messages(current, self.timers.time_last_packet_sent),
                now,
            )
            || due_by(reject_after_time_on_receive(current), now)
            || due_by(self.timers.rekey_after_time_without_response(), now)
    }

    // Expires the cookie if it is due, then ends the connection three times REJECT_AFTER_TIME after its last handshake, or else keeps
    // it up: while an initiation awaits a response, gives up or retries, else rekeys or queues a keepalive.
    fn maintain_connection(mut self, store: &mut [u64], required: bool, waking: Waking) -> Control
        requires { ControlWithin self time_limit }
        ensures { Leaves result (maintain_connection self store.old required waking.jitter waking.now).control store.new (maintain_connection self store.old required waking.jitter waking.now).store }
    {
        let now = waking.now;
        self.handshake = self.handshake.expire_cookie(now);
        if due_by(self.timers.reject_after_time(), now) {
            return self.expire(store, now);
        }
        let retry = self.handshake_rekey_timeout();
        match retry {
            None => {
                if required || self.rekey_due(now) {
                    return self.schedule_handshake(waking);
                }
                if self.keepalive_due(now) {
                    return self.send_keepalive(now);
                }
            }
            Some(_) => {
                if due_by(self.timers.rekey_attempt_deadline(), now) {
                    return self.expire(store, now);
                }
                if required || due_by(retry, now) {
                    return self.schedule_handshake(waking);
                }
            }
        }
        self
    }

    // Whether an expired current session is presumed lost: it sent data and no newer session is stored.
    fn is_lost(self, session: Session) -> bool
        ensures { result ≡ is_lost self session }
    {
        session.sent_data && self.sessions.is_empty()
    }

    // Whether an expired current session is to be replaced by a handshake of ours.
    fn is_replaced(self, session: Session) -> bool
        ensures { result ≡ is_replaced self session }
    {
        matches!(session.role, Role::Initiator) && !self.handshake.is_in_progress()
    }

    // Discards the sessions past REJECT_AFTER_TIME, then ends the connection if the current one among them is presumed lost, or else
    // maintains it.
    fn expire_sessions(mut self, store: &mut [u64], waking: Waking) -> Control
        requires { ControlWithin self time_limit }
        ensures { Leaves result (expire_sessions self store.old waking.jitter waking.now).control store.new (expire_sessions self store.old waking.jitter waking.now).store }
    {
        let expired = self.sessions.expire(store, waking.now);
        self.sessions = expired.sessions;
        let Some(session) = expired.current else {
            return self.maintain_connection(store, false, waking);
        };
        if self.is_lost(session) {
            return self.expire(store, waking.now);
        }
        let required = self.is_replaced(session);
        self.maintain_connection(store, required, waking)
    }

    // Sends the scheduled handshake.
    fn send_scheduled(mut self, now: u64) -> Control
        requires { RingWithin self.events }
        ensures { result ≡ send_scheduled self now }
    {
        self.timers = self.timers.cancel_scheduled_handshake();
        let initiated = self.initiate(now);
        initiated
            .control
            .push_back(Event::SendHandshakeInitiation(initiated.local_index))
    }

    // Does what is due to a tunnel that is not expired: a scheduled handshake is sent or waited for rather than another one scheduled,
    // without one the sessions expire and the connection is maintained.
    fn handle_due(self, store: &mut [u64], waking: Waking) -> Control
        requires { ControlWithin self time_limit }
        ensures { Leaves result (handle_due self store.old waking.jitter waking.now).control store.new (handle_due self store.old waking.jitter waking.now).store }
    {
        let scheduled = self.scheduled_handshake();
        if due_by(scheduled, waking.now) {
            return self.send_scheduled(waking.now);
        }
        if scheduled.is_some() {
            return self;
        }
        if self.sessions.none_expired(waking.now) {
            return self.maintain_connection(store, false, waking);
        }
        self.expire_sessions(store, waking)
    }

    // Advances timers and queues due events.
    pub(crate) fn handle_timeout(self, store: &mut [u64], waking: Waking) -> Out
        requires { ControlWithin self time_limit }
        ensures { Leaves result (handle_timeout self store.old waking.jitter waking.now).out store.new (handle_timeout self store.old waking.jitter waking.now).store }
    {
        if self.is_expired() {
            return self.done(Answer::NoAnswer);
        }
        Out {
            control: self.handle_due(store, waking),
            answer: Ok(Answer::NoAnswer),
            raises: true,
            updates: true,
        }
    }
}
