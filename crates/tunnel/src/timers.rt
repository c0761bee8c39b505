// The timers of the WireGuard protocol. `TimeLastUpdate` stands in the tunnel, beside its control.
#![tactic(auto, unfolding(crate::specs::Timers::new_timers, crate::specs::Timers::reject_after_time_of, crate::specs::Timers::rekey_attempt_deadline, crate::specs::Timers::rekey_after_time_without_response, crate::specs::Timers::keepalive_after_time_without_send, crate::specs::Timers::next_persistent_keepalive, crate::specs::Timers::clear_timers, crate::specs::Timers::tick_last_handshake_completed, crate::specs::Timers::tick_last_handshake_started, crate::specs::Timers::tick_last_packet_received, crate::specs::Timers::tick_last_packet_sent, crate::specs::Timers::tick_last_data_packet_received, crate::specs::Timers::tick_last_data_packet_sent, crate::specs::Timers::tick_persistent_keepalive, crate::specs::Timers::rekey_timeout_of, crate::specs::Timers::schedule_handshake, crate::specs::Timers::cancel_scheduled_handshake, crate::specs::Timers::consume_passive_keepalive, crate::specs::Timers::tick_accepted, crate::specs::Timers::tick_response, crate::specs::Timers::tick_completed, crate::specs::Timers::tick_initiation, base::specs::Choice::choose, base::specs::Choice::case_option))]

ghost use Rattle.std.specs.Prelude.{◌≡◌};
ghost use Rattle.sessions.specs.Session.{time_limit};
ghost use Rattle.tunnel.specs.Timers.{TimeWithin, TimersWithin, rekey_timeout_of, new_timers, reject_after_time_of, rekey_attempt_deadline, rekey_after_time_without_response, keepalive_after_time_without_send, next_persistent_keepalive, clear_timers, tick_last_handshake_completed, tick_last_handshake_started, tick_last_packet_received, tick_last_packet_sent, tick_last_data_packet_received, tick_last_data_packet_sent, tick_persistent_keepalive, tick_accepted, tick_response, tick_completed, tick_initiation, schedule_handshake, cancel_scheduled_handshake, consume_passive_keepalive};

use sessions::session::{KEEPALIVE_TIMEOUT, REJECT_AFTER_TIME, REKEY_TIMEOUT};

// The time after which a round of unanswered handshake attempts is given up: 90 s in nanoseconds.
pub const REKEY_ATTEMPT_TIME: u64 = 90_000_000_000;

// The age at which a cookie expires: 120 s in nanoseconds.
pub const COOKIE_EXPIRATION_TIME: u64 = 120_000_000_000;

// The most by which a scheduled handshake is put off: 333 ms in nanoseconds.
pub const MAX_JITTER: u64 = 333_000_000;

// When what last happened, in nanoseconds, from which the deadlines are reckoned.
#[derive(Clone, Copy, PartialEq, Eq)]
pub struct Timers {
    // When the last handshake completed, even if its session is not in use.
    pub time_last_handshake_completed: u64,
    // When the current round of handshake attempts began.
    pub time_last_handshake_started: u64,
    // When we last authenticated an incoming packet.
    pub time_last_packet_received: u64,
    // When we last sent a packet.
    pub time_last_packet_sent: u64,
    // When we last authenticated an incoming data packet.
    pub time_last_data_packet_received: u64,
    // When we last sent a data packet.
    pub time_last_data_packet_sent: u64,
    // When a persistent keepalive was last due, sent or not.
    pub time_persistent_keepalive: u64,
    // When we last received data without replying, used for the passive-keepalive deadline.
    pub last_data_received_without_reply: Option<u64>,
    // When we first sent data without a reply, used for the new-handshake deadline.
    pub first_data_sent_without_reply: Option<u64>,
    // The persistent keepalive's interval in seconds, if one is set.
    pub persistent_keepalive: Option<u64>,
    // When the scheduled handshake is due.
    pub send_handshake_at: Option<u64>,
}

// The retry deadline for a handshake initiation sent at this time.
pub(crate) fn rekey_timeout(sent_at: Option<u64>) -> Option<u64>
    requires { TimeWithin sent_at time_limit }
    ensures { result ≡ rekey_timeout_of sent_at }
{
    Some(sent_at? + REKEY_TIMEOUT)
}

impl Timers {
    // Timers that all stand at one time.
    pub(crate) fn new(persistent_keepalive: Option<u64>, now: u64) -> Timers
        ensures { result ≡ new_timers persistent_keepalive now }
    {
        Timers {
            time_last_handshake_completed: now,
            time_last_handshake_started: now,
            time_last_packet_received: now,
            time_last_packet_sent: now,
            time_last_data_packet_received: now,
            time_last_data_packet_sent: now,
            time_persistent_keepalive: now,
            last_data_received_without_reply: None,
            first_data_sent_without_reply: None,
            persistent_keepalive,
            send_handshake_at: None,
        }
    }

    // The connection expiry deadline, three times `REJECT_AFTER_TIME` after the last handshake.
    pub(crate) fn reject_after_time(self) -> Option<u64>
        requires { TimersWithin self time_limit }
        ensures { result ≡ reject_after_time_of self }
    {
        Some(self.time_last_handshake_completed + REJECT_AFTER_TIME * 3)
    }

    // The deadline for giving up on unanswered handshake attempts.
    pub(crate) fn rekey_attempt_deadline(self) -> Option<u64>
        requires { TimersWithin self time_limit }
        ensures { result ≡ rekey_attempt_deadline self }
    {
        Some(self.time_last_handshake_started + REKEY_ATTEMPT_TIME)
    }

    // The new-handshake deadline for data sent without a reply.
    pub(crate) fn rekey_after_time_without_response(self) -> Option<u64>
        requires { TimersWithin self time_limit }
        ensures { result ≡ rekey_after_time_without_response self }
    {
        Some(self.first_data_sent_without_reply? + KEEPALIVE_TIMEOUT + REKEY_TIMEOUT)
    }

    // The passive-keepalive deadline for data received without a reply.
    pub(crate) fn keepalive_after_time_without_send(self) -> Option<u64>
        requires { TimersWithin self time_limit }
        ensures { result ≡ keepalive_after_time_without_send self }
    {
        Some(self.last_data_received_without_reply? + KEEPALIVE_TIMEOUT)
    }

    // The next persistent-keepalive deadline, if configured.
    pub(crate) fn next_persistent_keepalive(self) -> Option<u64>
        requires { TimersWithin self time_limit }
        ensures { result ≡ next_persistent_keepalive self }
    {
        let seconds = self.persistent_keepalive?;
        Some(self.time_persistent_keepalive + seconds * 1_000_000_000)
    }

    // All seven timers at one time, and nothing without a reply.
    pub(crate) fn clear(self, now: u64) -> Timers
        ensures { result ≡ clear_timers self now }
    {
        Timers {
            send_handshake_at: self.send_handshake_at,
            ..Timers::new(self.persistent_keepalive, now)
        }
    }

    // A handshake completed.
    fn tick_last_handshake_completed(mut self, now: u64) -> Timers
        ensures { result ≡ tick_last_handshake_completed self now }
    {
        self.time_last_handshake_completed = now;
        self
    }

    // A round of handshake attempts began.
    fn tick_last_handshake_started(mut self, now: u64) -> Timers
        ensures { result ≡ tick_last_handshake_started self now }
    {
        self.time_last_handshake_started = now;
        self
    }

    // A packet was received, which answers data that was sent.
    fn tick_last_packet_received(self, now: u64) -> Timers
        ensures { result ≡ tick_last_packet_received self now }
    {
        Timers {
            time_last_packet_received: now,
            first_data_sent_without_reply: None,
            ..self
        }
    }

    // A packet was sent, which answers data that was received.
    pub(crate) fn tick_last_packet_sent(self, now: u64) -> Timers
        ensures { result ≡ tick_last_packet_sent self now }
    {
        Timers {
            time_last_packet_sent: now,
            last_data_received_without_reply: None,
            ..self
        }
    }

    // Data was received, to which nothing has been sent since.
    fn tick_last_data_packet_received(self, now: u64) -> Timers
        ensures { result ≡ tick_last_data_packet_received self now }
    {
        Timers {
            time_last_data_packet_received: now,
            last_data_received_without_reply: Some(now),
            ..self
        }
    }

    // Data was sent. Later sends do not postpone the deadline for the first unanswered packet.
    pub(crate) fn tick_last_data_packet_sent(self, now: u64) -> Timers
        ensures { result ≡ tick_last_data_packet_sent self now }
    {
        Timers {
            time_last_data_packet_sent: now,
            first_data_sent_without_reply: Some(self.first_data_sent_without_reply.unwrap_or(now)),
            ..self
        }
    }

    // A persistent keepalive was due.
    pub(crate) fn tick_persistent_keepalive(mut self, now: u64) -> Timers
        ensures { result ≡ tick_persistent_keepalive self now }
    {
        self.time_persistent_keepalive = now;
        self
    }

    // Messages were accepted, data among them or not.
    pub(crate) fn tick_accepted(self, data: bool, now: u64) -> Timers
        ensures { result ≡ tick_accepted self «data» now }
    {
        let received = self.tick_last_packet_received(now);
        if data {
            return received.tick_last_data_packet_received(now);
        }
        received
    }

    // An initiation was answered by a response.
    pub(crate) fn tick_response(self, now: u64) -> Timers
        ensures { result ≡ tick_response self now }
    {
        let received = self.tick_last_packet_received(now);
        let sent = received.tick_last_packet_sent(now);
        sent.tick_last_handshake_completed(now)
    }

    // A response completed the handshake, so a scheduled one is cancelled.
    pub(crate) fn tick_completed(self, now: u64) -> Timers
        ensures { result ≡ tick_completed self now }
    {
        let received = self.tick_last_packet_received(now);
        let completed = received.tick_last_handshake_completed(now);
        completed.cancel_scheduled_handshake()
    }

    // An initiation was sent. One that replaces another in progress begins no round of attempts.
    pub(crate) fn tick_initiation(self, in_progress: bool, now: u64) -> Timers
        ensures { result ≡ tick_initiation self in_progress now }
    {
        if in_progress {
            return self.tick_last_packet_sent(now);
        }
        let started = self.tick_last_handshake_started(now);
        started.tick_last_packet_sent(now)
    }

    // Sets the time of the scheduled handshake.
    pub(crate) fn schedule_handshake(self, at: u64) -> Timers
        ensures { result ≡ schedule_handshake self at }
    {
        Timers {
            send_handshake_at: Some(at),
            ..self
        }
    }

    // Cancels a scheduled handshake.
    pub(crate) fn cancel_scheduled_handshake(self) -> Timers
        ensures { result ≡ cancel_scheduled_handshake self }
    {
        Timers {
            send_handshake_at: None,
            ..self
        }
    }

    // Drops the passive-keepalive deadline.
    pub(crate) fn consume_passive_keepalive(self) -> Timers
        ensures { result ≡ consume_passive_keepalive self }
    {
        Timers {
            last_data_received_without_reply: None,
            ..self
        }
    }
}
