// The deadlines at which a waking has something to do, and the next of them.
#![tactic(auto, using(crate::proofs::Later::in_flight_within, crate::proofs::Later::current_known), unfolding(crate::specs::PollTimeout::scheduled_handshake, crate::specs::PollTimeout::earliest_expiry, crate::specs::PollTimeout::cookie_deadline, crate::specs::PollTimeout::reject_deadline, crate::specs::PollTimeout::attempt_deadline, crate::specs::PollTimeout::handshake_rekey_timeout, crate::specs::PollTimeout::found_on_send, crate::specs::PollTimeout::found_after_messages, crate::specs::PollTimeout::found_on_receive, crate::specs::PollTimeout::response_deadline, crate::specs::PollTimeout::passive_deadline, crate::specs::PollTimeout::persistent_deadline, crate::specs::PollTimeout::current_persistent_deadline, crate::specs::PollTimeout::common_deadline, crate::specs::PollTimeout::rekey_deadline, crate::specs::PollTimeout::keepalive_deadline, crate::specs::PollTimeout::unscheduled_deadline, crate::specs::PollTimeout::next_deadline, crate::specs::PollTimeout::not_before, crate::specs::PollTimeout::poll_timeout, base::specs::Choice::choose, base::specs::Choice::case_option))]

ghost use Rattle.std.specs.Prelude.{◌≡◌};
ghost use Rattle.sessions.specs.Session.{time_limit};
ghost use Rattle.sessions.specs.Sessions.{current_of};
ghost use Rattle.tunnel.specs.PollTimeout.{scheduled_handshake, handshake_rekey_timeout, found_on_send, found_after_messages, found_on_receive, common_deadline, rekey_deadline, keepalive_deadline, next_deadline, unscheduled_deadline, poll_timeout, not_before};
ghost use Rattle.tunnel.specs.Facts.{FoundWithin, ControlWithin};

use crate::control::Control;
use crate::timers::rekey_timeout;
use sessions::session::{Session, earlier};

// A deadline, or the last update where it has elapsed before that.
fn not_before(deadline: Option<u64>, last_update: u64) -> Option<u64>
    ensures { result ≡ not_before deadline last_update }
{
    Some(deadline?.max(last_update))
}

// The rekey deadline of a session that was found and has sent data.
pub(crate) fn rekey_after_time_on_send(found: Option<Session>) -> Option<u64>
    requires { FoundWithin found time_limit }
    ensures { result ≡ found_on_send found }
{
    found?.rekey_after_time_on_send()
}

// The time of the last packet sent, if the session that was found has reached `REKEY_AFTER_MESSAGES`.
pub(crate) fn rekey_after_messages(found: Option<Session>, last_packet_sent: u64) -> Option<u64>
    ensures { result ≡ found_after_messages found last_packet_sent }
{
    if found?.rekey_after_messages_reached() {
        return Some(last_packet_sent);
    }
    None
}

// The rekey deadline of a session that was found and has received data.
pub(crate) fn reject_after_time_on_receive(found: Option<Session>) -> Option<u64>
    requires { FoundWithin found time_limit }
    ensures { result ≡ found_on_receive found }
{
    found?.reject_after_time_on_receive()
}

impl Control {
    // When the scheduled handshake is due.
    pub(crate) fn scheduled_handshake(self) -> Option<u64>
        ensures { result ≡ scheduled_handshake self }
    {
        self.timers.send_handshake_at
    }

    // The retry deadline of the initiation that awaits a response.
    pub(crate) fn handshake_rekey_timeout(self) -> Option<u64>
        requires { ControlWithin self time_limit }
        ensures { result ≡ handshake_rekey_timeout self }
    {
        rekey_timeout(self.handshake.in_flight_initiation())
    }

    // The deadlines that count at all times.
    fn common_deadline(self) -> Option<u64>
        requires { ControlWithin self time_limit }
        ensures { result ≡ common_deadline self }
    {
        earlier(
            earlier(
                self.sessions.next_expiry(),
                self.handshake.cookie_expiration(),
            ),
            self.timers.reject_after_time(),
        )
    }

    // The deadlines at which a handshake is required while none is in progress.
    fn rekey_deadline(self, current: Option<Session>) -> Option<u64>
        requires { (ControlWithin self time_limit) × (current ≡ current_of self.sessions) }
        ensures { result ≡ rekey_deadline self }
    {
        earlier(
            earlier(
                rekey_after_time_on_send(current),
                rekey_after_messages(current, self.timers.time_last_packet_sent),
            ),
            earlier(
                reject_after_time_on_receive(current),
                self.timers.rekey_after_time_without_response(),
            ),
        )
    }

    // The deadlines of keepalives. The persistent one counts while a session is current.
    fn keepalive_deadline(self, current: Option<Session>) -> Option<u64>
        requires { (ControlWithin self time_limit) × (current ≡ current_of self.sessions) }
        ensures { result ≡ keepalive_deadline self }
    {
        earlier(
            self.timers.keepalive_after_time_without_send(),
            current.and(self.timers.next_persistent_keepalive()),
        )
    }

    // The earliest deadline while no handshake is scheduled.
    fn unscheduled_deadline(self) -> Option<u64>
        requires { ControlWithin self time_limit }
        ensures { result ≡ unscheduled_deadline self }
    {
        let common = self.common_deadline();
        match self.handshake_rekey_timeout() {
            None => {
                let current = self.sessions.current();
                earlier(
                    common,
                    earlier(
                        self.rekey_deadline(current),
                        self.keepalive_deadline(current),
                    ),
                )
            }
            Some(at) => earlier(
                common,
                earlier(Some(at), self.timers.rekey_attempt_deadline()),
            ),
        }
    }

    // The earliest deadline.
    pub(crate) fn next_deadline(self) -> Option<u64>
        requires { ControlWithin self time_limit }
        ensures { result ≡ next_deadline self }
    {
        self.scheduled_handshake()
            .or_else(|| self.unscheduled_deadline())
    }

    // The next deadline for waking the tunnel. While events are queued it has already passed.
    pub(crate) fn poll_timeout(self, last_update: u64) -> Option<u64>
        requires { ControlWithin self time_limit }
        ensures { result ≡ poll_timeout self last_update }
    {
        if self.is_expired() {
            return None;
        }
        if !self.events.is_empty() {
            return Some(last_update);
        }
        not_before(self.next_deadline(), last_update)
    }
}
