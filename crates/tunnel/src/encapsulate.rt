// Data and keepalives sent.
#![tactic(auto, using(crate::proofs::Grants::granted_once), unfolding(crate::specs::Encapsulate::begin_encapsulate, crate::specs::Encapsulate::send, crate::specs::Encapsulate::encrypt_keepalive, base::specs::Choice::choose, base::specs::Choice::case_option, base::specs::Choice::case_pair))]

ghost use Rattle.std.specs.Prelude.{◌≡◌};
ghost use Rattle.tunnel.specs.Encapsulate.{grant, send, encrypt_keepalive};

use crate::answer::Answer;
use crate::control::{Control, Out};
use error::Error;
use sessions::range::Range;
use sessions::session::Session;

// The control after a keepalive, and its peer index and counter, or none for want of a session.
#[derive(Clone, Copy, PartialEq, Eq)]
pub struct Encrypted {
    pub control: Control,
    pub keepalive: Option<(u32, u64)>,
}

impl Control {
    // Grants consecutive counters of a session to data messages. Where too few are left the session is still marked and the timers
    // are ticked.
    fn grant(mut self, session: Session, count: u64, now: u64) -> Out
        ensures { result ≡ grant self session count now }
    {
        self.timers = self
            .timers
            .tick_last_packet_sent(now)
            .tick_last_data_packet_sent(now);
        let prepared = session.prepare_packet_data();
        let Some((first, counted)) = prepared.reserve_counters(count) else {
            self.sessions = self.sessions.put(prepared);
            return Out {
                control: self,
                answer: Err(Error::NoCurrentSession),
                raises: true,
                updates: false,
            };
        };
        self.sessions = self.sessions.put(counted);
        self.done(Answer::Granted(Range {
            peer: counted.sending_index,
            first,
            len: count,
        }))
    }

    // Grants consecutive counters of the current sending session to data messages.
    pub(crate) fn send(self, count: u64, now: u64) -> Out
        ensures { result ≡ send self count now }
    {
        if self.is_expired() {
            return self.refuse(Error::ConnectionExpired);
        }
        let Some(session) = self.sessions.sending_session(now) else {
            return self.refuse(Error::NoCurrentSession);
        };
        self.grant(session, count, now)
    }

    // Takes a counter of the current sending session for a keepalive.
    pub(crate) fn encrypt_keepalive(mut self, now: u64) -> Encrypted
        ensures { result ≡ encrypt_keepalive self now }
    {
        let reserved = self
            .sessions
            .sending_session(now)
            .and_then(|session| session.reserve_counters(1));
        let Some((counter, counted)) = reserved else {
            return Encrypted {
                control: self,
                keepalive: None,
            };
        };
        self.sessions = self.sessions.put(counted);
        self.timers = self.timers.tick_last_packet_sent(now);
        Encrypted {
            control: self,
            keepalive: Some((counted.sending_index, counter)),
        }
    }
}
