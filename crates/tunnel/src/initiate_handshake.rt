// Initiations sent.
#![tactic(auto, unfolding(crate::specs::InitiateHandshake::initiating, crate::specs::InitiateHandshake::initiate, crate::specs::InitiateHandshake::restart_handshake, crate::specs::InitiateHandshake::start_handshake, base::specs::Choice::choose))]

ghost use Rattle.std.specs.Prelude.{◌≡◌};
ghost use Rattle.tunnel.specs.InitiateHandshake.{initiate, restart_handshake, start_handshake};

use crate::answer::Answer;
use crate::control::{Control, Out};

// The control after an initiation was sent, and its local index.
#[derive(Clone, Copy, PartialEq, Eq)]
pub struct Initiated {
    pub control: Control,
    pub local_index: u32,
}

impl Control {
    // Sends an initiation, replacing one that is in progress.
    pub(crate) fn initiate(self, now: u64) -> Initiated
        ensures { result ≡ initiate self now }
    {
        let allocated = self.sessions.next_index();
        Initiated {
            control: Control {
                handshake: self.handshake.initiate_handshake(allocated.index, now),
                sessions: allocated.sessions,
                timers: self
                    .timers
                    .tick_initiation(self.handshake.is_in_progress(), now),
                first_initiation_at: Some(self.first_initiation_at.unwrap_or(now)),
                ..self
            },
            local_index: allocated.index,
        }
    }

    // Starts a new handshake with the peer, replacing one that is in progress. Nothing is sent once the tunnel has expired.
    pub(crate) fn restart_handshake(self, now: u64) -> Out
        ensures { result ≡ restart_handshake self now }
    {
        if self.is_expired() {
            return self.done(Answer::NoAnswer);
        }
        let initiated = self.initiate(now);
        initiated
            .control
            .done(Answer::Initiation(initiated.local_index))
    }

    // Starts a handshake with the peer, unless one is in progress.
    pub(crate) fn initiate_handshake(self, now: u64) -> Out
        ensures { result ≡ start_handshake self now }
    {
        if self.handshake.is_in_progress() {
            return self.done(Answer::NoAnswer);
        }
        self.restart_handshake(now)
    }
}
