// One session, without its keys and without its window's bitmap. Times are nanoseconds.

ghost use Rattle.std.specs.Prelude.{◌≡◌, ◌≤◌};
ghost use Rattle.sessions.specs.Session.{time_limit, due_by, earlier, new_session, empty_session, rekey_after_time_on_send, reject_after_time_on_receive, expires_at, expired_at, should_use_at, rekey_after_messages_reached, sending_counter_exhausted, prepare_packet_data, reserve_counters, will_receive};

use crate::index::slot_of;
use crate::store::{STORE_WORDS, words_of};
use error::Error;

// The exclusive counter limit, leaving room for the replay window's arithmetic.
pub const REJECT_AFTER_MESSAGES: u64 = window::REJECT_AFTER_MESSAGES;

// The send counter from which a session is to be replaced: 2^60 messages.
pub const REKEY_AFTER_MESSAGES: u64 = 1 << 60;

// The age at which the initiator replaces a session that has sent data: 120 s in nanoseconds.
pub const REKEY_AFTER_TIME: u64 = 120_000_000_000;

// The age at which a session expires: 180 s in nanoseconds.
pub const REJECT_AFTER_TIME: u64 = 180_000_000_000;

// The wait before data received without a reply is answered by a keepalive: 10 s in nanoseconds.
pub const KEEPALIVE_TIMEOUT: u64 = 10_000_000_000;

// The wait for a response before an initiation is sent again: 5 s in nanoseconds.
pub const REKEY_TIMEOUT: u64 = 5_000_000_000;

// Whether a deadline has come.
#[tactic(auto, unfolding(crate::specs::Session::due_by, base::specs::Choice::case_option))]
pub fn due_by(deadline: Option<u64>, now: u64) -> bool
    ensures { result ≡ due_by deadline now }
{
    deadline.is_some_and(|at| at <= now)
}

// The earlier of two deadlines.
#[tactic(auto, unfolding(crate::specs::Session::earlier, crate::specs::Session::least, base::specs::Choice::choose, base::specs::Choice::case_option))]
pub fn earlier(a: Option<u64>, b: Option<u64>) -> Option<u64>
    ensures { result ≡ earlier a b }
{
    match (a, b) {
        (Some(a), Some(b)) => Some(a.min(b)),
        (a, None) => a,
        (None, b) => b,
    }
}

// Our role in the handshake that established a session.
#[derive(Clone, Copy, PartialEq, Eq)]
pub enum Role {
    Initiator,
    Responder,
}

// One slot's record. An empty slot holds what `Session::empty` gives.
#[derive(Clone, Copy, PartialEq, Eq)]
pub struct Session {
    pub filled: bool,
    // How many sessions were inserted before this one.
    pub id: u64,
    // The time from which its age counts.
    pub established_at: u64,
    // The time of the last batch that committed a message to it, at first that from which its age counts.
    pub last_heard: u64,
    pub role: Role,
    pub sent_data: bool,
    pub received_data: bool,
    // The local index.
    pub receiving_index: u32,
    // The peer's index.
    pub sending_index: u32,
    pub sending_key_counter: u64,
    // The window's next expected counter.
    pub next: u64,
}

impl Session {
    // A session just established. `Sessions::insert` gives it its id.
    #[tactic(auto, unfolding(crate::specs::Session::new_session))]
    pub fn new(local_index: u32, peer_index: u32, role: Role, now: u64) -> Session
        ensures { result ≡ new_session local_index peer_index role now }
    {
        Session {
            filled: true,
            id: 0,
            established_at: now,
            last_heard: now,
            role,
            sent_data: false,
            received_data: false,
            receiving_index: local_index,
            sending_index: peer_index,
            sending_key_counter: 0,
            next: 0,
        }
    }

    // The record of an empty slot.
    #[tactic(auto, unfolding(crate::specs::Session::empty_session, crate::specs::Session::new_session))]
    pub(crate) fn empty() -> Session
        ensures { result ≡ empty_session }
    {
        Session {
            filled: false,
            ..Session::new(0, 0, Role::Initiator, 0)
        }
    }

    // The rekey deadline for an initiator session that has sent data.
    #[tactic(auto, unfolding(crate::specs::Session::rekey_after_time_on_send, base::specs::Choice::choose, crate::specs::Cases::case_role))]
    pub fn rekey_after_time_on_send(self) -> Option<u64>
        requires { self.established_at ≤ time_limit }
        ensures { result ≡ rekey_after_time_on_send self }
    {
        if self.role != Role::Initiator || !self.sent_data {
            return None;
        }
        Some(self.established_at + REKEY_AFTER_TIME)
    }

    // The rekey deadline before expiry for an initiator session that has received data.
    #[tactic(auto, unfolding(crate::specs::Session::reject_after_time_on_receive, base::specs::Choice::choose, crate::specs::Cases::case_role))]
    pub fn reject_after_time_on_receive(self) -> Option<u64>
        requires { self.established_at ≤ time_limit }
        ensures { result ≡ reject_after_time_on_receive self }
    {
        if self.role != Role::Initiator || !self.received_data {
            return None;
        }
        Some(self.established_at + REJECT_AFTER_TIME - KEEPALIVE_TIMEOUT - REKEY_TIMEOUT)
    }

    // The time from which the session is expired.
    #[tactic(auto, unfolding(crate::specs::Session::expires_at))]
    pub(crate) fn expires_at(self) -> u64
        requires { self.established_at ≤ time_limit }
        ensures { result ≡ expires_at self }
    {
        self.established_at + REJECT_AFTER_TIME
    }

    // Whether the session's age is at least `REJECT_AFTER_TIME`.
    #[tactic(auto, unfolding(crate::specs::Session::expired_at))]
    pub fn expired_at(self, time: u64) -> bool
        ensures { result ≡ expired_at self time }
    {
        time.saturating_sub(self.established_at) >= REJECT_AFTER_TIME
    }

    // Whether the session has enough time left to send a packet: sending stops `KEEPALIVE_TIMEOUT` before expiry.
    #[tactic(auto, unfolding(crate::specs::Session::should_use_at))]
    pub(crate) fn should_use_at(self, time: u64) -> bool
        ensures { result ≡ should_use_at self time }
    {
        time.saturating_sub(self.established_at) <= REJECT_AFTER_TIME - KEEPALIVE_TIMEOUT
    }

    // Whether the sending counter has reached `REKEY_AFTER_MESSAGES`.
    #[tactic(auto, unfolding(crate::specs::Session::rekey_after_messages_reached))]
    pub fn rekey_after_messages_reached(self) -> bool
        ensures { result ≡ rekey_after_messages_reached self }
    {
        self.sending_key_counter >= REKEY_AFTER_MESSAGES
    }

    // Whether the sending counter has reached `REJECT_AFTER_MESSAGES`.
    #[tactic(auto, unfolding(crate::specs::Session::sending_counter_exhausted))]
    pub(crate) fn sending_counter_exhausted(self) -> bool
        ensures { result ≡ sending_counter_exhausted self }
    {
        self.sending_key_counter >= REJECT_AFTER_MESSAGES
    }

    // Marks that the session has carried outgoing data, keepalives excluded.
    #[tactic(auto, unfolding(crate::specs::Session::prepare_packet_data))]
    pub fn prepare_packet_data(self) -> Session
        ensures { result ≡ prepare_packet_data self }
    {
        Session {
            sent_data: true,
            ..self
        }
    }

    // Reserves consecutive counters: the first of them and the session that has counted them, or none where too few are left.
    #[tactic(auto, unfolding(crate::specs::Session::reserve_counters, base::specs::Choice::choose))]
    pub fn reserve_counters(self, len: u64) -> Option<(u64, Session)>
        ensures { result ≡ reserve_counters self len }
    {
        let first = self.sending_key_counter;
        let end = first
            .checked_add(len)
            .filter(|end| *end <= REJECT_AFTER_MESSAGES)?;
        Some((
            first,
            Session {
                sending_key_counter: end,
                ..self
            },
        ))
    }

    // Checks a data message's index and counter before decryption; the store is of 1,024 words.
    #[tactic(auto, using(crate::proofs::Words::part_is), unfolding(crate::specs::Session::will_receive, base::specs::Choice::choose))]
    pub fn will_receive(self, store: &[u64], receiver: u32, counter: u64) -> Result<(), Error>
        ensures { result ≡ will_receive self store.now receiver counter }
    {
        if store.len() != STORE_WORDS {
            return Err(Error::InvalidArgument);
        }
        if receiver != self.receiving_index {
            return Err(Error::WrongIndex);
        }
        window::will_accept(&store[words_of(slot_of(receiver))], self.next, counter)
    }
}
