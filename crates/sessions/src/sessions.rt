// A ring of recent sessions, each in the slot of its local index modulo 8.
ghost use Rattle.std.specs.Prelude.{◌≡◌};
ghost use Rattle.sessions.specs.Store.{Leaves};
ghost use Rattle.sessions.specs.Sessions.{TimesWithin, new_sessions, in_slot_of, get, put, current_of, in_current_slot, ahead, next_index, insert, sending_session, set_current, clear, none_expired, expire, is_empty, next_expiry, last_heard, missing};

use crate::index::{slot_of, wrapping_increment};
use crate::session::{Role, Session, earlier};
use crate::store::{STORE_WORDS, missing_of, words_of, zero_slot};
use error::Error;

// The slots of a ring.
pub(crate) const N_SESSIONS: usize = 8;

// The slots, the selected index and the two counts that give a new session its local index and its id.
#[derive(Clone, Copy, PartialEq, Eq)]
pub struct Sessions {
    pub slots: [Session; N_SESSIONS],
    // The current sending session's index, if one was selected.
    pub current: Option<u32>,
    // The most recently allocated local index.
    pub last_index: u32,
    // The number of sessions inserted so far, which identifies the next one.
    pub inserted: u64,
}

// The local index that the next allocation gives, and how many numbers it takes.
#[derive(Clone, Copy, PartialEq, Eq)]
pub struct Ahead {
    pub index: u32,
    pub tries: u8,
}

// The sessions with the local index that was allocated.
#[derive(Clone, Copy, PartialEq, Eq)]
pub struct Allocated {
    pub sessions: Sessions,
    pub index: u32,
}

// The sessions without those that were due, and the current one if it was among them.
#[derive(Clone, Copy, PartialEq, Eq)]
pub struct Expired {
    pub sessions: Sessions,
    pub current: Option<Session>,
}

impl Sessions {
    // An empty ring for the tunnel that the index identifies.
    #[tactic(auto, unfolding(crate::specs::Sessions::new_sessions, crate::specs::Sessions::empty_slots))]
    pub fn new(index: u32) -> Sessions
        ensures { result ≡ new_sessions index }
    {
        Sessions {
            slots: [Session::empty(); N_SESSIONS],
            current: None,
            last_index: index,
            inserted: 0,
        }
    }

    // The session in the slot of an index, which may belong to a different index.
    #[tactic(auto, unfolding(crate::specs::Sessions::in_slot_of, crate::specs::Session::empty_session, crate::specs::Session::new_session, base::specs::Choice::choose))]
    pub fn in_slot_of(self, index: u32) -> Option<Session>
        ensures { result ≡ in_slot_of self index }
    {
        let session = self.slots[slot_of(index)];
        session.filled.then_some(session)
    }

    // The session with exactly this index, if it still exists.
    #[tactic(auto, unfolding(crate::specs::Sessions::get, base::specs::Choice::choose, base::specs::Choice::case_option))]
    pub fn get(self, index: u32) -> Option<Session>
        ensures { result ≡ get self index }
    {
        self.in_slot_of(index)
            .filter(|session| session.receiving_index == index)
    }

    // Puts a session into the slot of its local index, whose words stay.
    #[tactic(auto, unfolding(crate::specs::Sessions::put))]
    pub fn put(mut self, session: Session) -> Sessions
        ensures { result ≡ put self session }
    {
        self.slots[slot_of(session.receiving_index)] = session;
        self
    }

    // The current sending session, if one exists.
    #[tactic(auto, unfolding(crate::specs::Sessions::current_of, base::specs::Choice::case_option))]
    pub fn current(self) -> Option<Session>
        ensures { result ≡ current_of self }
    {
        self.get(self.current?)
    }

    // Whether an index has the current session's slot.
    #[tactic(auto, unfolding(crate::specs::Sessions::in_current_slot, base::specs::Choice::case_option))]
    fn in_current_slot(self, index: u32) -> bool
        ensures { result ≡ in_current_slot self index }
    {
        self.current().is_some_and(|current| slot_of(current.receiving_index) == slot_of(index))
    }

    // The local index that the next allocation gives: the following number, or the one after it where that has the current session's
    // slot.
    #[tactic(auto, unfolding(crate::specs::Sessions::ahead, base::specs::Choice::choose))]
    pub fn ahead(self) -> Ahead
        ensures { result ≡ ahead self }
    {
        let first = wrapping_increment(self.last_index);
        if self.in_current_slot(first) {
            return Ahead {
                index: wrapping_increment(first),
                tries: 2,
            };
        }
        Ahead {
            index: first,
            tries: 1,
        }
    }

    // Allocates a local index for a new session. It skips the current session's slot, so that it cannot be overwritten.
    #[tactic(auto, unfolding(crate::specs::Sessions::next_index))]
    pub fn next_index(self) -> Allocated
        ensures { result ≡ next_index self }
    {
        let Ahead { index, .. } = self.ahead();
        Allocated {
            sessions: Sessions {
                last_index: index,
                ..self
            },
            index,
        }
    }

    // Stores a new session, replacing the one in its slot, with a zero bitmap. A store not of 1,024 words leaves all as it is.
    #[tactic(auto, using(crate::proofs::Words::left_so), unfolding(crate::specs::Sessions::insert, crate::specs::Sessions::inserting, base::specs::Choice::choose, crate::specs::Sessions::put))]
    pub fn insert(mut self, store: &mut [u64], mut session: Session) -> Sessions
        ensures { Leaves result (insert self store.old session).sessions store.new (insert self store.old session).store }
    {
        let Some(store) = store.as_mut_array() else {
            return self;
        };
        zero_slot(store, slot_of(session.receiving_index));
        session.id = self.inserted;
        self.inserted = self.inserted.wrapping_add(1);
        self.put(session)
    }

    // The current session if it is usable for sending.
    #[tactic(auto, unfolding(crate::specs::Sessions::sending_session, crate::specs::Sessions::usable, base::specs::Choice::choose, base::specs::Choice::case_option, crate::specs::Cases::case_role))]
    pub fn sending_session(self, now: u64) -> Option<Session>
        ensures { result ≡ sending_session self now }
    {
        let session = self.current()?;
        if session.sending_counter_exhausted() || session.expired_at(now) {
            return None;
        }
        if !session.should_use_at(now) && session.role == Role::Initiator {
            return None;
        }
        Some(session)
    }

    // Selects an index as the current session unless the current one is newer.
    #[tactic(auto, unfolding(crate::specs::Sessions::set_current, crate::specs::Sessions::is_index, crate::specs::Sessions::select, base::specs::Choice::choose, base::specs::Choice::case_option))]
    pub fn set_current(self, new_idx: u32) -> Sessions
        ensures { result ≡ set_current self new_idx }
    {
        if self.current == Some(new_idx) {
            return self;
        }
        let Some(new) = self.get(new_idx) else {
            return self;
        };
        if self
            .current()
            .is_some_and(|current| current.established_at > new.established_at)
        {
            return self;
        }
        Sessions {
            current: Some(new_idx),
            ..self
        }
    }

    // Empties every slot and zeroes the store. A store not of 1,024 words leaves all as it is.
    #[tactic(auto, using(crate::proofs::Slots::cleared), unfolding(crate::specs::Sessions::clear, base::specs::Choice::choose))]
    pub fn clear(self, store: &mut [u64]) -> Sessions
        ensures { Leaves result (clear self store.old).sessions store.new (clear self store.old).store }
    {
        if store.len() != STORE_WORDS {
            return self;
        }
        store.fill(0);
        Sessions {
            slots: [Session::empty(); N_SESSIONS],
            current: None,
            ..self
        }
    }

    // Discards every session past `REJECT_AFTER_TIME`. A store not of 1,024 words leaves all as it is.
    #[tactic(auto, unfolding(crate::specs::Sessions::expire, crate::specs::Sessions::expire_first, base::specs::Choice::choose))]
    pub fn expire(mut self, store: &mut [u64], now: u64) -> Expired
        ensures { Leaves result (expire self store.old now).expired store.new (expire self store.old now).store }
    {
        let mut expired_current = None;
        if let Some(store) = store.as_mut_array() {
            for slot in 0..N_SESSIONS {
                let session = self.slots[slot];
                if session.filled && session.expired_at(now) {
                    zero_slot(store, slot);
                    self.slots[slot] = Session::empty();
                    if self.current == Some(session.receiving_index) {
                        self.current = None;
                        expired_current = Some(session);
                    }
                }
            }
        }
        Expired {
            sessions: self,
            current: expired_current,
        }
    }

    // Whether no session is stored, current or not.
    #[tactic(auto, unfolding(base::specs::First::none_of, base::specs::Choice::choose, crate::specs::Session::empty_session, crate::specs::Session::new_session))]
    pub fn is_empty(self) -> bool
        ensures { result ≡ is_empty self }
    {
        self.slots.iter().all(|session| !session.filled)
    }

    // Whether no session is past `REJECT_AFTER_TIME`.
    pub fn none_expired(self, now: u64) -> bool
        ensures { result ≡ none_expired self now }
    {
        !self
            .slots
            .iter()
            .any(|session| session.filled && session.expired_at(now))
    }

    // The earliest session expiry deadline.
    #[tactic(auto, unfolding(crate::specs::Sessions::first_expiry, crate::specs::Sessions::slot_expiry, crate::specs::Session::earlier, base::specs::Choice::choose, base::specs::Choice::case_option, crate::specs::Session::empty_session, crate::specs::Session::new_session))]
    pub fn next_expiry(self) -> Option<u64>
        requires { TimesWithin self }
        ensures { result ≡ next_expiry self }
    {
        let mut earliest = None;
        for session in self.slots {
            if session.filled {
                earliest = earlier(earliest, Some(session.expires_at()));
            }
        }
        earliest
    }

    // When the session with exactly this index was last heard.
    #[tactic(auto, unfolding(crate::specs::Sessions::last_heard, base::specs::Choice::case_option))]
    pub fn last_heard(self, index: u32) -> Option<u64>
        ensures { result ≡ last_heard self index }
    {
        self.get(index).map(|session| session.last_heard)
    }

    // The number of counters not committed to the session with this index, among the last 8,192 below the next expected one or among all where there are fewer.
    #[tactic(auto, using(crate::proofs::Words::part_is), unfolding(crate::specs::Sessions::missing, base::specs::Choice::choose, base::specs::Choice::case_option))]
    pub fn missing(self, store: &[u64], index: u32) -> Result<u64, Error>
        ensures { result ≡ missing self store.now index }
    {
        if store.len() != STORE_WORDS {
            return Err(Error::InvalidArgument);
        }
        let Some(session) = self.get(index) else {
            return Err(Error::NoCurrentSession);
        };
        let words = &store[words_of(slot_of(session.receiving_index))];
        Ok(missing_of(words, session.next))
    }
}
