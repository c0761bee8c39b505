// Number 14: whether the sessions are such as the calls leave behind, as far as they are looked at. Empty slots are not.
ghost use Rattle.std.specs.Prelude.{◌≡◌};
ghost use Rattle.sessions.specs.Damage.{slot_holds, sessions_hold};

use crate::index::slot_of;
use crate::session::{REJECT_AFTER_MESSAGES, Session};
use crate::sessions::Sessions;

// A filled slot's times, counters and index.
#[tactic(auto, unfolding(crate::specs::Damage::slot_holds, base::specs::Choice::choose))]
fn slot_holds(session: Session, slot: usize, greatest: u64) -> bool
    ensures { result ≡ slot_holds session slot greatest }
{
    !session.filled
        || session.established_at <= session.last_heard
            && session.last_heard <= greatest
            && session.sending_key_counter <= REJECT_AFTER_MESSAGES
            && session.next <= REJECT_AFTER_MESSAGES
            && slot_of(session.receiving_index) == slot
}

// Every slot.
pub fn sessions_hold(sessions: Sessions, greatest: u64) -> bool
    ensures { result ≡ sessions_hold sessions greatest }
{
    sessions
        .slots
        .iter()
        .enumerate()
        .all(|(slot, session)| slot_holds(*session, slot, greatest))
}
