// Settling: wakings at one time until the next deadline is later or none.
#![tactic(auto, unfolding(crate::specs::Settle::waking_due, crate::specs::Settle::repeat_waking, crate::specs::Settle::settle, base::specs::Choice::choose))]

ghost use Rattle.std.specs.Prelude.{◌≡◌, true, ◌≤◌};
ghost use Rattle.sessions.specs.Session.{time_limit};
ghost use Rattle.sessions.specs.Store.{Leaves};
ghost use Rattle.tunnel.specs.HandleTimeout.{handle_timeout};
ghost use Rattle.tunnel.specs.Settle.{waking_due, woke, settle};
ghost use Rattle.tunnel.specs.Facts.{ControlWithin};

use crate::answer::Answer;
use crate::control::{Control, Out};
use crate::handle_timeout::Waking;
use sessions::session::due_by;

impl Control {
    // Whether the next deadline has come, queued events disregarded. An expired tunnel has none.
    pub(crate) fn waking_due(self, now: u64) -> bool
        requires { ControlWithin self time_limit }
        ensures { result ≡ waking_due self now }
    {
        !self.is_expired() && due_by(self.next_deadline(), now)
    }

    // What a settling hands back that made so many wakings. Without one the last update stays.
    fn woke(self, wakings: u8) -> Out
        ensures { result ≡ woke self wakings }
    {
        Out {
            control: self,
            answer: Ok(Answer::Woke(wakings)),
            raises: true,
            updates: wakings > 0,
        }
    }

    // Wakes the tunnel, which leaves it in range for another waking.
    fn wake(self, store: &mut [u64], waking: Waking) -> Control
        requires { ControlWithin self time_limit }
        ensures { (Leaves result (handle_timeout self store.old waking.jitter waking.now).out.control store.new (handle_timeout self store.old waking.jitter waking.now).store) × (ControlWithin result time_limit) }
    {
        self.handle_timeout(store, waking).control
    }

    // Settles a tunnel of which a waking is due: wakes it, and again while one is due, three times at most.
    pub(crate) fn settle(self, store: &mut [u64], waking: Waking) -> Out
        requires { (ControlWithin self time_limit) × (waking_due self waking.now ≡ true) }
        ensures { Leaves result (settle self store.old waking.jitter waking.now).out store.new (settle self store.old waking.jitter waking.now).store }
    {
        let first = self.wake(store, waking);
        if !first.waking_due(waking.now) {
            return first.woke(1);
        }
        let second = first.wake(store, waking);
        if !second.waking_due(waking.now) {
            return second.woke(2);
        }
        second.wake(store, waking).woke(3)
    }
}
