// The calls of the desk's users. Each tests number 20 before anything else: an operation outside the user's rights, or an unknown kind of
// user, hands everything back as it came. A call that is let through is the unguarded one.
#![tactic(auto, unfolding(base::specs::Choice::choose, tunnel::specs::Tunnel::refused, crate::specs::User::guard, crate::specs::User::send_as, crate::specs::User::receive_as, crate::specs::User::timeout_as, crate::specs::User::settle_as, crate::specs::User::event_as, crate::specs::User::deadline_as, crate::specs::User::missing_as, crate::specs::User::view_as, crate::specs::User::read_as))]

ghost use Rattle.std.specs.Prelude.{◌≡◌, eqb};
ghost use Rattle.callout_log.specs.Read.{SameLists, held, reading};
ghost use Rattle.callout_log.specs.View.{viewing};
ghost use Rattle.sessions.specs.Batch.{LeavesBatch};
ghost use Rattle.sessions.specs.Store.{Leaves};
ghost use Rattle.access.specs.Rights.{allowed, operation_number, trainer};
ghost use Rattle.access.specs.User.{outside, send_as, receive_as, timeout_as, settle_as, event_as, deadline_as, missing_as, view_as, read_as};

use crate::rights::{Kind, Operation, allowed};
use callout_log::read::{Lists, read};
use callout_log::view::view;
use error::Error;
use tunnel::tunnel::{Answered, Tunnel};

// A user of the desk, by the number of his kind.
#[derive(Clone, Copy)]
pub struct User {
    pub kind: u64,
}

// A call that number 20 turns down.
fn outside(tunnel: Tunnel) -> Answered
    ensures { result ≡ outside tunnel }
{
    Answered {
        tunnel,
        answer: Err(Error::OutsideRights),
    }
}

impl User {
    // Whether an operation is in this user's rights.
    fn may(self, operation: Operation) -> bool
        ensures { result ≡ allowed self.kind (operation_number operation) }
    {
        allowed(self.kind, operation as u64)
    }

    // Whether the hidden fields of the log are hidden from this user.
    fn is_trainer(self) -> bool
        ensures { result ≡ eqb self.kind trainer }
    {
        Kind::try_from(self.kind) == Ok(Kind::Trainer)
    }

    // Grants a range of counters.
    pub fn send(self, tunnel: Tunnel, count: u64, now: u64) -> Answered
        ensures { result ≡ send_as self.kind tunnel count now }
    {
        if self.may(Operation::Send) {
            tunnel.send(count, now)
        } else {
            outside(tunnel)
        }
    }

    // Commits a batch, and fills in the verdicts and the skips.
    pub fn receive(
        self,
        tunnel: Tunnel,
        store: &mut [u64],
        index: u32,
        id: u64,
        now: u64,
        counters: &[u64],
        kinds: &[u8],
        verdicts: &mut [u8],
        skips: &mut [u64],
    ) -> Answered
        ensures { LeavesBatch (receive_as self.kind tunnel store.old index id now counters.now kinds.now verdicts.old skips.old) result store.new verdicts.new skips.new }
    {
        if self.may(Operation::Receive) {
            tunnel.receive(store, index, id, now, counters, kinds, verdicts, skips)
        } else {
            outside(tunnel)
        }
    }

    // Wakes the tunnel.
    pub fn handle_timeout(
        self,
        tunnel: Tunnel,
        store: &mut [u64],
        jitter: u64,
        now: u64,
    ) -> Answered
        ensures { Leaves result (timeout_as self.kind tunnel store.old jitter now).answered store.new (timeout_as self.kind tunnel store.old jitter now).store }
    {
        if self.may(Operation::Wake) {
            tunnel.handle_timeout(store, jitter, now)
        } else {
            outside(tunnel)
        }
    }

    // Makes the wakings that are due at one time, three at most, and answers how many.
    pub fn settle(self, tunnel: Tunnel, store: &mut [u64], jitter: u64, now: u64) -> Answered
        ensures { Leaves result (settle_as self.kind tunnel store.old jitter now).answered store.new (settle_as self.kind tunnel store.old jitter now).store }
    {
        if self.may(Operation::Settle) {
            tunnel.settle(store, jitter, now)
        } else {
            outside(tunnel)
        }
    }

    // Answers the oldest queued event.
    pub fn poll_event(self, tunnel: Tunnel) -> Answered
        ensures { result ≡ event_as self.kind tunnel }
    {
        if self.may(Operation::Event) {
            tunnel.poll_event()
        } else {
            outside(tunnel)
        }
    }

    // Answers the next deadline for waking the tunnel.
    pub fn poll_timeout(self, tunnel: Tunnel) -> Answered
        ensures { result ≡ deadline_as self.kind tunnel }
    {
        if self.may(Operation::Deadline) {
            tunnel.poll_timeout()
        } else {
            outside(tunnel)
        }
    }

    // Answers how many window counters of the session with this local index are not committed.
    pub fn missing(self, tunnel: Tunnel, store: &[u64], index: u32) -> Answered
        ensures { result ≡ missing_as self.kind tunnel store.now index }
    {
        if self.may(Operation::Missing) {
            tunnel.missing(store, index)
        } else {
            outside(tunnel)
        }
    }

    // Copies the log in a store up to its used length into the front of lent bytes, as this user sees it: a controller whole, a trainer
    // with the counter, the session id and the local index of every record as zero bytes.
    pub fn view(self, store: &[u8], used: usize, bytes: &mut [u8]) -> Result<usize, Error>
        ensures { viewing result bytes.new ≡ view_as self.kind store.now used bytes.old }
    {
        if !self.may(Operation::Log) {
            return Err(Error::OutsideRights);
        }
        view(store, used, self.is_trainer(), bytes)
    }

    // Reads the log in a store up to its used length into lent lists, as this user sees it.
    pub fn read(self, store: &[u8], used: usize, lists: &mut Lists) -> Result<usize, Error>
        ensures reads { reading result (held lists.new) ≡ read_as self.kind store.now used (held lists.old) }
        ensures same { SameLists lists.new lists.old }
    {
        if !self.may(Operation::Log) {
            return Err(Error::OutsideRights);
        }
        read(store, used, self.is_trainer(), lists)
    }
}
