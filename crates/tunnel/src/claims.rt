// What is proved of the definitions beyond the calls' own contracts: one empty function for each law.
ghost use Rattle.std.specs.Prelude.{List, ℕ, ◌≤◌, Bool, ◌≡◌, length};
ghost use Rattle.tunnel.specs.Laws.{GateLaw, SettingLaw, ResponseLaw};
ghost use Rattle.tunnel.specs.declared.handshake.Handshake.{Handshake};
ghost use Rattle.tunnel.specs.Quiet.{QuietLaw};
ghost use Rattle.tunnel.specs.declared.control.Control.{Control};
ghost use Rattle.tunnel.specs.AfterStates.{AfterStates, GreatestLaw, StillLaw, EventLaw, NoneCurrent, ExpiredLaw};
ghost use Rattle.tunnel.specs.Ahead.{AheadLaw, AheadExample};
ghost use Rattle.tunnel.specs.Numbers.{NumbersLaw};
ghost use Rattle.tunnel.specs.Refusals.{RefusalsLaw};
ghost use Rattle.tunnel.specs.Deadline.{DeadlineLaw};
ghost use Rattle.tunnel.specs.Settled.{SettleLaw, SettleExample};
ghost use Rattle.tunnel.specs.Sound.{Sound, SoundLaw, StoreLaw, CreatedLaw};
ghost use Rattle.tunnel.specs.declared.tunnel.Tunnel.{Tunnel};

// A waking that comes early leaves the control and the store as they were.
pub fn quiet_law()
    ensures { (c : Control) (store : List ℕ) (jitter now : ℕ) → QuietLaw c store jitter now }
{}

// Every call that is handed a sound tunnel hands back a sound one, turned down or not.
pub fn sound_law()
    ensures { (t : Tunnel) → Sound t → SoundLaw t }
{}

// Every call that changes the store hands a store of 1,024 words back with 1,024 words.
pub fn store_law()
    ensures { (t : Tunnel) (store : List ℕ) → length store ≡ 1024 → StoreLaw t store }
{}

// A creation hands back a sound tunnel, turned down or not.
pub fn created_law()
    ensures { (store : List ℕ) (index keepalive now : ℕ) → CreatedLaw store index keepalive now }
{}

// The deadline is that of the control and the last update, whatever the greatest time is.
pub fn deadline_law()
    ensures { (t : Tunnel) → DeadlineLaw t }
{}

// What the checks of a call at a time let through.
pub fn gate_law()
    ensures { (t : Tunnel) (bad : Bool) (now : ℕ) → GateLaw t bad now }
{}

// No call changes the persistent keepalive's setting.
pub fn setting_law()
    ensures { (t : Tunnel) (store : List ℕ) → SettingLaw t store }
{}

// Each call that allocates a local index gives the one told just before it, and no other call uses one up.
pub fn ahead_law()
    ensures { (t : Tunnel) (store : List ℕ) → length t.control.sessions.slots ≡ 8 → length t.control.events.slots ≡ 16 → AheadLaw t store }
{}

// There is a tunnel on which each of these calls allocates an index, two numbers on.
pub fn ahead_example()
    ensures { AheadExample }
{}

// Settling that is not turned down comes to the plain repetition of single wakings, which ends after three at most.
pub fn settle_law()
    ensures { (t : Tunnel) (store : List ℕ) (jitter now : ℕ) → length t.control.sessions.slots ≡ 8 → length t.control.events.slots ≡ 16 → SettleLaw t store jitter now }
{}

// There are settlings that wake never, once, twice and three times.
pub fn settle_example()
    ensures { SettleExample }
{}

// A response that opened makes its session the current one and is answered with that session's first counter.
pub fn response_law()
    ensures { (t : Tunnel) → Sound t → (handshake : Handshake) (store : List ℕ) (receiver peer now : ℕ) → t.greatest ≤ now → length store ≡ 1024 → ResponseLaw t.control handshake store receiver peer now }
{}

// A call that is turned down hands back the tunnel, the store and the verdict list as they came, with two exceptions.
pub fn after_states_law()
    ensures { (t : Tunnel) (store : List ℕ) → length t.control.sessions.slots ≡ 8 → length t.control.events.slots ≡ 16 → AfterStates t store }
{}

// Every call with a time that is not turned down, save the early look, leaves the greatest time at its own.
pub fn greatest_law()
    ensures { (t : Tunnel) (store : List ℕ) → GreatestLaw t store }
{}

// An empty batch, a settling without a waking, and a waking, start or restart that answers nothing, raise the greatest time only, and an
// expired tunnel has no deadline.
pub fn still_law()
    ensures { (t : Tunnel) (store : List ℕ) → StillLaw t store }
{}

// The event call answers the oldest of the queued events and takes it off, and changes nothing else.
pub fn event_law()
    ensures { (t : Tunnel) → length t.control.events.slots ≡ 16 → EventLaw t }
{}

// The number that turns a call down is that of the first of its conditions that fails, in the order 1, 2, 14, 13 and 11.
pub fn numbers_law()
    ensures { (t : Tunnel) (store : List ℕ) → NumbersLaw t store }
{}

// Which number turns a handshake message or an early look down that 1, 2, 14, 13 and 11 let through.
pub fn refusals_law()
    ensures { (t : Tunnel) (store : List ℕ) → RefusalsLaw t store }
{}

// Every call that is handed a tunnel which, if expired, has no current session hands back such a one, and so does a creation.
pub fn expired_law()
    ensures { (t : Tunnel) (store : List ℕ) → NoneCurrent t → ExpiredLaw t store }
{}
