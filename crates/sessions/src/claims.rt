// What is proved of the definitions beyond the calls' own contracts: one empty function for each law.
ghost use Rattle.std.specs.Prelude.{◌≡◌, ℕ, ◌<◌, List, length};
ghost use Rattle.sessions.specs.declared.session.Session.{Session};
ghost use Rattle.sessions.specs.Reservations.{ReservationLaw};
ghost use Rattle.sessions.specs.declared.batch.Progress.{Progress};
ghost use Rattle.sessions.specs.declared.sessions.Sessions.{Sessions};
ghost use Rattle.sessions.specs.Laws.{SlotsApart, NextIndexLaw, NextIndexExample, EmptyLaw, LookupLaw, SlotLaw, WholeLaw, ExpiryLaw, FitsLaw, LookLaw, NextLaw, RejectedLaw, EmptyBatchLaw, HeardLaw, ReserveLaw, SplitLaw, InSlot, MissingLaw, NoReportLaw, MissingExample};
ghost use Rattle.sessions.specs.declared.range.Range.{Range};

// The counters that a session grants to any list of reservations are 0, 1, 2 on, all below the limit.
#[tactic(auto, using(crate::proofs::Laws::reservation_law))]
pub fn reservation_law()
    ensures { (s : Session) (lens : List ℕ) → s.sending_key_counter ≡ 0 → ReservationLaw s lens }
{}

// A batch, an insertion and an expiry leave every slot that they do not name as it was.
#[tactic(auto, using(crate::proofs::Laws::slots_apart))]
pub fn slots_apart()
    ensures { (s : Sessions) (store : List ℕ) (slot : ℕ) → SlotsApart s store slot }
{}

// The next allocation takes two numbers where the following one's slot is the current session's, else one, and gives what is told ahead.
pub fn next_index_law()
    ensures { (s : Sessions) → NextIndexLaw s }
{}

// Allocations that take one number and two, also where the low byte wraps and where the current session was emptied.
#[tactic(auto, using(crate::proofs::Laws::next_index_example))]
pub fn next_index_example()
    ensures { NextIndexExample }
{}

// The record of an empty slot is not filled.
#[tactic(auto, using(crate::proofs::Laws::empty_law))]
pub fn empty_law()
    ensures { EmptyLaw }
{}

// What the lookups find: a session that fills its slot, for sending the current one, and when a session was last heard.
#[tactic(auto, using(crate::proofs::Laws::lookup_law))]
pub fn lookup_law()
    ensures { (s : Sessions) → LookupLaw s }
{}

// Words put into a slot leave every other slot's words and the store's length as they were.
pub fn slot_law()
    ensures { (store words : List ℕ) (slot : ℕ) → length store ≡ 1024 → slot < 8 → SlotLaw store words slot }
{}

// Every operation hands a store of 1,024 words back with so many.
pub fn whole_law()
    ensures { (s : Sessions) (store : List ℕ) → length store ≡ 1024 → WholeLaw s store }
{}

// An expiry that finds no session expired changes nothing.
#[tactic(auto, using(crate::proofs::Laws::expiry_law))]
pub fn expiry_law()
    ensures { (s : Sessions) (store : List ℕ) (now : ℕ) → ExpiryLaw s store now }
{}

// The test of a batch is true just where its lists are of one length, of at most 1,024 messages, each of a known kind.
#[tactic(auto, using(crate::proofs::Laws::fits_law))]
pub fn fits_law()
    ensures { (counters kinds verdicts skips : List ℕ) → FitsLaw counters kinds verdicts skips }
{}

// The early look of a session over a store of 1,024 words gives 0, 6, 9 or 10.
#[tactic(auto, using(crate::proofs::Laws::look_law))]
pub fn look_law()
    ensures { (s : Session) (store : List ℕ) (receiver counter : ℕ) → length store ≡ 1024 → LookLaw s store receiver counter }
{}

// The messages of a batch keep the window's next at most the limit.
#[tactic(auto, using(crate::proofs::Laws::next_law))]
pub fn next_law()
    ensures { (words : List ℕ) (progress : Progress) (counters kinds : List ℕ) → NextLaw words progress counters kinds }
{}

// A batch that is turned down leaves the store and the verdict list as they came.
#[tactic(auto, using(crate::proofs::Laws::rejected_law))]
pub fn rejected_law()
    ensures { (s : Sessions) (store : List ℕ) (index id now : ℕ) (counters kinds verdicts skips : List ℕ) → RejectedLaw s store index id now counters kinds verdicts skips }
{}

// An empty batch leaves the session, the store and the verdict list as they were.
pub fn empty_batch_law()
    ensures { (s : Sessions) (store : List ℕ) (index id now : ℕ) → EmptyBatchLaw s store index id now }
{}

// A batch that commits a message sets the time at which its session was last heard, any other leaves it.
#[tactic(auto, using(crate::proofs::Laws::heard_law))]
pub fn heard_law()
    ensures { (s : Sessions) (store : List ℕ) (index id now : ℕ) (counters kinds verdicts skips : List ℕ) → HeardLaw s store index id now counters kinds verdicts skips }
{}

// A session grants counters as long as they end at the limit at most.
#[tactic(auto, using(crate::proofs::Laws::reserve_law))]
pub fn reserve_law()
    ensures { (s : Session) (len : ℕ) → ReserveLaw s len }
{}

// What a cut of a range answers, in numbers and values.
#[tactic(auto, using(crate::proofs::Laws::split_law))]
pub fn split_law()
    ensures { (range : Range) (at : ℕ) → SplitLaw range at }
{}

// A missing report and the committed counters make up the session's window, and bits of other counters do not matter.
#[tactic(auto, using(crate::proofs::Laws::missing_law))]
pub fn missing_law()
    ensures { (s : Sessions) (store : List ℕ) (index : ℕ) (session : Session) → InSlot s index session → length store ≡ 1024 → MissingLaw s store index session }
{}

// The missing report of an index that no filled slot holds is turned down by 12.
#[tactic(auto, using(crate::proofs::Laws::no_report_law))]
pub fn no_report_law()
    ensures { (s : Sessions) (store : List ℕ) (index : ℕ) → ((session : Session) → InSlot s index session → ⊥) → length store ≡ 1024 → NoReportLaw s store index }
{}

// There is a report of which the law of missing reports speaks, with bits set outside the window.
#[tactic(auto, using(crate::proofs::Laws::missing_example))]
pub fn missing_example()
    ensures { MissingExample }
{}
