// What is said of more than one call, and the marked cases. Definitions and theorems; each function here has an empty body and
// ties a statement to the source.
#![tactic(auto)]

ghost use Rattle.std.specs.Prelude.{◌≡◌, true, List, ℕ, length};
ghost use Rattle.window.specs.History.{Represents};
ghost use Rattle.sessions.specs.declared.session.Session.{Session};
ghost use Rattle.sessions.specs.declared.sessions.Sessions.{Sessions};
ghost use Rattle.demands.specs.BatchExample.{BatchExampleLaw};
ghost use Rattle.demands.specs.Example.{ExampleLaw};
ghost use Rattle.demands.specs.Grown.{Grown};
ghost use Rattle.demands.specs.History.{VerdictLaw, BatchCall, BatchFor, BatchLaw, InsertedLaw, CountLaw};
ghost use Rattle.demands.specs.LastHeard.{LastHeard};
ghost use Rattle.demands.specs.Marked.{hold_all, marked};
ghost use Rattle.demands.specs.Missing.{MissingReport, NoReport};
ghost use Rattle.demands.specs.Receiving.{Receiving, OnlyLive};
ghost use Rattle.demands.specs.Sending.{Sending};
ghost use Rattle.demands.specs.Wakings.{ExtraWakingsLaw};
ghost use Rattle.demands.specs.WakingsExample.{ExtraWakingsExample, ConditionsNeeded};

// The marked cases of document 01, each computed from the definitions.
pub fn marked_cases()
    ensures { hold_all marked ≡ true }
{}

// No tunnel grown from a good creation is ever turned down by number 14.
pub fn grown_law()
    ensures { Grown }
{}

// Demand 2, receiving: which counters a live session commits.
pub fn receiving_law()
    ensures { Receiving }
{}

// And a batch that is answered good was for a live session.
pub fn only_live_law()
    ensures { OnlyLive }
{}

// A message is given verdict 0 exactly if it opened and its counter is below the limit, not too old and not in the history.
pub fn verdict_law()
    ensures { (history : List ℕ) (counter kind : ℕ) → VerdictLaw history counter kind }
{}

// A batch gives each message the verdict that the session's history calls for, the batch's earlier messages included.
pub fn batch_law()
    ensures { (call : BatchCall) (session : Session) (history : List ℕ) → BatchFor call session history → BatchLaw call history }
{}

// There is a call of which the batch's law speaks: counters 0, 5 and 0 again to a session just inserted give 0, 0 and 10.
pub fn batch_example()
    ensures { BatchExampleLaw }
{}

// A session just inserted stands for the empty history.
pub fn inserted_law()
    ensures { (s : Sessions) (store : List ℕ) (session : Session) → length s.slots ≡ 8 → length store ≡ 1024 → session.next ≡ 0 → InsertedLaw s store session }
{}

// The missing count of a window that stands for a history is the number of its counters that are not in the history.
pub fn count_law()
    ensures { (history words : List ℕ) (next : ℕ) → Represents history words next → CountLaw history words next }
{}

// Demand 2, sending: the counters that a session grants.
pub fn sending_law()
    ensures { Sending }
{}

// Demand 2, the missing report: a recount of the commits.
pub fn missing_law()
    ensures { MissingReport }
{}

// And an index that no filled slot holds has no report.
pub fn no_report_law()
    ensures { NoReport }
{}

// Demand 2, last heard: the time of the last commit.
pub fn last_heard_law()
    ensures { LastHeard }
{}

// There are calls of which demand 2's statements speak: a live session, a commit, a replay, a jump that clears the window, and keepalives of a
// waking and of a settling.
pub fn example_law()
    ensures { ExampleLaw }
{}

// Demand 3: extra wakings under its three conditions change nothing of what the shared calls give.
pub fn extra_wakings_law()
    ensures { ExtraWakingsLaw }
{}

// There is a list that meets the conditions, with wakings that take effect, deadlines that differ and have both come, and a settling.
pub fn extra_wakings_example()
    ensures { ExtraWakingsExample }
{}

// For each of the conditions there is a list that meets the other two, and a shared call that gives the tunnels different answers.
pub fn conditions_needed()
    ensures { ConditionsNeeded }
{}
