// What holds of every log.
ghost use Rattle.callout_log.specs.Laws.{AppendLaw, ExactLaw, FormatLaw, RefusalLaw, WrittenLaw};
ghost use Rattle.callout_log.specs.ViewLaws.{ReadSeenLaw, SameSeenLaw, ViewLaw};
ghost use Rattle.callout_log.specs.Instances.{LogInstances, RefusalInstances};
ghost use Rattle.callout_log.specs.ViewInstances.{ViewInstances};

// Where each field of a record and of a trailer stands, and what a callout and a log are made of.
#[tactic(auto, using(crate::proofs::Laws::format_law))]
pub fn format_law()
    ensures { FormatLaw }
{}

// What an append answers, in the order of its numbers, and the bytes that it writes.
#[tactic(auto, using(crate::proofs::Laws::append_law))]
pub fn append_law()
    ensures { AppendLaw }
{}

// Callouts that fit are appended, what appends make is the callouts' bytes, and it reads back to them.
#[tactic(auto, using(crate::proofs::Laws::written_law))]
pub fn written_law()
    ensures { WrittenLaw }
{}

// Each store that is accepted is, up to its used length, what the appends of its callouts leave.
#[tactic(auto, using(crate::proofs::Laws::exact_law))]
pub fn exact_law()
    ensures { ExactLaw }
{}

// Which logs are turned down, in the order of the numbers.
#[tactic(auto, using(crate::proofs::Laws::refusal_law))]
pub fn refusal_law()
    ensures { RefusalLaw }
{}

// No callouts, a trailer alone, two callouts and a full store, written and read.
#[tactic(auto, using(crate::proofs::Laws::log_instances))]
pub fn log_instances()
    ensures { LogInstances }
{}

// Appends and reads turned down by each number.
#[tactic(auto, using(crate::proofs::Laws::refusal_instances))]
pub fn refusal_instances()
    ensures { RefusalInstances }
{}

// What a view answers, in the order of its numbers, the bytes that it leaves, and that it is a log.
#[tactic(auto, using(crate::proofs::Laws::view_law))]
pub fn view_law()
    ensures { ViewLaw }
{}

// The reader on what is seen answers as the reader on the log does, with the hidden fields 0 where they are hidden.
#[tactic(auto, using(crate::proofs::Laws::read_seen_law))]
pub fn read_seen_law()
    ensures { ReadSeenLaw }
{}

// With their fields hidden, logs that differ only there are copied and read alike.
#[tactic(auto, using(crate::proofs::Laws::same_seen_law))]
pub fn same_seen_law()
    ensures { SameSeenLaw }
{}

// Logs seen whole and with their fields hidden, views turned down, and two logs that differ in a hidden byte.
#[tactic(auto, using(crate::proofs::Laws::view_instances))]
pub fn view_instances()
    ensures { ViewInstances }
{}
