// The calls of the log tried directly: lists of unequal lengths and lists that are too short or longer, stores and used lengths at their
// edges, times and verdicts out of range, trailers and records that break their rule. A call that is turned down must leave the store and
// every list as it came; a good one changes only the callout's bytes, or the elements that it reads.
#![tactic(auto)]

mod appending;
mod lists;
mod reading;

use crate::appending::append_groups;
use crate::reading::read_groups;
use std::io;

fn main(rt: HostRuntime) -> io::Result<()> {
    let mut out = io::writer(&rt);
    append_groups(&mut out)?;
    read_groups(&mut out)
}
