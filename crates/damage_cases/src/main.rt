// Damaged tunnels and arguments out of range: a damaged tunnel for each clause of number 14, and each call with it; stores and lists
// of wrong length, a header's too; what number 14 does not look at; the order of the checks; batches that find no live session; and
// missing reports over any words. A call that is turned down must give its number and hand everything back as it came: the tunnel, the
// store, the verdicts and the skips are compared. A report hands back the tunnel and the store. Lists that are lent for reading only
// cannot change.
#![tactic(auto)]

mod arguments;
mod ask;
mod batches;
mod call;
mod clauses;
mod creation;
mod expected;
mod fields;
mod header;
mod judge;
mod order;
mod outside;
mod request;
mod sound;
mod unlooked;

use crate::arguments::argument_groups;
use crate::batches::batch_groups;
use crate::clauses::clause_groups;
use crate::creation::creation_groups;
use crate::header::header_groups;
use crate::order::order_groups;
use crate::outside::report_groups;
use std::io;

fn main(rt: HostRuntime) -> io::Result<()> {
    let mut out = io::writer(&rt);
    clause_groups(&mut out)?;
    argument_groups(&mut out)?;
    order_groups(&mut out)?;
    batch_groups(&mut out)?;
    report_groups(&mut out)?;
    creation_groups(&mut out)?;
    header_groups(&mut out)
}
