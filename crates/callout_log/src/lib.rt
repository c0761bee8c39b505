// The callout log: callouts one behind another in a lent store, each of them records and a trailer that points back.
#![tactic(auto)]

pub mod append;
pub mod claims;
mod log;
pub mod read;
mod record;
mod trailer;
pub mod view;
