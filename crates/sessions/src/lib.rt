// The sessions of a tunnel, after src/session.rs and the `Index` of src/index.rs: one session, granted ranges of counters, the ring of eight slots, received
// batches, and what number 14 looks at. The windows' words lie in the lent store.
#![tactic(auto)]

pub mod batch;
pub mod claims;
pub mod damage;
pub mod index;
pub mod range;
pub mod session;
pub mod sessions;
pub mod store;
