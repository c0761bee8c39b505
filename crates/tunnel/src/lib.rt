// A tunnel: `tunnel::Tunnel` has one method for each call, with the checks that precede what the Rust's own tunnel does, which is the `control::Control` of
// the other modules. They are named after the Rust's files and the functions of src/tunnel.rs, save `settle`, which the Rust does not have.
#![tactic(auto)]

pub mod answer;
pub mod arguments;
pub mod claims;
pub mod control;
pub mod damage;
pub mod decapsulate;
pub mod encapsulate;
pub mod event;
pub mod handle_handshake;
pub mod handle_timeout;
pub mod handshake;
pub mod initiate_handshake;
pub mod poll_timeout;
pub mod ring_buffer;
pub mod settle;
pub mod timers;
pub mod tunnel;
