// Numbers in bytes.
#![tactic(auto)]

pub mod little_endian;
