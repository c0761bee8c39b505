// The lines of the program drive: each is read, its call is made, and the answer is put into the output. No input or output of its own.
#![tactic(auto)]

mod answer;
mod batch;
mod datagram;
mod log;
mod reports;
mod skips;
pub mod state;
mod words;
