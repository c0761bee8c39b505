// Lines, words, numbers, bytes in hexadecimal digits, and text. Functions on slices; no input or output.
#![tactic(auto)]

pub mod gather;
pub mod hex;
pub mod text;
pub mod word;
