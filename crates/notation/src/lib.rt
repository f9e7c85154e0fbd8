//! How values are written in a line: words, and what they write.
#![tactic(auto)]

pub mod words;
pub mod written;
