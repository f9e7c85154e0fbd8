//! The kinds of value that a register keeps, and their coding as four payloads.
#![tactic(auto)]

pub mod baseline;
pub mod fault;
pub mod notice;
pub mod value;
