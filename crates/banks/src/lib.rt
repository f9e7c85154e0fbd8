//! Station banks: where the records are.
#![tactic(auto)]

pub mod bank;
pub mod fault;
pub mod record;
