//! Numbers as they are written in a script: whole numbers, and tenths of a unit with a decimal point.
#![tactic(auto)]

pub mod tenths;
pub mod whole;
