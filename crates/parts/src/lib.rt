//! The parts of values: numbers and components of the field that are in their range by their type.
#![tactic(auto)]

pub mod bounded;
pub mod component;
