//! The smaller language of scripts: `value` sets up the kind of value, and `code` codes a value.
#![tactic(auto)]

pub mod answer;
pub mod language;
pub mod line;
