//! The larger language of scripts: beside `value` and `code`, `rule` sets up a rule, and `choose` asks it for a quorum.
#![tactic(auto)]

pub mod answer;
mod asked;
pub mod language;
pub mod line;
pub mod rule;
