//! Quorum rules: which copies a reading or a writing takes.
#![tactic(auto)]

pub mod copy_set;
pub mod fault;
pub mod level_rule;
mod marks;
pub mod rule;
pub mod tree;
pub mod tree_rule;
mod votes;
pub mod votes_rule;
