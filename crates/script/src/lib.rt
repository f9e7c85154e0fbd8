//! Scripts: a text of set-up lines and calls, and what its calls answer.
//!
//! What every language of scripts has in common is here. A language says which words mean what, which rule its lines
//! set up, and what its calls answer.
#![tactic(auto)]

pub mod answer;
pub mod kind;
pub mod language;
pub mod line;
pub mod order;
pub mod reading;
