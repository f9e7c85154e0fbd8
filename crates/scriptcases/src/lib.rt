//! Cases that are run: scripts good and bad, in both languages.
#![tactic(auto)]

#[cfg(test)]
mod scripts_run;
