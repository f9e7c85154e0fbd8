//! Cases that are run: the ends of every range, one past each end, round trips, rules that choose.
#![tactic(auto)]

#[cfg(test)]
mod numbers_run;
#[cfg(test)]
mod rules_run;
#[cfg(test)]
mod values_run;
