//! Tests of banks, layers and images.
#![tactic(auto)]

#[cfg(test)]
mod banks_run;
#[cfg(test)]
mod images_run;
