//! `choices`: reads scripts of the larger language, runs them, and prints what each call answers.
#![tactic(auto)]

use rulescript::language::RuleScript;
use runner::run_program;
use std::process::ExitCode;
use values::baseline::Baseline;
use values::notice::Notice;

fn main(rt: HostRuntime) -> ExitCode {
    run_program::<RuleScript<Baseline>, RuleScript<Notice>>(&rt, "choices")
}
