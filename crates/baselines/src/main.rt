//! `baselines`: reads scripts of the smaller language, runs them, and prints what each call answers.
#![tactic(auto)]

use codescript::language::CodeScript;
use runner::run_program;
use std::process::ExitCode;
use values::baseline::Baseline;
use values::notice::Notice;

fn main(rt: HostRuntime) -> ExitCode {
    run_program::<CodeScript<Baseline>, CodeScript<Notice>>(&rt, "baselines")
}
