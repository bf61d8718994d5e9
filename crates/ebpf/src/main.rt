//! `ebpf`: what object files have, what their linked programs are, and on which kernels they run.
#![tactic(auto)]

mod choices;
mod help;
mod invocation_error;
mod run;
mod words;

use std::process::ExitCode;

fn main(rt: HostRuntime) -> ExitCode {
    run::start(&rt)
}
