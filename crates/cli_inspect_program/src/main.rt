//! `ebpf-inspect`: reads an ELF64 object with eBPF programs and prints what each linked program is made of.
#![tactic(auto)]

use cli_plain::{OpenFiles, PlainCommand, run_inspect, start};
use std::alloc::Global;
use std::io::{BufRead, Write};
use std::process::ExitCode;

/// The program.
struct Inspect;

impl PlainCommand for Inspect {
    const NAME: &'static str = "ebpf-inspect";

    fn run<K: BufRead + Drop, O: Write, E: Write>(
        alloc: Global,
        files: OpenFiles<'_, K>,
        out: &mut O,
        err: &mut E,
    ) -> u8 {
        let OpenFiles {
            words,
            file,
            btf,
            kallsyms,
        } = files;
        run_inspect(alloc, words, file, btf, kallsyms, out, err)
    }
}

fn main(rt: HostRuntime) -> ExitCode {
    start::<Inspect>(&rt)
}
