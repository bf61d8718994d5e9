//! `ebpf-link`: reads an ELF64 object with eBPF programs and prints the slots of each program.
#![tactic(auto)]

use cli_plain::{OpenFiles, PlainCommand, run_link, start};
use std::alloc::Global;
use std::io::{BufRead, Write};
use std::process::ExitCode;

/// The program.
struct Link;

impl PlainCommand for Link {
    const NAME: &'static str = "ebpf-link";

    fn run<K: BufRead + Drop, O: Write, E: Write>(
        alloc: Global,
        files: OpenFiles<'_, K>,
        out: &mut O,
        err: &mut E,
    ) -> u8 {
        let OpenFiles {
            words,
            file,
            btf,
            kallsyms,
        } = files;
        run_link(alloc, words, file, btf, kallsyms, out, err)
    }
}

fn main(rt: HostRuntime) -> ExitCode {
    start::<Link>(&rt)
}
