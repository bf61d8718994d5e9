//! An object over kernels, one after the other.

ghost use Rattle.std.specs.Prelude.{◌≡◌};
ghost use Rattle.cli_check.specs.Statuses.{status_of};

use crate::verdict::findings::{Findings, Severity};
use crate::verdict::loaded::Loaded;
use crate::verdict::{Fate, judge_kernel};
use cli_common::refusal::FileRefusal;
use cli_output::palette::Palette;
use ebpf_base::Text;
use ebpf_btf::Btf;
use std::alloc::{AllocError, Global};

/// The verdict on a kernel.
#[derive(Drop)]
pub enum Judgement {
    /// The fate on the kernel of each program that counts.
    Judged(Vec<Fate>),
    /// The reason why the kernel's types can't be read.
    Unread(FileRefusal),
}

/// A kernel with its verdict.
#[derive(Drop)]
pub struct KernelAnswer {
    /// The name.
    pub name: Text,
    /// The verdict.
    pub answer: Judgement,
}

/// An object over the kernels so far.
#[derive(Drop)]
pub struct Session {
    /// The name of the object's file.
    pub file: Text,
    /// The colours of the text.
    pub palette: Palette,
    /// Whether every kernel is named.
    pub all: bool,
    /// Whether a program without a target makes the status 1.
    strict: bool,
    /// The object.
    pub loaded: Loaded,
    /// The kernels so far.
    pub kernels: Vec<KernelAnswer>,
    /// The findings over the kernels.
    pub findings: Findings,
}

/// The exit status by the number of kernels whose types can't be read, and of those on which some program breaks.
fn status_of(unread: usize, broken: usize) -> u8
    ensures { result ≡ status_of unread broken }
{
    if unread > 0 {
        return 2;
    }
    if broken > 0 { 1 } else { 0 }
}

impl KernelAnswer {
    /// The number of programs with a fate; 0 where the kernel's types can't be read.
    fn with_fate(&self, fate: Fate) -> usize {
        match &self.answer {
            Judgement::Judged(fates) => fates.iter().filter(|found| **found == fate).count(),
            Judgement::Unread(_) => 0,
        }
    }

    /// The number of programs that break; 0 where the kernel's types can't be read.
    pub fn breaking(&self) -> usize {
        self.with_fate(Fate::Breaks)
    }

    /// The number of programs without a target that have no other reason to break.
    pub fn untargeted(&self) -> usize {
        self.with_fate(Fate::NoTarget)
    }

    /// Whether the kernel's types were read.
    pub fn is_judged(&self) -> bool {
        matches!(self.answer, Judgement::Judged(_))
    }

    /// Whether the program of a number has a fate on the kernel.
    pub fn has_fate(&self, program: usize, fate: Fate) -> bool {
        match &self.answer {
            Judgement::Judged(fates) => fates.get(program).copied() == Some(fate),
            Judgement::Unread(_) => false,
        }
    }
}

impl Session {
    /// An object, over no kernel yet.
    pub fn new(
        alloc: Global,
        file: Text,
        loaded: Loaded,
        palette: Palette,
        all: bool,
        strict: bool,
    ) -> Session {
        Session {
            file,
            palette,
            all,
            strict,
            loaded,
            kernels: Vec::new(alloc),
            findings: Findings::new(alloc),
        }
    }

    /// Judges the programs over a kernel's types.
    pub fn judge(&mut self, alloc: Global, name: Text, kernel: &Btf) -> Result<(), AllocError> {
        let number = self.kernels.len();
        let programs = judge_kernel(alloc, &mut self.findings, &self.loaded, kernel, number)?;
        self.kernels.push(KernelAnswer {
            name,
            answer: Judgement::Judged(programs),
        })?;
        Ok(())
    }

    /// Adds a kernel whose types can't be read.
    pub fn note_unread(&mut self, name: Text, refusal: FileRefusal) -> Result<(), AllocError> {
        self.kernels.push(KernelAnswer {
            name,
            answer: Judgement::Unread(refusal),
        })?;
        Ok(())
    }

    /// The number of kernels whose types were read.
    pub fn judged(&self) -> usize {
        self.kernels
            .iter()
            .filter(|kernel| kernel.is_judged())
            .count()
    }

    /// The number of kernels whose types can't be read.
    pub fn unread(&self) -> usize {
        self.kernels.len().saturating_sub(self.judged())
    }

    /// The number of kernels on which some program breaks.
    pub fn broken(&self) -> usize {
        self.kernels
            .iter()
            .filter(|kernel| kernel.breaking() > 0)
            .count()
    }

    /// The number of kernels on which some program has no target.
    fn lacking_targets(&self) -> usize {
        self.kernels
            .iter()
            .filter(|kernel| kernel.untargeted() > 0)
            .count()
    }

    /// Whether the program of a number has a fate on some kernel.
    fn has_fate_somewhere(&self, program: usize, fate: Fate) -> bool {
        self.kernels
            .iter()
            .any(|kernel| kernel.has_fate(program, fate))
    }

    /// The number of programs that have a fate on some kernel.
    pub fn programs_with(&self, fate: Fate) -> usize {
        let count = self.loaded.needs.programs.len();
        (0..count)
            .filter(|program| self.has_fate_somewhere(*program, fate))
            .count()
    }

    /// The number of kernels on which some program fails: breaks or, where that counts, has no target.
    fn failing(&self) -> usize {
        if self.strict {
            self.broken().saturating_add(self.lacking_targets())
        } else {
            self.broken()
        }
    }

    /// The exit status: 2 where the types of a kernel can't be read, else 1 where some program fails on some kernel, else 0.
    pub fn status(&self) -> u8 {
        status_of(self.unread(), self.failing())
    }

    /// Whether there is a finding of a severity.
    pub fn has(&self, severity: Severity) -> bool {
        self.findings
            .by_key
            .keys()
            .any(|key| key.severity == severity)
    }
}
