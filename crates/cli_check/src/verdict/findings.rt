//! Findings over kernels, grouped by what each is about.

use cli_common::kinds::Kind;
use cli_common::source_lines::SourceLine;
use ebpf_base::Text;
use std::alloc::{AllocError, Global};
use std::collections::{BTreeMap, BTreeSet};

/// The effect of a finding on the programs.
#[derive(Clone, Copy, PartialEq, Eq, PartialOrd, Ord)]
pub enum Severity {
    /// A program breaks.
    Breaks,
    /// The kernel has no type of a program's attach target.
    NoTarget,
    /// Something is absent, and no program reaches it.
    Guarded,
    /// A value differs from the object's own.
    Changed,
}

/// The key of a finding: findings with one key are reported together.
#[derive(PartialEq, Eq, PartialOrd, Ord, Drop)]
pub struct FindingKey {
    /// The effect on the programs.
    pub severity: Severity,
    /// The name of the type, field, function or program that the finding is about.
    pub name: String,
    /// The kind of question; where the answer is absent or refused, the kind that stands for its group.
    pub kind: Kind,
    /// The file of the source line, where one is known and counts.
    pub file: String,
    /// The number of the source line, else 0.
    pub line: u32,
    /// The reason.
    pub reason: String,
    /// Whether the values are printed with a sign.
    pub is_signed: bool,
}

impl FindingKey {
    /// A key without a source line, of something that breaks programs.
    pub fn breaking(alloc: Global, name: String, kind: Kind, reason: String) -> FindingKey {
        FindingKey {
            severity: Severity::Breaks,
            name,
            kind,
            file: String::new(alloc),
            line: 0,
            reason,
            is_signed: false,
        }
    }

    /// The key under which the finding is reported with others.
    fn grouped(self) -> FindingKey {
        FindingKey {
            kind: self.kind.group(),
            ..self
        }
    }
}

/// The location of a finding in a linked program. Contracts say nothing of it.
#[derive(Drop)]
pub struct SourceLocation {
    /// The number of the program.
    pub program: usize,
    /// The slot; none where the finding is about the whole program.
    pub slot: Option<usize>,
    /// The instruction of the slot as the object has it, before relocations.
    pub instruction: Option<Text>,
    /// The function that the slot was copied from, and the slot in it, where it is not the program's own.
    pub within: Option<(Text, usize)>,
    /// The source line.
    pub line: Option<SourceLine>,
    /// The kernels, by their numbers.
    pub kernels: Vec<usize>,
}

impl SourceLocation {
    /// A whole program.
    pub fn of_program(alloc: Global, program: usize) -> SourceLocation {
        SourceLocation {
            program,
            slot: None,
            instruction: None,
            within: None,
            line: None,
            kernels: Vec::new(alloc),
        }
    }
}

/// The findings of one key.
#[derive(Drop)]
pub struct Finding {
    /// The kinds of question whose answer is absent or refused.
    pub kinds: BTreeSet<Kind>,
    /// The value that the object's own types give.
    pub own: Option<u64>,
    /// The locations, by the number of the program and the slot, where there is one.
    pub places: BTreeMap<(usize, Option<usize>), SourceLocation>,
    /// The values that kernels give, each with the kernels by their numbers.
    pub values: BTreeMap<u64, Vec<usize>>,
    /// The kernels, by their numbers.
    pub kernels: Vec<usize>,
}

/// Adds a kernel behind others, once.
fn add_kernel(kernels: &mut Vec<usize>, kernel: usize) -> Result<(), AllocError> {
    if kernels.last().copied() == Some(kernel) {
        return Ok(());
    }
    kernels.push(kernel)?;
    Ok(())
}

impl Finding {
    fn new(alloc: Global) -> Finding {
        Finding {
            kinds: BTreeSet::new(alloc),
            own: None,
            places: BTreeMap::new(alloc),
            values: BTreeMap::new(alloc),
            kernels: Vec::new(alloc),
        }
    }

    /// Adds a kind of question, a kernel, and a location, where there is one.
    fn add(
        &mut self,
        kind: Kind,
        kernel: usize,
        place: Option<SourceLocation>,
    ) -> Result<(), AllocError> {
        self.kinds.insert(kind)?;
        add_kernel(&mut self.kernels, kernel)?;
        let Some(place) = place else {
            return Ok(());
        };
        let key = (place.program, place.slot);
        let known = self.places.entry(key)?.or_insert(place);
        add_kernel(&mut known.kernels, kernel)
    }
}

/// The findings over kernels.
#[derive(Drop)]
pub struct Findings {
    alloc: Global,
    /// The findings by key, in the order in which they are reported.
    pub by_key: BTreeMap<FindingKey, Finding>,
}

impl Findings {
    /// No findings yet.
    pub fn new(alloc: Global) -> Findings {
        Findings {
            alloc,
            by_key: BTreeMap::new(alloc),
        }
    }

    /// Adds a finding on a kernel, at a location where it has one.
    pub fn add(
        &mut self,
        key: FindingKey,
        kernel: usize,
        place: Option<SourceLocation>,
    ) -> Result<(), AllocError> {
        let kind = key.kind;
        let found = self.by_key.entry(key.grouped())?;
        let found = found.or_insert(Finding::new(self.alloc));
        found.add(kind, kernel, place)
    }

    /// Adds a value that differs from the object's own on a kernel.
    pub fn add_changed(
        &mut self,
        key: FindingKey,
        kernel: usize,
        own: u64,
        value: u64,
    ) -> Result<(), AllocError> {
        let alloc = self.alloc;
        let found = self.by_key.entry(key)?.or_insert(Finding::new(alloc));
        found.own = found.own.or(Some(own));
        let kernels = found.values.entry(value)?.or_insert(Vec::new(alloc));
        add_kernel(kernels, kernel)?;
        add_kernel(&mut found.kernels, kernel)
    }
}
