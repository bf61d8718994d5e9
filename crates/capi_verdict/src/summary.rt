//! How many programs of an object run on a kernel.

ghost use Rattle.std.specs.Prelude.{◌≡◌};
ghost use Rattle.capi_verdict.specs.Summaries.{count_fates, fate_by, fate_number, summary, verdict_number};

/// The fate of a program on a kernel.
#[derive(Clone, Copy)]
pub enum ProgramFate {
    /// It runs.
    Runs,
    /// The kernel's types lack its attach target. It has no other reason to break.
    NoTarget,
    /// It breaks.
    Breaks,
}

/// The fate of a program that has a reason to break or none, and a target or none.
pub fn fate_by(is_ok: bool, has_target: bool) -> ProgramFate
    ensures { result ≡ fate_by is_ok has_target }
{
    if !is_ok {
        return ProgramFate::Breaks;
    }
    if has_target {
        return ProgramFate::Runs;
    }
    ProgramFate::NoTarget
}

impl ProgramFate {
    /// The number of the fate.
    fn number(self) -> u32
        ensures { result ≡ fate_number self }
    {
        match self {
            ProgramFate::Runs => 0,
            ProgramFate::NoTarget => 1,
            ProgramFate::Breaks => 2,
        }
    }
}

/// How many programs have a fate.
fn count_fates(fate: ProgramFate, fates: &[ProgramFate]) -> usize
    ensures { result ≡ count_fates fate fates.now }
{
    let number = fate.number();
    fates.iter().filter(|fate| fate.number() == number).count()
}

/// Ok 0, breaks 1.
fn verdict_number(is_ok: bool) -> u32
    ensures { result ≡ verdict_number is_ok }
{
    if is_ok { 0 } else { 1 }
}

/// How many programs of an object run on a kernel.
#[repr(C)]
#[derive(Clone, Copy)]
pub struct ebpf_verdict_summary {
    /// How many run.
    pub programs_ok: usize,
    /// How many break.
    pub programs_break: usize,
    /// How many have no target, and no other reason to break.
    pub programs_without_target: usize,
    /// How many reasons there are.
    pub reasons: usize,
    /// Ok 0, breaks 1.
    pub verdict: u32,
}

/// A verdict on an object of so many programs, with so many reasons; `for_all` says that one of them is for all programs.
#[derive(Clone, Copy)]
pub struct Totals {
    pub is_ok: bool,
    pub for_all: bool,
    pub programs: usize,
    pub reasons: usize,
}

/// The summary of a verdict.
pub fn summary(totals: Totals, fates: &[ProgramFate]) -> ebpf_verdict_summary
    ensures { result
        ≡ summary totals.is_ok totals.for_all totals.programs fates.now totals.reasons }
{
    let verdict = verdict_number(totals.is_ok);
    if totals.for_all {
        return ebpf_verdict_summary {
            programs_ok: 0,
            programs_break: totals.programs,
            programs_without_target: 0,
            reasons: totals.reasons,
            verdict,
        };
    }
    ebpf_verdict_summary {
        programs_ok: count_fates(ProgramFate::Runs, fates),
        programs_break: count_fates(ProgramFate::Breaks, fates),
        programs_without_target: count_fates(ProgramFate::NoTarget, fates),
        reasons: totals.reasons,
        verdict,
    }
}
