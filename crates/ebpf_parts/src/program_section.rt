//! What the name of a program's section says of the program.

ghost use Rattle.std.specs.Prelude.{◌≡◌, IfOk, Some};
ghost use Rattle.ebpf_base.specs.Faults.{Refuses};
ghost use Rattle.ebpf_parts.specs.Memory.{is_parse_memory};
ghost use Rattle.ebpf_parts.specs.ProgramTypes.{without_mark, program_section, program_section_fault, section_as, section_fault_as};

use crate::error::ParseError;
use crate::parse_mode::ParseMode;
use crate::programs::{
    CgroupSkbAttachType, CgroupSockAddrAttachType, CgroupSockAttachType, CgroupSockoptAttachType,
    SkReuseportAttachType, SkSkbKind, XdpAttachType,
};
use crate::section_name::program_section;
use ebpf_base::Text;
use std::alloc::Global;

/// The kind of a program, with what its section's name says of it.
#[derive(Clone, Copy, Debug, PartialEq, Eq)]
pub enum ProgramSection {
    KRetProbe,
    KProbe,
    UProbe {
        sleepable: bool,
        multi: bool,
    },
    URetProbe {
        sleepable: bool,
        multi: bool,
    },
    TracePoint,
    SocketFilter,
    Xdp {
        frags: bool,
        attach_type: XdpAttachType,
    },
    SkMsg,
    SkSkbStream {
        kind: SkSkbKind,
    },
    SockOps,
    SchedClassifier,
    CgroupSkb {
        attach_type: Option<CgroupSkbAttachType>,
    },
    CgroupSockAddr {
        attach_type: CgroupSockAddrAttachType,
    },
    CgroupSysctl,
    CgroupSockopt {
        attach_type: CgroupSockoptAttachType,
    },
    LircMode2,
    PerfEvent,
    RawTracePoint,
    Lsm {
        sleepable: bool,
    },
    LsmCgroup,
    BtfTracePoint,
    FEntry {
        sleepable: bool,
    },
    FExit {
        sleepable: bool,
    },
    FlowDissector,
    Extension,
    SkLookup,
    SkReuseport {
        attach_type: SkReuseportAttachType,
    },
    CgroupSock {
        attach_type: CgroupSockAttachType,
    },
    CgroupDevice,
    Iter {
        sleepable: bool,
    },
    /// A name that is in no row of the table: only in lenient parsing.
    Other,
}

/// The name without the mark before it, `?`.
fn without_mark(name: &str) -> &str
    ensures { result.now ≡ without_mark name.now }
{
    match name.strip_prefix('?') {
        Some(rest) => rest,
        None => name,
    }
}

impl ProgramSection {
    /// Returns the kind that the name of a program's section says (libbpf's section names).
    ///
    /// The name is split at each slash. Pieces after those that the kind uses are ignored.
    ///
    /// # Errors
    ///
    /// - `InvalidProgramSection`: the name says no kind.
    /// - `OutOfMemory`: an allocation fails.
    pub fn from_str(alloc: Global, name: &str) -> Result<ProgramSection, ParseError>
        ensures section { IfOk result (λ section. program_section name.now ≡ Some section) }
        ensures fault { Refuses is_parse_memory result (program_section_fault name.now) }
    {
        match program_section(name) {
            Some(section) => Ok(section),
            None => Err(ParseError::InvalidProgramSection {
                section: Text::from_str(alloc, name)?,
            }),
        }
    }

    /// Returns the kind that the name of a program's section says, by the parse mode.
    ///
    /// `Strict` is `from_str`. `Lenient` has the same kinds, also for names with a `?` before them, and `Other` for
    /// every other name.
    ///
    /// # Errors
    ///
    /// - `InvalidProgramSection`: the name says no kind, and the mode is `Strict`.
    /// - `OutOfMemory`: an allocation fails.
    #[tactic(auto, unfolding(crate::specs::ProgramTypes::section_as))]
    pub fn read(alloc: Global, name: &str, mode: ParseMode) -> Result<ProgramSection, ParseError>
        ensures section { IfOk result (λ section. section_as mode name.now ≡ Some section) }
        ensures fault { Refuses is_parse_memory result (section_fault_as mode name.now) }
    {
        match mode {
            ParseMode::Strict => ProgramSection::from_str(alloc, name),
            ParseMode::Lenient => {
                Ok(program_section(without_mark(name)).unwrap_or(ProgramSection::Other))
            }
        }
    }
}
