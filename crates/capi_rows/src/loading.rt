//! How programs are loaded, as numbers: by the names of their sections, and where those are no names that loaders know, by the kinds that files say.

ghost use Rattle.std.specs.Prelude.{◌≡◌};
ghost use Rattle.capi_rows.specs.Loading.{attach_type, kind_flags, program_kind_number, program_type, is_multi, loaded_as, loaded_flags};

use crate::codes::flag;
use ebpf_parts::ProgramSection;
use ebpf_parts::programs::{ProgramKind, bpf_attach_type};

/// In the place of an attach type: the name says none.
pub const NO_ATTACH_TYPE: u32 = u32::MAX;

/// The number of a kind, in the order in which the library has them.
pub fn program_kind_number(section: ProgramSection) -> u32
    ensures { result ≡ program_kind_number section }
{
    match section {
        ProgramSection::KRetProbe => 0,
        ProgramSection::KProbe => 1,
        ProgramSection::UProbe { .. } => 2,
        ProgramSection::URetProbe { .. } => 3,
        ProgramSection::TracePoint => 4,
        ProgramSection::SocketFilter => 5,
        ProgramSection::Xdp { .. } => 6,
        ProgramSection::SkMsg => 7,
        ProgramSection::SkSkbStream { .. } => 8,
        ProgramSection::SockOps => 9,
        ProgramSection::SchedClassifier => 10,
        ProgramSection::CgroupSkb { .. } => 11,
        ProgramSection::CgroupSockAddr { .. } => 12,
        ProgramSection::CgroupSysctl => 13,
        ProgramSection::CgroupSockopt { .. } => 14,
        ProgramSection::LircMode2 => 15,
        ProgramSection::PerfEvent => 16,
        ProgramSection::RawTracePoint => 17,
        ProgramSection::Lsm { .. } => 18,
        ProgramSection::LsmCgroup => 19,
        ProgramSection::BtfTracePoint => 20,
        ProgramSection::FEntry { .. } => 21,
        ProgramSection::FExit { .. } => 22,
        ProgramSection::FlowDissector => 23,
        ProgramSection::Extension => 24,
        ProgramSection::SkLookup => 25,
        ProgramSection::SkReuseport { .. } => 26,
        ProgramSection::CgroupSock { .. } => 27,
        ProgramSection::CgroupDevice => 28,
        ProgramSection::Iter { .. } => 29,
        ProgramSection::Other => 30,
    }
}

/// The kernel's `enum bpf_prog_type` for a kind.
#[tactic(auto, unfolding(ebpf_parts::specs::ProgramTypes::program_type_number))]
pub fn program_type(section: ProgramSection) -> u32
    ensures { result ≡ program_type section }
{
    match section {
        ProgramSection::KRetProbe => 2,
        ProgramSection::KProbe => 2,
        ProgramSection::UProbe { .. } => 2,
        ProgramSection::URetProbe { .. } => 2,
        ProgramSection::TracePoint => 5,
        ProgramSection::SocketFilter => 1,
        ProgramSection::Xdp { .. } => 6,
        ProgramSection::SkMsg => 16,
        ProgramSection::SkSkbStream { .. } => 14,
        ProgramSection::SockOps => 13,
        ProgramSection::SchedClassifier => 3,
        ProgramSection::CgroupSkb { .. } => 8,
        ProgramSection::CgroupSockAddr { .. } => 18,
        ProgramSection::CgroupSysctl => 23,
        ProgramSection::CgroupSockopt { .. } => 25,
        ProgramSection::LircMode2 => 20,
        ProgramSection::PerfEvent => 7,
        ProgramSection::RawTracePoint => 17,
        ProgramSection::Lsm { .. } => 29,
        ProgramSection::LsmCgroup => 29,
        ProgramSection::BtfTracePoint => 26,
        ProgramSection::FEntry { .. } => 26,
        ProgramSection::FExit { .. } => 26,
        ProgramSection::FlowDissector => 22,
        ProgramSection::Extension => 28,
        ProgramSection::SkLookup => 30,
        ProgramSection::SkReuseport { .. } => 21,
        ProgramSection::CgroupSock { .. } => 9,
        ProgramSection::CgroupDevice => 15,
        ProgramSection::Iter { .. } => 26,
        ProgramSection::Other => 0,
    }
}

/// The kernel's `enum bpf_attach_type` for a kind, `NO_ATTACH_TYPE` where the name says none.
pub fn attach_type(section: ProgramSection) -> u32
    ensures { result ≡ attach_type section }
{
    match section {
        ProgramSection::UProbe { multi: true, .. } => 48,
        ProgramSection::URetProbe { multi: true, .. } => 48,
        ProgramSection::Xdp { attach_type, .. } => bpf_attach_type::from(attach_type).number(),
        ProgramSection::SkMsg => 7,
        ProgramSection::SkSkbStream { kind } => bpf_attach_type::from(kind).number(),
        ProgramSection::SockOps => 3,
        ProgramSection::CgroupSkb {
            attach_type: Some(attach_type),
        } => bpf_attach_type::from(attach_type).number(),
        ProgramSection::CgroupSockAddr { attach_type } => bpf_attach_type::from(
            attach_type,
        ).number(),
        ProgramSection::CgroupSysctl => 18,
        ProgramSection::CgroupSockopt { attach_type } => bpf_attach_type::from(
            attach_type,
        ).number(),
        ProgramSection::LircMode2 => 16,
        ProgramSection::Lsm { .. } => 27,
        ProgramSection::LsmCgroup => 43,
        ProgramSection::BtfTracePoint => 23,
        ProgramSection::FEntry { .. } => 24,
        ProgramSection::FExit { .. } => 25,
        ProgramSection::FlowDissector => 17,
        ProgramSection::SkLookup => 36,
        ProgramSection::SkReuseport { attach_type } => bpf_attach_type::from(attach_type).number(),
        ProgramSection::CgroupSock { attach_type } => bpf_attach_type::from(attach_type).number(),
        ProgramSection::CgroupDevice => 6,
        ProgramSection::Iter { .. } => 28,
        _ => NO_ATTACH_TYPE,
    }
}

/// The flags of a kind: sleepable 1, multi 2, frags 4, added up.
pub fn kind_flags(section: ProgramSection) -> u32
    ensures { result ≡ kind_flags section }
{
    match section {
        ProgramSection::UProbe { sleepable, multi } => flag(sleepable) + 2 * flag(multi),
        ProgramSection::URetProbe { sleepable, multi } => flag(sleepable) + 2 * flag(multi),
        ProgramSection::Xdp { frags, .. } => 4 * flag(frags),
        ProgramSection::Lsm { sleepable } => flag(sleepable),
        ProgramSection::FEntry { sleepable } => flag(sleepable),
        ProgramSection::FExit { sleepable } => flag(sleepable),
        ProgramSection::Iter { sleepable } => flag(sleepable),
        _ => 0,
    }
}

/// The three numbers of a program that say how it is loaded.
#[derive(Clone, Copy)]
pub struct Loading {
    /// Sleepable 1, multi 2, frags 4, target 8, optional 16, added up.
    pub flags: u32,
    /// The kernel's `enum bpf_prog_type`.
    pub program_type: u32,
    /// The kernel's `enum bpf_attach_type`, `NO_ATTACH_TYPE` where there is none.
    pub attach_type: u32,
}

/// Whether a kind is of several probes.
fn is_multi(section: ProgramSection) -> bool
    ensures { result ≡ is_multi section }
{
    match section {
        ProgramSection::UProbe { multi, .. } => multi,
        ProgramSection::URetProbe { multi, .. } => multi,
        _ => false,
    }
}

/// The flags of a name that loaders know; whether it is of several probes the file's kind says.
fn loaded_flags(kind: ProgramKind, section: ProgramSection) -> u32
    ensures { result ≡ loaded_flags kind section }
{
    flag(kind.is_sleepable)
        + 2 * flag(is_multi(section))
        + 4 * flag(kind.has_frags)
        + 8 * flag(kind.wants_target_type)
        + 16 * flag(kind.is_optional)
}

/// How a program is loaded whose section's name has a kind, or none, and which a file says to be of a kind.
pub fn loaded_as(kind: Option<ProgramKind>, section: ProgramSection) -> Loading
    ensures { result ≡ loaded_as kind section }
{
    match kind {
        Some(kind) => Loading {
            flags: loaded_flags(kind, section),
            program_type: kind.program_type.number(),
            attach_type: kind.attach_type.unwrap_or(NO_ATTACH_TYPE),
        },
        None => Loading {
            flags: kind_flags(section),
            program_type: program_type(section),
            attach_type: attach_type(section),
        },
    }
}
