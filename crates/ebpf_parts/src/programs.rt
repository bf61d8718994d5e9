//! The kinds of programs by their numbers, and how programs of the kinds with several ways are attached.

mod attach_type;
mod kind;
mod program_type;

pub use crate::binding::InvalidTypeBinding;
pub use attach_type::{
    CgroupSkbAttachType, CgroupSockAddrAttachType, CgroupSockAttachType, CgroupSockoptAttachType,
    SkReuseportAttachType, SkSkbKind, XdpAttachType, bpf_attach_type,
};
pub use kind::{NAMED_KINDS, NamedKind, ProgramKind, program_kind};
pub use program_type::bpf_prog_type;
