//! Calls and loads of functions, maps and kernel symbols by name.

use cli_common::names::EscapedName;
use std::fmt;

/// A function, map or kernel symbol with a name.
#[derive(Clone, Copy)]
pub enum Subject<'a> {
    /// A helper function: `bpf_loop#181`.
    Helper {
        name: &'static str,
        number: u32,
    },
    /// A function of the program that is called: `f`.
    Called(EscapedName<'a>),
    /// A function of the program whose address is loaded: `function f`.
    Function(EscapedName<'a>),
    /// A map: `map totals`.
    Map(EscapedName<'a>),
    /// A place in a map's data: `map_value .bss + 8`.
    MapValue {
        name: EscapedName<'a>,
        offset: i32,
    },
    /// A function or variable of the kernel: `ksym bpf_prog_active`.
    Kernel {
        name: EscapedName<'a>,
        is_absent: bool,
    },
}

/// An instruction with its named subject.
#[derive(Clone, Copy)]
pub enum NamedOperation<'a> {
    /// A call.
    Call(Subject<'a>),
    /// A load into a register.
    Load { register: u8, subject: Subject<'a> },
}

impl fmt::Display for Subject<'_> {
    fn fmt<W: fmt::Write>(&self, f: &mut fmt::Formatter<W>) -> fmt::Result {
        match self {
            Subject::Helper { name, number } => write!(f, "bpf_{name}#{number}"),
            Subject::Called(name) => write!(f, "{name}"),
            Subject::Function(name) => write!(f, "function {name}"),
            Subject::Map(name) => write!(f, "map {name}"),
            Subject::MapValue { name, offset } => write!(f, "map_value {name} + {offset}"),
            Subject::Kernel {
                name,
                is_absent: false,
            } => write!(f, "ksym {name}"),
            Subject::Kernel {
                name,
                is_absent: true,
            } => write!(f, "ksym {name} (absent)"),
        }
    }
}

impl fmt::Display for NamedOperation<'_> {
    fn fmt<W: fmt::Write>(&self, f: &mut fmt::Formatter<W>) -> fmt::Result {
        match self {
            NamedOperation::Call(subject) => write!(f, "call {subject}"),
            NamedOperation::Load { register, subject } => write!(f, "r{register} = {subject}"),
        }
    }
}
