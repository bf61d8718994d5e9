//! Help on the refusals of passes.

use ebpf_core_relo::RelocationError as CoreError;
use ebpf_ksyms::KsymsError;
use ebpf_model::RelocationError;
use ebpf_object::Object;
use ebpf_object::prepare::PrepareError;

/// Which files of a kernel are given.
#[derive(Clone, Copy)]
pub struct GivenFiles {
    /// Whether the types are given.
    pub types: bool,
    /// Whether the symbols are given.
    pub symbols: bool,
}

/// The help on a refused CO-RE relocation.
fn types_help(error: &CoreError) -> Option<&'static str> {
    Some(match error {
        CoreError::SectionNotFound
        | CoreError::FunctionNotFound
        | CoreError::InvalidAccessString { .. }
        | CoreError::InvalidInstructionIndex { .. }
        | CoreError::InvalidAccessIndex { .. } =>
            "`.BTF.ext` is damaged or of another file: compile the object again",
        CoreError::ConflictingCandidates { .. } =>
            "give types of a kernel that has one type of that name",
        CoreError::MaximumNestingLevelReached { .. } => "access the field in steps",
        CoreError::InvalidInstruction { .. } => "read the field by `BPF_CORE_READ`",
        CoreError::InvalidRelocationKindForType { .. } =>
            "the sign and the shifts are those of a member, a value is that of an enumeration",
        CoreError::BtfError(_)
        | CoreError::MissingTargetDefinition { .. }
        | CoreError::OutOfMemory => return None,
    })
}

/// The help on a function that isn't found.
fn function_help(given: GivenFiles) -> &'static str {
    if given.types {
        "this kernel's types lack it (a module's aren't searched): declare it `__weak`, and ask `bpf_ksym_exists`"
    } else {
        "give the kernel's types: `--btf /sys/kernel/btf/vmlinux`"
    }
}

/// The help on a variable that isn't found.
fn variable_help(object: &Object, name: &str, given: GivenFiles) -> &'static str {
    let is_typed = object.externs.get(name).is_some_and(|known| known.is_typed);
    if is_typed {
        return "this kernel's types lack it (a module's aren't searched): declare it `__weak`";
    }
    if given.symbols {
        "these symbols lack it, or have no addresses (read /proc/kallsyms as root): declare it `__weak`"
    } else {
        "give the kernel's symbols, read as root: `--kallsyms /proc/kallsyms`; or declare it `__weak`"
    }
}

/// The help on an extern that can't be resolved.
fn resolving_help(object: &Object, error: &KsymsError, given: GivenFiles) -> Option<&'static str> {
    Some(match error {
        KsymsError::TypedKsymRequiresKernelBtf =>
            "give the kernel's types: `--btf /sys/kernel/btf/vmlinux`",
        KsymsError::VariableNotFound { name, .. } => variable_help(object, name.as_str(), given),
        KsymsError::FunctionNotFound { .. } => function_help(given),
        KsymsError::IncompatibleFunctionSignature { .. }
        | KsymsError::IncompatibleVariableType { .. } =>
            "declare it as this kernel has it, or `__weak`",
        KsymsError::InvalidExternType { .. } =>
            "declare it as a function or a variable with `__ksym`",
        KsymsError::KallsymsAccessError(_) | KsymsError::KallsymsParseError(_) =>
            "give the lines of /proc/kallsyms: address, letter, name",
        KsymsError::AmbiguousResolution { .. } =>
            "the kernel has two things of that name: take another",
        KsymsError::BtfError(_) | KsymsError::OutOfMemory => return None,
    })
}

/// The help on slots that can't be written or linked.
fn slots_help(error: &RelocationError) -> Option<&'static str> {
    Some(match error {
        RelocationError::UnknownSymbol { .. }
        | RelocationError::UnknownProgram { .. }
        | RelocationError::InvalidLineInfo { .. } =>
            "the object is damaged or was changed: compile it again",
        RelocationError::SectionNotFound { .. } =>
            "maps stand in \".maps\" or \"maps\", variables in \".data\", \".rodata\" or \".bss\"",
        RelocationError::InvalidRelocationOffset { .. } =>
            "`readelf -r` shows the relocation, `llvm-objdump -d` the instruction",
        RelocationError::ExternNotFound { .. } => "declare it with `__ksym` and compile with `-g`",
        RelocationError::UnresolvableSymbol { .. } =>
            "give the kernel's types: `--btf /sys/kernel/btf/vmlinux`; or declare it `__weak`",
        RelocationError::MapAddressOverflow { .. } =>
            "what is referred to lies 2 GiB or more into its section",
        RelocationError::UnknownFunction { .. } =>
            "the function isn't in this file: link the objects first, by `bpftool gen object`",
        RelocationError::UnsupportedTextSymbol { .. } =>
            "`readelf -s` shows the symbol; take the address of a function",
        RelocationError::FunctionInfoMismatch { .. } => "compile all functions with `-g`, or none",
        RelocationError::ProgramTooLong { .. } => "split the program",
        RelocationError::OutOfMemory => return None,
    })
}

/// The help on the refusal of a pass.
pub fn pass_help(object: &Object, error: &PrepareError, given: GivenFiles) -> Option<&'static str> {
    match error {
        PrepareError::Types(refusal) => types_help(&refusal.error),
        PrepareError::Ksyms(error) => resolving_help(object, error, given),
        PrepareError::Maps(refusal)
        | PrepareError::Externs(refusal)
        | PrepareError::Calls(refusal) => slots_help(&refusal.error),
        PrepareError::MissingDescriptor { .. } => {
            Some("give a descriptor for each map that the programs refer to")
        }
        PrepareError::UnknownMap { .. } => Some("`ebpf list` has the names of the maps"),
        PrepareError::UnwrittenExtern { .. } => Some(
            "compile with `-g`, so that the object has types",
        ),
        PrepareError::Parse(_) | PrepareError::OutOfMemory => None,
    }
}
