//! Why a slot could not be relocated to another kernel's types, and the words of it.

ghost use Rattle.std.specs.Prelude.{◌≡◌, [], Err};
ghost use Rattle.ebpf_core.specs.Answers.{of_type_error, Tells};
ghost use Rattle.ebpf_core.specs.declared.error.RelocationError.TheVariants.{OutOfMemory};
ghost use Rattle.ebpf_core.specs.declared.error.RelocationError.TheVariants as errors;

use crate::Step;
use ebpf_base::{Items, Text};
use ebpf_btf::{BtfError, BtfKind};
use ebpf_btf_ext::RelocationKind;
use std::alloc::{AllocError, AllocFailed, Global};
use std::fmt;
use thiserror::Error;

/// Why a relocation of `.BTF.ext` on a type, a field or a variant could not be applied.
///
/// `relocation_number` is the relocation's place among those of its section. The texts `access_path`,
/// `relocation_kind`, `type_kind` and `error` are for people to read.
#[derive(Debug, Drop, Error)]
pub enum RelocationError {
    /// The object has no section with the name of the relocation's section.
    #[error("the object has no section of the name that CO-RE relocations are for")]
    SectionNotFound,
    /// No function of the section has the relocation's slot.
    #[error("a CO-RE relocation is for an instruction of no function")]
    FunctionNotFound,
    /// An access string that is no numbers between colons, or not as many of them as its kind takes.
    #[error("the access string {:?} is no numbers between colons, or not as many as its kind takes", .access_str.as_str())]
    InvalidAccessString {
        access_str: Text,
    },
    /// A wide load has no second slot, which would be number `index` of its function.
    #[error("CO-RE relocation {relocation_number} needs instruction {index}, and the function has {num_instructions}")]
    InvalidInstructionIndex {
        index: usize,
        num_instructions: usize,
        relocation_number: usize,
    },
    /// The types of the kernel that a local type stands for don't agree. `candidates` has the names of those that
    /// differ from the first, by id.
    #[error("the kernel has types for {:?} that disagree: {}", .type_name.as_str(), Names(.candidates.as_slice()))]
    ConflictingCandidates {
        type_name: Text,
        candidates: Items<Text>,
    },
    /// A path of more than 64 parts, or in a type of the kernel more than 64 anonymous members around a member, or more
    /// than 1,048,576 members to look at.
    #[error("the path in {:?} has more than 64 parts or levels, or 1048576 members to look at", .type_name.as_str())]
    MaximumNestingLevelReached {
        type_name: Text,
    },
    /// Part `index` of the access string `spec` is past the `len` members, elements or variants of a local type.
    #[error("the access string {:?} asks {:?} for number {index} of {len}: {error}", .spec.as_str(), .access_path.as_str())]
    InvalidAccessIndex {
        access_path: Text,
        spec: Text,
        index: usize,
        len: usize,
        error: Text,
    },
    /// What the relocation asks can't be asked of its local type or field.
    #[error("CO-RE relocation {relocation_number} asks for {relocation_kind}, and {:?} is {type_kind}", .error.as_str())]
    InvalidRelocationKindForType {
        relocation_number: usize,
        relocation_kind: Text,
        type_kind: Text,
        error: Text,
    },
    /// The instruction at slot `index` can't carry what was found.
    #[error("CO-RE relocation {relocation_number} is at instruction {index}, and {error}")]
    InvalidInstruction {
        relocation_number: usize,
        index: usize,
        error: Text,
    },
    /// No type of the kernel was found. It is kept for users and never given: such a slot is poisoned.
    #[error("the kernel has no type for BTF type {type_id}, which instruction {ins_index} needs ({kind:?})")]
    MissingTargetDefinition {
        kind: RelocationKind,
        type_id: u32,
        ins_index: usize,
    },
    /// The types of one side can't be read.
    #[error("{0}")]
    BtfError(BtfError),
    /// No memory was found.
    #[error("out of memory")]
    OutOfMemory,
}

impl From<AllocError> for RelocationError {
    ghost from_gives = { λ _ e. e ≡ OutOfMemory };

    fn from(_error: AllocError) -> RelocationError {
        RelocationError::OutOfMemory
    }
}

impl<T: Drop> From<AllocFailed<T>> for RelocationError {
    ghost from_gives = { λ _ e. e ≡ OutOfMemory };

    fn from(_error: AllocFailed<T>) -> RelocationError {
        RelocationError::OutOfMemory
    }
}

impl From<BtfError> for RelocationError {
    ghost from_gives = { λ error e. e ≡ of_type_error error };

    /// The fault of types; out of memory stays out of memory.
    fn from(error: BtfError) -> RelocationError {
        match error {
            BtfError::OutOfMemory => RelocationError::OutOfMemory,
            error => RelocationError::BtfError(error),
        }
    }
}

/// `InvalidAccessString` of an access string.
pub fn invalid_access_string<X>(alloc: Global, access: &str) -> Result<X, RelocationError>
    ensures { Tells result (Err (errors.InvalidAccessString access.now)) }
{
    let access_str = Text::from_str(alloc, access)?;
    Err(RelocationError::InvalidAccessString { access_str })
}

/// `MaximumNestingLevelReached` in the type with a name.
pub fn too_nested<X>(alloc: Global, type_name: &str) -> Result<X, RelocationError>
    ensures { Tells result (Err (errors.MaximumNestingLevelReached type_name.now)) }
{
    let type_name = Text::from_str(alloc, type_name)?;
    Err(RelocationError::MaximumNestingLevelReached { type_name })
}

/// `InvalidAccessIndex`: accessor `index` of an access string is past the `len` things, as `members`, at a place.
pub fn invalid_access_index<X>(
    alloc: Global,
    access: &str,
    place: Text,
    index: usize,
    len: usize,
    things: &str,
) -> Result<X, RelocationError>
    ensures { Tells result (Err (errors.InvalidAccessIndex [] access.now index len [])) }
{
    let spec = Text::from_str(alloc, access)?;
    let error = format!(in alloc; "{things} count from 0")?;
    Err(RelocationError::InvalidAccessIndex {
        access_path: place,
        spec,
        index,
        len,
        error: Text::from_string(error),
    })
}

/// `InvalidRelocationKindForType`: what a relocation asks can't be asked of what stands at a place, as `an integer`.
pub fn invalid_kind<X>(
    alloc: Global,
    number: usize,
    kind: RelocationKind,
    place: Text,
    thing: &str,
) -> Result<X, RelocationError>
    ensures { Tells result (Err (errors.InvalidRelocationKindForType number [] [] [])) }
{
    let relocation_kind = Text::from_str(alloc, relocation_words(kind))?;
    let type_kind = Text::from_str(alloc, thing)?;
    Err(RelocationError::InvalidRelocationKindForType {
        relocation_number: number,
        relocation_kind,
        type_kind,
        error: place,
    })
}

/// A relocation, as its errors name it.
#[derive(Clone, Copy)]
pub struct Request<'a> {
    /// The place among the relocations of its section.
    pub number: usize,
    pub kind: RelocationKind,
    /// The access string.
    pub access: &'a str,
    /// The name of the local type.
    pub type_name: &'a str,
}

/// The words for the question of the relocations of a kind.
pub fn relocation_words(kind: RelocationKind) -> &'static str {
    match kind {
        RelocationKind::FieldByteOffset => "the byte offset of a field",
        RelocationKind::FieldByteSize => "the byte size of a field",
        RelocationKind::FieldExists => "the existence of a field",
        RelocationKind::FieldSigned => "the sign of a field",
        RelocationKind::FieldLShift64 => "the left shift of a field",
        RelocationKind::FieldRShift64 => "the right shift of a field",
        RelocationKind::TypeIdLocal => "the local id of a type",
        RelocationKind::TypeIdTarget => "the id of a type",
        RelocationKind::TypeExists => "the existence of a type",
        RelocationKind::TypeSize => "the size of a type",
        RelocationKind::EnumVariantExists => "the existence of a variant",
        RelocationKind::EnumVariantValue => "the value of a variant",
        RelocationKind::TypeMatches => "the match of a type",
    }
}

/// The words for a kind of type.
pub fn kind_words(kind: BtfKind) -> &'static str {
    match kind {
        BtfKind::Unknown => "void",
        BtfKind::Int => "an integer",
        BtfKind::Ptr => "a pointer",
        BtfKind::Array => "an array",
        BtfKind::Struct => "a struct",
        BtfKind::Union => "a union",
        BtfKind::Enum | BtfKind::Enum64 => "an enumeration",
        BtfKind::Fwd => "a type that is only declared",
        BtfKind::Typedef => "a typedef",
        BtfKind::Volatile => "a volatile type",
        BtfKind::Const => "a const type",
        BtfKind::Restrict => "a restrict type",
        BtfKind::Func => "a function",
        BtfKind::FuncProto => "a function's type",
        BtfKind::Var => "a variable",
        BtfKind::DataSec => "a section",
        BtfKind::Float => "a floating point number",
        BtfKind::DeclTag | BtfKind::TypeTag => "a tag",
    }
}

/// Adds a step to the words of a path.
fn push_step(alloc: Global, words: &mut String, step: &Step) -> Result<(), AllocError> {
    match step {
        Step::Name { name, .. } => {
            words.push_str(".")?;
            words.push_str(name.as_str())
        }
        Step::Index { index } => {
            let part = format!(in alloc; "[{index}]")?;
            words.push_str(part.as_str())
        }
    }
}

/// A type's name and steps in it, as `task_struct[0].comm[3]`.
pub fn path_words(alloc: Global, type_name: &str, steps: &[Step]) -> Result<Text, AllocError> {
    let mut words = String::from_str(alloc, type_name)?;
    for step in steps {
        push_step(alloc, &mut words, step)?;
    }
    Ok(Text::from_string(words))
}

/// Names with commas between them.
#[derive(Clone, Copy)]
pub struct Names<'a>(pub &'a [Text]);

impl fmt::Display for Names<'_> {
    fn fmt<W: fmt::Write>(&self, f: &mut fmt::Formatter<W>) -> fmt::Result {
        let mut comma = "";
        for name in self.0 {
            write!(f, "{comma}{:?}", name.as_str())?;
            comma = ", ";
        }
        Ok(())
    }
}
