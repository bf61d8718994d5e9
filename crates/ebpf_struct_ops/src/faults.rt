//! Why a variable, a relocation or a member of struct_ops can't be used.

use thiserror::Error;

/// The reason why a member of an object's struct has no place in the kernel's struct.
#[derive(Clone, Copy, Debug, PartialEq, Eq, Error)]
pub enum MemberFault {
    /// The member's type has no size.
    #[error("its type has no size")]
    UnknownSize,
    /// The member is a bit field, in the object or in the kernel.
    #[error("it is a bit field")]
    BitField,
    /// The member's bytes pass the end of the object's struct.
    #[error("it passes the end of the struct")]
    OutsideStruct,
    /// The kernel's struct has no member of the name, and the member isn't zero.
    #[error("the kernel's struct lacks it, and it is not zero")]
    Missing,
    /// The kernel's member is of another kind.
    #[error("it is of another kind in the kernel")]
    DifferentKinds,
    /// The member is a pointer that isn't zero and has no program.
    #[error("it is a pointer to no program")]
    NotAProgram,
    /// The member has a program, and the kernel's member is no pointer to a function.
    #[error("it is no pointer to a function in the kernel")]
    NotAFunctionPointer,
    /// The kernel's member is of another size.
    #[error("it is of another size in the kernel")]
    DifferentSizes,
    /// The kernel's member passes the end of the map's value.
    #[error("it passes the end of the map's value")]
    OutsideValue,
}

/// The reason why an entry of a section of struct_ops declares no map.
#[derive(Clone, Copy, Debug, PartialEq, Eq, Error)]
pub enum VariableFault {
    /// The entry names no VAR.
    #[error("it is no variable")]
    NotAVariable,
    /// The type of the variable is no STRUCT.
    #[error("its type is no struct")]
    NotAStruct,
    /// The STRUCT has no name.
    #[error("its struct has no name")]
    Anonymous,
    /// No symbol of the section has the name of the variable.
    #[error("the section has no symbol of its name")]
    NoSymbol,
    /// The variable passes the end of the section.
    #[error("it passes the end of the section")]
    OutsideSection,
}

/// The reason why a relocation of a section of struct_ops puts no program at a member.
#[derive(Clone, Copy, Debug, PartialEq, Eq, Error)]
pub enum RelocationFault {
    /// The object has no symbol of the index that the relocation names.
    #[error("the object lacks its symbol")]
    UnknownSymbol,
    /// No variable of the section holds the relocation's offset.
    #[error("it is in no variable")]
    OutsideVariables,
    /// No member begins at the relocation's offset.
    #[error("no member begins there")]
    NoMember,
    /// The member is no pointer to a function.
    #[error("the member is no pointer to a function")]
    NotAFunctionPointer,
    /// The symbol is not at the start of a program of its name.
    #[error("its symbol names no program")]
    UnknownProgram,
    /// The program is in no section `struct_ops` or `struct_ops.s`.
    #[error("its program is not of struct_ops")]
    NotStructOps,
}
