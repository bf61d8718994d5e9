//! The refusals of maps of struct_ops, by their numbers.

ghost use Rattle.std.specs.Prelude.{◌≡◌};
ghost use Rattle.capi_struct_ops.specs.StructOps.{member_fault, relocation_fault, struct_ops_refusal, variable_fault};

use capi_rows::codes::MEMORY;
use capi_rows::faults::file_fault;
use capi_rows::refusal::{Details, Refusal};
use ebpf_struct_ops::{MemberFault, RelocationFault, StructOpsError, VariableFault};

/// The place of a fault of a variable among those.
fn variable_fault(fault: VariableFault) -> u32
    ensures { result ≡ variable_fault fault }
{
    match fault {
        VariableFault::NotAVariable => 0,
        VariableFault::NotAStruct => 1,
        VariableFault::Anonymous => 2,
        VariableFault::NoSymbol => 3,
        VariableFault::OutsideSection => 4,
    }
}

/// The place of a fault of a relocation among those.
fn relocation_fault(fault: RelocationFault) -> u32
    ensures { result ≡ relocation_fault fault }
{
    match fault {
        RelocationFault::UnknownSymbol => 0,
        RelocationFault::OutsideVariables => 1,
        RelocationFault::NoMember => 2,
        RelocationFault::NotAFunctionPointer => 3,
        RelocationFault::UnknownProgram => 4,
        RelocationFault::NotStructOps => 5,
    }
}

/// The place of a fault of a member among those.
fn member_fault(fault: MemberFault) -> u32
    ensures { result ≡ member_fault fault }
{
    match fault {
        MemberFault::UnknownSize => 0,
        MemberFault::BitField => 1,
        MemberFault::OutsideStruct => 2,
        MemberFault::Missing => 3,
        MemberFault::DifferentKinds => 4,
        MemberFault::NotAProgram => 5,
        MemberFault::NotAFunctionPointer => 6,
        MemberFault::DifferentSizes => 7,
        MemberFault::OutsideValue => 8,
    }
}

/// The refusal for an error of maps of struct_ops, about what the error names.
pub fn struct_ops_refusal(error: StructOpsError) -> Refusal
    ensures { result ≡ struct_ops_refusal error }
{
    let none = Details::none();
    match error {
        StructOpsError::ElfError(error) => Refusal::plain(1200 + file_fault(error)),
        StructOpsError::NoTypes => Refusal::plain(1220),
        StructOpsError::NoDatasec { section } => Refusal::with_details(
            1221,
            none.at_section(section),
        ),
        StructOpsError::NoKernelStruct { name, .. } => Refusal::with_name(1222, name),
        StructOpsError::NoDataMember { map } => Refusal::with_name(1223, map),
        StructOpsError::OtherUse { program, .. } => Refusal::with_name(1224, program),
        StructOpsError::Variable { name, fault } => Refusal::with_name(
            1240 + variable_fault(fault),
            name,
        ),
        StructOpsError::Relocation { place, fault } => Refusal::with_details(
            1260 + relocation_fault(fault),
            none.at_offset(place),
        ),
        StructOpsError::Member { member, fault, .. } => Refusal::with_name(
            1280 + member_fault(fault),
            member,
        ),
        StructOpsError::OutOfMemory => Refusal::plain(MEMORY),
    }
}
