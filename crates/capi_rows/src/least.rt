//! Refusals of least types.

ghost use Rattle.std.specs.Prelude.{◌≡◌, ◌<◌};
ghost use Rattle.capi_rows.specs.LeastTypes.{id_use_refusal, least_types_refusal};

use crate::codes::MEMORY;
use crate::refusal::{Details, Refusal};
use ebpf_least_types::{KernelIdUse, LeastTypesError};

/// The refusal for something that needs an id of the kernel's own types, about the extern or the program.
fn id_use_refusal(needed: KernelIdUse) -> Refusal
    ensures refusal { result ≡ id_use_refusal needed }
    ensures refuses { 0 < result.number }
{
    match needed {
        KernelIdUse::Record { number, .. } => Refusal::with_details(
            1000,
            Details::none().of_relocation(number),
        ),
        KernelIdUse::Extern { name } => Refusal::with_name(1001, name),
        KernelIdUse::Target { program, .. } => Refusal::with_name(1002, program),
    }
}

/// The refusal for an error of least types of one object.
pub fn least_types_refusal(error: LeastTypesError) -> Refusal
    ensures refusal { result ≡ least_types_refusal error }
    ensures refuses { 0 < result.number }
{
    match error {
        LeastTypesError::NeedsKernelId { needed, .. } => id_use_refusal(needed),
        LeastTypesError::OutOfMemory => Refusal::plain(MEMORY),
    }
}
