//! The names of passes and of the variants of their errors.

use crate::variants::{
    variant_of_parsing, variant_of_relocation, variant_of_resolving, variant_of_type_relocation,
};
use ebpf_object::prepare::PrepareError;

/// The name of the pass that refuses an object, as sentences on errors begin with it, and the name of the error's variant.
pub fn pass_and_variant(error: &PrepareError) -> (&'static str, &'static str) {
    match error {
        PrepareError::Parse(error) => ("parse", variant_of_parsing(error)),
        PrepareError::Types(refusal) => ("types", variant_of_type_relocation(&refusal.error)),
        PrepareError::Maps(refusal) => ("maps", variant_of_relocation(&refusal.error)),
        PrepareError::Ksyms(error) => ("ksyms", variant_of_resolving(error)),
        PrepareError::Externs(refusal) => ("externs", variant_of_relocation(&refusal.error)),
        PrepareError::Calls(refusal) => ("calls", variant_of_relocation(&refusal.error)),
        PrepareError::OutOfMemory => ("memory", "OutOfMemory"),
        PrepareError::MissingDescriptor { .. } => ("maps", "MissingDescriptor"),
        PrepareError::UnknownMap { .. } => ("maps", "UnknownMap"),
        PrepareError::UnwrittenExtern { .. } => ("calls", "UnwrittenExtern"),
    }
}
