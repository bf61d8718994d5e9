//! Functions with contracts of their own, which cite the library's definitions.

ghost use Rattle.std.specs.Option.{option_copied};
ghost use Rattle.std.specs.Prelude.{◌≡◌, ◌≤◌, ◌^◌, IfOk, option_map, true};
ghost use Rattle.ebpf_limits.specs.OwnedBytes.{owned_bytes};
ghost use Rattle.ebpf_object.specs.Headline.{Headline, ProgramsAreWhole};
ghost use Rattle.ebpf_object.specs.LinkedPrograms.{function_of_named_program, linkable_of};
ghost use Rattle.ebpf_object.specs.Names.{has_function_in};
ghost use Rattle.ebpf_object.specs.Objects.{object_as};
ghost use Rattle.ebpf_object.specs.Stages.{chosen};
ghost use Rattle.ebpf_parts.specs.declared.parse_mode.ParseMode.TheVariants.{Lenient, Strict};

use ebpf_limits::{Limits, parse_within};
use ebpf_object::Object;
use ebpf_object::insn::bpf_insn;
use ebpf_object::obj::{ParseError, ParseMode};
use ebpf_object::prepare::{PrepareError, Steps, SymbolSource, prepare};
use std::alloc::Global;

/// Returns the slots of the program with this name.
pub fn program_slots<'a>(object: &'a Object, name: &str) -> Option<&'a [bpf_insn]>
    ensures { option_copied result
        ≡ option_map (λ f. f.instructions) (function_of_named_program object.now name.now) }
{
    let function = object.program_function(name)?;
    Some(function.instructions.as_slice())
}

/// Returns the object of a file, which owns at most 64 MiB.
pub fn small_object(alloc: Global, file: &[u8]) -> Result<Object, ParseError>
    ensures object { IfOk result (λ o. o ≡ object_as Lenient file.now) }
    ensures owned { IfOk result (λ o. owned_bytes o ≤ 2 ^ 26) }
{
    let most_bytes = 64 << 20;
    parse_within(alloc, file, ParseMode::Lenient, Limits { most_bytes })
}

/// Returns the object of a file, prepared and with whole programs.
pub fn linked_object<K: SymbolSource>(
    alloc: Global,
    file: &[u8],
    steps: &Steps<'_>,
    symbols: K,
) -> Result<Object, PrepareError>
    requires { steps.now.calls ≡ true }
    ensures { IfOk result (λ o.
        (h : Headline (chosen steps.now) (K.source symbols) Strict file.now o)
        × ProgramsAreWhole (linkable_of h.finished.chain.unlinked
        (has_function_in h.prepared.stages.unlinked.functions)) o) }
{
    let object = prepare(alloc, file, steps, symbols)?;
    Ok(object)
}
