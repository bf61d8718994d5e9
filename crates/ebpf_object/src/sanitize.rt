//! Helper functions that older kernels lack, by the names and numbers of the kernel's `enum bpf_func_id`.

ghost use Rattle.std.specs.Prelude.{◌≡◌, map, option_map, false};
ghost use Rattle.std.specs.FinMap as finite;
ghost use Rattle.std.specs.List.{list_any};
ghost use Rattle.ebpf_object.specs.OlderHelpers.{older_helper, calls_newer, older, sanitized, have_newer, AreSanitized};
ghost use Rattle.ebpf_model.specs.Symbols.{FunctionKey};

use crate::object::Object;
use ebpf_base::ByKey;
use ebpf_model::Function;
use ebpf_parts::insn::bpf_insn;

/// The helper function that reads memory.
const BPF_FUNC_probe_read: i32 = 4;
/// The helper function that reads a string.
const BPF_FUNC_probe_read_str: i32 = 45;
/// The helper function that reads memory of a process.
const BPF_FUNC_probe_read_user: i32 = 112;
/// The helper function that reads the kernel's memory.
const BPF_FUNC_probe_read_kernel: i32 = 113;
/// The helper function that reads a string of a process.
const BPF_FUNC_probe_read_user_str: i32 = 114;
/// The helper function that reads a string of the kernel's.
const BPF_FUNC_probe_read_kernel_str: i32 = 115;

/// The helper function that every kernel has, in the place of one by its number.
fn older_helper(helper: i32) -> i32
    ensures { result ≡ older_helper helper }
{
    match helper {
        BPF_FUNC_probe_read_user | BPF_FUNC_probe_read_kernel => BPF_FUNC_probe_read,
        BPF_FUNC_probe_read_user_str | BPF_FUNC_probe_read_kernel_str => BPF_FUNC_probe_read_str,
        _ => helper,
    }
}

/// Whether the slot calls a helper function that older kernels lack.
fn calls_newer(slot: &bpf_insn) -> bool
    ensures { result ≡ calls_newer slot.now }
{
    slot.is_helper_call()
        && (slot.imm == BPF_FUNC_probe_read_user
            || slot.imm == BPF_FUNC_probe_read_kernel
            || slot.imm == BPF_FUNC_probe_read_user_str
            || slot.imm == BPF_FUNC_probe_read_kernel_str)
}

/// The slot with a helper function that every kernel has.
fn older(slot: bpf_insn) -> bpf_insn
    ensures { result ≡ older slot }
{
    if !calls_newer(&slot) {
        return slot;
    }
    bpf_insn {
        imm: older_helper(slot.imm),
        ..slot
    }
}

/// Writes the helper functions that every kernel has.
fn write_older(slots: &mut [bpf_insn])
    ensures { slots.new ≡ map older slots.old }
{
    for slot in slots.iter_mut() {
        *slot = older(*slot);
    }
}

/// Writes the helper functions that every kernel has into a function's slots.
fn write_function(function: &mut Function)
    ensures { function.new ≡ sanitized false function.old }
{
    write_older(function.instructions.as_vec_mut().as_mut_slice());
}

/// Writes the helper functions that every kernel has into each function, without memory.
#[tactic(auto, using(crate::proofs::Sanitizing::older_functions))]
fn write_each(functions: &mut ByKey<Function>)
    ensures { (key : FunctionKey)
        → finite.get functions.new key
        ≡ option_map (sanitized false) (finite.get functions.old key) }
{
    functions.write_values(|function| write_function(function));
}

/// Whether the function calls a helper function that older kernels lack.
fn has_newer_calls(function: &Function) -> bool
    ensures { result ≡ list_any calls_newer function.now.instructions }
{
    function.instructions.iter().any(calls_newer)
}

/// Whether some function calls a helper function that older kernels lack.
fn have_newer(functions: &ByKey<Function>) -> bool
    ensures { result ≡ have_newer functions.now }
{
    for (_, function) in functions.iter() {
        if has_newer_calls(function) {
            return true;
        }
    }
    false
}

impl Object {
    /// Replaces helper functions that an older kernel lacks.
    ///
    /// The helpers are 112 to 115: `probe_read_user`, `probe_read_kernel`, and the same for strings. Where a function
    /// calls one of them, the closure is called once. It returns whether the kernel has these helpers. Where the kernel
    /// lacks them, in all functions 4 (`probe_read`) replaces 112 and 113, and 45 (`probe_read_str`) replaces 114 and
    /// 115.
    ///
    /// Without such a call the closure is not called. No memory is allocated.
    #[tactic(auto, using(crate::proofs::Sanitizing::stay))]
    pub fn sanitize_functions<F: FnOnce() -> bool + Drop>(&mut self, has_newer: F)
        requires { F.pre has_newer }
        ensures functions { AreSanitized (F.post has_newer) self.old.functions self.new.functions }
        ensures others_stay { self.new ≡ record self.old { functions = self.new.functions } }
    {
        if !have_newer(&self.functions) {
            return;
        }
        if has_newer() {
            return;
        }
        write_each(&mut self.functions);
    }
}
