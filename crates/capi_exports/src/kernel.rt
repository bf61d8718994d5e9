//! The types of a kernel that C holds, read once.

ghost use Rattle.std.specs.Coded.{coded_option};
ghost use Rattle.std.specs.Prelude.{◌≡◌, Option, Some, None, option_map};
ghost use Rattle.capi_exports.specs.KernelHandles.{kernel_owns};
ghost use Rattle.capi_exports.specs.contracts.kernel_types.Kernel.{the_row as kernel_row};
ghost use Rattle.capi_exports.specs.declared.kernel_types.Kernel.{Kernel};

use crate::kernel_types::Kernel;
use crate::names::Loose;
use std::alloc::Global;
use std::marker::Model;
use std::{mem, ptr};

/// The types of a kernel that C holds, or none.
#[repr(C)]
pub struct ebpf_types {
    at: *mut u8,
    pub ghost held: { Option Kernel } by { coded_option kernel_row.coded },
}

impl Model for ebpf_types {
    ghost also_owns = { λ k. kernel_owns k.at k.held };
}

impl ebpf_types {
    /// A handle that holds none.
    pub fn without_types() -> ebpf_types
        ensures { result.held ≡ None }
    {
        ebpf_types {
            at: ptr::null_mut(),
        }
    }

    /// A handle that holds what the pointer owns.
    fn over(held: Loose<Kernel, Global>) -> ebpf_types
        ensures { result.held ≡ Some held.value }
    {
        let Loose { at, alloc: _ } = held;
        ebpf_types { at: at as *mut u8 }
    }

    /// What the handle holds, as its pointer.
    fn into_pointer(self, alloc: Global) -> Option<Loose<Kernel, Global>>
        ensures { option_map (λ l. l.value) result ≡ self.held }
    {
        let ebpf_types { at } = self;
        if at.is_null() {
            return None;
        }
        Some(Loose {
            at: at as *mut Kernel,
            alloc,
        })
    }

    /// A handle that holds what is in the box.
    pub fn of(held: Box<Kernel>) -> ebpf_types
        ensures { result.held ≡ Some held.value }
    {
        ebpf_types::over(Loose::of(held))
    }

    /// The box with what the handle holds.
    pub fn into_box(self, alloc: Global) -> Option<Box<Kernel>>
        ensures { option_map (λ b. b.value) result ≡ self.held }
    {
        match self.into_pointer(alloc) {
            Some(held) => Some(held.into_box()),
            None => None,
        }
    }

    /// Takes out what the handle holds, which is then closed.
    pub fn take(&mut self, alloc: Global) -> Option<Box<Kernel>>
        ensures held { option_map (λ b. b.value) result ≡ self.old.held }
        ensures closed { self.new.held ≡ None }
    {
        mem::replace(self, ebpf_types::without_types()).into_box(alloc)
    }

    /// Puts types in the place of what the handle holds, which is freed.
    pub fn put(&mut self, alloc: Global, held: Box<Kernel>)
        ensures { self.new.held ≡ Some held.value }
    {
        let _before = mem::replace(self, ebpf_types::of(held)).into_box(alloc);
    }
}
