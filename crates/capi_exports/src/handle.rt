//! What C holds of an object.

ghost use Rattle.std.specs.Prelude.{◌≡◌, Option, Some, None, option_map};
ghost use Rattle.std.specs.Coded.{coded_option};
ghost use Rattle.capi_exports.specs.contracts.held.Held.{the_row as held_row};
ghost use Rattle.capi_exports.specs.declared.held.Held.{Held};
ghost use Rattle.capi_exports.specs.Handles.{handle_owns};

use crate::held::Held;
use crate::names::Loose;
use std::alloc::Global;
use std::marker::Model;
use std::{mem, ptr};

/// An object that C holds, or none.
#[repr(C)]
pub struct ebpf_handle {
    at: *mut u8,
    pub ghost held: { Option Held } by { coded_option held_row.coded },
}

impl Model for ebpf_handle {
    ghost also_owns = { λ h. handle_owns h.at h.held };
}

impl ebpf_handle {
    /// A handle that holds none.
    pub fn without_object() -> ebpf_handle
        ensures { result.held ≡ None }
    {
        ebpf_handle {
            at: ptr::null_mut(),
        }
    }

    /// A handle that holds what the pointer owns.
    fn over(held: Loose<Held, Global>) -> ebpf_handle
        ensures { result.held ≡ Some held.value }
    {
        let Loose { at, alloc: _ } = held;
        ebpf_handle { at: at as *mut u8 }
    }

    /// What the handle holds, as its pointer.
    fn into_pointer(self, alloc: Global) -> Option<Loose<Held, Global>>
        ensures { option_map (λ l. l.value) result ≡ self.held }
    {
        let ebpf_handle { at } = self;
        if at.is_null() {
            return None;
        }
        Some(Loose {
            at: at as *mut Held,
            alloc,
        })
    }

    /// A handle that holds what is in the box.
    pub fn of(held: Box<Held>) -> ebpf_handle
        ensures { result.held ≡ Some held.value }
    {
        ebpf_handle::over(Loose::of(held))
    }

    /// The box with what the handle holds.
    pub fn into_box(self, alloc: Global) -> Option<Box<Held>>
        ensures { option_map (λ b. b.value) result ≡ self.held }
    {
        match self.into_pointer(alloc) {
            Some(held) => Some(held.into_box()),
            None => None,
        }
    }

    /// Takes out what the handle holds, which is then closed.
    pub fn take(&mut self, alloc: Global) -> Option<Box<Held>>
        ensures held { option_map (λ b. b.value) result ≡ self.old.held }
        ensures closed { self.new.held ≡ None }
    {
        mem::replace(self, ebpf_handle::without_object()).into_box(alloc)
    }

    /// Puts an object in the place of what the handle holds, which is freed.
    pub fn put(&mut self, alloc: Global, held: Box<Held>)
        ensures { self.new.held ≡ Some held.value }
    {
        let _before = mem::replace(self, ebpf_handle::of(held)).into_box(alloc);
    }
}
