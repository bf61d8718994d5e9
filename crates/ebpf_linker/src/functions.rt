//! Functions by numbers, with the references of each.

ghost use Rattle.std.specs.Prelude.{◌≡◌, length};
ghost use Rattle.std.proofs.Props.{props};
ghost use Rattle.ebpf_linker.specs.Numbered.{Sound, Rises-prop, IsWithin-prop};

use crate::body::Body;
use crate::reference::Reference;
use crate::tables::Tables;

/// Functions by numbers, with the references of each.
#[derive(Drop)]
pub struct Functions<'a> {
    /// The functions.
    pub bodies: &'a [Body<'a>],
    /// The references of each function, by slot.
    pub references: &'a [Vec<Reference>],
    /// The tables that one program leaves for the next.
    pub tables: &'a Tables,
    ghost count: { length references.now ≡ length bodies.now },
    ghost sound: { Sound (length bodies.now) references.now } by { Prim.hlevel (props, Rises-prop, IsWithin-prop) },
}

impl<'a> Functions<'a> {
    /// Takes functions and their references, which `is_sound` accepts.
    pub fn new(
        bodies: &'a [Body<'a>],
        references: &'a [Vec<Reference>],
        tables: &'a Tables,
    ) -> Functions<'a>
        requires count { length references.now ≡ length bodies.now }
        requires sound { Sound (length bodies.now) references.now }
        ensures bodies { result.bodies.now ≡ bodies.now }
        ensures references { result.references.now ≡ references.now }
    {
        Functions {
            bodies,
            references,
            tables,
        }
    }
}
