//! An iterator over the types of a `Btf`.

ghost use Rattle.std.specs.Prelude.{◌≡◌, drop};
ghost use Rattle.std.specs.Iterator.{YieldsFirst, item_count};

use crate::btf::Btf;
use crate::types::BtfType;
use std::marker::Model;

/// An iterator over the types of a `Btf`, in order of their ids. Contracts see the list of the types left.
#[derive(Drop)]
pub struct TypesIter<'a> {
    btf: &'a Btf,
    next: usize,
}

impl<'a> Model for TypesIter<'a> {
    ghost use Rattle.std.specs.Prelude.{List, drop};
    ghost use Rattle.ebpf_btf.specs.declared.types.BtfType.{BtfType};

    ghost Value = { List BtfType };

    ghost view = { λ s. drop s.next s.btf.now.types };
}

impl<'a> TypesIter<'a> {
    /// Returns an iterator over all types.
    pub(crate) fn new(btf: &'a Btf) -> TypesIter<'a>
        ensures { result ≡ btf.now.types }
    {
        TypesIter { btf, next: 0 }
    }
}

impl<'a> Iterator for TypesIter<'a> {
    type Item = BtfType<'a>;

    ghost next_gives = { YieldsFirst (λ s. s) };

    ghost remaining = { item_count (λ s. s) };

    #[inline]
    #[tactic(auto, using(crate::proofs::InOrder::drop_some, crate::proofs::InOrder::drop_none))]
    fn next(&mut self) -> Option<BtfType<'a>> {
        if self.next >= self.btf.len() {
            return None;
        }
        let ty = self.btf.get(self.next)?;
        self.next += 1;
        Some(ty)
    }
}
