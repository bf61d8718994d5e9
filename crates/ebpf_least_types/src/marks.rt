//! The types of a kernel that are kept, and the rows of them.

use ebpf_btf::{Btf, BtfKind, BtfType};
use std::alloc::{AllocError, Global};

/// The maximum number of types that a type leads to through its modifiers and elements.
const INNER_TYPES: u32 = 1_122;

/// The types that are kept, and the rows of them: members, variants and parameters.
#[derive(Drop)]
pub struct Marks {
    /// The ids of the types.
    types: Vec<u32>,
    /// The id of a type and the index of a row of it.
    rows: Vec<(u32, u32)>,
}

/// Returns the id of the type that a type stands for or is made of; none for other types.
fn inner_type(ty: &BtfType<'_>) -> Option<u32> {
    match ty {
        BtfType::Array { element_type, .. } => Some(*element_type),
        BtfType::Typedef { btf_type, .. }
        | BtfType::Volatile { btf_type, .. }
        | BtfType::Const { btf_type, .. }
        | BtfType::Restrict { btf_type, .. }
        | BtfType::TypeTag { btf_type, .. }
        | BtfType::DeclTag { btf_type, .. }
        | BtfType::Var { btf_type, .. }
        | BtfType::Func { btf_type, .. } => Some(*btf_type),
        _ => None,
    }
}

/// Returns the id of the type of an ARRAY's indices, where it is an INT.
fn index_type(kernel: &Btf, ty: &BtfType<'_>) -> Option<u32> {
    let array = ty.array()?;
    let head = kernel.head(array.index_type as usize)?;
    if head.kind != BtfKind::Int {
        return None;
    }
    Some(array.index_type)
}

impl Marks {
    /// Returns marks that keep `void` alone.
    ///
    /// # Errors
    ///
    /// - `AllocError`: out of memory.
    pub fn new(alloc: Global) -> Result<Marks, AllocError> {
        let mut types = Vec::new(alloc);
        types.push(0)?;
        Ok(Marks {
            types,
            rows: Vec::new(alloc),
        })
    }

    /// Keeps a type and the types that it stands for or is made of: the modified type, the elements of an ARRAY. A STRUCT,
    /// UNION, enumeration or FUNC_PROTO is kept without rows, and of a PTR the target is not kept.
    ///
    /// # Errors
    ///
    /// - `AllocError`: out of memory.
    pub fn keep_type(&mut self, kernel: &Btf, type_id: u32) -> Result<(), AllocError> {
        let mut reached = type_id;
        for _type in 0..INNER_TYPES {
            if reached == 0 {
                return Ok(());
            }
            let Some(ty) = kernel.get(reached as usize) else {
                return Ok(());
            };
            self.types.push(reached)?;
            if let Some(index) = index_type(kernel, &ty) {
                self.types.push(index)?;
            }
            let Some(inner) = inner_type(&ty) else {
                return Ok(());
            };
            reached = inner;
        }
        Ok(())
    }

    /// Keeps a row of a type.
    ///
    /// # Errors
    ///
    /// - `AllocError`: out of memory.
    pub fn keep_row(&mut self, type_id: u32, row: usize) -> Result<(), AllocError> {
        let Ok(row) = u32::try_from(row) else {
            return Ok(());
        };
        self.rows.push((type_id, row))?;
        Ok(())
    }

    /// Keeps all rows of a type that is kept, their types, and the type that a PTR leads to.
    fn widen_type(
        &mut self,
        kernel: &Btf,
        type_id: u32,
        ty: &BtfType<'_>,
    ) -> Result<(), AllocError> {
        for row in 0..ty.variant_count().unwrap_or(0) {
            self.keep_row(type_id, row)?;
        }
        if let BtfType::Ptr { btf_type, .. } = ty {
            self.keep_type(kernel, *btf_type)?;
        }
        let Some(members) = ty.members() else {
            return self.widen_params(kernel, type_id, ty);
        };
        for row in 0..members.len() {
            self.keep_row(type_id, row)?;
            self.keep_type(kernel, members.at(row).btf_type)?;
        }
        Ok(())
    }

    /// Keeps the parameters and the result of a FUNC_PROTO that is kept, and their types.
    fn widen_params(
        &mut self,
        kernel: &Btf,
        type_id: u32,
        ty: &BtfType<'_>,
    ) -> Result<(), AllocError> {
        let BtfType::FuncProto {
            btf_type,
            params,
            ..
        } = ty
        else {
            return Ok(());
        };
        self.keep_type(kernel, *btf_type)?;
        for row in 0..params.len() {
            self.keep_row(type_id, row)?;
            self.keep_type(kernel, params.at(row).btf_type)?;
        }
        Ok(())
    }

    /// Keeps all rows of the types that are kept, their types, and the types that PTRs lead to. The marks are in order
    /// afterwards.
    ///
    /// # Errors
    ///
    /// - `AllocError`: out of memory.
    pub fn widen(&mut self, kernel: &Btf) -> Result<(), AllocError> {
        for index in 0..self.types.len() {
            let Some(type_id) = self.types.get(index).copied() else {
                return Ok(());
            };
            let Some(ty) = kernel.get(type_id as usize) else {
                continue;
            };
            self.widen_type(kernel, type_id, &ty)?;
        }
        self.put_in_order();
        Ok(())
    }

    /// Puts the types and the rows in order, each once.
    pub fn put_in_order(&mut self) {
        self.types.sort_unstable();
        self.types.dedup();
        self.rows.sort_unstable();
        self.rows.dedup();
    }

    /// Returns the ids of the types that are kept, `void` included. They are in order after `put_in_order`.
    pub fn types(&self) -> &[u32] {
        self.types.as_slice()
    }

    /// Returns the rows that are kept: the id of the type, and the index of the row. They are in order after
    /// `put_in_order`.
    pub fn rows(&self) -> &[(u32, u32)] {
        self.rows.as_slice()
    }
}
