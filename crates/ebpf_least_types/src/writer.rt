//! Writes the types that are kept.

use crate::marks::Marks;
use ebpf_base::Endianness;
use ebpf_btf::{
    Btf, BtfEnum, BtfEnum64, BtfError, BtfMember, BtfParam, BtfType, Rows, UnionFallback,
};
use std::alloc::Global;
use std::collections::BTreeMap;

/// A big-endian `.BTF` without types: its header, and the empty name.
const BIG_ENDIAN: [u8; 25] = [
    0xeb, 0x9f, 1, 0, 0, 0, 0, 24, 0, 0, 0, 0, 0, 0, 0, 0, 0, 0, 0, 0, 0, 0, 0, 1, 0,
];

/// A STRUCT or UNION that is declared, since a PTR leads to it.
#[derive(Clone, Copy, PartialEq, Eq, PartialOrd, Ord)]
struct Declared {
    /// The offset of its name in the kernel's strings.
    name_offset: u32,
    /// Whether it is a UNION.
    is_union: bool,
}

/// Writes the types of a kernel that marks keep, in order of their ids.
#[derive(Drop)]
struct TypeWriter<'a> {
    alloc: Global,
    kernel: &'a Btf,
    /// The ids of the types that are kept. The index of an id is the new id.
    types: &'a [u32],
    /// The rows that are kept: the id of the type, and the index of the row.
    rows: &'a [(u32, u32)],
    /// The declared types, in order. Their new ids follow those of the kept types.
    declared: Vec<Declared>,
    /// The offsets of names in the new strings, by their offsets in the kernel's.
    names: BTreeMap<u32, u32>,
    written: Btf,
}

/// Returns type information without types, in a byte order.
fn no_types(alloc: Global, order: Endianness) -> Result<Btf, BtfError> {
    match order {
        Endianness::Little => Btf::new(alloc),
        Endianness::Big => Btf::parse(alloc, &BIG_ENDIAN, order),
    }
}

/// Returns the declaration of a type with a name that is a STRUCT, a UNION or a FWD; none for other types.
fn declaration(ty: &BtfType<'_>) -> Option<Declared> {
    let is_union = match ty {
        BtfType::Struct { .. } => false,
        BtfType::Union { .. } => true,
        BtfType::Fwd { kind_flag, .. } => *kind_flag,
        _ => return None,
    };
    let name_offset = ty.name_offset();
    if name_offset == 0 {
        return None;
    }
    Some(Declared {
        name_offset,
        is_union,
    })
}

/// Returns an index as an id.
fn as_id(index: usize) -> u32 {
    u32::try_from(index).unwrap_or(0)
}

impl<'a> TypeWriter<'a> {
    /// Returns the declaration of the type that a PTR leads to, where the type is not kept.
    fn declared_by(&self, ty: &BtfType<'_>) -> Option<Declared> {
        let BtfType::Ptr { btf_type, .. } = ty else {
            return None;
        };
        if self.types.binary_search(btf_type).is_ok() {
            return None;
        }
        let target = self.kernel.get(*btf_type as usize)?;
        declaration(&target)
    }

    /// Gathers the declared types.
    fn gather_declared(&mut self) -> Result<(), BtfError> {
        for id in self.types {
            let Some(ty) = self.kernel.get(*id as usize) else {
                continue;
            };
            let Some(declared) = self.declared_by(&ty) else {
                continue;
            };
            self.declared.push(declared)?;
        }
        self.declared.sort_unstable();
        self.declared.dedup();
        Ok(())
    }

    /// Returns the new id of a type; 0 for a type that is not kept.
    fn new_id(&self, type_id: u32) -> u32 {
        match self.types.binary_search(&type_id) {
            Ok(index) => as_id(index),
            Err(_) => 0,
        }
    }

    /// Returns the new id of the type that a PTR leads to.
    fn pointer_target(&self, ty: &BtfType<'_>, type_id: u32) -> u32 {
        let Some(declared) = self.declared_by(ty) else {
            return self.new_id(type_id);
        };
        match self.declared.binary_search(&declared) {
            Ok(index) => as_id(self.types.len().saturating_add(index)),
            Err(_) => 0,
        }
    }

    /// Returns the new offset of a name. The name is added where it is new.
    fn name(&mut self, offset: u32) -> Result<u32, BtfError> {
        if offset == 0 {
            return Ok(0);
        }
        if let Some(known) = self.names.get(&offset) {
            return Ok(*known);
        }
        let text = self.kernel.string_at(offset)?;
        let added = self.written.add_string(text.as_str())?;
        self.names.insert(offset, added)?;
        Ok(added)
    }

    /// Returns the rows of a type that are kept.
    fn rows_of(&self, type_id: u32) -> &'a [(u32, u32)] {
        let rows = self.rows;
        let start = rows.partition_point(|row| row.0 < type_id);
        let end = rows.partition_point(|row| row.0 <= type_id);
        if start > end {
            return &[];
        }
        &rows[start..end]
    }

    /// Returns the members of a type that are kept.
    fn members(
        &mut self,
        type_id: u32,
        members: &Rows<'_, BtfMember>,
    ) -> Result<Vec<BtfMember>, BtfError> {
        let mut kept = Vec::new(self.alloc);
        for (_type, row) in self.rows_of(type_id) {
            let Some(member) = members.get(*row as usize) else {
                continue;
            };
            kept.push(BtfMember {
                name_offset: self.name(member.name_offset)?,
                btf_type: self.new_id(member.btf_type),
                offset: member.offset,
            })?;
        }
        Ok(kept)
    }

    /// Returns the variants of an ENUM that are kept.
    fn variants(
        &mut self,
        type_id: u32,
        variants: &Rows<'_, BtfEnum>,
    ) -> Result<Vec<BtfEnum>, BtfError> {
        let mut kept = Vec::new(self.alloc);
        for (_type, row) in self.rows_of(type_id) {
            let Some(variant) = variants.get(*row as usize) else {
                continue;
            };
            kept.push(BtfEnum {
                name_offset: self.name(variant.name_offset)?,
                value: variant.value,
            })?;
        }
        Ok(kept)
    }

    /// Returns the variants of an ENUM64 that are kept.
    fn wide_variants(
        &mut self,
        type_id: u32,
        variants: &Rows<'_, BtfEnum64>,
    ) -> Result<Vec<BtfEnum64>, BtfError> {
        let mut kept = Vec::new(self.alloc);
        for (_type, row) in self.rows_of(type_id) {
            let Some(variant) = variants.get(*row as usize) else {
                continue;
            };
            kept.push(BtfEnum64 {
                name_offset: self.name(variant.name_offset)?,
                value_low: variant.value_low,
                value_high: variant.value_high,
            })?;
        }
        Ok(kept)
    }

    /// Returns the parameters of a FUNC_PROTO that are kept. They have no names.
    fn params(&self, type_id: u32, params: &Rows<'_, BtfParam>) -> Result<Vec<BtfParam>, BtfError> {
        let mut kept = Vec::new(self.alloc);
        for (_type, row) in self.rows_of(type_id) {
            let Some(param) = params.get(*row as usize) else {
                continue;
            };
            kept.push(BtfParam {
                name_offset: 0,
                btf_type: self.new_id(param.btf_type),
            })?;
        }
        Ok(kept)
    }

    /// Writes a STRUCT.
    fn write_struct(
        &mut self,
        name_offset: u32,
        size: u32,
        kind_flag: bool,
        members: &[BtfMember],
    ) -> Result<u32, BtfError> {
        self.written.add_type(&BtfType::Struct {
            name_offset,
            size,
            kind_flag,
            members: Rows::of(members),
        })
    }

    /// Writes a UNION.
    fn write_union(
        &mut self,
        name_offset: u32,
        size: u32,
        kind_flag: bool,
        members: &[BtfMember],
    ) -> Result<u32, BtfError> {
        self.written.add_type(&BtfType::Union {
            name_offset,
            size,
            kind_flag,
            members: Rows::of(members),
            enum64_fallback: UnionFallback::new(None),
        })
    }

    /// Writes a type with rows.
    fn write_rows(
        &mut self,
        type_id: u32,
        name_offset: u32,
        ty: &BtfType<'_>,
    ) -> Result<u32, BtfError> {
        match ty {
            BtfType::Struct {
                size,
                kind_flag,
                members,
                ..
            } => {
                let kept = self.members(type_id, members)?;
                self.write_struct(name_offset, *size, *kind_flag, kept.as_slice())
            }
            BtfType::Union {
                size,
                kind_flag,
                members,
                ..
            } => {
                let kept = self.members(type_id, members)?;
                self.write_union(name_offset, *size, *kind_flag, kept.as_slice())
            }
            BtfType::Enum {
                size,
                kind_flag,
                variants,
                ..
            } => {
                let kept = self.variants(type_id, variants)?;
                self.written.add_type(&BtfType::Enum {
                    name_offset,
                    size: *size,
                    kind_flag: *kind_flag,
                    variants: Rows::of(kept.as_slice()),
                })
            }
            BtfType::Enum64 {
                size,
                kind_flag,
                variants,
                ..
            } => {
                let kept = self.wide_variants(type_id, variants)?;
                self.written.add_type(&BtfType::Enum64 {
                    name_offset,
                    size: *size,
                    kind_flag: *kind_flag,
                    variants: Rows::of(kept.as_slice()),
                })
            }
            BtfType::FuncProto {
                btf_type,
                params,
                ..
            } => {
                let kept = self.params(type_id, params)?;
                let btf_type = self.new_id(*btf_type);
                self.written.add_type(&BtfType::FuncProto {
                    name_offset,
                    btf_type,
                    params: Rows::of(kept.as_slice()),
                })
            }
            _ => self.write_plain(name_offset, ty),
        }
    }

    /// Returns a type without rows, with its new ids.
    fn plain(&self, name_offset: u32, ty: &BtfType<'_>) -> BtfType<'static> {
        match ty {
            BtfType::Int { size, int_data, .. } => BtfType::Int {
                name_offset,
                size: *size,
                int_data: *int_data,
            },
            BtfType::Ptr { btf_type, .. } => BtfType::Ptr {
                name_offset,
                btf_type: self.pointer_target(ty, *btf_type),
            },
            BtfType::Array {
                element_type,
                index_type,
                len,
                ..
            } => BtfType::Array {
                name_offset,
                element_type: self.new_id(*element_type),
                index_type: self.new_id(*index_type),
                len: *len,
            },
            BtfType::Fwd { kind_flag, .. } => BtfType::Fwd {
                name_offset,
                kind_flag: *kind_flag,
            },
            BtfType::Float { size, .. } => BtfType::Float {
                name_offset,
                size: *size,
            },
            BtfType::DataSec { size, .. } => BtfType::DataSec {
                name_offset,
                size: *size,
                entries: Rows::of(&[]),
            },
            _ => self.modifier(name_offset, ty),
        }
    }

    /// Returns a type that is for another one, with its new id.
    fn modifier(&self, name_offset: u32, ty: &BtfType<'_>) -> BtfType<'static> {
        let btf_type = self.new_id(ty.btf_type().unwrap_or(0));
        match ty {
            BtfType::Typedef { .. } => BtfType::Typedef {
                name_offset,
                btf_type,
            },
            BtfType::Volatile { .. } => BtfType::Volatile {
                name_offset,
                btf_type,
            },
            BtfType::Const { .. } => BtfType::Const {
                name_offset,
                btf_type,
            },
            BtfType::Restrict { .. } => BtfType::Restrict {
                name_offset,
                btf_type,
            },
            BtfType::TypeTag { .. } => BtfType::TypeTag {
                name_offset,
                btf_type,
            },
            BtfType::Func { .. } => BtfType::Func {
                name_offset,
                btf_type,
            },
            BtfType::Var { linkage, .. } => BtfType::Var {
                name_offset,
                btf_type,
                linkage: *linkage,
            },
            BtfType::DeclTag { .. } => BtfType::DeclTag {
                name_offset,
                btf_type,
                component_index: u32::MAX,
            },
            _ => BtfType::Unknown,
        }
    }

    /// Writes a type without rows.
    fn write_plain(&mut self, name_offset: u32, ty: &BtfType<'_>) -> Result<u32, BtfError> {
        let plain = self.plain(name_offset, ty);
        self.written.add_type(&plain)
    }

    /// Writes the types that are kept.
    fn write_kept(&mut self) -> Result<(), BtfError> {
        for id in self.types {
            if *id == 0 {
                continue;
            }
            let Some(ty) = self.kernel.get(*id as usize) else {
                return Err(BtfError::TooLarge);
            };
            if ty.members().is_some() && ty.variant_count().is_some() {
                return Err(BtfError::TooLarge);
            }
            let name_offset = self.name(ty.name_offset())?;
            self.write_rows(*id, name_offset, &ty)?;
        }
        Ok(())
    }

    /// Writes the declared types.
    fn write_declared(&mut self) -> Result<(), BtfError> {
        for index in 0..self.declared.len() {
            let Some(declared) = self.declared.get(index).copied() else {
                return Ok(());
            };
            let name_offset = self.name(declared.name_offset)?;
            self.written.add_type(&BtfType::Fwd {
                name_offset,
                kind_flag: declared.is_union,
            })?;
        }
        Ok(())
    }
}

/// Returns the types of a kernel that marks in order keep, with new ids, in order of the kernel's ids. A STRUCT or UNION that
/// a PTR leads to and that is not kept is declared behind them, if `declares` is set.
///
/// # Errors
///
/// - `TooLarge`: a UNION of the kernel replaces a 64-bit enumeration.
/// - `OutOfMemory`: out of memory.
pub fn written_types(
    alloc: Global,
    order: Endianness,
    kernel: &Btf,
    marks: &Marks,
    declares: bool,
) -> Result<Btf, BtfError> {
    let mut writer = TypeWriter {
        alloc,
        kernel,
        types: marks.types(),
        rows: marks.rows(),
        declared: Vec::new(alloc),
        names: BTreeMap::new(alloc),
        written: no_types(alloc, order)?,
    };
    if declares {
        writer.gather_declared()?;
    }
    writer.write_kept()?;
    writer.write_declared()?;
    Ok(writer.written)
}
