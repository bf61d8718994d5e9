//! The sizes of what an object owns, in bytes (`specs/OwnedBytes.antt`, which has the reason of each).

/// An object without entries.
pub const OBJECT: u128 = 10992;

/// An extern, without its name.
pub const EXTERN: u128 = 160;

/// A map, without its name and its data.
pub const MAP: u128 = 400;

/// A program, without its name and its license.
pub const PROGRAM: u128 = 192;

/// A function, without its name, its slots and its info entries.
pub const FUNCTION: u128 = 400;

/// A symbol, without its name.
pub const SYMBOL: u128 = 208;

/// The relocations of a section, without its entries.
pub const RELOCATIONS: u128 = 704;

/// A relocation.
pub const RELOCATION: u128 = 88;

/// The index of a section, without its name.
pub const SECTION: u128 = 88;

/// A byte of the types in `.BTF`.
pub const TYPE_BYTE: u128 = 3;

/// A byte of the strings in `.BTF`.
pub const STRING_BYTE: u128 = 6;

/// The types that externs add.
pub const EXTERN_TYPES: u128 = 256;

/// A byte of a part of `.BTF.ext`.
pub const EXT_BYTE: u128 = 10;

/// A func info entry of a function.
pub const FUNC: u128 = 8;

/// A line info entry of a function.
pub const LINE: u128 = 16;
