//! Types of the kernel by their numbers.

ghost use Rattle.std.specs.Prelude.{◌≡◌};
ghost use Rattle.ebpf_parts.specs.Numbers.{at_number};

/// A number that the kernel gives to no type.
#[derive(Clone, Copy, Debug, Default, PartialEq, Eq)]
pub struct InvalidTypeBinding<T> {
    /// The number.
    pub value: T,
}

/// The type of a number, from the types in the order of their numbers.
pub(crate) fn at_number<T: Copy>(types: &[T], number: u32) -> Result<T, InvalidTypeBinding<u32>>
    ensures { result ≡ at_number types.now number }
{
    match types.get(number as usize) {
        Some(found) => Ok(*found),
        None => Err(InvalidTypeBinding { value: number }),
    }
}
