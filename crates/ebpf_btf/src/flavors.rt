//! Names without their flavor.

ghost use Rattle.std.specs.Prelude.{◌≡◌, ◌≤◌, length, drop, nat_eq, is_some, IfSome};
ghost use Rattle.std.specs.List.{starts_with};
ghost use Rattle.ebpf_btf.specs.EssentialNames.{essential_name, flavor_mark, flavor_start};

/// Returns whether three underscores begin at an index.
fn is_flavor_at(name: &[u8], index: usize) -> bool
    requires { index ≤ length name.now }
    ensures { result ≡ starts_with nat_eq (drop index name.now) flavor_mark }
{
    name[index..].starts_with(b"___")
}

/// Returns the index of the first three underscores in a row. Where the last of three bytes is no underscore, none begin at
/// any of the three, so that two of three bytes need no look.
fn flavor_start(name: &[u8]) -> Option<usize>
    ensures first { result ≡ flavor_start name.now }
    ensures inside { IfSome result (λ index. index ≤ length name.now) }
{
    let mut index = 0;
    while name.len() - index > 2 {
        if name[index + 2] != b'_' {
            index += 3;
            continue;
        }
        if is_flavor_at(name, index) {
            return Some(index);
        }
        index += 1;
    }
    None
}

/// Returns whether a name has three underscores in a row.
pub fn has_flavor(name: &[u8]) -> bool
    ensures { result ≡ is_some (flavor_start name.now) }
{
    flavor_start(name).is_some()
}

/// Returns the part of a name before its first three underscores in a row; the whole name without them (the kernel's
/// tools/lib/bpf/relo_core.h, `bpf_core_essential_name_len`).
#[tactic(auto, unfolding(crate::specs::EssentialNames::essential_name))]
pub fn essential_name(name: &[u8]) -> &[u8]
    ensures { result.now ≡ essential_name name.now }
{
    match flavor_start(name) {
        Some(index) => &name[..index],
        None => name,
    }
}
