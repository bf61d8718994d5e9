//! Values of global variables, written into the data of the maps that hold them.

ghost use Rattle.std.specs.Prelude.{◌≡◌, map};
ghost use Rattle.ebpf_parts.specs.Maps.{bytes_of, with_bytes};
ghost use Rattle.ebpf_object.specs.Patches.{overwritten, with_patch, all_patched};
ghost use Rattle.ebpf_object.specs.PrivateContracts.{value_of};

use ebpf_base::{ByName, Text};
use ebpf_parts::maps::Map;

/// Bytes for the data of a map from an offset on.
#[derive(Drop)]
pub struct Patch<'a> {
    pub map_name: Text,
    pub offset: usize,
    pub bytes: &'a [u8],
}

/// Writes bytes into data from an offset on. It stays where they pass its end.
fn overwrite(target: &mut Vec<u8>, offset: usize, bytes: &[u8])
    ensures { target.new.items ≡ overwritten target.old.items offset bytes.now }
{
    let Some(end) = offset.checked_add(bytes.len()) else {
        return;
    };
    if end > target.len() {
        return;
    }
    target.as_mut_slice()[offset..end].copy_from_slice(bytes);
}

/// Writes bytes into the data of a map from an offset on.
fn overwrite_map(target: &mut Map, offset: usize, bytes: &[u8])
    ensures { target.new
        ≡ with_bytes target.old (overwritten (bytes_of target.old) offset bytes.now) }
{
    overwrite(target.data_mut(), offset, bytes);
}

/// Writes a patch.
fn write_patch(maps: &mut ByName<Map>, patch: &Patch<'_>)
    ensures { maps.new ≡ with_patch maps.old (value_of patch.now) }
{
    let Some(target) = maps.get_mut(patch.map_name.as_str()) else {
        return;
    };
    overwrite_map(target, patch.offset, patch.bytes);
}

/// Writes patches, later ones over earlier ones. No memory is taken.
pub fn write_patches(maps: &mut ByName<Map>, patches: &[Patch<'_>])
    ensures { maps.new ≡ all_patched maps.old (map value_of patches.now) }
{
    for patch in patches {
        write_patch(maps, patch);
    }
}
