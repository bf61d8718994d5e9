//! The maps of an object, completed as libbpf does it.

ghost use Rattle.std.specs.Prelude.{◌≡◌, OnOk, OnErr};
ghost use Rattle.ebpf_base.specs.Faults.{Refuses};
ghost use Rattle.ebpf_btf_maps.specs.Arenas.{completed_maps, completion_fault};
ghost use Rattle.ebpf_btf_maps.specs.Memory.{is_btf_map_memory};

use crate::arena::{arena_data, put_arena_data};
use crate::error::BtfMapError;
use crate::pinning::check_pinnings;
use ebpf_object::Object;

/// Completes the BTF-defined maps of an object, whose file has these bytes, as libbpf 1.5 does
/// (`bpf_object__init_user_btf_maps`): refuses unknown pinnings and a second arena, and gives the arena its data.
///
/// The arena is the map of type 33. The variables in it are in the section `.addr_space.1`: the last one of that name
/// that is PROGBITS, not executable and not empty. Where there is one, the arena gets:
///
/// - its bytes as data;
/// - its index as section. So `Object::relocate_maps` writes a reference to a variable as source 2, the arena's
///   descriptor, and the variable's offset in the next slot. `Object::variables` lists the variables.
///
/// Everything else stays. The arena owns as many bytes more as the section has. A loader creates the arena, maps its
/// pages into memory at `map_extra`, and copies the data to the start.
///
/// `page_size` is the number of bytes of a page of the system that loads the object, 4096 on most.
///
/// # Errors
///
/// In this order:
///
/// - `UnknownPinning`: a map has a member `pinning` of another number than 0 and 1. The maps are those of the first
///   DATASEC `.maps`, in the order of its entries.
/// - `ElfError`: the bytes are no ELF64 file.
/// - `SecondArena`: an object has two arenas. The error names the second in byte order.
/// - `NoArena`: there is such a section and no arena.
/// - `ElfError`: the bytes of the section run past the end of the file.
/// - `ArenaTooSmall`: the arena has fewer bytes than the section.
///
/// `OutOfMemory`: an allocation failed. On error the object is unchanged.
pub fn complete_maps(object: &mut Object, file: &[u8], page_size: u32) -> Result<(), BtfMapError>
    ensures maps { OnOk result
        (object.new.maps ≡ completed_maps file.now page_size object.old.maps) }
    ensures fault { Refuses is_btf_map_memory result
        (completion_fault file.now page_size object.old) }
    ensures others_stay { object.new ≡ record object.old { maps = object.new.maps } }
    ensures unchanged { OnErr result (object.new ≡ object.old) }
{
    let alloc = object.allocator();
    check_pinnings(alloc, &object.btf)?;
    let data = arena_data(alloc, file, page_size, &object.maps)?;
    put_arena_data(&mut object.maps, data);
    Ok(())
}
