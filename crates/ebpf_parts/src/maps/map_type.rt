//! The types of maps by their numbers.

ghost use Rattle.std.specs.Prelude.{◌≡◌, Some, slice_get};
ghost use Rattle.ebpf_parts.specs.Numbers.{at_number};
ghost use Rattle.ebpf_parts.specs.Maps.{map_type_name, map_types};

use crate::binding::{InvalidTypeBinding, at_number};

/// The types of maps in the order of their numbers (the kernel's `enum bpf_map_type`).
#[derive(Clone, Copy, Debug, PartialEq, Eq)]
pub enum bpf_map_type {
    BPF_MAP_TYPE_UNSPEC,
    BPF_MAP_TYPE_HASH,
    BPF_MAP_TYPE_ARRAY,
    BPF_MAP_TYPE_PROG_ARRAY,
    BPF_MAP_TYPE_PERF_EVENT_ARRAY,
    BPF_MAP_TYPE_PERCPU_HASH,
    BPF_MAP_TYPE_PERCPU_ARRAY,
    BPF_MAP_TYPE_STACK_TRACE,
    BPF_MAP_TYPE_CGROUP_ARRAY,
    BPF_MAP_TYPE_LRU_HASH,
    BPF_MAP_TYPE_LRU_PERCPU_HASH,
    BPF_MAP_TYPE_LPM_TRIE,
    BPF_MAP_TYPE_ARRAY_OF_MAPS,
    BPF_MAP_TYPE_HASH_OF_MAPS,
    BPF_MAP_TYPE_DEVMAP,
    BPF_MAP_TYPE_SOCKMAP,
    BPF_MAP_TYPE_CPUMAP,
    BPF_MAP_TYPE_XSKMAP,
    BPF_MAP_TYPE_SOCKHASH,
    BPF_MAP_TYPE_CGROUP_STORAGE_DEPRECATED,
    BPF_MAP_TYPE_REUSEPORT_SOCKARRAY,
    BPF_MAP_TYPE_PERCPU_CGROUP_STORAGE_DEPRECATED,
    BPF_MAP_TYPE_QUEUE,
    BPF_MAP_TYPE_STACK,
    BPF_MAP_TYPE_SK_STORAGE,
    BPF_MAP_TYPE_DEVMAP_HASH,
    BPF_MAP_TYPE_STRUCT_OPS,
    BPF_MAP_TYPE_RINGBUF,
    BPF_MAP_TYPE_INODE_STORAGE,
    BPF_MAP_TYPE_TASK_STORAGE,
    BPF_MAP_TYPE_BLOOM_FILTER,
    BPF_MAP_TYPE_USER_RINGBUF,
    BPF_MAP_TYPE_CGRP_STORAGE,
    BPF_MAP_TYPE_ARENA,
    BPF_MAP_TYPE_INSN_ARRAY,
}

/// The types in the order of their numbers.
const MAP_TYPES: [bpf_map_type; 35] = [
    bpf_map_type::BPF_MAP_TYPE_UNSPEC,
    bpf_map_type::BPF_MAP_TYPE_HASH,
    bpf_map_type::BPF_MAP_TYPE_ARRAY,
    bpf_map_type::BPF_MAP_TYPE_PROG_ARRAY,
    bpf_map_type::BPF_MAP_TYPE_PERF_EVENT_ARRAY,
    bpf_map_type::BPF_MAP_TYPE_PERCPU_HASH,
    bpf_map_type::BPF_MAP_TYPE_PERCPU_ARRAY,
    bpf_map_type::BPF_MAP_TYPE_STACK_TRACE,
    bpf_map_type::BPF_MAP_TYPE_CGROUP_ARRAY,
    bpf_map_type::BPF_MAP_TYPE_LRU_HASH,
    bpf_map_type::BPF_MAP_TYPE_LRU_PERCPU_HASH,
    bpf_map_type::BPF_MAP_TYPE_LPM_TRIE,
    bpf_map_type::BPF_MAP_TYPE_ARRAY_OF_MAPS,
    bpf_map_type::BPF_MAP_TYPE_HASH_OF_MAPS,
    bpf_map_type::BPF_MAP_TYPE_DEVMAP,
    bpf_map_type::BPF_MAP_TYPE_SOCKMAP,
    bpf_map_type::BPF_MAP_TYPE_CPUMAP,
    bpf_map_type::BPF_MAP_TYPE_XSKMAP,
    bpf_map_type::BPF_MAP_TYPE_SOCKHASH,
    bpf_map_type::BPF_MAP_TYPE_CGROUP_STORAGE_DEPRECATED,
    bpf_map_type::BPF_MAP_TYPE_REUSEPORT_SOCKARRAY,
    bpf_map_type::BPF_MAP_TYPE_PERCPU_CGROUP_STORAGE_DEPRECATED,
    bpf_map_type::BPF_MAP_TYPE_QUEUE,
    bpf_map_type::BPF_MAP_TYPE_STACK,
    bpf_map_type::BPF_MAP_TYPE_SK_STORAGE,
    bpf_map_type::BPF_MAP_TYPE_DEVMAP_HASH,
    bpf_map_type::BPF_MAP_TYPE_STRUCT_OPS,
    bpf_map_type::BPF_MAP_TYPE_RINGBUF,
    bpf_map_type::BPF_MAP_TYPE_INODE_STORAGE,
    bpf_map_type::BPF_MAP_TYPE_TASK_STORAGE,
    bpf_map_type::BPF_MAP_TYPE_BLOOM_FILTER,
    bpf_map_type::BPF_MAP_TYPE_USER_RINGBUF,
    bpf_map_type::BPF_MAP_TYPE_CGRP_STORAGE,
    bpf_map_type::BPF_MAP_TYPE_ARENA,
    bpf_map_type::BPF_MAP_TYPE_INSN_ARRAY,
];

impl bpf_map_type {
    /// The number of the type.
    #[tactic(auto, unfolding(crate::specs::Maps::map_types))]
    pub fn number(self) -> u32
        ensures { slice_get map_types result ≡ Some self }
    {
        self as u32
    }

    /// The name of the type, as bpftool prints it.
    #[tactic(auto, unfolding(crate::specs::Maps::map_type_name))]
    pub fn name(self) -> &'static str
        ensures { result.now ≡ map_type_name self }
    {
        match self {
            bpf_map_type::BPF_MAP_TYPE_UNSPEC => "unspec",
            bpf_map_type::BPF_MAP_TYPE_HASH => "hash",
            bpf_map_type::BPF_MAP_TYPE_ARRAY => "array",
            bpf_map_type::BPF_MAP_TYPE_PROG_ARRAY => "prog_array",
            bpf_map_type::BPF_MAP_TYPE_PERF_EVENT_ARRAY => "perf_event_array",
            bpf_map_type::BPF_MAP_TYPE_PERCPU_HASH => "percpu_hash",
            bpf_map_type::BPF_MAP_TYPE_PERCPU_ARRAY => "percpu_array",
            bpf_map_type::BPF_MAP_TYPE_STACK_TRACE => "stack_trace",
            bpf_map_type::BPF_MAP_TYPE_CGROUP_ARRAY => "cgroup_array",
            bpf_map_type::BPF_MAP_TYPE_LRU_HASH => "lru_hash",
            bpf_map_type::BPF_MAP_TYPE_LRU_PERCPU_HASH => "lru_percpu_hash",
            bpf_map_type::BPF_MAP_TYPE_LPM_TRIE => "lpm_trie",
            bpf_map_type::BPF_MAP_TYPE_ARRAY_OF_MAPS => "array_of_maps",
            bpf_map_type::BPF_MAP_TYPE_HASH_OF_MAPS => "hash_of_maps",
            bpf_map_type::BPF_MAP_TYPE_DEVMAP => "devmap",
            bpf_map_type::BPF_MAP_TYPE_SOCKMAP => "sockmap",
            bpf_map_type::BPF_MAP_TYPE_CPUMAP => "cpumap",
            bpf_map_type::BPF_MAP_TYPE_XSKMAP => "xskmap",
            bpf_map_type::BPF_MAP_TYPE_SOCKHASH => "sockhash",
            bpf_map_type::BPF_MAP_TYPE_CGROUP_STORAGE_DEPRECATED => "cgroup_storage",
            bpf_map_type::BPF_MAP_TYPE_REUSEPORT_SOCKARRAY => "reuseport_sockarray",
            bpf_map_type::BPF_MAP_TYPE_PERCPU_CGROUP_STORAGE_DEPRECATED => "percpu_cgroup_storage",
            bpf_map_type::BPF_MAP_TYPE_QUEUE => "queue",
            bpf_map_type::BPF_MAP_TYPE_STACK => "stack",
            bpf_map_type::BPF_MAP_TYPE_SK_STORAGE => "sk_storage",
            bpf_map_type::BPF_MAP_TYPE_DEVMAP_HASH => "devmap_hash",
            bpf_map_type::BPF_MAP_TYPE_STRUCT_OPS => "struct_ops",
            bpf_map_type::BPF_MAP_TYPE_RINGBUF => "ringbuf",
            bpf_map_type::BPF_MAP_TYPE_INODE_STORAGE => "inode_storage",
            bpf_map_type::BPF_MAP_TYPE_TASK_STORAGE => "task_storage",
            bpf_map_type::BPF_MAP_TYPE_BLOOM_FILTER => "bloom_filter",
            bpf_map_type::BPF_MAP_TYPE_USER_RINGBUF => "user_ringbuf",
            bpf_map_type::BPF_MAP_TYPE_CGRP_STORAGE => "cgrp_storage",
            bpf_map_type::BPF_MAP_TYPE_ARENA => "arena",
            bpf_map_type::BPF_MAP_TYPE_INSN_ARRAY => "insn_array",
        }
    }
}

impl TryFrom<u32> for bpf_map_type {
    type Error = InvalidTypeBinding<u32>;

    ghost try_from_gives = { λ number result. result ≡ at_number map_types number };

    /// The type of a number. `InvalidTypeBinding` with the number from 35 on.
    #[tactic(auto, unfolding(crate::specs::Maps::map_types))]
    fn try_from(value: u32) -> Result<bpf_map_type, InvalidTypeBinding<u32>> {
        at_number(&MAP_TYPES, value)
    }
}
