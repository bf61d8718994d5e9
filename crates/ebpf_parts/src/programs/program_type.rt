//! The types of programs by their numbers.

ghost use Rattle.std.specs.Prelude.{◌≡◌, Some, slice_get};
ghost use Rattle.ebpf_parts.specs.Numbers.{at_number};
ghost use Rattle.ebpf_parts.specs.ProgramTypes.{program_type_name, program_type_number, program_types};

use crate::binding::{InvalidTypeBinding, at_number};

/// The types of programs in the order of their numbers (the kernel's `enum bpf_prog_type`).
#[derive(Clone, Copy, Debug, PartialEq, Eq)]
pub enum bpf_prog_type {
    BPF_PROG_TYPE_UNSPEC,
    BPF_PROG_TYPE_SOCKET_FILTER,
    BPF_PROG_TYPE_KPROBE,
    BPF_PROG_TYPE_SCHED_CLS,
    BPF_PROG_TYPE_SCHED_ACT,
    BPF_PROG_TYPE_TRACEPOINT,
    BPF_PROG_TYPE_XDP,
    BPF_PROG_TYPE_PERF_EVENT,
    BPF_PROG_TYPE_CGROUP_SKB,
    BPF_PROG_TYPE_CGROUP_SOCK,
    BPF_PROG_TYPE_LWT_IN,
    BPF_PROG_TYPE_LWT_OUT,
    BPF_PROG_TYPE_LWT_XMIT,
    BPF_PROG_TYPE_SOCK_OPS,
    BPF_PROG_TYPE_SK_SKB,
    BPF_PROG_TYPE_CGROUP_DEVICE,
    BPF_PROG_TYPE_SK_MSG,
    BPF_PROG_TYPE_RAW_TRACEPOINT,
    BPF_PROG_TYPE_CGROUP_SOCK_ADDR,
    BPF_PROG_TYPE_LWT_SEG6LOCAL,
    BPF_PROG_TYPE_LIRC_MODE2,
    BPF_PROG_TYPE_SK_REUSEPORT,
    BPF_PROG_TYPE_FLOW_DISSECTOR,
    BPF_PROG_TYPE_CGROUP_SYSCTL,
    BPF_PROG_TYPE_RAW_TRACEPOINT_WRITABLE,
    BPF_PROG_TYPE_CGROUP_SOCKOPT,
    BPF_PROG_TYPE_TRACING,
    BPF_PROG_TYPE_STRUCT_OPS,
    BPF_PROG_TYPE_EXT,
    BPF_PROG_TYPE_LSM,
    BPF_PROG_TYPE_SK_LOOKUP,
    BPF_PROG_TYPE_SYSCALL,
    BPF_PROG_TYPE_NETFILTER,
}

/// The types in the order of their numbers.
const PROGRAM_TYPES: [bpf_prog_type; 33] = [
    bpf_prog_type::BPF_PROG_TYPE_UNSPEC,
    bpf_prog_type::BPF_PROG_TYPE_SOCKET_FILTER,
    bpf_prog_type::BPF_PROG_TYPE_KPROBE,
    bpf_prog_type::BPF_PROG_TYPE_SCHED_CLS,
    bpf_prog_type::BPF_PROG_TYPE_SCHED_ACT,
    bpf_prog_type::BPF_PROG_TYPE_TRACEPOINT,
    bpf_prog_type::BPF_PROG_TYPE_XDP,
    bpf_prog_type::BPF_PROG_TYPE_PERF_EVENT,
    bpf_prog_type::BPF_PROG_TYPE_CGROUP_SKB,
    bpf_prog_type::BPF_PROG_TYPE_CGROUP_SOCK,
    bpf_prog_type::BPF_PROG_TYPE_LWT_IN,
    bpf_prog_type::BPF_PROG_TYPE_LWT_OUT,
    bpf_prog_type::BPF_PROG_TYPE_LWT_XMIT,
    bpf_prog_type::BPF_PROG_TYPE_SOCK_OPS,
    bpf_prog_type::BPF_PROG_TYPE_SK_SKB,
    bpf_prog_type::BPF_PROG_TYPE_CGROUP_DEVICE,
    bpf_prog_type::BPF_PROG_TYPE_SK_MSG,
    bpf_prog_type::BPF_PROG_TYPE_RAW_TRACEPOINT,
    bpf_prog_type::BPF_PROG_TYPE_CGROUP_SOCK_ADDR,
    bpf_prog_type::BPF_PROG_TYPE_LWT_SEG6LOCAL,
    bpf_prog_type::BPF_PROG_TYPE_LIRC_MODE2,
    bpf_prog_type::BPF_PROG_TYPE_SK_REUSEPORT,
    bpf_prog_type::BPF_PROG_TYPE_FLOW_DISSECTOR,
    bpf_prog_type::BPF_PROG_TYPE_CGROUP_SYSCTL,
    bpf_prog_type::BPF_PROG_TYPE_RAW_TRACEPOINT_WRITABLE,
    bpf_prog_type::BPF_PROG_TYPE_CGROUP_SOCKOPT,
    bpf_prog_type::BPF_PROG_TYPE_TRACING,
    bpf_prog_type::BPF_PROG_TYPE_STRUCT_OPS,
    bpf_prog_type::BPF_PROG_TYPE_EXT,
    bpf_prog_type::BPF_PROG_TYPE_LSM,
    bpf_prog_type::BPF_PROG_TYPE_SK_LOOKUP,
    bpf_prog_type::BPF_PROG_TYPE_SYSCALL,
    bpf_prog_type::BPF_PROG_TYPE_NETFILTER,
];

impl bpf_prog_type {
    /// The number of the type.
    #[tactic(auto, unfolding(crate::specs::ProgramTypes::program_types, crate::specs::ProgramTypes::program_type_number))]
    pub fn number(self) -> u32
        ensures number { result ≡ program_type_number self }
        ensures index { slice_get program_types result ≡ Some self }
    {
        self as u32
    }

    /// The name of the type, as bpftool prints it.
    #[tactic(auto, unfolding(crate::specs::ProgramTypes::program_type_name))]
    pub fn name(self) -> &'static str
        ensures { result.now ≡ program_type_name self }
    {
        match self {
            bpf_prog_type::BPF_PROG_TYPE_UNSPEC => "unspec",
            bpf_prog_type::BPF_PROG_TYPE_SOCKET_FILTER => "socket_filter",
            bpf_prog_type::BPF_PROG_TYPE_KPROBE => "kprobe",
            bpf_prog_type::BPF_PROG_TYPE_SCHED_CLS => "sched_cls",
            bpf_prog_type::BPF_PROG_TYPE_SCHED_ACT => "sched_act",
            bpf_prog_type::BPF_PROG_TYPE_TRACEPOINT => "tracepoint",
            bpf_prog_type::BPF_PROG_TYPE_XDP => "xdp",
            bpf_prog_type::BPF_PROG_TYPE_PERF_EVENT => "perf_event",
            bpf_prog_type::BPF_PROG_TYPE_CGROUP_SKB => "cgroup_skb",
            bpf_prog_type::BPF_PROG_TYPE_CGROUP_SOCK => "cgroup_sock",
            bpf_prog_type::BPF_PROG_TYPE_LWT_IN => "lwt_in",
            bpf_prog_type::BPF_PROG_TYPE_LWT_OUT => "lwt_out",
            bpf_prog_type::BPF_PROG_TYPE_LWT_XMIT => "lwt_xmit",
            bpf_prog_type::BPF_PROG_TYPE_SOCK_OPS => "sock_ops",
            bpf_prog_type::BPF_PROG_TYPE_SK_SKB => "sk_skb",
            bpf_prog_type::BPF_PROG_TYPE_CGROUP_DEVICE => "cgroup_device",
            bpf_prog_type::BPF_PROG_TYPE_SK_MSG => "sk_msg",
            bpf_prog_type::BPF_PROG_TYPE_RAW_TRACEPOINT => "raw_tracepoint",
            bpf_prog_type::BPF_PROG_TYPE_CGROUP_SOCK_ADDR => "cgroup_sock_addr",
            bpf_prog_type::BPF_PROG_TYPE_LWT_SEG6LOCAL => "lwt_seg6local",
            bpf_prog_type::BPF_PROG_TYPE_LIRC_MODE2 => "lirc_mode2",
            bpf_prog_type::BPF_PROG_TYPE_SK_REUSEPORT => "sk_reuseport",
            bpf_prog_type::BPF_PROG_TYPE_FLOW_DISSECTOR => "flow_dissector",
            bpf_prog_type::BPF_PROG_TYPE_CGROUP_SYSCTL => "cgroup_sysctl",
            bpf_prog_type::BPF_PROG_TYPE_RAW_TRACEPOINT_WRITABLE => "raw_tracepoint_writable",
            bpf_prog_type::BPF_PROG_TYPE_CGROUP_SOCKOPT => "cgroup_sockopt",
            bpf_prog_type::BPF_PROG_TYPE_TRACING => "tracing",
            bpf_prog_type::BPF_PROG_TYPE_STRUCT_OPS => "struct_ops",
            bpf_prog_type::BPF_PROG_TYPE_EXT => "ext",
            bpf_prog_type::BPF_PROG_TYPE_LSM => "lsm",
            bpf_prog_type::BPF_PROG_TYPE_SK_LOOKUP => "sk_lookup",
            bpf_prog_type::BPF_PROG_TYPE_SYSCALL => "syscall",
            bpf_prog_type::BPF_PROG_TYPE_NETFILTER => "netfilter",
        }
    }
}

impl TryFrom<u32> for bpf_prog_type {
    type Error = InvalidTypeBinding<u32>;

    ghost try_from_gives = { λ number result. result ≡ at_number program_types number };

    /// The type of a number. `InvalidTypeBinding` with the number from 33 on.
    #[tactic(auto, unfolding(crate::specs::ProgramTypes::program_types))]
    fn try_from(value: u32) -> Result<bpf_prog_type, InvalidTypeBinding<u32>> {
        at_number(&PROGRAM_TYPES, value)
    }
}
