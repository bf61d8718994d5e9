//! What a loader does with a program, by the name of its section.

ghost use Rattle.std.specs.Prelude.{◌≡◌, ◌==◌, ◌<◌, IfSome, length};
ghost use Rattle.std.specs.List.{position};
ghost use Rattle.std.specs.Option.{option_copied};
ghost use Rattle.ebpf_parts.specs.ProgramTypes.{name_fits, has_target, is_marked, kind_in, longer, longest_fit, row_name, program_kind, without_mark};

use crate::programs::attach_type::bpf_attach_type;
use crate::programs::program_type::bpf_prog_type;

/// How a program is loaded.
#[derive(Clone, Copy, Debug, PartialEq, Eq)]
pub struct ProgramKind {
    /// The type that it is loaded as.
    pub program_type: bpf_prog_type,
    /// The kernel's number of the way of attaching it (of its `enum bpf_attach_type`), where the name says one.
    pub attach_type: Option<u32>,
    /// Whether the program may sleep.
    pub is_sleepable: bool,
    /// Whether the program takes packets in fragments.
    pub has_frags: bool,
    /// Whether the program is loaded with the id of its attach target's type.
    pub wants_target_type: bool,
    /// Whether the program is loaded only where a caller asks for it.
    pub is_optional: bool,
}

/// A name of program sections, and what a loader does with their programs.
#[derive(Clone, Copy, Debug, PartialEq, Eq)]
pub struct NamedKind {
    /// The name, with spaces behind it.
    pub padded_name: [u8; 24],
    /// Whether a slash and a target may follow.
    pub takes_target: bool,
    /// How the programs are loaded.
    pub kind: ProgramKind,
}

/// Where the first space stands.
fn first_space(padded: &[u8]) -> Option<usize>
    ensures index { result ≡ position (λ b. b == 32) padded.now }
    ensures inside { IfSome result (λ at. at < length padded.now) }
{
    padded.iter().position(|byte| *byte == b' ')
}

impl NamedKind {
    /// The name.
    pub fn name(&self) -> &[u8]
        ensures { result.now ≡ row_name self.now }
    {
        match first_space(&self.padded_name) {
            Some(at) => &self.padded_name[..at],
            None => &self.padded_name,
        }
    }
}

/// Whether a name begins with another, and goes on with a slash.
fn has_target(name: &[u8], own: &[u8]) -> bool
    ensures { result ≡ has_target name.now own.now }
{
    name.starts_with(own) && name.get(own.len()) == Some(&b'/')
}

/// Whether a name is that of a row: its own, or its own with a target where it takes one.
fn name_fits(row: &NamedKind, name: &[u8]) -> bool
    ensures { result ≡ name_fits name.now row.now }
{
    let own = row.name();
    name == own || (row.takes_target && has_target(name, own))
}

/// The row with the longer name, the earlier one of two as long.
fn longer<'a>(found: Option<&'a NamedKind>, row: &'a NamedKind) -> Option<&'a NamedKind>
    ensures { option_copied result ≡ longer (option_copied found.entry) row.now }
{
    match found {
        Some(other) if other.name().len() >= row.name().len() => Some(other),
        _ => Some(row),
    }
}

/// Of the rows that a name fits the one with the longest name.
#[tactic(auto, unfolding(crate::specs::ProgramTypes::longest_fit), using(crate::proofs::ProgramKinds::row_fits, crate::proofs::ProgramKinds::row_passed, crate::proofs::ProgramKinds::rows_seen))]
fn longest_fit<'a>(rows: &'a [NamedKind], name: &[u8]) -> Option<&'a NamedKind>
    ensures { option_copied result ≡ longest_fit name.now rows.now }
{
    let mut found = None;
    for row in rows {
        if !name_fits(row, name) {
            continue;
        }
        found = longer(found, row);
    }
    found
}

/// The name without the mark before it, `?`, and whether it has one.
fn without_mark(name: &[u8]) -> (bool, &[u8])
    ensures mark { result.0 ≡ is_marked name.now }
    ensures rest { result.1.now ≡ without_mark name.now }
{
    match name.split_first() {
        Some((first, rest)) if *first == b'?' => (true, rest),
        _ => (false, name),
    }
}

/// What the row with the longest name that fits says; a `?` before the name says that a program is optional.
fn kind_in(rows: &[NamedKind], name: &[u8]) -> Option<ProgramKind>
    ensures { result ≡ kind_in rows.now name.now }
{
    let (is_optional, name) = without_mark(name);
    match longest_fit(rows, name) {
        Some(row) => Some(ProgramKind {
            is_optional,
            ..row.kind
        }),
        None => None,
    }
}

/// Returns how a loader loads the programs of a section, by the section's name (libbpf's section names).
///
/// The row of `NAMED_KINDS` with the longest name that fits says it. A `?` before the name says that a program is
/// loaded only where it is asked for. The result is `None` if no row fits.
pub fn program_kind(name: &str) -> Option<ProgramKind>
    ensures { result ≡ program_kind name.now }
{
    kind_in(&NAMED_KINDS, name.as_bytes())
}

/// The name alone.
const EXACT: bool = false;
/// The name alone, or followed by a slash and a target.
const LONGER: bool = true;

/// The flags of a name.
#[derive(Clone, Copy)]
struct KindFlags {
    is_sleepable: bool,
    has_frags: bool,
    wants_target_type: bool,
}

const PLAIN: KindFlags = KindFlags {
    is_sleepable: false,
    has_frags: false,
    wants_target_type: false,
};

const SLEEPABLE: KindFlags = KindFlags {
    is_sleepable: true,
    has_frags: false,
    wants_target_type: false,
};

const FRAGS: KindFlags = KindFlags {
    is_sleepable: false,
    has_frags: true,
    wants_target_type: false,
};

const TARGETED: KindFlags = KindFlags {
    is_sleepable: false,
    has_frags: false,
    wants_target_type: true,
};

const SLEEPABLE_TARGETED: KindFlags = KindFlags {
    is_sleepable: true,
    has_frags: false,
    wants_target_type: true,
};

/// The number of a way of attaching programs, by its name in the kernel's `enum bpf_attach_type`, or `None`.
macro_rules! attach_number {
    (None) => {
        None
    };
    ($name:ident) => {
        Some(bpf_attach_type::$name as u32)
    };
}

/// Rows: the name, how it may stand, the type of its programs, the way of attaching them, and its flags.
macro_rules! rows {
    ($($name:literal => $takes_target:expr, $program_type:ident, $attach_type:tt, $flags:expr;)*) => {
        [
            $(NamedKind {
                padded_name: *$name,
                takes_target: $takes_target,
                kind: ProgramKind {
                    program_type: bpf_prog_type::$program_type,
                    attach_type: attach_number!($attach_type),
                    is_sleepable: $flags.is_sleepable,
                    has_frags: $flags.has_frags,
                    wants_target_type: $flags.wants_target_type,
                    is_optional: false,
                },
            }),*
        ]
    };
}

/// The names of program sections, with how a loader loads their programs (libbpf's Program Types and ELF Sections).
///
/// Each name is padded to 24 bytes, the length of the longest and a space, since all rows of an array have one type.
/// `specs/NamedKinds.antt` proves the table against libbpf's.
pub const NAMED_KINDS: [NamedKind; 101] = rows! {
    b"socket                  " => EXACT, BPF_PROG_TYPE_SOCKET_FILTER, None, PLAIN;
    b"sk_reuseport/migrate    " => EXACT, BPF_PROG_TYPE_SK_REUSEPORT, BPF_SK_REUSEPORT_SELECT_OR_MIGRATE, PLAIN;
    b"sk_reuseport            " => EXACT, BPF_PROG_TYPE_SK_REUSEPORT, BPF_SK_REUSEPORT_SELECT, PLAIN;
    b"kprobe                  " => LONGER, BPF_PROG_TYPE_KPROBE, None, PLAIN;
    b"uprobe                  " => LONGER, BPF_PROG_TYPE_KPROBE, None, PLAIN;
    b"uprobe.s                " => LONGER, BPF_PROG_TYPE_KPROBE, None, SLEEPABLE;
    b"kretprobe               " => LONGER, BPF_PROG_TYPE_KPROBE, None, PLAIN;
    b"uretprobe               " => LONGER, BPF_PROG_TYPE_KPROBE, None, PLAIN;
    b"uretprobe.s             " => LONGER, BPF_PROG_TYPE_KPROBE, None, SLEEPABLE;
    b"kprobe.multi            " => LONGER, BPF_PROG_TYPE_KPROBE, BPF_TRACE_KPROBE_MULTI, PLAIN;
    b"kretprobe.multi         " => LONGER, BPF_PROG_TYPE_KPROBE, BPF_TRACE_KPROBE_MULTI, PLAIN;
    b"kprobe.session          " => LONGER, BPF_PROG_TYPE_KPROBE, BPF_TRACE_KPROBE_SESSION, PLAIN;
    b"uprobe.multi            " => LONGER, BPF_PROG_TYPE_KPROBE, BPF_TRACE_UPROBE_MULTI, PLAIN;
    b"uretprobe.multi         " => LONGER, BPF_PROG_TYPE_KPROBE, BPF_TRACE_UPROBE_MULTI, PLAIN;
    b"uprobe.multi.s          " => LONGER, BPF_PROG_TYPE_KPROBE, BPF_TRACE_UPROBE_MULTI, SLEEPABLE;
    b"uretprobe.multi.s       " => LONGER, BPF_PROG_TYPE_KPROBE, BPF_TRACE_UPROBE_MULTI, SLEEPABLE;
    b"ksyscall                " => LONGER, BPF_PROG_TYPE_KPROBE, None, PLAIN;
    b"kretsyscall             " => LONGER, BPF_PROG_TYPE_KPROBE, None, PLAIN;
    b"usdt                    " => LONGER, BPF_PROG_TYPE_KPROBE, None, PLAIN;
    b"usdt.s                  " => LONGER, BPF_PROG_TYPE_KPROBE, None, SLEEPABLE;
    b"tc/ingress              " => EXACT, BPF_PROG_TYPE_SCHED_CLS, BPF_TCX_INGRESS, PLAIN;
    b"tc/egress               " => EXACT, BPF_PROG_TYPE_SCHED_CLS, BPF_TCX_EGRESS, PLAIN;
    b"tcx/ingress             " => EXACT, BPF_PROG_TYPE_SCHED_CLS, BPF_TCX_INGRESS, PLAIN;
    b"tcx/egress              " => EXACT, BPF_PROG_TYPE_SCHED_CLS, BPF_TCX_EGRESS, PLAIN;
    b"tc                      " => EXACT, BPF_PROG_TYPE_SCHED_CLS, None, PLAIN;
    b"classifier              " => EXACT, BPF_PROG_TYPE_SCHED_CLS, None, PLAIN;
    b"action                  " => EXACT, BPF_PROG_TYPE_SCHED_ACT, None, PLAIN;
    b"netkit/primary          " => EXACT, BPF_PROG_TYPE_SCHED_CLS, BPF_NETKIT_PRIMARY, PLAIN;
    b"netkit/peer             " => EXACT, BPF_PROG_TYPE_SCHED_CLS, BPF_NETKIT_PEER, PLAIN;
    b"tracepoint              " => LONGER, BPF_PROG_TYPE_TRACEPOINT, None, PLAIN;
    b"tp                      " => LONGER, BPF_PROG_TYPE_TRACEPOINT, None, PLAIN;
    b"raw_tracepoint          " => LONGER, BPF_PROG_TYPE_RAW_TRACEPOINT, None, PLAIN;
    b"raw_tp                  " => LONGER, BPF_PROG_TYPE_RAW_TRACEPOINT, None, PLAIN;
    b"raw_tracepoint.w        " => LONGER, BPF_PROG_TYPE_RAW_TRACEPOINT_WRITABLE, None, PLAIN;
    b"raw_tp.w                " => LONGER, BPF_PROG_TYPE_RAW_TRACEPOINT_WRITABLE, None, PLAIN;
    b"tp_btf                  " => LONGER, BPF_PROG_TYPE_TRACING, BPF_TRACE_RAW_TP, TARGETED;
    b"fentry                  " => LONGER, BPF_PROG_TYPE_TRACING, BPF_TRACE_FENTRY, TARGETED;
    b"fmod_ret                " => LONGER, BPF_PROG_TYPE_TRACING, BPF_MODIFY_RETURN, TARGETED;
    b"fexit                   " => LONGER, BPF_PROG_TYPE_TRACING, BPF_TRACE_FEXIT, TARGETED;
    b"fentry.s                " => LONGER, BPF_PROG_TYPE_TRACING, BPF_TRACE_FENTRY, SLEEPABLE_TARGETED;
    b"fmod_ret.s              " => LONGER, BPF_PROG_TYPE_TRACING, BPF_MODIFY_RETURN, SLEEPABLE_TARGETED;
    b"fexit.s                 " => LONGER, BPF_PROG_TYPE_TRACING, BPF_TRACE_FEXIT, SLEEPABLE_TARGETED;
    b"freplace                " => LONGER, BPF_PROG_TYPE_EXT, None, TARGETED;
    b"lsm                     " => LONGER, BPF_PROG_TYPE_LSM, BPF_LSM_MAC, TARGETED;
    b"lsm.s                   " => LONGER, BPF_PROG_TYPE_LSM, BPF_LSM_MAC, SLEEPABLE_TARGETED;
    b"lsm_cgroup              " => LONGER, BPF_PROG_TYPE_LSM, BPF_LSM_CGROUP, TARGETED;
    b"iter                    " => LONGER, BPF_PROG_TYPE_TRACING, BPF_TRACE_ITER, TARGETED;
    b"iter.s                  " => LONGER, BPF_PROG_TYPE_TRACING, BPF_TRACE_ITER, SLEEPABLE_TARGETED;
    b"syscall                 " => EXACT, BPF_PROG_TYPE_SYSCALL, None, SLEEPABLE;
    b"xdp.frags/devmap        " => EXACT, BPF_PROG_TYPE_XDP, BPF_XDP_DEVMAP, FRAGS;
    b"xdp/devmap              " => EXACT, BPF_PROG_TYPE_XDP, BPF_XDP_DEVMAP, PLAIN;
    b"xdp.frags/cpumap        " => EXACT, BPF_PROG_TYPE_XDP, BPF_XDP_CPUMAP, FRAGS;
    b"xdp/cpumap              " => EXACT, BPF_PROG_TYPE_XDP, BPF_XDP_CPUMAP, PLAIN;
    b"xdp.frags               " => EXACT, BPF_PROG_TYPE_XDP, BPF_XDP, FRAGS;
    b"xdp                     " => EXACT, BPF_PROG_TYPE_XDP, BPF_XDP, PLAIN;
    b"perf_event              " => EXACT, BPF_PROG_TYPE_PERF_EVENT, None, PLAIN;
    b"lwt_in                  " => EXACT, BPF_PROG_TYPE_LWT_IN, None, PLAIN;
    b"lwt_out                 " => EXACT, BPF_PROG_TYPE_LWT_OUT, None, PLAIN;
    b"lwt_xmit                " => EXACT, BPF_PROG_TYPE_LWT_XMIT, None, PLAIN;
    b"lwt_seg6local           " => EXACT, BPF_PROG_TYPE_LWT_SEG6LOCAL, None, PLAIN;
    b"sockops                 " => EXACT, BPF_PROG_TYPE_SOCK_OPS, BPF_CGROUP_SOCK_OPS, PLAIN;
    b"sk_skb/stream_parser    " => EXACT, BPF_PROG_TYPE_SK_SKB, BPF_SK_SKB_STREAM_PARSER, PLAIN;
    b"sk_skb/stream_verdict   " => EXACT, BPF_PROG_TYPE_SK_SKB, BPF_SK_SKB_STREAM_VERDICT, PLAIN;
    b"sk_skb/verdict          " => EXACT, BPF_PROG_TYPE_SK_SKB, BPF_SK_SKB_VERDICT, PLAIN;
    b"sk_skb                  " => EXACT, BPF_PROG_TYPE_SK_SKB, None, PLAIN;
    b"sk_msg                  " => EXACT, BPF_PROG_TYPE_SK_MSG, BPF_SK_MSG_VERDICT, PLAIN;
    b"lirc_mode2              " => EXACT, BPF_PROG_TYPE_LIRC_MODE2, BPF_LIRC_MODE2, PLAIN;
    b"flow_dissector          " => EXACT, BPF_PROG_TYPE_FLOW_DISSECTOR, BPF_FLOW_DISSECTOR, PLAIN;
    b"cgroup_skb/ingress      " => EXACT, BPF_PROG_TYPE_CGROUP_SKB, BPF_CGROUP_INET_INGRESS, PLAIN;
    b"cgroup_skb/egress       " => EXACT, BPF_PROG_TYPE_CGROUP_SKB, BPF_CGROUP_INET_EGRESS, PLAIN;
    b"cgroup/skb              " => EXACT, BPF_PROG_TYPE_CGROUP_SKB, None, PLAIN;
    b"cgroup/sock_create      " => EXACT, BPF_PROG_TYPE_CGROUP_SOCK, BPF_CGROUP_INET_SOCK_CREATE, PLAIN;
    b"cgroup/sock_release     " => EXACT, BPF_PROG_TYPE_CGROUP_SOCK, BPF_CGROUP_INET_SOCK_RELEASE, PLAIN;
    b"cgroup/sock             " => EXACT, BPF_PROG_TYPE_CGROUP_SOCK, BPF_CGROUP_INET_SOCK_CREATE, PLAIN;
    b"cgroup/post_bind4       " => EXACT, BPF_PROG_TYPE_CGROUP_SOCK, BPF_CGROUP_INET4_POST_BIND, PLAIN;
    b"cgroup/post_bind6       " => EXACT, BPF_PROG_TYPE_CGROUP_SOCK, BPF_CGROUP_INET6_POST_BIND, PLAIN;
    b"cgroup/bind4            " => EXACT, BPF_PROG_TYPE_CGROUP_SOCK_ADDR, BPF_CGROUP_INET4_BIND, PLAIN;
    b"cgroup/bind6            " => EXACT, BPF_PROG_TYPE_CGROUP_SOCK_ADDR, BPF_CGROUP_INET6_BIND, PLAIN;
    b"cgroup/connect4         " => EXACT, BPF_PROG_TYPE_CGROUP_SOCK_ADDR, BPF_CGROUP_INET4_CONNECT, PLAIN;
    b"cgroup/connect6         " => EXACT, BPF_PROG_TYPE_CGROUP_SOCK_ADDR, BPF_CGROUP_INET6_CONNECT, PLAIN;
    b"cgroup/connect_unix     " => EXACT, BPF_PROG_TYPE_CGROUP_SOCK_ADDR, BPF_CGROUP_UNIX_CONNECT, PLAIN;
    b"cgroup/sendmsg4         " => EXACT, BPF_PROG_TYPE_CGROUP_SOCK_ADDR, BPF_CGROUP_UDP4_SENDMSG, PLAIN;
    b"cgroup/sendmsg6         " => EXACT, BPF_PROG_TYPE_CGROUP_SOCK_ADDR, BPF_CGROUP_UDP6_SENDMSG, PLAIN;
    b"cgroup/sendmsg_unix     " => EXACT, BPF_PROG_TYPE_CGROUP_SOCK_ADDR, BPF_CGROUP_UNIX_SENDMSG, PLAIN;
    b"cgroup/recvmsg4         " => EXACT, BPF_PROG_TYPE_CGROUP_SOCK_ADDR, BPF_CGROUP_UDP4_RECVMSG, PLAIN;
    b"cgroup/recvmsg6         " => EXACT, BPF_PROG_TYPE_CGROUP_SOCK_ADDR, BPF_CGROUP_UDP6_RECVMSG, PLAIN;
    b"cgroup/recvmsg_unix     " => EXACT, BPF_PROG_TYPE_CGROUP_SOCK_ADDR, BPF_CGROUP_UNIX_RECVMSG, PLAIN;
    b"cgroup/getpeername4     " => EXACT, BPF_PROG_TYPE_CGROUP_SOCK_ADDR, BPF_CGROUP_INET4_GETPEERNAME, PLAIN;
    b"cgroup/getpeername6     " => EXACT, BPF_PROG_TYPE_CGROUP_SOCK_ADDR, BPF_CGROUP_INET6_GETPEERNAME, PLAIN;
    b"cgroup/getpeername_unix " => EXACT, BPF_PROG_TYPE_CGROUP_SOCK_ADDR, BPF_CGROUP_UNIX_GETPEERNAME, PLAIN;
    b"cgroup/getsockname4     " => EXACT, BPF_PROG_TYPE_CGROUP_SOCK_ADDR, BPF_CGROUP_INET4_GETSOCKNAME, PLAIN;
    b"cgroup/getsockname6     " => EXACT, BPF_PROG_TYPE_CGROUP_SOCK_ADDR, BPF_CGROUP_INET6_GETSOCKNAME, PLAIN;
    b"cgroup/getsockname_unix " => EXACT, BPF_PROG_TYPE_CGROUP_SOCK_ADDR, BPF_CGROUP_UNIX_GETSOCKNAME, PLAIN;
    b"cgroup/sysctl           " => EXACT, BPF_PROG_TYPE_CGROUP_SYSCTL, BPF_CGROUP_SYSCTL, PLAIN;
    b"cgroup/getsockopt       " => EXACT, BPF_PROG_TYPE_CGROUP_SOCKOPT, BPF_CGROUP_GETSOCKOPT, PLAIN;
    b"cgroup/setsockopt       " => EXACT, BPF_PROG_TYPE_CGROUP_SOCKOPT, BPF_CGROUP_SETSOCKOPT, PLAIN;
    b"cgroup/dev              " => EXACT, BPF_PROG_TYPE_CGROUP_DEVICE, BPF_CGROUP_DEVICE, PLAIN;
    b"struct_ops              " => LONGER, BPF_PROG_TYPE_STRUCT_OPS, None, PLAIN;
    b"struct_ops.s            " => LONGER, BPF_PROG_TYPE_STRUCT_OPS, None, SLEEPABLE;
    b"sk_lookup               " => EXACT, BPF_PROG_TYPE_SK_LOOKUP, BPF_SK_LOOKUP, PLAIN;
    b"netfilter               " => EXACT, BPF_PROG_TYPE_NETFILTER, BPF_NETFILTER, PLAIN;
};
