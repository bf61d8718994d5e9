//! The names of program sections, piece by piece.

ghost use Rattle.std.specs.Prelude.{◌≡◌};
ghost use Rattle.std.specs.Option.{option_copied};
ghost use Rattle.ebpf_parts.specs.ProgramTypes.{address_calls, cgroup_section, cgroup_sections, cgroup_skb_sections, first_piece, one_piece, program_section, lookup_piece, second_piece, sk_reuseport_sections, sk_skb_sections, socket_events, two_pieces, xdp_sections};

use crate::program_section::ProgramSection;
use crate::programs::{
    CgroupSkbAttachType, CgroupSockAddrAttachType, CgroupSockAttachType, CgroupSockoptAttachType,
    SkReuseportAttachType, SkSkbKind, XdpAttachType,
};

/// The text before the first slash.
fn first_piece(name: &str) -> &str
    ensures { result.now ≡ first_piece name.now }
{
    match name.split_once('/') {
        Some((first, _)) => first,
        None => name,
    }
}

/// The text between the first slash and the next, where there is a slash.
fn second_piece(name: &str) -> Option<&str>
    ensures { option_copied result ≡ second_piece name.now }
{
    match name.split_once('/') {
        Some((_, rest)) => Some(first_piece(rest)),
        None => None,
    }
}

/// The kinds that the first piece says alone: probes of the kernel and of processes, points that are traced, sockets, packets
/// and signals, and what extends the kernel.
#[tactic(auto, unfolding(crate::specs::ProgramTypes::piece_sections))]
fn one_piece(piece: &str) -> Option<ProgramSection>
    ensures { result ≡ one_piece piece.now }
{
    match piece {
        "kprobe" => Some(ProgramSection::KProbe),
        "kretprobe" => Some(ProgramSection::KRetProbe),
        "uprobe" => Some(ProgramSection::UProbe {
            sleepable: false,
            multi: false,
        }),
        "uprobe.s" => Some(ProgramSection::UProbe {
            sleepable: true,
            multi: false,
        }),
        "uprobe.multi" => Some(ProgramSection::UProbe {
            sleepable: false,
            multi: true,
        }),
        "uprobe.multi.s" => Some(ProgramSection::UProbe {
            sleepable: true,
            multi: true,
        }),
        "uretprobe" => Some(ProgramSection::URetProbe {
            sleepable: false,
            multi: false,
        }),
        "uretprobe.s" => Some(ProgramSection::URetProbe {
            sleepable: true,
            multi: false,
        }),
        "uretprobe.multi" => Some(ProgramSection::URetProbe {
            sleepable: false,
            multi: true,
        }),
        "uretprobe.multi.s" => Some(ProgramSection::URetProbe {
            sleepable: true,
            multi: true,
        }),
        "tp_btf" => Some(ProgramSection::BtfTracePoint),
        "tracepoint" => Some(ProgramSection::TracePoint),
        "tp" => Some(ProgramSection::TracePoint),
        "raw_tp" => Some(ProgramSection::RawTracePoint),
        "raw_tracepoint" => Some(ProgramSection::RawTracePoint),
        "perf_event" => Some(ProgramSection::PerfEvent),
        "fentry" => Some(ProgramSection::FEntry { sleepable: false }),
        "fentry.s" => Some(ProgramSection::FEntry { sleepable: true }),
        "fexit" => Some(ProgramSection::FExit { sleepable: false }),
        "fexit.s" => Some(ProgramSection::FExit { sleepable: true }),
        "socket" => Some(ProgramSection::SocketFilter),
        "sk_msg" => Some(ProgramSection::SkMsg),
        "sockops" => Some(ProgramSection::SockOps),
        "classifier" => Some(ProgramSection::SchedClassifier),
        "sk_lookup" => Some(ProgramSection::SkLookup),
        "flow_dissector" => Some(ProgramSection::FlowDissector),
        "lirc_mode2" => Some(ProgramSection::LircMode2),
        "lsm" => Some(ProgramSection::Lsm { sleepable: false }),
        "lsm.s" => Some(ProgramSection::Lsm { sleepable: true }),
        "iter" => Some(ProgramSection::Iter { sleepable: false }),
        "iter.s" => Some(ProgramSection::Iter { sleepable: true }),
        "lsm_cgroup" => Some(ProgramSection::LsmCgroup),
        "freplace" => Some(ProgramSection::Extension),
        _ => None,
    }
}

/// After `xdp` and `xdp.frags`.
#[tactic(auto, unfolding(crate::specs::ProgramTypes::xdp_sections))]
fn xdp(frags: bool, piece: &str) -> Option<ProgramSection>
    ensures { result ≡ lookup_piece (xdp_sections frags) piece.now }
{
    let attach_type = match piece {
        "cpumap" => XdpAttachType::CpuMap,
        "devmap" => XdpAttachType::DevMap,
        _ => return None,
    };
    Some(ProgramSection::Xdp { frags, attach_type })
}

/// After `sk_skb`.
#[tactic(auto, unfolding(crate::specs::ProgramTypes::sk_skb_sections))]
fn sk_skb(piece: &str) -> Option<ProgramSection>
    ensures { result ≡ lookup_piece sk_skb_sections piece.now }
{
    match piece {
        "stream_parser" => Some(ProgramSection::SkSkbStream {
            kind: SkSkbKind::StreamParser,
        }),
        "stream_verdict" => Some(ProgramSection::SkSkbStream {
            kind: SkSkbKind::StreamVerdict,
        }),
        _ => None,
    }
}

/// After `sk_reuseport`.
#[tactic(auto, unfolding(crate::specs::ProgramTypes::sk_reuseport_sections))]
fn sk_reuseport(piece: &str) -> Option<ProgramSection>
    ensures { result ≡ lookup_piece sk_reuseport_sections piece.now }
{
    match piece {
        "migrate" => Some(ProgramSection::SkReuseport {
            attach_type: SkReuseportAttachType::SelectOrMigrate,
        }),
        _ => None,
    }
}

/// After `cgroup_skb`.
#[tactic(auto, unfolding(crate::specs::ProgramTypes::cgroup_skb_sections))]
fn cgroup_skb(piece: &str) -> Option<ProgramSection>
    ensures { result ≡ lookup_piece cgroup_skb_sections piece.now }
{
    match piece {
        "ingress" => Some(ProgramSection::CgroupSkb {
            attach_type: Some(CgroupSkbAttachType::Ingress),
        }),
        "egress" => Some(ProgramSection::CgroupSkb {
            attach_type: Some(CgroupSkbAttachType::Egress),
        }),
        _ => None,
    }
}

/// After `cgroup`.
#[tactic(auto, unfolding(crate::specs::ProgramTypes::cgroup_sections))]
fn cgroup_alone(piece: &str) -> Option<ProgramSection>
    ensures { result ≡ lookup_piece cgroup_sections piece.now }
{
    match piece {
        "skb" => Some(ProgramSection::CgroupSkb { attach_type: None }),
        "sysctl" => Some(ProgramSection::CgroupSysctl),
        "dev" => Some(ProgramSection::CgroupDevice),
        "getsockopt" => Some(ProgramSection::CgroupSockopt {
            attach_type: CgroupSockoptAttachType::Get,
        }),
        "setsockopt" => Some(ProgramSection::CgroupSockopt {
            attach_type: CgroupSockoptAttachType::Set,
        }),
        _ => None,
    }
}

/// After `cgroup`, for events of sockets.
#[tactic(auto, unfolding(crate::specs::ProgramTypes::socket_events))]
fn socket_event(piece: &str) -> Option<CgroupSockAttachType>
    ensures { result ≡ lookup_piece socket_events piece.now }
{
    match piece {
        "sock" | "sock_create" => Some(CgroupSockAttachType::SockCreate),
        "sock_release" => Some(CgroupSockAttachType::SockRelease),
        "post_bind4" => Some(CgroupSockAttachType::PostBind4),
        "post_bind6" => Some(CgroupSockAttachType::PostBind6),
        _ => None,
    }
}

/// After `cgroup`, for calls with a socket address.
#[tactic(auto, unfolding(crate::specs::ProgramTypes::address_calls))]
fn address_call(piece: &str) -> Option<CgroupSockAddrAttachType>
    ensures { result ≡ lookup_piece address_calls piece.now }
{
    match piece {
        "bind4" => Some(CgroupSockAddrAttachType::Bind4),
        "bind6" => Some(CgroupSockAddrAttachType::Bind6),
        "connect4" => Some(CgroupSockAddrAttachType::Connect4),
        "connect6" => Some(CgroupSockAddrAttachType::Connect6),
        "getpeername4" => Some(CgroupSockAddrAttachType::GetPeerName4),
        "getpeername6" => Some(CgroupSockAddrAttachType::GetPeerName6),
        "getsockname4" => Some(CgroupSockAddrAttachType::GetSockName4),
        "getsockname6" => Some(CgroupSockAddrAttachType::GetSockName6),
        "sendmsg4" => Some(CgroupSockAddrAttachType::UDPSendMsg4),
        "sendmsg6" => Some(CgroupSockAddrAttachType::UDPSendMsg6),
        "recvmsg4" => Some(CgroupSockAddrAttachType::UDPRecvMsg4),
        "recvmsg6" => Some(CgroupSockAddrAttachType::UDPRecvMsg6),
        _ => None,
    }
}

/// After `cgroup`.
fn cgroup(piece: &str) -> Option<ProgramSection>
    ensures { result ≡ cgroup_section piece.now }
{
    if let Some(section) = cgroup_alone(piece) {
        return Some(section);
    }
    if let Some(attach_type) = socket_event(piece) {
        return Some(ProgramSection::CgroupSock { attach_type });
    }
    match address_call(piece) {
        Some(attach_type) => Some(ProgramSection::CgroupSockAddr { attach_type }),
        None => None,
    }
}

/// The kinds that the first two pieces say.
#[tactic(auto, unfolding(crate::specs::ProgramTypes::pair_sections))]
fn two_pieces(first: &str, second: Option<&str>) -> Option<ProgramSection>
    ensures { result ≡ two_pieces first.now (option_copied second.entry) }
{
    match (first, second) {
        ("xdp", None) => Some(ProgramSection::Xdp {
            frags: false,
            attach_type: XdpAttachType::Interface,
        }),
        ("xdp", Some(piece)) => xdp(false, piece),
        ("xdp.frags", None) => Some(ProgramSection::Xdp {
            frags: true,
            attach_type: XdpAttachType::Interface,
        }),
        ("xdp.frags", Some(piece)) => xdp(true, piece),
        ("sk_reuseport", None) => Some(ProgramSection::SkReuseport {
            attach_type: SkReuseportAttachType::Select,
        }),
        ("sk_reuseport", Some(piece)) => sk_reuseport(piece),
        ("sk_skb", Some(piece)) => sk_skb(piece),
        ("cgroup_skb", Some(piece)) => cgroup_skb(piece),
        ("cgroup", Some(piece)) => cgroup(piece),
        _ => None,
    }
}

/// The kind that a name says.
pub(crate) fn program_section(name: &str) -> Option<ProgramSection>
    ensures { result ≡ program_section name.now }
{
    let first = first_piece(name);
    match one_piece(first) {
        Some(section) => Some(section),
        None => two_pieces(first, second_piece(name)),
    }
}
