//! The ways of attaching a program, by their numbers.

ghost use Rattle.std.specs.Prelude.{◌≡◌};
ghost use Rattle.ebpf_parts.specs.ProgramTypes.{attach_type_number, cgroup_skb_attach_type, cgroup_sock_attach_type, cgroup_sock_addr_attach_type, cgroup_sockopt_attach_type, sk_reuseport_attach_type, sk_skb_attach_type, xdp_attach_type};

/// The ways of attaching a program that a section's name can state, with the kernel's names and numbers (its
/// `enum bpf_attach_type`).
#[derive(Clone, Copy, Debug, PartialEq, Eq)]
pub enum bpf_attach_type {
    BPF_CGROUP_INET_INGRESS = 0,
    BPF_CGROUP_INET_EGRESS = 1,
    BPF_CGROUP_INET_SOCK_CREATE = 2,
    BPF_CGROUP_SOCK_OPS = 3,
    BPF_SK_SKB_STREAM_PARSER = 4,
    BPF_SK_SKB_STREAM_VERDICT = 5,
    BPF_CGROUP_DEVICE = 6,
    BPF_SK_MSG_VERDICT = 7,
    BPF_CGROUP_INET4_BIND = 8,
    BPF_CGROUP_INET6_BIND = 9,
    BPF_CGROUP_INET4_CONNECT = 10,
    BPF_CGROUP_INET6_CONNECT = 11,
    BPF_CGROUP_INET4_POST_BIND = 12,
    BPF_CGROUP_INET6_POST_BIND = 13,
    BPF_CGROUP_UDP4_SENDMSG = 14,
    BPF_CGROUP_UDP6_SENDMSG = 15,
    BPF_LIRC_MODE2 = 16,
    BPF_FLOW_DISSECTOR = 17,
    BPF_CGROUP_SYSCTL = 18,
    BPF_CGROUP_UDP4_RECVMSG = 19,
    BPF_CGROUP_UDP6_RECVMSG = 20,
    BPF_CGROUP_GETSOCKOPT = 21,
    BPF_CGROUP_SETSOCKOPT = 22,
    BPF_TRACE_RAW_TP = 23,
    BPF_TRACE_FENTRY = 24,
    BPF_TRACE_FEXIT = 25,
    BPF_MODIFY_RETURN = 26,
    BPF_LSM_MAC = 27,
    BPF_TRACE_ITER = 28,
    BPF_CGROUP_INET4_GETPEERNAME = 29,
    BPF_CGROUP_INET6_GETPEERNAME = 30,
    BPF_CGROUP_INET4_GETSOCKNAME = 31,
    BPF_CGROUP_INET6_GETSOCKNAME = 32,
    BPF_XDP_DEVMAP = 33,
    BPF_CGROUP_INET_SOCK_RELEASE = 34,
    BPF_XDP_CPUMAP = 35,
    BPF_SK_LOOKUP = 36,
    BPF_XDP = 37,
    BPF_SK_SKB_VERDICT = 38,
    BPF_SK_REUSEPORT_SELECT = 39,
    BPF_SK_REUSEPORT_SELECT_OR_MIGRATE = 40,
    BPF_TRACE_KPROBE_MULTI = 42,
    BPF_LSM_CGROUP = 43,
    BPF_NETFILTER = 45,
    BPF_TCX_INGRESS = 46,
    BPF_TCX_EGRESS = 47,
    BPF_TRACE_UPROBE_MULTI = 48,
    BPF_CGROUP_UNIX_CONNECT = 49,
    BPF_CGROUP_UNIX_SENDMSG = 50,
    BPF_CGROUP_UNIX_RECVMSG = 51,
    BPF_CGROUP_UNIX_GETPEERNAME = 52,
    BPF_CGROUP_UNIX_GETSOCKNAME = 53,
    BPF_NETKIT_PRIMARY = 54,
    BPF_NETKIT_PEER = 55,
    BPF_TRACE_KPROBE_SESSION = 56,
}

impl bpf_attach_type {
    /// The kernel's number.
    #[tactic(auto, unfolding(crate::specs::ProgramTypes::attach_type_number))]
    pub fn number(self) -> u32
        ensures { result ≡ attach_type_number self }
    {
        self as u32
    }
}

/// Where a program for packets of a control group is attached.
#[derive(Clone, Copy, Debug, PartialEq, Eq)]
pub enum CgroupSkbAttachType {
    /// `BPF_CGROUP_INET_INGRESS`.
    Ingress,
    /// `BPF_CGROUP_INET_EGRESS`.
    Egress,
}

impl From<CgroupSkbAttachType> for bpf_attach_type {
    ghost from_gives = { λ attached number. number ≡ cgroup_skb_attach_type attached };

    fn from(attached: CgroupSkbAttachType) -> bpf_attach_type {
        match attached {
            CgroupSkbAttachType::Ingress => bpf_attach_type::BPF_CGROUP_INET_INGRESS,
            CgroupSkbAttachType::Egress => bpf_attach_type::BPF_CGROUP_INET_EGRESS,
        }
    }
}

/// Which event of a control group's sockets a program is attached to.
#[derive(Clone, Copy, Debug, Default, PartialEq, Eq)]
pub enum CgroupSockAttachType {
    /// `BPF_CGROUP_INET4_POST_BIND`.
    PostBind4,
    /// `BPF_CGROUP_INET6_POST_BIND`.
    PostBind6,
    /// `BPF_CGROUP_INET_SOCK_CREATE`.
    #[default]
    SockCreate,
    /// `BPF_CGROUP_INET_SOCK_RELEASE`.
    SockRelease,
}

impl From<CgroupSockAttachType> for bpf_attach_type {
    ghost from_gives = { λ attached number. number ≡ cgroup_sock_attach_type attached };

    fn from(attached: CgroupSockAttachType) -> bpf_attach_type {
        match attached {
            CgroupSockAttachType::PostBind4 => bpf_attach_type::BPF_CGROUP_INET4_POST_BIND,
            CgroupSockAttachType::PostBind6 => bpf_attach_type::BPF_CGROUP_INET6_POST_BIND,
            CgroupSockAttachType::SockCreate => bpf_attach_type::BPF_CGROUP_INET_SOCK_CREATE,
            CgroupSockAttachType::SockRelease => bpf_attach_type::BPF_CGROUP_INET_SOCK_RELEASE,
        }
    }
}

/// Which call with a socket address a program of a control group is attached to.
#[derive(Clone, Copy, Debug, PartialEq, Eq)]
pub enum CgroupSockAddrAttachType {
    /// `BPF_CGROUP_INET4_BIND`.
    Bind4,
    /// `BPF_CGROUP_INET6_BIND`.
    Bind6,
    /// `BPF_CGROUP_INET4_CONNECT`.
    Connect4,
    /// `BPF_CGROUP_INET6_CONNECT`.
    Connect6,
    /// `BPF_CGROUP_INET4_GETPEERNAME`.
    GetPeerName4,
    /// `BPF_CGROUP_INET6_GETPEERNAME`.
    GetPeerName6,
    /// `BPF_CGROUP_INET4_GETSOCKNAME`.
    GetSockName4,
    /// `BPF_CGROUP_INET6_GETSOCKNAME`.
    GetSockName6,
    /// `BPF_CGROUP_UDP4_SENDMSG`.
    UDPSendMsg4,
    /// `BPF_CGROUP_UDP6_SENDMSG`.
    UDPSendMsg6,
    /// `BPF_CGROUP_UDP4_RECVMSG`.
    UDPRecvMsg4,
    /// `BPF_CGROUP_UDP6_RECVMSG`.
    UDPRecvMsg6,
}

impl From<CgroupSockAddrAttachType> for bpf_attach_type {
    ghost from_gives = { λ attached number. number ≡ cgroup_sock_addr_attach_type attached };

    fn from(attached: CgroupSockAddrAttachType) -> bpf_attach_type {
        match attached {
            CgroupSockAddrAttachType::Bind4 => bpf_attach_type::BPF_CGROUP_INET4_BIND,
            CgroupSockAddrAttachType::Bind6 => bpf_attach_type::BPF_CGROUP_INET6_BIND,
            CgroupSockAddrAttachType::Connect4 => bpf_attach_type::BPF_CGROUP_INET4_CONNECT,
            CgroupSockAddrAttachType::Connect6 => bpf_attach_type::BPF_CGROUP_INET6_CONNECT,
            CgroupSockAddrAttachType::GetPeerName4 => bpf_attach_type::BPF_CGROUP_INET4_GETPEERNAME,
            CgroupSockAddrAttachType::GetPeerName6 => bpf_attach_type::BPF_CGROUP_INET6_GETPEERNAME,
            CgroupSockAddrAttachType::GetSockName4 => bpf_attach_type::BPF_CGROUP_INET4_GETSOCKNAME,
            CgroupSockAddrAttachType::GetSockName6 => bpf_attach_type::BPF_CGROUP_INET6_GETSOCKNAME,
            CgroupSockAddrAttachType::UDPSendMsg4 => bpf_attach_type::BPF_CGROUP_UDP4_SENDMSG,
            CgroupSockAddrAttachType::UDPSendMsg6 => bpf_attach_type::BPF_CGROUP_UDP6_SENDMSG,
            CgroupSockAddrAttachType::UDPRecvMsg4 => bpf_attach_type::BPF_CGROUP_UDP4_RECVMSG,
            CgroupSockAddrAttachType::UDPRecvMsg6 => bpf_attach_type::BPF_CGROUP_UDP6_RECVMSG,
        }
    }
}

/// Which call on a socket's options a program of a control group is attached to.
#[derive(Clone, Copy, Debug, PartialEq, Eq)]
pub enum CgroupSockoptAttachType {
    /// `BPF_CGROUP_GETSOCKOPT`.
    Get,
    /// `BPF_CGROUP_SETSOCKOPT`.
    Set,
}

impl From<CgroupSockoptAttachType> for bpf_attach_type {
    ghost from_gives = { λ attached number. number ≡ cgroup_sockopt_attach_type attached };

    fn from(attached: CgroupSockoptAttachType) -> bpf_attach_type {
        match attached {
            CgroupSockoptAttachType::Get => bpf_attach_type::BPF_CGROUP_GETSOCKOPT,
            CgroupSockoptAttachType::Set => bpf_attach_type::BPF_CGROUP_SETSOCKOPT,
        }
    }
}

/// Whether a program that chooses a socket of a group also migrates requests.
#[derive(Clone, Copy, Debug, PartialEq, Eq)]
pub enum SkReuseportAttachType {
    /// `BPF_SK_REUSEPORT_SELECT`.
    Select,
    /// `BPF_SK_REUSEPORT_SELECT_OR_MIGRATE`.
    SelectOrMigrate,
}

impl From<SkReuseportAttachType> for bpf_attach_type {
    ghost from_gives = { λ attached number. number ≡ sk_reuseport_attach_type attached };

    fn from(attached: SkReuseportAttachType) -> bpf_attach_type {
        match attached {
            SkReuseportAttachType::Select => bpf_attach_type::BPF_SK_REUSEPORT_SELECT,
            SkReuseportAttachType::SelectOrMigrate =>
                bpf_attach_type::BPF_SK_REUSEPORT_SELECT_OR_MIGRATE,
        }
    }
}

/// Which part of a socket's stream a program is attached to.
#[derive(Clone, Copy, Debug, PartialEq, Eq)]
pub enum SkSkbKind {
    /// `BPF_SK_SKB_STREAM_PARSER`.
    StreamParser,
    /// `BPF_SK_SKB_STREAM_VERDICT`.
    StreamVerdict,
}

impl From<SkSkbKind> for bpf_attach_type {
    ghost from_gives = { λ attached number. number ≡ sk_skb_attach_type attached };

    fn from(attached: SkSkbKind) -> bpf_attach_type {
        match attached {
            SkSkbKind::StreamParser => bpf_attach_type::BPF_SK_SKB_STREAM_PARSER,
            SkSkbKind::StreamVerdict => bpf_attach_type::BPF_SK_SKB_STREAM_VERDICT,
        }
    }
}

/// Where an XDP program is attached.
#[derive(Clone, Copy, Debug, PartialEq, Eq)]
pub enum XdpAttachType {
    /// `BPF_XDP`.
    Interface,
    /// `BPF_XDP_CPUMAP`.
    CpuMap,
    /// `BPF_XDP_DEVMAP`.
    DevMap,
}

impl From<XdpAttachType> for bpf_attach_type {
    ghost from_gives = { λ attached number. number ≡ xdp_attach_type attached };

    fn from(attached: XdpAttachType) -> bpf_attach_type {
        match attached {
            XdpAttachType::Interface => bpf_attach_type::BPF_XDP,
            XdpAttachType::CpuMap => bpf_attach_type::BPF_XDP_CPUMAP,
            XdpAttachType::DevMap => bpf_attach_type::BPF_XDP_DEVMAP,
        }
    }
}
