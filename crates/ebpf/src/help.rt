//! The help texts of `ebpf`.

/// The usage line of `ebpf`.
pub const USAGE: &str =
    "usage: ebpf btf | check | inspect | link | list FILE ..   (see ebpf --help)";

/// The usage line of `ebpf check`.
pub const CHECK_USAGE: &str =
    "usage: ebpf check FILE [KERNEL ..] [--object N] [--program NAME ..] [--all] [--strict] [--format text | json | github] [--html FILE] [--sarif FILE] [--color WHEN] [--progress]";

/// What `ebpf --help` prints.
pub const HELP: &str = "usage: ebpf COMMAND ..
       ebpf --help | --version

  btf      write the least BTF that objects need of a kernel
  check    check on which kernels the programs of an object run
  inspect  show the parts of linked programs, and the kernel's limits
  link     print finished programs as instructions or bytes
  list     list the programs, maps, helpers, externs and CO-RE relocations of an object

Run ebpf COMMAND --help for the options of a command.";

/// What `ebpf check --help` prints after the usage line.
pub const CHECK_HELP: &str = "
Reports the kernels on which the programs of an eBPF object file break, and why: the
fields, types and enumerators that they need and the kernel lacks.

  FILE            an object file of clang, or an executable that contains objects
  --object N      select the Nth object of FILE
  KERNEL          the BTF of a kernel: raw BTF, an ELF file with a .BTF section, or a
                  folder of such files; default: /sys/kernel/btf/vmlinux
  --program NAME  check this program only; may be repeated
  --all           list every kernel, and each field whose offset changes
  --strict        exit with 1 also if the kernel has no type of a program's attach target
  --html FILE     write a page with programs by kernels and the reasons to FILE
  --sarif FILE    write what breaks, by source line, to FILE as SARIF 2.1.0
  --format FORM   print text, json, or github: annotations for GitHub's workflows
  -j, --json      print JSON, as --format json
  --color WHEN    use colours: auto (on a terminal, unless NO_COLOR is set), always, never
  --progress      show the progress on standard error, also if that is no terminal
  -h, --help      print this help
  -V, --version   print the version

Exit status: 0 if each program runs on each kernel; 1 if a program breaks, or FILE is
refused; 2 on invalid usage, or if a file or a kernel's BTF can't be read.";

/// The usage line of `ebpf btf`.
pub const BTF_USAGE: &str =
    "usage: ebpf btf FILE .. --btf KERNEL --output FILE [--object N] [--allow-ids] [--json]";

/// What `ebpf btf --help` prints after the usage line.
pub const BTF_HELP: &str = "
Writes the least BTF that eBPF object files need of a kernel: the types, members and
enumerators that their CO-RE relocations ask for. Each relocation has the same outcome
as over the kernel's BTF. Loaders take the file in its place, as libbpf's
btf_custom_path.

  FILE            an object file of clang, or an executable that contains objects
  --btf KERNEL    the BTF of a kernel: raw BTF, an ELF file with a .BTF section, or a
                  folder of such files
  --output FILE   the file to write, or with a folder of kernels the folder for files of
                  the same names
  --object N      select the Nth object of FILE; default: all objects of FILE
  --allow-ids     write the file even if FILE needs ids of the kernel's types, which
                  are others in it
  -j, --json      print JSON
  -h, --help      print this help
  -V, --version   print the version

Exit status: 0; 1 if FILE is refused, or needs ids of the kernel's types; 2 on invalid
usage, if a file or a kernel's BTF can't be read, or if a file can't be written.";

/// The usage line of `ebpf list`.
pub const LIST_USAGE: &str =
    "usage: ebpf list FILE [--object N] [--html FILE] [--json] [--color WHEN]";

/// What `ebpf list --help` prints after the usage line.
pub const LIST_HELP: &str = "
Lists the contents of an eBPF object file: its programs with their sizes before and
after linking, its maps, the helper functions that its programs call, its externs, its
kconfig externs, its CO-RE relocations, and the functions that no program reaches.

  FILE            an object file of clang, or an executable that contains objects
  --object N      select the Nth object of FILE
  --html FILE     write a page with the same contents to FILE
  -j, --json      print JSON
  --color WHEN    use colours: auto (on a terminal, unless NO_COLOR is set), always, never
  -h, --help      print this help
  -V, --version   print the version

Exit status: 0; 1 if FILE is refused; 2 on invalid usage, or if FILE can't be read.";

/// The usage line of `ebpf inspect`.
pub const INSPECT_USAGE: &str =
    "usage: ebpf inspect FILE [--object N] [--btf FILE] [--kallsyms FILE] [--kconfig FILE] [--kernel VERSION] [--program NAME ..] [--dot | --json | --mermaid] [--color WHEN]";

/// What `ebpf inspect --help` prints after the usage line.
pub const INSPECT_HELP: &str = "
Shows the parts of the linked programs of an eBPF object file: the copies of functions,
the references between them, the maps, helper functions and kernel functions that they
use, and how close they are to the kernel's limits.

  FILE              an object file of clang, or an executable that contains objects
  --object N        select the Nth object of FILE
  --btf FILE        the kernel's BTF: raw, or an ELF file with a .BTF section
  --kallsyms FILE   the kernel's symbols, in the form of /proc/kallsyms
  --kconfig FILE    the kernel's configuration, such as /boot/config-6.12
  --kernel VERSION  the kernel's version, such as 6.12 or 6.12.3
  --program NAME    show this program only; may be repeated
  --dot             print the graph of functions and maps for Graphviz
  --mermaid         print it as a flowchart of Mermaid
  -j, --json        print JSON
  --color WHEN      use colours: auto (on a terminal, unless NO_COLOR is set), always, never
  -h, --help        print this help
  -V, --version     print the version

Exit status: 0; 1 if FILE is refused; 2 on invalid usage, if FILE lacks a named program,
or if a file can't be read.";

/// The usage line of `ebpf link`.
pub const LINK_USAGE: &str =
    "usage: ebpf link FILE [--object N] [--btf FILE] [--kallsyms FILE] [--kconfig FILE] [--kernel VERSION] [--program NAME ..] [--bytes] [--lines] [--color WHEN]";

/// What `ebpf link --help` prints after the usage line.
pub const LINK_HELP: &str = "
Prints the finished programs of an eBPF object file as instructions: each is linked
with the functions that it reaches, relocated to a kernel's types, and has its map
descriptors and externs written. Notes name what was called, loaded and relocated.

  FILE              an object file of clang, or an executable that contains objects
  --object N        select the Nth object of FILE
  --btf FILE        the kernel's BTF: raw, or an ELF file with a .BTF section
  --kallsyms FILE   the kernel's symbols, in the form of /proc/kallsyms
  --kconfig FILE    the kernel's configuration, such as /boot/config-6.12
  --kernel VERSION  the kernel's version, such as 6.12 or 6.12.3
  --program NAME    print this program only; may be repeated
  --bytes           print the bytes of each instruction
  --lines           print source lines above the instructions
  --color WHEN      use colours: auto (on a terminal, unless NO_COLOR is set), always, never
  -h, --help        print this help
  -V, --version     print the version

Exit status: 0; 1 if FILE is refused; 2 on invalid usage, if FILE lacks a named program,
or if a file can't be read.";

/// What `ebpf --version` prints.
pub const VERSION: &str = "ebpf 0.4.0";
