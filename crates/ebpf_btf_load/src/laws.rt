//! Theorems about the types for the kernel.

ghost use Rattle.ebpf_btf_load.specs.KernelTypes.{FunctionLinkagesAreStated, KernelTypesAreRead, OtherTypesStay, StandinsAreLast, TypesKeepIds};

/// The result of `kernel_types` is read by `Btf::parse`.
///
/// - Types: the types of the file's `.BTF` with the changes of `types_changes`, and the appended types behind them.
/// - Strings: the strings of the file, and the names of the appended types behind them.
/// - Linkage of a FUNC, which no type says: as in the file. A function that `.ksyms` names is global, and a hidden
///   function is static.
pub fn kernel_types_are_read()
    ensures types { KernelTypesAreRead }
    ensures linkages { FunctionLinkagesAreStated }
{}

/// Each type of the file keeps its id among the types for the kernel.
///
/// The changes of its id alone decide its new value. Types other than DATASECs, VARs and FUNC_PROTOs stay. The appended
/// types are behind them, and no others.
pub fn types_keep_ids()
    ensures changed { TypesKeepIds }
    ensures others { OtherTypesStay }
    ensures appended { StandinsAreLast }
{}
