//! Theorems about externs of the kernel's configuration.

ghost use Rattle.ebpf_kconfig.specs.KconfigMaps.{DataIsValueSized, PreparedIsFinished};
ghost use Rattle.ebpf_kconfig.specs.Layouts.{KconfigLayoutsAgree};

/// Where no value has a fault, the data of the map `.kconfig` are as long as the map's value.
#[tactic(auto, using(crate::proofs::DefinedSymbols::data_sized))]
pub fn data_is_value_sized()
    ensures { DataIsValueSized }
{}

/// The result of `prepare_object` and its neighbours on any object is finished in the same way as on a parsed object.
///
/// This holds also for an object whose variables, map sizes or kconfig values were set before. The premise `Stages` is
/// what the contracts of these functions state of each object that they return.
pub fn prepared_is_finished()
    ensures { PreparedIsFinished }
{}

/// An object's types for `BPF_BTF_LOAD` give each kconfig extern the offset that it has in the value of the map `.kconfig`,
/// and their DATASEC the size of that value.
///
/// Premises: no entry of the DATASEC has a fault, no two externs have one name, and each name is UTF-8.
pub fn kconfig_layouts_agree()
    ensures { KconfigLayoutsAgree }
{}
