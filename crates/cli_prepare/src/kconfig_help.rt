//! Refusals of kconfig externs, in words.

use crate::kconfig_values::number_by_version;
use crate::prepared::PrepareWords;
use cli_common::refusal::{FileRefusal, help_of};
use cli_common::refuse::{Stop, refused};
use ebpf_kconfig::KconfigError;
use std::alloc::{AllocError, Global};

/// The help on an extern of a name that has no value; `has_config` where a configuration is given.
fn value_help(name: &str, has_config: bool) -> &'static str {
    if number_by_version(0, name).is_some() {
        return "--kernel 6.12";
    }
    if !name.starts_with("CONFIG_") {
        return "no loader gives it a value: declare it `__weak`";
    }
    if has_config {
        return "this configuration doesn't set it: declare it `__weak`";
    }
    "--kconfig /boot/config-6.12"
}

/// The help on an extern whose value doesn't suit its type.
fn suiting_help(name: &str) -> &'static str {
    if name.starts_with("CONFIG_") {
        "declare it with the type that the configuration's value has: what may be `m` is an `enum libbpf_tristate`"
    } else {
        "declare it as an integer"
    }
}

/// The help on externs that can't be defined.
fn kconfig_help(error: &KconfigError, has_config: bool) -> Option<&'static str> {
    Some(match error {
        KconfigError::NotAVariable { .. } =>
            "declare it as a variable with `__kconfig`, not as a function",
        KconfigError::UnreadableName { .. } =>
            "the type information is damaged: look at it with `bpftool btf dump file FILE`",
        KconfigError::UnknownName { .. } =>
            "name it as the kernel's configuration does, or as a value that loaders know",
        KconfigError::UnsupportedType { .. } =>
            "declare it as `bool`, `enum libbpf_tristate`, `char`, an integer or `char NAME[N]`",
        KconfigError::NoValue { name } => value_help(name.as_str(), has_config),
        KconfigError::TooLarge => "declare shorter arrays of char",
        KconfigError::UnsuitedValue { name } => suiting_help(name.as_str()),
        KconfigError::ValueOutOfRange { .. } => "declare it with a larger integer, or a signed one",
        KconfigError::WrongSize { .. } | KconfigError::OutOfMemory => return None,
    })
}

/// The sentence of an error.
fn sentence_of(alloc: Global, error: &KconfigError) -> Result<String, AllocError> {
    let KconfigError::NoValue { name } = error else {
        return format!(in alloc; "{error}");
    };
    let name = name.as_str();
    format!(in alloc; "no value for the strong extern {name}")
}

/// The refusal of an object's kconfig externs.
fn refusal_of(
    alloc: Global,
    error: &KconfigError,
    has_config: bool,
) -> Result<FileRefusal, AllocError> {
    Ok(FileRefusal {
        stage: "kconfig",
        variant: error.variant_name(),
        text: sentence_of(alloc, error)?,
        help: help_of(alloc, kconfig_help(error, has_config))?,
    })
}

/// Reports that the kconfig externs of an object can't be defined; gives the reason to stop.
pub fn refuse_settings(rt: &HostRuntime, words: &PrepareWords, error: &KconfigError) -> Stop {
    if matches!(error, KconfigError::OutOfMemory) {
        return Stop::Memory;
    }
    match refusal_of(rt.alloc(), error, words.kconfig.is_some()) {
        Ok(refusal) => refused(rt, words.json, words.file.as_str(), &refusal, 1),
        Err(_) => Stop::Memory,
    }
}
