//! What `ebpf check --json` prints.

use crate::session::{Judgement, KernelAnswer, Session};
use crate::verdict::Fate;
use crate::verdict::findings::{Finding, FindingKey, Severity, SourceLocation};
use cli_common::json::{JsonWriter, write_document};
use cli_common::kinds::Kind;
use std::io::{self, Write};

/// Writes the names of the programs that have a fate on a kernel.
fn write_fate<W: Write>(
    json: &mut JsonWriter<'_, W>,
    session: &Session,
    kernel: &KernelAnswer,
    key: &str,
    fate: Fate,
) -> io::Result<()> {
    json.array(key, |json| {
        for (number, program) in session.loaded.needs.programs.iter().enumerate() {
            if kernel.has_fate(number, fate) {
                json.value(program.name.as_str())?;
            }
        }
        Ok(())
    })
}

/// Writes a kernel: the names of the programs that break on it, and of those without a target, or why its types can't be
/// read.
fn write_kernel<W: Write>(
    json: &mut JsonWriter<'_, W>,
    session: &Session,
    kernel: &KernelAnswer,
) -> io::Result<()> {
    json.member("name", kernel.name.as_str())?;
    match &kernel.answer {
        Judgement::Judged(_) => {
            write_fate(json, session, kernel, "breaks", Fate::Breaks)?;
            if kernel.untargeted() == 0 {
                return Ok(());
            }
            write_fate(json, session, kernel, "no_target", Fate::NoTarget)
        }
        Judgement::Unread(refusal) => json.member("error", refusal.text.as_str()),
    }
}

/// Writes the names of the kernels of these numbers.
fn write_names<W: Write>(
    json: &mut JsonWriter<'_, W>,
    session: &Session,
    kernels: &[usize],
) -> io::Result<()> {
    json.array("kernels", |json| {
        for number in kernels {
            if let Some(kernel) = session.kernels.get(*number) {
                json.value(kernel.name.as_str())?;
            }
        }
        Ok(())
    })
}

/// Writes a place.
fn write_place<W: Write>(
    json: &mut JsonWriter<'_, W>,
    session: &Session,
    place: &SourceLocation,
) -> io::Result<()> {
    let program = match session.loaded.needs.programs.get(place.program) {
        Some(program) => program.name.as_str(),
        None => "",
    };
    json.member("program", program)?;
    if let Some(slot) = place.slot {
        json.member("slot", slot)?;
    }
    if let Some((function, slot)) = &place.within {
        json.member("function", function.as_str())?;
        json.member("function_slot", *slot)?;
    }
    if let Some(line) = &place.line {
        json.member("file", line.file.as_str())?;
        json.member("line", line.number)?;
    }
    write_names(json, session, &place.kernels)
}

/// Writes the subject of a finding, and what is asked of it.
fn write_topic<W: Write>(
    json: &mut JsonWriter<'_, W>,
    topic: &FindingKey,
    kind: Kind,
) -> io::Result<()> {
    json.member("name", topic.name.as_str())?;
    json.member("kind", kind.word())
}

/// Writes what is absent or refused, with all that is asked of it, the first also by itself.
fn write_found<W: Write>(
    json: &mut JsonWriter<'_, W>,
    session: &Session,
    topic: &FindingKey,
    found: &Finding,
) -> io::Result<()> {
    let kind = found.kinds.first().copied().unwrap_or(topic.kind);
    write_topic(json, topic, kind)?;
    json.values("kinds", found.kinds.iter().map(|kind| kind.word()))?;
    json.member("reason", topic.reason.as_str())?;
    write_names(json, session, &found.kernels)?;
    json.objects("places", found.places.values(), |json, place| {
        write_place(json, session, place)
    })
}

/// Writes a value, which may have a sign.
fn write_value<W: Write>(
    json: &mut JsonWriter<'_, W>,
    key: &str,
    is_signed: bool,
    value: u64,
) -> io::Result<()> {
    if is_signed {
        json.member(key, value.cast_signed())
    } else {
        json.member(key, value)
    }
}

/// Writes what has other values than in the object.
fn write_changed<W: Write>(
    json: &mut JsonWriter<'_, W>,
    session: &Session,
    topic: &FindingKey,
    found: &Finding,
) -> io::Result<()> {
    write_topic(json, topic, topic.kind)?;
    if let Some(own) = found.own {
        write_value(json, "own", topic.is_signed, own)?;
    }
    json.objects("values", found.values.iter(), |json, (value, kernels)| {
        write_value(json, "value", topic.is_signed, *value)?;
        write_names(json, session, kernels)
    })
}

/// Writes the findings of a severity.
fn write_severity<W: Write>(
    json: &mut JsonWriter<'_, W>,
    session: &Session,
    key: &str,
    severity: Severity,
) -> io::Result<()> {
    let findings = session
        .findings
        .by_key
        .iter()
        .filter(|(topic, _)| topic.severity == severity);
    json.objects(key, findings, |json, (topic, found)| match severity {
        Severity::Changed => write_changed(json, session, topic, found),
        _ => write_found(json, session, topic, found),
    })
}

/// Writes the findings over all kernels as one JSON object, on one line.
pub fn write_json<W: Write>(out: &mut W, session: &Session) -> io::Result<()> {
    let needs = &session.loaded.needs;
    write_document(out, |json| {
        json.member("file", session.file.as_str())?;
        json.member("status", u32::from(session.status()))?;
        json.objects("programs", needs.programs.iter(), |json, program| {
            json.member("name", program.name.as_str())?;
            json.member("section", program.section.as_str())
        })?;
        json.objects("kernels", session.kernels.iter(), |json, kernel| {
            write_kernel(json, session, kernel)
        })?;
        write_severity(json, session, "breaks", Severity::Breaks)?;
        if session.has(Severity::NoTarget) {
            write_severity(json, session, "no_target", Severity::NoTarget)?;
        }
        write_severity(json, session, "guarded", Severity::Guarded)?;
        write_severity(json, session, "changed", Severity::Changed)?;
        json.values("kconfig", needs.settings.iter().map(|name| name.as_str()))
    })
}
