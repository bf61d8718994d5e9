//! The progress of long work, on standard error.

use cli_common::names::{EscapedName, last_part};
use std::io::IsTerminal;
use std::time::{Duration, Instant};

/// The form of a progress line.
#[derive(Clone, Copy, PartialEq, Eq)]
enum ProgressForm {
    /// There is none.
    Absent,
    /// One line of a terminal, which is written again and again.
    InPlace,
    /// A line each second.
    Lines,
}

/// The progress of work over kernels, so far.
#[derive(Clone, Copy)]
pub struct KernelProgress<'a> {
    /// The number of kernels that are done.
    pub done: usize,
    /// The number of all.
    pub all: usize,
    /// The number of those on which some program breaks.
    pub broken: usize,
    /// The path of the one that is judged now.
    pub current: &'a str,
}

/// A line that shows the progress of work which takes more than a second.
#[derive(Clone, Copy)]
pub struct ProgressLine {
    form: ProgressForm,
    /// The start of the work, or the time of the last of several lines; none where the clock can't be read.
    since: Option<Instant>,
    /// Whether the line is on the terminal.
    is_shown: bool,
}

/// The form of progress lines: that of standard error. Without a terminal there are lines where they are asked for.
fn form_of(rt: &HostRuntime, is_asked: bool) -> ProgressForm {
    if rt.stderr().is_terminal() {
        return ProgressForm::InPlace;
    }
    if is_asked {
        ProgressForm::Lines
    } else {
        ProgressForm::Absent
    }
}

/// The time, where the clock can be read.
fn now(rt: &HostRuntime) -> Option<Instant> {
    Instant::now(rt).ok()
}

/// Writes the line of a terminal, which is cut at its right edge.
fn show_in_place(rt: &HostRuntime, progress: KernelProgress<'_>) {
    let KernelProgress {
        done,
        all,
        broken,
        ..
    } = progress;
    let current = EscapedName(last_part(progress.current));
    let _ = eprint!(rt; "\r\x1b[?7l{done} of {all} kernels, {broken} break; now ");
    let _ = eprint!(rt; "{current}\x1b[K\x1b[?7h");
}

/// Writes one of several lines.
fn show_line(rt: &HostRuntime, progress: KernelProgress<'_>) {
    let KernelProgress {
        done,
        all,
        broken,
        ..
    } = progress;
    let current = EscapedName(progress.current);
    let _ = eprint!(rt; "ebpf: {done} of {all} kernels, {broken} break; now ");
    let _ = eprintln!(rt; "{current}");
}

impl ProgressLine {
    /// The line of work that begins now. Without a terminal it is only shown where it is asked for.
    pub fn new(rt: &HostRuntime, is_asked: bool) -> ProgressLine {
        ProgressLine {
            form: form_of(rt, is_asked),
            since: now(rt),
            is_shown: false,
        }
    }

    /// Whether the line is due: a second after the work began, or after the last of several lines.
    pub fn is_due(&self, rt: &HostRuntime) -> bool {
        if self.form == ProgressForm::Absent {
            return false;
        }
        match (self.since, now(rt)) {
            (Some(since), Some(now)) => now.duration_since(since) >= Duration::from_secs(1),
            _ => false,
        }
    }

    /// Shows the line.
    pub fn show(&mut self, rt: &HostRuntime, progress: KernelProgress<'_>) {
        match self.form {
            ProgressForm::Absent => {}
            ProgressForm::InPlace => {
                show_in_place(rt, progress);
                self.is_shown = true;
            }
            ProgressForm::Lines => {
                show_line(rt, progress);
                self.since = now(rt);
            }
        }
    }

    /// Takes the line off the terminal, so that other lines can be written.
    pub fn clear(&mut self, rt: &HostRuntime) {
        if self.is_shown {
            let _ = eprint!(rt; "\r\x1b[K");
        }
        self.is_shown = false;
    }
}
