//! Colours of text on a terminal.

ghost use Rattle.std.specs.Prelude.{◌≡◌, Bool, true, false};
ghost use Rattle.cli_output.specs.Styles.{style_end, style_start};
ghost use Rattle.cli_output.specs.declared.palette.ColorChoice.TheVariants.{Always, Never};

use std::env;
use std::io::{self, IsTerminal, Write};

/// The value of `--color`.
#[derive(Clone, Copy, PartialEq, Eq)]
pub enum ColorChoice {
    /// Colours on a terminal, unless the environment has `NO_COLOR`.
    Auto,
    /// Colours everywhere.
    Always,
    /// No colours.
    Never,
}

/// A style of text.
#[derive(Clone, Copy, PartialEq, Eq)]
pub enum TextStyle {
    /// Something that runs: green.
    Good,
    /// Something that breaks: red.
    Bad,
    /// Something that isn't known: yellow.
    Unsure,
    /// A heading: bold.
    Heading,
}

/// The styles of an output, which has colours or none.
#[derive(Clone, Copy)]
pub struct Palette {
    /// Whether the output has colours.
    has_colors: bool,
}

/// Whether the environment has a variable `NO_COLOR` that isn't empty. One that isn't UTF-8 counts too.
fn refuses_colors(rt: &HostRuntime) -> bool {
    match env::var(rt, "NO_COLOR") {
        Ok(value) => !value.is_empty(),
        Err(env::VarError::NotPresent) => false,
        Err(_) => true,
    }
}

impl Palette {
    /// The styles of the standard output.
    pub fn of(rt: &HostRuntime, choice: ColorChoice) -> Palette
        ensures always { choice ≡ Always → result.has_colors ≡ true }
        ensures never { choice ≡ Never → result.has_colors ≡ false }
    {
        let has_colors = match choice {
            ColorChoice::Always => true,
            ColorChoice::Never => false,
            ColorChoice::Auto => rt.stdout().is_terminal() && !refuses_colors(rt),
        };
        Palette { has_colors }
    }

    /// The start of text in a style: an escape sequence, or nothing without colours.
    #[tactic(auto, unfolding(crate::specs::Styles::style_start))]
    pub fn start(self, style: TextStyle) -> &'static str
        ensures { result.now ≡ style_start self.has_colors style }
    {
        if !self.has_colors {
            return "";
        }
        match style {
            TextStyle::Good => "\x1b[32m",
            TextStyle::Bad => "\x1b[31m",
            TextStyle::Unsure => "\x1b[33m",
            TextStyle::Heading => "\x1b[1m",
        }
    }

    /// The end of text in a style: an escape sequence, or nothing without colours.
    #[tactic(auto, unfolding(crate::specs::Styles::style_end))]
    pub fn end(self) -> &'static str
        ensures { result.now ≡ style_end self.has_colors }
    {
        if self.has_colors { "\x1b[0m" } else { "" }
    }

    /// Writes a text in a style.
    pub fn write<W: Write>(self, out: &mut W, style: TextStyle, text: &str) -> io::Result<()> {
        out.write_all(self.start(style).as_bytes())?;
        out.write_all(text.as_bytes())?;
        out.write_all(self.end().as_bytes())
    }
}
