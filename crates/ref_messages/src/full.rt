//! Messages as text for people, with the line of the file that each is about.
use crate::excerpt::Excerpt;
use crate::message::{Level, Message};
use crate::plain::{is_hidden, push_escape};
use crate::text::{push_head, push_rest};
use std::alloc::AllocError;
use unicode_width::UnicodeWidthChar;

/// How parts of a message are set off on a terminal.
#[derive(Clone, Copy, Drop, PartialEq, Eq)]
pub enum Color {
    /// By colours, as terminals have them (ECMA-48, 8.3.117).
    Ansi,
    /// Not at all.
    None,
}

/// Adds a message as [`push_text`](crate::push_text) has it, with the line of the file after its first line, and a mark below the part that it is about.
pub fn push_full(out: &mut String, message: &Message<'_>, color: Color) -> Result<(), AllocError> {
    push_head(out, message, color)?;
    if let Some(excerpt) = &message.excerpt {
        push_excerpt(out, message, excerpt, color)?;
    }
    push_rest(out, message)
}

fn push_excerpt(
    out: &mut String,
    message: &Message<'_>,
    excerpt: &Excerpt<'_>,
    color: Color,
) -> Result<(), AllocError> {
    let gutter = digits_of(message.line);
    push_gutter(out, gutter, None, color)?;
    out.push('\n')?;
    push_gutter(out, gutter, Some(message.line), color)?;
    out.push(' ')?;
    push_line(out, excerpt)?;
    push_gutter(out, gutter, None, color)?;
    out.push(' ')?;
    push_mark(out, excerpt, message.level, color)
}

fn push_line(out: &mut String, excerpt: &Excerpt<'_>) -> Result<(), AllocError> {
    if excerpt.is_begun {
        out.push_str("..")?;
    }
    push_shown(out, excerpt.before)?;
    push_shown(out, excerpt.marked)?;
    push_shown(out, excerpt.after)?;
    out.push('\n')
}

fn push_mark(
    out: &mut String,
    excerpt: &Excerpt<'_>,
    level: Level,
    color: Color,
) -> Result<(), AllocError> {
    let begun = if excerpt.is_begun { 2 } else { 0 };
    push_times(out, ' ', width_of(excerpt.before).saturating_add(begun))?;
    color.begin(out, code_of(level))?;
    push_times(out, '^', width_of(excerpt.marked).max(1))?;
    color.end(out)?;
    out.push('\n')
}

// Adds what is before a line of the file, or in its place.
fn push_gutter(
    out: &mut String,
    digits: usize,
    line: Option<usize>,
    color: Color,
) -> Result<(), AllocError> {
    color.begin(out, FRAME)?;
    match line {
        Some(line) => write!(out, " {line} |")?,
        None => {
            push_times(out, ' ', digits.saturating_add(2))?;
            out.push('|')?;
        }
    }
    color.end(out)
}

fn digits_of(number: usize) -> usize {
    let mut rest = number / 10;
    let mut digits: usize = 1;
    for _ in 0..20 {
        if rest > 0 {
            rest = rest / 10;
            digits = digits.saturating_add(1);
        }
    }
    digits
}

fn push_times(out: &mut String, c: char, times: usize) -> Result<(), AllocError> {
    for _ in 0..times {
        out.push(c)?;
    }
    Ok(())
}

// Adds a part of a line, a tab as a space, and what a terminal would act upon as an escape.
fn push_shown(out: &mut String, text: &str) -> Result<(), AllocError> {
    for c in text.chars() {
        match c {
            '\t' => out.push(' ')?,
            _ if is_hidden(c) => push_escape(out, c)?,
            _ => out.push(c)?,
        }
    }
    Ok(())
}

// How many columns a part of a line takes as it is shown.
fn width_of(text: &str) -> usize {
    let mut width: usize = 0;
    for c in text.chars() {
        width = width.saturating_add(match c {
            '\t' => 1,
            _ if is_hidden(c) => width_of_escape(c),
            _ => c.width().unwrap_or(1),
        });
    }
    width
}

// How many columns an escape takes.
fn width_of_escape(c: char) -> usize {
    match c {
        '\n' | '\r' => 2,
        '\u{0}'..='\u{f}' => 5,
        '\u{10}'..='\u{ff}' => 6,
        _ => 8,
    }
}

// The codes of colours, and of what is bold.
const FRAME: &str = "34";

pub(crate) const BOLD: &str = "1";

/// The code of the colour of a level.
pub(crate) fn code_of(level: Level) -> &'static str {
    match level {
        Level::Error => "1;31",
        Level::Warning => "1;33",
        Level::Note => "1;36",
    }
}

impl Color {
    /// Adds what begins a part that is set off so.
    pub(crate) fn begin(self, out: &mut String, code: &str) -> Result<(), AllocError> {
        match self {
            Color::Ansi => write!(out, "\u{1b}[{code}m"),
            Color::None => Ok(()),
        }
    }

    /// Adds what ends it.
    pub(crate) fn end(self, out: &mut String) -> Result<(), AllocError> {
        match self {
            Color::Ansi => out.push_str("\u{1b}[0m"),
            Color::None => Ok(()),
        }
    }
}
