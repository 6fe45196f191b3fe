//! Texts of files and names of files as they are printed for people: without what a terminal or a log would act upon.
use std::alloc::AllocError;
use std::fmt;

/// A text as it is printed for people. A control character, and a mark that turns the direction of what follows it, is
/// an escape: `\n`, `\r`, `\t`, or `\u{1b}`.
#[derive(Clone, Copy, Drop)]
pub struct Plain<'t>(pub &'t str);

impl fmt::Display for Plain<'_> {
    fn fmt<W: fmt::Write>(&self, f: &mut fmt::Formatter<W>) -> fmt::Result {
        let text = self.0;
        if !text.chars().any(is_hidden) {
            return f.write_str(text);
        }
        for c in text.chars() {
            match c {
                '\n' => f.write_str("\\n")?,
                '\r' => f.write_str("\\r")?,
                '\t' => f.write_str("\\t")?,
                _ if is_hidden(c) => write!(f, "\\u{{{:x}}}", c as u32)?,
                _ => f.write_char(c)?,
            }
        }
        Ok(())
    }
}

/// The name of a file that is no UTF-8: what isn't a letter, a digit or another mark of ASCII as `\xff`.
#[derive(Clone, Copy, Drop)]
pub struct PlainBytes<'t>(pub &'t [u8]);

impl fmt::Display for PlainBytes<'_> {
    fn fmt<W: fmt::Write>(&self, f: &mut fmt::Formatter<W>) -> fmt::Result {
        for byte in self.0 {
            if *byte >= b' ' && *byte < 0x7f {
                f.write_char(*byte as char)?;
            } else {
                write!(f, "\\x{:02x}", *byte)?;
            }
        }
        Ok(())
    }
}

/// Adds a character that isn't printed as it is, as [`Plain`] has it.
pub(crate) fn push_escape(out: &mut String, c: char) -> Result<(), AllocError> {
    match c {
        '\n' => out.push_str("\\n"),
        '\r' => out.push_str("\\r"),
        '\t' => out.push_str("\\t"),
        _ => write!(out, "\\u{{{:x}}}", c as u32),
    }
}

/// Whether a character isn't printed as it is: a control character, or a mark that turns the direction of what follows it.
pub(crate) fn is_hidden(c: char) -> bool {
    matches!(c, '\u{0}'..='\u{1f}' | '\u{7f}'..='\u{9f}' | '\u{202a}'..='\u{202e}' | '\u{2066}'..='\u{2069}')
}

/// Adds a text in JSON. What isn't printed as it is, is an escape of JSON, but for the breaks between its lines.
pub fn push_json(out: &mut String, text: &str) -> Result<(), AllocError> {
    for c in text.chars() {
        if is_hidden(c) && c != '\n' {
            write!(out, "\\u{:04x}", c as u32)?;
        } else {
            out.push(c)?;
        }
    }
    Ok(())
}
