//! The lines that say what is measured.

/// A call, what it is called on, a size, and how many times.
#[derive(Clone, Copy)]
pub struct Line<'t> {
    pub call: &'t str,
    pub text: &'t str,
    pub size: usize,
    pub times: u32,
}

/// What a line says; nothing where it isn't four words, the last two of which are numbers.
pub fn line_of(line: &str) -> Option<Line<'_>> {
    let mut words = line.split_whitespace();
    Some(Line {
        call: words.next()?,
        text: words.next()?,
        size: words.next()?.parse().ok()?,
        times: words.next()?.parse().ok()?,
    })
}
