//! Which parts of a scalar of several lines an item of completion edits.
ghost use Rattle.std.specs.Prelude.{◌≡◌};
ghost use Rattle.ref_lsp.specs.Lines as spec;

/// The parts, by offsets: what is replaced is between `start` and `end`, on one line; what is taken away is before it, from `from` on, and after it, up
/// to `to`.
#[derive(Clone, Copy)]
pub struct Edits {
    /// Where the scalar begins.
    pub from: usize,
    /// Where what is replaced begins.
    pub start: usize,
    /// Where it ends.
    pub end: usize,
    /// Where the scalar ends, without white space after it.
    pub to: usize,
}

/// Those of a scalar between two offsets of a text, which is asked about at an offset in it. One of a single line is replaced as a whole.
pub fn edits_at(text: &str, start: usize, end: usize, offset: usize) -> Edits {
    let token = text.get(start..end).unwrap_or("");
    let (Some(front), Some(rest)) = (text.get(start..offset), text.get(offset..end)) else {
        return whole(start, end);
    };
    if !token.contains('\n') {
        return whole(start, end);
    }
    let first = offset.saturating_sub(since_line(front.as_bytes()));
    let last = offset.saturating_add(up_to_line(rest.as_bytes()));
    Edits {
        from: start,
        start: first,
        end: last,
        to: last.max(start.saturating_add(token.trim_end().len())),
    }
}

fn whole(start: usize, end: usize) -> Edits {
    Edits {
        from: start,
        start,
        end,
        to: end,
    }
}

/// What a text has on its last line, after the blanks that this begins with.
pub fn last_line(text: &str) -> &str {
    let start = text.len().saturating_sub(since_line(text.as_bytes()));
    text.get(start..).unwrap_or("")
}

fn is_blank(byte: u8) -> bool
    ensures { result ≡ spec.is_blank byte }
{
    byte == b' ' || byte == b'\t'
}

// How many bytes a text has on its last line, after the blanks that this begins with.
fn since_line(text: &[u8]) -> usize
    ensures { result ≡ spec.since_line 0 text.now }
{
    let mut rest = text;
    let mut count: usize = 0;
    'bytes: while let [byte, more @ ..] = rest {
        if *byte == b'\n' || count == 0 && is_blank(*byte) {
            count = 0;
        } else {
            count += 1;
        }
        rest = more;
    }
    count
}

// How many bytes a text has on its first line, before the blanks that this ends with.
fn up_to_line(text: &[u8]) -> usize
    ensures { result ≡ spec.up_to_line 0 0 text.now }
{
    let mut rest = text;
    let mut passed: usize = 0;
    let mut end: usize = 0;
    'bytes: while let [byte, more @ ..] = rest {
        if *byte == b'\n' {
            return end;
        }
        passed += 1;
        if !is_blank(*byte) && *byte != b'\r' {
            end = passed;
        }
        rest = more;
    }
    end
}
