//! Which files of YAML below a folder are read though none of them is named: many are no schemas.
use crate::text::DocumentText;

// The keys of which a schema or a description of an API has one at its root.
const MARKS: [&str; 5] = ["$schema", "$id", "id", "openapi", "swagger"];

/// Whether a text says at its root what it is: by a key there, or where it has no value by a line that begins with such a key.
pub(crate) fn is_marked(text: &DocumentText) -> bool {
    match text.value() {
        Some(value) => MARKS.iter().any(|mark| value.get(*mark).is_some()),
        None => has_mark(text.text.as_str()),
    }
}

// Whether a line begins with such a key, or with a brace and then such a key, which may be on a later line.
fn has_mark(text: &str) -> bool {
    text.split('\n').any(begins_with_mark)
        || text.strip_prefix('{').is_some_and(begins_inside)
        || text.split("\n{").skip(1).any(begins_inside)
}

// Whether what is after a brace begins with such a key.
fn begins_inside(text: &str) -> bool {
    begins_with_mark(text.trim_start())
}

// Whether a line begins with such a key and a colon, in quotes or without.
fn begins_with_mark(line: &str) -> bool {
    let Some((key, _)) = line.split_once(':') else {
        return false;
    };
    MARKS.contains(&unquoted(key.trim_end()))
}

fn unquoted(key: &str) -> &str {
    for quote in ['"', '\''] {
        if let Some(rest) = key.strip_prefix(quote) {
            return rest.strip_suffix(quote).unwrap_or(key);
        }
    }
    key
}
