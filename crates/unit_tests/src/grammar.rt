//! The grammar of RFC 3986, written from the end of a text to its front, and each component by itself.

/// What may be in a scheme.
const OF_SCHEMES: &str = "abcdefghijklmnopqrstuvwxyzABCDEFGHIJKLMNOPQRSTUVWXYZ0123456789+-.";

/// Letters, digits, these characters, and triples.
fn holds(part: &str, others: &str) -> bool {
    let mut digits_to_come = 0;
    for c in part.chars() {
        if digits_to_come > 0 {
            if !c.is_ascii_hexdigit() {
                return false;
            }
            digits_to_come -= 1;
        } else if c == '%' {
            digits_to_come = 2;
        } else if !c.is_ascii_alphanumeric()
            && !"-._~!$&'()*+,;=".contains(c)
            && !others.contains(c)
        {
            return false;
        }
    }
    digits_to_come == 0
}

/// Whether a text has these characters alone.
fn is_of(text: &str, characters: &str) -> bool {
    for c in text.chars() {
        if !characters.contains(c) {
            return false;
        }
    }
    true
}

fn is_scheme(scheme: &str) -> bool {
    let begins = match scheme.chars().next() {
        Some(first) => first.is_ascii_alphabetic(),
        None => false,
    };
    begins && is_of(scheme, OF_SCHEMES)
}

fn is_address(address: &str) -> bool {
    let plain = !address.is_empty() && is_of(address, "0123456789abcdefABCDEF:.");
    let later = match address.split_once('.') {
        Some((version, rest)) => {
            let digits = version
                .strip_prefix('v')
                .or(version.strip_prefix('V'))
                .unwrap_or("");
            !digits.is_empty()
                && is_of(digits, "0123456789abcdefABCDEF")
                && !rest.is_empty()
                && !rest.contains('%')
                && holds(rest, ":")
        }
        None => false,
    };
    plain || later
}

fn is_authority(authority: &str) -> bool {
    let (userinfo, rest) = authority.split_once('@').unwrap_or(("", authority));
    if !holds(userinfo, ":") {
        return false;
    }
    match rest.strip_prefix('[') {
        Some(brackets) => match brackets.split_once(']') {
            Some((address, "")) => is_address(address),
            Some((address, port)) => is_address(address)
                && port.starts_with(':')
                && is_of(port.strip_prefix(':').unwrap_or(""), "0123456789"),
            None => false,
        },
        None => {
            let (name, port) = rest.split_once(':').unwrap_or((rest, ""));
            holds(name, "") && is_of(port, "0123456789")
        }
    }
}

/// The scheme of a text without query and fragment, and what is after it.
fn split_scheme(text: &str) -> (Option<&str>, &str) {
    match text.split_once(':') {
        Some((scheme, rest)) if !scheme.is_empty() && !scheme.contains('/') => (Some(scheme), rest),
        _ => (None, text),
    }
}

/// Whether this is what may be after a scheme, or where none is.
fn is_hierarchy(text: &str, has_scheme: bool) -> bool {
    match text.strip_prefix("//") {
        Some(rest) => {
            let (authority, path) = rest.split_once('/').unwrap_or((rest, ""));
            is_authority(authority) && holds(path, ":@/")
        }
        None => {
            let (first_segment, _) = text.split_once('/').unwrap_or((text, ""));
            holds(text, ":@/") && (has_scheme || !first_segment.contains(':'))
        }
    }
}

/// Whether the text is a URI reference.
pub fn accepts(text: &str) -> bool {
    let (rest, fragment) = text.split_once('#').unwrap_or((text, ""));
    let (rest, query) = rest.split_once('?').unwrap_or((rest, ""));
    if !holds(query, ":@/?") || !holds(fragment, ":@/?") {
        return false;
    }
    let (scheme, rest) = split_scheme(rest);
    is_scheme(scheme.unwrap_or("a")) && is_hierarchy(rest, scheme.is_some())
}
