//! The names that a configuration may have.
ghost use Rattle.std.specs.Prelude.{◌≡◌, ◌++◌, codes, map, string_bytes, IfOk, option_map};
ghost use Rattle.toml.specs.View.{table_view};
ghost use Rattle.ref_configuration.specs.Names as spec;
ghost use Rattle.ref_configuration.specs.Members.{unknown_in};

use std::alloc::{AllocError, Global};
use toml::Table;

/// The names at the top of a configuration.
pub(crate) const TOP: &[&str] = &[
    "paths",
    "with",
    "exclude",
    "gitignore",
    "yaml",
    "base",
    "draft",
    "level",
    "max-warnings",
    "map",
    "rules",
    "override",
];

/// The names in an override.
pub(crate) const OVERRIDE: &[&str] = &["files", "rules"];

/// The names of drafts.
pub(crate) const DRAFTS: &[&str] = &["4", "6", "7", "2019-09", "2020-12"];

/// The levels that are listed at least.
pub(crate) const LEVELS: &[&str] = &["error", "warning", "note"];

/// The levels that a rule may be set to.
pub(crate) const RULE_LEVELS: &[&str] = &["error", "warning", "note", "off"];

/// Whether a text is one of some names.
pub(crate) fn is_among(names: &[&str], name: &str) -> bool
    ensures { result ≡ spec.is_among (map (λ known. known.now) names.now) name.now }
{
    for known in names {
        if *known == name {
            return true;
        }
    }
    false
}

/// The first name of a table, by the order of bytes, that is none of these.
pub(crate) fn unknown_in<'t>(table: &'t Table, names: &[&str]) -> Option<&'t str>
    ensures { option_map (λ name. name.now) result
        ≡ unknown_in (map (λ known. known.now) names.now) (table_view table.now) }
{
    for (name, _) in table {
        if !is_among(names, name.as_str()) {
            return Some(name.as_str());
        }
    }
    None
}

/// Names as a list in a sentence: `a`, `a or b`, `a, b or c`.
pub(crate) fn listed(alloc: Global, names: &[&str]) -> Result<String, AllocError>
    ensures { IfOk result (λ text. string_bytes text
        ≡ spec.listed (map (λ name. name.now) names.now)) }
{
    let mut text = String::new(alloc);
    for number in 0..names.len() {
        text.push_str(names[number])?;
        text.push_str(after_name(names.len() - number - 1))?;
    }
    Ok(text)
}

// What is between a name and those after it, of which there are so many.
fn after_name(left: usize) -> &'static str
    ensures { result.now ≡ spec.after_name left }
{
    match left {
        0 => "",
        1 => " or ",
        _ => ", ",
    }
}
