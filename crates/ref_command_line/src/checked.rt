//! What a configuration may say, and where it says what may not be.
use crate::configured::Configured;
use crate::stop::Stop;
use ref_configuration::place_of;
use ref_files::{Map, is_base};
use ref_messages::Plain;
use ref_patterns::{Pattern, is_pattern};

/// Stops where a configuration of this text has a `base` that is no URI for files, a map that is none, or a pattern that is none under `exclude` or the `files` of an
/// override, and says which, with its line and column, on standard error.
pub(crate) fn check(rt: &HostRuntime, text: &str, configured: &Configured) -> Result<(), Stop> {
    let configuration = &configured.configuration;
    if let Some(base) = &configuration.base {
        check_base(rt, text, configured, base.as_str())?;
    }
    for (map, (prefix, _)) in configured.maps.iter().zip(configuration.maps.iter()) {
        check_map(rt, text, configured, (map.as_str(), prefix.as_str()))?;
    }
    for pattern in &configuration.exclude {
        check_pattern(rt, text, configured, (&[], 0, "exclude"), pattern.as_str())?;
    }
    for (item, one) in configuration.overrides.iter().enumerate() {
        for pattern in &one.files {
            let member: Member<'_> = (&["override"], item, "files");
            check_pattern(rt, text, configured, member, pattern.as_str())?;
        }
    }
    Ok(())
}

// A member of a configuration: a path of keys, the number of the item of a list on the way, and the last key.
type Member<'m> = (&'m [&'m str], usize, &'m str);

fn check_base(
    rt: &HostRuntime,
    text: &str,
    configured: &Configured,
    base: &str,
) -> Result<(), Stop> {
    if is_base(base) {
        return Ok(());
    }
    let why = format!(in rt.alloc(); "'{base}' is not an absolute URI without query and fragment")?;
    refuse(rt, text, configured, (&[], 0, "base"), why.as_str())
}

fn check_map(
    rt: &HostRuntime,
    text: &str,
    configured: &Configured,
    (map, prefix): (&str, &str),
) -> Result<(), Stop> {
    if Map::parse(rt, map)?.is_some() {
        return Ok(());
    }
    let why = "a map is of an absolute URI without query and fragment to a folder that is there";
    refuse(rt, text, configured, (&["map"], 0, prefix), why)
}

fn check_pattern(
    rt: &HostRuntime,
    text: &str,
    configured: &Configured,
    member: Member<'_>,
    pattern: &str,
) -> Result<(), Stop> {
    let own = pattern.strip_prefix("./").unwrap_or(pattern);
    if !is_pattern(pattern) || Pattern::parse(rt.alloc(), own)?.is_some() {
        return Ok(());
    }
    let why = format!(in rt.alloc();
        "'{pattern}' is not a pattern: a brace is not closed, is within another, or there are too many choices"
    )?;
    refuse(rt, text, configured, member, why.as_str())
}

// Says why a member of a configuration may not be, with its line and column.
fn refuse(
    rt: &HostRuntime,
    text: &str,
    configured: &Configured,
    (above, item, key): Member<'_>,
    why: &str,
) -> Result<(), Stop> {
    let name = match &configured.name {
        Some(name) => name.as_str(),
        None => "",
    };
    let (line, column) = place_of(rt.alloc(), text, above, item, key)?;
    let _ = eprintln!(rt;
        "patchsard: {}:{line}:{column}: {}",
        Plain(name),
        Plain(why)
    );
    Err(Stop::Reported)
}
