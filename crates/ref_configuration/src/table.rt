//! The members of a configuration, and those of its tables.
ghost use Rattle.std.specs.Prelude.{◌≡◌, ◌++◌, ◌∷◌, [], codes, map, string_bytes, option_map, IfOk, OnOk, Some, None};
ghost use Rattle.toml.specs.Data.{get_member};
ghost use Rattle.toml.specs.View.{view, items_view, table_view};
ghost use Rattle.ref_configuration.specs.Members as spec;
ghost use Rattle.ref_configuration.specs.Settings as whole;
ghost use Rattle.ref_configuration.specs.View.{texts, pair, rule_level, file_rules, where_of, lists, flags, named_texts, tables};
ghost use Rattle.ref_configuration.specs.inner.Answers.{Answers, IsStop};

use crate::configuration::{Level, Override};
use crate::fault::{At, Section, Stop, wrong, wrong_in};
use crate::member::{flag, member, name_at, number, text, texts, texts_in, with_names};
use crate::names::{DRAFTS, LEVELS, OVERRIDE, RULE_LEVELS, is_among, listed};
use std::alloc::{AllocError, Global};
use toml::{Table, Value};

// Paths.
#[derive(Drop)]
pub(crate) struct Lists {
    pub(crate) paths: Vec<String>,
    pub(crate) with: Vec<String>,
    pub(crate) exclude: Vec<String>,
}

// Flags, and how many warnings there may be.
#[derive(Clone, Copy, Drop)]
pub(crate) struct Flags {
    pub(crate) has_gitignore: bool,
    pub(crate) has_yaml: bool,
    pub(crate) max_warnings: Option<usize>,
}

// The URI of files, their draft, and the least level that is listed.
#[derive(Drop)]
pub(crate) struct Texts {
    pub(crate) base: Option<String>,
    pub(crate) draft: Option<String>,
    pub(crate) level: Option<String>,
}

// Prefixes of URIs with folders, rules with levels, and rules in some files.
#[derive(Drop)]
pub(crate) struct Tables {
    pub(crate) maps: Vec<(String, String)>,
    pub(crate) rules: Vec<Level>,
    pub(crate) overrides: Vec<Override>,
}

pub(crate) fn lists_of(alloc: Global, table: &Table) -> Result<Lists, Stop>
    ensures { Answers lists result (whole.lists_of (table_view table.now)) }
{
    let paths = texts(alloc, table, At::WHOLE, "paths")?;
    let with = texts(alloc, table, At::WHOLE, "with")?;
    let exclude = texts(alloc, table, At::WHOLE, "exclude")?;
    Ok(Lists {
        paths,
        with,
        exclude,
    })
}

pub(crate) fn flags_of(alloc: Global, table: &Table) -> Result<Flags, Stop>
    ensures { Answers flags result (whole.flags_of (table_view table.now)) }
{
    let has_gitignore = flag(alloc, table, "gitignore", true)?;
    let has_yaml = flag(alloc, table, "yaml", false)?;
    let max_warnings = number(alloc, table, "max-warnings")?;
    Ok(Flags {
        has_gitignore,
        has_yaml,
        max_warnings,
    })
}

pub(crate) fn named_texts_of(alloc: Global, table: &Table) -> Result<Texts, Stop>
    ensures { Answers named_texts result (whole.named_texts_of (table_view table.now)) }
{
    let base = text(alloc, table, "base")?;
    let draft = name_at(alloc, table, "draft", DRAFTS)?;
    let level = name_at(alloc, table, "level", LEVELS)?;
    Ok(Texts { base, draft, level })
}

pub(crate) fn tables_of(alloc: Global, table: &Table) -> Result<Tables, Stop>
    ensures { Answers tables result (whole.tables_of (table_view table.now)) }
{
    let maps = maps(alloc, table)?;
    let rules = rules(alloc, table, At::WHOLE, At::RULES)?;
    let overrides = overrides(alloc, table)?;
    Ok(Tables {
        maps,
        rules,
        overrides,
    })
}

// ---- prefixes of URIs and their folders

fn maps(alloc: Global, table: &Table) -> Result<Vec<(String, String)>, Stop>
    ensures { Answers (λ v. map pair v.items) result (spec.or_missing [] spec.maps_in
        (get_member (codes "map") (table_view table.now))) }
{
    match member(table, "map") {
        Some(value) => maps_in(alloc, value),
        None => Ok(Vec::new(alloc)),
    }
}

fn maps_in(alloc: Global, value: &Value) -> Result<Vec<(String, String)>, Stop>
    ensures { Answers (λ v. map pair v.items) result (spec.maps_in (view value.now)) }
{
    match value.as_table() {
        Some(members) => maps_of(alloc, members),
        None => {
            let why = "a table of prefixes of URIs and folders is to be here";
            Err(wrong(alloc, At::WHOLE, "map", why))
        }
    }
}

fn maps_of(alloc: Global, members: &Table) -> Result<Vec<(String, String)>, Stop>
    ensures { Answers (λ v. map pair v.items) result (spec.maps_of (table_view members.now)) }
{
    let mut list = Vec::new(alloc);
    for (prefix, folder) in members {
        match folder.as_str() {
            Some(folder) => push_map(alloc, &mut list, prefix.as_str(), folder)?,
            None => {
                let why = "a text, the path of a folder, is to be here";
                return Err(wrong(alloc, At::MAP, prefix.as_str(), why));
            }
        }
    }
    Ok(list)
}

fn push_map(
    alloc: Global,
    list: &mut Vec<(String, String)>,
    prefix: &str,
    folder: &str,
) -> Result<(), AllocError>
    ensures { OnOk result (map pair list.new.items
        ≡ map pair list.old.items ++ (prefix.now, folder.now) ∷ []) }
{
    let prefix = String::from_str(alloc, prefix)?;
    let folder = String::from_str(alloc, folder)?;
    list.push((prefix, folder))?;
    Ok(())
}

// ---- rules and their levels

// Those that the member `rules` of a table is, and that are at a second place.
fn rules(alloc: Global, table: &Table, at: At, within: At) -> Result<Vec<Level>, Stop>
    ensures { Answers (λ v. map rule_level v.items) result
        (spec.or_missing [] (spec.rules_in (where_of at) (where_of within))
        (get_member (codes "rules") (table_view table.now))) }
{
    match member(table, "rules") {
        Some(value) => rules_in(alloc, value, at, within),
        None => Ok(Vec::new(alloc)),
    }
}

fn rules_in(alloc: Global, value: &Value, at: At, within: At) -> Result<Vec<Level>, Stop>
    ensures { Answers (λ v. map rule_level v.items) result
        (spec.rules_in (where_of at) (where_of within) (view value.now)) }
{
    match value.as_table() {
        Some(members) => rules_of(alloc, members, within),
        None => {
            let why = "a table of rules and levels is to be here";
            Err(wrong(alloc, at, "rules", why))
        }
    }
}

fn rules_of(alloc: Global, members: &Table, at: At) -> Result<Vec<Level>, Stop>
    ensures { Answers (λ v. map rule_level v.items) result
        (spec.rules_of (where_of at) (table_view members.now)) }
{
    let mut list = Vec::new(alloc);
    for (rule, value) in members {
        match level_in(value) {
            Some(level) => push_level(alloc, &mut list, rule.as_str(), level)?,
            None => return Err(no_level(alloc, at, rule.as_str())),
        }
    }
    Ok(list)
}

// The level that a value names.
fn level_in(value: &Value) -> Option<&str>
    ensures { option_map (λ level. level.now) result ≡ spec.level_in (view value.now) }
{
    let level = value.as_str()?;
    if is_among(RULE_LEVELS, level) {
        Some(level)
    } else {
        None
    }
}

fn no_level(alloc: Global, at: At, rule: &str) -> Stop
    ensures { IsStop result (spec.fault_at (where_of at) rule.now (spec.no_level rule.now)) }
{
    match no_level_text(alloc, rule) {
        Ok(text) => wrong_in(alloc, at, rule, text),
        Err(_) => Stop::Memory,
    }
}

fn no_level_text(alloc: Global, rule: &str) -> Result<String, AllocError>
    ensures { IfOk result (λ t. string_bytes t ≡ spec.no_level rule.now) }
{
    let known = listed(alloc, RULE_LEVELS)?;
    let text = format!(in alloc; "the level of '{rule}' is to be {known}")?;
    Ok(text)
}

fn push_level(
    alloc: Global,
    list: &mut Vec<Level>,
    rule: &str,
    level: &str,
) -> Result<(), AllocError>
    ensures { OnOk result (map rule_level list.new.items
        ≡ map rule_level list.old.items ++ (rule.now, level.now) ∷ []) }
{
    let rule = String::from_str(alloc, rule)?;
    let level = String::from_str(alloc, level)?;
    list.push(Level { rule, level })?;
    Ok(())
}

// ---- overrides

fn overrides(alloc: Global, table: &Table) -> Result<Vec<Override>, Stop>
    ensures { Answers (λ v. map file_rules v.items) result (spec.or_missing [] spec.overrides_in
        (get_member (codes "override") (table_view table.now))) }
{
    match member(table, "override") {
        Some(value) => overrides_in(alloc, value),
        None => Ok(Vec::new(alloc)),
    }
}

fn overrides_in(alloc: Global, value: &Value) -> Result<Vec<Override>, Stop>
    ensures { Answers (λ v. map file_rules v.items) result (spec.overrides_in (view value.now)) }
{
    match value.as_array() {
        Some(items) => overrides_of(alloc, items.as_slice()),
        None => {
            let why = "a list of tables, each as [[override]], is to be here";
            Err(wrong_override(alloc, 0, why))
        }
    }
}

fn overrides_of(alloc: Global, items: &[Value]) -> Result<Vec<Override>, Stop>
    ensures { Answers (λ v. map file_rules v.items) result
        (spec.overrides_of 0 (items_view items.now)) }
{
    let mut list = Vec::new(alloc);
    for item in 0..items.len() {
        let one = override_in(alloc, &items[item], item)?;
        push_override(&mut list, one)?;
    }
    Ok(list)
}

// The override with a number.
fn override_in(alloc: Global, value: &Value, item: usize) -> Result<Override, Stop>
    ensures { Answers file_rules result (spec.override_in item (view value.now)) }
{
    let Some(table) = value.as_table() else {
        return Err(wrong_override(alloc, item, "each override is to be a table"));
    };
    let at = At {
        section: Section::Override,
        item,
    };
    let within = At {
        section: Section::OverrideRules,
        item,
    };
    with_names(alloc, table, OVERRIDE, at)?;
    let files = files_of(alloc, table, at)?;
    let rules = rules(alloc, table, at, within)?;
    Ok(Override { files, rules })
}

fn files_of(alloc: Global, table: &Table, at: At) -> Result<Vec<String>, Stop>
    ensures { Answers texts result
        (spec.files_of (where_of at) at.item (get_member (codes "files") (table_view table.now))) }
{
    match member(table, "files") {
        Some(value) => texts_in(alloc, value, at, "files"),
        None => {
            let why = "an override is to have files, a list of paths and patterns";
            Err(wrong_override(alloc, at.item, why))
        }
    }
}

fn wrong_override(alloc: Global, item: usize, why: &str) -> Stop
    ensures { IsStop result (spec.wrong_override item why.now) }
{
    let at = At {
        section: Section::Whole,
        item,
    };
    wrong(alloc, at, "override", why)
}

fn push_override(list: &mut Vec<Override>, one: Override) -> Result<(), AllocError>
    ensures { OnOk result (map file_rules list.new.items
        ≡ map file_rules list.old.items ++ file_rules one ∷ []) }
{
    list.push(one)?;
    Ok(())
}
