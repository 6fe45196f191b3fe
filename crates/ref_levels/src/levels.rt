//! The levels of rules, by the configuration and the command line.
ghost use Rattle.std.specs.Prelude.{◌≡◌, ◌++◌, ◌∷◌, [], map, string_bytes, Some, None, IfOk, OnOk, IfSome, is_some};
ghost use Rattle.std.specs.List.{list_any, fold};
ghost use Rattle.ref_messages.specs.Views.{chosen_of};
ghost use Rattle.ref_configuration.specs.View.{rule_level, file_rules};
ghost use Rattle.ref_levels.specs.Levels as spec;
ghost use Rattle.ref_levels.specs.Levels.{level_of, over, is_rule, is_set, sets, choice_of, chosen, said_of, says};
ghost use Rattle.ref_levels.specs.View.{set_by, file_choices, choices_seen};

use clap::ArgMatches;
use ref_command_line::options::list_of;
use ref_command_line::{Configured, Stop, say_failures};
use ref_configuration::{Level as Set, Override, place_of};
use ref_files::{Exclusion, Exclusions, Failures};
use ref_messages::{Chosen, Level, Plain, Rule, level_in, push_quoted};
use ref_workspace::{RULES, near_rule};
use std::alloc::{AllocError, Global};
use std::{fs, io};

/// The levels that rules are set to: by the configuration, then by its overrides for some files, and then by the command line.
#[derive(Drop)]
pub struct Levels {
    first: Vec<Chosen<'static>>,
    overrides: Vec<FileLevels>,
    last: Vec<Chosen<'static>>,
}

// Levels of rules in some files.
#[derive(Drop)]
struct FileLevels {
    // The paths and patterns as the configuration has them.
    texts: Vec<String>,
    files: Exclusions,
    choices: Vec<Chosen<'static>>,
}

impl Levels {
    /// What a configuration and a command line set. A rule that there isn't is said on standard error.
    pub fn of(
        rt: &HostRuntime,
        given: &ArgMatches<'_>,
        configured: &Configured,
    ) -> Result<Levels, Stop>
        ensures rules { IfOk result (λ l. (set_by l).first
            ≡ map choice_of (map rule_level configured.now.configuration.rules.items)) }
        ensures overrides { IfOk result (λ l. map said_of (set_by l).overrides
            ≡ map says (map file_rules configured.now.configuration.overrides.items)) }
    {
        let rules = configured.configuration.rules.as_slice();
        let first = chosen_of(rt, configured, (&["rules"], 0), rules)?;
        let overrides = overrides_of(rt, configured)?;
        let last = choices_of(rt, given)?;
        Ok(Levels {
            first,
            overrides,
            last,
        })
    }

    /// The level of a finding of a rule in the file at an absolute path, where it is listed at all. `own` is the rule's own.
    pub fn level(&mut self, path: &str, code: &str, own: Level) -> Result<Option<Level>, AllocError>
        ensures value { IfOk result (λ level. level
            ≡ level_of (set_by self.old) path.now code.now (Some own)) }
        ensures same { OnOk result (set_by self.new ≡ set_by self.old) }
    {
        self.level_from(path, code, Some(own))
    }

    /// The level of a finding that is listed only where its rule is set for the file.
    pub fn level_set(&mut self, path: &str, code: &str) -> Result<Option<Level>, AllocError>
        ensures value { IfOk result (λ level. level
            ≡ level_of (set_by self.old) path.now code.now None) }
        ensures same { OnOk result (set_by self.new ≡ set_by self.old) }
    {
        self.level_from(path, code, None)
    }

    fn level_from(
        &mut self,
        path: &str,
        code: &str,
        own: Option<Level>,
    ) -> Result<Option<Level>, AllocError>
        ensures value { IfOk result (λ level. level
            ≡ level_of (set_by self.old) path.now code.now own) }
        ensures same { OnOk result (set_by self.new ≡ set_by self.old) }
    {
        let first = level_in(self.first.as_slice(), code, own);
        let level = self.level_over(path, code, first)?;
        Ok(level_in(self.last.as_slice(), code, level))
    }

    // The level after the overrides.
    fn level_over(
        &mut self,
        path: &str,
        code: &str,
        first: Option<Level>,
    ) -> Result<Option<Level>, AllocError>
        ensures value { IfOk result (λ level. level
            ≡ fold (over path.now code.now) first (set_by self.old).overrides) }
        ensures same { OnOk result (set_by self.new ≡ set_by self.old) }
    {
        let mut level = first;
        for number in 0..self.overrides.len() {
            level = self.overrides[number].level_over(path, code, level)?;
        }
        Ok(level)
    }

    /// Whether a rule is set somewhere.
    pub fn has(&self, code: &str) -> bool
        ensures value { result ≡ is_set (set_by self.now) code.now }
    {
        has(self.first.as_slice(), code)
            || has(self.last.as_slice(), code)
            || has_one(self.overrides.as_slice(), code)
    }

    /// Adds what is set as parts of a configuration: the rules, and the overrides for some files, whose paths are from the folder of the configuration on, without the
    /// rules that the command line sets.
    pub fn push(&self, alloc: Global, out: &mut String) -> Result<(), AllocError> {
        out.push_str("[rules]\n")?;
        for rule in RULES {
            let code = rule.code;
            if has(self.first.as_slice(), code) || has(self.last.as_slice(), code) {
                let level = level_in(self.first.as_slice(), code, None);
                push_rule(out, code, level_in(self.last.as_slice(), code, level))?;
            }
        }
        for one in &self.overrides {
            one.push(alloc, out, self.last.as_slice())?;
        }
        Ok(())
    }
}

impl FileLevels {
    // The level of a rule in a file after these, where it was another one before.
    #[tactic(auto, using(crate::proofs::Overrides::excluded_what, crate::proofs::Overrides::used_what))]
    fn level_over(
        &mut self,
        path: &str,
        code: &str,
        level: Option<Level>,
    ) -> Result<Option<Level>, AllocError>
        ensures value { IfOk result (λ after. after
            ≡ over path.now code.now level (file_choices self.old)) }
        ensures same { OnOk result (file_choices self.new ≡ file_choices self.old) }
    {
        if self.files.has(path)? {
            Ok(level_in(self.choices.as_slice(), code, level))
        } else {
            Ok(level)
        }
    }

    // Adds them as a part of a configuration, but for rules that count elsewhere.
    fn push(
        &self,
        alloc: Global,
        out: &mut String,
        elsewhere: &[Chosen<'_>],
    ) -> Result<(), AllocError> {
        out.push_str("\n[[override]]\nfiles = [")?;
        for (number, text) in self.texts.iter().enumerate() {
            out.push_str(if number == 0 { "" } else { ", " })?;
            push_quoted(alloc, out, text.as_str())?;
        }
        out.push_str("]\n[override.rules]\n")?;
        for rule in RULES {
            if has(self.choices.as_slice(), rule.code) && !has(elsewhere, rule.code) {
                let level = level_in(self.choices.as_slice(), rule.code, None);
                push_rule(out, rule.code, level)?;
            }
        }
        Ok(())
    }
}

// Adds a rule with its level; nothing is off.
fn push_rule(out: &mut String, code: &str, level: Option<Level>) -> Result<(), AllocError> {
    let name = match level {
        Some(level) => level.name(),
        None => "off",
    };
    write!(out, "{code} = \"{name}\"\n")
}

fn copy_of(alloc: Global, texts: &[String]) -> Result<Vec<String>, AllocError>
    ensures { IfOk result (λ copy. map string_bytes copy.items ≡ map string_bytes texts.now) }
{
    let mut copy = Vec::with_capacity(alloc, texts.len())?;
    for text in texts {
        push_text(alloc, &mut copy, text.as_str())?;
    }
    Ok(copy)
}

fn push_text(alloc: Global, list: &mut Vec<String>, text: &str) -> Result<(), AllocError>
    ensures { OnOk result (map string_bytes list.new.items
        ≡ map string_bytes list.old.items ++ text.now ∷ []) }
{
    list.push(String::from_str(alloc, text)?)?;
    Ok(())
}

fn push_levels(list: &mut Vec<FileLevels>, levels: FileLevels) -> Result<(), AllocError>
    ensures { OnOk result (map file_choices list.new.items
        ≡ map file_choices list.old.items ++ file_choices levels ∷ []) }
{
    list.push(levels)?;
    Ok(())
}

fn has(choices: &[Chosen<'_>], code: &str) -> bool
    ensures { result ≡ sets (map chosen_of choices.now) code.now }
{
    for chosen in choices {
        if chosen.code == code {
            return true;
        }
    }
    false
}

fn has_one(overrides: &[FileLevels], code: &str) -> bool
    ensures { result ≡ list_any (λ o. sets o.choices code.now) (map file_choices overrides.now) }
{
    for one in overrides {
        if has(one.choices.as_slice(), code) {
            return true;
        }
    }
    false
}

// What the overrides of a configuration set.
fn overrides_of(rt: &HostRuntime, configured: &Configured) -> Result<Vec<FileLevels>, Stop>
    ensures { IfOk result (λ list. map said_of (map file_choices list.items)
        ≡ map says (map file_rules configured.now.configuration.overrides.items)) }
{
    let all = configured.configuration.overrides.as_slice();
    let mut overrides = Vec::new(rt.alloc());
    for item in 0..all.len() {
        let levels = file_levels(rt, configured, &all[item], item)?;
        push_levels(&mut overrides, levels)?;
    }
    Ok(overrides)
}

// What one of them sets.
fn file_levels(
    rt: &HostRuntime,
    configured: &Configured,
    one: &Override,
    item: usize,
) -> Result<FileLevels, Stop>
    ensures { IfOk result (λ f. said_of (file_choices f) ≡ says (file_rules one.now)) }
{
    let files = files_of(rt, configured, one.files.as_slice())?;
    let rules = one.rules.as_slice();
    let choices = chosen_of(rt, configured, (&["override", "rules"], item), rules)?;
    let texts = copy_of(rt.alloc(), one.files.as_slice())?;
    Ok(FileLevels {
        texts,
        files,
        choices,
    })
}

// The files of an override.
fn files_of(
    rt: &HostRuntime,
    configured: &Configured,
    texts: &[String],
) -> Result<Exclusions, Stop> {
    let mut failures = Failures::new(rt.alloc());
    let mut files = Exclusions::new(rt.alloc());
    for text in texts {
        files.add(
            rt,
            &mut failures,
            Exclusion {
                folder: configured.folder.as_str(),
                text: text.as_str(),
                is_path: false,
                is_told: false,
            },
        )?;
    }
    say_failures(rt, &failures);
    if failures.has_failed {
        return Err(Stop::Reported);
    }
    Ok(files)
}

// A table of a configuration: a path of keys, and the number of the item of a list on the way.
type At<'a> = (&'a [&'a str], usize);

// What a configuration sets rules to, in a table of it.
fn chosen_of(
    rt: &HostRuntime,
    configured: &Configured,
    at: At<'_>,
    levels: &[Set],
) -> Result<Vec<Chosen<'static>>, Stop>
    ensures { IfOk result (λ list. choices_seen list ≡ map choice_of (map rule_level levels.now)) }
{
    let mut choices = Vec::new(rt.alloc());
    for set in levels {
        let code = set.rule.as_str();
        let Some(own) = rule_named(code) else {
            say_unknown_in(rt, configured, at, code)?;
            return Err(Stop::Reported);
        };
        push(&mut choices, own, level_named(set.level.as_str()))?;
    }
    Ok(choices)
}

fn level_named(name: &str) -> Option<Level>
    ensures { result ≡ spec.level_named name.now }
{
    match name {
        "error" => Some(Level::Error),
        "warning" => Some(Level::Warning),
        "note" => Some(Level::Note),
        _ => None,
    }
}

fn choices_of(rt: &HostRuntime, given: &ArgMatches<'_>) -> Result<Vec<Chosen<'static>>, Stop> {
    let mut choices = Vec::new(rt.alloc());
    for text in list_of(rt.alloc(), given, "rule")? {
        let Some(chosen) = Chosen::parse(text) else {
            let _ = eprintln!(rt;
                "patchsard: --rule {}: not of the form RULE=LEVEL, with error, warning, note or off as its level",
                Plain(text)
            );
            return Err(Stop::Reported);
        };
        let Some(own) = rule_named(chosen.code) else {
            let _ = eprintln!(rt;
                "patchsard: --rule {}: there is no rule '{}'",
                Plain(text),
                Plain(chosen.code)
            );
            say_rules(rt, chosen.code)?;
            return Err(Stop::Reported);
        };
        push(&mut choices, own, chosen.level)?;
    }
    Ok(choices)
}

fn push(
    choices: &mut Vec<Chosen<'static>>,
    code: &'static str,
    level: Option<Level>,
) -> Result<(), AllocError>
    ensures { OnOk result (choices_seen choices.new
        ≡ choices_seen choices.old ++ chosen code.now level ∷ []) }
{
    choices.push(Chosen { code, level })?;
    Ok(())
}

// The name of a rule, where there is one of this name.
fn rule_named(code: &str) -> Option<&'static str>
    ensures { IfSome result (λ own. own.now ≡ code.now) }
{
    rule_among(RULES, code)
}

#[tactic(auto, using(crate::proofs::Names::same_bytes))]
fn rule_among(rules: &'static [Rule], code: &str) -> Option<&'static str>
    ensures value { IfSome result (λ own. own.now ≡ code.now) }
    ensures known { is_some result ≡ is_rule (map (λ rule. rule.code.now) rules.now) code.now }
{
    for rule in rules {
        if rule.code == code {
            return Some(rule.code);
        }
    }
    None
}

// Says that a configuration sets a rule that there isn't in a table of it, with its line and column, where its file can still be read.
fn say_unknown_in(
    rt: &HostRuntime,
    configured: &Configured,
    (above, item): At<'_>,
    code: &str,
) -> Result<(), Stop> {
    let name = match &configured.name {
        Some(name) => name.as_str(),
        None => "",
    };
    match fs::read_to_string(rt, name) {
        Ok(text) => {
            let (line, column) = place_of(rt.alloc(), text.as_str(), above, item, code)?;
            let _ = eprintln!(rt;
                "patchsard: {}:{line}:{column}: there is no rule '{}'",
                Plain(name),
                Plain(code)
            );
        }
        Err(error) if error.kind() == io::ErrorKind::OutOfMemory => return Err(Stop::Memory),
        Err(_) => {
            let _ = eprintln!(rt;
                "patchsard: {}: there is no rule '{}'",
                Plain(name),
                Plain(code)
            );
        }
    }
    say_rules(rt, code)?;
    Ok(())
}

// Says which rule may be meant by a name, or else which there are.
fn say_rules(rt: &HostRuntime, code: &str) -> Result<(), AllocError> {
    if let Some(near) = near_rule(rt.alloc(), code)? {
        let _ = eprintln!(rt; "    did you mean '{near}'?");
        return Ok(());
    }
    let _ = eprintln!(rt; "    the rules are");
    for rule in RULES {
        let _ = eprintln!(rt; "        {}", rule.code);
    }
    Ok(())
}
