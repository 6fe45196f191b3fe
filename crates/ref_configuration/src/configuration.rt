//! From a text to a configuration.
ghost use Rattle.std.specs.Prelude.{◌≡◌, Some, None, Ok, IfOk, IfErr};
ghost use Rattle.toml.specs.Parse.{parse_document};
ghost use Rattle.toml.specs.View.{table_view};
ghost use Rattle.ref_configuration.specs.declared.configuration.Refusal.TheVariants.{Memory};
ghost use Rattle.ref_configuration.specs.Settings.{nothing, settings_of};
ghost use Rattle.ref_configuration.specs.View as view;
ghost use Rattle.ref_configuration.specs.inner.Answers.{Answers, IsUnread, IsPlaced};
ghost use Rattle.ref_configuration.specs.Refusals.{meant, IsRefusal};

use crate::fault::{At, Fault, Stop};
use crate::member::with_names;
use crate::names::TOP;
use crate::place::{line_and_column, place_of};
use crate::table::{flags_of, lists_of, named_texts_of, tables_of};
use std::alloc::{AllocError, Global};
use toml::Table;

/// What a configuration file says. Paths in it are as they are written, from the folder of the file on.
#[derive(Drop)]
pub struct Configuration {
    /// The files and folders that are asked about where a command line names none.
    pub paths: Vec<String>,
    /// Those that references may lead into.
    pub with: Vec<String>,
    /// The paths and patterns of those that are left out.
    pub exclude: Vec<String>,
    /// Whether what Git leaves out is left out.
    pub has_gitignore: bool,
    /// Whether each file of YAML below a folder is read.
    pub has_yaml: bool,
    /// The URI that files are under.
    pub base: Option<String>,
    /// The draft of files that name none.
    pub draft: Option<String>,
    /// The least level that is listed.
    pub level: Option<String>,
    /// How many warnings there may be.
    pub max_warnings: Option<usize>,
    /// The prefixes of URIs and the folders that documents under them are read from.
    pub maps: Vec<(String, String)>,
    /// The levels of rules, by their names.
    pub rules: Vec<Level>,
    /// The levels of rules in some files; of several that have a file the last counts.
    pub overrides: Vec<Override>,
}

/// A rule that is set to a level, which is `error`, `warning`, `note` or `off`.
#[derive(Drop)]
pub struct Level {
    /// The name of the rule. Whether there is such a rule isn't asked here.
    pub rule: String,
    /// The level.
    pub level: String,
}

/// Levels of rules in files whose paths are matched by a pattern.
#[derive(Drop)]
pub struct Override {
    /// The paths and patterns.
    pub files: Vec<String>,
    /// The levels.
    pub rules: Vec<Level>,
}

/// Why a text is no configuration, and where, or that memory ran out.
#[derive(Drop)]
pub enum Refusal {
    /// Something in it is wrong.
    At {
        /// The line, from 1.
        line: usize,
        /// The column in bytes, from 1.
        column: usize,
        /// What is wrong, and what may stand there.
        text: String,
    },
    /// Memory ran out.
    Memory,
}

impl From<AllocError> for Refusal {
    ghost from_gives = { λ _ refusal. refusal ≡ Memory };

    fn from(_error: AllocError) -> Refusal {
        Refusal::Memory
    }
}

impl Configuration {
    /// One that says nothing.
    pub fn new(alloc: Global) -> Configuration
        ensures value { view.settings result ≡ nothing }
    {
        Configuration {
            paths: Vec::new(alloc),
            with: Vec::new(alloc),
            exclude: Vec::new(alloc),
            has_gitignore: true,
            has_yaml: false,
            base: None,
            draft: None,
            level: None,
            max_warnings: None,
            maps: Vec::new(alloc),
            rules: Vec::new(alloc),
            overrides: Vec::new(alloc),
        }
    }

    /// What a text says. It is refused where it isn't TOML 1.1, has a name that there isn't, or a value of another type than is asked for. Of several faults
    /// the first is told: a name that there isn't, by the order of their bytes, and then what is wrong with `paths`, `with`, `exclude`, `gitignore`, `yaml`,
    /// `max-warnings`, `base`, `draft`, `level`, `map`, `rules` and `override`, in this order.
    pub fn parse(alloc: Global, text: &str) -> Result<Configuration, Refusal>
        ensures value { IfOk result (λ c. meant text.now ≡ Some (Ok (view.settings c))) }
        ensures refused { IfErr result (IsRefusal text.now) }
    {
        let table = table_in(alloc, text)?;
        match read(alloc, &table) {
            Ok(configuration) => Ok(configuration),
            Err(Stop::Wrong(fault)) => Err(refusal_of(alloc, text, fault)),
            Err(Stop::Memory) => Err(Refusal::Memory),
        }
    }
}

// The table that a text is.
fn table_in(alloc: Global, text: &str) -> Result<Table, Refusal>
    ensures value { IfOk result (λ t. parse_document text.now ≡ Some (table_view t)) }
    ensures refused { IfErr result (IsUnread text.now) }
{
    match toml::table_from_str(alloc, text) {
        Ok(table) => Ok(table),
        Err(error) => match error.span() {
            Some(span) => {
                let (line, column) = line_and_column(text, span.start);
                let said = error.message();
                let text = format!(in alloc; "Not TOML: {said}")?;
                Err(Refusal::At { line, column, text })
            }
            None => Err(Refusal::Memory),
        },
    }
}

// The configuration that a table is.
fn read(alloc: Global, table: &Table) -> Result<Configuration, Stop>
    ensures { Answers view.settings result (settings_of (table_view table.now)) }
{
    with_names(alloc, table, TOP, At::WHOLE)?;
    let lists = lists_of(alloc, table)?;
    let flags = flags_of(alloc, table)?;
    let texts = named_texts_of(alloc, table)?;
    let tables = tables_of(alloc, table)?;
    Ok(Configuration {
        paths: lists.paths,
        with: lists.with,
        exclude: lists.exclude,
        has_gitignore: flags.has_gitignore,
        has_yaml: flags.has_yaml,
        base: texts.base,
        draft: texts.draft,
        level: texts.level,
        max_warnings: flags.max_warnings,
        maps: tables.maps,
        rules: tables.rules,
        overrides: tables.overrides,
    })
}

// What is wrong, with its place in the text.
fn refusal_of(alloc: Global, text: &str, fault: Fault) -> Refusal
    ensures { IsPlaced text.now (view.fault fault) result }
{
    let above = fault.at.section.keys();
    match place_of(alloc, text, above, fault.at.item, fault.name.as_str()) {
        Ok((line, column)) => Refusal::At {
            line,
            column,
            text: fault.text,
        },
        Err(_) => Refusal::Memory,
    }
}
