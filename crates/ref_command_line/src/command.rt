//! The command line.
use clap::{Arg, ArgAction, Command};
use std::alloc::{AllocError, Global};

// The subcommands, in the order of the help.
#[derive(Clone, Copy)]
enum Subcommand {
    Lint,
    Resolve,
    Bundle,
    Places,
    Graph,
    Rename,
    Move,
    Serve,
    Lsp,
}

const SUBCOMMANDS: [Subcommand; 9] = [
    Subcommand::Lint,
    Subcommand::Resolve,
    Subcommand::Bundle,
    Subcommand::Places,
    Subcommand::Graph,
    Subcommand::Rename,
    Subcommand::Move,
    Subcommand::Serve,
    Subcommand::Lsp,
];

// What may be on a command line.
#[derive(Clone, Copy)]
enum Word {
    Directory,
    Paths,
    ReferringFile,
    RootFile,
    DefiningFile,
    Pointer,
    Name,
    Anchor,
    Id,
    Source,
    Target,
    Reference,
    From,
    With,
    StdinPath,
    Exclude,
    NoIgnore,
    Config,
    NoConfig,
    PrintConfig,
    Yaml,
    Verbose,
    Quiet,
    NoProgress,
    Rule,
    Level,
    MaxWarnings,
    Baseline,
    WriteBaseline,
    Fix,
    DryRun,
    Preview,
    Statistics,
    Format,
    Color,
    Form,
    Language,
    Components,
    Connected,
    Output,
    Minify,
    Strict,
    KeepTexts,
    Base,
    Draft,
    Map,
}

// How a word is given.
#[derive(Clone, Copy)]
enum Kind {
    // By its place, once.
    Place,
    // By its place, once or more.
    Places,
    // By its name, with a value.
    Value,
    // By its name, with a value, and again.
    Values,
    // By its name alone.
    Flag,
}

// A word: its name, what its value is called, and its help.
#[derive(Clone, Copy)]
struct Row<'c> {
    name: &'c str,
    value: &'c str,
    kind: Kind,
    help: &'c str,
}

const FORMATS: &[&str] = &["text", "full", "json", "sarif", "github", "gitlab", "junit"];

const COLORS: &[&str] = &["auto", "always", "never"];

const LEVELS: &[&str] = &["error", "warning", "note"];

const FORMS: &[&str] = &["text", "json"];

const DRAWINGS: &[&str] = &["mermaid", "dot", "json"];

const DRAFTS: &[&str] = &["4", "6", "7", "2019-09", "2020-12"];

/// The whole command line.
pub fn patchsard<'c>(alloc: Global) -> Result<Command<'c>, AllocError> {
    let mut command = without_subcommands(alloc)?;
    for subcommand in SUBCOMMANDS {
        command = with_subcommand(alloc, command, subcommand)?;
    }
    Ok(command)
}

fn without_subcommands<'c>(alloc: Global) -> Result<Command<'c>, AllocError> {
    Command::new(alloc, "patchsard")
        .version("0.1.0")
        .propagate_version(true)
        .about(
            "Lints, follows, bundles, lists, draws and keeps the references of JSON Schema files, in JSON or YAML",
        )
        .arg_required_else_help(true)
        .bin_name("patchsard")?
        .arg(arg_of(alloc, Word::Directory))
}

fn with_subcommand<'c>(
    alloc: Global,
    command: Command<'c>,
    subcommand: Subcommand,
) -> Result<Command<'c>, AllocError> {
    let subcommand = command_of(alloc, subcommand)?;
    command.subcommand(subcommand)
}

fn command_of<'c>(alloc: Global, subcommand: Subcommand) -> Result<Command<'c>, AllocError> {
    let mut command = described(alloc, subcommand);
    for word in words_of(subcommand) {
        command = command.arg(arg_of(alloc, *word))?;
    }
    Ok(command)
}

// A subcommand without its words.
fn described<'c>(alloc: Global, subcommand: Subcommand) -> Command<'c> {
    Command::new(alloc, name_of(subcommand))
        .about(about(subcommand))
        .after_help(status_of(subcommand))
}

fn name_of<'c>(subcommand: Subcommand) -> &'c str {
    match subcommand {
        Subcommand::Lint => "lint",
        Subcommand::Resolve => "resolve",
        Subcommand::Bundle => "bundle",
        Subcommand::Places => "places",
        Subcommand::Graph => "graph",
        Subcommand::Rename => "rename",
        Subcommand::Move => "move",
        Subcommand::Serve => "serve",
        Subcommand::Lsp => "lsp",
    }
}

fn about<'c>(subcommand: Subcommand) -> &'c str {
    match subcommand {
        Subcommand::Lint => "Lists what is wrong with the references of schema files",
        Subcommand::Resolve => "Follows one reference from a place of a file",
        Subcommand::Bundle =>
            "Writes a schema file with all documents that it needs as one document of JSON",
        Subcommand::Places => {
            "Lists each subschema of schema files: file, line and column, pointer, draft, base URI, identifier and anchors"
        }
        Subcommand::Graph => "Draws which file refers to which, with what is broken in red",
        Subcommand::Rename => {
            "Renames a definition, a component, an anchor or an identifier, with every reference that leads there"
        }
        Subcommand::Move => {
            "Moves a file or a folder, with every reference that leads there or from there"
        }
        Subcommand::Serve => {
            "Answers calls of other programs: one JSON object a line in, one a line out"
        }
        Subcommand::Lsp => {
            "Serves an editor: mistakes as they are typed, definitions, references, completion, over the Language Server Protocol"
        }
    }
}

// What the help says at its end.
fn status_of<'c>(subcommand: Subcommand) -> &'c str {
    match subcommand {
        Subcommand::Lint => {
            "Exit status: 0 where nothing is an error, 1 where something is, or there are more warnings than --max-warnings, or nothing was looked at, 2 where a path can't be read or the command line is wrong. Warnings and notes are no errors."
        }
        Subcommand::Resolve => {
            "Exit status: 0 where the reference leads to a value, 1 where it doesn't, 2 where a path can't be read or the command line is wrong."
        }
        Subcommand::Places => {
            "Exit status: 0 where all files are listed, 1 where one is neither JSON nor YAML, 2 where a path can't be read or the command line is wrong."
        }
        Subcommand::Graph => {
            "Exit status: 0 where all files are drawn, 1 where one is neither JSON nor YAML, 2 where a path can't be read or the command line is wrong."
        }
        Subcommand::Rename => {
            "All references are followed before and after: where one would lead elsewhere, nothing is changed. Where neither --with nor a configuration names files, those below this folder are read. Exit status: 0 where it is renamed, or with --dry-run would be, 1 where it is not, 2 where a path can't be read or written or the command line is wrong, 3 where the text that was made isn't that of the change."
        }
        Subcommand::Move => {
            "All references are followed before and after: where one would lead elsewhere, nothing is changed. Where neither --with nor a configuration names files, those below this folder are read. Exit status: 0 where it is moved, or with --dry-run would be, 1 where it is not, 2 where a path can't be read or written or the command line is wrong, 3 where the text that was made isn't that of the change."
        }
        Subcommand::Bundle => {
            "Exit status: 0 where the bundle is written, 1 where there is none, 2 where a path can't be read or written or the command line is wrong, 3 where the text that was made isn't that of the bundle."
        }
        Subcommand::Lsp => {
            "docs/EDITORS.md says how editors are set up. The editor names the folders; what is left out, mapped and read by which draft is said here. Exit status: 0 after a shutdown, 1 without one, 2 where standard input or output fails, what is read is no frame, or the command line is wrong."
        }
        Subcommand::Serve => {
            "docs/PROTOCOL.md describes the calls. Exit status: 0 where standard input ends, 2 where it can't be read, standard output can't be written, or the command line is wrong."
        }
    }
}

// The words of a subcommand, in the order of the help.
fn words_of(subcommand: Subcommand) -> &'static [Word] {
    match subcommand {
        Subcommand::Lint => &[
            Word::Paths,
            Word::With,
            Word::Exclude,
            Word::NoIgnore,
            Word::StdinPath,
            Word::Yaml,
            Word::Verbose,
            Word::Quiet,
            Word::NoProgress,
            Word::Rule,
            Word::Level,
            Word::MaxWarnings,
            Word::Baseline,
            Word::WriteBaseline,
            Word::Fix,
            Word::DryRun,
            Word::Config,
            Word::NoConfig,
            Word::PrintConfig,
            Word::Statistics,
            Word::Format,
            Word::Color,
            Word::Base,
            Word::Draft,
            Word::Map,
        ],
        Subcommand::Resolve => &[
            Word::ReferringFile,
            Word::Reference,
            Word::From,
            Word::With,
            Word::StdinPath,
            Word::Config,
            Word::NoConfig,
            Word::Yaml,
            Word::NoProgress,
            Word::Form,
            Word::Base,
            Word::Draft,
            Word::Map,
        ],
        Subcommand::Bundle => &[
            Word::RootFile,
            Word::With,
            Word::Config,
            Word::NoConfig,
            Word::Yaml,
            Word::NoProgress,
            Word::Output,
            Word::Minify,
            Word::Strict,
            Word::KeepTexts,
            Word::Base,
            Word::Draft,
            Word::Map,
        ],
        Subcommand::Places => &[
            Word::Paths,
            Word::Exclude,
            Word::NoIgnore,
            Word::Config,
            Word::NoConfig,
            Word::Yaml,
            Word::NoProgress,
            Word::Form,
            Word::Base,
            Word::Draft,
            Word::Map,
        ],
        Subcommand::Graph => &[
            Word::Paths,
            Word::Exclude,
            Word::NoIgnore,
            Word::Config,
            Word::NoConfig,
            Word::Yaml,
            Word::NoProgress,
            Word::Language,
            Word::Components,
            Word::Connected,
            Word::Base,
            Word::Draft,
            Word::Map,
        ],
        Subcommand::Rename => &[
            Word::DefiningFile,
            Word::Pointer,
            Word::Name,
            Word::Anchor,
            Word::Id,
            Word::Preview,
            Word::With,
            Word::Exclude,
            Word::NoIgnore,
            Word::Config,
            Word::NoConfig,
            Word::Yaml,
            Word::NoProgress,
            Word::Base,
            Word::Draft,
            Word::Map,
        ],
        Subcommand::Move => &[
            Word::Source,
            Word::Target,
            Word::Preview,
            Word::With,
            Word::Exclude,
            Word::NoIgnore,
            Word::Config,
            Word::NoConfig,
            Word::Yaml,
            Word::NoProgress,
            Word::Base,
            Word::Draft,
            Word::Map,
        ],
        Subcommand::Serve => &[],
        Subcommand::Lsp => &[
            Word::Exclude,
            Word::NoIgnore,
            Word::Rule,
            Word::Level,
            Word::Config,
            Word::NoConfig,
            Word::Yaml,
            Word::Base,
            Word::Draft,
            Word::Map,
        ],
    }
}

// The word as the parser takes it.
fn arg_of<'c>(alloc: Global, word: Word) -> Arg<'c> {
    let arg = plain_arg(alloc, row_of(word));
    match word {
        Word::Directory => arg.short('C'),
        Word::Output => arg.short('o'),
        Word::Verbose => arg.short('v'),
        Word::Quiet => arg.short('q'),
        Word::Level => arg.value_parser(LEVELS),
        Word::From => arg.default_value("").allow_hyphen_values(true),
        Word::Format => arg.value_parser(FORMATS),
        Word::Color => arg.value_parser(COLORS).default_value("auto"),
        Word::Form => arg.value_parser(FORMS).default_value("text"),
        Word::Language => arg.value_parser(DRAWINGS).default_value("mermaid"),
        Word::Draft => arg.value_parser(DRAFTS),
        _ => arg,
    }
}

fn plain_arg<'c>(alloc: Global, row: Row<'c>) -> Arg<'c> {
    let arg = Arg::new(alloc, row.name)
        .help(row.help)
        .action(action_of(row.kind));
    match row.kind {
        Kind::Place => arg.value_name(row.value).required(true),
        Kind::Places => arg.value_name(row.value).num_args(0..),
        Kind::Value | Kind::Values => arg.value_name(row.value).long(row.name),
        Kind::Flag => arg.long(row.name),
    }
}

fn action_of(kind: Kind) -> ArgAction {
    match kind {
        Kind::Place | Kind::Value => ArgAction::Set,
        Kind::Places | Kind::Values => ArgAction::Append,
        Kind::Flag => ArgAction::SetTrue,
    }
}

fn named<'c>(name: &'c str, value: &'c str, kind: Kind, help: &'c str) -> Row<'c> {
    Row {
        name,
        value,
        kind,
        help,
    }
}

fn row_of<'c>(word: Word) -> Row<'c> {
    match word {
        Word::Directory => named(
            "directory",
            "FOLDER",
            Kind::Value,
            "Run as if started in this folder",
        ),
        Word::Paths => named(
            "paths",
            "PATH",
            Kind::Places,
            "A file, or a folder: all files below it that end in .json, and those in .yaml or .yml that have $schema, $id, id, openapi or swagger at their roots or are referred to, without hidden folders and links; or - for standard input",
        ),
        Word::ReferringFile => named(
            "file",
            "FILE",
            Kind::Place,
            "The file that has the reference, or - for standard input",
        ),
        Word::RootFile => named(
            "file",
            "FILE",
            Kind::Place,
            "The schema file that becomes the root of the bundle",
        ),
        Word::DefiningFile => named(
            "file",
            "FILE",
            Kind::Place,
            "The file that has what is renamed",
        ),
        Word::Pointer => named(
            "pointer",
            "POINTER",
            Kind::Place,
            "The place in the file of what is renamed, as a JSON pointer",
        ),
        Word::Name => named(
            "name",
            "NAME",
            Kind::Place,
            "What it is called after: a key, with --anchor an anchor, with --id a URI",
        ),
        Word::Anchor => named(
            "anchor",
            "",
            Kind::Flag,
            "Rename the anchor of the schema there",
        ),
        Word::Id => named(
            "id",
            "",
            Kind::Flag,
            "Give the schema there another identifier",
        ),
        Word::Source => named(
            "source",
            "FROM",
            Kind::Place,
            "The file or the folder that is moved",
        ),
        Word::Target => named(
            "target",
            "TO",
            Kind::Place,
            "Where it is after: nothing is there yet, and its folder is",
        ),
        Word::Reference => named(
            "reference",
            "REF",
            Kind::Place,
            "The reference, as the value of a $ref",
        ),
        Word::From => named(
            "from",
            "POINTER",
            Kind::Value,
            "The place in the file that it is followed from, as a JSON pointer",
        ),
        Word::With => named(
            "with",
            "PATH",
            Kind::Values,
            "Another file or folder that references may lead into; may be repeated",
        ),
        Word::StdinPath => named(
            "stdin-path",
            "PATH",
            Kind::Value,
            "The path that standard input counts as, in messages, for its URI and for its format; the file needn't be there",
        ),
        Word::Exclude => named(
            "exclude",
            "PATH",
            Kind::Values,
            "Leave out this file, what is below this folder, or what a pattern of paths matches, as **/test/*.json; may be repeated",
        ),
        Word::NoIgnore => named(
            "no-ignore",
            "",
            Kind::Flag,
            "Also read what .gitignore leaves out of folders in a repository",
        ),
        Word::Config => named(
            "config",
            "FILE",
            Kind::Value,
            "The configuration; without it patchsard.toml in this folder or the next one above that has it",
        ),
        Word::NoConfig => named("no-config", "", Kind::Flag, "Read no configuration"),
        Word::PrintConfig => named(
            "print-config",
            "",
            Kind::Flag,
            "Print what the configuration and the command line ask for, as a configuration, and read nothing",
        ),
        Word::Yaml => named(
            "yaml",
            "",
            Kind::Flag,
            "Read each file below a folder that ends in .yaml or .yml",
        ),
        Word::Verbose => named(
            "verbose",
            "",
            Kind::Flag,
            "Also list references that were not checked and texts under $ref that are in no place, and say what is read though YAML 1.2 does not have it",
        ),
        Word::Quiet => named(
            "quiet",
            "",
            Kind::Flag,
            "Print the findings alone, without the last line that counts them, and no line that says how far it is",
        ),
        Word::NoProgress => named(
            "no-progress",
            "",
            Kind::Flag,
            "Print no line that says how far it is, where standard error is a terminal and it takes more than a second",
        ),
        Word::Rule => named(
            "rule",
            "RULE=LEVEL",
            Kind::Values,
            "Set a rule to error, warning, note or off, as missing-document=warning; may be repeated, and the last of a rule counts",
        ),
        Word::Level => named(
            "level",
            "LEVEL",
            Kind::Value,
            "List findings of this level and above, without it those of note; all are counted",
        ),
        Word::MaxWarnings => named(
            "max-warnings",
            "N",
            Kind::Value,
            "End with status 1 where there are more warnings than this",
        ),
        Word::Baseline => named(
            "baseline",
            "FILE",
            Kind::Value,
            "Neither list nor count the findings that this file has, as --write-baseline writes it",
        ),
        Word::WriteBaseline => named(
            "write-baseline",
            "",
            Kind::Flag,
            "Write all findings to the file of --baseline, so that they are known from then on",
        ),
        Word::Fix => named(
            "fix",
            "",
            Kind::Flag,
            "Write what is meant where a message suggests one text alone, and it leads somewhere; then list what is left",
        ),
        Word::DryRun => named(
            "dry-run",
            "",
            Kind::Flag,
            "With --fix, print the lines that would change, as a unified diff, and write nothing; the status is 1 where something would",
        ),
        Word::Preview => named(
            "dry-run",
            "",
            Kind::Flag,
            "Print the lines that would change, as a unified diff, and write nothing",
        ),
        Word::Statistics => named(
            "statistics",
            "",
            Kind::Flag,
            "Also print how many findings each rule has",
        ),
        Word::Format => named(
            "format",
            "FORMAT",
            Kind::Value,
            "How findings are printed; full is text with the line of the file. On a terminal it is full, and else text",
        ),
        Word::Color => named(
            "color",
            "WHEN",
            Kind::Value,
            "Whether text has colours: auto is on a terminal, unless NO_COLOR is set",
        ),
        Word::Form => named(
            "format",
            "FORMAT",
            Kind::Value,
            "Lines for people, or json: an object a line",
        ),
        Word::Language => named(
            "format",
            "FORMAT",
            Kind::Value,
            "The language of the drawing, or json: the files and their references as one object",
        ),
        Word::Components => named(
            "components",
            "",
            Kind::Flag,
            "Also draw components by themselves: what is below components, definitions, parameters, responses and $defs",
        ),
        Word::Connected => named(
            "connected",
            "",
            Kind::Flag,
            "Leave out files that have no reference and are not referred to",
        ),
        Word::Strict => named(
            "strict",
            "",
            Kind::Flag,
            "Refuse a bundle with an unresolvable pointer or anchor, and write nothing",
        ),
        Word::KeepTexts => named(
            "keep-texts",
            "",
            Kind::Flag,
            "Refuse a bundle in which a reference would have to be written otherwise, and write nothing",
        ),
        Word::Output => named(
            "output",
            "OUT",
            Kind::Value,
            "The file to write, in place of standard output; it stays as it was where there is no bundle",
        ),
        Word::Minify => named(
            "minify",
            "",
            Kind::Flag,
            "Write the bundle on one line, with the members of objects in byte order of their keys",
        ),
        Word::Base => named(
            "base",
            "URI",
            Kind::Value,
            "The URI of the folder given, below which files have theirs by their paths; without it they have file: URIs",
        ),
        Word::Draft => named(
            "draft",
            "DRAFT",
            Kind::Value,
            "The draft of files that name none; without it 2020-12",
        ),
        Word::Map => named(
            "map",
            "PREFIX=FOLDER",
            Kind::Values,
            "Read documents under URIs that begin so from this folder; may be repeated",
        ),
    }
}
