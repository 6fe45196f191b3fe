//! What `lint` has counted, and the exit status that it comes to. Read `specs/Outcome.antt` first.
ghost use Rattle.std.specs.Prelude.{◌≡◌};
ghost use Rattle.ref_commands.specs.Outcome as spec;

use ref_messages::Level;

/// How many references and findings there are.
#[derive(Clone, Copy, Drop)]
pub(crate) struct Count {
    /// How many documents are descriptions.
    pub descriptions: usize,
    /// How many places these have.
    pub places: usize,
    /// How many places the other documents have.
    pub schema_places: usize,
    /// How many references there are.
    pub references: usize,
    /// How many texts are under a `$ref` that is in no place.
    pub unplaced: usize,
    /// How many findings a comment silences.
    pub silenced: usize,
    /// How many findings are known.
    pub known: usize,
    /// How many of those that are listed are errors.
    pub errors: usize,
    /// How many are warnings.
    pub warnings: usize,
    /// How many are notes.
    pub notes: usize,
    /// How many files are neither JSON nor YAML, are descriptions whose references aren't checked, or have a root that is no schema.
    pub unread: usize,
}

impl Count {
    /// Whether something in so many files was looked at: one of them was read, or there is a reference.
    pub fn is_looked_at(self, files: usize) -> bool
        ensures value { result ≡ spec.is_looked_at self files }
    {
        files > self.unread || self.references > 0
    }

    /// Counts a finding of a level that is listed.
    pub fn add(&mut self, level: Level)
        ensures value { self.new ≡ spec.with_finding level self.old }
    {
        match level {
            Level::Error => self.errors = self.errors.saturating_add(1),
            Level::Warning => self.warnings = self.warnings.saturating_add(1),
            Level::Note => self.notes = self.notes.saturating_add(1),
        }
    }
}

/// The exit status of a run: 2 where a path couldn't be read, or else 0 where all is fine and 1 where it isn't.
pub(crate) fn status_of(is_fine: bool, has_failed: bool) -> u8
    ensures value { result ≡ spec.status is_fine has_failed }
{
    if has_failed {
        return 2;
    }
    if is_fine { 0 } else { 1 }
}

/// The exit status of `lint` of so many files: 2 where a path couldn't be read, or else 0 where no finding is an error, at most so many are
/// warnings, and something was looked at, and 1 where not.
pub(crate) fn lint_status(
    count: Count,
    files: usize,
    most_warnings: Option<usize>,
    has_failed: bool,
) -> u8
    ensures value { result ≡ spec.lint_status count files most_warnings has_failed }
{
    let is_within = match most_warnings {
        Some(most) => count.warnings <= most,
        None => true,
    };
    let is_fine = count.errors == 0 && is_within && count.is_looked_at(files);
    status_of(is_fine, has_failed)
}

/// Why nothing was looked at.
#[derive(Clone, Copy, Drop)]
pub(crate) enum Nothing {
    /// The files that were found are of YAML, and each was passed over.
    PassedOver,
    /// The files that were found are those that Git leaves out.
    Ignored,
    /// No file was found.
    NoFile,
    /// Files were found, and nothing in them is a schema or a description.
    Within,
}

/// Why nothing was looked at in so many files, where so many of YAML were passed over, and Git leaves so many out.
pub(crate) fn nothing_of(files: usize, passed: usize, ignored: usize) -> Nothing
    ensures value { result ≡ spec.nothing_of files passed ignored }
{
    if files > 0 {
        Nothing::Within
    } else if passed > 0 {
        Nothing::PassedOver
    } else if ignored > 0 {
        Nothing::Ignored
    } else {
        Nothing::NoFile
    }
}

/// Whether parts of the output are set off by colours: where that is asked for, or else on a terminal that has them, unless the
/// environment asks for none.
pub(crate) fn is_colored(
    choice: Option<bool>,
    is_terminal: bool,
    has_none: bool,
    is_dumb: bool,
) -> bool
    ensures value { result ≡ spec.is_colored choice is_terminal has_none is_dumb }
{
    match choice {
        Some(is_on) => is_on,
        None => is_terminal && !has_none && !is_dumb,
    }
}
