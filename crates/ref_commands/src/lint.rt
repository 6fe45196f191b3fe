//! `patchsard lint`.
use crate::fix::make_fixes;
use crate::known::Known;
use crate::left_out::{say_broken, say_leniencies, say_unplaced};
use crate::listed::{Form, Listing, Statistics};
use crate::message::message_at;
use crate::opened::{Opened, open_given};
use crate::outcome::{Count, Nothing, lint_status, nothing_of, status_of};
use crate::printed::print_configured;
use crate::unused_silences::{is_told, silence_message};
use clap::ArgMatches;
use ref_command_line::{Configured, Console, Stop, say};
use ref_findings::Problem;
use ref_messages::{
    Level, Message, Unlooked, push_annotation, push_full, push_gitlab, push_junit, push_line,
    push_sarif, push_text,
};
use ref_workspace::{Describer, Document, Finding, RULES, UnusedSilence};
use std::alloc::{AllocError, Global};
use std::io;
use std::time::Instant;

/// Lists what is wrong with the references of files. The status is 0 where nothing is, 1 where something is or nothing was looked
/// at, and 2 where a path couldn't be read.
pub fn lint<'a>(
    rt: &HostRuntime,
    console: &mut Console<'_>,
    given: &ArgMatches<'a>,
    configured: &'a Configured,
) -> Result<u8, Stop> {
    let begin = Instant::now(rt);
    let mut listing = Listing::of(rt, given, configured)?;
    if given.get_flag("print-config") {
        return print_configured(rt, console, given, configured, &listing);
    }
    if given.get_flag("dry-run") && !given.get_flag("fix") {
        say(rt, "--dry-run: it is of --fix, which isn't there");
        return Err(Stop::Reported);
    }
    let mut opened = open_given(rt, given, configured)?;
    opened.workspace.tell_beside(listing.tells_beside());
    let mut fixed: usize = 0;
    if given.get_flag("fix") {
        fixed = make_fixes(rt, console, given, &mut listing, &mut opened)?;
        if given.get_flag("dry-run") {
            let has_failed = opened.has_failed;
            let _ = opened.keep();
            return Ok(status_of(fixed == 0, has_failed));
        }
    }
    let workspace = &opened.workspace;
    let others = workspace
        .documents()
        .get(workspace.asked()..workspace.opened());
    say_broken(rt, others.unwrap_or(&[]));
    if listing.is_verbose {
        say_leniencies(rt, workspace.documents())?;
    }
    let listed = list_all(rt, console, given, &mut listing, &opened);
    let (has_failed, passed) = (opened.has_failed, (opened.passed, opened.ignored));
    let files = opened.keep();
    let Some(count) = count_of(listed)? else {
        console.out.clear();
        return Ok(1);
    };
    if !listing.is_quiet {
        summary(rt, files, (count, fixed), passed)?;
        print_time(rt, begin);
    }
    if !count.is_looked_at(files) && !has_failed {
        say_nothing(rt, files, passed);
    }
    Ok(lint_status(count, files, listing.most_warnings, has_failed))
}

// The count, or nothing where standard output is closed.
fn count_of(count: Result<Count, Stop>) -> Result<Option<Count>, Stop> {
    match count {
        Ok(count) => Ok(Some(count)),
        Err(Stop::Closed) => Ok(None),
        Err(stop) => Err(stop),
    }
}

// Says that no reference was looked at, which is no all-clear.
fn say_nothing(rt: &HostRuntime, files: usize, (passed, ignored): (usize, usize)) {
    let why = match nothing_of(files, passed, ignored) {
        Nothing::PassedOver => {
            "each file was passed over: of YAML below a folder those are read that have $schema, $id, id, openapi or swagger at their roots; name a file to read it, or read all by --yaml"
        }
        Nothing::Ignored => {
            "no file was found but what .gitignore leaves out: name a file to read it, or read all by --no-ignore"
        }
        Nothing::NoFile => {
            "no file was found: a path is a file, or a folder with files whose names end in .json, .yaml or .yml"
        }
        Nothing::Within => "nothing was looked at in any of these files",
    };
    say(rt, why);
}

// How many documents have a root that is neither an object nor a boolean, and so no schema.
fn other_roots_in(documents: &[Document]) -> usize {
    let mut count: usize = 0;
    for document in documents {
        if let Some(value) = document.value() {
            if !value.is_object() && !value.is_boolean() {
                count = count.saturating_add(1);
            }
        }
    }
    count
}

// How many sources have no value, or are descriptions whose references aren't checked.
fn unread_in(findings: &[Finding<'_>]) -> usize {
    let mut count: usize = 0;
    for finding in findings {
        if matches!(
            finding.problem.plain(),
            Some(Problem::NotJson | Problem::NotChecked)
        ) {
            count = count.saturating_add(1);
        }
    }
    count
}

// Ends the last line on standard error with the time since it began.
fn print_time(rt: &HostRuntime, begin: io::Result<Instant>) {
    let Ok(begin) = begin else {
        return;
    };
    if let Ok(time) = begin.elapsed(rt) {
        let _ = eprintln!(rt; " in {}.{:02} s", time.as_secs(), time.subsec_millis() / 10);
    }
}

// Prints the findings of files.
fn list_all(
    rt: &HostRuntime,
    console: &mut Console<'_>,
    given: &ArgMatches<'_>,
    listing: &mut Listing,
    opened: &Opened<'_>,
) -> Result<Count, Stop> {
    let alloc = rt.alloc();
    let report = opened.report(alloc)?;
    let findings = report.findings.as_slice();
    if listing.is_verbose {
        let unplaced = report.unplaced.as_slice();
        say_unplaced(rt, opened.workspace.documents(), unplaced)?;
    }
    let mut describer = Describer::new(
        alloc,
        &opened.workspace,
        findings,
        listing.has_unchecked(),
    )?;
    let count = Count {
        descriptions: report.descriptions,
        places: report.places,
        schema_places: report.schema_places,
        references: report.references,
        unplaced: report.unplaced.len(),
        silenced: 0,
        known: 0,
        errors: 0,
        warnings: 0,
        notes: 0,
        unread: unread_in(findings).saturating_add(other_roots_in(opened.workspace.asked_about())),
    };
    let mut tally = Tally {
        count,
        statistics: Statistics::new(alloc),
        known: Known::of(rt, given, opened)?,
    };
    let printed = print(rt, opened, console, listing, &mut describer, &mut tally);
    drop(describer);
    printed?;
    if listing.has_statistics {
        tally.statistics.say(rt);
    }
    tally.known.finish(rt, given)?;
    Ok(tally.finished())
}

// Prints the messages on findings, and counts them.
fn print<'d>(
    rt: &HostRuntime,
    opened: &'d Opened<'_>,
    console: &mut Console<'_>,
    listing: &mut Listing,
    describer: &mut Describer<'_, 'd>,
    tally: &mut Tally<'d>,
) -> Result<(), Stop> {
    match listing.form {
        Form::Sarif | Form::GitLab | Form::JUnit => {
            print_whole(rt, opened, console, listing, describer, tally)?;
        }
        _ => print_each(rt, opened, console, listing, describer, tally)?,
    }
    console.finish()
}

// The message on the finding at a place, where it is listed, with the level that its rule is set to; and counts it.
fn counted<'m>(
    rt: &HostRuntime,
    opened: &Opened<'_>,
    listing: &mut Listing,
    describer: &mut Describer<'_, 'm>,
    place: usize,
    tally: &mut Tally<'_>,
) -> Result<Option<Message<'m>>, AllocError> {
    let Some(mut message) = message_at(rt, opened, describer, place)? else {
        return Ok(None);
    };
    match tally.level_of(opened, listing, describer, place, &message) {
        Ok(Some(level)) => {
            message.level = level;
            if listing.is_printed(level) {
                return Ok(Some(message));
            }
            drop(message);
            Ok(None)
        }
        Ok(None) => {
            drop(message);
            Ok(None)
        }
        Err(error) => {
            drop(message);
            Err(error)
        }
    }
}

fn print_each<'d>(
    rt: &HostRuntime,
    opened: &'d Opened<'_>,
    console: &mut Console<'_>,
    listing: &mut Listing,
    describer: &mut Describer<'_, 'd>,
    tally: &mut Tally<'d>,
) -> Result<(), Stop> {
    for place in 0..describer.len() {
        if let Some(message) = counted(rt, opened, listing, describer, place, tally)? {
            let pushed = push_message(rt.alloc(), console, listing, &message);
            drop(message);
            pushed?;
        }
    }
    let unused = tally.known.silences.unused(opened.workspace.asked())?;
    for (place, silence) in &unused {
        let counted = silence_counted(rt.alloc(), opened, listing, *place, silence, tally)?;
        if let Some(message) = counted {
            let pushed = push_message(rt.alloc(), console, listing, &message);
            drop(message);
            pushed?;
        }
    }
    Ok(())
}

// The message on a comment that silences nothing, where it is listed, with the level that its rule is set to; and counts it.
fn silence_counted<'m>(
    alloc: Global,
    opened: &'m Opened<'_>,
    listing: &mut Listing,
    place: (usize, usize, usize),
    silence: &UnusedSilence<'m>,
    tally: &mut Tally<'_>,
) -> Result<Option<Message<'m>>, AllocError> {
    let mut message = silence_message(alloc, opened, place, silence)?;
    match tally.level_of_silence(alloc, opened, listing, (place.0, silence), &message) {
        Ok(Some(level)) if listing.is_printed(level) => {
            message.level = level;
            Ok(Some(message))
        }
        Ok(_) => {
            drop(message);
            Ok(None)
        }
        Err(error) => {
            drop(message);
            Err(error)
        }
    }
}

// Prints all as one log or report.
fn print_whole<'d>(
    rt: &HostRuntime,
    opened: &'d Opened<'_>,
    console: &mut Console<'_>,
    listing: &mut Listing,
    describer: &mut Describer<'_, 'd>,
    tally: &mut Tally<'d>,
) -> Result<(), AllocError> {
    let alloc = rt.alloc();
    let mut messages = Vec::new(alloc);
    for place in 0..describer.len() {
        if let Some(message) = counted(rt, opened, listing, describer, place, tally)? {
            keep(&mut messages, message)?;
        }
    }
    let unused = tally.known.silences.unused(opened.workspace.asked())?;
    for (place, silence) in &unused {
        if let Some(message) = silence_counted(alloc, opened, listing, *place, silence, tally)? {
            keep(&mut messages, message)?;
        }
    }
    let messages = messages.as_slice();
    let unlooked = unlooked_of(alloc, opened, tally.count)?;
    let unlooked = unlooked.as_slice();
    match listing.form {
        Form::GitLab => push_gitlab(alloc, &mut console.out, messages, unlooked),
        Form::JUnit => push_junit(&mut console.out, messages, unlooked),
        _ => push_sarif(alloc, &mut console.out, "0.1.0", RULES, messages, unlooked),
    }
}

// What wasn't looked at: the paths that couldn't be read, or else all, where nothing was looked at.
fn unlooked_of<'o>(
    alloc: Global,
    opened: &'o Opened<'_>,
    count: Count,
) -> Result<Vec<Unlooked<'o>>, AllocError> {
    let mut list = Vec::new(alloc);
    for failure in &opened.failures {
        if opened.has_failed {
            let path = Some(failure.path.as_str());
            let why = failure.why.as_str();
            push_unlooked(&mut list, Unlooked { path, why })?;
        }
    }
    let why = if opened.has_failed {
        "a path couldn't be read: standard error says which"
    } else {
        "nothing was looked at"
    };
    let is_all = !opened.has_failed && count.is_looked_at(opened.workspace.asked());
    if list.is_empty() && !is_all {
        push_unlooked(&mut list, Unlooked { path: None, why })?;
    }
    Ok(list)
}

fn push_unlooked<'o>(
    list: &mut Vec<Unlooked<'o>>,
    unlooked: Unlooked<'o>,
) -> Result<(), AllocError> {
    list.push(unlooked)?;
    Ok(())
}

fn keep<'m>(messages: &mut Vec<Message<'m>>, message: Message<'m>) -> Result<(), AllocError> {
    messages.push(message)?;
    Ok(())
}

fn push_message(
    alloc: Global,
    console: &mut Console<'_>,
    listing: &Listing,
    message: &Message<'_>,
) -> Result<(), Stop> {
    match listing.form {
        Form::Lines => push_line(alloc, &mut console.out, message)?,
        Form::GitHub => push_annotation(&mut console.out, message)?,
        Form::Full => push_full(&mut console.out, message, listing.color)?,
        _ => push_text(&mut console.out, message, listing.color)?,
    }
    console.pass()
}

// What becomes of findings.
#[derive(Drop)]
struct Tally<'d> {
    count: Count,
    statistics: Statistics,
    known: Known<'d>,
}

impl Tally<'_> {
    // The level of a finding, where it is listed, with a message on it; and counts it.
    fn level_of(
        &mut self,
        opened: &Opened<'_>,
        listing: &mut Listing,
        describer: &Describer<'_, '_>,
        place: usize,
        message: &Message<'_>,
    ) -> Result<Option<Level>, AllocError> {
        let Some(finding) = describer.finding(place) else {
            return Ok(None);
        };
        let path = match opened.paths.get(finding.source) {
            Some(path) => path.as_str(),
            None => "",
        };
        let Some(level) = listing.level_of(path, finding, message)? else {
            return Ok(None);
        };
        if self
            .known
            .silences
            .has(finding, message.line, message.code)?
        {
            self.known.silenced = self.known.silenced.saturating_add(1);
            return Ok(None);
        }
        if self.known.has(path, message)? {
            return Ok(None);
        }
        self.count.add(level);
        self.statistics.add(message.code)?;
        Ok(Some(level))
    }

    // The level of a comment that silences nothing, in the document with a number, where it is listed, with a message on it; and counts it.
    fn level_of_silence(
        &mut self,
        alloc: Global,
        opened: &Opened<'_>,
        listing: &mut Listing,
        (source, silence): (usize, &UnusedSilence<'_>),
        message: &Message<'_>,
    ) -> Result<Option<Level>, AllocError> {
        let path = match opened.paths.get(source) {
            Some(path) => path.as_str(),
            None => "",
        };
        let Some(level) = listing.levels.level(path, message.code, message.level)? else {
            return Ok(None);
        };
        if !is_told(alloc, listing, path, silence)? || self.known.has(path, message)? {
            return Ok(None);
        }
        self.count.add(level);
        self.statistics.add(message.code)?;
        Ok(Some(level))
    }

    // The count of all.
    fn finished(&self) -> Count {
        let mut count = self.count;
        count.silenced = self.known.silenced;
        count.known = self.known.passed;
        count
    }
}

// The last line on standard error, but for the time.
fn summary(
    rt: &HostRuntime,
    files: usize,
    (count, fixed): (Count, usize),
    (passed, ignored): (usize, usize),
) -> Result<(), Stop> {
    let mut line = String::new(rt.alloc());
    push_count(&mut line, files, "file")?;
    line.push_str(", ")?;
    if count.descriptions > 0 {
        push_count(&mut line, count.descriptions, "description")?;
        line.push_str(" with ")?;
        push_count(&mut line, count.places, "place")?;
        line.push_str(", ")?;
    }
    if count.descriptions == 0 {
        push_count(&mut line, count.schema_places, "place")?;
        line.push_str(", ")?;
    } else if count.schema_places > 0 {
        push_count(&mut line, count.schema_places, "other place")?;
        line.push_str(", ")?;
    }
    push_count(&mut line, count.references, "reference")?;
    line.push_str(", ")?;
    push_count(&mut line, count.errors, "error")?;
    line.push_str(", ")?;
    push_count(&mut line, count.warnings, "warning")?;
    line.push_str(", ")?;
    push_count(&mut line, count.notes, "note")?;
    if fixed > 0 {
        write!(line, ", {fixed} fixed")?;
    }
    if count.unplaced > 0 {
        line.push_str(", ")?;
        push_count(&mut line, count.unplaced, "text")?;
        line.push_str(" under $ref in no place")?;
    }
    if count.silenced > 0 {
        write!(line, ", {} silenced", count.silenced)?;
    }
    if count.known > 0 {
        write!(line, ", {} known", count.known)?;
    }
    if passed > 0 {
        line.push_str(", ")?;
        push_count(&mut line, passed, "YAML file")?;
        line.push_str(" passed over")?;
    }
    if ignored > 0 {
        write!(line, ", {ignored} left out by .gitignore")?;
    }
    let _ = eprint!(rt; "{line}");
    Ok(())
}

fn push_count(line: &mut String, count: usize, what: &str) -> Result<(), AllocError> {
    write!(line, "{count} {what}")?;
    if count == 1 { Ok(()) } else { line.push('s') }
}
