//! What is wrong with the documents, in the protocol's words.
ghost use Rattle.std.specs.Prelude.{◌≡◌};
ghost use Rattle.ref_protocol.specs.Positions.{place_of};
ghost use Rattle.ref_lsp.specs.Diagnostics as spec;

use crate::desk::{Desk, OpenText};
use crate::shown::Rules;
use ref_files::{Fault, Format};
use ref_findings::Problem;
use ref_fixes::{Replacement, mended};
use ref_messages::{Level, Message, Other};
use ref_outline::spans::{offset_of, part_in, token_end};
use ref_protocol::encoding::{Encoding, place_at};
use ref_protocol::pieces::{Range, push_comma, push_location, push_number, push_range, push_text};
use ref_workspace::{Describer, Finding, Known, Report, Silences};
use std::alloc::{AllocError, Global};
use std::collections::BTreeMap;

/// A change that mends a reference.
#[derive(Drop)]
pub struct Fix {
    /// The URI of its document.
    pub uri: String,
    /// What is replaced.
    pub range: Range,
    /// What comes in its place.
    pub text: String,
    /// What is meant.
    pub meant: String,
    /// Whether nothing else is as close as that.
    pub is_only: bool,
    /// What is wrong, as it is published.
    pub diagnostic: String,
}

/// Which documents are judged, and which are looked at for that, by flags: one without a flag is.
#[derive(Drop)]
pub struct Bounds {
    /// Those that are judged.
    pub judged: Vec<bool>,
    /// Those that are looked at.
    pub there: Vec<bool>,
    /// What is known of all documents; where nothing is, it is found out.
    pub known: Option<Known>,
}

impl Bounds {
    /// All.
    pub fn all(alloc: Global) -> Bounds {
        Bounds {
            judged: Vec::new(alloc),
            there: Vec::new(alloc),
            known: None,
        }
    }

    /// Whether the document with a number is judged.
    pub fn has(&self, number: usize) -> bool
        ensures value { result ≡ spec.is_judged self.now.judged.items number }
    {
        self.judged.get(number).copied().unwrap_or(true)
    }
}

/// What is to be known of the judgement on a document when others are judged anew.
#[derive(Drop)]
pub struct Note {
    /// The URI that its list of diagnostics is under, where it has one.
    pub uri: Option<String>,
    /// Whether it refers to a document that isn't there.
    pub is_wanting: bool,
    /// How many of its findings something was looked for that may be meant.
    pub searches: usize,
}

/// What is wrong with the documents that were judged.
#[derive(Drop)]
pub struct Judged {
    /// The lists of diagnostics in JSON, without the end of the list, by the URIs of the documents that have some.
    pub lists: BTreeMap<String, String>,
    /// The changes that mend something.
    pub fixes: Vec<Fix>,
    /// By the numbers of the documents, what is to be known of each that was judged.
    pub notes: Vec<Note>,
    /// What is known of all documents; of those that were judged, whether what references lead to was looked at.
    pub known: Known,
}

/// What is wrong with documents of a desk.
pub fn judge(desk: &Desk<'_>, rules: &mut Rules, bounds: &Bounds) -> Result<Judged, AllocError> {
    let alloc = desk.alloc();
    let Report {
        findings,
        is_led,
        may_come_back,
        unused,
        ..
    } = report_within(desk, bounds)?;
    let findings = within(alloc, bounds, findings)?;
    let known = Known {
        is_led,
        may_come_back,
        unused,
    };
    let mut judged = Judged::new(desk, known)?;
    judged.note_all(findings.as_slice());
    judged.add_all(desk, rules, bounds, findings.as_slice())?;
    for open in &desk.open {
        judged.add_open(desk, rules, bounds, open)?;
    }
    Ok(judged)
}

// What is wrong with the documents that are looked at.
fn report_within<'d>(desk: &'d Desk<'_>, bounds: &Bounds) -> Result<Report<'d>, AllocError> {
    let there = bounds.there.as_slice();
    match &bounds.known {
        Some(known) => desk
            .workspace
            .report_among(desk.alloc(), there, known.again()?),
        None => desk.workspace.full_report(desk.alloc()),
    }
}

// Those findings that are in documents that are judged.
fn within<'d>(
    alloc: Global,
    bounds: &Bounds,
    findings: Vec<Finding<'d>>,
) -> Result<Vec<Finding<'d>>, AllocError> {
    let mut list = Vec::new(alloc);
    for finding in findings {
        if bounds.has(finding.source) {
            push_finding(&mut list, finding)?;
        }
    }
    Ok(list)
}

fn push_finding<'d>(list: &mut Vec<Finding<'d>>, finding: Finding<'d>) -> Result<(), AllocError> {
    list.push(finding)?;
    Ok(())
}

// The level of a finding with a message on it: nothing where it isn't shown.
fn level_of(
    desk: &Desk<'_>,
    rules: &mut Rules,
    silences: &mut Silences<'_>,
    finding: &Finding<'_>,
    message: &Message<'_>,
) -> Result<Option<Level>, AllocError> {
    let path = desk.path_of(finding.source);
    let own = if finding.problem.is_off() {
        None
    } else {
        Some(message.level)
    };
    let Some(level) = rules.level(path, message.code, own)? else {
        return Ok(None);
    };
    if silences.has(finding, message.line, message.code)? || !rules.shows(level) {
        return Ok(None);
    }
    Ok(Some(level))
}

impl Judged {
    // Nothing yet.
    fn new(desk: &Desk<'_>, known: Known) -> Result<Judged, AllocError> {
        let alloc = desk.alloc();
        let mut notes = Vec::with_capacity(alloc, desk.workspace.len())?;
        for _ in 0..desk.workspace.len() {
            notes.push(Note {
                uri: None,
                is_wanting: false,
                searches: 0,
            })?;
        }
        Ok(Judged {
            lists: BTreeMap::new(alloc),
            fixes: Vec::new(alloc),
            notes,
            known,
        })
    }

    // Notes what is to be known of findings.
    fn note_all(&mut self, findings: &[Finding<'_>]) {
        for finding in findings {
            if let Some(note) = self.notes.get_mut(finding.source) {
                match finding.problem.plain() {
                    Some(Problem::MissingDocument { .. }) => {
                        note.is_wanting = true;
                        note.searches = note.searches.saturating_add(1);
                    }
                    Some(Problem::LeadsNowhere { .. } | Problem::UnknownDialect { .. }) => {
                        note.searches = note.searches.saturating_add(1);
                    }
                    _ => {}
                }
            }
        }
    }

    // Adds what is found, but for what isn't shown, or is in a text that has been left.
    fn add_all(
        &mut self,
        desk: &Desk<'_>,
        rules: &mut Rules,
        bounds: &Bounds,
        findings: &[Finding<'_>],
    ) -> Result<(), AllocError> {
        let alloc = desk.alloc();
        let has_unchecked = rules.has_unchecked();
        let there = bounds.there.as_slice();
        let mut silences = Silences::of(alloc, &desk.workspace)?;
        let mut describer = Describer::among(
            alloc,
            &desk.workspace,
            findings,
            has_unchecked,
            there,
        )?;
        for place in 0..describer.len() {
            self.add_at(desk, rules, &mut silences, &mut describer, place)?;
        }
        self.add_silences(desk, rules, bounds, &silences)
    }

    // Adds what is found at a place of the list, unless it isn't shown, or is in a text that has been left.
    fn add_at(
        &mut self,
        desk: &Desk<'_>,
        rules: &mut Rules,
        silences: &mut Silences<'_>,
        describer: &mut Describer<'_, '_>,
        place: usize,
    ) -> Result<(), AllocError> {
        let Some(finding) = describer.finding(place) else {
            return Ok(());
        };
        if desk.fault_of(finding.source).is_some() {
            return Ok(());
        }
        let Some(mut message) = describer.message(place)? else {
            return Ok(());
        };
        let added = match level_of(desk, rules, silences, finding, &message) {
            Ok(Some(level)) => {
                message.level = level;
                message.help = describer.help(place)?;
                self.add(desk, finding, &message)
            }
            Ok(None) => Ok(()),
            Err(error) => Err(error),
        };
        drop(message);
        added
    }

    // Adds that an open text has no value, where it has none.
    fn add_open(
        &mut self,
        desk: &Desk<'_>,
        rules: &mut Rules,
        bounds: &Bounds,
        open: &OpenText,
    ) -> Result<(), AllocError> {
        let (Some(number), Some(fault)) = (open.number, &open.fault) else {
            return Ok(());
        };
        if !bounds.has(number) {
            return Ok(());
        }
        let code = match open.format {
            Format::Json => "not-json",
            Format::Yaml => "not-yaml",
        };
        match rules.level(desk.path_of(number), code, Some(Level::Error))? {
            Some(level) if rules.shows(level) => {
                self.add_fault(desk, number, (code, level), fault)
            }
            _ => Ok(()),
        }
    }

    fn add(
        &mut self,
        desk: &Desk<'_>,
        finding: &Finding<'_>,
        message: &Message<'_>,
    ) -> Result<(), AllocError> {
        let alloc = desk.alloc();
        let uri = desk.client_uri(finding.source)?;
        let (format, text) = desk.text_of(finding.source);
        let start = offset_of(text, message.line, message.column);
        let end = end_at(alloc, format, text, start)?;
        let range = range_of(desk, text, start, end);
        let said = said(alloc, message)?;
        let mut out = String::new(alloc);
        push_head(alloc, &mut out, range, message, said.as_str())?;
        if let (Some(first), true) = (&message.first, desk.takes_related) {
            push_first(desk, &mut out, first)?;
        }
        out.push('}')?;
        if let Some(part) = mended(alloc, finding, message, (format, text))? {
            let diagnostic = out.clone()?;
            self.add_fix(desk, uri.clone()?, text, part, message, diagnostic)?;
        }
        self.push(alloc, finding.source, uri, out.as_str())
    }

    fn add_fix(
        &mut self,
        desk: &Desk<'_>,
        uri: String,
        text: &str,
        part: Replacement,
        message: &Message<'_>,
        diagnostic: String,
    ) -> Result<(), AllocError> {
        let alloc = desk.alloc();
        let range = range_of(desk, text, part.start, part.end);
        let meant = match &message.suggestion {
            Some(meant) => meant.clone()?,
            None => String::new(alloc),
        };
        self.fixes.push(Fix {
            uri,
            range,
            text: part.text,
            meant,
            is_only: message.is_only,
            diagnostic,
        })?;
        Ok(())
    }

    // Adds that the text of a document has no value.
    fn add_fault(
        &mut self,
        desk: &Desk<'_>,
        number: usize,
        (code, level): (&str, Level),
        fault: &Fault,
    ) -> Result<(), AllocError> {
        let alloc = desk.alloc();
        let (_, text) = desk.text_of(number);
        let start = offset_of(text, fault.line, fault.column);
        let range = range_of(desk, text, start, token_end(text, start));
        let mut out = String::new(alloc);
        push_range(&mut out, "{\"range\":", range)?;
        push_number(&mut out, ",\"severity\":", severity_of(level))?;
        push_text(alloc, &mut out, ",\"code\":", code)?;
        push_text(
            alloc,
            &mut out,
            ",\"source\":\"patchsard\",\"message\":",
            fault.text.as_str(),
        )?;
        out.push('}')?;
        let uri = desk.client_uri(number)?;
        self.push(alloc, number, uri, out.as_str())
    }

    /// Adds a diagnostic to the list of the document with a number.
    pub(crate) fn push(
        &mut self,
        alloc: Global,
        number: usize,
        uri: String,
        diagnostic: &str,
    ) -> Result<(), AllocError> {
        if let Some(note) = self.notes.get_mut(number) {
            if note.uri.is_none() {
                note.uri = Some(uri.clone()?);
            }
        }
        if let Some(list) = self.lists.get_mut(uri.as_str()) {
            push_comma(list)?;
            return list.push_str(diagnostic);
        }
        let mut list = String::from_str(alloc, "[")?;
        list.push_str(diagnostic)?;
        self.lists.insert(uri, list)?;
        Ok(())
    }
}

/// The range between two offsets of a text, as the client counts.
pub fn range_of(desk: &Desk<'_>, text: &str, start: usize, end: usize) -> Range {
    range_in(desk.encoding, text, start, end)
}

// The range between two offsets of a text.
fn range_in(encoding: Encoding, text: &str, start: usize, end: usize) -> Range
    ensures { result
        ≡ (place_of encoding 0 0 start text.now, place_of encoding 0 0 end text.now) }
{
    (
        place_at(text, start, encoding),
        place_at(text, end, encoding),
    )
}

/// The offset after the key or the scalar that begins at an offset, on its line. In a block of YAML no comma and no bracket ends one without quotes, so
/// that the text is read where one comes after it.
pub(crate) fn end_at(
    alloc: Global,
    format: Format,
    text: &str,
    start: usize,
) -> Result<usize, AllocError> {
    let end = token_end(text, start);
    let rest = text.get(end..).unwrap_or("");
    let token = text.get(start..end).unwrap_or("");
    if format == Format::Json || is_quoted(token.as_bytes()) || !may_go_on(rest.as_bytes()) {
        return Ok(end);
    }
    match part_in(alloc, format, text, start)? {
        Some(part) if part.start == start && end < part.end => {
            let token = text.get(start..part.end).unwrap_or("");
            let line = token.split_once('\n').map_or(token, |(line, _)| line);
            Ok(start.saturating_add(line.trim_end().len()))
        }
        _ => Ok(end),
    }
}

// Whether bytes begin with a quote or a bracket that opens.
fn is_quoted(bytes: &[u8]) -> bool
    ensures { result ≡ spec.is_quoted bytes.now }
{
    match bytes {
        [] => false,
        [first, ..] => *first == b'"' || *first == b'\'' || *first == b'[' || *first == b'{',
    }
}

// Whether what comes after a scalar may belong to it in a block of YAML: a comma or a bracket that closes, after blanks.
fn may_go_on(bytes: &[u8]) -> bool
    ensures { result ≡ spec.may_go_on bytes.now }
{
    let mut rest = bytes;
    'bytes: while let [byte, more @ ..] = rest {
        if *byte != b' ' && *byte != b'\t' {
            return *byte == b',' || *byte == b']' || *byte == b'}';
        }
        rest = more;
    }
    false
}

/// The number of a severity.
pub(crate) fn severity_of(level: Level) -> usize
    ensures value { result ≡ spec.severity_of level }
{
    match level {
        Level::Error => 1,
        Level::Warning => 2,
        Level::Note => 3,
    }
}

fn push_head(
    alloc: Global,
    out: &mut String,
    range: Range,
    message: &Message<'_>,
    said: &str,
) -> Result<(), AllocError> {
    push_range(out, "{\"range\":", range)?;
    push_number(out, ",\"severity\":", severity_of(message.level))?;
    push_text(alloc, out, ",\"code\":", message.code)?;
    push_text(alloc, out, ",\"source\":\"patchsard\",\"message\":", said)?;
    push_marks(out, message.code)
}

/// Adds that what a finding of a rule is on is not needed, where that is so.
pub(crate) fn push_marks(out: &mut String, code: &str) -> Result<(), AllocError> {
    if code.starts_with("unused") {
        out.push_str(",\"tags\":[1]")?;
    }
    Ok(())
}

// What a message says, in one text.
fn said(alloc: Global, message: &Message<'_>) -> Result<String, AllocError> {
    let mut text = message.text.clone()?;
    if let Some(resolved) = &message.resolved {
        let keyword = message.keyword.unwrap_or("");
        let reference = message.reference.unwrap_or("");
        write!(text, "\n{keyword} '{reference}' is {resolved}")?;
    }
    if let Some(suggestion) = &message.suggestion {
        write!(text, "\ndid you mean '{suggestion}'?")?;
    }
    if let Some(help) = &message.help {
        write!(text, "\nhelp: {help}")?;
    }
    let _ = alloc;
    Ok(text)
}

fn push_first(desk: &Desk<'_>, out: &mut String, first: &Other) -> Result<(), AllocError> {
    let alloc = desk.alloc();
    let documents = desk.workspace.documents();
    let Some(number) = documents
        .iter()
        .position(|other| other.name.as_str() == first.file.as_str())
    else {
        return Ok(());
    };
    let (format, text) = desk.text_of(number);
    let start = offset_of(text, first.line, first.column);
    let end = end_at(alloc, format, text, start)?;
    let range = range_of(desk, text, start, end);
    out.push_str(",\"relatedInformation\":[{\"location\":")?;
    push_location(alloc, out, desk.client_uri(number)?.as_str(), range)?;
    out.push_str(",\"message\":\"first\"}]")
}
