//! Findings as messages.
use crate::components::component_named;
use crate::documents::{meant_document, other_uri};
use crate::finding::{Finding, Problem};
use crate::named::Named;
use crate::resources::Resources;
use crate::rules::code_of;
use crate::spots::{Spots, first_of, spots_of};
use crate::suggestions::{Meant, suggestion};
use crate::told::{
    beside_text, case_text, endless_text, no_schema_text, plain_help, repeated_text, told_help,
    told_suggestion, told_text, unused_text,
};
use crate::why::{fault_text, near_dialect, uri_text};
use crate::workspace::Workspace;
use ref_descriptions::Kind;
use ref_draft::Draft;
use ref_error::Error;
use ref_files::Fault;
use ref_findings::{Bearer, Level as Severity, Problem as Plain};
use ref_messages::{Excerpt, Level, Message, Other, Suggester};
use ref_parts::pointer_of;
use ref_positions::line_and_column;
use ref_uri::Uri;
use std::alloc::{AllocError, Global};
use std::collections::BTreeMap;

// How many steps suggestions may take in all.
const STEPS: usize = 3_200_000;

/// The messages on findings, in the order in which they are listed: by file, line and column.
#[derive(Drop)]
pub struct Describer<'l, 'd> {
    alloc: Global,
    workspace: &'d Workspace,
    list: &'l [Finding<'d>],
    // The file, the line, the column and the number of each that is listed.
    order: Vec<(usize, usize, usize, usize)>,
    spots: Spots<'d>,
    // By the numbers of the documents, whether references of the findings may lead into one. One without a flag may be led into.
    there: Vec<bool>,
    // What pointers and anchors may mean in these documents, once something is to be suggested and these aren't all.
    near: Option<Resources<'d>>,
    // What references may mean, once something is to be suggested.
    resources: Option<Resources<'d>>,
    suggester: Suggester,
    // Where identifiers and anchors are in the documents with these numbers, once something is to be said of a reference to one.
    named: BTreeMap<usize, Named>,
}

impl<'l, 'd> Describer<'l, 'd> {
    /// The messages on findings in these files, with those on references that weren't checked where they are asked for.
    pub fn new(
        alloc: Global,
        workspace: &'d Workspace,
        list: &'l [Finding<'d>],
        is_verbose: bool,
    ) -> Result<Describer<'l, 'd>, AllocError> {
        let spots = spots_of(alloc, workspace.documents(), list)?;
        let order = order_of(alloc, workspace, &spots, list, is_verbose)?;
        Ok(Describer {
            alloc,
            workspace,
            list,
            order,
            spots,
            there: Vec::new(alloc),
            near: None,
            resources: None,
            suggester: Suggester::new(STEPS),
            named: BTreeMap::new(alloc),
        })
    }

    /// The same where references of the findings lead into no other documents than those with a flag, by their numbers.
    pub fn among(
        alloc: Global,
        workspace: &'d Workspace,
        list: &'l [Finding<'d>],
        is_verbose: bool,
        there: &[bool],
    ) -> Result<Describer<'l, 'd>, AllocError> {
        let there = Vec::from_slice(alloc, there)?;
        let mut describer = Describer::new(alloc, workspace, list, is_verbose)?;
        describer.there = there;
        Ok(describer)
    }

    /// How many findings are listed.
    pub fn len(&self) -> usize {
        self.order.len()
    }

    /// The finding that is listed at a place, from 0.
    pub fn finding(&self, place: usize) -> Option<&'l Finding<'d>> {
        let list = self.list;
        list.get(self.order.get(place)?.3)
    }

    /// The message on the finding that is listed at a place, from 0, without what to do.
    pub fn message(&mut self, place: usize) -> Result<Option<Message<'d>>, AllocError> {
        let Some(listed) = self.order.get(place).copied() else {
            return Ok(None);
        };
        match self.finding(place) {
            Some(finding) => Ok(Some(self.message_on(listed, finding)?)),
            None => Ok(None),
        }
    }

    // The message on a finding, where it is listed so.
    fn message_on(
        &mut self,
        (_, line, column, number): (usize, usize, usize, usize),
        finding: &Finding<'d>,
    ) -> Result<Message<'d>, AllocError> {
        let mut message = Message {
            file: self.workspace.name(finding.source),
            line,
            column,
            pointer: String::new(self.alloc),
            level: level_of(&finding.problem),
            code: code_of(&finding.problem, self.workspace.format(finding.source)),
            text: String::new(self.alloc),
            keyword: finding.keyword,
            reference: finding.text,
            resolved: None,
            suggestion: None,
            is_only: false,
            help: None,
            first: None,
            excerpt: self.excerpt(number, finding, (line, column)),
        };
        match self.complete(&mut message, number, finding) {
            Ok(()) => Ok(message),
            Err(error) => {
                drop(message);
                Err(error)
            }
        }
    }

    // The line of the file that a finding is about.
    fn excerpt(
        &self,
        number: usize,
        finding: &Finding<'d>,
        (line, column): (usize, usize),
    ) -> Option<Excerpt<'d>> {
        let text = &self.workspace.documents().get(finding.source)?.text;
        if text.fault().is_some() {
            return Excerpt::at_column(text.text.as_str(), line, column);
        }
        let offset = match &finding.problem {
            Problem::Repeated { at, .. } => at.offset,
            _ => self.spots.own(number, finding)?.offset(),
        };
        Excerpt::at(text.format, text.text.as_str(), offset, finding.text)
    }

    // Adds to a message what takes memory.
    fn complete(
        &mut self,
        message: &mut Message<'d>,
        number: usize,
        finding: &Finding<'d>,
    ) -> Result<(), AllocError> {
        message.pointer = pointer_of(self.alloc, finding.path.as_slice())?;
        message.text = self.text(finding)?;
        message.resolved = resolved(self.alloc, finding)?;
        if let Some(meant) = self.suggestion(finding)? {
            message.is_only = meant.is_only;
            message.suggestion = Some(meant.text);
        }
        message.first = self.first(number, finding)?;
        Ok(())
    }

    fn text(&self, finding: &Finding<'_>) -> Result<String, AllocError> {
        match &finding.problem {
            Problem::Plain(problem) => self.plain_text(finding, problem),
            Problem::WrongKind { is, wanted, .. } => {
                wrong_kind_text(self.alloc, finding.text.unwrap_or(""), *is, *wanted)
            }
            Problem::NoObject { is, wanted } => {
                no_object_text(self.alloc, finding.text.unwrap_or(""), is, *wanted)
            }
            Problem::NotASchema { is, draft } => {
                no_schema_text(self.alloc, finding.text.unwrap_or(""), is, *draft)
            }
            Problem::Endless { around } => {
                endless_text(self.alloc, finding.text.unwrap_or(""), around.as_str())
            }
            Problem::OtherCase { document } => case_text(
                self.alloc,
                finding.text.unwrap_or(""),
                self.workspace.name(*document),
            ),
            Problem::Repeated { name, .. } => repeated_text(self.alloc, name.as_str()),
            Problem::Unused => unused_text(self.alloc, finding),
            Problem::Told { told, draft } => told_text(self.alloc, finding, *told, *draft),
            Problem::Beside { version, .. } => beside_text(self.alloc, finding, *version),
        }
    }

    fn plain_text(&self, finding: &Finding<'_>, problem: &Plain<'_>) -> Result<String, AllocError> {
        let alloc = self.alloc;
        match problem {
            Plain::NotJson => self.not_json(finding.source),
            Plain::NotChecked => description_text(alloc, finding.keyword, finding.text),
            Plain::NotAText => {
                let keyword = finding.keyword.unwrap_or("");
                ["The value of ", keyword, " is no text"].join(alloc, "")
            }
            Plain::RecursiveElsewhere => {
                String::from_str(alloc, "A $recursiveRef is to be '#', in Draft 2019-09")
            }
            Plain::NamesNothing => nameless_text(alloc, finding.text),
            Plain::InvalidUri(error) => uri_text(alloc, error),
            Plain::LeadsNowhere { error, .. } => fault_text(alloc, error),
            Plain::MissingDocument { uri } => {
                ["Document '", uri.as_str(), "' is not among the given files"].join(alloc, "")
            }
            Plain::Unchecked { uri } => [
                "Meta-schema '",
                uri.as_str(),
                "' is not among the given files: the fragment is not checked",
            ]
            .join(alloc, ""),
            Plain::UnknownDialect { uri } => [
                "Meta-schema '",
                uri.as_str(),
                "' is not among the given files: read as Draft 2020-12",
            ]
            .join(alloc, ""),
            Plain::DuplicateIdentifier { uri, .. } => {
                ["Two schemas have the identifier '", uri.as_str(), "'"].join(alloc, "")
            }
            Plain::DuplicateAnchor { uri, .. } => anchor_text(alloc, uri, finding.text),
            Plain::GuessedDraft { draft, .. } => referred_text(
                alloc,
                self.workspace.draft(),
                *draft,
            ),
            Plain::ListOfItems => String::from_str(
                alloc,
                "The file names no draft and is read as Draft 2020-12, where items is one schema, not a list",
            ),
        }
    }

    fn not_json(&self, source: usize) -> Result<String, AllocError> {
        let why = match fault_of(self.workspace, source) {
            Some(fault) => fault.text.as_str(),
            None => "",
        };
        String::from_str(self.alloc, why)
    }

    fn suggestion(&mut self, finding: &Finding<'_>) -> Result<Option<Meant>, AllocError> {
        if let Problem::Told { told, .. } = &finding.problem {
            return match told_suggestion(self.alloc, *told)? {
                Some(text) => Ok(Some(Meant::only(text))),
                None => Ok(None),
            };
        }
        if let Problem::WrongKind { uri, wanted, .. } = &finding.problem {
            return self.suggested_component(uri, *wanted, finding.text.unwrap_or(""));
        }
        match finding.problem.plain() {
            Some(Plain::LeadsNowhere { uri, error }) => {
                self.suggestion_in(uri, finding.wanted, error)
            }
            Some(Plain::MissingDocument { uri }) => self.suggested_document(finding, uri),
            Some(Plain::UnknownDialect { .. }) => self.suggested_dialect(finding),
            _ => Ok(None),
        }
    }

    // The draft that a dialect may mean, which is never sure.
    fn suggested_dialect(&mut self, finding: &Finding<'_>) -> Result<Option<Meant>, AllocError> {
        let text = finding.text.unwrap_or("");
        match near_dialect(self.alloc, &mut self.suggester, text)? {
            Some(text) => Ok(Some(Meant {
                text,
                is_only: false,
            })),
            None => Ok(None),
        }
    }

    // Makes what references may mean, where it isn't made yet.
    fn prepare(&mut self) -> Result<(), AllocError> {
        if self.resources.is_none() {
            self.resources = Some(Resources::of(self.alloc, self.workspace, &[])?);
        }
        Ok(())
    }

    // Makes what pointers and anchors may mean, where it isn't made yet.
    fn prepare_near(&mut self) -> Result<(), AllocError> {
        if self.there.is_empty() {
            return self.prepare();
        }
        if self.near.is_none() {
            let there = self.there.as_slice();
            self.near = Some(Resources::of(self.alloc, self.workspace, there)?);
        }
        Ok(())
    }

    fn suggestion_in(
        &mut self,
        uri: &Uri,
        wanted: Option<Kind>,
        error: &Error,
    ) -> Result<Option<Meant>, AllocError> {
        self.prepare_near()?;
        let Some(resources) = either_of(&self.near, &self.resources) else {
            return Ok(None);
        };
        match resources.get(uri.as_str()) {
            Some(resource) => {
                suggestion(self.alloc, &mut self.suggester, resource, wanted, error)
            }
            None => Ok(None),
        }
    }

    // The component of the kind that is needed which has the name of the one that a reference leads to.
    fn suggested_component(
        &mut self,
        uri: &Uri,
        wanted: Kind,
        reference: &str,
    ) -> Result<Option<Meant>, AllocError> {
        self.prepare_near()?;
        let Some(resources) = either_of(&self.near, &self.resources) else {
            return Ok(None);
        };
        match resources.get(uri.as_str()) {
            Some(resource) => component_named(self.alloc, resource.root, wanted, reference),
            None => Ok(None),
        }
    }

    // What is meant by the text of a finding, where no document has its URI.
    fn suggested_document(
        &mut self,
        finding: &Finding<'_>,
        uri: &Uri,
    ) -> Result<Option<Meant>, AllocError> {
        self.prepare()?;
        let (Some(resources), Some(text)) = (&self.resources, finding.text) else {
            return Ok(None);
        };
        meant_document(
            self.alloc,
            &mut self.suggester,
            (self.workspace, resources),
            finding.source,
            (text, uri.as_str()),
        )
    }

    /// What to do about the finding that is listed at a place: where a document is missing, and another one has its name; where the file itself has
    /// the identifier or the anchor that is missing, but where it counts for nothing; where a draft is guessed; where a reference leads to what isn't needed
    /// there, or comes back to where it began; where a definition isn't used; or where a description isn't checked.
    pub fn help(&mut self, place: usize) -> Result<Option<String>, AllocError> {
        match self.finding(place) {
            Some(finding) => self.help_on(finding),
            None => Ok(None),
        }
    }

    fn help_on(&mut self, finding: &Finding<'_>) -> Result<Option<String>, AllocError> {
        if let Problem::Told { told, draft } = &finding.problem {
            return told_help(self.alloc, finding, *told, *draft);
        }
        if let Some(wanted) = wanted_by(&finding.problem) {
            let wanted = with_article(self.alloc, wanted.name())?;
            return Ok(Some(["refer to ", wanted.as_str()].join(self.alloc, "")?));
        }
        if let Some(help) = plain_help(finding) {
            return Ok(Some(String::from_str(self.alloc, help)?));
        }
        match finding.problem.plain() {
            Some(Plain::MissingDocument { uri }) => self.help_on_document(finding.source, uri),
            Some(Plain::LeadsNowhere { uri, error }) => {
                self.help_on_anchor(finding.source, uri, error)
            }
            Some(Plain::GuessedDraft { draft, .. }) => {
                let help = ["--draft ", draft.name(), ", or a $schema in the file"];
                Ok(Some(help.join(self.alloc, "")?))
            }
            _ => Ok(None),
        }
    }

    // What to do where no document has a URI: another file may be meant, or the file itself has the identifier where it counts for nothing.
    fn help_on_document(&mut self, source: usize, uri: &Uri) -> Result<Option<String>, AllocError> {
        let (alloc, workspace) = (self.alloc, self.workspace);
        let text = uri.as_str();
        if let Some(help) = other_uri(alloc, &mut self.suggester, workspace, text)? {
            return Ok(Some(help));
        }
        match self.named_in(source)? {
            Some(named) => named.said_of_identifier(alloc, uri),
            None => Ok(None),
        }
    }

    // The same where a document has no such anchor.
    fn help_on_anchor(
        &mut self,
        source: usize,
        uri: &Uri,
        error: &Error,
    ) -> Result<Option<String>, AllocError> {
        let Error::NoSuchAnchor { anchor } = error else {
            return Ok(None);
        };
        let alloc = self.alloc;
        match self.named_in(source)? {
            Some(named) => named.said_of_anchor(alloc, uri, anchor.as_str()),
            None => Ok(None),
        }
    }

    // Where identifiers and anchors are in the document with a number.
    fn named_in(&mut self, source: usize) -> Result<Option<&Named>, AllocError> {
        if self.named.get(&source).is_none() {
            let named = Named::of(self.alloc, self.workspace, source)?;
            self.named.insert(source, named)?;
        }
        Ok(self.named.get(&source))
    }

    fn first(&self, number: usize, finding: &Finding<'_>) -> Result<Option<Other>, AllocError> {
        if let Problem::Repeated { first, .. } = &finding.problem {
            return Ok(Some(self.other_at(finding, (first.line, first.column))?));
        }
        match first_of(&finding.problem) {
            Some(bearer) => Ok(Some(self.other(number, bearer)?)),
            None => Ok(None),
        }
    }

    // A place of the object that a finding is about.
    fn other_at(
        &self,
        finding: &Finding<'_>,
        (line, column): (usize, usize),
    ) -> Result<Other, AllocError> {
        let file = String::from_str(self.alloc, self.workspace.name(finding.source))?;
        let pointer = pointer_of(self.alloc, finding.path.as_slice())?;
        Ok(Other {
            file,
            line,
            column,
            pointer,
        })
    }

    fn other(&self, number: usize, bearer: &Bearer<'_>) -> Result<Other, AllocError> {
        let (line, column) = match self.spots.first(number, bearer) {
            Some(position) => (position.line(), position.column()),
            None => (0, 0),
        };
        let file = String::from_str(self.alloc, self.workspace.name(bearer.source))?;
        let pointer = pointer_of(self.alloc, bearer.path.as_slice())?;
        Ok(Other {
            file,
            line,
            column,
            pointer,
        })
    }
}

// The line and the column of the finding with a number.
fn position_of(
    workspace: &Workspace,
    spots: &Spots<'_>,
    number: usize,
    finding: &Finding<'_>,
) -> (usize, usize) {
    if let Some(fault) = fault_of(workspace, finding.source) {
        return (fault.line, fault.column);
    }
    if let Problem::Repeated { at, .. } = &finding.problem {
        return (at.line, at.column);
    }
    line_and_column(spots.own(number, finding))
}

// Why a file has no value, and where.
fn fault_of(workspace: &Workspace, source: usize) -> Option<&Fault> {
    workspace.documents().get(source)?.text.fault()
}

// The findings that are listed, each by its file, line, column and number.
fn order_of(
    alloc: Global,
    workspace: &Workspace,
    spots: &Spots<'_>,
    list: &[Finding<'_>],
    is_verbose: bool,
) -> Result<Vec<(usize, usize, usize, usize)>, AllocError> {
    let mut order = Vec::new(alloc);
    for (number, finding) in list.iter().enumerate() {
        if is_verbose || !matches!(finding.problem.plain(), Some(Plain::Unchecked { .. })) {
            let (line, column) = position_of(workspace, spots, number, finding);
            order.push((finding.source, line, column, number))?;
        }
    }
    order.sort_unstable();
    Ok(order)
}

// The kind that is needed where a reference leads to what is of another kind.
fn wanted_by(problem: &Problem<'_>) -> Option<Kind> {
    match problem {
        Problem::WrongKind { wanted, .. } | Problem::NoObject { wanted, .. } => Some(*wanted),
        _ => None,
    }
}

fn level_of(problem: &Problem<'_>) -> Level {
    match problem.level() {
        Severity::Error => Level::Error,
        Severity::Warning => Level::Warning,
        Severity::Note => Level::Note,
    }
}

// That a file is read by a draft that is guessed, and a schema of another one refers to it.
fn referred_text(alloc: Global, guessed: Draft, draft: Draft) -> Result<String, AllocError> {
    [
        "The file names no draft and is read as Draft ",
        guessed.name(),
        ", but a schema of Draft ",
        draft.name(),
        " refers to it",
    ]
    .join(alloc, "")
}

// That a file is a description, by the keyword at its root and its version.
fn description_text(
    alloc: Global,
    keyword: Option<&str>,
    version: Option<&str>,
) -> Result<String, AllocError> {
    let name = match keyword {
        Some("openapi") => "OpenAPI",
        Some("swagger") => "Swagger",
        _ => "AsyncAPI",
    };
    if version.is_none() {
        return unquoted_text(alloc, name);
    }
    [
        "This is a description of ",
        name,
        " ",
        version.unwrap_or(""),
        ": only its references in JSON Schema places were checked",
    ]
    .join(alloc, "")
}

// The same where the version is no text, as a number in YAML.
fn unquoted_text(alloc: Global, name: &str) -> Result<String, AllocError> {
    [
        "This is a description of ",
        name,
        ", whose version is no text: write it in quotes. Only its references in JSON Schema places were checked",
    ]
    .join(alloc, "")
}

// The first of two that is there.
fn either_of<'x, 'd>(
    near: &'x Option<Resources<'d>>,
    all: &'x Option<Resources<'d>>,
) -> Option<&'x Resources<'d>> {
    match near {
        Some(resources) => Some(resources),
        None => all.as_ref(),
    }
}

// That a reference leads to an object of another kind than the one that is needed.
fn wrong_kind_text(
    alloc: Global,
    reference: &str,
    is: Kind,
    wanted: Kind,
) -> Result<String, AllocError> {
    [
        "'",
        reference,
        "' is ",
        with_article(alloc, is.name())?.as_str(),
        ", and ",
        with_article(alloc, wanted.name())?.as_str(),
        " is needed",
    ]
    .join(alloc, "")
}

fn no_object_text(
    alloc: Global,
    reference: &str,
    is: &str,
    wanted: Kind,
) -> Result<String, AllocError> {
    let wanted = with_article(alloc, wanted.name())?;
    [
        "'",
        reference,
        "' is ",
        is,
        ", and ",
        wanted.as_str(),
        " is needed",
    ]
    .join(alloc, "")
}

// A noun with its article.
fn with_article(alloc: Global, noun: &str) -> Result<String, AllocError> {
    let article = if noun.starts_with(['a', 'e', 'i', 'o', 'u']) {
        "an "
    } else {
        "a "
    };
    [article, noun].join(alloc, "")
}

// That what follows a `#` names nothing.
fn nameless_text(alloc: Global, text: Option<&str>) -> Result<String, AllocError> {
    let name = text.unwrap_or("").trim_start_matches('#');
    [
        "'#",
        name,
        "' names nothing: what begins with a slash is a pointer",
    ]
    .join(alloc, "")
}

fn anchor_text<'x>(
    alloc: Global,
    uri: &'x Uri,
    name: Option<&'x str>,
) -> Result<String, AllocError> {
    let name = name.unwrap_or("").trim_start_matches('#');
    [
        "Two schemas of '",
        uri.as_str(),
        "' have the anchor '",
        name,
        "'",
    ]
    .join(alloc, "")
}

// What the text under a keyword was resolved to, where nothing else says it.
fn resolved(alloc: Global, finding: &Finding<'_>) -> Result<Option<String>, AllocError> {
    let uri = match &finding.problem {
        Problem::Plain(Plain::MissingDocument { uri }) => uri,
        Problem::Plain(Plain::LeadsNowhere { uri, .. }) => uri,
        Problem::Plain(Plain::Unchecked { uri }) => uri,
        Problem::WrongKind { uri, .. } => uri,
        _ => return Ok(None),
    };
    let mut text = String::from_str(alloc, uri.as_str())?;
    if let Some((_, fragment)) = finding.text.unwrap_or("").split_once('#') {
        text.push('#')?;
        text.push_str(fragment)?;
    }
    Ok(Some(text))
}
