//! `patchsard bundle`.
use crate::made::is_text_of;
use crate::message::message_at;
use crate::opened::{Opened, open_file, reported};
use crate::pieces::{Pieces, definitions};
use crate::rewriting::name_by_identifiers;
use clap::ArgMatches;
use ref_bundle::{BundleError, BundleParts, Embedded, Problem as Refused, Spot, bundle_parts};
use ref_command_line::{Configured, Console, Stop, say, say_failures, say_of};
use ref_descriptions::version_of;
use ref_draft::Draft;
use ref_files::{Format, WriteError, write_file};
use ref_findings::Problem;
use ref_further::further_places;
use ref_index::Place;
use ref_messages::{Color, Level, Plain, push_text};
use ref_parts::pointer_of;
use ref_positions::splice::{Added, Part, with_added, with_parts};
use ref_uri::UriRef;
use ref_workspace::world::{World, outside_of, world_above};
use ref_workspace::{Describer, Finding, Report, Workspace};
use referencing::{Registry, ResourceRef};
use serde_json::Value;
use std::alloc::{AllocError, Global};
use std::io;

// What to do where a document isn't among the given files.
const BY_NAME: &str = "name its file or folder by --with, or a folder that has it by --map";

/// Writes one document in place of several. The status is 0 where it is written, 1 where there is no bundle, 2 where a
/// path can't be read or written, and 3 where the text that was made isn't that of the bundle.
pub fn bundle<'a>(
    rt: &HostRuntime,
    console: &mut Console<'_>,
    given: &ArgMatches<'a>,
    configured: &'a Configured,
) -> Result<u8, Stop> {
    let mut opened = open_file(rt, given, configured, given.get_str("output"))?;
    let status = if opened.has_failed {
        Ok(2)
    } else {
        bundle_named(rt, console, given, &mut opened)
    };
    drop(opened);
    status
}

// The bundle of what was read. Where documents have to be named by their identifiers for it, they are; and where that bundle is
// written, each text that is another one in it is said.
fn bundle_named(
    rt: &HostRuntime,
    console: &mut Console<'_>,
    given: &ArgMatches<'_>,
    opened: &mut Opened<'_>,
) -> Result<u8, Stop> {
    if refuses_description(rt, &*opened) {
        return Ok(1);
    }
    let may_name = !given.get_flag("keep-texts");
    if let Some(status) = bundle_opened(rt, console, given, &*opened, may_name)? {
        return Ok(status);
    }
    let lines = name_by_identifiers(rt, opened)?;
    let status = bundle_opened(rt, console, given, &*opened, false)?.unwrap_or(1);
    if status == 0 {
        for line in &lines {
            let _ = eprintln!(rt; "{line}");
        }
    }
    Ok(status)
}

// The status of the bundle of what was read: none where documents may be named by their identifiers, and have to be.
fn bundle_opened(
    rt: &HostRuntime,
    console: &mut Console<'_>,
    given: &ArgMatches<'_>,
    opened: &Opened<'_>,
    may_name: bool,
) -> Result<Option<u8>, Stop> {
    let report = opened.report(rt.alloc())?;
    let outside = reported(rt, outside_of(rt.alloc(), report.findings.as_slice()))?;
    bundle_above(rt, console, given, opened, (&report, may_name), &outside)
}

// Whether the root is a description, which isn't bundled; and says so.
fn refuses_description(rt: &HostRuntime, opened: &Opened<'_>) -> bool {
    let Some(document) = opened.workspace.documents().first() else {
        return false;
    };
    if !document
        .value()
        .is_some_and(|root| version_of(root).is_some())
    {
        return false;
    }
    let why = "this is an API description: a bundle is made of JSON Schema documents alone";
    say_of(rt, document.name.as_str(), why);
    true
}

// The bundle of what was read, above a registry of what stays outside.
fn bundle_above<'s, 'd, 'r>(
    rt: &'s HostRuntime,
    console: &mut Console<'_>,
    given: &'s ArgMatches<'_>,
    opened: &'d Opened<'_>,
    (report, may_name): (&'s Report<'r>, bool),
    outside: &'d Registry<'_>,
) -> Result<Option<u8>, Stop> {
    let trees = opened.workspace.mended(rt.alloc())?;
    let world = world_above(rt.alloc(), outside, &opened.workspace, trees.as_slice());
    let world = reported(rt, world)?;
    let further = further_of(rt.alloc(), &opened.workspace, report, &world)?;
    let sources = Sources {
        rt,
        given,
        opened,
        report,
        world: &world,
        further: further.as_slice(),
    };
    match bundle_parts(rt.alloc(), &world.registry, further.as_slice(), 0) {
        Ok(parts) => {
            if may_name && sources.is_root_replaced(&parts)? {
                return Ok(None);
            }
            Ok(Some(sources.write(console, &parts)?))
        }
        Err(error) => {
            if may_name && is_replaced(&error) {
                drop(error);
                return Ok(None);
            }
            let status = sources.refuse(&error);
            drop(error);
            Ok(Some(status?))
        }
    }
}

// Whether a reference names a document by a URI in place of which its identifier gives another.
fn is_replaced(error: &BundleError<'_>) -> bool {
    match error {
        BundleError::Refused(refusal) => matches!(refusal.problem, Refused::ReplacedUri { .. }),
        BundleError::Memory(_) => false,
    }
}

// What references lead to where no keyword does. Where each document is asked about, the report says whether there may be such places.
fn further_of<'w>(
    alloc: Global,
    workspace: &Workspace,
    report: &Report<'_>,
    world: &'w World<'_>,
) -> Result<Vec<Vec<Spot<'w>>>, AllocError> {
    if !report.is_led && workspace.len() == workspace.asked() {
        return Ok(Vec::new(alloc));
    }
    further_places(alloc, &world.registry)
}

/// What a bundle is made from, and what is asked for.
#[derive(Clone, Copy, Drop)]
pub(crate) struct Sources<'s, 'a, 'd, 'r, 'm, 'w, 'o> {
    pub rt: &'s HostRuntime,
    given: &'s ArgMatches<'a>,
    pub opened: &'d Opened<'m>,
    report: &'s Report<'r>,
    pub world: &'w World<'o>,
    further: &'w [Vec<Spot<'w>>],
}

impl<'s, 'a, 'd, 'r, 'm, 'w, 'o> Sources<'s, 'a, 'd, 'r, 'm, 'w, 'o> {
    /// The number of what was read as a document, where it was read.
    pub fn source(&self, document: usize) -> Option<usize> {
        self.world.sources.get(document).copied()
    }

    // Whether a place that is needed refers to the root by a URI that its identifier replaces.
    fn is_root_replaced(&self, parts: &BundleParts<'_>) -> Result<bool, Stop> {
        let alloc = self.rt.alloc();
        let places = self.places()?;
        let Some(replaced) = self.replaced(places.as_slice()) else {
            return Ok(false);
        };
        let embedded = parts.listed(alloc)?;
        let needed = self.needed(embedded.as_slice())?;
        for place in &places {
            if let Some(number) = self.source(place.document) {
                if is_true(needed.as_slice(), number) && self.names(place, replaced)? {
                    return Ok(true);
                }
            }
        }
        Ok(false)
    }

    // Whether a reference of a place without its fragment gives a URI.
    fn names(&self, place: &Place<'_>, uri: &str) -> Result<bool, AllocError> {
        for keyword in ["$ref", "$dynamicRef"] {
            if let Some(text) = place.value.get(keyword).and_then(Value::as_str) {
                let (front, _) = text.rsplit_once('#').unwrap_or((text, ""));
                if let Some(given) = self.world.resolved(self.rt.alloc(), place, front)? {
                    if given.as_str() == uri {
                        return Ok(true);
                    }
                }
            }
        }
        Ok(false)
    }

    fn write(&self, console: &mut Console<'_>, parts: &BundleParts<'_>) -> Result<u8, Stop> {
        let embedded = parts.listed(self.rt.alloc())?;
        if self.has_problems(embedded.as_slice())? {
            say(self.rt, "not bundled");
            return Ok(1);
        }
        let pieces = Pieces {
            parts,
            embedded: embedded.as_slice(),
            schema: self.missing_schema(parts),
        };
        self.write_pieces(console, &pieces)
    }

    fn write_pieces(
        &self,
        console: &mut Console<'_>,
        pieces: &Pieces<'_, '_, '_>,
    ) -> Result<u8, Stop> {
        let Some(text) = self.text(pieces)? else {
            return Ok(3);
        };
        self.say_uri(pieces.parts);
        self.say_format();
        match self.given.get_str("output") {
            Some(path) if !is_output(path) => {
                status_of(self.rt, write_file(self.rt, path, text.as_str()))
            }
            _ => {
                console.put(text)?;
                Ok(0)
            }
        }
    }

    // Whether a document that is needed has faults, or something that is needed isn't there.
    fn has_problems(&self, embedded: &[Embedded]) -> Result<bool, Stop> {
        let needed = self.needed(embedded)?;
        let needed = needed.as_slice();
        Ok(self.has_faults(needed)? || self.is_incomplete(embedded, needed)?)
    }

    // Prints what is wrong with the documents that are needed, and returns whether that keeps them from being bundled:
    // an unresolvable pointer or anchor does so by `--strict` alone, and is a warning without it.
    fn has_faults(&self, needed: &[bool]) -> Result<bool, AllocError> {
        let mut describer = Describer::new(
            self.rt.alloc(),
            &self.opened.workspace,
            self.report.findings.as_slice(),
            false,
        )?;
        let is_faulty = self.say_faults(&mut describer, needed);
        drop(describer);
        is_faulty
    }

    fn say_faults(
        &self,
        describer: &mut Describer<'_, '_>,
        needed: &[bool],
    ) -> Result<bool, AllocError> {
        let is_strict = self.given.get_flag("strict");
        let mut out = String::new(self.rt.alloc());
        let mut is_faulty = false;
        for place in 0..describer.len() {
            if let Some(finding) = describer.finding(place) {
                if concerns(finding, needed) {
                    let level = if is_strict || is_fault(finding) {
                        Level::Error
                    } else {
                        Level::Warning
                    };
                    is_faulty |= is_strict || is_fault(finding);
                    self.push_message(&mut out, describer, place, level)?;
                }
            }
        }
        let _ = eprint!(self.rt; "{out}");
        Ok(is_faulty)
    }

    // Whether a needed document isn't there, or a needed place refers to none, or to the root by a URI that its
    // identifier replaces.
    fn is_incomplete(&self, embedded: &[Embedded], needed: &[bool]) -> Result<bool, Stop> {
        let mut is_incomplete = self.say_missing(embedded);
        let places = self.places()?;
        let replaced = self.replaced(places.as_slice());
        for place in &places {
            if let Some(number) = self.source(place.document) {
                if is_true(needed, number) {
                    is_incomplete |= self.is_lost(number, place, replaced)?;
                }
            }
        }
        Ok(is_incomplete)
    }

    /// The places of all documents: those that keywords lead to, and after them further ones.
    pub fn places(&self) -> Result<Vec<Place<'_>>, AllocError> {
        let alloc = self.rt.alloc();
        let mut places = self.world.places(alloc)?;
        for spots in self.further {
            for spot in spots {
                places.push(place_of(alloc, spot)?)?;
            }
        }
        Ok(places)
    }

    // Says which needed documents aren't there, and returns whether there are some.
    fn say_missing(&self, embedded: &[Embedded]) -> bool {
        let mut is_missing = false;
        for embedded in embedded {
            if self.source(embedded.document).is_none() {
                let uri = embedded.uri.as_str();
                let _ = eprintln!(self.rt;
                    "patchsard: document '{uri}' is not among the given files\n    help: {BY_NAME}"
                );
                is_missing = true;
            }
        }
        is_missing
    }

    // Whether a place refers to no document, or to the root by a URI that its identifier replaces.
    fn is_lost(
        &self,
        number: usize,
        place: &Place<'_>,
        replaced: Option<&str>,
    ) -> Result<bool, Stop> {
        let mut is_lost = false;
        for keyword in ["$ref", "$dynamicRef"] {
            if let Some(text) = place.value.get(keyword).and_then(Value::as_str) {
                if let Some(why) = self.lost(place, text, replaced)? {
                    self.say_lost(number, place, (keyword, text), why)?;
                    is_lost = true;
                }
            }
        }
        Ok(is_lost)
    }

    // Says why a reference of a place has no meaning in a bundle, and what to change.
    fn say_lost(
        &self,
        number: usize,
        place: &Place<'_>,
        (keyword, text): (&str, &str),
        (why, help): (&str, &str),
    ) -> Result<(), Stop> {
        let at = self.place_in(number, place.path.as_slice())?;
        let pointer = pointer_of(self.rt.alloc(), place.path.as_slice())?;
        let _ = eprintln!(self.rt;
            "{at}: error: {why}\n    {keyword} '{}' at '{}'\n    help: {help}",
            Plain(text),
            Plain(pointer.as_str())
        );
        Ok(())
    }

    // Why a reference of a place has no meaning in a bundle, and what to change.
    fn lost(
        &self,
        place: &Place<'_>,
        text: &str,
        replaced: Option<&str>,
    ) -> Result<Option<(&'static str, &'static str)>, AllocError> {
        let alloc = self.rt.alloc();
        let (front, _) = text.rsplit_once('#').unwrap_or((text, ""));
        let Some(uri) = self.world.resolved(alloc, place, front)? else {
            return Ok(Some((
                "It is not a URI reference",
                "write it as RFC 3986 asks, with % escapes",
            )));
        };
        if !self.world.registry.contains_resource(alloc, uri.as_str())? {
            return Ok(Some(("Its document is not among the given files", BY_NAME)));
        }
        if replaced == Some(uri.as_str()) {
            return Ok(Some((
                "It names the root by a URI that the root's identifier replaces",
                "refer to the root by its identifier",
            )));
        }
        Ok(None)
    }

    // The root's URI, where its identifier gives another in place of it.
    fn replaced(&self, places: &[Place<'_>]) -> Option<&str> {
        let uri = self.world.registry.documents().first()?.uri.as_str();
        let base = places.first()?.base.as_str();
        if uri == base { None } else { Some(uri) }
    }

    // Says under which URI a bundle is to be read that has no absolute identifier.
    fn say_uri(&self, parts: &BundleParts<'_>) {
        let Some(root) = self.opened.workspace.documents().first() else {
            return;
        };
        let draft = self.draft(0);
        let keyword = draft.id_keyword();
        let id = ResourceRef::new(parts.root.tree, draft).id().unwrap_or("");
        if !parts.embedded.is_empty() && !is_absolute(id) {
            let _ = eprintln!(self.rt;
                "patchsard: note: the bundle has no absolute {keyword}; its references keep their meaning where it is read under {}",
                root.uri.as_str()
            );
        }
    }

    // Says that a bundle is JSON where its root is a file of YAML.
    fn say_format(&self) {
        if self.opened.workspace.format(0) == Format::Yaml {
            let _ = eprintln!(self.rt;
                "patchsard: note: {} is YAML: the bundle is JSON, with the members of its objects in byte order of their keys, and without comments",
                Plain(self.opened.workspace.name(0))
            );
        }
    }

    // Which of what was read is needed.
    fn needed(&self, embedded: &[Embedded]) -> Result<Vec<bool>, AllocError> {
        let mut needed = vec![in self.rt.alloc(); false; self.opened.workspace.len()]?;
        set(&mut needed, self.source(0));
        for embedded in embedded {
            set(&mut needed, self.source(embedded.document));
        }
        Ok(needed)
    }

    // The text of a bundle, or nothing where what was made has another value.
    fn text(&self, pieces: &Pieces<'_, '_, '_>) -> Result<Option<String>, Stop> {
        let text = if self.given.get_flag("minify") {
            Some(pieces.minified(self.rt.alloc())?)
        } else {
            self.spliced(pieces)?
        };
        let Some(text) = text else {
            let why = "the text of a document can't be read again; nothing is written";
            say(self.rt, why);
            return Ok(None);
        };
        if self.is_text_of(text.as_str(), pieces)? {
            return Ok(Some(text));
        }
        Ok(None)
    }

    // The `$schema` that the root gets, so that a reader takes it for what it is: where it has none and isn't of the draft
    // that a reader takes it for.
    fn missing_schema(&self, parts: &BundleParts<'_>) -> Option<&'static str> {
        if parts.root.tree.as_object()?.contains_key("$schema") {
            return None;
        }
        schema_of(self.draft(0))
    }

    // Whether a text is that of a bundle. Where it isn't standard error says so.
    fn is_text_of(&self, text: &str, pieces: &Pieces<'_, '_, '_>) -> Result<bool, AllocError> {
        match is_text_of(self.rt.alloc(), text, pieces)? {
            Ok(is_same) => {
                if !is_same {
                    let why = "the text that was made isn't that of the bundle; nothing is written";
                    say(self.rt, why);
                }
                Ok(is_same)
            }
            Err(fault) => {
                let _ = eprintln!(self.rt;
                    "patchsard: the bundle can't be read: {}; nothing is written",
                    fault.text
                );
                Ok(false)
            }
        }
    }

    // The text of the root, with a `$schema` where it gets one, with those of the documents that are embedded.
    fn spliced(&self, pieces: &Pieces<'_, '_, '_>) -> Result<Option<String>, Stop> {
        let Some(root) = self.json_in(0)? else {
            return Ok(None);
        };
        match pieces.schema {
            Some(schema) => match root_with(self.rt.alloc(), root.as_str(), schema)? {
                Some(root) => self.with_embedded(pieces.embedded, root.as_str()),
                None => Ok(None),
            },
            None => self.with_embedded(pieces.embedded, root.as_str()),
        }
    }

    // The root's text with those of the documents that are embedded.
    fn with_embedded(&self, embedded: &[Embedded], root: &str) -> Result<Option<String>, Stop> {
        let alloc = self.rt.alloc();
        if embedded.is_empty() {
            return Ok(Some(String::from_str(alloc, root)?));
        }
        let mut parts = Vec::new(alloc);
        for embedded in embedded {
            match self.part(embedded)? {
                Some(part) => push(&mut parts, part)?,
                None => return Ok(None),
            }
        }
        let keyword = definitions(self.draft(0));
        Ok(with_parts(alloc, root, keyword, parts.as_slice())?)
    }

    fn draft(&self, document: usize) -> Draft {
        match self.world.registry.documents().get(document) {
            Some(document) => document.draft,
            None => Draft::Draft202012,
        }
    }

    fn part(&self, embedded: &Embedded) -> Result<Option<Part>, Stop> {
        let alloc = self.rt.alloc();
        let Some(text) = self.source_text(embedded.document)? else {
            return Ok(None);
        };
        let keyword = self.draft(embedded.document).id_keyword();
        let added = Added {
            keyword,
            id: self.new_id(embedded, keyword),
            schema: embedded.schema,
        };
        let Some(text) = with_added(alloc, text.as_str(), added)? else {
            return Ok(None);
        };
        let uri = String::from_str(alloc, embedded.uri.as_str())?;
        Ok(Some(Part { uri, text }))
    }

    // The identifier that an embedded document gets, where it has another or none.
    fn new_id<'e>(&self, embedded: &'e Embedded, keyword: &str) -> Option<&'e str> {
        let value = self.world.registry.value_at(embedded.document, &[]);
        let id = match value {
            Some(value) => value.get(keyword).and_then(Value::as_str),
            None => None,
        };
        let uri = embedded.uri.as_str();
        if id == Some(uri) { None } else { Some(uri) }
    }

    // The text of a document that was read.
    fn source_text(&self, document: usize) -> Result<Option<String>, Stop> {
        match self.source(document) {
            Some(number) => self.json_in(number),
            None => Ok(None),
        }
    }

    // What was read with this number as a text of JSON: its own, or of YAML that of its value.
    fn json_in(&self, number: usize) -> Result<Option<String>, Stop> {
        match self.text_in(number)? {
            Some((Format::Json, text)) => Ok(Some(text)),
            Some((Format::Yaml, text)) => {
                drop(text);
                self.printed(number)
            }
            None => Ok(None),
        }
    }

    // The text of the value of what was read with this number, on lines.
    fn printed(&self, number: usize) -> Result<Option<String>, Stop> {
        match self.opened.workspace.value(number) {
            Some(value) => {
                let mut text = value.to_string_pretty(self.rt.alloc())?;
                text.push('\n')?;
                Ok(Some(text))
            }
            None => Ok(None),
        }
    }

    /// The text of what was read with this number, and how it is written. That of a document from a map is read again.
    pub fn text_in(&self, number: usize) -> Result<Option<(Format, String)>, Stop> {
        if let Some(document) = self.opened.workspace.documents().get(number) {
            return Ok(Some((document.text.format, document.text.text.clone()?)));
        }
        match self.opened.workspace.uri(number) {
            Some(uri) => self.mapped_text(uri.as_str()),
            None => Ok(None),
        }
    }

    // The text of a document from a map.
    fn mapped_text(&self, uri: &str) -> Result<Option<(Format, String)>, Stop> {
        let alloc = self.rt.alloc();
        let Some(path) = self.opened.maps.path_of(alloc, uri)? else {
            return Ok(None);
        };
        let format = Format::of_path(path.as_str());
        drop(path);
        let text = self.opened.maps.text(alloc, uri)?;
        say_failures(self.rt, &self.opened.maps.take_failures());
        match text {
            Some(text) => Ok(Some((format, text))),
            None => Ok(None),
        }
    }

    // Adds the message on the finding at a place, with a level.
    fn push_message(
        &self,
        out: &mut String,
        describer: &mut Describer<'_, '_>,
        place: usize,
        level: Level,
    ) -> Result<(), AllocError> {
        match message_at(self.rt, self.opened, describer, place)? {
            Some(mut message) => {
                message.level = level;
                let pushed = push_text(out, &message, Color::None);
                drop(message);
                pushed
            }
            None => Ok(()),
        }
    }
}

// The status where a file was written, or was not, which standard error says.
fn status_of(rt: &HostRuntime, written: Result<(), WriteError>) -> Result<u8, Stop> {
    match written {
        Ok(()) => Ok(0),
        Err(WriteError::Memory) => Err(Stop::Memory),
        Err(WriteError::File { path, error }) => {
            say_unwritten(rt, path.as_str(), error);
            Ok(2)
        }
    }
}

// Says why a file can't be written.
fn say_unwritten(rt: &HostRuntime, path: &str, error: io::Error) {
    if error.kind() == io::ErrorKind::InvalidInput {
        let why = "not a regular file; without -o a bundle goes to standard output";
        return say_of(rt, path, why);
    }
    let is_there = error.kind() == io::ErrorKind::AlreadyExists;
    say_of(rt, path, error);
    if is_there {
        let _ = eprintln!(rt; "    help: remove it, unless another run is writing it");
    }
}

// The text of a root with a `$schema` at its beginning. What is around its braces stays.
fn root_with(alloc: Global, text: &str, schema: &str) -> Result<Option<String>, AllocError> {
    let body = text.trim();
    let added = Added {
        keyword: "$schema",
        id: None,
        schema: Some(schema),
    };
    let Some(made) = with_added(alloc, body, added)? else {
        return Ok(None);
    };
    let (front, _) = text.split_once('{').unwrap_or(("", text));
    let (_, end) = text.rsplit_once('}').unwrap_or((text, ""));
    Ok(Some([front, made.as_str(), end].join(alloc, "")?))
}

// The `$schema` of a draft, but for the one that a reader takes a document for that has none.
fn schema_of(draft: Draft) -> Option<&'static str> {
    match draft {
        Draft::Draft4 => Some("http://json-schema.org/draft-04/schema#"),
        Draft::Draft6 => Some("http://json-schema.org/draft-06/schema#"),
        Draft::Draft7 => Some("http://json-schema.org/draft-07/schema#"),
        Draft::Draft201909 => Some("https://json-schema.org/draft/2019-09/schema"),
        _ => None,
    }
}

// Whether a path means standard output.
fn is_output(path: &str) -> bool {
    matches!(path, "-" | "/dev/stdout" | "/dev/fd/1" | "/proc/self/fd/1")
}

// Whether a text is a URI with a scheme.
fn is_absolute(text: &str) -> bool {
    match UriRef::parse(text) {
        Ok(uri) => uri.has_scheme(),
        Err(_) => false,
    }
}

// A further place as a place: handles of its path and base.
fn place_of<'w>(alloc: Global, spot: &Spot<'w>) -> Result<Place<'w>, AllocError> {
    let path = spot.path.to_vec(alloc)?;
    let base = spot.base.clone()?;
    Ok(Place {
        document: spot.document,
        path,
        value: spot.value,
        base,
        draft: spot.draft,
    })
}

// Whether a finding is of interest for a bundle of these documents.
fn concerns(finding: &Finding<'_>, needed: &[bool]) -> bool {
    match finding.problem.plain() {
        Some(Problem::DuplicateIdentifier { first, .. }) => {
            finding.keyword.is_none()
                && (is_true(needed, finding.source) || is_true(needed, first.source))
        }
        Some(
            Problem::NotJson
            | Problem::InvalidUri(_)
            | Problem::MissingDocument { .. }
            | Problem::LeadsNowhere { .. },
        ) => is_true(needed, finding.source),
        _ => false,
    }
}

// Whether a document with this finding can't be bundled.
fn is_fault(finding: &Finding<'_>) -> bool {
    !matches!(finding.problem.plain(), Some(Problem::LeadsNowhere { .. }))
}

fn is_true(flags: &[bool], number: usize) -> bool {
    flags.get(number).copied().unwrap_or(false)
}

fn set(flags: &mut Vec<bool>, number: Option<usize>) {
    let Some(number) = number else {
        return;
    };
    if let Some(flag) = flags.get_mut(number) {
        *flag = true;
    }
}

fn push(parts: &mut Vec<Part>, part: Part) -> Result<(), AllocError> {
    parts.push(part)?;
    Ok(())
}
