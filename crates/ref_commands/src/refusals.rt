//! What is wrong where there is no bundle, and what to change.
use crate::bundle::Sources;
use percent_encoding::{DecodeError, percent_decode};
use ref_bundle::{BundleError, Obstacle, Problem, Refusal};
use ref_command_line::Stop;
use ref_index::Place;
use ref_messages::Plain;
use ref_parts::path::JsonPointerSegment;
use ref_parts::{pointer_of, unescape_segment};
use ref_uri::parts::parts;
use ref_workspace::pointer::position;
use serde_json::Value;
use std::alloc::{AllocError, Global};

impl<'s, 'a, 'd, 'r, 'm, 'w, 'o> Sources<'s, 'a, 'd, 'r, 'm, 'w, 'o> {
    /// Says why there is no bundle, and what to change. The status is 1.
    pub fn refuse(&self, error: &BundleError<'_>) -> Result<u8, Stop> {
        match error {
            BundleError::Refused(refusal) => self.say_refusal(refusal),
            BundleError::Memory(_) => Err(Stop::Memory),
        }
    }

    fn say_refusal(&self, refusal: &Refusal<'_>) -> Result<u8, Stop> {
        self.say_problem(refusal)?;
        self.say_reference(refusal)?;
        self.say_other(&refusal.problem)?;
        let _ = eprintln!(self.rt; "    help: {}", advice(&refusal.problem));
        Ok(1)
    }

    // Says where something is wrong, and what.
    fn say_problem(&self, refusal: &Refusal<'_>) -> Result<(), Stop> {
        let place = self.place(refusal.document, refusal.path.as_slice())?;
        let text = text_of(self.rt.alloc(), &refusal.problem)?;
        let _ = eprintln!(self.rt; "{place}: error: {}", Plain(text.as_str()));
        Ok(())
    }

    // Says which reference is refused, where one is, and the pointer to its place.
    fn say_reference(&self, refusal: &Refusal<'_>) -> Result<(), AllocError> {
        let alloc = self.rt.alloc();
        let pointer = pointer_of(alloc, refusal.path.as_slice())?;
        let places = self.places()?;
        for place in &places {
            if place.document == refusal.document
                && is_at(alloc, place.path.as_slice(), pointer.as_str())?
            {
                if let Some((keyword, text)) = self.refused(place, &refusal.problem)? {
                    let _ = eprintln!(self.rt;
                        "    {keyword} '{}' at '{}'",
                        Plain(text),
                        Plain(pointer.as_str())
                    );
                    return Ok(());
                }
            }
        }
        let _ = eprintln!(self.rt; "    at '{}'", Plain(pointer.as_str()));
        Ok(())
    }

    // The keyword and the text of the reference of a place that has a problem.
    fn refused<'p>(
        &self,
        place: &Place<'p>,
        problem: &Problem<'_>,
    ) -> Result<Option<(&'static str, &'p str)>, AllocError> {
        for keyword in ["$ref", "$dynamicRef", "$schema"] {
            if let Some(text) = place.value.get(keyword).and_then(Value::as_str) {
                if self.is_refused(place, text, problem)? {
                    return Ok(Some((keyword, text)));
                }
            }
        }
        Ok(None)
    }

    // Whether a reference of a place is the one that has a problem.
    fn is_refused(
        &self,
        place: &Place<'_>,
        text: &str,
        problem: &Problem<'_>,
    ) -> Result<bool, AllocError> {
        let (front, fragment) = parts(text);
        let (uri, is_meant) = match problem {
            Problem::ReplacedUri { uri, .. } => (uri, true),
            Problem::ShadowedUri { uri, .. } => (uri, is_name(fragment)),
            Problem::AddedMember { uri, key } => {
                (uri, has_key(self.rt.alloc(), fragment, key.as_str())?)
            }
            _ => return Ok(false),
        };
        Ok(is_meant && self.is_to(place, front, uri.as_str())?)
    }

    // Whether a reference of a place without its fragment gives a URI.
    fn is_to(&self, place: &Place<'_>, front: &str, uri: &str) -> Result<bool, AllocError> {
        match self.world.resolved(self.rt.alloc(), place, front)? {
            Some(given) => Ok(given.as_str() == uri),
            None => Ok(false),
        }
    }

    // Says where the other schema is that has the same URI.
    fn say_other(&self, problem: &Problem<'_>) -> Result<(), Stop> {
        let (document, path) = match problem {
            Problem::SharedUri { document, path, .. } => (*document, path.as_slice()),
            Problem::ShadowedUri { document, path, .. } => (*document, path.as_slice()),
            _ => return Ok(()),
        };
        let other = self.place(document, path)?;
        let _ = eprintln!(self.rt; "    other: {other}");
        Ok(())
    }

    // The file, the line and the column of a place of a document.
    fn place(&self, document: usize, path: &[JsonPointerSegment<'_>]) -> Result<String, Stop> {
        match self.source(document) {
            Some(number) => self.place_in(number, path),
            None => Ok(String::from_str(
                self.rt.alloc(),
                "a document that is not among the given files",
            )?),
        }
    }

    /// The file, the line and the column of a place of what was read with this number.
    pub fn place_in(&self, number: usize, path: &[JsonPointerSegment<'_>]) -> Result<String, Stop> {
        let alloc = self.rt.alloc();
        let name = Plain(self.opened.workspace.name(number));
        match self.text_in(number)? {
            Some((format, text)) => {
                let (line, column) = position(alloc, (format, text.as_str()), path)?;
                Ok(format!(in alloc; "{name}:{line}:{column}")?)
            }
            None => Ok(format!(in alloc; "{name}")?),
        }
    }
}

// Whether a pointer is that of a path.
fn is_at(
    alloc: Global,
    path: &[JsonPointerSegment<'_>],
    pointer: &str,
) -> Result<bool, AllocError> {
    let own = pointer_of(alloc, path)?;
    Ok(own.as_str() == pointer)
}

// What is wrong where there is no bundle.
fn text_of(alloc: Global, problem: &Problem<'_>) -> Result<String, AllocError> {
    match problem {
        Problem::NoDocument => String::from_str(alloc, "There is no such document"),
        Problem::NotEmbedded(obstacle) => {
            format!(in alloc; "The document can't be embedded: {obstacle}")
        }
        Problem::NoMap => String::from_str(
            alloc,
            "The root's $defs (definitions in Drafts 4, 6 and 7) is no object",
        ),
        Problem::KeyTaken { uri } => {
            ["There is a definition '", uri.as_str(), "' already"].join(alloc, "")
        }
        Problem::SharedUri { uri, .. } => {
            ["Two schemas have the URI '", uri.as_str(), "'"].join(alloc, "")
        }
        Problem::ReplacedUri { uri, base } => [
            "It refers to a document by '",
            uri.as_str(),
            "', but by its identifier the document's URI is '",
            base.as_str(),
            "'",
        ]
        .join(alloc, ""),
        Problem::ShadowedUri { uri, base, .. } => [
            "It refers to an anchor of '",
            uri.as_str(),
            "', which stays outside, and whose URI by its identifier is '",
            base.as_str(),
            "', as another schema's is",
        ]
        .join(alloc, ""),
        Problem::AddedMember { uri, key } => [
            "It points to the member '",
            key.as_str(),
            "' of '",
            uri.as_str(),
            "', and the bundle adds or changes that member",
        ]
        .join(alloc, ""),
    }
}

// What to change where there is no bundle.
fn advice(problem: &Problem<'_>) -> &'static str {
    match problem {
        Problem::NoDocument => "give a file",
        Problem::NotEmbedded(obstacle) => embedding_advice(obstacle),
        Problem::NoMap => "make it an object, or rename the member",
        Problem::KeyTaken { .. } => {
            "rename that definition, or leave the file out that has this URI"
        }
        Problem::SharedUri { .. } => {
            "give one of them another identifier, or leave the file out that has the other"
        }
        Problem::ReplacedUri { base, .. } if base.as_str().contains('#') => {
            "the document can't be named by its identifier: give it one without a fragment"
        }
        Problem::ReplacedUri { .. } => "refer to the document by its identifier",
        Problem::ShadowedUri { .. } => "give that other schema another identifier",
        Problem::AddedMember { key, .. } => added_advice(key.as_str()),
    }
}

// What to change where a pointer leads to a member that a bundle adds or changes.
fn added_advice(key: &str) -> &'static str {
    match key {
        "$schema" => "give that document the $schema of its draft, or refer to something else",
        "$id" | "id" => "give that document this URI as its identifier, or refer to something else",
        _ => "refer to that document by its URI",
    }
}

// Whether a fragment is a name: not empty, and no pointer.
fn is_name(fragment: &str) -> bool {
    !fragment.is_empty() && !fragment.starts_with('/')
}

// Whether a fragment is a pointer to a member that a bundle adds or changes: its first key is this one, or its second where
// that is a document's.
fn has_key(alloc: Global, fragment: &str, key: &str) -> Result<bool, AllocError> {
    let Some(text) = fragment.strip_prefix('/') else {
        return Ok(false);
    };
    let decoded = match percent_decode(text.as_bytes()).decode_utf8(alloc) {
        Ok(decoded) => decoded,
        Err(DecodeError::OutOfMemory) => return Err(AllocError),
        Err(DecodeError::Utf8(_)) => return Ok(false),
    };
    let (first, more) = cut(decoded.as_str());
    let token = match key {
        "$schema" | "$id" | "id" => first,
        _ if first == "$defs" || first == "definitions" => cut(more).0,
        _ => return Ok(false),
    };
    Ok(unescape_segment(alloc, token)?.as_str() == key)
}

// What is before the first `/` of a text, and what is after it.
fn cut(text: &str) -> (&str, &str) {
    text.split_once('/').unwrap_or((text, ""))
}

// What to change in a document that can't be embedded.
fn embedding_advice(obstacle: &Obstacle) -> &'static str {
    match obstacle {
        Obstacle::NotAnObject => "write true as {} and false as {\"not\": {}}",
        Obstacle::IdentifierBesideRef => "put the $ref into an allOf",
        Obstacle::NotAnIdentifier => "give it a URI as its identifier",
        Obstacle::NotKept(_) => "refer to it without the # at the end",
        Obstacle::UnnamedDraft(_) => "give it the $schema of its draft",
        Obstacle::ResolvedAgain => "make its identifier absolute",
    }
}
