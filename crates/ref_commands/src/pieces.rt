//! A bundle in pieces, which are values of its documents, so that no second tree of it is made.
use ref_bundle::{BundleParts, Embedded, Member};
use ref_draft::Draft;
use serde_json::{Map, Value};
use std::alloc::{AllocError, Global};
use std::collections::BTreeMap;

/// The documents of a bundle, and what is added to them.
#[derive(Clone, Copy, Drop)]
pub struct Pieces<'p, 'r, 'e> {
    pub parts: &'p BundleParts<'r>,
    /// What is listed of each document under the root's definitions.
    pub embedded: &'e [Embedded],
    /// The `$schema` that the root gets.
    pub schema: Option<&'static str>,
}

/// A value of a bundle.
#[derive(Clone, Copy, Drop)]
pub enum Piece<'p> {
    /// The root.
    Root,
    /// Its definitions.
    Definitions,
    /// The document under them with this index.
    Document(usize),
    /// A value of a document.
    Own(&'p Value),
    /// A text that is added.
    Text(&'p str),
}

/// The members of an object of a bundle.
pub type Members<'p> = BTreeMap<&'p str, Piece<'p>>;

/// The keyword of definitions (Draft 7 Validation, 9; 2019-09 Core, 8.2.5).
pub fn definitions(draft: Draft) -> &'static str {
    match draft {
        Draft::Draft4 | Draft::Draft6 | Draft::Draft7 => "definitions",
        _ => "$defs",
    }
}

impl<'p> Pieces<'p, '_, '_> {
    /// The whole bundle.
    pub fn whole(&self) -> Piece<'p> {
        let parts = self.parts;
        if parts.root.tree.is_object() {
            Piece::Root
        } else {
            Piece::Own(parts.root.tree)
        }
    }

    /// The members of a piece that is an object.
    pub fn members(
        &self,
        alloc: Global,
        piece: Piece<'p>,
    ) -> Result<Option<Members<'p>>, AllocError> {
        match piece {
            Piece::Root => Ok(Some(self.of_root(alloc)?)),
            Piece::Definitions => Ok(Some(self.of_definitions(alloc)?)),
            Piece::Document(index) => self.of_document(alloc, index),
            Piece::Own(value) => of_value(alloc, value),
            Piece::Text(_) => Ok(None),
        }
    }

    fn of_root(&self, alloc: Global) -> Result<Members<'p>, AllocError> {
        let parts = self.parts;
        let mut members = of_object(alloc, parts.root.tree.as_object())?;
        if let Some(schema) = self.schema {
            members.insert("$schema", Piece::Text(schema))?;
        }
        if !parts.embedded.is_empty() {
            members.insert(definitions(parts.root.draft), Piece::Definitions)?;
        }
        Ok(members)
    }

    fn of_definitions(&self, alloc: Global) -> Result<Members<'p>, AllocError> {
        let parts = self.parts;
        let own = parts.root.tree.get(definitions(parts.root.draft));
        let mut members = of_object(alloc, own.and_then(Value::as_object))?;
        for (index, part) in parts.embedded.iter().enumerate() {
            members.insert(part.base.as_str(), Piece::Document(index))?;
        }
        Ok(members)
    }

    // Each member is one of the document's own keys, or of those that it may get.
    fn of_document(&self, alloc: Global, index: usize) -> Result<Option<Members<'p>>, AllocError> {
        let parts = self.parts;
        let Some(part) = parts.embedded.get(index) else {
            return Ok(None);
        };
        let Some(object) = part.tree.as_object() else {
            return Ok(None);
        };
        let mut members = BTreeMap::new(alloc);
        for (key, _) in object {
            put(
                &mut members,
                key.as_str(),
                parts.member(index, key.as_str()),
            )?;
        }
        for key in [part.draft.id_keyword(), "$schema"] {
            put(&mut members, key, parts.member(index, key))?;
        }
        Ok(Some(members))
    }

    /// The bundle as a tree.
    pub fn value(&self, alloc: Global) -> Result<Value, AllocError> {
        let mut value = self.parts.assembled(alloc)?.value;
        if let (Some(schema), Some(members)) = (self.schema, value.as_object_mut()) {
            let key = String::from_str(alloc, "$schema")?;
            let schema = String::from_str(alloc, schema)?;
            members.insert(key, Value::String(schema))?;
        }
        Ok(value)
    }

    /// The bundle on a line.
    pub fn minified(&self, alloc: Global) -> Result<String, AllocError> {
        let mut out = String::new(alloc);
        let whole = self.whole();
        match self.members(alloc, whole)? {
            Some(members) => self.push_root(alloc, &mut out, &members)?,
            None => push_leaf(alloc, &mut out, whole)?,
        }
        out.push('\n')?;
        Ok(out)
    }

    fn push_root(
        &self,
        alloc: Global,
        out: &mut String,
        members: &Members<'p>,
    ) -> Result<(), AllocError> {
        let mut before = '{';
        for (key, piece) in members {
            push_key(alloc, out, before, key)?;
            match piece {
                Piece::Definitions => self.push_definitions(alloc, out)?,
                _ => push_leaf(alloc, out, *piece)?,
            }
            before = ',';
        }
        push_end(out, before)
    }

    fn push_definitions(&self, alloc: Global, out: &mut String) -> Result<(), AllocError> {
        let members = self.of_definitions(alloc)?;
        let mut before = '{';
        for (key, piece) in &members {
            push_key(alloc, out, before, key)?;
            match piece {
                Piece::Document(index) => self.push_document(alloc, out, *index)?,
                _ => push_leaf(alloc, out, *piece)?,
            }
            before = ',';
        }
        push_end(out, before)
    }

    fn push_document(
        &self,
        alloc: Global,
        out: &mut String,
        index: usize,
    ) -> Result<(), AllocError> {
        let Some(members) = self.of_document(alloc, index)? else {
            return Ok(());
        };
        let mut before = '{';
        for (key, piece) in &members {
            push_key(alloc, out, before, key)?;
            push_leaf(alloc, out, *piece)?;
            before = ',';
        }
        push_end(out, before)
    }
}

// Adds a member of an embedded document, where there is one.
fn put<'p>(
    members: &mut Members<'p>,
    key: &'p str,
    member: Option<Member<'p>>,
) -> Result<(), AllocError> {
    let piece = match member {
        Some(Member::Own(value)) => Piece::Own(value),
        Some(Member::Text(text)) => Piece::Text(text),
        None => return Ok(()),
    };
    members.insert(key, piece)?;
    Ok(())
}

// The members of an object, where there is one.
fn of_object<'p>(
    alloc: Global,
    object: Option<&'p Map<String, Value>>,
) -> Result<Members<'p>, AllocError> {
    let mut members = BTreeMap::new(alloc);
    if let Some(object) = object {
        for (key, value) in object {
            members.insert(key.as_str(), Piece::Own(value))?;
        }
    }
    Ok(members)
}

// The members of a value that is an object.
fn of_value<'p>(alloc: Global, value: &'p Value) -> Result<Option<Members<'p>>, AllocError> {
    match value.as_object() {
        Some(object) => Ok(Some(of_object(alloc, Some(object))?)),
        None => Ok(None),
    }
}

// Adds the key of a member, behind what is before it.
fn push_key(alloc: Global, out: &mut String, before: char, key: &str) -> Result<(), AllocError> {
    out.push(before)?;
    push_text(alloc, out, key)?;
    out.push(':')
}

// Ends an object, which was begun where a member was added.
fn push_end(out: &mut String, before: char) -> Result<(), AllocError> {
    if before == '{' {
        out.push('{')?;
    }
    out.push('}')
}

// Adds a value of a document, or a text.
fn push_leaf(alloc: Global, out: &mut String, piece: Piece<'_>) -> Result<(), AllocError> {
    match piece {
        Piece::Own(value) => {
            let text = value.to_string(alloc)?;
            out.push_str(text.as_str())
        }
        Piece::Text(text) => push_text(alloc, out, text),
        _ => Ok(()),
    }
}

// Adds a text as JSON.
fn push_text(alloc: Global, out: &mut String, text: &str) -> Result<(), AllocError> {
    let value = Value::String(String::from_str(alloc, text)?);
    let quoted = value.to_string(alloc)?;
    out.push_str(quoted.as_str())
}
