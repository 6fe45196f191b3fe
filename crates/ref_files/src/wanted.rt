//! Which of the files that were passed over others refer to.
use crate::reading::ReadFile;
use ref_uri::uri::resolve_against;
use ref_uri::{Uri, UriFault};
use serde_json::{Map, Value};
use std::alloc::{AllocError, Global};
use std::collections::BTreeMap;

// A value that is to be visited, and the number of its base URI.
type Step<'v> = (&'v Value, usize);

// What was visited so far.
#[derive(Drop)]
struct Search<'v, 'w> {
    alloc: Global,
    files: &'v [ReadFile],
    // The numbers of those that are passed over, by their URIs.
    numbers: BTreeMap<&'v str, usize>,
    is_read: &'w mut Vec<bool>,
    bases: Vec<Uri>,
    waiting: Vec<Step<'v>>,
}

// The keys under which a text may refer to a file.
const KEYS: [&str; 3] = ["$ref", "$dynamicRef", "operationRef"];

/// Adds those files to the ones that are read which these refer to: by a text under `$ref`, `$dynamicRef` or `operationRef`, or in the mapping of a discriminator,
/// anywhere in one that is read or is added, by the identifiers around it. Fails only if out of memory. Where none is passed over nothing is visited, and else each value once.
pub(crate) fn add_wanted(
    alloc: Global,
    files: &[ReadFile],
    is_read: &mut Vec<bool>,
) -> Result<(), AllocError> {
    if is_read.iter().all(|is_read| *is_read) {
        return Ok(());
    }
    let mut search = Search::new(alloc, files, is_read)?;
    for (number, file) in files.iter().enumerate() {
        search.begin(number, file)?;
    }
    for _ in 0..u64::MAX {
        let Some((value, base)) = search.waiting.pop() else {
            break;
        };
        search.visit(value, base)?;
    }
    Ok(())
}

// The value under a key, where it is a text.
fn text_under<'v>(members: &'v Map<String, Value>, key: &str) -> Option<&'v str> {
    members.get(key)?.as_str()
}

impl<'v, 'w> Search<'v, 'w> {
    fn new(
        alloc: Global,
        files: &'v [ReadFile],
        is_read: &'w mut Vec<bool>,
    ) -> Result<Search<'v, 'w>, AllocError> {
        Ok(Search {
            alloc,
            files,
            numbers: BTreeMap::new(alloc),
            is_read,
            bases: Vec::new(alloc),
            waiting: Vec::new(alloc),
        })
    }

    // Adds the value of a file that is read, and the number of another one.
    fn begin(&mut self, number: usize, file: &'v ReadFile) -> Result<(), AllocError> {
        if self.is_read.get(number).copied().unwrap_or(false) {
            return self.add(file);
        }
        self.numbers.insert(file.uri.as_str(), number)?;
        Ok(())
    }

    // Adds the value of a file.
    fn add(&mut self, file: &'v ReadFile) -> Result<(), AllocError> {
        let Some(value) = file.text.value() else {
            return Ok(());
        };
        let base = self.bases.len();
        self.bases.push(file.uri.clone()?)?;
        self.waiting.push((value, base))?;
        Ok(())
    }

    fn visit(&mut self, value: &'v Value, base: usize) -> Result<(), AllocError> {
        match value {
            Value::Array(items) => {
                for item in items {
                    self.push(item, base)?;
                }
                Ok(())
            }
            Value::Object(members) => self.visit_object(members, base),
            _ => Ok(()),
        }
    }

    fn visit_object(
        &mut self,
        members: &'v Map<String, Value>,
        outer: usize,
    ) -> Result<(), AllocError> {
        let base = self.base_of(members, outer)?;
        for key in KEYS {
            if let Some(text) = text_under(members, key) {
                self.want(text, base)?;
            }
        }
        if let Some(discriminator) = members.get("discriminator") {
            self.want_mapped(discriminator, base)?;
        }
        for (_, value) in members {
            self.push(value, base)?;
        }
        Ok(())
    }

    // Adds the files that the mapping of a discriminator refers to.
    fn want_mapped(&mut self, discriminator: &'v Value, base: usize) -> Result<(), AllocError> {
        if let Some(mapping) = discriminator.get("mapping").and_then(Value::as_object) {
            for (_, text) in mapping {
                if let Some(text) = text.as_str() {
                    self.want(text, base)?;
                }
            }
        }
        Ok(())
    }

    // Adds a value in which there may be others.
    fn push(&mut self, value: &'v Value, base: usize) -> Result<(), AllocError> {
        if value.is_object() || value.is_array() {
            self.waiting.push((value, base))?;
        }
        Ok(())
    }

    // The number of the base URI of an object: that of its identifier, where it has one, or in a description of its `$self`.
    fn base_of(&mut self, members: &Map<String, Value>, outer: usize) -> Result<usize, AllocError> {
        let id = text_under(members, "$id").or(text_under(members, "id"));
        let Some(id) = id.or(text_under(members, "$self")) else {
            return Ok(outer);
        };
        let Some(uri) = self.resolved(id, outer)? else {
            return Ok(outer);
        };
        let base = self.bases.len();
        self.bases.push(uri)?;
        Ok(base)
    }

    // The URI that a text means.
    fn resolved(&self, text: &str, base: usize) -> Result<Option<Uri>, AllocError> {
        let (Some(base), false) = (self.bases.get(base), text.starts_with('#')) else {
            return Ok(None);
        };
        match resolve_against(self.alloc, base.borrow(), text) {
            Ok(uri) => Ok(Some(uri)),
            Err(UriFault::Memory(error)) => Err(error),
            Err(UriFault::Invalid(error)) => {
                drop(error);
                Ok(None)
            }
        }
    }

    // Marks the file that a text means, and adds its value.
    fn want(&mut self, text: &str, base: usize) -> Result<(), AllocError> {
        let Some(uri) = self.resolved(text, base)? else {
            return Ok(());
        };
        let (front, _) = uri.as_str().split_once('#').unwrap_or((uri.as_str(), ""));
        let Some(number) = self.numbers.get(front).copied() else {
            return Ok(());
        };
        drop(uri);
        self.mark(number)
    }

    fn mark(&mut self, number: usize) -> Result<(), AllocError> {
        let (Some(is_read), Some(file)) = (self.is_read.get_mut(number), self.files.get(number))
        else {
            return Ok(());
        };
        if *is_read {
            return Ok(());
        }
        *is_read = true;
        self.add(file)
    }
}
