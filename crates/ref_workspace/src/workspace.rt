//! The documents that are open.
ghost use Rattle.std.specs.Prelude.{◌≡◌, ◌≤◌, [], drop, map, option_map, take, vec_len, OnErr, OnOk};
ghost use Rattle.serde_json.specs.View.{view};
ghost use Rattle.ref_findings.specs.Held.{held_source};
ghost use Rattle.ref_workspace.specs.Workspace as spec;

use crate::asking::Asking;
use crate::led::missing_led;
use crate::sources::{add_held, faulty_of, sources_of};
use ref_draft::Draft;
use ref_error::{Retrieve, RetrieveError};
use ref_files::{DocumentText, Format};
use ref_findings::{Held, gather};
use ref_uri::Uri;
use serde_json::{Map, Value};
use std::alloc::{AllocError, Global};
use std::collections::BTreeMap;

/// A document that is open.
#[derive(Drop)]
pub struct Document {
    /// What it is called in answers, as the path of its file.
    pub name: String,
    /// The URI that it is under, in normal form and without a fragment, as [`from_str`](ref_uri::uri::from_str) gives it.
    pub uri: Uri,
    /// Its text, and the value that it is. One that was retrieved may have no text.
    pub text: DocumentText,
}

impl Document {
    ghost use Rattle.ref_workspace.specs.Open.{document_of};

    /// Its value, where it has one.
    pub fn value(&self) -> Option<&Value>
        ensures value { option_map (λ v. view v.now) result ≡ (document_of self.now).tree }
    {
        self.text.value()
    }
}

/// Documents that are open: first those that are asked about, then those that references may lead into, and then what was
/// retrieved for them. They are numbered in this order, from 0.
#[derive(Drop)]
pub struct Workspace {
    // The draft of documents that name none.
    draft: Draft,
    // Those that are open, and after them those that were retrieved and have a text that means no URI.
    documents: Vec<Document>,
    // How many are asked about.
    asked: usize,
    // How many are open.
    opened: usize,
    // What else was retrieved.
    held: Vec<Held>,
    // What counts in place of a document that has no value.
    empty: Value,
    // Whether it is told what is beside a reference of a description.
    tells_beside: bool,
    ghost ordered: { (asked ≤ opened) × (opened ≤ vec_len documents) },
}

impl Workspace {
    ghost use Rattle.ref_workspace.specs.Open.{document_of, workspace_of};

    /// One without documents. Takes no memory.
    pub fn new(alloc: Global, draft: Draft) -> Workspace
        ensures value { workspace_of result
            ≡ record { draft = draft; documents = []; asked = 0; opened = 0; held = [] } }
    {
        Workspace {
            draft,
            documents: Vec::new(alloc),
            asked: 0,
            opened: 0,
            held: Vec::new(alloc),
            empty: Value::Object(Map::new(alloc)),
            tells_beside: false,
        }
    }

    /// Sets whether it is told which keywords are beside a `$ref` of a schema in descriptions of OpenAPI 2.0 and 3.0; at first it isn't.
    pub fn tell_beside(&mut self, is_told: bool) {
        self.tells_beside = is_told;
    }

    /// Whether it is.
    pub(crate) fn tells_beside(&self) -> bool {
        self.tells_beside
    }

    /// Opens a document that is asked about, after the others that are. Fails only if out of memory, and then nothing is changed.
    #[tactic(auto, using(crate::proofs::Opening::mapped_insert))]
    pub fn open(&mut self, document: Document) -> Result<(), AllocError>
        ensures ok { OnOk result
            (workspace_of self.new
            ≡ spec.with_asked (document_of document) (workspace_of self.old)) }
        ensures err { OnErr result (workspace_of self.new ≡ workspace_of self.old) }
    {
        self.documents.insert(self.asked, document)?;
        self.asked += 1;
        self.opened += 1;
        Ok(())
    }

    /// Opens a document that references may lead into, after all that are open. Fails only if out of memory, and then nothing is changed.
    #[tactic(auto, using(crate::proofs::Opening::mapped_insert))]
    pub fn open_beside(&mut self, document: Document) -> Result<(), AllocError>
        ensures ok { OnOk result
            (workspace_of self.new
            ≡ spec.with_beside (document_of document) (workspace_of self.old)) }
        ensures err { OnErr result (workspace_of self.new ≡ workspace_of self.old) }
    {
        self.documents.insert(self.opened, document)?;
        self.opened += 1;
        Ok(())
    }

    /// Opens another text in place of that of the document with a number, where there is one.
    pub fn replace(&mut self, number: usize, text: DocumentText) {
        if let Some(document) = self.documents.get_mut(number) {
            document.text = text;
        }
    }

    /// Closes the document with a number, where one is open. Those after it get the numbers before their own.
    #[tactic(auto, using(crate::proofs::Opening::mapped_remove))]
    pub fn close(&mut self, number: usize)
        ensures value { workspace_of self.new ≡ spec.without number (workspace_of self.old) }
    {
        if number >= self.opened {
            return;
        }
        self.opened -= 1;
        if number < self.asked {
            self.asked -= 1;
        }
        let closed = self.documents.remove(number);
        drop(closed);
    }

    /// Retrieves what the open documents want, in place of what was retrieved before, each document once. Those retrieved documents
    /// that have a text that means no URI come first: they are called by their URIs, and have no text yet. Fails only if out of memory.
    pub fn retrieve<R: Retrieve>(
        &mut self,
        alloc: Global,
        retriever: &R,
    ) -> Result<(), AllocError> {
        self.documents.truncate(self.opened);
        self.held.clear();
        let asking = Asking::new(alloc, retriever);
        self.gather_all(alloc, &asking)?;
        self.retrieve_parts(alloc, &asking)
    }

    // Retrieves what is wanted where keywords lead, of all documents that there are.
    fn gather_all<R: Retrieve>(&mut self, alloc: Global, retriever: &R) -> Result<(), AllocError> {
        let held = self.gathered(alloc, retriever)?;
        let faulty = faulty_of(alloc, self.draft, held.as_slice())?;
        for (document, is_faulty) in held.into_iter().zip(faulty.into_iter()) {
            if is_faulty {
                push(&mut self.documents, retrieved(alloc, document)?)?;
            } else {
                push_held(&mut self.held, document)?;
            }
        }
        Ok(())
    }

    fn gathered<R: Retrieve>(&self, alloc: Global, retriever: &R) -> Result<Vec<Held>, AllocError> {
        let mut sources = sources_of(alloc, self.documents.as_slice())?;
        add_held(&mut sources, self.held.as_slice())?;
        gather(alloc, self.draft, sources.as_slice(), retriever, usize::MAX)
    }

    // Retrieves what descriptions want, and what schemas lead to where no keyword does, and then what these want, again and again, each document once.
    fn retrieve_parts<R: Retrieve>(
        &mut self,
        alloc: Global,
        retriever: &R,
    ) -> Result<(), AllocError> {
        let mut tried = BTreeMap::new(alloc);
        for _ in 0..u64::MAX {
            let mut is_any_new = false;
            let mut missing = self.missing_parts(alloc)?;
            missing.append(&mut missing_led(alloc, self)?)?;
            for uri in missing {
                let text = String::from_str(alloc, uri.as_str())?;
                if tried.insert(text, ())?.is_none() {
                    is_any_new = true;
                    self.retrieve_part(alloc, retriever, uri)?;
                }
            }
            if !is_any_new {
                break;
            }
            self.gather_all(alloc, retriever)?;
        }
        Ok(())
    }

    // Retrieves a document, where the retriever has it.
    fn retrieve_part<R: Retrieve>(
        &mut self,
        alloc: Global,
        retriever: &R,
        uri: Uri,
    ) -> Result<(), AllocError> {
        match retriever.retrieve(alloc, &uri) {
            Ok(value) => push_held(&mut self.held, Held { uri, value }),
            Err(RetrieveError::Refused(reason)) => {
                drop(reason);
                Ok(())
            }
            Err(RetrieveError::Memory(error)) => Err(error),
        }
    }

    /// Adds a document that was retrieved, after all others that have a text. Fails only if out of memory, and then nothing is changed.
    #[tactic(auto, using(crate::proofs::Opening::mapped_push))]
    pub fn add_retrieved(&mut self, document: Document) -> Result<(), AllocError>
        ensures ok { OnOk result
            (workspace_of self.new
            ≡ spec.with_retrieved (document_of document) (workspace_of self.old)) }
        ensures err { OnErr result (workspace_of self.new ≡ workspace_of self.old) }
    {
        self.documents.push(document)?;
        Ok(())
    }

    /// Gives a name and a text, which is written so, to the document with a number, which was retrieved. Its value stays.
    pub fn set_file(&mut self, number: usize, name: String, format: Format, text: String) {
        if let Some(document) = self.documents.get_mut(number) {
            document.name = name;
            document.text.format = format;
            document.text.text = text;
        }
    }

    /// The documents that have a name and a text of their own: those that are open, and after them what was retrieved and has a text
    /// that means no URI.
    pub fn documents(&self) -> &[Document]
        ensures value { map document_of result.now ≡ (workspace_of self.now).documents }
    {
        self.documents.as_slice()
    }

    /// Those documents that are asked about.
    #[tactic(auto, using(crate::proofs::Opening::mapped_take))]
    pub fn asked_about(&self) -> &[Document]
        ensures value { map document_of result.now
            ≡ take (workspace_of self.now).asked (workspace_of self.now).documents }
    {
        &self.documents[..self.asked]
    }

    /// The other documents that have a name and a text of their own.
    #[tactic(auto, using(crate::proofs::Opening::mapped_rest))]
    pub fn not_asked(&self) -> &[Document]
        ensures value { map document_of result.now
            ≡ drop (workspace_of self.now).asked (workspace_of self.now).documents }
    {
        &self.documents[self.asked..]
    }

    /// How many documents are asked about.
    pub fn asked(&self) -> usize
        ensures value { result ≡ (workspace_of self.now).asked }
    {
        self.asked
    }

    /// How many documents are open.
    pub fn opened(&self) -> usize
        ensures value { result ≡ (workspace_of self.now).opened }
    {
        self.opened
    }

    /// What was retrieved and has no text.
    pub(crate) fn held_documents(&self) -> &[Held]
        ensures value { map held_source result.now ≡ (workspace_of self.now).held }
    {
        self.held.as_slice()
    }

    /// The draft of documents that name none.
    pub fn draft(&self) -> Draft
        ensures value { result ≡ (workspace_of self.now).draft }
    {
        self.draft
    }

    /// How many documents there are: those that are open, and after them what was retrieved.
    pub fn len(&self) -> usize {
        self.documents.len().saturating_add(self.held.len())
    }

    // The document with a number that was retrieved and has no text.
    fn held(&self, number: usize) -> Option<&Held> {
        self.held.get(number.checked_sub(self.documents.len())?)
    }

    /// The URI of the document with a number.
    pub fn uri(&self, number: usize) -> Option<&Uri> {
        match self.documents.get(number) {
            Some(document) => Some(&document.uri),
            None => Some(&self.held(number)?.uri),
        }
    }

    /// The value of the document with a number, where it has one.
    pub fn value(&self, number: usize) -> Option<&Value> {
        match self.documents.get(number) {
            Some(document) => document.value(),
            None => Some(&self.held(number)?.value),
        }
    }

    /// How the text of the document with a number is written. What was retrieved and has no text counts as JSON.
    pub fn format(&self, number: usize) -> Format {
        match self.documents.get(number) {
            Some(document) => document.text.format,
            None => Format::Json,
        }
    }

    /// The value of the document with a number as it is read: the tree in place of its own, where there is one, or an empty one
    /// where it has none.
    pub fn read_value<'d>(&'d self, number: usize, trees: &'d [Option<Value>]) -> &'d Value {
        if let Some(Some(tree)) = trees.get(number) {
            return tree;
        }
        match self.value(number) {
            Some(value) => value,
            None => &self.empty,
        }
    }

    /// The name of the document with a number, or the URI of what was retrieved and has none.
    pub fn name(&self, number: usize) -> &str {
        if let Some(document) = self.documents.get(number) {
            return document.name.as_str();
        }
        match self.held(number) {
            Some(held) => held.uri.as_str(),
            None => "",
        }
    }

    /// Keeps the documents to the end of the program, which is faster than to free their values one by one, and returns how
    /// many are asked about.
    pub fn keep(self) -> usize {
        let kept = self.documents.leak();
        self.asked.min(kept.len())
    }
}

// A retrieved document that is called by its URI.
fn retrieved(alloc: Global, held: Held) -> Result<Document, AllocError> {
    let name = String::from_str(alloc, held.uri.as_str())?;
    let Held { uri, value } = held;
    Ok(Document {
        name,
        uri,
        text: DocumentText {
            text: String::new(alloc),
            format: Format::Json,
            value: Ok(value),
        },
    })
}

fn push(documents: &mut Vec<Document>, document: Document) -> Result<(), AllocError>
    ensures { vec_len documents.old ≤ vec_len documents.new }
{
    documents.push(document)?;
    Ok(())
}

fn push_held(list: &mut Vec<Held>, held: Held) -> Result<(), AllocError> {
    list.push(held)?;
    Ok(())
}
