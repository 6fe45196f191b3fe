//! A tree with the draft that it is read by.
ghost use Rattle.std.specs.Prelude.{◌≡◌, IfOk, option_map};
ghost use Rattle.serde_json.specs.View.{view};
ghost use Rattle.ref_draft.specs.Schema.{detect};
ghost use Rattle.ref_draft.specs.Views.{id_of, resource, resource_ref, tagged_value};

use crate::draft::Draft;
use crate::spec::ids::identifier;
use serde_json::Value;
use std::alloc::AllocError;

/// An owned document, and the draft that it is read by.
#[derive(Debug, PartialEq, Drop)]
pub struct Resource {
    contents: Value,
    draft: Draft,
}

impl Resource {
    pub(crate) fn new(contents: Value, draft: Draft) -> Self
        ensures { resource result ≡ tagged_value draft (view contents) }
    {
        Resource { contents, draft }
    }

    /// The document.
    pub fn contents(&self) -> &Value
        ensures value { view result.now ≡ (resource self.now).contents }
    {
        &self.contents
    }

    /// The draft that it is read by.
    pub fn draft(&self) -> Draft
        ensures value { result ≡ (resource self.now).draft }
    {
        self.draft
    }

    /// The draft and the document, moved out. It takes no memory.
    pub fn into_inner(self) -> (Draft, Value)
        ensures value { tagged_value result.0 (view result.1) ≡ resource self }
    {
        let Resource { contents, draft } = self;
        (draft, contents)
    }

    /// The document as a resource of the draft that 2020-12 detects on it. It takes no memory.
    pub fn from_contents(contents: Value) -> Resource
        ensures value { let tree = view contents in resource result
            ≡ tagged_value (detect Draft.Draft202012 tree) tree }
    {
        Draft::Draft202012
            .detect(&contents)
            .create_resource(contents)
    }

    /// A copy of the document with the same draft. It takes time linear in the document, and for each member a look-up
    /// by its key; its stack grows with the depth of the document. Fails only where memory is refused, which it takes for
    /// the document.
    pub fn clone(&self) -> Result<Self, AllocError>
        ensures copy { IfOk result (λ copy. resource copy ≡ resource self.now) }
    {
        Ok(Resource {
            contents: self.contents.clone()?,
            draft: self.draft,
        })
    }
}

/// A borrowed document, and the draft that it is read by.
#[derive(Debug, Clone, Copy)]
pub struct ResourceRef<'a> {
    contents: &'a Value,
    draft: Draft,
}

impl<'a> ResourceRef<'a> {
    /// The document as a resource of the draft.
    pub fn new(contents: &'a Value, draft: Draft) -> Self
        ensures value { resource_ref result ≡ tagged_value draft (view contents.now) }
    {
        ResourceRef { contents, draft }
    }

    /// The document.
    pub fn contents(&self) -> &'a Value
        ensures value { view result.now ≡ (resource_ref self.now).contents }
    {
        self.contents
    }

    /// The draft that it is read by.
    pub fn draft(&self) -> Draft
        ensures value { result ≡ (resource_ref self.now).draft }
    {
        self.draft
    }

    /// The document as a resource of the draft that 2020-12 detects on it. It takes no memory.
    pub fn from_contents(contents: &'a Value) -> Self
        ensures value { let tree = view contents.now in
            resource_ref result ≡ tagged_value (detect Draft.Draft202012 tree) tree }
    {
        ResourceRef::new(contents, Draft::Draft202012.detect(contents))
    }

    /// The document's identifier without the `#` characters at its end: the text under `id` in Draft 4, else under
    /// `$id`. Before 2019-09 there is none beside a `$ref`, and none where the text begins with `#`, which makes it an
    /// anchor (Draft 7 Core, 8.2 and 8.3). It borrows the document's text and takes no memory: two look-ups, and time
    /// linear in the text.
    pub fn id(&self) -> Option<&'a str>
        ensures value { option_map (λ text. text.now) result ≡ id_of (resource_ref self.now) }
    {
        identifier(self.draft, self.contents)
    }
}
