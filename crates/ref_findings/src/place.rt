//! A place where a schema is.
ghost use Rattle.std.specs.Prelude.{◌≡◌, true, [], map, option_map, option_and_then, Some, IfOk};
ghost use Rattle.ref_index.specs.Visit.{place_of as visited_place};
ghost use Rattle.serde_json.specs.View.{view};
ghost use Rattle.ref_draft.specs.Schema.{text_under as text_in};
ghost use Rattle.ref_draft.specs.Anchors.{anchors as anchors_of};
ghost use Rattle.ref_definitions.specs.Resources.{own_uri};
ghost use Rattle.ref_index.specs.Visit.{place_with};
ghost use Rattle.ref_findings.specs.inner.Plain.{IsPlain, AreAmong};

use crate::keyword::Keyword;
use crate::texts::{Texts, texts_of};
use ref_draft::{AnchorIter, Draft, ResourceRef};
use ref_index::meanings::{if_meant, resolved, text_under};
use ref_index::{Below, ValueRef, Visit};
use ref_parts::path::JsonPointerNode;
use ref_uri::Uri;
use serde_json::Value;
use std::alloc::{AllocError, Global};
use std::rc::Rc;

// The URI that a value has by its own identifier against the base around it, where it has an identifier that means one.
fn own_uri(
    alloc: Global,
    value: &Value,
    draft: Draft,
    outer: &Rc<Uri>,
    texts: Texts,
) -> Result<Option<Rc<Uri>>, AllocError>
    requires { AreAmong texts draft (view value.now) }
    ensures { IfOk result
        (λ own. option_map (λ u. u.value) own
        ≡ own_uri (place_with [] (view value.now) draft outer.now.value)) }
{
    if !texts.id {
        return Ok(None);
    }
    let Some(id) = ResourceRef::new(value, draft).id() else {
        return Ok(None);
    };
    if_meant(resolved(alloc, outer, id))
}

/// A place where a schema is: its path, value and draft, the base URI around it, and its own.
#[derive(Drop)]
pub(crate) struct Place<'v> {
    pub path: JsonPointerNode<'v>,
    pub value: &'v Value,
    pub draft: Draft,
    pub outer: Rc<Uri>,
    // The URI that its own identifier means, where it has one that means a URI.
    own: Option<Rc<Uri>>,
    texts: Texts,
    ghost among: { AreAmong texts draft (view value.now) },
    ghost means: { option_map (λ u. u.value) own
        ≡ own_uri (place_with [] (view value.now) draft outer.value) },
}

impl<'v> Place<'v> {
    ghost use Rattle.std.specs.Prelude.{codes};
    ghost use Rattle.ref_draft.specs.Views.{anchor_name, anchors_left};
    ghost use Rattle.ref_definitions.specs.Places.{identifier_of};
    ghost use Rattle.serde_json.specs.Find.{get};
    ghost use Rattle.ref_findings.specs.Bearers.{is_root};
    ghost use Rattle.ref_findings.specs.Places.{dynamic_keyword};
    ghost use Rattle.ref_findings.specs.inner.Keywords.{keyword_text};
    ghost use Rattle.ref_findings.specs.Places.{nearest_base, is_refused};
    ghost use Rattle.ref_findings.specs.inner.Seen.{place_of};

    /// The place of a value. Its identifier is resolved here, once.
    pub fn new(
        alloc: Global,
        path: JsonPointerNode<'v>,
        value: &'v Value,
        draft: Draft,
        outer: Rc<Uri>,
    ) -> Result<Place<'v>, AllocError>
        ensures value { IfOk result
            (λ p. place_of p
            ≡ place_with path.entry (view value.now) draft outer.value) }
    {
        let texts = texts_of(value, draft);
        let own = own_uri(alloc, value, draft, &outer, texts)?;
        Ok(Place {
            path,
            value,
            draft,
            outer,
            own,
            texts,
        })
    }

    /// The URI that it has by its own identifier, where that means one. Takes no memory.
    pub fn own_uri(&self) -> Option<&Rc<Uri>>
        ensures value { option_map (λ u. u.now.value) result ≡ own_uri (place_of self.now) }
    {
        self.own.as_ref()
    }

    /// Its base, or the base around it where its identifier means no URI (2020-12 Core, 8.2.1). Takes no memory.
    pub fn base(&self) -> &Rc<Uri>
        ensures value { result.now.value ≡ nearest_base (place_of self.now) }
    {
        match &self.own {
            Some(own) => own,
            None => &self.outer,
        }
    }

    /// Whether its identifier means no URI. Takes no memory.
    pub fn is_identifier_refused(&self) -> bool
        ensures value { result ≡ is_refused (Some (place_of self.now).base) }
    {
        match &self.own {
            Some(_) => false,
            None => self.id().is_some(),
        }
    }

    /// Whether it has no text that findings are about.
    pub fn is_plain(&self) -> bool
        ensures value { result ≡ true → IsPlain self.now.draft (view self.now.value.now) }
    {
        self.texts.is_empty()
    }

    /// The identifier of its value. Takes no memory.
    pub fn id(&self) -> Option<&'v str>
        ensures value { option_map (λ text. text.now) result ≡ identifier_of (place_of self.now) }
    {
        if !self.texts.id {
            return None;
        }
        ResourceRef::new(self.value, self.draft).id()
    }

    /// The text under `$ref`. Takes no memory.
    pub fn reference(&self) -> Option<&'v str>
        ensures value { option_map (λ text. text.now) result
            ≡ text_in (codes "$ref") (place_of self.now).value }
    {
        if !self.texts.reference {
            return None;
        }
        text_under(self.value, "$ref")
    }

    /// The value under `$ref`. Takes no memory.
    pub fn reference_value(&self) -> Option<&'v Value>
        ensures value { option_map (λ v. view v.now) result
            ≡ get (codes "$ref") (place_of self.now).value }
    {
        if !self.texts.reference {
            return None;
        }
        self.value.get("$ref")
    }

    /// The text under the keyword that its draft has for dynamic references. Takes no memory.
    pub fn dynamic(&self) -> Option<&'v str>
        ensures value { option_map (λ text. text.now) result
            ≡ option_and_then (λ k. text_in k (place_of self.now).value)
            (dynamic_keyword (place_of self.now).draft) }
    {
        let keyword = Keyword::of_dynamic(self.draft)?;
        self.dynamic_value(keyword)?.as_str()
    }

    /// The value under the keyword that its draft has for dynamic references. Takes no memory.
    pub fn dynamic_value(&self, keyword: Keyword) -> Option<&'v Value>
        requires { Some (keyword_text keyword) ≡ dynamic_keyword self.now.draft }
        ensures value { option_map (λ v. view v.now) result
            ≡ get (keyword_text keyword) (place_of self.now).value }
    {
        if !self.texts.dynamic {
            return None;
        }
        self.value.get(keyword.text())
    }

    /// The text under `$schema`. Takes no memory.
    pub fn schema(&self) -> Option<&'v str>
        ensures value { option_map (λ text. text.now) result
            ≡ text_in (codes "$schema") (place_of self.now).value }
    {
        if !self.texts.schema {
            return None;
        }
        text_under(self.value, "$schema")
    }

    /// Its anchors. Takes no memory.
    pub fn anchors(&self) -> AnchorIter<'v>
        ensures value { map anchor_name (anchors_left result)
            ≡ anchors_of (place_of self.now).draft (place_of self.now).value }
    {
        if !self.texts.anchor {
            return AnchorIter::Empty;
        }
        self.draft.anchors(self.value)
    }

    /// Its visit, as an index takes it. Shares its path and URI: by the code it takes no memory, and fails only where one of them
    /// has no count left for one more handle.
    pub fn visit(&self) -> Result<Visit<'v, 'v>, AllocError>
        ensures value { IfOk result (λ visit. visited_place visit ≡ place_of self.now) }
    {
        let above = self.path.clone()?;
        let outer = self.outer.clone()?;
        Ok(Visit {
            value: ValueRef::Borrowed(self.value, Below { above, tail: None }),
            draft: self.draft,
            outer,
        })
    }

    /// Whether it is the root of its source. Takes no memory.
    pub fn is_root(&self) -> bool
        ensures value { result ≡ is_root (place_of self.now) }
    {
        self.path.parent().is_none()
    }
}
