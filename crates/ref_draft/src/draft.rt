//! The versions of JSON Schema.
ghost use Rattle.std.specs.Prelude.{◌≡◌, ◌↔◌, map, IfOk, OnOk, IsTrue};
ghost use Rattle.serde_json.specs.View.{view};
ghost use Rattle.ref_draft.specs.Keywords.{holding_of, id_keyword, is_known, is_before_2019};
ghost use Rattle.ref_draft.specs.Names as names;
ghost use Rattle.ref_draft.specs.Schema.{from_schema_uri, draft_of_uri, detect, text_under};
ghost use Rattle.ref_draft.specs.Children.{AllAreThere, InKeyOrder, subresources, walked_children};
ghost use Rattle.ref_draft.specs.Anchors.{anchors};
ghost use Rattle.ref_draft.specs.Scan.{IsAccepted};
ghost use Rattle.ref_draft.specs.Views.{AllName, anchor_name, anchors_left, resource, resource_ref, tagged_value, values_left, walked_child};

use crate::anchor::{self, AnchorIter};
use crate::resource::{Resource, ResourceRef};
use crate::segments::Segments;
use crate::spec::children::ChildIter;
use crate::spec::columns::may_hold;
use crate::spec::ids::{text_under, trim_hashes};
use crate::spec::walk::{self, Child};
use crate::spec::{Holding, draft4, draft6, draft7, draft201909, draft202012, known, scan};
use serde_json::Value;
use std::alloc::{AllocError, Global};

/// A version of JSON Schema. The versions are ordered as listed.
#[derive(Debug, Default, PartialEq, Copy, Clone, Hash, Eq, PartialOrd, Ord)]
pub enum Draft {
    /// JSON Schema Draft 4.
    Draft4,
    /// JSON Schema Draft 6.
    Draft6,
    /// JSON Schema Draft 7.
    Draft7,
    /// JSON Schema Draft 2019-09.
    Draft201909,
    /// JSON Schema Draft 2020-12.
    #[default]
    Draft202012,
    /// A custom meta-schema. Its keywords are those of Draft 2020-12.
    Unknown,
}

impl Draft {
    /// The value as a resource of this draft. It takes no memory.
    pub fn create_resource(self, contents: Value) -> Resource
        ensures value { resource result ≡ tagged_value self (view contents) }
    {
        Resource::new(contents, self)
    }

    /// The borrowed value as a resource of this draft. It takes no memory.
    pub fn create_resource_ref(self, contents: &Value) -> ResourceRef<'_>
        ensures value { resource_ref result ≡ tagged_value self (view contents.now) }
    {
        ResourceRef::new(contents, self)
    }

    /// The draft whose meta-schema has this URI (2020-12 Core, 8.1.1), with `http` or `https` and with any number of `#`
    /// at its end; `Unknown` for another text. The URI without a version, `http://json-schema.org/schema`, is that of
    /// 2020-12. It takes no memory, and time linear in the text.
    pub fn from_schema_uri(uri: &str) -> Draft
        ensures value { result ≡ from_schema_uri uri.now }
    {
        draft_of_uri(trim_hashes(uri))
    }

    /// The draft of the value: that of its text under `$schema`, and this draft where it is no object or has no text
    /// there (2020-12 Core, 8.1.1). It takes no memory: a look-up, and time linear in the text.
    pub fn detect(self, contents: &Value) -> Draft
        ensures value { result ≡ detect self (view contents.now) }
    {
        match text_under(contents, "$schema") {
            Some(uri) => Draft::from_schema_uri(uri),
            None => self,
        }
    }

    /// The name of the draft as its specification has it, such as `4` or `2020-12`; `unknown` for a custom meta-schema.
    /// It takes no memory.
    pub fn name(self) -> &'static str
        ensures value { result.now ≡ names.draft_name self }
    {
        match self {
            Draft::Draft4 => "4",
            Draft::Draft6 => "6",
            Draft::Draft7 => "7",
            Draft::Draft201909 => "2019-09",
            Draft::Draft202012 => "2020-12",
            Draft::Unknown => "unknown",
        }
    }

    /// The draft that has this name; `None` for another text, `unknown` among them. It takes no memory.
    pub fn from_name(name: &str) -> Option<Draft>
        ensures value { result ≡ names.draft_named name.now }
    {
        match name {
            "4" => Some(Draft::Draft4),
            "6" => Some(Draft::Draft6),
            "7" => Some(Draft::Draft7),
            "2019-09" => Some(Draft::Draft201909),
            "2020-12" => Some(Draft::Draft202012),
            _ => None,
        }
    }

    /// The keyword of a schema's identifier: `id` in Draft 4 (Core, 7.2), else `$id`.
    pub fn id_keyword(self) -> &'static str
        ensures value { result.now ≡ id_keyword self }
    {
        match self {
            Draft::Draft4 => "id",
            _ => "$id",
        }
    }

    /// Whether this draft knows the keyword: of 2020-12 those that `specs/Keywords.antt` lists from Core, 8, 10 and 11,
    /// and from Validation, 6 to 8, and with them earlier drafts' keywords but for `id`. It takes no memory: the keyword is
    /// compared with each of them.
    pub fn is_known_keyword(&self, keyword: &str) -> bool
        ensures value { result ≡ is_known self.now keyword.now }
    {
        match self {
            Draft::Draft4 => known::in_all(keyword) || known::in_4(keyword),
            Draft::Draft6 => known::in_all(keyword) || known::since_6(keyword),
            Draft::Draft7 => {
                known::in_all(keyword) || known::since_6(keyword) || known::since_7(keyword)
            }
            Draft::Draft201909 => known::in_2019(keyword),
            Draft::Draft202012 | Draft::Unknown => {
                known::in_2019(keyword) || known::since_2020(keyword)
            }
        }
    }

    /// The values right below the value that this draft reads as schemas (2020-12 Core, 10; earlier drafts as
    /// `specs/Keywords.antt` lists), in byte order of the keywords and then by index or in byte order of the keys; none
    /// below a value that is no object. In 2019-09 those under `dependencies` are left out, which `walk_children` visits.
    /// It takes no memory: a step is constant work for each keyword that it passes and, under `dependencies`, for each
    /// member.
    pub fn subresources_of<'a>(self, contents: &'a Value) -> ChildIter<'a>
        ensures items { values_left result ≡ subresources self (view contents.now) }
    {
        ChildIter::new(self, contents)
    }

    /// The values right below the value that this draft reads as schemas (2020-12 Core, 10; earlier drafts as
    /// `specs/Keywords.antt` lists), each with its keyword, the segment after it and the draft that this one detects on
    /// it, in byte order of the keywords and then by index or in byte order of the keys; none below a value that is no
    /// object. Each is what is found under its keyword and segment. Fails only where memory is refused, which it takes for
    /// the list. It takes constant work for each keyword, element and member that it passes, and for each child that of
    /// `detect`.
    pub fn walk_children<'a>(
        self,
        alloc: Global,
        contents: &'a Value,
    ) -> Result<Vec<Child<'a>>, AllocError>
        ensures children { IfOk result
            (λ v. map walked_child v.items ≡ walked_children self (view contents.now)) }
        ensures order { OnOk result (InKeyOrder (view contents.now)) }
        ensures found { IfOk result (λ v. AllAreThere (view contents.now) (map walked_child v.items)) }
    {
        walk::children(alloc, self, contents)
    }

    /// The anchors of the value (2020-12 Core, 8.2.2; 2019-09 Core, 8.2.3), a plain one before a dynamic one; each names
    /// the value as a resource of this draft. Before 2019-09 an anchor is in the identifier, after a leading `#`
    /// (Draft 7 Core, 8.2.3; Draft 6 Core, 9.2; Draft 4 Core, 7.2.2). It takes no memory: one look-up or two.
    pub fn anchors<'a>(self, contents: &'a Value) -> AnchorIter<'a>
        ensures names { map anchor_name (anchors_left result) ≡ anchors self (view contents.now) }
        ensures resources { AllName (tagged_value self (view contents.now)) (anchors_left result) }
    {
        match self {
            Draft::Draft4 | Draft::Draft6 | Draft::Draft7 => anchor::in_identifier(self, contents),
            Draft::Draft201909 => anchor::plain(self, contents),
            Draft::Draft202012 | Draft::Unknown => anchor::plain_and_dynamic(self, contents),
        }
    }

    /// Whether an identifier of the value may change the base, where the segments lead to it from where the base last
    /// changed: each leads to a schema or to an array or object of schemas, and the last to a schema. Before 2020-12
    /// any segments may follow `items` and `dependencies` to an object. This is this project's own rule, and no
    /// standard's. It takes no memory, and time linear in the segments.
    pub fn rebases(self, segments: &Segments, contents: &Value) -> bool
        ensures accepted { IsTrue result ↔ IsAccepted self segments.now (view contents.now) }
    {
        scan::accepts(self, segments, contents.is_object())
    }

    // How a keyword holds its subschemas.
    pub(crate) fn holding(self, keyword: &str) -> Holding
        ensures { result ≡ holding_of self keyword.now }
    {
        if !may_hold(keyword) {
            return Holding::Nothing;
        }
        match self {
            Draft::Draft4 => draft4::holding(keyword),
            Draft::Draft6 => draft6::holding(keyword),
            Draft::Draft7 => draft7::holding(keyword),
            Draft::Draft201909 => draft201909::holding(keyword),
            Draft::Draft202012 | Draft::Unknown => draft202012::holding(keyword),
        }
    }

    // Drafts 4, 6 and 7.
    pub(crate) fn is_before_2019(self) -> bool
        ensures { result ≡ is_before_2019 self }
    {
        matches!(self, Draft::Draft4 | Draft::Draft6 | Draft::Draft7)
    }
}

// The draft whose meta-schema has this URI, without `#` at its end.
fn draft_of_uri(uri: &str) -> Draft
    ensures { result ≡ draft_of_uri uri.now }
{
    match uri {
        "https://json-schema.org/draft/2020-12/schema"
        | "http://json-schema.org/draft/2020-12/schema" => Draft::Draft202012,
        "https://json-schema.org/draft/2019-09/schema"
        | "http://json-schema.org/draft/2019-09/schema" => Draft::Draft201909,
        "https://json-schema.org/draft-07/schema" | "http://json-schema.org/draft-07/schema" => {
            Draft::Draft7
        }
        "https://json-schema.org/draft-06/schema" | "http://json-schema.org/draft-06/schema" => {
            Draft::Draft6
        }
        "https://json-schema.org/draft-04/schema" | "http://json-schema.org/draft-04/schema" => {
            Draft::Draft4
        }
        "https://json-schema.org/schema" | "http://json-schema.org/schema" => Draft::Draft202012,
        _ => Draft::Unknown,
    }
}
