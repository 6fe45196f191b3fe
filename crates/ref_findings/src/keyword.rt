//! The keywords whose texts are looked at.
ghost use Rattle.std.specs.Prelude.{◌≡◌, option_map, option_and_then};
ghost use Rattle.serde_json.specs.View.{view};
ghost use Rattle.ref_draft.specs.Keywords.{id_keyword};
ghost use Rattle.ref_draft.specs.Schema.{text_under};
ghost use Rattle.ref_draft.specs.Views.{anchor_name};
ghost use Rattle.ref_findings.specs.Places.{dynamic_keyword};
ghost use Rattle.ref_findings.specs.Findings.{anchor_keyword};
ghost use Rattle.ref_findings.specs.inner.Keywords.{keyword_text};

use ref_draft::{Anchor, Draft};
use ref_index::meanings::text_under;
use serde_json::Value;

/// A keyword whose text a finding is about.
#[derive(Clone, Copy)]
pub(crate) enum Keyword {
    /// `id` of Draft 4.
    OldId,
    Id,
    Ref,
    DynamicRef,
    RecursiveRef,
    Schema,
    Anchor,
    DynamicAnchor,
}

impl Keyword {
    /// The keyword's text.
    pub fn text(self) -> &'static str
        ensures value { result.now ≡ keyword_text self }
    {
        match self {
            Keyword::OldId => "id",
            Keyword::Id => "$id",
            Keyword::Ref => "$ref",
            Keyword::DynamicRef => "$dynamicRef",
            Keyword::RecursiveRef => "$recursiveRef",
            Keyword::Schema => "$schema",
            Keyword::Anchor => "$anchor",
            Keyword::DynamicAnchor => "$dynamicAnchor",
        }
    }

    /// The keyword of identifiers in a draft.
    pub fn of_identifier(draft: Draft) -> Keyword
        ensures value { keyword_text result ≡ id_keyword draft }
    {
        match draft {
            Draft::Draft4 => Keyword::OldId,
            _ => Keyword::Id,
        }
    }

    /// The keyword of dynamic references in a draft, where it has one.
    pub fn of_dynamic(draft: Draft) -> Option<Keyword>
        ensures value { option_map keyword_text result ≡ dynamic_keyword draft }
    {
        match draft {
            Draft::Draft4 | Draft::Draft6 | Draft::Draft7 => None,
            Draft::Draft201909 => Some(Keyword::RecursiveRef),
            Draft::Draft202012 | Draft::Unknown => Some(Keyword::DynamicRef),
        }
    }

    /// The keyword that an anchor of a draft is under.
    pub fn of_anchor(draft: Draft, anchor: &Anchor<'_>) -> Keyword
        ensures value { keyword_text result ≡ anchor_keyword draft (anchor_name anchor.now).1 }
    {
        match anchor {
            Anchor::Dynamic { .. } => Keyword::DynamicAnchor,
            Anchor::Default { .. } => match draft {
                Draft::Draft4 => Keyword::OldId,
                Draft::Draft6 | Draft::Draft7 => Keyword::Id,
                _ => Keyword::Anchor,
            },
        }
    }
}

/// The text of a keyword, where there is one, and the text under it in a value.
pub(crate) fn keyword_at<'v>(
    value: &'v Value,
    keyword: Option<Keyword>,
) -> (Option<&'static str>, Option<&'v str>)
    ensures keyword { option_map (λ k. k.now) result.0 ≡ option_map keyword_text keyword }
    ensures text { option_map (λ t. t.now) result.1
        ≡ option_and_then (λ k. text_under k (view value.now)) (option_map keyword_text keyword) }
{
    match keyword {
        Some(keyword) => (Some(keyword.text()), text_under(value, keyword.text())),
        None => (None, None),
    }
}
