//! The URIs of the drafts' meta-schemas.
ghost use Rattle.std.specs.Prelude.{◌≡◌, map};
ghost use Rattle.ref_draft.specs.MetaSchemas as meta_schemas;

use crate::draft::Draft;

/// The URIs of the drafts' meta-schemas: of Drafts 4, 6 and 7 the schema's, and of 2019-09 and 2020-12 the schema's and one for
/// each vocabulary.
pub const URIS: [&str; 19] = [
    "http://json-schema.org/draft-04/schema#",
    "http://json-schema.org/draft-06/schema#",
    "http://json-schema.org/draft-07/schema#",
    "https://json-schema.org/draft/2019-09/schema",
    "https://json-schema.org/draft/2019-09/meta/applicator",
    "https://json-schema.org/draft/2019-09/meta/content",
    "https://json-schema.org/draft/2019-09/meta/core",
    "https://json-schema.org/draft/2019-09/meta/format",
    "https://json-schema.org/draft/2019-09/meta/meta-data",
    "https://json-schema.org/draft/2019-09/meta/validation",
    "https://json-schema.org/draft/2020-12/schema",
    "https://json-schema.org/draft/2020-12/meta/core",
    "https://json-schema.org/draft/2020-12/meta/applicator",
    "https://json-schema.org/draft/2020-12/meta/unevaluated",
    "https://json-schema.org/draft/2020-12/meta/validation",
    "https://json-schema.org/draft/2020-12/meta/meta-data",
    "https://json-schema.org/draft/2020-12/meta/format-annotation",
    "https://json-schema.org/draft/2020-12/meta/format-assertion",
    "https://json-schema.org/draft/2020-12/meta/content",
];

/// The constant has the URIs of the definitions, in their order. A law; the call does nothing.
pub fn uris_are_of_all_drafts()
    ensures law { map (λ uri. uri.now) URIS ≡ meta_schemas.uris }
{}

/// The URIs of a draft's meta-schemas; those of 2020-12 for a custom one. Takes no memory.
pub fn uris_for_draft(draft: Draft) -> &'static [&'static str]
    ensures value { map (λ uri. uri.now) result.now ≡ meta_schemas.uris_for_draft draft }
{
    let uris: &'static [&'static str; 19] = &URIS;
    match draft {
        Draft::Draft4 => &uris[..1],
        Draft::Draft6 => &uris[1..2],
        Draft::Draft7 => &uris[2..3],
        Draft::Draft201909 => &uris[3..10],
        _ => &uris[10..],
    }
}
