//! The URIs of meta-schemas.
ghost use Rattle.std.specs.Prelude.{◌≡◌, [], ◌∷◌, codes, Some, None, length, take};
ghost use Rattle.std.specs.List.{last_or};
ghost use Rattle.ref_draft.specs.declared.draft.Draft.TheVariants.{Draft4, Draft6, Draft7, Draft201909, Draft202012, Unknown};
ghost use Rattle.ref_draft.specs.MetaSchemas.{uris, uris_for_draft, uris_of_2019, uris_of_2020};

/// The URIs of each draft.
pub fn uris_of_drafts()
    ensures of_draft_4 { uris_for_draft Draft4
        ≡ codes "http://json-schema.org/draft-04/schema#" ∷ [] }
    ensures of_draft_6 { uris_for_draft Draft6
        ≡ codes "http://json-schema.org/draft-06/schema#" ∷ [] }
    ensures of_draft_7 { uris_for_draft Draft7
        ≡ codes "http://json-schema.org/draft-07/schema#" ∷ [] }
    ensures of_2019 { length (uris_for_draft Draft201909) ≡ 7 }
    ensures of_2020 { uris_for_draft Draft202012 ≡ uris_of_2020 }
    ensures of_unknown { uris_for_draft Unknown ≡ uris_for_draft Draft202012 }
    ensures first_of_2019 { take 2 uris_of_2019
        ≡ codes "https://json-schema.org/draft/2019-09/schema"
        ∷ codes "https://json-schema.org/draft/2019-09/meta/applicator" ∷ [] }
    ensures last_of_2019 { last_or None uris_of_2019
        ≡ Some (codes "https://json-schema.org/draft/2019-09/meta/validation") }
    ensures nine_of_2020 { length uris_of_2020 ≡ 9 }
    ensures first_of_2020 { take 2 uris_of_2020
        ≡ codes "https://json-schema.org/draft/2020-12/schema"
        ∷ codes "https://json-schema.org/draft/2020-12/meta/core" ∷ [] }
    ensures last_of_2020 { last_or None uris_of_2020
        ≡ Some (codes "https://json-schema.org/draft/2020-12/meta/content") }
{}

/// All URIs.
pub fn uris_of_all_drafts()
    ensures nineteen { length uris ≡ 19 }
    ensures first { take 4 uris
        ≡ codes "http://json-schema.org/draft-04/schema#"
        ∷ codes "http://json-schema.org/draft-06/schema#"
        ∷ codes "http://json-schema.org/draft-07/schema#"
        ∷ codes "https://json-schema.org/draft/2019-09/schema" ∷ [] }
    ensures last { last_or None uris
        ≡ Some (codes "https://json-schema.org/draft/2020-12/meta/content") }
{}
