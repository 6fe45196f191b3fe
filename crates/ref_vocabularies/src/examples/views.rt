//! Rows of what values and dialects mean.
#![tactic(auto, unfolding(crate::proofs::OnLiterals::vocabularies_on_literals))]

ghost use Rattle.std.specs.Prelude.{◌≡◌, [], ◌∷◌, codes};
ghost use Rattle.ref_draft.specs.declared.draft.Draft.TheVariants.{Draft202012};
ghost use Rattle.ref_definitions.specs.Rows.{world, at, one, yes};
ghost use Rattle.ref_vocabularies.specs.Vocabularies as defined;
ghost use Rattle.ref_vocabularies.specs.Vocabularies.{of_known, set_of_2020};
ghost use Rattle.ref_vocabularies.specs.declared.vocabulary.Vocabulary.TheVariants.{Metadata, Custom};
ghost use Rattle.ref_vocabularies.specs.declared.dialect.Dialect.TheVariants.{Known, MetaSchema};
ghost use Rattle.ref_vocabularies.specs.Views.{vocabulary_of};
ghost use Rattle.ref_vocabularies.specs.Dialects.{set_of_dialect};

/// The vocabularies of variants.
pub fn vocabularies_of_variants()
    ensures known { vocabulary_of Metadata ≡ defined.Standard defined.Metadata }
    ensures custom { vocabulary_of (Custom (codes "a:b")) ≡ defined.Custom (codes "a:b") }
{}

/// The vocabularies of dialects.
pub fn vocabularies_of_dialects()
    ensures known { set_of_dialect [] (Known (of_known (defined.Core ∷ [])))
        ≡ of_known (defined.Core ∷ []) }
    ensures declared { set_of_dialect
        (world (at Draft202012 "a:b" (one "$vocabulary" (one "a:v" yes)) ∷ []))
        (MetaSchema (codes "a:b"))
        ≡ record { standard = []; customs = codes "a:v" ∷ [] } }
    ensures no_document { set_of_dialect [] (MetaSchema (codes "a:b")) ≡ set_of_2020 }
{}
