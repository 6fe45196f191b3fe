//! Rows of the definitions. Each function is empty: its contract states rows, and the check computes them.
#![tactic(auto, unfolding(ref_definitions::proofs::OnLiterals::world_on_literals, ref_resolver::specs::Locations::lookup_location))]

ghost use Rattle.std.specs.Prelude.{◌≡◌, [], ◌∷◌};
ghost use Rattle.ref_draft.specs.declared.draft.Draft.TheVariants.{Draft7};
ghost use Rattle.ref_definitions.specs.Rows.{empty};
ghost use Rattle.ref_reach.specs.Schemas.{schema_reading};
ghost use Rattle.ref_changes.specs.Rows.{renamed};
ghost use Rattle.ref_comparison.specs.Further.{NoPlace, OtherBase, OtherReferences};
ghost use Rattle.ref_comparison.specs.Rows.{side, documents, place, place_to, refers, compared, at_x, leads};

/// A reference that stays, that follows what it leads to, or that doesn't.
pub fn references_that_follow()
    ensures the_same { compared (side "a" empty "#/a") (side "a" empty "#/a") [] ≡ [] }
    ensures renamed { compared (side "a" empty "#/a") (side "b" empty "#/b") (renamed "/a" "/b")
        ≡ [] }
    ensures a_text_forgotten { compared (side "a" empty "#/a") (side "b" empty "#/a")
        (renamed "/a" "/b")
        ≡ at_x (leads "#/a" "#/a") }
    ensures elsewhere { compared (side "a" empty "#/a") (side "a" empty "s#/y") []
        ≡ at_x (leads "#/a" "s#/y") }
{}

/// References that lead nowhere: before and after by any text, and not where one of them leads somewhere.
pub fn references_that_lead_nowhere()
    ensures both { compared (side "a" empty "#/b") (side "a" empty "#/c") [] ≡ [] }
    ensures after { compared (side "a" empty "#/a") (side "a" empty "#/c") []
        ≡ at_x (leads "#/a" "#/c") }
    ensures before { compared (side "a" empty "#/c") (side "a" empty "#/a") []
        ≡ at_x (leads "#/c" "#/a") }
{}

/// Places that are gone, that are read otherwise, or whose base means another document.
pub fn places_that_differ()
    ensures gone { compared (side "a" empty "#/a")
        (record { layer = documents "a" empty "#/a"; places = [] }) []
        ≡ at_x NoPlace }
    ensures another_draft { compared (side "a" empty "#/a")
        (record {
          layer = documents "a" empty "#/a";
          places = record (place_to "#/a") { reading = schema_reading Draft7 } ∷ [];
        }) []
        ≡ at_x NoPlace }
    ensures another_base { compared (side "a" empty "#/a")
        (record {
          layer = documents "a" empty "#/a";
          places = place "x" (refers "#/a") "http://a/s" ∷ [];
        }) []
        ≡ at_x OtherBase }
    ensures also_from_its_base { compared (side "a" empty "#/a")
        (record {
          layer = documents "a" empty "#/a";
          places = place "x" (refers "#/a") "http://a/s" ∷ place_to "#/a" ∷ [];
        }) []
        ≡ [] }
    ensures without_its_reference { compared (side "a" empty "#/a")
        (record {
          layer = documents "a" empty "#/a";
          places = place "x" empty "http://a/r" ∷ [];
        }) []
        ≡ at_x OtherReferences }
{}
