//! Laws of vocabularies and their sets. Each function is empty: its contract states the law, and the check proves it.
ghost use Rattle.std.specs.Prelude.{◌≡◌, ◌||◌, ℕ, List, true, Ok};
ghost use Rattle.ref_uri.specs.Targets.{uri_of};
ghost use Rattle.ref_vocabularies.specs.Vocabularies.{Vocabulary as Defined, VocabularySet as DefinedSet, vocabulary_eq, set_eq, contains, with_vocabulary, from_text, Custom};
ghost use Rattle.ref_vocabularies.specs.declared.vocabulary.Vocabulary.{Vocabulary};
ghost use Rattle.ref_vocabularies.specs.Views.{vocabulary_of};

/// The variants are the vocabularies that are defined: no two are one, and each is a variant's.
pub fn variants_are_vocabularies()
    ensures one_to_one { (v w : Vocabulary) → vocabulary_of v ≡ vocabulary_of w → v ≡ w }
    ensures onto { (d : Defined) → (v : Vocabulary) × (vocabulary_of v ≡ d) }
{}

/// What compares equal is one vocabulary, and one set.
pub fn equals_are_the_same()
    ensures vocabulary { (v w : Defined) → vocabulary_eq v w ≡ true → v ≡ w }
    ensures itself { (v : Defined) → vocabulary_eq v v ≡ true }
    ensures set { (s t : DefinedSet) → set_eq s t ≡ true → s ≡ t }
    ensures set_itself { (s : DefinedSet) → set_eq s s ≡ true }
{}

/// A set contains what was added to it, and what it contained before. In which order vocabularies were added, and how often
/// each, makes no difference.
pub fn sets_have_no_order_of_growth()
    ensures contains { (s : DefinedSet) (v w : Defined)
        → contains (with_vocabulary s v) w ≡ (contains s w || vocabulary_eq v w) }
    ensures order { (s : DefinedSet) (v w : Defined)
        → with_vocabulary (with_vocabulary s v) w ≡ with_vocabulary (with_vocabulary s w) v }
    ensures twice { (s : DefinedSet) (v : Defined)
        → with_vocabulary (with_vocabulary s v) v ≡ with_vocabulary s v }
{}

/// A vocabulary that a text names and that is not known is the URI that the text means.
pub fn custom_vocabularies_are_uris()
    ensures law { (text uri : List ℕ) → from_text text ≡ Ok (Custom uri) → uri_of text ≡ Ok uri }
{}
