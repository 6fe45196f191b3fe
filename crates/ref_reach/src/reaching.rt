//! What references lead to, again and again.
ghost use Rattle.std.specs.Prelude.{◌≡◌, ℕ, ◌+◌, ◌-◌, ◌^◌, ◌<◌, List, [], ◌∷◌, ◌++◌, map, option_map, slice_get, flat_map, filter, not, length, min, true, false, IfOk, OnOk};
ghost use Rattle.std.specs.List.{AllZip, enumerate_from};
ghost use Rattle.ref_descriptions.specs.Views.{reference_of};
ghost use Rattle.ref_descriptions.specs.References.{references};
ghost use Rattle.ref_reach.specs.Places.{Place as WorldPlace};
ghost use Rattle.ref_reach.specs.Leading.{Outcome as Meaning};
ghost use Rattle.ref_reach.specs.Reached as spec;
ghost use Rattle.ref_reach.specs.Reached.{AreReached, around_descriptions, around_schemas, leads, next, place_in, finding_in, kind_in, findings_at, kinds_at, described_findings, schema_findings, count_references};
ghost use Rattle.ref_reach.specs.Views.{place_of, IsFindingOf};
ghost use Rattle.ref_reach.specs.Knowing.{known_of};
ghost use Rattle.ref_reach.specs.inner.Saying.{IsOutcome, is_led};
ghost use Rattle.ref_reach.specs.inner.Following.{around_of, with_new, Says, IsVisited, IsClosed};

use crate::described::Documents;
use crate::finding::{Finding, Problem};
use crate::leading::{Outcome, outcome_of};
use crate::place::Place;
use crate::schemas::{Schemas, outcome_in_schema};
use crate::seen::Seen;
use ref_descriptions::{Reference, references};
use std::alloc::{AllocError, Global};

/// What is reached from descriptions or from schemas, and what is wrong with the references there.
#[derive(Drop)]
pub struct Reached<'r> {
    /// The places that references lead to and that no description, or no schema, has by itself, and what is below them, each once: in the
    /// order in which they are met.
    pub places: Vec<Place<'r>>,
    /// What is wrong, and what is noted, place by place: of descriptions their own places, and then these; of schemas which references of their own
    /// places lead to an object of another kind, and then all of these.
    pub findings: Vec<Finding<'r>>,
    /// How many references these places have.
    pub references: usize,
}

// Where references are followed: the documents, and of schemas the places that they have by themselves.
#[derive(Clone, Copy)]
struct Around<'r, 's> {
    documents: &'s Documents<'r>,
    schemas: Option<&'s Schemas<'r>>,
}

impl<'r> Around<'r, '_> {
    // How many places there are that are no reached ones.
    fn own(self) -> usize
        ensures value { result ≡ length (around_of self.entry).own }
        ensures small { result < 2 ^ 63 }
    {
        match self.schemas {
            Some(schemas) => schemas.places.len(),
            None => self.documents.own.len(),
        }
    }

    // What a reference of a place is.
    fn outcome(
        self,
        alloc: Global,
        place: &Place<'r>,
        reference: Reference<'r>,
    ) -> Result<Outcome<'r>, AllocError>
        ensures { IfOk result
            (IsOutcome
            ((around_of self.entry).outcome (place_of place.now) (reference_of reference.entry))) }
    {
        match self.schemas {
            Some(schemas) => outcome_in_schema(alloc, self.documents, schemas, place, reference),
            None => outcome_of(alloc, self.documents, place, reference),
        }
    }

    // Whether a place is one that a schema has by itself.
    fn has(self, alloc: Global, place: &Place<'r>) -> Result<bool, AllocError>
        ensures { IfOk result (λ has. has ≡ (around_of self.entry).is_own (place_of place.now)) }
    {
        match self.schemas {
            Some(schemas) => schemas.has(alloc, place),
            None => Ok(false),
        }
    }
}

// What was reached so far.
#[derive(Drop)]
struct State<'r> {
    reached: Seen<'r>,
    findings: Vec<Finding<'r>>,
    references: usize,
}

// Adds a finding after the others.
fn push<'r>(list: &mut Vec<Finding<'r>>, finding: Finding<'r>) -> Result<(), AllocError>
    ensures { OnOk result (list.new.items ≡ list.old.items ++ finding.entry ∷ []) }
{
    list.push(finding)?;
    Ok(())
}

impl<'r> State<'r> {
    // Adds what a reference of the place with a number leads to, or what is wrong with it.
    fn add(
        &mut self,
        alloc: Global,
        number: usize,
        reference: Reference<'r>,
        outcome: Outcome<'r>,
    ) -> Result<(), AllocError>
        ensures { (meaning : Meaning) → IsOutcome meaning outcome.entry
            → (places : List WorldPlace) (list : List spec.Finding) (count : ℕ)
            → Says self.old places list count
            → OnOk result
            (Says self.new (with_new places (place_in meaning))
            (list ++ finding_in number (reference_of reference.entry) meaning) count) }
    {
        match outcome {
            Outcome::Nothing => Ok(()),
            Outcome::Leads(place) => self.reached.add(alloc, place),
            Outcome::Wrong(problem) => push(
                &mut self.findings,
                Finding {
                    place: number,
                    under: reference.under,
                    keyword: reference.keyword,
                    text: reference.text,
                    problem,
                },
            ),
        }
    }

    // The same, but of what is wrong only that it leads to an object of another kind.
    fn add_led(
        &mut self,
        alloc: Global,
        number: usize,
        reference: Reference<'r>,
        outcome: Outcome<'r>,
    ) -> Result<(), AllocError>
        ensures { (meaning : Meaning) → IsOutcome meaning outcome.entry
            → (places : List WorldPlace) (list : List spec.Finding) (count : ℕ)
            → Says self.old places list count
            → OnOk result
            (Says self.new (with_new places (place_in meaning))
            (list ++ kind_in number (reference_of reference.entry) meaning) count) }
    {
        if is_led(&outcome) {
            return self.add(alloc, number, reference, outcome);
        }
        drop(outcome);
        Ok(())
    }

    // Adds a place, but for one that a schema has by itself.
    fn add_new(
        &mut self,
        alloc: Global,
        around: Around<'r, '_>,
        place: Place<'r>,
    ) -> Result<(), AllocError>
        ensures { (places : List WorldPlace) (list : List spec.Finding) (count : ℕ)
            → Says self.old places list count
            → OnOk result
            (Says self.new
            (with_new places
            (filter (λ q. not ((around_of around.entry).is_own q)) (place_of place.entry ∷ [])))
            list count) }
    {
        if around.has(alloc, &place)? {
            return Ok(());
        }
        self.reached.add(alloc, place)
    }

    // Adds what the references of the place with a number lead to, and what is wrong with them, and counts them.
    fn follow(
        &mut self,
        alloc: Global,
        around: Around<'r, '_>,
        number: usize,
        place: &Place<'r>,
    ) -> Result<(), AllocError>
        ensures { (places : List WorldPlace) (list : List spec.Finding) (count : ℕ)
            → Says self.old places list count
            → OnOk result
            (Says self.new (with_new places (leads (around_of around.entry) (place_of place.now)))
            (list ++ findings_at (around_of around.entry) (number, place_of place.now))
            (count + length (references place.now.reading (place_of place.now).value))) }
    {
        for reference in references(alloc, place.reading, place.value)? {
            let outcome = around.outcome(alloc, place, reference)?;
            self.add(alloc, number, reference, outcome)?;
            self.references = self.references.saturating_add(1);
        }
        Ok(())
    }

    // Adds what the references of the place with a number lead to, and which of them lead to an object of another kind. What else is wrong with
    // them is a finding of schemas, and is left out here.
    fn lead(
        &mut self,
        alloc: Global,
        around: Around<'r, '_>,
        number: usize,
        place: &Place<'r>,
    ) -> Result<(), AllocError>
        ensures { (places : List WorldPlace) (list : List spec.Finding) (count : ℕ)
            → Says self.old places list count
            → OnOk result
            (Says self.new (with_new places (leads (around_of around.entry) (place_of place.now)))
            (list ++ kinds_at (around_of around.entry) (number, place_of place.now)) count) }
    {
        for reference in references(alloc, place.reading, place.value)? {
            let outcome = around.outcome(alloc, place, reference)?;
            self.add_led(alloc, number, reference, outcome)?;
        }
        Ok(())
    }

    // Adds places, but for those that a schema has by itself.
    fn add_below(
        &mut self,
        alloc: Global,
        around: Around<'r, '_>,
        below: Vec<Place<'r>>,
    ) -> Result<(), AllocError>
        ensures { (places : List WorldPlace) (list : List spec.Finding) (count : ℕ)
            → Says self.old places list count
            → OnOk result
            (Says self.new
            (with_new places
            (filter (λ q. not ((around_of around.entry).is_own q)) (map place_of below.entry.items)))
            list count) }
    {
        for place in below {
            self.add_new(alloc, around, place)?;
        }
        Ok(())
    }

    // Adds what is right below the reached place with a number, and what its references lead to; says whether there is such a place.
    fn visit(
        &mut self,
        alloc: Global,
        around: Around<'r, '_>,
        number: usize,
    ) -> Result<bool, AllocError>
        ensures { (places : List WorldPlace) (list : List spec.Finding) (count : ℕ)
            → Says self.old places list count
            → IfOk result (IsVisited (around_of around.entry) places list count number self.new) }
    {
        let Some(place) = self.reached.places.get(number) else {
            return Ok(false);
        };
        let place = place.again()?;
        let below = place.below(alloc)?;
        self.add_below(alloc, around, below)?;
        let number = around.own().saturating_add(number);
        self.follow(alloc, around, number, &place)?;
        Ok(true)
    }

    // Visits what was reached, in turn, until nothing more is.
    fn into_closed(self, alloc: Global, around: Around<'r, '_>) -> Result<Reached<'r>, AllocError>
        ensures { (list : List spec.Finding) (count : ℕ)
            → Says self.entry
            (with_new [] (flat_map (leads (around_of around.entry)) (around_of around.entry).own))
            list count
            → IfOk result (IsClosed (around_of around.entry) list count) }
    {
        let mut state = self;
        for number in 0..usize::MAX {
            if !state.visit(alloc, around, number)? {
                return Ok(state.into_reached());
            }
        }
        Err(AllocError)
    }
}

impl<'r> State<'r> {
    // What was reached.
    fn into_reached(self) -> Reached<'r>
        ensures places { result.places.items ≡ self.entry.reached.places.items }
        ensures findings { result.findings.items ≡ self.entry.findings.items }
        ensures references { result.references ≡ self.entry.references }
    {
        let State {
            reached,
            findings,
            references,
        } = self;
        Reached {
            places: reached.into_places(),
            findings,
            references,
        }
    }
}

// Whether a reference leads to a new place, or to an object of another kind than is needed.
fn is_led(outcome: &Outcome<'_>) -> bool
    ensures { (meaning : Meaning) → IsOutcome meaning outcome.now → result ≡ is_led meaning }
{
    match outcome {
        Outcome::Leads(_) => true,
        Outcome::Wrong(Problem::WrongKind { .. }) => true,
        _ => false,
    }
}

// Nothing yet.
fn nothing<'r>(alloc: Global) -> State<'r>
    ensures { Says result [] [] 0 }
{
    State {
        reached: Seen::new(alloc),
        findings: Vec::new(alloc),
        references: 0,
    }
}

// What the references of descriptions lead to.
fn from_own<'r>(alloc: Global, around: Around<'r, '_>) -> Result<State<'r>, AllocError>
    ensures { IfOk result
        (λ state. Says state
        (with_new []
        (flat_map (leads (around_of around.entry)) (known_of around.entry.documents.now).own))
        (spec.findings_from (around_of around.entry) 0 (known_of around.entry.documents.now).own)
        (count_references (known_of around.entry.documents.now).own)) }
{
    let mut state = nothing(alloc);
    for (number, place) in around.documents.own.iter().enumerate() {
        state.follow(alloc, around, number, place)?;
    }
    Ok(state)
}

// What the references of schemas lead to.
fn from_schemas<'r>(
    alloc: Global,
    around: Around<'r, '_>,
    schemas: &Schemas<'r>,
) -> Result<State<'r>, AllocError>
    ensures { IfOk result
        (λ state. Says state
        (with_new []
        (flat_map (leads (around_of around.entry)) (map place_of schemas.now.places.items)))
        (flat_map (kinds_at (around_of around.entry))
        (enumerate_from 0 (map place_of schemas.now.places.items))) 0) }
{
    let mut state = nothing(alloc);
    for (number, place) in schemas.places.iter().enumerate() {
        state.lead(alloc, around, number, place)?;
    }
    Ok(state)
}

/// What is reached from the descriptions among documents: the places that their references lead to, what is below these, what the
/// references of these lead to, and so on. Each place is walked once; linear in the places, with a look-up for each reference. Fails only if
/// out of memory.
pub fn reach<'r>(alloc: Global, documents: &Documents<'r>) -> Result<Reached<'r>, AllocError>
    ensures places { IfOk result
        (λ reached. AreReached (around_descriptions (known_of documents.now))
        (map place_of reached.places.items)) }
    ensures findings { IfOk result
        (λ reached. AllZip IsFindingOf reached.findings.items
        (described_findings (known_of documents.now) (map place_of reached.places.items))) }
    ensures references { IfOk result
        (λ reached. reached.references
        ≡ min
        (count_references
        ((known_of documents.now).own ++ map place_of reached.places.items))
        (2 ^ 64 - 1)) }
{
    let around = Around {
        documents,
        schemas: None,
    };
    from_own(alloc, around)?.into_closed(alloc, around)
}

/// What is reached from schemas and that they don't have by themselves: the objects that their references lead to where no keyword does,
/// as grouped definitions, what is below these, what the references of these lead to, and so on. A reached object is read by the draft and from
/// the base that the look-up answers. Of what is wrong with the references of the schemas' own places it is listed alone where one leads to an object
/// of another kind than a schema. Each place is walked once; linear in the places, with a look-up for each reference. Fails only if out of memory.
pub fn reach_schemas<'r>(
    alloc: Global,
    documents: &Documents<'r>,
    schemas: &Schemas<'r>,
) -> Result<Reached<'r>, AllocError>
    ensures places { IfOk result
        (λ reached. AreReached
        (around_schemas (known_of documents.now) (map place_of schemas.now.places.items))
        (map place_of reached.places.items)) }
    ensures findings { IfOk result
        (λ reached. AllZip IsFindingOf reached.findings.items
        (schema_findings (known_of documents.now) (map place_of schemas.now.places.items)
        (map place_of reached.places.items))) }
    ensures references { IfOk result
        (λ reached. reached.references
        ≡ min (count_references (map place_of reached.places.items)) (2 ^ 64 - 1)) }
{
    let around = Around {
        documents,
        schemas: Some(schemas),
    };
    from_schemas(alloc, around, schemas)?.into_closed(alloc, around)
}

impl<'r> Reached<'r> {
    /// The place with a number: first the own places of the documents' descriptions, and then those that are reached.
    pub fn place<'p>(&'p self, documents: &'p Documents<'r>, number: usize) -> Option<&'p Place<'r>>
        ensures value { option_map (λ p. place_of p.now) result
            ≡ slice_get ((known_of documents.now).own ++ map place_of self.now.places.items) number }
    {
        let own = documents.own();
        if number < own.len() {
            return own.get(number);
        }
        self.places.get(number - own.len())
    }
}
