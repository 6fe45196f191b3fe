//! `open`.
ghost use Rattle.std.specs.Prelude.{◌≡◌, ◌≢◌, ◌<◌, ◌+◌, ◌^◌, ◌∷◌, ◌++◌, ℕ, List, [], codes, map, length, Some, IfOk, OnOk, option_map, unwrap_or};
ghost use Rattle.serde_json.specs.Find.{get, get_member};
ghost use Rattle.serde_json.specs.View.{view, members_view};
ghost use Rattle.ref_definitions.specs.World.{local_documents};
ghost use Rattle.ref_error.specs.Retrieving.{trees_of};
ghost use Rattle.ref_calls.specs.Objects.{object_of, with_all, texts, whole};
ghost use Rattle.ref_calls.specs.Outcome.{Answers};
ghost use Rattle.ref_calls.specs.Given.{given_of};
ghost use Rattle.ref_serve.specs.Answering.{IsOpened, IsOpening};
ghost use Rattle.ref_serve.specs.Opening as spec;
ghost use Rattle.ref_serve.specs.inner.Mended.{world_above};
ghost use Rattle.ref_serve.specs.inner.Openings.{layers_at, parent_view, opening_view, asked_view, faults_members, IsWorldOr, IsMetaWorldOr, IsAddedOr, GivesPrepared, GivesOpened};
ghost use Rattle.ref_serve.specs.State.{Registries};

use crate::given::{numbers_given, uris_given};
use crate::mending::{MendedDocuments, mended};
use crate::registry::registry_in;
use crate::state::{Open, Slot, State};
use ref_calls::document::{
    Document, documents_of, documents_under, members_of, needed_documents, taken, under_uris,
};
use ref_calls::fault::{fault_error, in_field};
use ref_calls::field::{draft_of, keeps_faults, number_in};
use ref_calls::members::{Members, push_text, put_number};
use ref_calls::yaml::with_values;
use ref_json::Stop;
use ref_registries::{registry_from, registry_from_meta_schemas};
use ref_uri::Uri;
use referencing::{DEFAULT_RETRIEVAL_LIMIT, Draft, MapRetriever, Registry};
use serde_json::{Map, Value, put};
use std::alloc::{AllocError, Global};

/// The registries that are opened, and the answer.
#[derive(Drop)]
pub struct Opened {
    pub result: Value,
    pub registries: Vec<Option<Slot>>,
}

// What a registry is to be above.
#[derive(Drop)]
enum Parent {
    // The open registry with the first of these numbers, whose parents have the others; or none.
    Layers(Vec<usize>),
    // Meta-schemas, which are opened with it.
    MetaSchemas(Vec<Document>),
}

// What is asked for: documents, and how they are prepared.
#[derive(Drop)]
struct Wanted {
    draft: Draft,
    limit: usize,
    documents: Vec<Document>,
    remote: MapRetriever,
    keeps: bool,
}

// What is prepared of that, and the faults that are kept, where they are.
#[derive(Drop)]
struct Prepared {
    wanted: Wanted,
    faults: Option<Vec<Value>>,
}

// A registry that is opened, and these faults.
#[derive(Drop)]
struct Added {
    registry: Open,
    faults: Option<Vec<Value>>,
}

// The documents that are used where they are wanted.
#[tactic(auto, unfolding(crate::specs::Opening::remote_of))]
fn remote_of(alloc: Global, members: &mut Members) -> Result<MapRetriever, Stop<Value>>
    ensures { Answers (λ m. trees_of m) result (spec.remote_of (get_member (codes "remote")
        (members_view members.old.entries))) }
{
    let pairs = match documents_under(alloc, members, "remote")? {
        Some(documents) => under_uris(alloc, documents, "remote")?,
        None => Vec::new(alloc),
    };
    Ok(MapRetriever::from_pairs(alloc, pairs)?)
}

// How many documents may be used.
fn limit_of(alloc: Global, tree: &Value) -> Result<usize, Stop<Value>>
    ensures { Answers (λ n. n) result (spec.limit_at (get (codes "limit") (view tree.now))) }
{
    match tree.get("limit") {
        Some(value) => number_in(alloc, value, "limit"),
        None => Ok(DEFAULT_RETRIEVAL_LIMIT),
    }
}

// The numbers of a registry and its parents.
fn numbers_of(alloc: Global, number: usize, below: &Open) -> Result<Vec<usize>, AllocError>
    ensures { IfOk result (λ numbers. numbers.items ≡ number ∷ below.now.1) }
{
    let mut numbers = Vec::with_capacity(alloc, below.parents().len() + 1)?;
    numbers.push(number)?;
    numbers.extend_from_slice(below.parents())?;
    Ok(numbers)
}

// The numbers of the open registry with a number and of its parents.
fn layers_in(alloc: Global, state: &State, value: &Value) -> Result<Vec<usize>, Stop<Value>>
    ensures { Answers (λ numbers. layers_at state.now numbers.items) result
        (spec.layers_in state.now (view value.now)) }
{
    let (number, open) = registry_in(alloc, state, value, "parent")?;
    Ok(numbers_of(alloc, number, open)?)
}

// The meta-schemas of a list, or the open registry with a number.
fn parent_in(alloc: Global, state: &State, value: Value) -> Result<Parent, Stop<Value>>
    ensures { Answers (parent_view state.now) result (spec.parent_in state.now (view value)) }
{
    if value.is_array() {
        let documents = documents_of(alloc, value, "parent")?;
        return Ok(Parent::MetaSchemas(documents));
    }
    let numbers = layers_in(alloc, state, &value)?;
    Ok(Parent::Layers(numbers))
}

// What is under `parent`.
fn parent_of(alloc: Global, state: &State, members: &mut Members) -> Result<Parent, Stop<Value>>
    ensures parent { Answers (parent_view state.now) result
        (spec.parent_at state.now (get_member (codes "parent")
        (members_view members.old.entries))) }
    ensures others { (other : List ℕ) → other ≢ codes "parent"
        → get_member other (members_view members.new.entries)
        ≡ get_member other (members_view members.old.entries) }
{
    match taken(members, "parent") {
        Some(value) => parent_in(alloc, state, value),
        None => Ok(Parent::Layers(Vec::new(alloc))),
    }
}

// What a call asks for.
#[tactic(auto, unfolding(crate::specs::Opening::opening_of))]
fn wanted_of(alloc: Global, state: &State, tree: Value) -> Result<(Parent, Wanted), Stop<Value>>
    ensures { Answers (asked_view state.now) result (spec.opening_of state.now (view tree)) }
{
    let draft = draft_of(alloc, &tree)?;
    let limit = limit_of(alloc, &tree)?;
    let keeps = keeps_faults(alloc, &tree)?;
    let mut members = members_of(alloc, tree);
    let parent = parent_of(alloc, state, &mut members)?;
    let documents = needed_documents(alloc, &mut members)?;
    let remote = remote_of(alloc, &mut members)?;
    let wanted = Wanted {
        draft,
        limit,
        documents,
        remote,
        keeps,
    };
    Ok((parent, wanted))
}

// The open registry with the first of the numbers, for the rest of the program, where there is one.
fn lent_first(
    alloc: Global,
    state: &mut State,
    numbers: &[usize],
) -> Result<Option<&'static Registry<'static>>, AllocError>
    ensures registry { IfOk result
        (λ r. unwrap_or (option_map (λ r. r.now) r) [] ≡ (layers_at state.old numbers.now).0) }
    ensures same { state.new ≡ state.old }
{
    match numbers.first() {
        Some(number) => state.lend(alloc, *number),
        None => Ok(None),
    }
}

// The registry that is wanted, above another where there is one, and the numbers of its parents.
fn open_of(
    alloc: Global,
    above: Option<&'static Registry<'static>>,
    numbers: Vec<usize>,
    wanted: Wanted,
) -> Result<Open, Stop<Value>>
    ensures { IsWorldOr (opening_view wanted)
        (unwrap_or (option_map (λ r. r.now) above.entry) [], numbers.items) result }
{
    let Wanted {
        draft,
        limit,
        documents,
        remote,
        ..
    } = wanted;
    match registry_from(alloc, above, documents, draft, limit, remote) {
        Ok(registry) => Ok(Open::new(registry, numbers)),
        Err(error) => Err(fault_error(alloc, &error)),
    }
}

// What is prepared above a registry, where there is one.
fn prepared_of(
    alloc: Global,
    above: Option<&Registry<'_>>,
    wanted: Wanted,
) -> Result<Prepared, Stop<Value>>
    ensures { GivesPrepared (opening_view wanted) (world_above above.entry) result }
{
    if !wanted.keeps {
        return Ok(Prepared {
            wanted,
            faults: None,
        });
    }
    let Wanted {
        draft,
        limit,
        documents,
        remote,
        keeps,
    } = wanted;
    let made = mended(alloc, above, draft, limit, documents, &remote)?;
    let MendedDocuments { documents, faults } = made;
    let remote = MapRetriever::from_pairs(alloc, Vec::new(alloc))?;
    let wanted = Wanted {
        draft,
        limit,
        documents,
        remote,
        keeps,
    };
    Ok(Prepared {
        wanted,
        faults: Some(faults),
    })
}

// The registry of what is prepared, with the faults that are kept.
fn added_of(
    alloc: Global,
    above: Option<&'static Registry<'static>>,
    numbers: Vec<usize>,
    wanted: Wanted,
) -> Result<Added, Stop<Value>>
    ensures { IsAddedOr (opening_view wanted) (world_above above.entry, numbers.items) result }
{
    let prepared = prepared_of(alloc, above, wanted)?;
    let Prepared { wanted, faults } = prepared;
    let registry = open_of(alloc, above, numbers, wanted)?;
    Ok(Added { registry, faults })
}

// The open registry of meta-schemas.
fn open_meta_schemas(alloc: Global, documents: Vec<Document>) -> Result<Open, Stop<Value>>
    ensures { IsMetaWorldOr (map given_of documents.items) result }
{
    match registry_from_meta_schemas(alloc, documents) {
        Ok(registry) => Ok(Open::new(registry, Vec::new(alloc))),
        Err(error) => Err(in_field(alloc, fault_error(alloc, &error), "parent")),
    }
}

// The URIs of a registry's own documents.
fn uris_of(alloc: Global, registry: &Registry<'_>) -> Result<Value, AllocError>
    ensures { IfOk result
        (λ list. view list ≡ texts (map (λ d. d.uri) (local_documents registry.now))) }
{
    let mut list = Vec::new(alloc);
    for document in registry.documents() {
        push_text(alloc, &mut list, document.uri.as_str())?;
    }
    Ok(Value::Array(list))
}

// The answer of a registry that gets a number.
fn put_opened(
    alloc: Global,
    members: &mut Members,
    number: usize,
    added: &Open,
    given: &[Option<Uri>],
) -> Result<(), AllocError>
    ensures { OnOk result (members_view members.new.entries
        ≡ with_all
        (spec.opened_members number added.now.0 (map (option_map (λ u. u)) given.now))
        (members_view members.old.entries)) }
{
    put_number(alloc, members, "registry", number)?;
    let uris = uris_of(alloc, added.registry())?;
    put(members, alloc, "documents", uris)?;
    let numbers = numbers_given(alloc, added.registry(), given)?;
    put(members, alloc, "given", numbers)
}

// The faults that are kept, where they are.
fn put_faults(
    alloc: Global,
    members: &mut Members,
    faults: Option<Vec<Value>>,
) -> Result<(), AllocError>
    ensures { OnOk result (members_view members.new.entries
        ≡ with_all (faults_members faults) (members_view members.old.entries)) }
{
    match faults {
        Some(list) => put(members, alloc, "faults", Value::Array(list)),
        None => Ok(()),
    }
}

// One registry, which gets the next number.
fn open_one(
    alloc: Global,
    number: usize,
    added: Added,
    given: &[Option<Uri>],
) -> Result<Opened, AllocError>
    ensures result { IfOk result
        (λ opened. view opened.result
        ≡ object_of
        (spec.opened_members number added.registry.0 (map (option_map (λ u. u)) given.now)
        ++ faults_members added.faults)) }
    ensures one { IfOk result (λ opened. opened.registries.items ≡ Some (added.registry, []) ∷ []) }
{
    let Added { registry, faults } = added;
    let mut members = Map::new(alloc);
    put_opened(alloc, &mut members, number, &registry, given)?;
    put_faults(alloc, &mut members, faults)?;
    let mut registries = Vec::with_capacity(alloc, 1)?;
    registries.push(Some(Slot::new(alloc, registry)))?;
    Ok(Opened {
        result: Value::Object(members),
        registries,
    })
}

// A registry and its parent, which get the next two numbers.
fn open_both(
    alloc: Global,
    number: usize,
    parent: Open,
    added: Added,
    given: &[Option<Uri>],
) -> Result<Opened, AllocError>
    requires next { number + 1 < 2 ^ 64 }
    ensures result { IfOk result
        (λ opened. view opened.result
        ≡ object_of
        (spec.opened_members (number + 1) added.registry.0 (map (option_map (λ u. u)) given.now)
        ++ (codes "parent", whole number) ∷ faults_members added.faults)) }
    ensures both { IfOk result
        (λ opened. opened.registries.items ≡ Some (parent, []) ∷ Some (added.registry, []) ∷ []) }
{
    let Added { registry, faults } = added;
    let mut members = Map::new(alloc);
    put_opened(alloc, &mut members, number + 1, &registry, given)?;
    put_number(alloc, &mut members, "parent", number)?;
    put_faults(alloc, &mut members, faults)?;
    let mut registries = Vec::with_capacity(alloc, 2)?;
    registries.push(Some(Slot::new(alloc, parent)))?;
    registries.push(Some(Slot::new(alloc, registry)))?;
    Ok(Opened {
        result: Value::Object(members),
        registries,
    })
}

// A registry above another that is open, or above none. That one is lent only once all else of the call was read, since it is
// kept for the rest of the program from then on.
fn open_above(
    alloc: Global,
    state: &mut State,
    numbers: Vec<usize>,
    wanted: Wanted,
) -> Result<Opened, Stop<Value>>
    ensures same { state.new ≡ state.old }
    ensures opened { GivesOpened
        (spec.IsOpenedBy (spec.AboveLayers (layers_at state.old numbers.items))
        (opening_view wanted) state.old) state.old result }
{
    let number = state.len();
    let given = uris_given(alloc, wanted.documents.as_slice())?;
    let above = lent_first(alloc, state, numbers.as_slice())?;
    let added = added_of(alloc, above, numbers, wanted)?;
    Ok(open_one(alloc, number, added, given.as_slice())?)
}

// A registry above meta-schemas, which are opened with it.
fn open_above_meta_schemas(
    alloc: Global,
    number: usize,
    documents: Vec<Document>,
    wanted: Wanted,
) -> Result<Opened, Stop<Value>>
    requires next { number + 1 < 2 ^ 64 }
    ensures { (state : Registries) → number ≡ length state
        → GivesOpened
        (spec.IsOpenedBy (spec.AboveMetaSchemas (map given_of documents.items))
        (opening_view wanted) state) state result }
{
    let given = uris_given(alloc, wanted.documents.as_slice())?;
    let mut parent = open_meta_schemas(alloc, documents)?;
    let numbers = numbers_of(alloc, number, &parent)?;
    let registry = parent.lend(alloc)?;
    let added = added_of(alloc, Some(registry), numbers, wanted)?;
    Ok(open_both(alloc, number, parent, added, given.as_slice())?)
}

// Opens a registry of documents, and with it one of meta-schemas where its parent is a list of them.
fn open(alloc: Global, state: &mut State, tree: Value) -> Result<Opened, Stop<Value>>
    ensures same { state.new ≡ state.old }
    ensures opened { GivesOpened (IsOpened state.old (view tree)) state.old result }
{
    let (parent, wanted) = wanted_of(alloc, state, tree)?;
    match parent {
        Parent::Layers(numbers) => open_above(alloc, state, numbers, wanted),
        Parent::MetaSchemas(documents) => {
            open_above_meta_schemas(alloc, state.len(), documents, wanted)
        }
    }
}

/// Opens a registry of documents, and with it one of meta-schemas where its parent is a list of them. Texts of YAML are read
/// first. Errors have no place yet.
pub fn open_call(alloc: Global, state: &mut State, tree: Value) -> Result<Opened, Stop<Value>>
    ensures same { state.new ≡ state.old }
    ensures opened { GivesOpened (IsOpening state.old (view tree)) state.old result }
{
    match with_values(alloc, tree) {
        Ok(read) => open(alloc, state, read),
        Err(stop) => Err(stop),
    }
}
