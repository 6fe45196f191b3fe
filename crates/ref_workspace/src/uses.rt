//! What of a document counts for which definitions are used: its definitions, where its references lead, and by which names it is led into.
//!
//! A document is looked at by itself, and whatever it is read as: each text counts that stands where a reference may be, and each identifier and anchor that there
//! may be. So a definition may count as used that isn't, and none that is used counts as unused.
use crate::heads::is_identifier;
use crate::referring::{has_names, is_passed};
use percent_encoding::{DecodeError, percent_decode};
use ref_descriptions::version_of;
use ref_index::meanings::{if_meant, target_of};
use ref_index::shared;
use ref_parts::{write_escaped_str, write_index};
use ref_uri::Uri;
use serde_json::{Map, Value};
use std::alloc::{AllocError, Global};
use std::collections::BTreeMap;
use std::rc::Rc;

/// A definition: a member of `$defs` or `definitions` of a schema that keywords lead to from the root of its document, or a component of a description.
#[derive(Drop)]
pub(crate) struct Definition {
    /// Its pointer.
    pub pointer: String,
    /// The number, from 1, of the innermost definition around it; 0 where there is none.
    pub around: usize,
}

/// A reference to what has a name.
#[derive(Drop)]
pub(crate) struct Use {
    /// The number, from 1, of the innermost definition that it is in; 0 where it is in none.
    pub from: usize,
    /// The name: a URI; a URI, `#` and the name of an anchor; `#` and the name of a dynamic anchor; or a blank and the pointer of a component.
    pub name: String,
    /// The pointer from there on.
    pub rest: String,
}

/// A place that a name leads to.
#[derive(Drop)]
pub(crate) struct Bearer {
    /// The name, as that of a [`Use`].
    pub name: String,
    /// The pointer of the place.
    pub pointer: String,
}

/// What of a document counts for which definitions are used.
#[derive(Drop)]
pub(crate) struct Uses {
    /// Its definitions, in the order in which they are met.
    pub definitions: Vec<Definition>,
    // Their numbers, from 1, by their pointers.
    numbers: BTreeMap<String, usize>,
    /// From which definitions to which of its own ones its references lead, by numbers from 1; from 0 where one is in none. In their order, each once.
    pub own: Vec<(usize, usize)>,
    /// Its references to what has a name.
    pub named: Vec<Use>,
    /// Which places of it have names.
    pub bearers: Vec<Bearer>,
    /// Whether more may be meant than is noted.
    pub is_open: bool,
}

// What the members of a value are.
#[derive(Clone, Copy, PartialEq, Eq)]
enum Role {
    // Keywords.
    Keywords,
    // Values under names that somebody gave.
    Names,
    // Definitions.
    Definitions,
    // The component maps of a description.
    Components,
}

// A value that is to be visited.
#[derive(Clone, Copy, Drop)]
struct Spot<'v> {
    value: &'v Value,
    role: Role,
    // Whether keywords lead to it from the root.
    is_placed: bool,
    // The number of its node.
    node: usize,
    // The number, from 1, of the innermost definition around it.
    definition: usize,
    // The number of the bases that there may be around it.
    bases: usize,
}

// How a value is led to from the one that it is in.
#[derive(Clone, Copy, Drop)]
enum Step<'v> {
    Root,
    Key(&'v str),
    Index(usize),
}

// A value that was visited.
#[derive(Clone, Copy, Drop)]
struct Node<'v> {
    // The number of the node that it is in.
    above: usize,
    step: Step<'v>,
}

// A reference to a place of its own document, by a pointer.
#[derive(Drop)]
struct Local {
    from: usize,
    pointer: String,
    // Whether it is an item of an `allOf`.
    is_of_all: bool,
}

// A walk over the values of a document.
#[derive(Drop)]
struct Walk<'v> {
    alloc: Global,
    uses: Uses,
    nodes: Vec<Node<'v>>,
    locals: Vec<Local>,
    // The numbers of the definitions that have a discriminator.
    discriminated: Vec<usize>,
    // The bases that there may be in parts of the document; and the number of those of the document as a whole.
    bases: Vec<Vec<Rc<Uri>>>,
    own: usize,
    // Whether the document is a description of an API.
    is_description: bool,
}

// How many bases there may be around a value.
const MOST_BASES: usize = 16;

impl Uses {
    /// None.
    pub fn new(alloc: Global) -> Uses {
        Uses {
            definitions: Vec::new(alloc),
            numbers: BTreeMap::new(alloc),
            own: Vec::new(alloc),
            named: Vec::new(alloc),
            bearers: Vec::new(alloc),
            is_open: false,
        }
    }

    /// Those of a document with a URI, and with a value where it has one. A step for each value, and a URI for each reference to another document.
    pub fn of(alloc: Global, uri: &Uri, value: Option<&Value>) -> Result<Uses, AllocError> {
        let mut walk = Walk::new(alloc, uri)?;
        if let Some(root) = value {
            walk.visit_all(root)?;
        }
        walk.into_uses()
    }

    /// The number, from 1, of the innermost definition that a pointer leads to or into; 0 where it leads into none.
    pub fn innermost(&self, pointer: &str) -> usize {
        let mut front = pointer;
        for _ in 0..=pointer.len() {
            if let Some(number) = self.numbers.get(front) {
                return *number;
            }
            match front.rsplit_once('/') {
                Some((shorter, _)) => front = shorter,
                None => break,
            }
        }
        0
    }

    /// Whether others are the same.
    pub fn is_same(&self, other: &Uses) -> bool {
        self.is_open == other.is_open
            && has_same_definitions(self, other)
            && has_same_own(self, other)
            && has_same_names(self, other)
    }
}

fn has_same_definitions(one: &Uses, other: &Uses) -> bool {
    if one.definitions.len() != other.definitions.len() {
        return false;
    }
    for (own, definition) in one.definitions.iter().zip(other.definitions.iter()) {
        if own.pointer.as_str() != definition.pointer.as_str() {
            return false;
        }
    }
    true
}

fn has_same_own(one: &Uses, other: &Uses) -> bool {
    if one.own.len() != other.own.len() {
        return false;
    }
    for (own, step) in one.own.iter().zip(other.own.iter()) {
        if own.0 != step.0 || own.1 != step.1 {
            return false;
        }
    }
    true
}

fn has_same_names(one: &Uses, other: &Uses) -> bool {
    if one.named.len() != other.named.len() || one.bearers.len() != other.bearers.len() {
        return false;
    }
    for (own, lead) in one.named.iter().zip(other.named.iter()) {
        let is_same = own.from == lead.from && own.name.as_str() == lead.name.as_str();
        if !is_same || own.rest.as_str() != lead.rest.as_str() {
            return false;
        }
    }
    for (own, bearer) in one.bearers.iter().zip(other.bearers.iter()) {
        let is_same = own.name.as_str() == bearer.name.as_str();
        if !is_same || own.pointer.as_str() != bearer.pointer.as_str() {
            return false;
        }
    }
    true
}

impl<'v> Walk<'v> {
    fn new(alloc: Global, uri: &Uri) -> Result<Walk<'v>, AllocError> {
        let mut own = Vec::new(alloc);
        own.push(shared(alloc, uri.clone()?)?)?;
        let mut bases = Vec::new(alloc);
        bases.push(own)?;
        let mut uses = Uses::new(alloc);
        uses.bearers.push(Bearer {
            name: String::from_str(alloc, uri.as_str())?,
            pointer: String::new(alloc),
        })?;
        Ok(Walk {
            alloc,
            uses,
            nodes: Vec::new(alloc),
            locals: Vec::new(alloc),
            discriminated: Vec::new(alloc),
            bases,
            own: 0,
            is_description: false,
        })
    }

    // What was noted, with the references to places of the document itself. A schema with a discriminator leads to those that have it in their `allOf`, since its
    // values name them (OpenAPI 3.1, Discriminator Object).
    fn into_uses(self) -> Result<Uses, AllocError> {
        let Walk {
            alloc,
            uses,
            locals,
            discriminated,
            ..
        } = self;
        let mut uses = uses;
        let mut discriminated = discriminated;
        discriminated.sort_unstable();
        let mut steps = Vec::new(alloc);
        for local in &locals {
            let to = uses.innermost(local.pointer.as_str());
            if to > 0 && to != local.from {
                steps.push((local.from, to))?;
                if local.is_of_all && local.from > 0 && discriminated.binary_search(&to).is_ok() {
                    steps.push((to, local.from))?;
                }
            }
        }
        uses.own = each_once(alloc, steps)?;
        Ok(uses)
    }

    fn visit_all(&mut self, root: &'v Value) -> Result<(), AllocError> {
        self.is_description = version_of(root).is_some();
        let is_library = is_library(root, self.is_description);
        self.nodes.push(Node {
            above: 0,
            step: Step::Root,
        })?;
        let mut waiting = Vec::new(self.alloc);
        waiting.push(Spot {
            value: root,
            role: Role::Keywords,
            is_placed: !is_library,
            node: 0,
            definition: 0,
            bases: 0,
        })?;
        for _ in 0..u64::MAX {
            let Some(spot) = waiting.pop() else {
                break;
            };
            self.visit(spot, &mut waiting)?;
        }
        Ok(())
    }

    fn visit(&mut self, spot: Spot<'v>, waiting: &mut Vec<Spot<'v>>) -> Result<(), AllocError> {
        match spot.value {
            Value::Object(members) => self.visit_members(spot, members, waiting),
            Value::Array(items) => {
                for (index, value) in items.iter().enumerate() {
                    let within = Spot {
                        value,
                        role: Role::Keywords,
                        ..spot
                    };
                    self.push(within, Step::Index(index), waiting)?;
                }
                Ok(())
            }
            _ => Ok(()),
        }
    }

    fn visit_members(
        &mut self,
        spot: Spot<'v>,
        members: &'v Map<String, Value>,
        waiting: &mut Vec<Spot<'v>>,
    ) -> Result<(), AllocError> {
        let spot = match spot.role {
            Role::Keywords => self.entered(spot, members)?,
            _ => spot,
        };
        for (key, value) in members {
            let member = Spot { value, ..spot };
            match spot.role {
                Role::Keywords => self.visit_keyword(member, key.as_str(), waiting)?,
                Role::Names => {
                    let within = Spot {
                        role: Role::Keywords,
                        ..member
                    };
                    self.push(within, Step::Key(key.as_str()), waiting)?;
                }
                Role::Definitions => self.define(member, key.as_str(), waiting)?,
                Role::Components => self.visit_component(member, key.as_str(), waiting)?,
            }
        }
        Ok(())
    }

    // An object whose members are keywords, with what its identifiers mean; notes its names.
    fn entered(
        &mut self,
        spot: Spot<'v>,
        members: &'v Map<String, Value>,
    ) -> Result<Spot<'v>, AllocError> {
        if !has_identifier(members) {
            return Ok(spot);
        }
        let mut spot = spot;
        for key in ["$id", "id", "$self"] {
            if let Some(id) = members.get(key).and_then(Value::as_str) {
                spot = self.identified(spot, id)?;
            }
        }
        for key in ["$anchor", "$dynamicAnchor"] {
            if let Some(name) = members.get(key).and_then(Value::as_str) {
                self.bear_anchor(spot, name)?;
                if key == "$dynamicAnchor" {
                    let name = ["#", name].join(self.alloc, "")?;
                    self.bear(spot.node, name)?;
                }
            }
        }
        if members.get("$recursiveAnchor").and_then(Value::as_bool) == Some(true) {
            let name = String::from_str(self.alloc, "#")?;
            self.bear(spot.node, name)?;
        }
        Ok(spot)
    }

    // An object with what an identifier may mean.
    fn identified(&mut self, spot: Spot<'v>, id: &str) -> Result<Spot<'v>, AllocError> {
        if let Some(name) = id.strip_prefix('#') {
            self.bear_anchor(spot, name)?;
            return Ok(spot);
        }
        let bases = self.with_identifier(spot, id)?;
        if spot.node == 0 {
            self.own = bases;
        }
        Ok(Spot { bases, ..spot })
    }

    // The number of the bases in an object: those around it, and what its identifier may mean.
    fn with_identifier(&mut self, spot: Spot<'_>, id: &str) -> Result<usize, AllocError> {
        let around = bases_at(self.bases.as_slice(), spot.bases);
        if around.len() >= MOST_BASES {
            self.uses.is_open = true;
            return Ok(spot.bases);
        }
        let mut within = meant_by(self.alloc, around, id)?;
        let mut names = Vec::new(self.alloc);
        for uri in &within {
            names.push(String::from_str(self.alloc, uri.as_str())?)?;
        }
        for uri in around {
            push_new(&mut within, uri.clone()?)?;
        }
        for name in names {
            self.bear(spot.node, name)?;
        }
        let number = self.bases.len();
        self.bases.push(within)?;
        Ok(number)
    }

    // Notes that an anchor leads to an object, from each base that there may be.
    fn bear_anchor(&mut self, spot: Spot<'_>, name: &str) -> Result<(), AllocError> {
        let mut names = Vec::new(self.alloc);
        for base in bases_at(self.bases.as_slice(), spot.bases) {
            let base = base.as_str();
            let anchor = format!(in self.alloc; "{base}#{name}")?;
            names.push(anchor)?;
        }
        for name in names {
            self.bear(spot.node, name)?;
        }
        Ok(())
    }

    // Notes that a name leads to the value of a node.
    fn bear(&mut self, node: usize, name: String) -> Result<(), AllocError> {
        let pointer = self.pointer_of(node)?;
        self.uses.bearers.push(Bearer { name, pointer })?;
        Ok(())
    }

    fn visit_keyword(
        &mut self,
        member: Spot<'v>,
        key: &'v str,
        waiting: &mut Vec<Spot<'v>>,
    ) -> Result<(), AllocError> {
        if key == "discriminator" && self.is_description {
            self.discriminated.push(member.definition)?;
        }
        match member.value {
            Value::String(text) => self.refer(member, key, text.as_str()),
            Value::Array(items) if key == "security" => self.note_security(
                member,
                items.as_slice(),
            ),
            Value::Object(_) | Value::Array(_) if !is_passed(key, member.value) => {
                if key == "discriminator" {
                    self.note_mapping(member)?;
                }
                let role = self.role_of(member, key);
                let is_placed = member.is_placed && self.leads_on(member, key);
                let within = Spot {
                    role,
                    is_placed,
                    ..member
                };
                self.push(within, Step::Key(key), waiting)
            }
            _ => Ok(()),
        }
    }

    // What the members are of the value under a keyword.
    fn role_of(&self, member: Spot<'_>, key: &str) -> Role {
        let is_at_root = self.is_description && member.node == 0;
        let is_defining = match key {
            "$defs" | "definitions" => member.is_placed,
            "parameters" | "responses" => member.is_placed && is_at_root,
            _ => false,
        };
        if is_defining && member.value.is_object() {
            Role::Definitions
        } else if is_at_root && member.is_placed && key == "components" {
            Role::Components
        } else if has_names(key) {
            Role::Names
        } else {
            Role::Keywords
        }
    }

    // Whether schemas are below a keyword, in any draft, or definitions of a description.
    fn leads_on(&self, member: Spot<'_>, key: &str) -> bool {
        if self.is_description && member.node == 0 {
            return matches!(
                key,
                "definitions" | "parameters" | "responses" | "components"
            );
        }
        has_schemas(key)
    }

    // Visits a component map, unless it is none.
    fn visit_component(
        &mut self,
        member: Spot<'v>,
        key: &'v str,
        waiting: &mut Vec<Spot<'v>>,
    ) -> Result<(), AllocError> {
        let role = if key.starts_with("x-") {
            Role::Keywords
        } else {
            Role::Definitions
        };
        self.push(Spot { role, ..member }, Step::Key(key), waiting)
    }

    // Notes a definition, and visits what is in it.
    fn define(
        &mut self,
        member: Spot<'v>,
        key: &'v str,
        waiting: &mut Vec<Spot<'v>>,
    ) -> Result<(), AllocError> {
        if !member.value.is_object() && !member.value.is_boolean() {
            let within = Spot {
                role: Role::Keywords,
                ..member
            };
            return self.push(within, Step::Key(key), waiting);
        }
        let pointer = self.pointer_below(member.node, key)?;
        if self.is_description && is_called(pointer.as_str()) {
            let name = called(self.alloc, pointer.as_str())?;
            let pointer = pointer.clone()?;
            self.uses.bearers.push(Bearer { name, pointer })?;
        }
        self.uses.definitions.push(Definition {
            pointer: pointer.clone()?,
            around: member.definition,
        })?;
        let definition = self.uses.definitions.len();
        self.uses.numbers.insert(pointer, definition)?;
        let within = Spot {
            role: Role::Keywords,
            definition,
            ..member
        };
        self.push(within, Step::Key(key), waiting)
    }

    // Adds a value that is to be visited, where it may have values in it. Its node is the one that it is in.
    fn push(
        &mut self,
        spot: Spot<'v>,
        step: Step<'v>,
        waiting: &mut Vec<Spot<'v>>,
    ) -> Result<(), AllocError> {
        if spot.value.is_object() || spot.value.is_array() {
            let node = self.nodes.len();
            self.nodes.push(Node {
                above: spot.node,
                step,
            })?;
            waiting.push(Spot { node, ..spot })?;
        }
        Ok(())
    }

    // The pointer of the value of a node.
    fn pointer_of(&self, node: usize) -> Result<String, AllocError> {
        let mut steps = Vec::new(self.alloc);
        let mut at = node;
        // Each node is after the one that it is in.
        for _ in 0..self.nodes.len() {
            match self.nodes.get(at) {
                Some(node) if !matches!(node.step, Step::Root) => {
                    steps.push(node.step)?;
                    at = node.above;
                }
                _ => break,
            }
        }
        let mut pointer = String::new(self.alloc);
        for step in steps.iter().rev() {
            push_step(&mut pointer, *step)?;
        }
        Ok(pointer)
    }

    // The pointer of a member of the value of a node.
    fn pointer_below(&self, node: usize, key: &str) -> Result<String, AllocError> {
        let mut pointer = self.pointer_of(node)?;
        push_step(&mut pointer, Step::Key(key))?;
        Ok(pointer)
    }

    // Notes the reference that the text under a keyword is, where it is one.
    fn refer(&mut self, member: Spot<'_>, key: &str, text: &str) -> Result<(), AllocError> {
        match key {
            "$ref" | "operationRef" => self.note(member, text),
            "$dynamicRef" => {
                self.note(member, text)?;
                self.note_dynamic(member, text)
            }
            "$recursiveRef" => {
                self.note(member, text)?;
                let name = String::from_str(self.alloc, "#")?;
                self.push_use(member, name, "")
            }
            _ => Ok(()),
        }
    }

    // Notes that a reference may lead to each dynamic anchor of a name.
    fn note_dynamic(&mut self, member: Spot<'_>, text: &str) -> Result<(), AllocError> {
        let Some((_, anchor)) = text.split_once('#') else {
            return Ok(());
        };
        let name = ["#", anchor].join(self.alloc, "")?;
        self.push_use(member, name, "")
    }

    // Notes what a discriminator refers to: each text of its mapping, and that of `defaultMapping`, is a reference, or the name of a schema (OpenAPI 3.2, Discriminator
    // Object).
    fn note_mapping(&mut self, member: Spot<'_>) -> Result<(), AllocError> {
        if let Some(text) = member.value.get("defaultMapping").and_then(Value::as_str) {
            self.note_mapped(member, text)?;
        }
        let Some(mapping) = member.value.get("mapping").and_then(Value::as_object) else {
            return Ok(());
        };
        for (_, text) in mapping {
            if let Some(text) = text.as_str() {
                self.note_mapped(member, text)?;
            }
        }
        Ok(())
    }

    // Notes what a text refers to that may be the name of a schema.
    fn note_mapped(&mut self, member: Spot<'_>, text: &str) -> Result<(), AllocError> {
        self.note(member, text)?;
        self.note_component(member, "/components/schemas/", text)
    }

    // Notes which security schemes are required: each by its name, or by its URI (OpenAPI 3.2, Security Requirement Object).
    fn note_security(&mut self, member: Spot<'_>, items: &[Value]) -> Result<(), AllocError> {
        for item in items {
            if let Some(schemes) = item.as_object() {
                for (name, _) in schemes {
                    self.note(member, name.as_str())?;
                    self.note_component(member, "/components/securitySchemes/", name.as_str())?;
                }
            }
        }
        Ok(())
    }

    // Notes a reference to a component by its name: of the document where it is a description, and else of those that it may be a part of.
    fn note_component(
        &mut self,
        member: Spot<'_>,
        front: &str,
        name: &str,
    ) -> Result<(), AllocError> {
        let mut pointer = String::from_str(self.alloc, front)?;
        write_escaped_str(&mut pointer, name)?;
        if !self.is_description {
            let name = called(self.alloc, pointer.as_str())?;
            return self.push_use(member, name, "");
        }
        self.note_local(member, pointer)
    }

    // Notes what a text refers to.
    fn note(&mut self, member: Spot<'_>, text: &str) -> Result<(), AllocError> {
        let Some((front, fragment)) = text.split_once('#') else {
            return self.note_parts(member, text, "");
        };
        let Some(fragment) = decoded(self.alloc, fragment)? else {
            return Ok(());
        };
        let is_pointer = fragment.is_empty() || fragment.as_str().starts_with('/');
        if front.is_empty() && is_pointer && member.bases == self.own {
            return self.note_local(member, fragment);
        }
        self.note_parts(member, text, fragment.as_str())
    }

    fn note_local(&mut self, member: Spot<'_>, pointer: String) -> Result<(), AllocError> {
        let is_of_all = self.is_of_all(member.node);
        self.locals.push(Local {
            from: member.definition,
            pointer,
            is_of_all,
        })?;
        Ok(())
    }

    // Whether the value of a node is an item of an `allOf`.
    fn is_of_all(&self, node: usize) -> bool {
        let Some(own) = self.nodes.get(node) else {
            return false;
        };
        match (own.step, self.nodes.get(own.above)) {
            (Step::Index(_), Some(list)) => matches!(list.step, Step::Key("allOf")),
            _ => false,
        }
    }

    // Notes what a text refers to, from each base that there may be.
    fn note_parts(
        &mut self,
        member: Spot<'_>,
        text: &str,
        fragment: &str,
    ) -> Result<(), AllocError> {
        let around = bases_at(self.bases.as_slice(), member.bases);
        let uris = meant_by(self.alloc, around, text)?;
        for uri in uris {
            if fragment.is_empty() || fragment.starts_with('/') {
                let name = String::from_str(self.alloc, uri.as_str())?;
                self.push_use(member, name, fragment)?;
            } else {
                let name = [uri.as_str(), "#", fragment].join(self.alloc, "")?;
                self.push_use(member, name, "")?;
            }
        }
        Ok(())
    }

    // Notes a reference to what has a name.
    fn push_use(&mut self, member: Spot<'_>, name: String, rest: &str) -> Result<(), AllocError> {
        self.uses.named.push(Use {
            from: member.definition,
            name,
            rest: String::from_str(self.alloc, rest)?,
        })?;
        Ok(())
    }
}

// Whether a component is referred to by its name alone, from other documents too.
fn is_called(pointer: &str) -> bool {
    pointer.starts_with("/components/schemas/")
        || pointer.starts_with("/components/securitySchemes/")
}

// The name of a component that is referred to by its name alone, from other documents too: no URI and no anchor begins with a blank.
fn called(alloc: Global, pointer: &str) -> Result<String, AllocError> {
    [" ", pointer].join(alloc, "")
}

// Whether nothing is told of the definitions of a document: they are there for others, in a schema that has nothing but an identifier, a dialect, comments and definitions, or a
// description without an operation; or it is a description of a kind that isn't known.
fn is_library(root: &Value, is_description: bool) -> bool {
    let Some(members) = root.as_object() else {
        return false;
    };
    if is_description {
        return is_empty_at(members, "paths") && is_empty_at(members, "webhooks");
    }
    for key in ["openapi", "swagger", "asyncapi"] {
        if members.get(key).is_some() {
            return true;
        }
    }
    for (key, _) in members {
        if !is_of_library(key.as_str()) {
            return false;
        }
    }
    true
}

// Whether an object has a member that may be an identifier or an anchor.
fn has_identifier(members: &Map<String, Value>) -> bool {
    for (key, _) in members {
        if is_identifier(key.as_str()) {
            return true;
        }
    }
    false
}

// Whether nothing is in the object under a key.
fn is_empty_at(members: &Map<String, Value>, key: &str) -> bool {
    match members.get(key) {
        Some(Value::Object(members)) => members.is_empty(),
        Some(_) => false,
        None => true,
    }
}

// Whether a member at a root is an identifier, a dialect, a comment or definitions.
fn is_of_library(key: &str) -> bool {
    match key {
        "$id" | "id" | "$anchor" | "$dynamicAnchor" | "$recursiveAnchor" => true,
        "$schema" | "$vocabulary" | "$comment" | "title" | "description" => true,
        "$defs" | "definitions" => true,
        _ => false,
    }
}

// Whether schemas are below a keyword in a draft.
fn has_schemas(key: &str) -> bool {
    match key {
        "$defs" | "definitions" | "properties" | "patternProperties" => true,
        "dependentSchemas" | "dependencies" | "allOf" | "anyOf" | "oneOf" => true,
        "not" | "if" | "then" | "else" | "items" | "prefixItems" | "additionalItems" => true,
        "contains" | "additionalProperties" | "propertyNames" | "contentSchema" => true,
        "unevaluatedItems" | "unevaluatedProperties" => true,
        _ => false,
    }
}

fn push_step(pointer: &mut String, step: Step<'_>) -> Result<(), AllocError> {
    match step {
        Step::Root => Ok(()),
        Step::Key(key) => {
            pointer.push('/')?;
            write_escaped_str(pointer, key)
        }
        Step::Index(index) => {
            pointer.push('/')?;
            write_index(pointer, index)
        }
    }
}

// A fragment without percent-encoding: nothing where that is no UTF-8.
fn decoded(alloc: Global, fragment: &str) -> Result<Option<String>, AllocError> {
    match percent_decode(fragment.as_bytes()).decode_utf8(alloc) {
        Ok(text) => Ok(Some(String::from_str(alloc, text.as_str())?)),
        Err(DecodeError::Utf8(_)) => Ok(None),
        Err(DecodeError::OutOfMemory) => Err(AllocError),
    }
}

fn bases_at(list: &[Vec<Rc<Uri>>], number: usize) -> &[Rc<Uri>] {
    match list.get(number) {
        Some(bases) => bases.as_slice(),
        None => &[],
    }
}

// The URIs that a text means against bases, without fragments, each once.
fn meant_by(alloc: Global, bases: &[Rc<Uri>], text: &str) -> Result<Vec<Rc<Uri>>, AllocError> {
    let mut uris = Vec::new(alloc);
    for base in bases {
        if let Some(uri) = if_meant(target_of(alloc, base, text))? {
            push_new(&mut uris, uri)?;
        }
    }
    Ok(uris)
}

// Adds a URI, unless it is in the list.
fn push_new(uris: &mut Vec<Rc<Uri>>, uri: Rc<Uri>) -> Result<(), AllocError> {
    if !uris.iter().any(|other| other.as_str() == uri.as_str()) {
        uris.push(uri)?;
    }
    Ok(())
}

// Steps in their order, each once.
fn each_once(alloc: Global, steps: Vec<(usize, usize)>) -> Result<Vec<(usize, usize)>, AllocError> {
    let mut steps = steps;
    steps.sort_unstable();
    let mut list: Vec<(usize, usize)> = Vec::new(alloc);
    for (from, to) in steps {
        let is_new = match list.last() {
            Some(last) => last.0 != from || last.1 != to,
            None => true,
        };
        if is_new {
            list.push((from, to))?;
        }
    }
    Ok(list)
}
