//! Why there is no bundle.
use referencing::{Draft, JsonPointerSegment, Uri};
use std::alloc::AllocError;
use std::fmt;
use std::rc::Rc;

/// Why a document can't be part of a bundle.
#[derive(Debug, Drop)]
pub enum Obstacle {
    /// It is no object, so it can't have an identifier. Make it an object: `{}` for `true`, `{"not": {}}` for `false`.
    NotAnObject,
    /// It is of Draft 4, 6 or 7 and has a `$ref` at its root, beside which an identifier doesn't count. Put the reference
    /// into an `allOf`.
    IdentifierBesideRef,
    /// The keyword of its identifier holds what is no identifier: no text, or before 2019-09 an anchor. Move it elsewhere.
    NotAnIdentifier,
    /// Its base URI, which ends in `#`, can't be an identifier. Refer to it without the `#`.
    NotKept(Rc<Uri>),
    /// No `$schema` could be added by which its draft is detected: it has another one, or the draft is that of a custom
    /// meta-schema. Give it the `$schema` of its draft.
    UnnamedDraft(Draft),
    /// Its root has a dynamic anchor and an identifier that, against the base URI that it gave, gives another one, as the
    /// look-up of such an anchor resolves it. Make the identifier absolute.
    ResolvedAgain,
}

/// What keeps a registry's documents from being one.
#[derive(Debug, Drop)]
pub enum Problem<'r> {
    /// There is no document with the root's number.
    NoDocument,
    /// The document, which is needed, can't be part of a bundle, or is a root that can't have others, since it is no object.
    NotEmbedded(Obstacle),
    /// What the root has here, under the keyword of definitions, is no object.
    NoMap,
    /// The root has a definition here whose key is the base URI of a document that is needed. Rename the definition.
    KeyTaken {
        /// The key.
        uri: Rc<Uri>,
    },
    /// The place has a URI that another place has too, so it may mean another in the bundle. Give one of them another
    /// identifier.
    SharedUri {
        /// The URI.
        uri: Rc<Uri>,
        /// The number of the other place's document.
        document: usize,
        /// The other place's path there.
        path: Vec<JsonPointerSegment<'r>>,
    },
    /// The place refers to a document by the URI that it was added or retrieved under, in place of which its root's
    /// identifier gives another. Refer to it by that one.
    ReplacedUri {
        /// The URI that the place refers to.
        uri: Rc<Uri>,
        /// The URI that the document's root has.
        base: Rc<Uri>,
    },
    /// The place refers to a name in a place of a parent, by a URI against which the identifier of that place gives another
    /// URI, which a schema of the registry's own documents has. A name that is looked up under the first is looked up under
    /// the second too, so it may be one of that schema, whose document need not be in the bundle. Give the schema another
    /// identifier.
    ShadowedUri {
        /// The URI that the place refers to.
        uri: Rc<Uri>,
        /// The URI that the identifier of the parent's place gives against it.
        base: Rc<Uri>,
        /// The number of the document of the schema that has this URI.
        document: usize,
        /// The path of that schema there.
        path: Vec<JsonPointerSegment<'r>>,
    },
    /// The place refers with a pointer to a member that the bundle adds or gives another value, or to what is below it. At
    /// the root of another document that is the identifier, which is the document's base URI there, or the `$schema` of its
    /// draft: write the member into the document, as the bundle has it, or refer to something else. Among the definitions of
    /// the bundle's root it is a document that is needed: refer to it by its URI.
    AddedMember {
        /// The URI of the document that the pointer goes from.
        uri: Rc<Uri>,
        /// The key of the member: of a needed document among the definitions its base URI.
        key: String,
    },
}

/// A problem, and where it is.
#[derive(Debug, Drop)]
pub struct Refusal<'r> {
    /// The number of its document in the registry.
    pub document: usize,
    /// Its path in the document.
    pub path: Vec<JsonPointerSegment<'r>>,
    /// What is wrong there.
    pub problem: Problem<'r>,
}

/// Why there is no bundle.
#[derive(Debug, Drop)]
pub enum BundleError<'r> {
    /// The documents can't be one.
    Refused(Refusal<'r>),
    /// Memory ran out.
    Memory(AllocError),
}

impl fmt::Display for Obstacle {
    ghost use Rattle.std.specs.Prelude.{Some};
    ghost use Rattle.ref_bundle.specs.Saying.{obstacle_said, obstacle_text};

    ghost output = { λ o. Some (obstacle_text (obstacle_said o)) };

    fn fmt<W: fmt::Write>(&self, f: &mut fmt::Formatter<W>) -> fmt::Result {
        match self {
            Obstacle::NotAnObject => f.write_str("it is no object"),
            Obstacle::IdentifierBesideRef => {
                f.write_str("an identifier doesn't count beside the `$ref` at its root")
            }
            Obstacle::NotAnIdentifier => {
                f.write_str("the keyword of its identifier holds what is no identifier")
            }
            Obstacle::NotKept(uri) => write!(f, "its URI '{uri}' can't be an identifier"),
            Obstacle::UnnamedDraft(_) => f.write_str("no `$schema` names its draft"),
            Obstacle::ResolvedAgain => {
                f.write_str("its identifier is relative, and its root has a dynamic anchor")
            }
        }
    }
}

impl fmt::Display for Problem<'_> {
    ghost use Rattle.std.specs.Prelude.{Some};
    ghost use Rattle.ref_bundle.specs.Saying.{problem_said, problem_text};

    ghost output = { λ p. Some (problem_text (problem_said p)) };

    fn fmt<W: fmt::Write>(&self, f: &mut fmt::Formatter<W>) -> fmt::Result {
        match self {
            Problem::NoDocument => f.write_str("there is no such document"),
            Problem::NotEmbedded(obstacle) => {
                write!(f, "the document can't be part of a bundle: {obstacle}")
            }
            Problem::NoMap => f.write_str("the value of the definitions keyword is no object"),
            Problem::KeyTaken { uri } => write!(f, "there is a definition '{uri}' already"),
            Problem::SharedUri { uri, document, .. } => {
                write!(
                    f,
                    "a subschema of document {document} has the URI '{uri}' too"
                )
            }
            Problem::ReplacedUri { uri, base } => {
                write!(
                    f,
                    "the identifier of the document '{uri}' replaces that URI by '{base}'"
                )
            }
            Problem::ShadowedUri {
                uri,
                base,
                document,
                ..
            } => {
                write!(
                    f,
                    "the identifier of '{uri}' gives the URI '{base}', which document {document} has"
                )
            }
            Problem::AddedMember { uri, key } => {
                write!(
                    f,
                    "the pointer leads to the member '{key}' in the document '{uri}', which the bundle adds or changes"
                )
            }
        }
    }
}

impl fmt::Display for Refusal<'_> {
    ghost use Rattle.std.specs.Prelude.{Some};
    ghost use Rattle.ref_bundle.specs.Saying.{refusal_said, refusal_text};

    ghost output = { λ r. Some (refusal_text (refusal_said r)) };

    fn fmt<W: fmt::Write>(&self, f: &mut fmt::Formatter<W>) -> fmt::Result {
        let (document, problem) = (self.document, &self.problem);
        write!(f, "Document {document}: {problem}")
    }
}

impl fmt::Display for BundleError<'_> {
    ghost use Rattle.std.specs.Prelude.{Some};
    ghost use Rattle.ref_bundle.specs.Saying.{error_text};

    ghost output = { λ e. Some (error_text e) };

    fn fmt<W: fmt::Write>(&self, f: &mut fmt::Formatter<W>) -> fmt::Result {
        match self {
            BundleError::Refused(refusal) => write!(f, "{refusal}"),
            BundleError::Memory(_) => f.write_str("Out of memory"),
        }
    }
}

impl From<AllocError> for BundleError<'_> {
    ghost use Rattle.ref_bundle.specs.declared.error.BundleError.TheVariants as bundle_error;
    ghost use Rattle.std.specs.Prelude.{◌≡◌};

    ghost from_gives = { λ error given. given ≡ bundle_error.Memory error };

    fn from(error: AllocError) -> Self {
        BundleError::Memory(error)
    }
}
