//! The registry and resolver of JSON Schema references.
//!
//! A [`RegistryBuilder`] takes documents and prepares a [`Registry`], which retrieves nothing from then on. Read
//! `specs/Builder.antt` and `specs/Prepared.antt` first, upon `Pending.antt` and `Preparing.antt` of `ref_definitions`.
#![tactic(auto)]

mod answer;
mod builder;
mod dialects;
mod input;
pub mod laws;
pub mod meta;
mod places;
mod prepare;
mod registry;
mod steps;
mod written;

pub use answer::{Answer, AnswerError};
pub use builder::{DEFAULT_RETRIEVAL_LIMIT, RegistryBuilder};
pub use input::{IntoRegistryResource, PendingResource};
pub use ref_draft::{
    Anchor, AnchorIter, Child, ChildIter, ChildIterInner, Draft, Resource, ResourceRef, Segment,
    Segments, trim_hashes,
};
pub use ref_error::{DefaultRetriever, Error, MapRetriever, Reason, Retrieve, RetrieveError};
pub use ref_index::{Contents, Document, Place};
pub use ref_parts::path::{JsonPointerNode, JsonPointerSegment};
pub use ref_parts::{
    BorrowedKey, Iter, List, SmallMap, SortedTable, TableEntries, first_escape, parse_index,
    pointer, pointer_of, unescape_segment, value_at, write_escaped_str, write_index,
};
pub use ref_resolver::{Location, Resolved, Resolver};
pub use ref_uri::{
    ParseError, ResolveError, ResolveFault, Uri, UriError, UriFault, UriParseFault, UriRef,
};
pub use ref_vocabularies::{
    CustomIter, Dialect, Vocabulary, VocabularySet, declared_or_default, default_vocabularies,
};
pub use registry::Registry;
pub use steps::{FollowError, Followed, Step, follow};

/// The meaning of texts as URIs, and texts as they are in fragments.
pub mod uri {
    pub use ref_parts::{EncodedBuffer, EncodedString};
    pub use ref_uri::uri::{from_str, resolve_against};
}

/// What a meta-schema declares under `$vocabulary`.
pub mod vocabularies {
    pub use ref_vocabularies::find;
}
