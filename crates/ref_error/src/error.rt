//! Why documents can't be prepared, or a reference can't be followed.
ghost use Rattle.std.specs.Prelude.{◌≡◌};
ghost use Rattle.ref_error.specs.declared.error.Error.TheVariants as error;
ghost use Rattle.ref_error.specs.Errors.{is_memory};

use ref_uri::{UriError, UriFault};
use std::alloc::AllocError;
use std::fmt;

/// Why a retriever refuses a document: one of the texts that are known, or any other. The known ones take no memory.
#[derive(Debug, PartialEq, Eq, Drop)]
pub enum Reason {
    /// The default retriever refuses everything.
    NotFetched,
    /// There is no document under the URI.
    NoDocument,
    /// A prepared registry retrieves nothing.
    NotSupported,
    /// What the retriever says.
    Text(String),
}

impl fmt::Display for Reason {
    ghost use Rattle.std.specs.Prelude.{Some};
    ghost use Rattle.ref_error.specs.Errors.{reason_text};

    ghost output = { λ r. Some (reason_text r) };

    fn fmt<W: fmt::Write>(&self, f: &mut fmt::Formatter<W>) -> fmt::Result {
        f.write_str(match self {
            Reason::NotFetched => "Default retriever does not fetch resources",
            Reason::NoDocument => "no document under this URI",
            Reason::NotSupported => {
                "Retrieving external resources is not supported once the registry is populated"
            }
            Reason::Text(text) => text.as_str(),
        })
    }
}

impl From<String> for Reason {
    ghost use Rattle.ref_error.specs.declared.error.Reason.TheVariants.{Text};

    ghost from_gives = { λ text reason. reason ≡ Text text };

    fn from(text: String) -> Reason {
        Reason::Text(text)
    }
}

/// Why a retriever gives no document.
#[derive(Debug, PartialEq, Eq, Drop)]
pub enum RetrieveError {
    /// It has none, or can't get it.
    Refused(Reason),
    /// Memory ran out.
    Memory(AllocError),
}

impl fmt::Display for RetrieveError {
    ghost use Rattle.std.specs.Prelude.{Some};
    ghost use Rattle.ref_error.specs.Errors.{retrieve_error_text};

    ghost output = { λ e. Some (retrieve_error_text e) };

    fn fmt<W: fmt::Write>(&self, f: &mut fmt::Formatter<W>) -> fmt::Result {
        match self {
            RetrieveError::Refused(reason) => write!(f, "{reason}"),
            RetrieveError::Memory(_) => f.write_str("Out of memory"),
        }
    }
}

impl From<Reason> for RetrieveError {
    ghost use Rattle.ref_error.specs.declared.error.RetrieveError.TheVariants as retrieve_error;

    ghost from_gives = { λ reason error. error ≡ retrieve_error.Refused reason };

    fn from(reason: Reason) -> RetrieveError {
        RetrieveError::Refused(reason)
    }
}

impl From<AllocError> for RetrieveError {
    ghost use Rattle.ref_error.specs.declared.error.RetrieveError.TheVariants as retrieve_error;

    ghost from_gives = { λ memory error. error ≡ retrieve_error.Memory memory };

    fn from(error: AllocError) -> RetrieveError {
        RetrieveError::Memory(error)
    }
}

/// Why documents can't be prepared, or a reference can't be followed.
#[derive(Debug, PartialEq, Eq, Drop)]
pub enum Error {
    /// A URI means no place, and its document can't be retrieved.
    Unretrievable {
        /// The URI.
        uri: String,
        /// Why the retriever gives no document.
        source: RetrieveError,
    },
    /// A pointer leads to no value (RFC 6901, 4).
    PointerToNowhere {
        /// The pointer.
        pointer: String,
    },
    /// The triples of a pointer make no UTF-8 (RFC 6901, 6).
    InvalidPercentEncoding {
        /// The pointer, as it was handed in.
        pointer: String,
    },
    /// A part of a pointer that goes into an array is no index (RFC 6901, 4).
    InvalidArrayIndex {
        /// The pointer.
        pointer: String,
        /// The part.
        index: String,
    },
    /// No place has an anchor of this name.
    NoSuchAnchor {
        /// The name.
        anchor: String,
    },
    /// A fragment that can be neither a pointer nor an anchor's name.
    InvalidAnchor {
        /// The fragment.
        anchor: String,
    },
    /// A text means no URI.
    InvalidUri(UriError),
    /// A meta-schema is neither known nor retrievable.
    UnknownSpecification {
        /// Its URI.
        specification: String,
    },
    /// Meta-schemas name one another in a circle.
    CircularMetaschema {
        /// The URI at which the circle closes.
        uri: String,
    },
    /// A document is wanted, and as many were retrieved as may be.
    RetrievalLimit {
        /// The URI that is wanted.
        uri: String,
        /// How many may be retrieved.
        limit: usize,
    },
    /// Memory ran out.
    Memory(AllocError),
}

impl Error {
    /// Whether memory ran out. Takes no memory.
    pub fn is_memory(&self) -> bool
        ensures value { result ≡ is_memory self.now }
    {
        matches!(self, Error::Memory(_))
    }

    /// A meta-schema that is neither known nor retrievable, by its URI. Takes no memory.
    pub fn unknown_specification(specification: String) -> Error
        ensures value { result ≡ error.UnknownSpecification specification }
    {
        Error::UnknownSpecification { specification }
    }

    /// A circle of meta-schemas, by the URI at which it closes. Takes no memory.
    pub fn circular_metaschema(uri: String) -> Error
        ensures value { result ≡ error.CircularMetaschema uri }
    {
        Error::CircularMetaschema { uri }
    }

    /// A URI that means no place, and why its document can't be retrieved. Takes no memory.
    pub fn unretrievable(uri: String, source: RetrieveError) -> Error
        ensures value { result ≡ error.Unretrievable uri source }
    {
        Error::Unretrievable { uri, source }
    }
}

impl fmt::Display for Error {
    ghost use Rattle.std.specs.Prelude.{Some};
    ghost use Rattle.ref_error.specs.Errors.{error_text};

    ghost output = { λ e. Some (error_text e) };

    fn fmt<W: fmt::Write>(&self, f: &mut fmt::Formatter<W>) -> fmt::Result {
        match self {
            Error::Unretrievable { uri, source } => write!(
                f,
                "Resource '{uri}' is not present in a registry and retrieving it failed: {source}"
            ),
            Error::PointerToNowhere { pointer } => write!(f, "Pointer '{pointer}' does not exist"),
            Error::InvalidPercentEncoding { pointer } => write!(
                f,
                "Invalid percent encoding in pointer '{pointer}': the decoded bytes do not represent valid UTF-8"
            ),
            Error::InvalidArrayIndex { pointer, index } => {
                write!(
                    f,
                    "Failed to parse array index '{index}' in pointer '{pointer}'"
                )
            }
            Error::NoSuchAnchor { anchor } => write!(f, "Anchor '{anchor}' does not exist"),
            Error::InvalidAnchor { anchor } => write!(f, "Anchor '{anchor}' is invalid"),
            Error::InvalidUri(error) => write!(f, "{error}"),
            Error::UnknownSpecification { specification } => write!(
                f,
                "Unknown meta-schema: '{specification}'. Custom meta-schemas must be registered in the registry before use"
            ),
            Error::CircularMetaschema { uri } => {
                write!(f, "Circular meta-schema reference detected at '{uri}'")
            }
            Error::RetrievalLimit { uri, limit } => {
                write!(
                    f,
                    "Retrieval limit of {limit} documents reached before '{uri}'"
                )
            }
            Error::Memory(_) => f.write_str("Out of memory"),
        }
    }
}

impl From<UriFault> for Error {
    ghost use Rattle.ref_error.specs.Errors.{of_uri_fault};

    ghost from_gives = { λ fault error. error ≡ of_uri_fault fault };

    fn from(fault: UriFault) -> Error {
        match fault {
            UriFault::Invalid(error) => Error::InvalidUri(error),
            UriFault::Memory(error) => Error::Memory(error),
        }
    }
}

impl From<AllocError> for Error {
    ghost from_gives = { λ memory e. e ≡ error.Memory memory };

    fn from(error: AllocError) -> Error {
        Error::Memory(error)
    }
}
