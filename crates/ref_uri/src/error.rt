//! Why a text is refused.
ghost use Rattle.std.specs.Prelude.{codes};
ghost use Rattle.ref_uri.specs.declared.error.UriParseFault.TheVariants.{Memory, Invalid};

use std::alloc::AllocError;
use std::fmt;

/// Why a text is no URI reference, or no URI.
#[derive(Clone, Copy, Debug, PartialEq, Eq, Hash)]
pub enum ParseError {
    /// The text is no URI reference (RFC 3986, 4.1).
    Syntax,
    /// The text is a reference without a scheme, where one is wanted (RFC 3986, 3).
    NoScheme,
}

impl fmt::Display for ParseError {
    ghost use Rattle.std.specs.Prelude.{Some};
    ghost use Rattle.ref_uri.specs.Errors.{parse_error_text};

    ghost output = { λ e. Some (parse_error_text e) };

    fn fmt<W: fmt::Write>(&self, f: &mut fmt::Formatter<W>) -> fmt::Result {
        match self {
            ParseError::Syntax => write!(f, "not a URI reference of RFC 3986"),
            ParseError::NoScheme => write!(f, "no scheme"),
        }
    }
}

/// Why no [`Uri`](crate::Uri) came of a text.
#[derive(Clone, Copy, Debug, PartialEq, Eq)]
pub enum UriParseFault {
    /// The text is no URI, or no fragment.
    Invalid(ParseError),
    /// Memory ran out.
    Memory(AllocError),
}

impl fmt::Display for UriParseFault {
    ghost use Rattle.std.specs.Prelude.{Some};
    ghost use Rattle.ref_uri.specs.Errors.{uri_parse_fault_text};

    ghost output = { λ e. Some (uri_parse_fault_text e) };

    fn fmt<W: fmt::Write>(&self, f: &mut fmt::Formatter<W>) -> fmt::Result {
        match self {
            UriParseFault::Invalid(error) => write!(f, "{error}"),
            UriParseFault::Memory(_) => write!(f, "Out of memory"),
        }
    }
}

impl From<ParseError> for UriParseFault {
    ghost use Rattle.std.specs.Prelude.{◌≡◌};

    ghost from_gives = { λ error fault. fault ≡ Invalid error };

    fn from(error: ParseError) -> UriParseFault {
        UriParseFault::Invalid(error)
    }
}

impl From<AllocError> for UriParseFault {
    ghost use Rattle.std.specs.Prelude.{◌≡◌};

    ghost from_gives = { λ error fault. fault ≡ Memory error };

    fn from(error: AllocError) -> UriParseFault {
        UriParseFault::Memory(error)
    }
}

/// Why a reference has no target.
#[derive(Clone, Copy, Debug, PartialEq, Eq, Hash)]
pub enum ResolveError {
    /// The base has no scheme (RFC 3986, 5.1).
    BaseWithoutScheme,
}

impl fmt::Display for ResolveError {
    ghost use Rattle.std.specs.Prelude.{Some};
    ghost use Rattle.ref_uri.specs.Errors.{resolve_error_text};

    ghost output = { λ e. Some (resolve_error_text e) };

    fn fmt<W: fmt::Write>(&self, f: &mut fmt::Formatter<W>) -> fmt::Result {
        match self {
            ResolveError::BaseWithoutScheme => write!(f, "the base has no scheme"),
        }
    }
}

/// Why no [`Uri`](crate::Uri) came of a reference and a base.
#[derive(Clone, Copy, Debug, PartialEq, Eq)]
pub enum ResolveFault {
    /// The reference has no target.
    Invalid(ResolveError),
    /// Memory ran out.
    Memory(AllocError),
}

impl fmt::Display for ResolveFault {
    ghost use Rattle.std.specs.Prelude.{Some};
    ghost use Rattle.ref_uri.specs.Errors.{resolve_fault_text};

    ghost output = { λ e. Some (resolve_fault_text e) };

    fn fmt<W: fmt::Write>(&self, f: &mut fmt::Formatter<W>) -> fmt::Result {
        match self {
            ResolveFault::Invalid(error) => write!(f, "{error}"),
            ResolveFault::Memory(_) => write!(f, "Out of memory"),
        }
    }
}

impl From<ResolveError> for ResolveFault {
    ghost use Rattle.std.specs.Prelude.{◌≡◌};
    ghost use Rattle.ref_uri.specs.declared.error.ResolveFault.TheVariants as resolve_fault;

    ghost from_gives = { λ error fault. fault ≡ resolve_fault.Invalid error };

    fn from(error: ResolveError) -> ResolveFault {
        ResolveFault::Invalid(error)
    }
}

impl From<AllocError> for ResolveFault {
    ghost use Rattle.std.specs.Prelude.{◌≡◌};
    ghost use Rattle.ref_uri.specs.declared.error.ResolveFault.TheVariants as resolve_fault;

    ghost from_gives = { λ error fault. fault ≡ resolve_fault.Memory error };

    fn from(error: AllocError) -> ResolveFault {
        ResolveFault::Memory(error)
    }
}

/// Why a text means no URI.
#[derive(Debug, PartialEq, Eq, Drop)]
pub enum UriError {
    /// The text is no URI reference, or, where `is_reference` is false, no URI. No call here returns the latter.
    Parse {
        /// The text, as it was handed in.
        uri: String,
        /// Whether a reference was asked for, and not only a URI.
        is_reference: bool,
        /// Why it is none.
        error: ParseError,
    },
    /// The text has no target against the base.
    Resolve {
        /// The text, as it was handed in.
        uri: String,
        /// The base's text.
        base: String,
        /// What the base lacks.
        error: ResolveError,
    },
}

impl fmt::Display for UriError {
    ghost use Rattle.std.specs.Prelude.{Some};
    ghost use Rattle.ref_uri.specs.Errors.{uri_error_text};

    ghost output = { λ e. Some (uri_error_text e) };

    fn fmt<W: fmt::Write>(&self, f: &mut fmt::Formatter<W>) -> fmt::Result {
        match self {
            UriError::Parse {
                uri,
                is_reference: true,
                error,
            } => write!(f, "Invalid URI reference '{uri}': {error}"),
            UriError::Parse { uri, error, .. } => write!(f, "Invalid URI '{uri}': {error}"),
            UriError::Resolve { uri, base, error } => {
                write!(f, "Failed to resolve '{uri}' against ")?;
                write!(f, "'{base}': {error}")
            }
        }
    }
}

/// Why no [`Uri`](crate::Uri) came of a text, alone or against a base.
#[derive(Debug, PartialEq, Eq, Drop)]
pub enum UriFault {
    /// The text means no URI.
    Invalid(UriError),
    /// Memory ran out.
    Memory(AllocError),
}

impl fmt::Display for UriFault {
    ghost use Rattle.std.specs.Prelude.{Some};
    ghost use Rattle.ref_uri.specs.Errors.{uri_fault_text};

    ghost output = { λ e. Some (uri_fault_text e) };

    fn fmt<W: fmt::Write>(&self, f: &mut fmt::Formatter<W>) -> fmt::Result {
        match self {
            UriFault::Invalid(error) => write!(f, "{error}"),
            UriFault::Memory(_) => write!(f, "Out of memory"),
        }
    }
}

impl From<UriError> for UriFault {
    ghost use Rattle.std.specs.Prelude.{◌≡◌};
    ghost use Rattle.ref_uri.specs.declared.error.UriFault.TheVariants as uri_fault;

    ghost from_gives = { λ error fault. fault ≡ uri_fault.Invalid error };

    fn from(error: UriError) -> UriFault {
        UriFault::Invalid(error)
    }
}

impl From<AllocError> for UriFault {
    ghost use Rattle.std.specs.Prelude.{◌≡◌};
    ghost use Rattle.ref_uri.specs.declared.error.UriFault.TheVariants as uri_fault;

    ghost from_gives = { λ error fault. fault ≡ uri_fault.Memory error };

    fn from(error: AllocError) -> UriFault {
        UriFault::Memory(error)
    }
}
