//! Faults and reasons, as they are displayed and as their debug texts are.
use crate::fault::{Fault, made};
use crate::row;
use ref_error::{Error, Reason, RetrieveError};
use ref_uri::{ParseError, UriError, UriFault};
use serde_json::Value;
use std::alloc::{AllocError, Global};

/// A text of a row.
fn owned(alloc: Global, row: &Value, number: usize) -> Result<String, Fault> {
    made(String::from_str(alloc, row::text(row, number)?))
}

/// A fault of a text, by its kind.
fn of_text(kind: &str, text: String) -> Result<Error, Fault> {
    match kind {
        "UnknownSpecification" => Ok(Error::unknown_specification(text)),
        "CircularMetaschema" => Ok(Error::circular_metaschema(text)),
        "PointerToNowhere" => Ok(Error::PointerToNowhere { pointer: text }),
        "InvalidPercentEncoding" => Ok(Error::InvalidPercentEncoding { pointer: text }),
        "NoSuchAnchor" => Ok(Error::NoSuchAnchor { anchor: text }),
        "InvalidAnchor" => Ok(Error::InvalidAnchor { anchor: text }),
        "InvalidUri" => Ok(invalid(text)),
        _ => Err(Fault::Form("no such fault")),
    }
}

/// A text that is no reference.
fn invalid(uri: String) -> Error {
    Error::from(UriFault::Invalid(UriError::Parse {
        uri,
        is_reference: true,
        error: ParseError::Syntax,
    }))
}

/// A URI whose document can't be retrieved, for the reason that a row names.
fn unretrievable(alloc: Global, row: &Value) -> Result<Error, Fault> {
    let source = RetrieveError::Refused(reason_of(alloc, row::text(row, 3)?)?);
    Ok(Error::unretrievable(owned(alloc, row, 2)?, source))
}

fn limit(alloc: Global, row: &Value) -> Result<Error, Fault> {
    let limit = row::number(row, 3)?;
    let uri = owned(alloc, row, 2)?;
    Ok(Error::RetrievalLimit { uri, limit })
}

fn index(alloc: Global, row: &Value) -> Result<Error, Fault> {
    let pointer = owned(alloc, row, 2)?;
    let index = owned(alloc, row, 3)?;
    Ok(Error::InvalidArrayIndex { pointer, index })
}

/// The fault of a row, by its kind.
fn fault_of(alloc: Global, row: &Value) -> Result<Error, Fault> {
    match row::text(row, 1)? {
        "Unretrievable" => unretrievable(alloc, row),
        "RetrievalLimit" => limit(alloc, row),
        "InvalidArrayIndex" => index(alloc, row),
        "Memory" => Ok(Error::from(AllocError)),
        "Memory for a URI" => Ok(Error::from(UriFault::Memory(AllocError))),
        kind => of_text(kind, owned(alloc, row, 2)?),
    }
}

/// Of a row of a fault's kind and its parts: the fault as it is displayed, and its debug text in the next line.
pub fn shown(alloc: Global, row: &Value) -> Result<String, Fault> {
    let error = fault_of(alloc, row)?;
    made(format!(in alloc; "{error}\n{error:?}"))
}

/// The reason that a text names, or one of that text.
pub fn reason_of(alloc: Global, text: &str) -> Result<Reason, AllocError> {
    match text {
        "NotFetched" => Ok(Reason::NotFetched),
        "NoDocument" => Ok(Reason::NoDocument),
        "NotSupported" => Ok(Reason::NotSupported),
        text => Ok(Reason::from(String::from_str(alloc, text)?)),
    }
}

/// Of a row of a reason: how it is displayed.
fn reason(alloc: Global, row: &Value) -> Result<String, Fault> {
    let reason = reason_of(alloc, row::text(row, 1)?)?;
    made(format!(in alloc; "{reason}"))
}

/// Why a retriever gives no document: out of memory, or else a reason.
fn refusal_of(alloc: Global, row: &Value) -> Result<RetrieveError, Fault> {
    if row::text(row, 1)? == "Memory" {
        return Ok(RetrieveError::from(AllocError));
    }
    Ok(RetrieveError::from(reason_of(alloc, row::text(row, 1)?)?))
}

/// Of a row of a reason, or of being out of memory: how a refusal for it is displayed, and its debug text in the next line.
fn refusal(alloc: Global, row: &Value) -> Result<String, Fault> {
    let refusal = refusal_of(alloc, row)?;
    made(format!(in alloc; "{refusal}\n{refusal:?}"))
}

/// What is found of a row of a table on faults.
pub fn found(alloc: Global, table: &str, row: &Value) -> Result<String, Fault> {
    match table {
        "faults" => shown(alloc, row),
        "reasons" => reason(alloc, row),
        "refusals" => refusal(alloc, row),
        _ => Err(Fault::Form("no such table")),
    }
}
