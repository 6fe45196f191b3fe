//! What is said of the keywords of schemas.
use crate::finding::{Finding, Problem as Wrong};
use ref_descriptions::Version;
use ref_draft::Draft;
use ref_findings::Problem as Plain;
use ref_parts::path::JsonPointerSegment;
use ref_rules::{Problem, meta_schema};
use std::alloc::{AllocError, Global};

/// What is said of a keyword.
pub(crate) fn told_text(
    alloc: Global,
    finding: &Finding<'_>,
    told: Problem,
    draft: Draft,
) -> Result<String, AllocError> {
    let keyword = finding.keyword.unwrap_or("");
    match told {
        Problem::OfAnotherDraft(draft) => of_another_text(alloc, keyword, draft),
        Problem::DialectWithin => String::from_str(
            alloc,
            "A $schema counts at the root of a file, or beside an identifier",
        ),
        Problem::IgnoredBesideRef | Problem::UnheardBesideRef => {
            let draft = draft.name();
            format!(in alloc; "'{keyword}' counts for nothing beside a $ref in Draft {draft}")
        }
        Problem::MisspelledDialect(draft) => {
            misspelled_text(alloc, finding.text.unwrap_or(""), draft)
        }
    }
}

/// That a keyword counts for nothing beside a `$ref` in a description.
pub(crate) fn beside_text(
    alloc: Global,
    finding: &Finding<'_>,
    version: Version,
) -> Result<String, AllocError> {
    let (keyword, version) = (finding.keyword.unwrap_or(""), version.name());
    format!(in alloc; "'{keyword}' counts for nothing beside a $ref in OpenAPI {version}")
}

// That a draft doesn't have a keyword.
fn of_another_text(alloc: Global, keyword: &str, draft: Draft) -> Result<String, AllocError> {
    format!(in alloc; "Draft {} has no '{keyword}'", draft.name())
}

// That a text is not the URI of a draft's meta-schema.
fn misspelled_text(alloc: Global, text: &str, draft: Draft) -> Result<String, AllocError> {
    format!(in alloc;
        "'{text}' is not the URI of the meta-schema of Draft {}",
        draft.name()
    )
}

/// What is meant by a keyword, where that is known: the URI of the meta-schema.
pub(crate) fn told_suggestion(alloc: Global, told: Problem) -> Result<Option<String>, AllocError> {
    match told {
        Problem::MisspelledDialect(draft) => Ok(Some(String::from_str(alloc, meta_schema(draft))?)),
        _ => Ok(None),
    }
}

/// What to do about what is said of a keyword.
pub(crate) fn told_help(
    alloc: Global,
    finding: &Finding<'_>,
    told: Problem,
    draft: Draft,
) -> Result<Option<String>, AllocError> {
    match told {
        Problem::OfAnotherDraft(_) => match other_name(finding.keyword.unwrap_or(""), draft) {
            Some(name) => Ok(Some(["write ", name].join(alloc, "")?)),
            None => Ok(None),
        },
        Problem::IgnoredBesideRef => {
            Ok(Some(String::from_str(alloc, "put the $ref into an allOf")?))
        }
        _ => Ok(None),
    }
}

/// What to do about a finding, where that is the same for all of its rule.
pub(crate) fn plain_help(finding: &Finding<'_>) -> Option<&'static str> {
    match &finding.problem {
        Wrong::NotASchema { draft, .. } => Some(schema_help(*draft)),
        Wrong::Endless { .. } => Some(
            "take one of these references away, or put it under a keyword that goes into the value, as properties",
        ),
        Wrong::Unused => Some("remove it, or refer to it"),
        Wrong::Beside {
            told: Problem::IgnoredBesideRef,
            ..
        } => Some("put the $ref into an allOf"),
        Wrong::Plain(Plain::NotChecked) => description_help(finding.keyword, finding.text),
        Wrong::Plain(Plain::ListOfItems) => {
            Some("--draft with an earlier draft, or a $schema in the file")
        }
        _ => None,
    }
}

// What a reference of a schema is to lead to.
fn schema_help(draft: Draft) -> &'static str {
    match draft {
        Draft::Draft4 => "refer to a schema, which is an object",
        _ => "refer to a schema, which is an object or a boolean",
    }
}

// What to do about a description whose references aren't checked, by the keyword at its root and its version.
fn description_help(keyword: Option<&str>, version: Option<&str>) -> Option<&'static str> {
    match (keyword, version) {
        (Some("openapi"), Some("2.0")) => Some("2.0 is written under 'swagger'"),
        (Some("swagger"), Some(version)) if version.starts_with('3') => {
            Some("3.0, 3.1 and 3.2 are written under 'openapi'")
        }
        (Some("openapi" | "swagger"), Some(_)) => {
            Some("if another version is meant, write it: 2.0, 3.0, 3.1 and 3.2 are checked")
        }
        (Some("openapi" | "swagger"), None) => None,
        _ => Some("put its schemas into files of their own, which are checked as a whole"),
    }
}

// What a draft has in place of a keyword.
fn other_name(keyword: &str, draft: Draft) -> Option<&'static str> {
    match (keyword, draft) {
        ("id", _) => Some("$id"),
        ("$id", Draft::Draft4) => Some("id"),
        ("$recursiveRef", Draft::Draft202012) => Some("$dynamicRef"),
        ("$recursiveAnchor", Draft::Draft202012) => Some("$dynamicAnchor"),
        ("$dynamicRef", Draft::Draft201909) => Some("$recursiveRef"),
        ("$dynamicAnchor", Draft::Draft201909) => Some("$recursiveAnchor"),
        _ => None,
    }
}

/// That a reference comes back to where it began.
pub(crate) fn endless_text(
    alloc: Global,
    reference: &str,
    around: &str,
) -> Result<String, AllocError> {
    format!(in alloc; "'{reference}' comes back without a step into the value: {around}")
}

/// That a document is there whose URI has the same letters, small or capital.
pub(crate) fn case_text(alloc: Global, reference: &str, name: &str) -> Result<String, AllocError> {
    format!(in alloc;
        "'{reference}' and the file {name} differ by small letters and capitals alone"
    )
}

/// That a member has the name of an earlier one.
pub(crate) fn repeated_text(alloc: Global, name: &str) -> Result<String, AllocError> {
    format!(in alloc; "The object has '{name}' already: of members with one name the last counts")
}

/// That nothing uses a definition or a component, by its path.
pub(crate) fn unused_text(alloc: Global, finding: &Finding<'_>) -> Result<String, AllocError> {
    match finding.path.last() {
        Some(JsonPointerSegment::Key(name)) => {
            let (kind, name) = (kind_of(finding.path.as_slice()), name.as_str());
            format!(in alloc; "The {kind} '{name}' is not used")
        }
        _ => String::from_str(alloc, "The definition is not used"),
    }
}

// What is at a path: a component of an API description by the map that has it, else a definition.
fn kind_of(path: &[JsonPointerSegment<'_>]) -> &'static str {
    match path {
        [root, map, _] => match key_of(root) {
            "components" => kind_in(key_of(map)),
            _ => "definition",
        },
        [map, _] => kind_in(key_of(map)),
        _ => "definition",
    }
}

// The key that a step is, or nothing where it is an index.
fn key_of<'p>(step: &'p JsonPointerSegment<'_>) -> &'p str {
    match step {
        JsonPointerSegment::Key(key) => key.as_str(),
        JsonPointerSegment::Index(_) => "",
    }
}

// What the values of a map of an API description are.
fn kind_in(map: &str) -> &'static str {
    match map {
        "schemas" => "schema",
        "responses" => "response",
        "parameters" => "parameter",
        "examples" => "example",
        "requestBodies" => "request body",
        "headers" => "header",
        "securitySchemes" => "security scheme",
        "links" => "link",
        "callbacks" => "callback",
        "pathItems" => "path item",
        "mediaTypes" => "media type",
        _ => "definition",
    }
}

/// That a reference leads to what is no schema.
pub(crate) fn no_schema_text(
    alloc: Global,
    reference: &str,
    is: &str,
    draft: Draft,
) -> Result<String, AllocError> {
    format!(in alloc;
        "'{reference}' is {is}, which is no schema of Draft {}",
        draft.name()
    )
}
