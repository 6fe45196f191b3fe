//! The keywords that each draft knows.
ghost use Rattle.std.specs.Prelude.{◌≡◌};
ghost use Rattle.ref_draft.specs.Keywords.{is_one_of, is_known_in_2019, known_in_all, known_in_4, known_since_6, known_since_7, known_since_2019, known_since_2020};

const IN_ALL: [&str; 30] = [
    "$ref",
    "$schema",
    "additionalItems",
    "additionalProperties",
    "allOf",
    "anyOf",
    "definitions",
    "dependencies",
    "enum",
    "exclusiveMaximum",
    "exclusiveMinimum",
    "format",
    "items",
    "maxItems",
    "maxLength",
    "maxProperties",
    "maximum",
    "minItems",
    "minLength",
    "minProperties",
    "minimum",
    "multipleOf",
    "not",
    "oneOf",
    "pattern",
    "patternProperties",
    "properties",
    "required",
    "type",
    "uniqueItems",
];

const SINCE_6: [&str; 6] = [
    "$id",
    "const",
    "contains",
    "propertyNames",
    "contentEncoding",
    "contentMediaType",
];

const SINCE_7: [&str; 3] = ["else", "if", "then"];

const SINCE_2019: [&str; 11] = [
    "contentSchema",
    "$anchor",
    "$defs",
    "$recursiveAnchor",
    "$recursiveRef",
    "dependentRequired",
    "dependentSchemas",
    "maxContains",
    "minContains",
    "unevaluatedItems",
    "unevaluatedProperties",
];

const SINCE_2020: [&str; 3] = ["$dynamicAnchor", "$dynamicRef", "prefixItems"];

// In every draft.
pub(crate) fn in_all(keyword: &str) -> bool
    ensures { result ≡ is_one_of keyword.now known_in_all }
{
    IN_ALL.contains(&keyword)
}

// In Draft 4 alone.
pub(crate) fn in_4(keyword: &str) -> bool
    ensures { result ≡ is_one_of keyword.now known_in_4 }
{
    matches!(keyword, "id")
}

// In Draft 6 and later.
pub(crate) fn since_6(keyword: &str) -> bool
    ensures { result ≡ is_one_of keyword.now known_since_6 }
{
    SINCE_6.contains(&keyword)
}

// In Draft 7 and later.
pub(crate) fn since_7(keyword: &str) -> bool
    ensures { result ≡ is_one_of keyword.now known_since_7 }
{
    SINCE_7.contains(&keyword)
}

// In 2019-09 and later.
fn since_2019(keyword: &str) -> bool
    ensures { result ≡ is_one_of keyword.now known_since_2019 }
{
    SINCE_2019.contains(&keyword)
}

// In 2020-12.
pub(crate) fn since_2020(keyword: &str) -> bool
    ensures { result ≡ is_one_of keyword.now known_since_2020 }
{
    SINCE_2020.contains(&keyword)
}

// In 2019-09.
pub(crate) fn in_2019(keyword: &str) -> bool
    ensures { result ≡ is_known_in_2019 keyword.now }
{
    in_all(keyword) || since_6(keyword) || since_7(keyword) || since_2019(keyword)
}
