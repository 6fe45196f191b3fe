//! The keywords that are looked for in each draft.
ghost use Rattle.std.specs.Prelude.{◌≡◌, map};
ghost use Rattle.ref_rules.specs.Tables as tables;

use ref_draft::Draft;

const OTHERS_OF_4: [&str; 20] = [
    "$anchor",
    "$dynamicAnchor",
    "$dynamicRef",
    "$id",
    "$recursiveAnchor",
    "$recursiveRef",
    "const",
    "contains",
    "contentSchema",
    "dependentRequired",
    "dependentSchemas",
    "else",
    "if",
    "maxContains",
    "minContains",
    "prefixItems",
    "propertyNames",
    "then",
    "unevaluatedItems",
    "unevaluatedProperties",
];

const OTHERS_OF_6: [&str; 17] = [
    "$anchor",
    "$dynamicAnchor",
    "$dynamicRef",
    "$recursiveAnchor",
    "$recursiveRef",
    "contentSchema",
    "dependentRequired",
    "dependentSchemas",
    "else",
    "id",
    "if",
    "maxContains",
    "minContains",
    "prefixItems",
    "then",
    "unevaluatedItems",
    "unevaluatedProperties",
];

const OTHERS_OF_7: [&str; 14] = [
    "$anchor",
    "$dynamicAnchor",
    "$dynamicRef",
    "$recursiveAnchor",
    "$recursiveRef",
    "contentSchema",
    "dependentRequired",
    "dependentSchemas",
    "id",
    "maxContains",
    "minContains",
    "prefixItems",
    "unevaluatedItems",
    "unevaluatedProperties",
];

const OTHERS_OF_2019: [&str; 4] = ["$dynamicAnchor", "$dynamicRef", "id", "prefixItems"];

const OTHERS_OF_2020: [&str; 3] = ["$recursiveAnchor", "$recursiveRef", "id"];

const DECIDING: [&str; 33] = [
    "additionalItems",
    "additionalProperties",
    "allOf",
    "anyOf",
    "const",
    "contains",
    "dependencies",
    "else",
    "enum",
    "exclusiveMaximum",
    "exclusiveMinimum",
    "format",
    "if",
    "items",
    "maxItems",
    "maxLength",
    "maxProperties",
    "maximum",
    "minItems",
    "minLength",
    "minProperties",
    "minimum",
    "multipleOf",
    "not",
    "oneOf",
    "pattern",
    "patternProperties",
    "properties",
    "propertyNames",
    "required",
    "then",
    "type",
    "uniqueItems",
];

const DECIDING_IN_6: [&str; 30] = [
    "additionalItems",
    "additionalProperties",
    "allOf",
    "anyOf",
    "const",
    "contains",
    "dependencies",
    "enum",
    "exclusiveMaximum",
    "exclusiveMinimum",
    "format",
    "items",
    "maxItems",
    "maxLength",
    "maxProperties",
    "maximum",
    "minItems",
    "minLength",
    "minProperties",
    "minimum",
    "multipleOf",
    "not",
    "oneOf",
    "pattern",
    "patternProperties",
    "properties",
    "propertyNames",
    "required",
    "type",
    "uniqueItems",
];

const DECIDING_IN_4: [&str; 27] = [
    "additionalItems",
    "additionalProperties",
    "allOf",
    "anyOf",
    "dependencies",
    "enum",
    "exclusiveMaximum",
    "exclusiveMinimum",
    "format",
    "items",
    "maxItems",
    "maxLength",
    "maxProperties",
    "maximum",
    "minItems",
    "minLength",
    "minProperties",
    "minimum",
    "multipleOf",
    "not",
    "oneOf",
    "pattern",
    "patternProperties",
    "properties",
    "required",
    "type",
    "uniqueItems",
];

const TELLING_IN_4: [&str; 4] = ["id", "default", "description", "title"];

const TELLING_IN_6: [&str; 5] = ["$id", "default", "description", "examples", "title"];

const TELLING_IN_7: [&str; 9] = [
    "$id",
    "contentEncoding",
    "contentMediaType",
    "default",
    "description",
    "examples",
    "readOnly",
    "title",
    "writeOnly",
];

/// The keywords that a draft doesn't have, and another one has.
pub(crate) fn of_others(draft: Draft) -> &'static [&'static str]
    ensures value { map (λ k. k.now) result.now ≡ tables.of_others draft }
{
    match draft {
        Draft::Draft4 => &OTHERS_OF_4,
        Draft::Draft6 => &OTHERS_OF_6,
        Draft::Draft7 => &OTHERS_OF_7,
        Draft::Draft201909 => &OTHERS_OF_2019,
        Draft::Draft202012 => &OTHERS_OF_2020,
        Draft::Unknown => &[],
    }
}

/// The keywords of a draft that decide, and count for nothing beside a `$ref`.
pub(crate) fn decides(draft: Draft) -> &'static [&'static str]
    ensures value { map (λ k. k.now) result.now ≡ tables.decides draft }
{
    match draft {
        Draft::Draft4 => &DECIDING_IN_4,
        Draft::Draft6 => &DECIDING_IN_6,
        Draft::Draft7 => &DECIDING,
        _ => &[],
    }
}

/// The others that count for nothing there.
pub(crate) fn tells(draft: Draft) -> &'static [&'static str]
    ensures value { map (λ k. k.now) result.now ≡ tables.tells draft }
{
    match draft {
        Draft::Draft4 => &TELLING_IN_4,
        Draft::Draft6 => &TELLING_IN_6,
        Draft::Draft7 => &TELLING_IN_7,
        _ => &[],
    }
}
