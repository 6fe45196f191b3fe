//! The children of values. The expected values are those of the drafts' tables.

use crate::row::Row;
use ref_parts::path::JsonPointerSegment;
use std::alloc::{AllocError, Global};
use std::process::Abort;

pub const ROWS: &str = r##"
# children: 17
// A draft, the values that `walk_children` gives of what is given, and those that `subresources_of` gives.
{"given":{"then":22,"$defs":{"a":1},"additionalItems":2,"additionalProperties":3,"allOf":[4],"anyOf":[5],"const":{"x":6},"contains":7,"contentSchema":8,"definitions":{"b":9},"dependencies":{"c":{},"d":[10]},"dependentSchemas":{"e":11},"else":12,"if":13,"items":[14,15],"not":16,"oneOf":[17],"patternProperties":{"f":18},"prefixItems":[19],"properties":{"g":20},"propertyNames":21,"unevaluatedItems":23,"unevaluatedProperties":24}}
["4",[1,4,5,7,8,9,{},11,12,13,14,15,16,17,18,19,20,21,22,23,24],[1,4,5,7,8,9,{},11,12,13,14,15,16,17,18,19,20,21,22,23,24]]
["6",[2,3,4,5,7,9,{},14,15,16,17,18,20,21],[2,3,4,5,7,9,{},14,15,16,17,18,20,21]]
["7",[2,3,4,5,7,9,{},12,13,14,15,16,17,18,20,21,22],[2,3,4,5,7,9,{},12,13,14,15,16,17,18,20,21,22]]
["2019-09",[1,2,3,4,5,7,8,9,{},11,12,13,14,15,16,17,18,20,21,22,23,24],[1,2,3,4,5,7,8,9,11,12,13,14,15,16,17,18,20,21,22,23,24]]
["2020-12",[1,3,4,5,7,8,9,11,12,13,[14,15],16,17,18,19,20,21,22,23,24],[1,3,4,5,7,8,9,11,12,13,[14,15],16,17,18,19,20,21,22,23,24]]
["unknown",[1,3,4,5,7,8,9,11,12,13,[14,15],16,17,18,19,20,21,22,23,24],[1,3,4,5,7,8,9,11,12,13,[14,15],16,17,18,19,20,21,22,23,24]]

{"given":{"additionalItems":true,"additionalProperties":{}}}
["4",[{}],[{}]]
["6",[true,{}],[true,{}]]
{"given":{"items":{"a":1}}}
["4",[{"a":1}],[{"a":1}]]
{"given":{"items":true}}
["2019-09",[true],[true]]
{"given":{"allOf":{"a":1},"properties":[1],"dependencies":[{}]}}
["7",[],[]]
{"given":[{"not":1}]}
["2020-12",[],[]]
{"given":"not"}
["2020-12",[],[]]

{"given":{"dependencies":{"a":{},"b":["c"]},"items":[true,{}],"not":{"$schema":"http://json-schema.org/draft-04/schema#"}}}
["2019-09",[{},true,{},{"$schema":"http://json-schema.org/draft-04/schema#"}],[true,{},{"$schema":"http://json-schema.org/draft-04/schema#"}]]
["7",[{},true,{},{"$schema":"http://json-schema.org/draft-04/schema#"}],[{},true,{},{"$schema":"http://json-schema.org/draft-04/schema#"}]]

{"given":{"dependencies":{"a":{},"b":["c"]},"items":[true,{}]}}
["2019-09",[{},true,{}],[true,{}]]
["7",[{},true,{}],[{},true,{}]]

# paths of children: 2
// A draft, and each child of what is given: its keyword, its segment and its draft.
{"given":{"dependencies":{"a":{},"b":["c"]},"items":[true,{}],"not":{"$schema":"http://json-schema.org/draft-04/schema#"}}}
["2019-09",["dependencies","a","2019-09"],["items",0,"2019-09"],["items",1,"2019-09"],["not",null,"4"]]

{"given":{"dependencies":{"a":{},"b":["c"]},"items":[true,{}]}}
["2019-09",["dependencies","a","2019-09"],["items",0,"2019-09"],["items",1,"2019-09"]]
"##;

pub fn children(rt: &impl Abort, alloc: Global, row: &Row<'_>) -> Result<(), AllocError> {
    let mut count = 0usize;
    for child in row.draft(0).subresources_of(row.given()) {
        row.same(rt, Some(child), row.row(2).value(count));
        count = count.saturating_add(1);
    }
    row.same(rt, count, row.row(2).len());
    count = 0;
    for child in row.draft(0).walk_children(alloc, row.given())?.iter() {
        row.same(rt, Some(child.value), row.row(1).value(count));
        count = count.saturating_add(1);
    }
    row.same(rt, count, row.row(1).len());
    Ok(())
}

/// The segment in a column, where there is one.
fn segment_of<'a>(row: &Row<'a>, column: usize) -> Option<JsonPointerSegment<'a>> {
    match row.optional(column) {
        Some(key) => Some(key.into()),
        None => Some(row.number(column)?.into()),
    }
}

pub fn paths(rt: &impl Abort, alloc: Global, row: &Row<'_>) -> Result<(), AllocError> {
    let mut column = 1usize;
    for child in row.draft(0).walk_children(alloc, row.given())?.iter() {
        let wanted = row.row(column);
        wanted.same(rt, child.keyword, wanted.text(0));
        wanted.same(rt, child.segment == segment_of(&wanted, 1), true);
        wanted.same(rt, child.draft, wanted.draft(2));
        column = column.saturating_add(1);
    }
    row.same(rt, column, row.len());
    Ok(())
}
