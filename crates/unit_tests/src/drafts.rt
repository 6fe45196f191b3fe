//! Drafts, and what each reads of a value itself. The expected values are those of the drafts' tables.

use crate::asserts::{assert_shown, same};
use crate::lists::hash_of;
use crate::row::{DRAFTS, Row};
use ref_draft::{Draft, ResourceRef};
use std::alloc::AllocError;
use std::process::Abort;

pub const ROWS: &str = r##"
# detected drafts: 53
// A value, and the draft that each draft detects of it, or `null` for its own.
[{"$schema":"http://json-schema.org/draft/2020-12/schema"},"2020-12"]
[{"$schema":"http://json-schema.org/draft/2020-12/schema#"},"2020-12"]
[{"$schema":"http://json-schema.org/draft/2020-12/schema##"},"2020-12"]
[{"$schema":"https://json-schema.org/draft/2020-12/schema"},"2020-12"]
[{"$schema":"https://json-schema.org/draft/2020-12/schema#"},"2020-12"]
[{"$schema":"https://json-schema.org/draft/2020-12/schema##"},"2020-12"]
[{"$schema":"http://json-schema.org/draft/2019-09/schema"},"2019-09"]
[{"$schema":"http://json-schema.org/draft/2019-09/schema#"},"2019-09"]
[{"$schema":"http://json-schema.org/draft/2019-09/schema##"},"2019-09"]
[{"$schema":"https://json-schema.org/draft/2019-09/schema"},"2019-09"]
[{"$schema":"https://json-schema.org/draft/2019-09/schema#"},"2019-09"]
[{"$schema":"https://json-schema.org/draft/2019-09/schema##"},"2019-09"]
[{"$schema":"http://json-schema.org/draft-07/schema"},"7"]
[{"$schema":"http://json-schema.org/draft-07/schema#"},"7"]
[{"$schema":"http://json-schema.org/draft-07/schema##"},"7"]
[{"$schema":"https://json-schema.org/draft-07/schema"},"7"]
[{"$schema":"https://json-schema.org/draft-07/schema#"},"7"]
[{"$schema":"https://json-schema.org/draft-07/schema##"},"7"]
[{"$schema":"http://json-schema.org/draft-06/schema"},"6"]
[{"$schema":"http://json-schema.org/draft-06/schema#"},"6"]
[{"$schema":"http://json-schema.org/draft-06/schema##"},"6"]
[{"$schema":"https://json-schema.org/draft-06/schema"},"6"]
[{"$schema":"https://json-schema.org/draft-06/schema#"},"6"]
[{"$schema":"https://json-schema.org/draft-06/schema##"},"6"]
[{"$schema":"http://json-schema.org/draft-04/schema"},"4"]
[{"$schema":"http://json-schema.org/draft-04/schema#"},"4"]
[{"$schema":"http://json-schema.org/draft-04/schema##"},"4"]
[{"$schema":"https://json-schema.org/draft-04/schema"},"4"]
[{"$schema":"https://json-schema.org/draft-04/schema#"},"4"]
[{"$schema":"https://json-schema.org/draft-04/schema##"},"4"]
[{"$schema":"http://json-schema.org/schema"},"2020-12"]
[{"$schema":"http://json-schema.org/schema#"},"2020-12"]
[{"$schema":"http://json-schema.org/schema##"},"2020-12"]
[{"$schema":"https://json-schema.org/schema"},"2020-12"]
[{"$schema":"https://json-schema.org/schema#"},"2020-12"]
[{"$schema":"https://json-schema.org/schema##"},"2020-12"]
[{"$schema":"http://json-schema.org/draft-05/schema"},"unknown"]
[{"$schema":"http://json-schema.org/draft-05/schema#"},"unknown"]
[{"$schema":"http://json-schema.org/draft-05/schema##"},"unknown"]
[{"$schema":"https://json-schema.org/draft-05/schema"},"unknown"]
[{"$schema":"https://json-schema.org/draft-05/schema#"},"unknown"]
[{"$schema":"https://json-schema.org/draft-05/schema##"},"unknown"]
[{"$schema":"http://json-schema.org/draft-07/schema/"},"unknown"]
[{"$schema":"http://json-schema.org/draft-07/schema/#"},"unknown"]
[{"$schema":"http://json-schema.org/draft-07/schema/##"},"unknown"]
[{"$schema":"https://json-schema.org/draft-07/schema/"},"unknown"]
[{"$schema":"https://json-schema.org/draft-07/schema/#"},"unknown"]
[{"$schema":"https://json-schema.org/draft-07/schema/##"},"unknown"]

[{},null]
[{"$schema":7},null]
[["$schema"],null]
["http://json-schema.org/schema",null]
[{"$schema":"invalid"},"unknown"]

# keywords: 6
// A draft, and the keyword that has its identifiers.
["4","id"]
["6","$id"]
["7","$id"]
["2019-09","$id"]
["2020-12","$id"]
["unknown","$id"]

# identifiers: 10
// A value, and its identifier by each draft.
[{"$id":"k##"},null,"k","k","k","k","k"]
[{"id":"k##"},"k",null,null,null,null,null]
[{"$id":"k","$ref":"x"},null,null,null,"k","k","k"]
[{"$id":"k","$ref":7},null,null,null,"k","k","k"]
[{"id":"k","$ref":"x"},null,null,null,null,null,null]
[{"$id":"#k"},null,null,null,"#k","#k","#k"]
[{"id":"#k"},null,null,null,null,null,null]
[{"$id":"#f","$ref":"x"},null,null,null,"#f","#f","#f"]
[{"$id":7,"id":7},null,null,null,null,null,null]
[["$id"],null,null,null,null,null,null]

# known keywords: 7
// Keywords, and whether each draft knows them.
["$ref $schema additionalItems additionalProperties allOf anyOf definitions dependencies enum exclusiveMaximum exclusiveMinimum format items maxItems maxLength maxProperties maximum minItems minLength minProperties minimum multipleOf not oneOf pattern patternProperties properties required type uniqueItems",true,true,true,true,true,true]
["id",true,false,false,false,false,false]
["$id const contains propertyNames contentEncoding contentMediaType",false,true,true,true,true,true]
["else if then",false,false,true,true,true,true]
["contentSchema $anchor $defs $recursiveAnchor $recursiveRef dependentRequired dependentSchemas maxContains minContains unevaluatedItems unevaluatedProperties",false,false,false,true,true,true]
["$dynamicAnchor $dynamicRef prefixItems",false,false,false,false,true,true]
["$vocabulary Items item itemss $comment title",false,false,false,false,false,false]
"##;

pub fn detected(rt: &impl Abort, row: &Row<'_>) {
    let value = row.document(0);
    for draft in DRAFTS {
        let wanted = match row.optional(1) {
            Some(_) => row.draft(1),
            None => draft,
        };
        row.same(rt, draft.detect(value), wanted);
    }
    if let Some(uri) = row.under("$schema") {
        row.same(rt, Draft::from_schema_uri(uri), row.draft(1));
    }
}

pub fn keywords(rt: &impl Abort, row: &Row<'_>) {
    row.same(rt, row.draft(0).id_keyword(), row.text(1));
}

pub fn identifiers(rt: &impl Abort, row: &Row<'_>) {
    let value = row.document(0);
    let mut column = 1usize;
    for draft in DRAFTS {
        let id = ResourceRef::new(value, draft).id();
        row.same(rt, id, row.optional(column));
        column = column.saturating_add(1);
    }
}

pub fn known(rt: &impl Abort, row: &Row<'_>) {
    for keyword in row.text(0).split_whitespace() {
        let mut column = 1usize;
        for draft in DRAFTS {
            let is_known = draft.is_known_keyword(keyword);
            row.same(rt, (keyword, is_known), (keyword, row.is_true(column)));
            column = column.saturating_add(1);
        }
    }
}

#[test]
fn drafts_are_ordered_and_shown(rt: HostRuntime) -> Result<(), AllocError> {
    same(&rt, Draft::default(), Draft::Draft202012);
    same(
        &rt,
        hash_of(&Draft::default()),
        hash_of(&Draft::Draft202012),
    );
    same(&rt, Draft::Draft7.is_known_keyword(""), false);
    for pair in DRAFTS.windows(2) {
        same(&rt, pair[0] < pair[1], true);
    }
    let wanted = "[Draft4, Draft6, Draft7, Draft201909, Draft202012, Unknown]";
    assert_shown(&rt, rt.alloc(), &DRAFTS, wanted)
}
