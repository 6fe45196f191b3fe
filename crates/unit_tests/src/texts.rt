//! Pointer text and text for a fragment.

use crate::asserts::{same, same_at};
use crate::row::Row;
use ref_parts::{
    EncodedBuffer, first_escape, parse_index, pointer, unescape_segment, write_escaped_str,
    write_index,
};
use std::alloc::{AllocError, Global};
use std::borrow::CowStr;
use std::process::Abort;

pub const ROWS: &str = r##"
# tokens: 15
// A key, and `/` with its token after it.
["","/"]
["abc","/abc"]
["abcdefgh","/abcdefgh"]
["abcdefghijklmnopq","/abcdefghijklmnopq"]
["~","/~0"]
["/","/~1"]
["a/b","/a~1b"]
["abcdefgh/","/abcdefgh~1"]
["abcdefghijklmno~pqrstuvw","/abcdefghijklmno~0pqrstuvw"]
["a/b/c/d/e/f/g/h/i/j","/a~1b~1c~1d~1e~1f~1g~1h~1i~1j"]
["/v1/accounts/{account-key}","/~1v1~1accounts~1{account-key}"]
["abcdefg~","/abcdefg~0"]
["abcdefgh/ijklmnop~qrstuvwx","/abcdefgh~1ijklmnop~0qrstuvwx"]
["~/~","/~0~1~0"]
["/.abcdef","/~1.abcdef"]

# indexes: 11
// A text, and the index that it means, if it means one.
["0",0]
["10",10]
["18446744073709551615",18446744073709551615]
["18446744073709551616",null]
["",null]
["01",null]
["00",null]
["+1",null]
["-1",null]
["one",null]
["1a",null]

# first escapes: 8
// A text, and the place of the first byte in it that is to be escaped, if there is one.
["/.abcdef",0]
[".abcdef/",7]
["ab~/",2]
["abcdefgh",null]
["",null]
["~\u007f",0]
["~\u007faaaaaa",0]
["aaaaaaaaaaaaaaa~",15]

# keys: 30
// A token and its key: what it is once each `~1` is replaced by `/`, and then each `~0` by `~`.
["",""]
["abc","abc"]
["a/d","a/d"]
["a~0b","a~b"]
["a~1b","a/b"]
["a~01b","a~1b"]
["a~0~1b","a~/b"]
["~01","~1"]
["~10","/0"]
["~0~1~","~/~"]
["~","~"]
["~~","~~"]
["~~~~~","~~~~~"]
["~2","~2"]
["a~c","a~c"]
["🌟~0🌠~1🌡️","🌟~🌠/🌡️"]
["~🌟","~🌟"]
["Café~0~1","Café~/"]
["~é","~é"]
["αβγ","αβγ"]
["~αβγ","~αβγ"]
["∀∂∈ℝ∧∪≡∞","∀∂∈ℝ∧∪≡∞"]
["~∀∂∈ℝ∧∪≡∞","~∀∂∈ℝ∧∪≡∞"]
["¡¢£¤¥¦§¨©","¡¢£¤¥¦§¨©"]
["~¡¢£¤¥¦§¨©","~¡¢£¤¥¦§¨©"]
["􏿿","􏿿"]
["~􏿿","~􏿿"]
["~~1","~/"]
["~~0","~~"]
["a/b","a/b"]

# pointers: 22
// A pointer, and the value that it leads to in what is given, if it leads to one.
// RFC 6901, section 5.
{"given":{"foo":["bar","baz"],"":0,"a/b":1,"c%d":2,"e^f":3,"g|h":4,"i\\j":5,"k\"l":6," ":7,"m~n":8}}
["/foo",["bar","baz"]]
["/foo/0","bar"]
["/",0]
["/a~1b",1]
["/c%d",2]
["/e^f",3]
["/g|h",4]
["/i\\j",5]
["/k\"l",6]
["/ ",7]
["/m~0n",8]
["a"]
["/foo/2"]
["/foo/-"]
["/foo/00"]
["/foo/+1"]
["/nope"]
["/m~n/x"]
["//x"]

{"given":{"":{"a/b":[5]}}}
["",{"":{"a/b":[5]}}]
["//a~1b/0",5]
["a"]

# buffers: 5
// Two texts, each pushed and cleared, three that are pushed then, what the buffer holds, and what that decodes to.
["","","é%","","","%C3%A9%25","é%"]
["é%","a/b","~ ?","","","~%20?","~ ?"]
["","","~ ?","AZaz09-._~!$&'()*+,;=:@/?","","~%20?AZaz09-._~!$&'()*+,;=:@/?","~ ?AZaz09-._~!$&'()*+,;=:@/?"]
["","","~ ?","AZaz09-._~!$&'()*+,;=:@/?","\"#<>[\\]^`{|}","~%20?AZaz09-._~!$&'()*+,;=:@/?%22%23%3C%3E%5B%5C%5D%5E%60%7B%7C%7D","~ ?AZaz09-._~!$&'()*+,;=:@/?\"#<>[\\]^`{|}"]
["a/b","","~ ?","","","~%20?","~ ?"]
"##;

pub fn tokens(rt: &impl Abort, alloc: Global, row: &Row<'_>) -> Result<(), AllocError> {
    let mut buffer = String::from_str(alloc, "/")?;
    write_escaped_str(&mut buffer, row.text(0))?;
    row.same(rt, buffer.as_str(), row.text(1));
    Ok(())
}

pub fn indexes(rt: &impl Abort, row: &Row<'_>) {
    row.same(rt, parse_index(row.text(0)), row.number(1));
}

pub fn first_escapes(rt: &impl Abort, row: &Row<'_>) {
    row.same(rt, first_escape(row.text(0).as_bytes()), row.number(1));
}

/// A token without `~` lends its key.
pub fn keys(rt: &impl Abort, alloc: Global, row: &Row<'_>) -> Result<(), AllocError> {
    let token = row.text(0);
    let key = unescape_segment(alloc, token)?;
    row.same(rt, key.as_str(), row.text(1));
    if !token.contains('~') {
        row.same(rt, matches!(&key, CowStr::Borrowed(_)), true);
    }
    Ok(())
}

pub fn pointers(rt: &impl Abort, alloc: Global, row: &Row<'_>) -> Result<(), AllocError> {
    let found = pointer(alloc, row.given(), row.text(0))?;
    row.same(rt, found, row.value(1));
    Ok(())
}

/// Ends the test where a text is decoded to another.
fn assert_decoded(
    rt: &impl Abort,
    decoded: Result<String, AllocError>,
    row: &Row<'_>,
) -> Result<(), AllocError> {
    row.same(rt, decoded?.as_str(), row.text(6));
    Ok(())
}

pub fn buffers(rt: &impl Abort, alloc: Global, row: &Row<'_>) -> Result<(), AllocError> {
    let mut buffer = EncodedBuffer::new(alloc);
    for column in 0..5usize {
        buffer.push_str(row.text(column))?;
        if column < 2 {
            buffer.clear();
        }
    }
    row.same(rt, buffer.as_str(), row.text(5));
    row.same(rt, buffer.as_encoded().as_str(), row.text(5));
    assert_decoded(rt, buffer.decode(alloc), row)?;
    assert_decoded(rt, buffer.as_encoded().decode(alloc), row)
}

#[test]
fn the_greatest_index_is_written_after_what_the_buffer_holds(
    rt: HostRuntime,
) -> Result<(), AllocError> {
    let mut buffer = String::from_str(rt.alloc(), "/")?;
    write_index(&mut buffer, 18446744073709551615)?;
    same(&rt, buffer.as_str(), "/18446744073709551615");
    Ok(())
}

/// Ends the test where an escape isn't found after so many other bytes and before so many of `after`, or one is found
/// without it.
fn assert_found(
    rt: &impl Abort,
    alloc: Global,
    (escape, filler): (&str, &str),
    before: usize,
    after: usize,
) -> Result<(), AllocError> {
    let front = ".".repeat(alloc, before)?;
    same(rt, first_escape(front.as_str().as_bytes()), None);
    let rest = filler.repeat(alloc, after)?;
    let text = format!(in alloc; "{front}{escape}{rest}")?;
    let found = first_escape(text.as_str().as_bytes());
    same_at(rt, found, Some(before), text.as_str());
    Ok(())
}

// In texts of up to 25 bytes, and in some that have more than a block of 64.
#[test]
fn the_first_escape_is_found_at_each_place(rt: HostRuntime) -> Result<(), AllocError> {
    let others = b"\xff\xff\xff\xff\xff\xff\xff\xff".as_slice();
    same(&rt, first_escape(others), None);
    for pair in [("~", "/"), ("~", "."), ("/", "/"), ("/", ".")] {
        for others in 0..25usize {
            for before in 0..others.saturating_add(1) {
                let after = others.saturating_sub(before);
                assert_found(&rt, rt.alloc(), pair, before, after)?;
            }
        }
        for before in 60..90usize {
            assert_found(&rt, rt.alloc(), pair, before, 9)?;
        }
    }
    Ok(())
}
