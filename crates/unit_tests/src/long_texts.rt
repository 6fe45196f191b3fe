//! Texts that are compared with the grammar, or that are long.
ghost use Rattle.std.specs.Prelude.{◌<◌, length};

use crate::asserts::same_at;
use crate::grammar::accepts;
use crate::row::Row;
use crate::uris::{meaning, target};
use ref_uri::{Uri, UriRef, uri};
use std::alloc::{AllocError, Global};
use std::process::Abort;
use std::test::Fail;

pub const ROWS: &str = r##"
# places: 8
// A front, and pieces that are at each place of a text after it: a bad byte, a lone `%`, a triple, marks and none.
["",""," ","%","%4","%7e",":","@","~","=","?","#","é","`","/"]
["/",""," ","%","%4","%7e",":","@","~","=","?","#","é","`","/"]
["s:",""," ","%","%4","%7e",":","@","~","=","?","#","é","`","/"]
["//",""," ","%","%4","%7e",":","@","~","=","?","#","é","`","/"]
["//u@",""," ","%","%4","%7e",":","@","~","=","?","#","é","`","/"]
["?",""," ","%","%4","%7e",":","@","~","=","?","#","é","`","/"]
["#",""," ","%","%4","%7e",":","@","~","=","?","#","é","`","/"]
["/%41",""," ","%","%4","%7e",":","@","~","=","?","#","é","`","/"]

# short texts: 2
// A front, an alphabet, how many of its characters are after the front at most, how many such texts there are, and how many of
// them are references, by a regular expression.
["","a:/?#@[]%1",5,111111,13326]
["//","[]v1.:@",6,137257,7619]

# repeated references: 1
// A piece, how often it is in a path, and the path that this leads to: another piece, how often it is, and the rest.
// A path of `..` and `a` in turn leads to `a` at the root.
["/../a",1500,"/a",1,""]

# repeated texts: 2
// The same of texts.
// Each `..` after `/a/%2e%2e` takes `%2e%2e` away, so each `a` stays. Without those `..`, only the last `a` stays.
["/a/%2e%2e/..",1500,"/a",1500,"/"]
["/%2e%2e/a",1500,"/a",1,""]

# names of each length: 15
// What is after the name, what the target begins with, whether the name stays in it, and what is after that.
["/../x","http://h/",false,"x"]
["/%2e%2E/x","http://h/",false,"x"]
["/%2E%2e","http://h/",false,""]
["/%2E%2e/name-of-a-file-of-some-length","http://h/",false,"name-of-a-file-of-some-length"]
["/%2E/name-of-a-file-of-some-length","http://h/g",true,"/name-of-a-file-of-some-length"]
["/%2e","http://h/g",true,"/"]
["%2e%2E","http://h/g",true,".."]
["%2e%2E/x","http://h/g",true,"../x"]
["/..","http://h/",false,""]
["/./x","http://h/g",true,"/x"]
["/.","http://h/g",true,"/"]
["/..x","http://h/g",true,"/..x"]
["/.x/y.","http://h/g",true,"/.x/y."]
["/%7e%2f","http://h/g",true,"/~%2F"]
["","http://h/g",true,""]
"##;

/// Ends the test where a text is a reference and the grammar has it otherwise. Whether it is one.
fn agrees(rt: &impl Abort, text: &str) -> bool {
    let is_reference = UriRef::parse(text).is_ok();
    same_at(rt, is_reference, accepts(text), text);
    is_reference
}

/// A text, so many `g`, and another text.
fn around(alloc: Global, front: &str, count: usize, after: &str) -> Result<String, AllocError> {
    let amid = "g".repeat(alloc, count)?;
    format!(in alloc; "{front}{amid}{after}")
}

/// A bad byte, a lone `%`, a triple and marks at each place of a component, and components of each length: texts that
/// reach from one block of sixteen bytes into the next. Each piece is after a front and up to 40 `g`, with `g` after it
/// up to 40 in all and without.
pub fn places(rt: &impl Abort, alloc: Global, row: &Row<'_>) -> Result<(), AllocError> {
    for column in 1..row.len() {
        for count in 0..=40usize {
            let text = around(alloc, row.text(0), count, row.text(column))?;
            agrees(rt, text.as_str());
            let text = around(alloc, text.as_str(), 40usize.saturating_sub(count), "")?;
            agrees(rt, text.as_str());
        }
    }
    Ok(())
}

/// The text of this number after a front: its digits are the characters, the lowest first.
fn write_number(
    text: &mut String,
    front: &str,
    alphabet: &[u8],
    len: usize,
    number: usize,
) -> Result<(), AllocError>
    requires { 0 < length alphabet.now }
{
    text.clear();
    text.push_str(front)?;
    let mut rest = number;
    for _ in 0..len {
        text.push(alphabet[rest % alphabet.len()] as char)?;
        rest /= alphabet.len();
    }
    Ok(())
}

/// Of the texts that begin so, up to `longest` characters of the alphabet after it: how many there are, and how many are
/// references. Each is compared with the grammar.
fn compare_with_the_grammar(
    rt: &impl Abort,
    alloc: Global,
    front: &str,
    alphabet: &[u8],
    longest: usize,
) -> Result<(usize, usize), AllocError>
    requires { 0 < length alphabet.now }
{
    let mut texts = 0usize;
    let mut references = 0usize;
    let mut text = String::new(alloc);
    let mut count = 1usize;
    for len in 0..=longest {
        for number in 0..count {
            write_number(&mut text, front, alphabet, len, number)?;
            texts = texts.wrapping_add(1);
            if agrees(rt, text.as_str()) {
                references = references.wrapping_add(1);
            }
        }
        count = count.saturating_mul(alphabet.len());
    }
    Ok((texts, references))
}

/// Every short text of an alphabet.
pub fn short_texts(rt: &impl Abort, alloc: Global, row: &Row<'_>) -> Result<(), AllocError> {
    let alphabet = row.text(1).as_bytes();
    if alphabet.is_empty() {
        row.same(rt, "no alphabet", row.text(1));
        return Ok(());
    }
    let front = row.text(0);
    let counts = compare_with_the_grammar(rt, alloc, front, alphabet, row.count(2))?;
    row.same(rt, counts, (row.count(3), row.count(4)));
    Ok(())
}

/// Where a path leads from `http://h/b`, as a reference or as a text.
fn led(alloc: Global, path: &str, row: &Row<'_>) -> Result<Uri, Fail> {
    if row.table() == "repeated references" {
        target(alloc, "http://h/b", path)
    } else {
        meaning(alloc, "http://h/b", path)
    }
}

/// A path that is a piece again and again, and where it leads: to `http://h` with two texts after it.
pub fn repeated(rt: &impl Abort, alloc: Global, row: &Row<'_>) -> Result<(), Fail> {
    let path = row.text(0).repeat(alloc, row.count(1))?;
    let uri = led(alloc, path.as_str(), row)?;
    let kept = row.text(2).repeat(alloc, row.count(3))?;
    let path = uri.as_str().strip_prefix("http://h").unwrap_or("");
    row.same(rt, path.strip_prefix(kept.as_str()), row.optional(4));
    Ok(())
}

/// Ends the test where a text has another meaning against `http://h/b`, or alone after `http://h`.
fn assert_meant(
    rt: &impl Abort,
    alloc: Global,
    text: &str,
    expected: &str,
    row: &Row<'_>,
) -> Result<(), Fail> {
    let uri = meaning(alloc, "http://h/b", text)?;
    row.same(rt, uri.as_str(), expected);
    let text = format!(in alloc; "http://h{text}")?;
    let uri = uri::from_str(alloc, text.as_str())?;
    row.same(rt, uri.as_str(), expected);
    Ok(())
}

/// Dot segments and triples after a name of each length, so many `g` and one more, which stays or goes.
pub fn names(rt: &impl Abort, alloc: Global, row: &Row<'_>) -> Result<(), Fail> {
    for len in 0..=40usize {
        let text = around(alloc, "/g", len, row.text(0))?;
        let kept = if row.is_true(2) { len } else { 0 };
        let expected = around(alloc, row.text(1), kept, row.text(3))?;
        assert_meant(rt, alloc, text.as_str(), expected.as_str(), row)?;
    }
    Ok(())
}
