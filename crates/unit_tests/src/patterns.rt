//! Patterns of paths, by glob(7), and lists of ignored files, by gitignore(5).

use crate::row::Row;
use ref_patterns::{Ignore, IgnoreList, Pattern, is_pattern};
use serde_json::Value;
use std::alloc::{AllocError, Global};
use std::process::Abort;

pub const ROWS: &str = r##"
# patterns: 33
// A pattern, a path, and whether it matches it; `null` where the text is no pattern.
["*.json","a.json",true]
["*.json","x/a.json",false]
["**/*.json","a.json",true]
["**/*.json","x/y/a.json",true]
["build/**","build",false]
["build/**","build/a",true]
["build/**","build/x/a",true]
["build/**","rebuild/a",false]
["a/**/b","a/b",true]
["a/**/b","a/x/y/b",true]
["a/**/b","a/xb",false]
["a?c","abc",true]
["a?c","aéc",true]
["a?c","a/c",false]
["a?c","ac",false]
["*","",true]
["*","a/b",false]
["a*b*c","aXbYc",true]
["a*b*c","ac",false]
["x.{json,yaml}","x.yaml",true]
["x.{json,yaml}","x.json",true]
["x.{json,yaml}","x.yml",false]
["{a,b}/{c,d}","b/c",true]
["\\*","*",true]
["\\*","a",false]
["**","a/b",true]
["a**b","aXb",true]
["a**b","a/b",false]
["{a","",null]
["a}","",null]
["{a,{b}}","",null]
["a}{b,c}","",null]
["a{}","a",true]

# wild texts: 4
// A text, and whether it is a pattern and no path.
["a/*",true]
["a?",true]
["{a}",true]
["a/b.json",false]

# ignored paths: 22
// The lines that are given, a path, whether it is that of a folder, and whether it is ignored.
{"given":"# a comment\n*.py[cod]\n!keep.pyc\n/build/\nnotes/*.txt\n**/tmp\na[!b]c\n\\#x\nend\\ \nv[0-9]\n"}
["a.pyc",false,true]
["x/a.pyo",false,true]
["a.pyx",false,false]
["x/keep.pyc",false,false]
["build",true,true]
["build",false,false]
["x/build",true,false]
["notes/a.txt",false,true]
["notes/x/a.txt",false,false]
["x/notes/a.txt",false,false]
["x/y/tmp",false,true]
["tmp",true,true]
["axc",false,true]
["#x",false,true]
["end ",false,true]
["end",false,false]
["v7",false,true]
["vx",false,false]
// Of a class with more than 256 characters any character is taken, whatever comes after them in it.
{"given":"a[Ѐ-Ԁx]b\n"}
["axb",false,true]
["aЉb",false,true]
["ayb",false,true]
["a/b",false,false]
"##;

/// Whether a pattern matches a path, where the text is a pattern.
fn is_matched(alloc: Global, text: &str, path: &str) -> Result<Option<bool>, AllocError> {
    match Pattern::parse(alloc, text)? {
        Some(pattern) => Ok(Some(pattern.matches(alloc, path)?)),
        None => Ok(None),
    }
}

pub fn patterns<R: Abort>(rt: &R, alloc: Global, row: &Row<'_>) -> Result<(), AllocError> {
    let found = is_matched(alloc, row.text(0), row.text(1))?;
    row.same(rt, found, row.value(2).and_then(Value::as_bool));
    Ok(())
}

pub fn wild_texts<R: Abort>(rt: &R, row: &Row<'_>) {
    row.same(rt, is_pattern(row.text(0)), row.is_true(1));
}

/// Whether lines of ignored files have a path.
fn is_ignored(alloc: Global, lines: &str, path: &str, is_folder: bool) -> Result<bool, AllocError> {
    let mut list = IgnoreList::new(alloc);
    list.push(Ignore::parse(alloc, "", lines)?)?;
    list.is_ignored(path, is_folder)
}

pub fn ignored_paths<R: Abort>(rt: &R, alloc: Global, row: &Row<'_>) -> Result<(), AllocError> {
    let lines = row.given().as_str().unwrap_or("");
    let found = is_ignored(alloc, lines, row.text(0), row.is_true(1))?;
    row.same(rt, found, row.is_true(2));
    Ok(())
}
