//! References and URIs: the examples of RFC 3986, section 5.4, and what texts mean.

use crate::asserts::{assert_displayed, assert_result, same};
use crate::lists::hash_of;
use crate::row::Row;
use ref_uri::{ParseError, ResolveError, ResolveFault, Uri, UriError, UriParseFault, UriRef, uri};
use std::alloc::{AllocError, Global};
use std::process::Abort;
use std::test::Fail;

pub const ROWS: &str = r##"
# references: 51
// A text, and whether it is a reference.
["","reference"]
["a:b","reference"]
["a:","reference"]
["http://[v1.x]/","reference"]
["http://[::1]:/","reference"]
["//a:80","reference"]
["./a:b","reference"]
["%41?%2f#%aF","reference"]
["?","reference"]
["a:/.//c","reference"]
["-","reference"]
["a b","syntax"]
["1a:b","syntax"]
["%4","syntax"]
["%4g","syntax"]
[":a","syntax"]
["a#b#c","syntax"]
["//[","syntax"]
["//[]","syntax"]
["//[v.x]","syntax"]
["//a:b","syntax"]
["//a@b@c","syntax"]
["[","syntax"]
["é","syntax"]
["a\\b","syntax"]
["<a>","syntax"]
["-:a","syntax"]
["%/41","syntax"]

// Authorities that are none.
["//a:b/p","syntax"]
["//1:2:3/p","syntax"]
["//u@a@b/p","syntax"]
["//[/p","syntax"]
["//]/p","syntax"]
["//[]/p","syntax"]
["//[::1/p","syntax"]
["//[::1]a/p","syntax"]
["//[::1]:a/p","syntax"]
["//[::1]@a/p","syntax"]
["//a[::1]/p","syntax"]
["//[v.x]/p","syntax"]
["//[v1]/p","syntax"]
["//[v1.]/p","syntax"]
["//[v1x]/p","syntax"]
["//[vg.x]/p","syntax"]
["//[v1.%41]/p","syntax"]
["//[::g]/p","syntax"]
["//%4/p","syntax"]
["//u%4@/p","syntax"]
["//a:%41/p","syntax"]
["//u@a:b/p","syntax"]
["//u@[/p","syntax"]

# components: 19
// A reference, its scheme, authority, path, query and fragment, and what precedes its fragment.
["foo://u@example.com:8042/over/there?name=ferret#nose","foo","u@example.com:8042","/over/there","name=ferret","nose","foo://u@example.com:8042/over/there?name=ferret"]
["//?#",null,"","","","","//?"]
["a+1://u%2F:p@h%20:8/%41/b?%3F/?#%23/?","a+1","u%2F:p@h%20:8","/%41/b","%3F/?","%23/?","a+1://u%2F:p@h%20:8/%41/b?%3F/?"]

// Authorities before a path.
["///p",null,"","/p",null,null,"///p"]
["//:/p",null,":","/p",null,null,"//:/p"]
["//a:/p",null,"a:","/p",null,null,"//a:/p"]
["//a:80/p",null,"a:80","/p",null,null,"//a:80/p"]
["//u@/p",null,"u@","/p",null,null,"//u@/p"]
["//u@:/p",null,"u@:","/p",null,null,"//u@:/p"]
["//:@/p",null,":@","/p",null,null,"//:@/p"]
["//u:1@a:1/p",null,"u:1@a:1","/p",null,null,"//u:1@a:1/p"]
["//1:2:3@/p",null,"1:2:3@","/p",null,null,"//1:2:3@/p"]
["//a%41:@b/p",null,"a%41:@b","/p",null,null,"//a%41:@b/p"]
["//[::1]/p",null,"[::1]","/p",null,null,"//[::1]/p"]
["//[::1]:/p",null,"[::1]:","/p",null,null,"//[::1]:/p"]
["//u@[1.2:f]:80/p",null,"u@[1.2:f]:80","/p",null,null,"//u@[1.2:f]:80/p"]
["//[v1.x]/p",null,"[v1.x]","/p",null,null,"//[v1.x]/p"]
["//[V1f.a:b]:8/p",null,"[V1f.a:b]:8","/p",null,null,"//[V1f.a:b]:8/p"]
["//u:@[vF.:]/p",null,"u:@[vF.:]","/p",null,null,"//u:@[vF.:]/p"]

# URIs: 2
// The same of a URI.
["http://a/b?c","http","a","/b","c",null,"http://a/b?c"]
["http://a/b?c#d/%7e?","http","a","/b","c","d/%7e?","http://a/b?c"]

# parsed URIs: 4
// A text, and the URI that it is, or why it is none.
["a:b","a:b"]
["http://a/b?c#d/%7e?","http://a/b?c#d/%7e?"]
["/a","no scheme"]
["a b","not a URI reference of RFC 3986"]

# fragments: 5
// A URI, a fragment that is put into it, or `null` for none, another, why that is refused, and the URI then.
["http://a/b?c",null,"d/%7e?",null,"http://a/b?c#d/%7e?"]
["http://a/b?c","d/%7e?","#","syntax","http://a/b?c#d/%7e?"]
["http://a/b?c","d/%7e?","",null,"http://a/b?c#"]
["http://a/b?c","",null,null,"http://a/b?c"]
["http://a/b?c","d/%7e?",null,null,"http://a/b?c"]

# targets: 42
// A base, a reference and its target.
// RFC 3986, section 5.4.1.
["http://a/b/c/d;p?q","g:h","g:h"]
["http://a/b/c/d;p?q","g","http://a/b/c/g"]
["http://a/b/c/d;p?q","./g","http://a/b/c/g"]
["http://a/b/c/d;p?q","g/","http://a/b/c/g/"]
["http://a/b/c/d;p?q","/g","http://a/g"]
["http://a/b/c/d;p?q","//g","http://g"]
["http://a/b/c/d;p?q","?y","http://a/b/c/d;p?y"]
["http://a/b/c/d;p?q","g?y","http://a/b/c/g?y"]
["http://a/b/c/d;p?q","#s","http://a/b/c/d;p?q#s"]
["http://a/b/c/d;p?q","g#s","http://a/b/c/g#s"]
["http://a/b/c/d;p?q","g?y#s","http://a/b/c/g?y#s"]
["http://a/b/c/d;p?q",";x","http://a/b/c/;x"]
["http://a/b/c/d;p?q","g;x","http://a/b/c/g;x"]
["http://a/b/c/d;p?q","g;x?y#s","http://a/b/c/g;x?y#s"]
["http://a/b/c/d;p?q","","http://a/b/c/d;p?q"]
["http://a/b/c/d;p?q",".","http://a/b/c/"]
["http://a/b/c/d;p?q","./","http://a/b/c/"]
["http://a/b/c/d;p?q","..","http://a/b/"]
["http://a/b/c/d;p?q","../","http://a/b/"]
["http://a/b/c/d;p?q","../g","http://a/b/g"]
["http://a/b/c/d;p?q","../..","http://a/"]
["http://a/b/c/d;p?q","../../","http://a/"]
["http://a/b/c/d;p?q","../../g","http://a/g"]

// RFC 3986, section 5.4.2.
["http://a/b/c/d;p?q","../../../g","http://a/g"]
["http://a/b/c/d;p?q","../../../../g","http://a/g"]
["http://a/b/c/d;p?q","/./g","http://a/g"]
["http://a/b/c/d;p?q","/../g","http://a/g"]
["http://a/b/c/d;p?q","g.","http://a/b/c/g."]
["http://a/b/c/d;p?q",".g","http://a/b/c/.g"]
["http://a/b/c/d;p?q","g..","http://a/b/c/g.."]
["http://a/b/c/d;p?q","..g","http://a/b/c/..g"]
["http://a/b/c/d;p?q","./../g","http://a/b/g"]
["http://a/b/c/d;p?q","./g/.","http://a/b/c/g/"]
["http://a/b/c/d;p?q","g/./h","http://a/b/c/g/h"]
["http://a/b/c/d;p?q","g/../h","http://a/b/c/h"]
["http://a/b/c/d;p?q","g;x=1/./y","http://a/b/c/g;x=1/y"]
["http://a/b/c/d;p?q","g;x=1/../y","http://a/b/c/y"]
["http://a/b/c/d;p?q","g?y/./x","http://a/b/c/g?y/./x"]
["http://a/b/c/d;p?q","g?y/../x","http://a/b/c/g?y/../x"]
["http://a/b/c/d;p?q","g#s/./x","http://a/b/c/g#s/./x"]
["http://a/b/c/d;p?q","g#s/../x","http://a/b/c/g#s/../x"]
["http://a/b/c/d;p?q","http:g","http:g"]

# references without a target: 1
// A base, a reference, and why it has no target.
["/a","b","the base has no scheme"]

# normal forms: 5
// A reference and its normal form.
["HTTP://Ex%41mple.com/%7efoo/./bar/../x%2f","http://example.com/~foo/x%2F"]
["http://a:/","http://a/"]
["http://a:80","http://a:80"]
["a/../%7e","a/../~"]
["a:/.//c","a:/.//c"]

# meanings: 29
// A text and the URI that it means, which is in normal form.
["","json-schema:///"]
["a/../b#c","json-schema:///b#c"]
["//A/%7e","json-schema://a/~"]
["?q","json-schema:///?q"]
["HTTP://Ex%41mple.com/%7efoo/./bar/../x%2f","http://example.com/~foo/x%2F"]
["http://a:/","http://a/"]
["http://a:80","http://a:80"]
["a:/.//c","a:/.//c"]

// URIs that differ in one place from such as are in normal form.
["http://a/b/c?d#e","http://a/b/c?d#e"]
["urn:a:B","urn:a:B"]
["a:","a:"]
["file:///b","file:///b"]
["hTtp://a/b","http://a/b"]
["http://aB/c","http://ab/c"]
["http://a:/b","http://a/b"]
["http://a:80/b","http://a:80/b"]
["http://u@a/b","http://u@a/b"]
["http://U@A/b","http://U@a/b"]
["http://[::A]/b","http://[::a]/b"]
["http://a%7E/b","http://a~/b"]
["http://a/%7Eb","http://a/~b"]
["http://a/%2Fb","http://a/%2Fb"]
["http://a/.b/..c/d.","http://a/.b/..c/d."]
["http://a/./b","http://a/b"]
["http://a/b/..","http://a/"]
["http://a/b?%7e","http://a/b?~"]
["http://a/b?../c","http://a/b?../c"]
["http://a/b#%2f","http://a/b#%2F"]
["http://a/b#./c","http://a/b#./c"]

# faults: 3
// A text, and why it means no URI.
["a b","Invalid URI reference 'a b': not a URI reference of RFC 3986"]
["1a:b","Invalid URI reference '1a:b': not a URI reference of RFC 3986"]
["%4","Invalid URI reference '%4': not a URI reference of RFC 3986"]

# meanings against bases: 48
// A base, a text and the URI that the text means against it.
["http://a/b/c/d;p?q","../g","http://a/b/g"]
["http://a/b/c/d;p?q","../../../g","http://a/g"]
["http://a/b/c/d;p?q","","http://a/b/c/d;p?q"]
["http://a/b/c/d;p?q","?y","http://a/b/c/d;p?y"]
["http://a/b/c/d;p?q","#s","http://a/b/c/d;p?q#s"]
["http://a/b/c/d;p?q","//g","http://g"]
["http://a/b/c/d;p?q","http:g","http:g"]
["http://a/p/r","../s","http://a/s"]
["http://A/b#x","#x","http://A/b#x"]
["http://A/b#x","#y","http://a/b#y"]
["http://a/b#x","c","http://a/c"]
["a:/b","/.//c","a:/.//c"]
["a:b/c","../d","a:/d"]
["a:/b","%2e%2E/c","a:/c"]

// What these texts mean alone.
["http://x/y?z","http://a/b/c?d#e","http://a/b/c?d#e"]
["http://x/y?z","urn:a:B","urn:a:B"]
["http://x/y?z","a:","a:"]
["http://x/y?z","file:///b","file:///b"]
["http://x/y?z","hTtp://a/b","http://a/b"]
["http://x/y?z","http://aB/c","http://ab/c"]
["http://x/y?z","http://a:/b","http://a/b"]
["http://x/y?z","http://a:80/b","http://a:80/b"]
["http://x/y?z","http://u@a/b","http://u@a/b"]
["http://x/y?z","http://U@A/b","http://U@a/b"]
["http://x/y?z","http://[::A]/b","http://[::a]/b"]
["http://x/y?z","http://a%7E/b","http://a~/b"]
["http://x/y?z","http://a/%7Eb","http://a/~b"]
["http://x/y?z","http://a/%2Fb","http://a/%2Fb"]
["http://x/y?z","http://a/.b/..c/d.","http://a/.b/..c/d."]
["http://x/y?z","http://a/./b","http://a/b"]
["http://x/y?z","http://a/b/..","http://a/"]
["http://x/y?z","http://a/b?%7e","http://a/b?~"]
["http://x/y?z","http://a/b?../c","http://a/b?../c"]
["http://x/y?z","http://a/b#%2f","http://a/b#%2F"]
["http://x/y?z","http://a/b#./c","http://a/b#./c"]

// Dot segments go from a path as it is given, and then those go that it has once its triples are decoded.
["http://a/b/c","x/%2e%2e/../y","http://a/b/x/y"]
["http://a/b/c","x/../%2e%2e/y","http://a/y"]
["http://a/b/c","x/.%2E/../y?%2e%2e","http://a/b/x/y?.."]
["http://a/b/c","x/%2e","http://a/b/x/"]
["http://a/b/c","x/%2e%2E#%2e","http://a/b/#."]
["http://a/b/c","x/%7e%2e/%2f","http://a/b/x/~./%2F"]
["http://a/b/c","%2e%2e/%2e%2e/%2e%2e","http://a/"]
["http://a/x/%2e%2e/b","../c","http://a/x/c"]
["http://a/x/%2e%2e/b","c","http://a/c"]
["http://a/x/../%2e%2e/y","?q","http://a/y?q"]
["a:b/%2e%2e/c","d","a:/d"]
["a:/b","/x/%2e%2e//c","a:/.//c"]
["a:/b","/.//%2e%2e/c","a:/c"]

# faults against bases: 2
// A base, a text, and why the text means no URI against it.
["/a","b","Failed to resolve 'b' against '/a': the base has no scheme"]
["http://a","%","Invalid URI reference '%': not a URI reference of RFC 3986"]
"##;

#[test]
fn errors_are_displayed(rt: HostRuntime) -> Result<(), AllocError> {
    let error = UriError::Parse {
        uri: String::from_str(rt.alloc(), "/a")?,
        is_reference: false,
        error: ParseError::NoScheme,
    };
    assert_displayed(&rt, rt.alloc(), &error, "Invalid URI '/a': no scheme")?;
    assert_displayed(&rt, rt.alloc(), &ParseError::NoScheme, "no scheme")
}

#[test]
fn errors_are_compared(rt: HostRuntime) -> Result<(), Fail> {
    let fault = Uri::parse(rt.alloc(), "/a").err();
    let wanted = UriParseFault::Invalid(ParseError::NoScheme);
    same(&rt, fault, Some(wanted));
    let base = UriRef::parse("/a")?;
    let fault = UriRef::parse("b")?.resolve_against(rt.alloc(), base).err();
    let wanted = ResolveFault::Invalid(ResolveError::BaseWithoutScheme);
    same(&rt, fault, Some(wanted));
    Ok(())
}

/// What is said of a text that is no reference, or no URI.
fn kind_of(error: ParseError) -> &'static str {
    match error {
        ParseError::Syntax => "syntax",
        ParseError::NoScheme => "no scheme",
    }
}

pub fn references(rt: &impl Abort, row: &Row<'_>) {
    let found = match UriRef::parse(row.text(0)) {
        Ok(_) => "reference",
        Err(error) => kind_of(error),
    };
    row.same(rt, found, row.text(1));
}

/// Ends the test where a text, its scheme, authority, path, query and fragment aren't those of the first six columns.
fn assert_texts(rt: &impl Abort, texts: [Option<&str>; 6], row: &Row<'_>) {
    for column in 0..6usize {
        row.same(rt, texts[column], row.optional(column));
    }
}

/// Ends the test where a reference has other components than its row.
pub fn components(rt: &impl Abort, row: &Row<'_>) -> Result<(), Fail> {
    let reference = UriRef::parse(row.text(0))?;
    let texts = [
        Some(reference.as_str()),
        reference.scheme(),
        reference.authority(),
        Some(reference.path()),
        reference.query(),
        reference.fragment(),
    ];
    assert_texts(rt, texts, row);
    let has = (reference.has_scheme(), reference.has_fragment());
    let wanted = (row.optional(1).is_some(), row.optional(5).is_some());
    row.same(rt, has, wanted);
    let stripped = reference.strip_fragment();
    row.same(rt, stripped.as_str(), row.text(6));
    let differs = [stripped < reference, stripped != reference];
    row.same(rt, differs, [reference.has_fragment(); 2]);
    Ok(())
}

/// Ends the test where a URI has other components than its row, or other texts without its fragment or as a reference.
fn assert_uri(rt: &impl Abort, uri: &Uri, row: &Row<'_>) {
    let texts = [
        Some(uri.as_str()),
        Some(uri.scheme()),
        uri.authority(),
        Some(uri.path()),
        uri.query(),
        uri.fragment(),
    ];
    assert_texts(rt, texts, row);
    let has = (uri.has_scheme(), uri.has_fragment());
    row.same(rt, has, (true, row.optional(5).is_some()));
    row.same(rt, uri.strip_fragment().as_str(), row.text(6));
    row.same(rt, uri.borrow().as_str(), row.text(0));
}

pub fn uris(rt: &impl Abort, alloc: Global, row: &Row<'_>) -> Result<(), Fail> {
    let uri = Uri::parse(alloc, row.text(0))?;
    assert_uri(rt, &uri, row);
    Ok(assert_displayed(rt, alloc, &uri.borrow(), row.text(0))?)
}

/// Why a fragment was not put in the place of a URI's, if it wasn't.
fn refusal(uri: &mut Uri, fragment: Option<&str>) -> Result<Option<&'static str>, AllocError> {
    match uri.set_fragment(fragment) {
        Ok(()) => Ok(None),
        Err(UriParseFault::Invalid(error)) => Ok(Some(kind_of(error))),
        Err(UriParseFault::Memory(error)) => Err(error),
    }
}

/// Puts the fragments of a row into a URI.
fn assert_put(rt: &impl Abort, uri: &mut Uri, row: &Row<'_>) -> Result<(), AllocError> {
    row.same(rt, refusal(uri, row.optional(1))?, None);
    row.same(rt, refusal(uri, row.optional(2))?, row.optional(3));
    row.same(rt, uri.as_str(), row.text(4));
    Ok(())
}

/// Puts the fragments of a row into a URI, and drops them. Ends the test where it isn't equal to the one without fragment just
/// where it has none, or follows that else, or has another text once they are dropped.
pub fn fragments(rt: &impl Abort, alloc: Global, row: &Row<'_>) -> Result<(), Fail> {
    let mut uri = Uri::parse(alloc, row.text(0))?;
    let plain = uri.clone()?;
    assert_put(rt, &mut uri, row)?;
    row.same(rt, plain < uri, uri.has_fragment());
    row.same(rt, plain == uri, !uri.has_fragment());
    let is_alike = plain != uri || hash_of(&plain) == hash_of(&uri);
    row.same(rt, is_alike, true);
    uri.drop_fragment();
    row.same(rt, uri.as_str(), row.text(0));
    Ok(())
}

/// What a reference leads to against a base.
pub fn target(alloc: Global, base: &str, reference: &str) -> Result<Uri, Fail> {
    let base = UriRef::parse(base)?;
    Ok(UriRef::parse(reference)?.resolve_against(alloc, base)?)
}

/// Ends the test where a base and a text lead to another URI.
pub fn leads(rt: &impl Abort, found: Result<Uri, Fail>, row: &Row<'_>) -> Result<(), Fail> {
    row.same(rt, found?.as_str(), row.text(2));
    Ok(())
}

pub fn normal_forms(rt: &impl Abort, alloc: Global, row: &Row<'_>) -> Result<(), Fail> {
    let form = UriRef::parse(row.text(0))?.normalize(alloc)?;
    row.same(rt, form.as_str(), row.text(1));
    Ok(())
}

pub fn meanings(rt: &impl Abort, alloc: Global, row: &Row<'_>) -> Result<(), Fail> {
    let uri = uri::from_str(alloc, row.text(0))?;
    row.same(rt, uri.as_str(), row.text(1));
    row.same(rt, uri.normalize(alloc)? == uri, true);
    Ok(())
}

/// What a text means against a base.
pub fn meaning(alloc: Global, base: &str, text: &str) -> Result<Uri, Fail> {
    Ok(uri::resolve_against(alloc, UriRef::parse(base)?, text)?)
}

/// Ends the test where a text, or where there is a base a text against it, gives another result.
pub fn assert_row(rt: &impl Abort, alloc: Global, row: &Row<'_>) -> Result<(), AllocError> {
    match row.table() {
        "parsed URIs" => assert_result(rt, alloc, Uri::parse(alloc, row.text(0)), row.text(1)),
        "faults" => assert_result(rt, alloc, uri::from_str(alloc, row.text(0)), row.text(1)),
        _ => match UriRef::parse(row.text(0)) {
            Ok(base) => assert_against(rt, alloc, base, row),
            Err(_) => {
                row.same(rt, "no base", row.text(0));
                Ok(())
            }
        },
    }
}

/// The same of a text against a base.
fn assert_against(
    rt: &impl Abort,
    alloc: Global,
    base: UriRef<'_>,
    row: &Row<'_>,
) -> Result<(), AllocError> {
    if row.table() == "faults against bases" {
        let answer = uri::resolve_against(alloc, base, row.text(1));
        return assert_result(rt, alloc, answer, row.text(2));
    }
    match UriRef::parse(row.text(1)) {
        Ok(reference) => assert_result(
            rt,
            alloc,
            reference.resolve_against(alloc, base),
            row.text(2),
        ),
        Err(_) => {
            row.same(rt, "no reference", row.text(1));
            Ok(())
        }
    }
}
