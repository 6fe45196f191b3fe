//! The components of documents.
ghost use Rattle.std.specs.Prelude.{◌≡◌, ◌≤◌, ◌+◌, length, map, take};
ghost use Rattle.ref_paths.specs.Segment.{part_of};
ghost use Rattle.ref_messages.specs.Components.{holds_named, parts_after, parts_of_component};

use ref_parts::path::JsonPointerSegment;

/// The path of the component that holds the end of a path of a document, which is the root's where none does. A component is what a kind and a name lead
/// to below `components` (OpenAPI 3.1, 4.8.7), and a name below `definitions`, `parameters`, `responses` and `$defs`.
pub fn component_of<'p, 's>(path: &'p [JsonPointerSegment<'s>]) -> &'p [JsonPointerSegment<'s>]
    ensures value { result.now ≡ take (parts_of_component (map part_of path.now)) path.now }
{
    &path[..parts_of_component(path)]
}

fn parts_of_component(path: &[JsonPointerSegment<'_>]) -> usize
    ensures value { result ≡ parts_of_component (map part_of path.now) }
    ensures within { result ≤ length path.now }
{
    match path {
        [] => 0,
        [first, rest @ ..] => match first {
            JsonPointerSegment::Key(key) => parts_after(key.as_str(), rest.len()),
            JsonPointerSegment::Index(_) => 0,
        },
    }
}

// How many parts a component's path has that begins with a key, where so many parts come after that.
fn parts_after(key: &str, more: usize) -> usize
    ensures value { result ≡ parts_after key.now more }
    ensures within { result ≤ 1 + more }
{
    if key == "components" {
        if more >= 2 { 3 } else { 0 }
    } else if holds_named(key) && more >= 1 {
        2
    } else {
        0
    }
}

fn holds_named(key: &str) -> bool
    ensures { result ≡ holds_named key.now }
{
    key == "definitions" || key == "parameters" || key == "responses" || key == "$defs"
}
