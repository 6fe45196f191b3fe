//! Which wants are open: those whose URIs mean no place, in the documents walked so far nor in a parent's.
ghost use Rattle.std.specs.Prelude.{◌≡◌, ◌∷◌, ◌<◌, ◌≤◌, ◌-◌, map, take, drop, vec_len, slice_get, is_some, Some, true, false};
ghost use Rattle.std.specs.List.{AllByRecursion};
ghost use Rattle.ref_definitions.specs.World.{Layer};
ghost use Rattle.ref_definitions.specs.Resources.{meant_place};
ghost use Rattle.ref_definitions.specs.Wants.{Want as Wanted, is_open};
ghost use Rattle.ref_index.specs.Spots.{numbered_resources};
ghost use Rattle.ref_index.specs.inner.Found.{FoundLists, Holds};

use crate::found::Found;
use crate::index::Index;
use ref_uri::Uri;
use std::rc::Rc;

// Whether a URI means a place in a parent.
fn is_known_above(parents: &[&Index<'_>], uri: &str) -> bool
    ensures { result ≡ is_some (meant_place (map (λ p. p.now) parents.now) uri.now) }
{
    for parent in parents {
        if parent.resource(uri).is_some() {
            return true;
        }
    }
    false
}

/// Whether a URI means a place, in what was found so far or in a parent. A look-up in a hashed set, and then in each parent's
/// table; takes no memory.
pub fn has_meaning(found: &Found<'_>, parents: &[&Index<'_>], uri: &Rc<Uri>) -> bool
    ensures value { (layer : Layer) (held : FoundLists)
        → Holds layer found.now held → held.resources ≡ numbered_resources layer
        → result ≡ is_some (meant_place (layer ∷ map (λ p. p.now) parents.now) uri.now.value) }
{
    found.identified.contains(uri) || is_known_above(parents, uri.as_str())
}

/// The number of the first want that is open, from a number on: of those before it none is. The number of wants where none
/// is. A look-up for each want that it passes; takes no memory.
pub fn first_open(found: &Found<'_>, parents: &[&Index<'_>], from: usize) -> usize
    requires { from ≤ vec_len found.now.wants }
    ensures from { from ≤ result }
    ensures within { result ≤ vec_len found.now.wants }
    ensures met { (layer : Layer) (held : FoundLists)
        → Holds layer found.now held → held.resources ≡ numbered_resources layer
        → AllByRecursion (λ w. is_open (layer ∷ map (λ p. p.now) parents.now) w ≡ false)
        (drop from (take result held.wants)) }
    ensures open { (layer : Layer) (held : FoundLists) (w : Wanted)
        → Holds layer found.now held → held.resources ≡ numbered_resources layer
        → slice_get held.wants result ≡ Some w
        → is_open (layer ∷ map (λ p. p.now) parents.now) w ≡ true }
{
    let mut number = from;
    while number < found.wants.len() {
        let want = &found.wants[number];
        if !has_meaning(found, parents, &want.uri) {
            return number;
        }
        number += 1;
    }
    number
}
