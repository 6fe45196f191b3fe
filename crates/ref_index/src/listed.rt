//! Documents whose places a caller has listed already, so that they are not walked again.
ghost use Rattle.std.specs.Prelude.{map, OnOk, Some};
ghost use Rattle.ref_definitions.specs.Places.{root};
ghost use Rattle.ref_index.specs.Document.{document_of};
ghost use Rattle.ref_index.specs.Listed.{IsListingOf};
ghost use Rattle.ref_index.specs.Visit.{place_of};
ghost use Rattle.ref_index.specs.Faults.{faults_of};
ghost use Rattle.ref_index.specs.inner.Visits.{AddsPlace, RefusesFor, WalksOver};

use crate::document::Document;
use crate::found::Found;
use crate::queue::Visit;
use crate::walk::{root_of, settle};
use ref_uri::UriFault;
use std::alloc::Global;

// Adds what the root of a document is identified by, is named and wants.
fn note_root<'a>(
    alloc: Global,
    found: &mut Found<'a>,
    number: usize,
    document: &Document<'a>,
) -> Result<(), UriFault>
    ensures added { OnOk result
        (AddsPlace number (Some document.now.uri) (root (document_of document.now))
        found.old found.new) }
    ensures faults { RefusesFor (faults_of (root (document_of document.now))) result }
{
    let root = root_of(alloc, document)?;
    let base = settle(alloc, found, number, &root, Some(&root.outer));
    drop(root);
    drop(base?);
    Ok(())
}

/// Adds what the places of a document, whose number is given, are identified by, are named and want, as `walk` does. Below its
/// root only the places that are listed are visited, in their order.
///
/// Refuses where memory is refused. Of what was found nothing is said then: it is to be let go.
pub(crate) fn note<'a>(
    alloc: Global,
    found: &mut Found<'a>,
    number: usize,
    document: &Document<'a>,
    below: &[Visit<'a, 'a>],
) -> Result<(), UriFault>
    requires { IsListingOf (document_of document.now) (map place_of below.now) }
    ensures { WalksOver (document_of document.now) number found.old found.new result }
{
    note_root(alloc, found, number, document)?;
    for place in below {
        let _ = settle(alloc, found, number, place, None)?;
    }
    Ok(())
}
