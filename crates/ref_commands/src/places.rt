//! `patchsard places`.

use crate::listing::{Listing, numbers_by_document};
use crate::members::is_json;
use crate::opened::{Opened, open_given, reported};
use clap::ArgMatches;
use ref_command_line::{Configured, Console, Stop, say_of};
use ref_files::Format;
use ref_index::Place;
use ref_workspace::world::world_of;
use ref_workspace::{Document, World};

/// Lists each subschema of files. The status is 0, 1 where a file has no places for a fault of its own, and 2 where a
/// path couldn't be read.
pub fn places<'a>(
    rt: &HostRuntime,
    console: &mut Console<'_>,
    given: &ArgMatches<'a>,
    configured: &'a Configured,
) -> Result<u8, Stop> {
    let opened = open_given(rt, given, configured)?;
    let listing = Listing {
        alloc: rt.alloc(),
        is_json: is_json(given),
    };
    let status = listed(rt, console, &opened, listing);
    let has_failed = opened.has_failed;
    drop(opened);
    let status = status?;
    Ok(if has_failed { 2 } else { status })
}

fn listed(
    rt: &HostRuntime,
    console: &mut Console<'_>,
    opened: &Opened<'_>,
    listing: Listing,
) -> Result<u8, Stop> {
    let alloc = rt.alloc();
    let workspace = &opened.workspace;
    opened.begin_judging()?;
    let trees = workspace.mended(alloc);
    opened.watch.clear();
    let trees = trees?;
    opened.begin_judging()?;
    let world = world_of(alloc, workspace, trees.as_slice());
    opened.watch.clear();
    let world = reported(rt, world)?;
    list_all(listing, console, opened, &world)?;
    Ok(report_left_out(rt, workspace.documents()))
}

// Prints which files were left out, and returns the status.
fn report_left_out(rt: &HostRuntime, documents: &[Document]) -> u8 {
    let mut status = 0;
    for document in documents {
        if document.value().is_none() {
            let why = match document.text.format {
                Format::Json => "left out, since it is no JSON: see patchsard lint",
                Format::Yaml => "left out, since it is no YAML: see patchsard lint",
            };
            say_of(rt, document.name.as_str(), why);
            status = 1;
        }
    }
    status
}

fn list_all(
    listing: Listing,
    console: &mut Console<'_>,
    opened: &Opened<'_>,
    world: &World<'_>,
) -> Result<(), Stop> {
    let workspace = &opened.workspace;
    opened.begin_judging()?;
    let description = workspace.description(listing.alloc, true);
    opened.watch.clear();
    let description = description?;
    let described = numbers_by_document(listing.alloc, workspace.len(), &description)?;
    let places = world.places(listing.alloc)?;
    let mut rest = places.as_slice();
    for (number, source) in world.sources.iter().enumerate() {
        let count = count_of(rest, number);
        if let Some(document) = workspace.documents().get(*source) {
            let own = rest.get(..count).unwrap_or(rest);
            if !description.is_described_at(*source) {
                listing.push_document(&mut console.out, document, own)?;
            }
            if let Some(list) = described.get(*source) {
                let own = list.as_slice();
                listing.push_described(&mut console.out, document, own, &description)?;
            }
            console.pass()?;
        }
        rest = rest.get(count..).unwrap_or(&[]);
    }
    Ok(())
}

// How many places come first that are those of a document.
fn count_of(places: &[Place<'_>], document: usize) -> usize {
    let mut count: usize = 0;
    for place in places {
        if place.document != document {
            break;
        }
        count = count.saturating_add(1);
    }
    count
}
