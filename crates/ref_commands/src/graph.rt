//! `patchsard graph`.
use crate::left_out::say_broken;
use crate::opened::{Opened, open_given, reported};
use clap::ArgMatches;
use ref_command_line::{Configured, Console, Stop};
use ref_messages::{Edge, Graph, push_dot, push_member, push_mermaid};
use ref_workspace::{Shape, graph_of};
use std::alloc::{AllocError, Global};

/// Draws which file refers to which, or which component. The status is 0, 1 where a file is neither JSON nor YAML, or 2 where a path couldn't be read.
pub fn graph<'a>(
    rt: &HostRuntime,
    console: &mut Console<'_>,
    given: &ArgMatches<'a>,
    configured: &'a Configured,
) -> Result<u8, Stop> {
    let opened = open_given(rt, given, configured)?;
    let drawn = draw(rt, console, given, &opened);
    let has_failed = opened.has_failed;
    let is_any_broken = say_broken(rt, opened.workspace.documents());
    drop(opened);
    drawn?;
    Ok(if has_failed {
        2
    } else if is_any_broken {
        1
    } else {
        0
    })
}

fn draw(
    rt: &HostRuntime,
    console: &mut Console<'_>,
    given: &ArgMatches<'_>,
    opened: &Opened<'_>,
) -> Result<(), Stop> {
    let shape = Shape {
        has_components: given.get_flag("components"),
        is_connected: given.get_flag("connected"),
    };
    opened.begin_judging()?;
    let graph = graph_of(rt.alloc(), &opened.workspace, shape);
    opened.watch.clear();
    let graph = reported(rt, graph)?;
    let out = &mut console.out;
    let drawn = match given.get_str("format") {
        Some("dot") => push_dot(out, &graph),
        Some("json") => push_object(rt.alloc(), out, &graph),
        _ => push_mermaid(out, &graph),
    };
    drop(graph);
    Ok(drawn?)
}

// Adds the graph as an object: `files`, with their components where these are drawn, `missing`, and `references`, each `from` one of these `to` one of these, how many there are as `count`, and how
// many of them are unresolvable as `broken`.
fn push_object(alloc: Global, out: &mut String, graph: &Graph) -> Result<(), AllocError> {
    push_names(alloc, out, "{\"files\":[", graph, false)?;
    push_names(alloc, out, "],\"missing\":[", graph, true)?;
    let mut before = "],\"references\":[{\"from\":";
    for edge in &graph.edges {
        push_edge(alloc, out, before, graph, edge)?;
        before = ",{\"from\":";
    }
    out.push_str(if graph.edges.is_empty() {
        "],\"references\":[]}\n"
    } else {
        "]}\n"
    })
}

// Adds the names of the documents that are there, or of those that aren't, but for those that are left out.
fn push_names(
    alloc: Global,
    out: &mut String,
    before: &str,
    graph: &Graph,
    is_missing: bool,
) -> Result<(), AllocError> {
    out.push_str(before)?;
    let mut before = "";
    for node in &graph.nodes {
        if !node.is_left_out && node.is_missing == is_missing {
            push_member(alloc, out, before, node.name.as_str())?;
            before = ",";
        }
    }
    Ok(())
}

fn push_edge(
    alloc: Global,
    out: &mut String,
    before: &str,
    graph: &Graph,
    edge: &Edge,
) -> Result<(), AllocError> {
    push_member(alloc, out, before, name_of(graph, edge.from))?;
    push_member(alloc, out, ",\"to\":", name_of(graph, edge.to))?;
    let (count, broken) = (edge.count, edge.broken);
    write!(out, ",\"count\":{count},\"broken\":{broken}}}")
}

fn name_of(graph: &Graph, number: usize) -> &str {
    match graph.nodes.get(number) {
        Some(node) => node.name.as_str(),
        None => "",
    }
}
