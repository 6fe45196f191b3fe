//! Drawings of which document refers to which.
use crate::plain::{is_hidden, push_escape};
use std::alloc::AllocError;

/// A document in a drawing.
#[derive(Drop)]
pub struct Node {
    /// What it is called.
    pub name: String,
    /// Whether it isn't there.
    pub is_missing: bool,
    /// Whether it is left out, since no reference leads from it or into it.
    pub is_left_out: bool,
}

/// The references of one document that lead into another one, or into itself.
#[derive(Drop)]
pub struct Edge {
    /// The number of the document that has them.
    pub from: usize,
    /// The number of the document that they lead into.
    pub to: usize,
    /// How many there are.
    pub count: usize,
    /// How many of them are unresolvable.
    pub broken: usize,
}

/// What is drawn.
#[derive(Drop)]
pub struct Graph {
    /// The documents, by their numbers.
    pub nodes: Vec<Node>,
    /// The references.
    pub edges: Vec<Edge>,
}

impl Graph {
    /// Leaves out the documents that no reference leads from or into.
    pub fn leave_out_lone(&mut self) {
        for node in &mut self.nodes {
            node.is_left_out = true;
        }
        for edge in &self.edges {
            for number in [edge.from, edge.to] {
                if let Some(node) = self.nodes.get_mut(number) {
                    node.is_left_out = false;
                }
            }
        }
    }
}

/// Adds a drawing in Mermaid's language, with what is broken in red.
pub fn push_mermaid(out: &mut String, graph: &Graph) -> Result<(), AllocError> {
    out.push_str("flowchart LR\n")?;
    for number in 0..graph.nodes.len() {
        if !graph.nodes[number].is_left_out {
            push_mermaid_node(out, number, &graph.nodes[number])?;
        }
    }
    for edge in &graph.edges {
        push_mermaid_edge(out, edge)?;
    }
    push_mermaid_colours(out, graph)
}

fn push_mermaid_node(out: &mut String, number: usize, node: &Node) -> Result<(), AllocError> {
    write!(out, "    n{number}[\"")?;
    for c in node.name.chars() {
        match c {
            '"' => out.push_str("#quot;")?,
            '#' => out.push_str("#35;")?,
            _ if is_hidden(c) => push_escape(out, c)?,
            _ => out.push(c)?,
        }
    }
    out.push_str("\"]\n")
}

fn push_mermaid_edge(out: &mut String, edge: &Edge) -> Result<(), AllocError> {
    let (from, to, count, broken) = (edge.from, edge.to, edge.count, edge.broken);
    if broken == 0 {
        return write!(out, "    n{from} -->|{count}| n{to}\n");
    }
    write!(out, "    n{from} -->|{count}, {broken} broken| n{to}\n")
}

fn push_mermaid_colours(out: &mut String, graph: &Graph) -> Result<(), AllocError> {
    for number in 0..graph.nodes.len() {
        if graph.nodes[number].is_missing {
            write!(out, "    style n{number} stroke:red,color:red\n")?;
        }
    }
    for number in 0..graph.edges.len() {
        if graph.edges[number].broken != 0 {
            write!(out, "    linkStyle {number} stroke:red,color:red\n")?;
        }
    }
    Ok(())
}

/// Adds a drawing in the language of Graphviz, with what is broken in red.
pub fn push_dot(out: &mut String, graph: &Graph) -> Result<(), AllocError> {
    out.push_str("digraph references {\n    rankdir=LR;\n    node [shape=box];\n")?;
    for number in 0..graph.nodes.len() {
        if !graph.nodes[number].is_left_out {
            push_dot_node(out, number, &graph.nodes[number])?;
        }
    }
    for edge in &graph.edges {
        push_dot_edge(out, edge)?;
    }
    out.push_str("}\n")
}

fn push_dot_node(out: &mut String, number: usize, node: &Node) -> Result<(), AllocError> {
    write!(out, "    n{number} [label=\"")?;
    for c in node.name.chars() {
        match c {
            '"' => out.push_str("\\\"")?,
            '\\' => out.push_str("\\\\")?,
            _ if is_hidden(c) => {
                out.push('\\')?;
                push_escape(out, c)?;
            }
            _ => out.push(c)?,
        }
    }
    out.push_str(if node.is_missing {
        "\", color=red, fontcolor=red];\n"
    } else {
        "\"];\n"
    })
}

fn push_dot_edge(out: &mut String, edge: &Edge) -> Result<(), AllocError> {
    let (from, to, count, broken) = (edge.from, edge.to, edge.count, edge.broken);
    if broken == 0 {
        return write!(out, "    n{from} -> n{to} [label=\"{count}\"];\n");
    }
    write!(
        out,
        "    n{from} -> n{to} [label=\"{count}, {broken} broken\", color=red, fontcolor=red];\n"
    )
}
