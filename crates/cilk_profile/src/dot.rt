//! The series-parallel tree of a small run, as a graph.

use crate::chart::push_file;
use crate::rows::{push_range, push_runners};
use cilk_findings::scene::Scene;
use cilk_messages::sentence::say;
use cilk_tree::building::tree_of;
use cilk_tree::tree::Node;
use std::alloc::AllocError;

/// The most nodes of a tree that [`dot`] draws.
pub const MAX_NODES: usize = 500;

const HEAD: &str =
    "digraph run {\n  graph [bgcolor=white, fontname=\"sans-serif\", labelloc=t, ordering=out];\n  node [fontname=\"sans-serif\", style=filled, fillcolor=white];\n  label=\"";

// The title, after the file's name.
const LABEL: &str = ": S: left to right; P: left (the child) and right in parallel; \
    a box: strands in a row, what they run, lines and events\";\n";

/// A node that is drawn, and still misses a child.
#[derive(Clone, Copy)]
struct Above {
    number: usize,
    is_series: bool,
}

// The parent of the tree's root.
const ROOT: Above = Above {
    number: usize::MAX,
    is_series: false,
};

/// The next node: perhaps a box of strands in a row, from `first`, counted from 1, up to `last`, and
/// from the event `begin`, counted from 0, up to but without `end`. So far it is empty if `first` is
/// greater. One box has several strands only below an S node.
#[derive(Clone, Copy)]
struct Row {
    number: usize,
    above: Above,
    first: usize,
    last: usize,
    begin: usize,
    end: usize,
}

/// Returns the tree of a run in the language of Graphviz's `dot`; none for more than [`MAX_NODES`]
/// nodes. Boxes are strands in a row with their numbers, what they run, their lines and their count
/// of events; S nodes are diamonds, and none is below another one; P nodes are circles with the line
/// of their spawn.
pub fn dot(scene: &Scene<'_>) -> Result<Option<String>, AllocError> {
    let tree = tree_of(scene.case.alloc, &scene.run.trace)?;
    if tree.as_slice().len() > MAX_NODES {
        return Ok(None);
    }
    let mut text = String::new(scene.case.alloc);
    push_graph(&mut text, scene, tree.as_slice())?;
    Ok(Some(text))
}

fn push_graph(text: &mut String, scene: &Scene<'_>, nodes: &[Node]) -> Result<(), AllocError> {
    text.push_str(HEAD)?;
    push_file(text, scene.case.file, false)?;
    text.push_str(LABEL)?;
    let mut open = Vec::new(scene.case.alloc);
    push_nodes(text, scene, nodes, &mut open)
}

// The nodes. `open` has those that still miss a child, once for each missing child.
fn push_nodes(
    text: &mut String,
    scene: &Scene<'_>,
    nodes: &[Node],
    open: &mut Vec<Above>,
) -> Result<(), AllocError> {
    let mut row = Row {
        number: 0,
        above: ROOT,
        first: 1,
        last: 0,
        begin: 0,
        end: 0,
    };
    for node in nodes {
        let mut above = open.pop().unwrap_or(ROOT);
        let is_series = matches!(*node, Node::Series { .. });
        if let Node::Strand { events } = *node {
            if !above.is_series || above.number != row.above.number {
                row = push_row(text, scene, &row)?;
                row.above = above;
            }
            row.last = row.last.saturating_add(1);
            row.end = row.end.saturating_add(events as usize);
            continue;
        }
        if !is_series || !above.is_series {
            row = push_row(text, scene, &row)?;
            push_node(text, scene, &row, is_series)?;
            push_edge(text, scene, above, row.number)?;
            above = Above {
                number: row.number,
                is_series,
            };
            row.number = row.number.saturating_add(1);
        }
        open.push(above)?;
        open.push(above)?;
    }
    push_row(text, scene, &row)?;
    text.push_str("}\n")
}

// Draws an S node, or a P node, before which the last event is its spawn.
fn push_node(
    text: &mut String,
    scene: &Scene<'_>,
    row: &Row,
    is_series: bool,
) -> Result<(), AllocError> {
    let node = say(if is_series {
        "  n{} [shape=diamond, label=\"S\"];\n"
    } else {
        "  n{} [shape=circle, label=\"P\\nline {}\"];\n"
    });
    let line = scene.line(scene.byte_of(row.end.saturating_sub(1)));
    scene.push(text, &node.count(row.number).count(line))
}

// Draws a row, unless it is empty, and returns the empty one after it.
fn push_row(text: &mut String, scene: &Scene<'_>, row: &Row) -> Result<Row, AllocError> {
    let mut next = *row;
    next.above = ROOT;
    next.first = row.last.saturating_add(1);
    next.begin = row.end;
    if row.first <= row.last {
        scene.push(text, &say("  n{} [shape=box, label=\"").count(row.number))?;
        push_range(text, scene, ("{}: ", "{} to {}: "), row.first, row.last)?;
        push_runners(text, scene, row.begin, row.end.saturating_sub(1))?;
        push_lines(text, scene, row)?;
        push_edge(text, scene, row.above, row.number)?;
        next.number = row.number.saturating_add(1);
    }
    Ok(next)
}

// The least and the greatest line of a row, and its events.
fn push_lines(text: &mut String, scene: &Scene<'_>, row: &Row) -> Result<(), AllocError> {
    let mut from = scene.case.text.len();
    let mut upto: usize = 0;
    for event in row.begin..row.end {
        if let Some(step) = scene.run.replay.steps.get(event) {
            from = from.min(step.at);
            upto = upto.max(step.at);
        }
    }
    let words = ("\\nline {}", "\\nlines {} to {}");
    push_range(text, scene, words, scene.line(from), scene.line(upto))?;
    let events = row.end.saturating_sub(row.begin);
    scene.push(text, &say("\\n{} event{}\"];\n").counted(events))
}

fn push_edge(
    text: &mut String,
    scene: &Scene<'_>,
    above: Above,
    number: usize,
) -> Result<(), AllocError> {
    let edge = say(if above.number < number {
        "  n{} -> n{};\n"
    } else {
        ""
    });
    scene.push(text, &edge.count(above.number).count(number))
}
