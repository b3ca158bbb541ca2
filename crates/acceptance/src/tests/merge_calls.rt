//! `merge_texts` by plans of any form: its answers, and its faults in their order.
use crate::inputs::{EMPTY, FREE_LOOP, ONE_SQUARE, OTHER_TOOL, SHARED_EDGE};
use crate::{rows, topology};
use refine::{MergeFault, Plan, merge_texts};
use shapes::{Fault, Step};
use std::alloc::{AllocError, Global};
use std::process::Abort;
use std::test::Fail;

/// A step of making a plan: a leaf, or a node of the two plans made last.
#[derive(Clone, Copy)]
enum Make {
    Leaf(usize),
    Node,
}

/// A node of the two plans made last.
fn node(alloc: Global, made: &mut Vec<Plan>) -> Result<Plan, Fail> {
    let right = made.pop().ok_or("no right plan")?;
    let left = made.pop().ok_or("no left plan")?;
    Ok(joined(alloc, left, right)?)
}

fn joined(alloc: Global, left: Plan, right: Plan) -> Result<Plan, AllocError> {
    let left = Box::new(alloc, left)?;
    let right = Box::new(alloc, right)?;
    Ok(Plan::Node(left, right))
}

fn plan(alloc: Global, steps: &[Make]) -> Result<Plan, Fail> {
    let mut made = Vec::new(alloc);
    for step in steps {
        let next = match step {
            Make::Leaf(place) => Plan::Leaf(*place),
            Make::Node => node(alloc, &mut made)?,
        };
        made.push(next)?;
    }
    Ok(made.pop().ok_or("no plan")?)
}

/// A fault's name and path.
fn fault_text(alloc: Global, fault: &Fault) -> Result<String, AllocError> {
    let mut text = String::from_str(alloc, fault.kind.name())?;
    text.push_str(" $")?;
    for step in &fault.path {
        match step {
            Step::Name(name) => write!(text, "/{name}")?,
            Step::Index(index) => write!(text, "/{index}")?,
        }
    }
    Ok(text)
}

/// A fault in words.
fn words_of(alloc: Global, fault: &MergeFault) -> Result<String, AllocError> {
    match fault {
        MergeFault::BadPlan(leaf) => format!(in alloc; "BadPlan {leaf}"),
        MergeFault::Text(place, fault) => {
            let fault = fault_text(alloc, fault)?;
            format!(in alloc; "Text {place}: {fault}")
        }
        MergeFault::OtherGrid(place) => format!(in alloc; "OtherGrid {place}"),
        MergeFault::OutOfMemory => String::from_str(alloc, "OutOfMemory"),
    }
}

fn bytes_of(alloc: Global, texts: &[&str]) -> Result<Vec<Vec<u8>>, Fail> {
    let mut list = Vec::new(alloc);
    for text in texts {
        list.push(Vec::from_slice(alloc, text.as_bytes())?)?;
    }
    Ok(list)
}

/// The merged text, or the fault in words.
fn merged(alloc: Global, texts: &[&str], steps: &[Make]) -> Result<String, Fail> {
    let list = bytes_of(alloc, texts)?;
    let plan = plan(alloc, steps)?;
    match merge_texts(alloc, list.as_slice(), &plan) {
        Ok(text) => Ok(String::from_utf8(text)?),
        Err(fault) => Ok(words_of(alloc, &fault)?),
    }
}

/// Whether the texts are merged to this text, or refused with this fault.
fn is_merged(alloc: Global, texts: &[&str], steps: &[Make], expected: &str) -> Result<bool, Fail> {
    let answer = merged(alloc, texts, steps)?;
    Ok(answer.as_str() == expected)
}

/// The topology of `B`, with scales of 2.
const OTHER_SCALE: &str =
    r#"{"arcs":[[[1,0],[0,1],[1,0],[0,-1],[-1,0]]],"objects":{"a":{"geometries":[{"arcs":[[-1]],"type":"Polygon"}],"type":"GeometryCollection"}},"transform":{"scale":[2,2],"translate":[0,0]},"type":"Topology"}"#;

/// A title, texts, a plan over them, and the merged text or the fault.
const ROWS: &[(&str, &[&str], &[Make], &str)] = rows![
    "a refused text that the plan does not name", &[ONE_SQUARE, "{}"], &[Make::Leaf(0)], "Text 1: Missing $/type";
    "a refused text comes before another transform", &[ONE_SQUARE, OTHER_SCALE, "{}"], &[Make::Leaf(0)], "Text 2: Missing $/type";
    "another transform that the plan does not name", &[ONE_SQUARE, OTHER_SCALE], &[Make::Leaf(0)], "OtherGrid 1";
    "a leaf that is no place comes before a refused text", &["{}"], &[Make::Leaf(0), Make::Leaf(3), Make::Node], "BadPlan 3";
    "the first leaf from the left", &[ONE_SQUARE, ONE_SQUARE], &[Make::Leaf(7), Make::Leaf(9), Make::Node, Make::Leaf(8), Make::Node], "BadPlan 7";
    "a leaf past two texts", &[ONE_SQUARE, ONE_SQUARE], &[Make::Leaf(7)], "BadPlan 7";
    "no texts", &[], &[Make::Leaf(0)], "BadPlan 0";
    "one text of two", &[ONE_SQUARE, FREE_LOOP], &[Make::Leaf(1)], FREE_LOOP;
    "layers of one text and of the other", &[EMPTY, topology!(r#"{"arcs":[],"objects":{"b":{"geometries":[],"type":"GeometryCollection"}},"#)], &[Make::Leaf(1), Make::Leaf(0), Make::Node],
        topology!(r#"{"arcs":[],"objects":{"a":{"geometries":[],"type":"GeometryCollection"},"b":{"geometries":[],"type":"GeometryCollection"}},"#);
    "a text merged with itself", &[OTHER_TOOL], &[Make::Leaf(0), Make::Leaf(0), Make::Node], ONE_SQUARE;
];

#[test]
fn answers_and_faults(rt: HostRuntime) -> Result<(), Fail> {
    for (title, texts, plan, expected) in ROWS {
        assert!(rt; is_merged(rt.alloc(), *texts, *plan, *expected)?, "{title}");
    }
    Ok(())
}

/// The topology of the square to the right of that of `ONE_SQUARE`, with which it shares an edge.
const NEXT_SQUARE: &str = topology!(
    r#"{"arcs":[[[1,0],[0,1],[1,0],[0,-1],[-1,0]]],"bbox":[1,0,2,1],"objects":{"a":{"geometries":[{"arcs":[[-1]],"type":"Polygon"}],"type":"GeometryCollection"}},"#
);

/// Plans that name two texts.
const PLANS: &[(&str, &[Make])] = rows![
    "in order", &[Make::Leaf(0), Make::Leaf(1), Make::Node];
    "the other way round", &[Make::Leaf(1), Make::Leaf(0), Make::Node];
    "the first one again", &[Make::Leaf(0), Make::Leaf(1), Make::Node, Make::Leaf(0), Make::Node];
    "the second one twice first", &[Make::Leaf(0), Make::Leaf(1), Make::Leaf(1), Make::Node, Make::Node];
];

#[test]
fn plans_that_name_the_same_texts(rt: HostRuntime) -> Result<(), Fail> {
    let texts = [ONE_SQUARE, NEXT_SQUARE];
    for (title, steps) in PLANS {
        assert!(rt;
            is_merged(rt.alloc(), &texts, *steps, SHARED_EDGE)?,
            "{title}"
        );
    }
    Ok(())
}
