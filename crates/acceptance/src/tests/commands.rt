//! A writer that takes one byte a call and then fails, at each call of each command.
use crate::runs::Run;
use crate::tables::{Texts, Words};
use crate::{rows, topology};
use std::alloc::Global;
use std::test::Fail;

/// The texts of 'shared edge', with ids; and one with errors.
const FILES: Texts = &[
    (
        "squares.json",
        concat!(
            r#"{"type":"FeatureCollection","features":[{"type":"Feature","id":1,"properties":null,"geometry":"#,
            r#"{"type":"Polygon","coordinates":[[[0,0],[1,0],[1,1],[0,1],[0,0]]]}},"#,
            r#"{"type":"Feature","id":2,"properties":null,"geometry":"#,
            r#"{"type":"Polygon","coordinates":[[[1,0],[2,0],[2,1],[1,1],[1,0]]]}}]}"#
        ),
    ),
    (
        "shared.json",
        topology!(
            r#"{"arcs":[[[1,0],[-1,0],[0,1],[1,0]],[[1,0],[0,1]],[[1,0],[1,0],[0,1],[-1,0]]],"bbox":[0,0,2,1],"objects":{"a":{"geometries":[{"arcs":[[1,-1]],"id":1,"type":"Polygon"},{"arcs":[[2,-2]],"id":2,"type":"Polygon"}],"type":"GeometryCollection"}},"#
        ),
    ),
    (
        "faulty.json",
        concat!(
            r#"{"type":"Topology","transform":{"scale":[0,1],"translate":[0,0]},"arcs":[],"objects":{"#,
            r#""a":{"type":"LineString","id":1,"arcs":[0],"properties":{"b":0.5}}}}"#
        ),
    ),
];

/// Words, and the status that the command ends with where no call fails.
type Command = (Words, u8);

/// The command prints something, and fails at each call of it in each way.
fn assert_fails(alloc: Global, words: Words, status: u8) -> Result<(), Fail> {
    let title = format!(in alloc; "{words:?}")?;
    let run = Run::on_files(alloc, words, FILES)?;
    let text = run.outcome()?.into_text(title.as_str(), status)?;
    if text.is_empty() {
        return Err(Fail::new(title));
    }
    run.assert_all_fail(title.as_str(), text.as_bytes())
}

fn assert_each_fails(alloc: Global, commands: &[Command]) -> Result<(), Fail> {
    for (words, status) in commands {
        assert_fails(alloc, *words, *status)?;
    }
    Ok(())
}

const BUILD_AND_CHECK: &[Command] = rows![
    &["build", "--grid", "1,1,0,0", "a=squares.json"], 0;
    &["check", "shared.json"], 0;
];

#[test]
fn build_and_check(rt: HostRuntime) -> Result<(), Fail> {
    assert_each_fails(rt.alloc(), BUILD_AND_CHECK)
}

const FAULTS: &[Command] = rows![
    &["faults", "shared.json"], 0;
    &["faults", "--explain", "faulty.json"], 4;
    &["faults", "--json", "--explain", "faulty.json"], 4;
];

#[test]
fn faults(rt: HostRuntime) -> Result<(), Fail> {
    assert_each_fails(rt.alloc(), FAULTS)
}

const MERGE_AND_REMOVE: &[Command] = rows![
    &["merge", "shared.json", "shared.json"], 0;
    &["remove", "shared.json", "shared.json"], 0;
];

#[test]
fn merge_and_remove(rt: HostRuntime) -> Result<(), Fail> {
    assert_each_fails(rt.alloc(), MERGE_AND_REMOVE)
}

const FEATURE_AND_NEIGHBORS: &[Command] = rows![
    &["feature", "--layer", "a", "shared.json"], 0;
    &["neighbors", "--layer", "a", "shared.json"], 0;
    &["neighbors", "--ids", "--layer", "a", "shared.json"], 0;
];

#[test]
fn feature_and_neighbors(rt: HostRuntime) -> Result<(), Fail> {
    assert_each_fails(rt.alloc(), FEATURE_AND_NEIGHBORS)
}

const MESH: &[Command] = rows![
    &["mesh", "shared.json"], 0;
    &["mesh", "--layer", "a", "--edges", "interior", "shared.json"], 0;
];

#[test]
fn mesh(rt: HostRuntime) -> Result<(), Fail> {
    assert_each_fails(rt.alloc(), MESH)
}

const INFO: &[Command] = rows![
    &["info", "--json", "shared.json"], 0;
    &["info", "shared.json"], 0;
];

#[test]
fn info(rt: HostRuntime) -> Result<(), Fail> {
    assert_each_fails(rt.alloc(), INFO)
}
