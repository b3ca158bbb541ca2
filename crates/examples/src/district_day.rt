//! An example: a district's day. One map is edited in a session, as an editor would over a long day.
//!
//! Three districts are joined. Mill Hill is then taken out, and its new version is joined. The
//! program prints the map after each step, and which arcs neighbours share. At the end the last join
//! is undone, and the text is again that of the map before it.

use crate::borders::print_borders;
use crate::inputs::{read_map, read_topology, unit_grid};
use grid::Grid;
use refine::{Edit, Session};

/// The layer of all districts.
const LAYER: &str = "districts";

/// Adds the districts of a file.
fn join(rt: &HostRuntime, grid: &Grid, session: &mut Session, name: &str) -> Option<()> {
    let topology = read_topology(rt, grid, LAYER, name)?;
    session.apply(&Edit::Join(topology)).ok()
}

/// Takes the districts of a file away.
fn remove(rt: &HostRuntime, grid: &Grid, session: &mut Session, name: &str) -> Option<()> {
    let districts = read_map(rt, grid, LAYER, name)?;
    session.apply(&Edit::Remove(districts)).ok()
}

/// Prints a heading and the session's text.
fn print_map(rt: &HostRuntime, heading: &str, session: &Session) -> Option<()> {
    let text = String::from_utf8(session.text().ok()?).ok()?;
    println!(rt; "{heading}:\n{text}").ok()
}

/// Three districts are joined.
fn morning(rt: &HostRuntime, grid: &Grid, session: &mut Session) -> Option<()> {
    join(rt, grid, session, "harbour.json")?;
    join(rt, grid, session, "old_town.json")?;
    join(rt, grid, session, "mill_hill.json")?;
    print_map(rt, "three districts", session)?;
    print_borders(rt, session.topology(), LAYER)
}

/// Mill Hill is taken out, and its new version is joined.
fn afternoon(rt: &HostRuntime, grid: &Grid, session: &mut Session) -> Option<()> {
    remove(rt, grid, session, "mill_hill.json")?;
    print_map(rt, "without Mill Hill", session)?;
    join(rt, grid, session, "mill_hill_again.json")?;
    print_map(rt, "with its new version", session)?;
    print_borders(rt, session.topology(), LAYER)
}

/// The last join is undone.
fn evening(rt: &HostRuntime, grid: &Grid, session: &mut Session) -> Option<()> {
    remove(rt, grid, session, "mill_hill_again.json")?;
    print_map(rt, "the last join undone", session)
}

/// The day, from the first join to the one that is undone.
pub fn edit_map(rt: &HostRuntime) -> Option<()> {
    let grid = unit_grid()?;
    let mut session = Session::start(rt.alloc(), &grid).ok()?;
    morning(rt, &grid, &mut session)?;
    afternoon(rt, &grid, &mut session)?;
    evening(rt, &grid, &mut session)
}
