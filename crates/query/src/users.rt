//! Which arcs geometries use, and which of them edges ask for.
ghost use Rattle.query.specs.ByProperty.{class_uses};
ghost use Rattle.query.specs.EachOnce.{borrowed};
ghost use Rattle.query.specs.Spans.{asks_for, number_if, numbers_from};
ghost use Rattle.query.specs.Uses.{geometries_uses};
ghost use Rattle.std.specs.Prelude.{◌≡◌, ◌++◌, IfOk, OnOk, length};

use crate::edges::Edges;
use crate::spans::Span;
use crate::uses::{Use, add_body};
use std::alloc::{AllocError, Global};
use topo::Geom;

/// The uses of arcs by these geometries, index by index.
pub(crate) fn uses_by(alloc: Global, geometries: &[&Geom]) -> Result<Vec<Use>, AllocError>
    ensures { IfOk result (λ v. v.items ≡ geometries_uses (borrowed geometries.now)) }
{
    let mut uses = Vec::new(alloc);
    for index in 0..geometries.len() {
        add_body(&mut uses, index, &geometries[index].body)?;
    }
    Ok(uses)
}

/// The uses of arcs by these geometries, where the class of each stands for its index.
pub(crate) fn uses_by_class(
    alloc: Global,
    geometries: &[&Geom],
    classes: &[usize],
) -> Result<Vec<Use>, AllocError>
    requires { length classes.now ≡ length geometries.now }
    ensures { IfOk result (λ v. v.items ≡ class_uses classes.now (borrowed geometries.now)) }
{
    let mut uses = Vec::new(alloc);
    for index in 0..geometries.len() {
        add_body(&mut uses, classes[index], &geometries[index].body)?;
    }
    Ok(uses)
}

/// Whether edges ask for an arc by how many use it: one without a user is not asked for.
fn ask_for(edges: Edges, span: Option<Span>) -> bool
    ensures { result ≡ asks_for edges span }
{
    let Some(users) = span else {
        return false;
    };
    match edges {
        Edges::All => true,
        Edges::Interior => users.least != users.greatest,
        Edges::Exterior => users.least == users.greatest,
    }
}

fn add_asked(
    asked: &mut Vec<usize>,
    number: usize,
    span: Option<Span>,
    edges: Edges,
) -> Result<(), AllocError>
    ensures { OnOk result (asked.new.items ≡ asked.old.items ++ number_if edges number span) }
{
    if ask_for(edges, span) {
        asked.push(number)?;
    }
    Ok(())
}

/// The numbers of the arcs that edges ask for.
pub(crate) fn asked_arcs(
    alloc: Global,
    spans: &[Option<Span>],
    edges: Edges,
) -> Result<Vec<usize>, AllocError>
    ensures { IfOk result (λ v. v.items ≡ numbers_from edges 0 spans.now) }
{
    let mut asked = Vec::new(alloc);
    for number in 0..spans.len() {
        add_asked(&mut asked, number, spans[number], edges)?;
    }
    Ok(asked)
}
