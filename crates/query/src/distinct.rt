//! The geometries that a question is about, each once: equal ones are of one feature.
ghost use Rattle.query.specs.EachOnce.{borrowed, AreEachOnce};
ghost use Rattle.std.specs.Prelude.{◌≡◌, ◌++◌, IfOk, OnOk};
ghost use Rattle.theory.specs.Lists.{gathered};

use std::alloc::{AllocError, Global};
use topo::{Geom, Layer};

/// Puts references to geometries at the end.
pub(crate) fn add_geometries<'a>(
    found: &mut Vec<&'a Geom>,
    geometries: &'a [Geom],
) -> Result<(), AllocError>
    ensures { OnOk result (borrowed found.new.items ≡ borrowed found.old.items ++ geometries.now) }
{
    for geometry in geometries {
        found.push(geometry)?;
    }
    Ok(())
}

/// The geometries of the layers, one layer after the other.
fn geometries_in<'a>(alloc: Global, layers: &'a [Layer]) -> Result<Vec<&'a Geom>, AllocError>
    ensures { IfOk result (λ v. borrowed v.items ≡ gathered (λ l. l.geometries) layers.now) }
{
    let mut found = Vec::new(alloc);
    for layer in layers {
        add_geometries(&mut found, layer.geometries())?;
    }
    Ok(found)
}

/// Sorts geometries, so that equal ones are together, and keeps each once.
fn keep_each_once(geometries: &mut Vec<&Geom>)
    ensures { AreEachOnce (borrowed geometries.old.items) (borrowed geometries.new.items) }
{
    geometries.sort_unstable();
    geometries.dedup();
}

/// The geometries of the layers, each once. One feature may be in several layers; its geometries
/// there are equal, and those of two features are not.
pub(crate) fn distinct_geometries<'a>(
    alloc: Global,
    layers: &'a [Layer],
) -> Result<Vec<&'a Geom>, AllocError>
    ensures { IfOk result (λ v. AreEachOnce (gathered (λ l. l.geometries) layers.now) (borrowed v.items)) }
{
    let mut geometries = geometries_in(alloc, layers)?;
    keep_each_once(&mut geometries);
    Ok(geometries)
}
