//! What a caller's texts and room are during a call.
ghost use Rattle.outputs.specs.BuiltText.Maps.{borrowed_texts};
ghost use Rattle.c_calls.specs.Borrowed.{grid_of, borrowed_sources};
ghost use Rattle.c_calls.specs.Why.{IsBadName, IsBadSource};
ghost use Rattle.grid.specs.Place.{IsTransform};
ghost use Rattle.std.specs.Prelude.{◌≡◌, IfErr, IfNone, IfOk, IfSome};

use crate::refusal::CallRefusal;
use grid::Grid;
use std::alloc::Global;

/// The scales of a grid in x and y, and its translations.
#[repr(C)]
#[derive(Clone, Copy, PartialEq, Eq, Debug)]
pub struct GridNumbers {
    pub scale_x: i64,
    pub scale_y: i64,
    pub translate_x: i64,
    pub translate_y: i64,
}

/// A GeoJSON text, and the name of the layer that its features are put into.
#[repr(C)]
#[derive(Drop)]
pub struct SourceText<'a> {
    pub layer: &'a [u8],
    pub text: &'a [u8],
}

/// The grid of some numbers, if they are within its limits.
pub fn grid_within(numbers: &GridNumbers) -> Option<Grid>
    ensures grid { IfSome result (λ g. g ≡ grid_of numbers.now) }
    ensures none { IfNone result (¬ IsTransform (grid_of numbers.now)) }
{
    Grid::new(
        numbers.scale_x,
        numbers.scale_y,
        numbers.translate_x,
        numbers.translate_y,
    )
}

/// The name of the layer at a place, if it is UTF-8.
pub fn name_of(place: usize, name: &[u8]) -> Result<&str, CallRefusal>
    ensures name { IfOk result (λ n. n.now ≡ name.now) }
    ensures bad { IfErr result (IsBadName place name.now) }
{
    match str::from_utf8(name) {
        Ok(name) => Ok(name),
        Err(_) => Err(CallRefusal::BadName(place)),
    }
}

/// The name and the text of each source, borrowed.
pub fn borrow_sources<'a>(
    alloc: Global,
    sources: &[SourceText<'a>],
) -> Result<Vec<(&'a str, &'a [u8])>, CallRefusal>
    ensures texts { IfOk result (λ v. borrowed_texts v.items ≡ borrowed_sources sources.now) }
    ensures refused { IfErr result (IsBadSource (borrowed_sources sources.now)) }
{
    let mut texts = Vec::with_capacity(alloc, sources.len())?;
    for source in sources {
        match name_of(texts.len(), source.layer) {
            Ok(name) => texts.push((name, source.text))?,
            Err(refusal) => return Err(refusal),
        }
    }
    Ok(texts)
}
