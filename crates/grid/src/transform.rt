//! The transform between grid numbers and absolute numbers (TopoJSON, section 2).
ghost use Rattle.grid.specs.Fault.{IsAxisFault};
ghost use Rattle.grid.specs.Place.{Scaling, IsScaling, IsTransform, IsScale, IsTranslation, IsGridNumber, IsAbsolute, IsMultiple, IsOnGrid, IsNumberOf, IsBeyond, FitsAxis, scaling, transform as transform_of, absolute as absolute_number};
ghost use Rattle.std.specs.Prelude.{◌≡◌, ◌↔◌, IsSome, IfSome, IfOk, IfErr, IsErrOf, IsTrue, Ok, Some, None, ℤ, pos, negsuc, unsigned_abs, ◌≤◌, ◌*◌, ◌*ℤ◌, ◌-ℤ◌, ◌≤ℤ◌, int_rem, int_div};

use crate::limits::{
    GREATEST_ABSOLUTE_NUMBER, GREATEST_GRID_NUMBER, GREATEST_SCALE, GREATEST_TRANSLATION,
    LEAST_ABSOLUTE_NUMBER, LEAST_GRID_NUMBER, LEAST_SCALE, LEAST_TRANSLATION,
};
use crate::pos::Pos;
use std::marker::Model;
use thiserror::Error;

/// The transform of one element of a position: its absolute number is the grid number times the scale,
/// plus the translation. Scales are from `LEAST_SCALE` to `GREATEST_SCALE`, translations from
/// `LEAST_TRANSLATION` to `GREATEST_TRANSLATION`.
#[derive(Clone, Copy, PartialEq, Eq, Debug)]
pub struct Axis {
    scale: i64,
    translate: i64,
}

impl Model for Axis {
    ghost use Rattle.grid.specs.Place.{Scaling, IsScaling, scaling};

    ghost Value = { Scaling };

    ghost view = { λ a. scaling a.scale a.translate };

    ghost invariant = { λ a. IsScaling (scaling a.scale a.translate) };

    ghost inverse = { λ s. record { scale = s.scale; translate = s.translate } };
}

/// The transform of a quantized topology, element by element.
#[derive(Clone, Copy, PartialEq, Eq, Debug)]
pub struct Grid {
    x: Axis,
    y: Axis,
}

impl Model for Grid {
    ghost use Rattle.grid.specs.Place.{Transform, transform};

    ghost Value = { Transform };

    ghost view = { λ g. transform g.x g.y };

    ghost inverse = { λ t. record { x = t.x; y = t.y } };
}

/// Why an absolute number has no grid number that fits.
#[derive(Clone, Copy, PartialEq, Eq, Debug, Error)]
pub enum AxisFault {
    /// The difference from the translation is no multiple of the scale.
    #[error("off the grid")]
    OffGrid,
    /// On the grid, but the grid number or the absolute number is outside its limits.
    #[error("out of range")]
    OutOfRange,
}

/// Why an absolute place has no position that fits, with the element, 0 for x and 1 for y.
#[derive(Clone, Copy, PartialEq, Eq, Debug, Error)]
pub enum GridFault {
    /// The difference from the translation is no multiple of the scale.
    #[error("element {0} is off the grid")]
    OffGrid(usize),
    /// On the grid, but the grid number or the absolute number is outside its limits.
    #[error("element {0} is out of range")]
    OutOfRange(usize),
}

fn multiply(n: i64, scale: i64) -> i64
    requires scale { IsScale scale }
    requires number { IsGridNumber n }
    ensures value { result ≡ (n *ℤ scale) }
    ensures bound { unsigned_abs result ≤ (unsigned_abs GREATEST_GRID_NUMBER * unsigned_abs GREATEST_SCALE) }
{
    n * scale
}

fn absolute(scale: i64, translate: i64, n: i64) -> i64
    requires limits { IsScaling (scaling scale translate) }
    requires number { IsGridNumber n }
    ensures { result ≡ absolute_number (scaling scale translate) n }
{
    multiply(n, scale) + translate
}

fn is_absolute(a: i64) -> bool
    ensures { IsTrue result ↔ IsAbsolute a }
{
    LEAST_ABSOLUTE_NUMBER <= a && a <= GREATEST_ABSOLUTE_NUMBER
}

fn is_grid_number(n: i64) -> bool
    ensures { IsTrue result ↔ IsGridNumber n }
{
    LEAST_GRID_NUMBER <= n && n <= GREATEST_GRID_NUMBER
}

fn offset(a: i64, translate: i64) -> i64
    requires absolute { IsAbsolute a }
    requires translate { IsTranslation translate }
    ensures { result ≡ (a -ℤ translate) }
{
    a - translate
}

fn remainder(a: i64, scale: i64) -> i64
    requires scale { IsScale scale }
    ensures value { result ≡ int_rem a scale }
    ensures bound { unsigned_abs result ≤ unsigned_abs GREATEST_SCALE }
{
    a % scale
}

#[tactic(auto, using(crate::proofs::Multiples::quotient_by_one))]
fn quotient(a: i64, scale: i64) -> i64
    requires scale { IsScale scale }
    ensures { result ≡ int_div a scale }
{
    if scale == 1 {
        return a;
    }
    a / scale
}

#[tactic(auto, using(crate::proofs::Multiples::rest_of_multiple, crate::proofs::Multiples::multiple_by_rest, crate::proofs::Multiples::multiple_of_one))]
fn is_multiple(d: i64, scale: i64) -> bool
    requires scale { IsScale scale }
    ensures { IsTrue result ↔ IsMultiple scale d }
{
    if scale == 1 {
        return true;
    }
    if remainder(d, scale) != 0 {
        return false;
    }
    true
}

fn rest_difference(a: i64, b: i64, scale: i64) -> i64
    requires scale { IsScale scale }
    ensures { result ≡ (int_rem a scale -ℤ int_rem b scale) }
{
    remainder(a, scale) - remainder(b, scale)
}

// Whether the scale divides a - translate, which may pass what an i64 holds.
fn is_on_grid(scale: i64, translate: i64, a: i64) -> bool
    requires scale { IsScale scale }
    ensures { IsTrue result ↔ IsOnGrid (scaling scale translate) a }
{
    is_multiple(rest_difference(a, translate, scale), scale)
}

// The grid number of an absolute number.
fn grid_number(scale: i64, translate: i64, a: i64) -> Result<i64, AxisFault>
    requires limits { IsScaling (scaling scale translate) }
    ensures number { IfOk result (IsNumberOf (scaling scale translate) a) }
    ensures fault { IfErr result (IsAxisFault (scaling scale translate) a) }
{
    if !is_absolute(a) {
        return if is_on_grid(scale, translate, a) {
            Err(AxisFault::OutOfRange)
        } else {
            Err(AxisFault::OffGrid)
        };
    }
    let offset = offset(a, translate);
    if !is_multiple(offset, scale) {
        return Err(AxisFault::OffGrid);
    }
    let number = quotient(offset, scale);
    if !is_grid_number(number) {
        return Err(AxisFault::OutOfRange);
    }
    Ok(number)
}

impl Axis {
    ghost use Rattle.grid.specs.Computed.{axis_number, fits_axis};

    /// The axis, or None where a number is outside its limits.
    pub fn new(scale: i64, translate: i64) -> Option<Axis>
        ensures given { IfSome result (λ a. a ≡ scaling scale translate) }
        ensures exact { IsSome result ↔ IsScaling (scaling scale translate) }
    {
        if scale < LEAST_SCALE || scale > GREATEST_SCALE {
            return None;
        }
        if translate < LEAST_TRANSLATION || translate > GREATEST_TRANSLATION {
            return None;
        }
        Some(Axis { scale, translate })
    }

    /// The factor, from `LEAST_SCALE` to `GREATEST_SCALE`.
    pub fn scale(&self) -> i64
        ensures value { result ≡ self.now.scale }
        ensures limits { IsScaling self.now }
    {
        self.scale
    }

    /// What is added, from `LEAST_TRANSLATION` to `GREATEST_TRANSLATION`.
    pub fn translate(&self) -> i64
        ensures value { result ≡ self.now.translate }
        ensures limits { IsScaling self.now }
    {
        self.translate
    }

    /// The absolute number of a grid number.
    pub fn to_absolute(&self, n: i64) -> i64
        requires { IsGridNumber n }
        ensures value { result ≡ absolute_number self.now n }
        ensures limits { IsScaling self.now }
    {
        absolute(self.scale, self.translate, n)
    }

    /// Whether a number is a grid number whose absolute number is within its limits.
    pub fn fits(&self, n: i64) -> bool
        ensures exact { IsTrue result ↔ FitsAxis self.now n }
        ensures computed { result ≡ fits_axis self.now n }
    {
        is_grid_number(n) && is_absolute(self.to_absolute(n))
    }

    /// The grid number that fits and has this absolute number.
    ///
    /// # Errors
    /// `OffGrid` where no whole number has it, else `OutOfRange`.
    pub fn to_grid(&self, a: i64) -> Result<i64, AxisFault>
        ensures exact { (n : ℤ) → (result ≡ Ok n) ↔ IsNumberOf self.now a n }
        ensures off_grid { IsErrOf result AxisFault.OffGrid ↔ (IsOnGrid self.now a → ⊥) }
        ensures out_of_range { IsErrOf result AxisFault.OutOfRange ↔ IsBeyond self.now a }
        ensures computed { result ≡ axis_number self.now a }
    {
        grid_number(self.scale, self.translate, a)
    }
}

impl AxisFault {
    ghost use Rattle.grid.specs.Fault.{at_element};

    fn at(self, element: usize) -> GridFault
        ensures { result ≡ at_element element self }
    {
        match self {
            AxisFault::OffGrid => GridFault::OffGrid(element),
            AxisFault::OutOfRange => GridFault::OutOfRange(element),
        }
    }
}

impl Grid {
    ghost use Rattle.grid.specs.Computed.{place_numbers, numbers_of};
    ghost use Rattle.grid.specs.Fault.{IsPlaceFault};
    ghost use Rattle.grid.specs.Fits.{absolute_place, Fits, IsPlaceOf};
    ghost use Rattle.grid.specs.declared.pos.Pos.{Pos};

    /// The grid of these scales and translations, or None where a number is outside its limits.
    pub fn new(sx: i64, sy: i64, tx: i64, ty: i64) -> Option<Grid>
        ensures given { IfSome result (λ g. g ≡ transform_of (scaling sx tx) (scaling sy ty)) }
        ensures exact { IsSome result ↔ IsTransform (transform_of (scaling sx tx) (scaling sy ty)) }
    {
        let x = Axis::new(sx, tx)?;
        let y = Axis::new(sy, ty)?;
        Some(Grid { x, y })
    }

    /// The scales of x and y.
    pub fn scale(&self) -> (i64, i64)
        ensures value { result ≡ (self.now.x.scale, self.now.y.scale) }
        ensures limits { IsTransform self.now }
    {
        (self.x.scale(), self.y.scale())
    }

    /// The translations of x and y.
    pub fn translate(&self) -> (i64, i64)
        ensures value { result ≡ (self.now.x.translate, self.now.y.translate) }
        ensures limits { IsTransform self.now }
    {
        (self.x.translate(), self.y.translate())
    }

    /// The transform of x.
    pub fn x_axis(&self) -> Axis
        ensures { result ≡ self.now.x }
    {
        self.x
    }

    /// The transform of y.
    pub fn y_axis(&self) -> Axis
        ensures { result ≡ self.now.y }
    {
        self.y
    }

    /// The absolute place of a position.
    pub fn to_absolute(&self, p: Pos) -> (i64, i64)
        ensures value { result ≡ absolute_place self.now p }
        ensures limits { IsTransform self.now }
    {
        (self.x.to_absolute(p.x()), self.y.to_absolute(p.y()))
    }

    /// Whether both absolute numbers of a position are within their limits.
    pub fn fits(&self, p: Pos) -> bool
        ensures { IsTrue result ↔ Fits self.now p }
    {
        self.x.fits(p.x()) && self.y.fits(p.y())
    }

    /// The position that fits and has this absolute place.
    ///
    /// # Errors
    /// That of the first element that has one: `OffGrid` where no whole number has its absolute number,
    /// else `OutOfRange`.
    pub fn to_grid(&self, ax: i64, ay: i64) -> Result<Pos, GridFault>
        ensures exact { (p : Pos) → (result ≡ Ok p) ↔ IsPlaceOf self.now (ax, ay) p }
        ensures fault { IfErr result (IsPlaceFault self.now (ax, ay)) }
        ensures computed { numbers_of result ≡ place_numbers self.now (ax, ay) }
    {
        match (self.x.to_grid(ax), self.y.to_grid(ay)) {
            (Err(fault), _) => Err(fault.at(0)),
            (_, Err(fault)) => Err(fault.at(1)),
            (Ok(x), Ok(y)) => Ok(Pos::within(x, y)),
        }
    }
}
