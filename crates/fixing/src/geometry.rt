//! Geometries.
ghost use Rattle.fixing.specs.Forms.{plain_shape, seen_geometry};
ghost use Rattle.fixing.specs.Geometries.{form_counted, form_left, forms_left, geometry_counted, geometry_left, is_null as is_null_form, line_form, lost_counted, polygon_form, shown_left};
ghost use Rattle.fixing.specs.Left.{all_counted, all_left};
ghost use Rattle.lines.specs.Seen.{positions_of, vertices_of};
ghost use Rattle.std.specs.Prelude.{◌≡◌, IfErr, IfOk, OnOk, None, Some, map};
ghost use Rattle.shapes.specs.declared.form.Form.TheVariants as form;

use crate::broken::Broken;
use crate::linework::{fix_line, fix_lines};
use crate::lists::only;
use crate::polygons::{fix_polygon, fix_polygons};
use crate::raw::{RawGeometry, RawShape};
use crate::rules::{Collapsed, Fixes, FixingRules};
use grid::pos::Pos;
use lines::items::Items;
use lines::line::Line;
use lines::ring::Ring;
use shapes::Shape;
use std::alloc::Global;

/// The shape of lines: null of none, and a LineString of one if it was one.
fn shape_of_lines(lines: Vec<Line>, was_multi: bool) -> Shape
    ensures { plain_shape result ≡ line_form was_multi (map positions_of lines.items) }
{
    let mut lines = lines;
    if was_multi || lines.len() > 1 {
        if lines.is_empty() {
            return Shape::Null;
        }
        return Shape::MultiLine(Items::from_vec(lines));
    }
    match lines.pop() {
        Some(line) => Shape::Line(line),
        None => Shape::Null,
    }
}

/// The shape of polygons: null of none, and a Polygon of one if it was one.
fn shape_of_polygons(polygons: Vec<Items<Ring>>, was_multi: bool) -> Shape
    ensures { plain_shape result ≡ polygon_form was_multi (map (map vertices_of) polygons.items) }
{
    let mut polygons = polygons;
    if was_multi || polygons.len() > 1 {
        if polygons.is_empty() {
            return Shape::Null;
        }
        return Shape::MultiPolygon(Items::from_vec(polygons));
    }
    match polygons.pop() {
        Some(polygon) => Shape::Polygon(polygon),
        None => Shape::Null,
    }
}

/// What is left of a MultiLineString. An empty one stays.
fn fix_multi_line(
    alloc: Global,
    lines: Vec<Items<Pos>>,
    rules: &FixingRules,
    fixes: &mut Fixes,
) -> Result<Shape, Broken>
    ensures left { IfOk result (λ left. form_left rules.now (form.MultiLine lines.items) ≡ Some (plain_shape left)) }
    ensures fixes { OnOk result (fixes.new ≡ form_counted rules.now (form.MultiLine lines.items) fixes.old) }
    ensures refused { IfErr result (λ e. e ≡ Broken.Refused → form_left rules.now (form.MultiLine lines.items) ≡ None) }
{
    if lines.is_empty() {
        return Ok(Shape::MultiLine(Items::from_vec(Vec::new(alloc))));
    }
    let left = fix_lines(alloc, lines, rules, fixes)?;
    Ok(shape_of_lines(left, true))
}

/// What is left of a MultiPolygon. An empty one stays.
fn fix_multi_polygon(
    alloc: Global,
    polygons: Vec<Items<Items<Pos>>>,
    rules: &FixingRules,
    fixes: &mut Fixes,
) -> Result<Shape, Broken>
    ensures left { IfOk result (λ left. form_left rules.now (form.MultiPolygon polygons.items) ≡ Some (plain_shape left)) }
    ensures fixes { OnOk result (fixes.new ≡ form_counted rules.now (form.MultiPolygon polygons.items) fixes.old) }
    ensures refused { IfErr result (λ e. e ≡ Broken.Refused → form_left rules.now (form.MultiPolygon polygons.items) ≡ None) }
{
    if polygons.is_empty() {
        return Ok(Shape::MultiPolygon(Items::from_vec(Vec::new(alloc))));
    }
    let left = fix_polygons(alloc, polygons, rules, fixes)?;
    Ok(shape_of_polygons(left, true))
}

/// What is left of a shape: null where nothing is. Lists without a line or polygon stay as they are.
fn fix_shape(
    alloc: Global,
    shape: RawShape,
    rules: &FixingRules,
    fixes: &mut Fixes,
) -> Result<Shape, Broken>
    ensures left { IfOk result (λ left. form_left rules.now shape ≡ Some (plain_shape left)) }
    ensures fixes { OnOk result (fixes.new ≡ form_counted rules.now shape fixes.old) }
    ensures refused { IfErr result (λ e. e ≡ Broken.Refused → form_left rules.now shape ≡ None) }
{
    match shape {
        RawShape::Null => Ok(Shape::Null),
        RawShape::Point(position) => Ok(Shape::Point(position)),
        RawShape::MultiPoint(positions) => Ok(Shape::MultiPoint(positions)),
        RawShape::Line(line) => {
            let left = fix_line(alloc, line.into_vec(), rules, fixes)?;
            Ok(shape_of_lines(left, false))
        }
        RawShape::MultiLine(lines) => fix_multi_line(alloc, lines.into_vec(), rules, fixes),
        RawShape::Polygon(rings) => {
            let left = fix_polygon(alloc, rings.into_vec(), rules, fixes)?;
            Ok(shape_of_polygons(left, false))
        }
        RawShape::MultiPolygon(polygons) => {
            fix_multi_polygon(alloc, polygons.into_vec(), rules, fixes)
        },
    }
}

/// Whether a shape is null.
fn is_null(shape: &Shape) -> bool
    ensures { result ≡ is_null_form (plain_shape shape.now) }
{
    match shape {
        Shape::Null => true,
        _ => false,
    }
}

/// What is left of some shapes, without null.
fn fix_shapes(
    alloc: Global,
    shapes: Vec<RawShape>,
    rules: &FixingRules,
    fixes: &mut Fixes,
) -> Result<Vec<Shape>, Broken>
    ensures left { IfOk result (λ made. all_left (shown_left rules.now) shapes.items ≡ Some (map plain_shape made.items)) }
    ensures fixes { OnOk result (fixes.new ≡ all_counted (form_counted rules.now) shapes.items fixes.old) }
    ensures refused { IfErr result (λ e. e ≡ Broken.Refused → all_left (shown_left rules.now) shapes.items ≡ None) }
{
    let mut made = Vec::new(alloc);
    for shape in shapes {
        let left = fix_shape(alloc, shape, rules, fixes)?;
        if !is_null(&left) {
            made.push(left)?;
        }
    }
    Ok(made)
}

/// What is left of shapes that are all of a feature: null, or no feature, where none is.
fn fix_all(
    alloc: Global,
    shapes: Vec<RawShape>,
    rules: &FixingRules,
    fixes: &mut Fixes,
) -> Result<Vec<Shape>, Broken>
    ensures left { IfOk result (λ made. forms_left rules.now shapes.items ≡ Some (map plain_shape made.items)) }
    ensures fixes { OnOk result (fixes.new ≡ lost_counted rules.now shapes.items fixes.old) }
    ensures refused { IfErr result (λ e. e ≡ Broken.Refused → forms_left rules.now shapes.items ≡ None) }
{
    let left = fix_shapes(alloc, shapes, rules, fixes)?;
    if !left.is_empty() {
        return Ok(left);
    }
    fixes.lost = fixes.lost.saturating_add(1);
    match rules.collapsed {
        Collapsed::Drop => Ok(left),
        Collapsed::Null | Collapsed::Refuse => Ok(only(alloc, Shape::Null)?),
    }
}

/// The shapes that are left of a geometry, each to be the shape of a feature of its own, and how much was fixed. Null stays null.
/// A LineString may become a MultiLineString, and a Polygon a MultiPolygon. Where no shape is left the geometry is null, or there
/// is none if the feature is dropped.
///
/// # Errors
/// `Refused` exactly where a line or ring has a fault that the rules don't fix, or the geometry is a GeometryCollection that they
/// don't split.
pub fn fix_geometry(
    alloc: Global,
    geometry: RawGeometry,
    rules: &FixingRules,
    fixes: &mut Fixes,
) -> Result<Vec<Shape>, Broken>
    ensures left { IfOk result (λ made. geometry_left rules.now (seen_geometry geometry) ≡ Some (map plain_shape made.items)) }
    ensures fixes { OnOk result (fixes.new ≡ geometry_counted rules.now (seen_geometry geometry) fixes.old) }
    ensures refused { IfErr result (λ e. e ≡ Broken.Refused → geometry_left rules.now (seen_geometry geometry) ≡ None) }
{
    match geometry {
        RawGeometry::One(RawShape::Null) => Ok(only(alloc, Shape::Null)?),
        RawGeometry::One(shape) => fix_all(alloc, only(alloc, shape)?, rules, fixes),
        RawGeometry::Collection(shapes) => {
            if !rules.splits_collections {
                return Err(Broken::Refused);
            }
            fixes.collections = fixes.collections.saturating_add(1);
            fix_all(alloc, shapes, rules, fixes)
        }
    }
}
