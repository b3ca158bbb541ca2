//! The points, lines and rings of a geometry.
ghost use Rattle.shapes.specs.Forms.{lines_in, parts_in, points_in, polygons_in, rings_in};
ghost use Rattle.std.specs.Iterator.{YieldsFirstRef, item_count};
ghost use Rattle.std.specs.Prelude.{◌≡◌};

use crate::form::Form;
use grid::pos::Pos;
use lines::items::Items;
use std::marker::Model;
use std::slice;

/// Lines or rings of a geometry, one after the other.
#[derive(Drop)]
pub struct FormParts<'a, T> {
    first: Option<&'a T>,
    parts: &'a [T],
    groups: &'a [Items<T>],
}

impl<'a, T> Model for FormParts<'a, T> {
    ghost use Rattle.std.specs.Prelude.{List};

    ghost Value = { List T };

    ghost use Rattle.shapes.specs.Left.{parts_left};

    ghost view = { parts_left };
}

impl<'a, T> FormParts<'a, T> {
    fn of_list(parts: &'a [T]) -> FormParts<'a, T>
        ensures { result ≡ parts.now }
    {
        FormParts {
            first: None,
            parts,
            groups: &[],
        }
    }
}

impl<'a, T> Iterator for FormParts<'a, T> {
    type Item = &'a T;

    ghost next_gives = { YieldsFirstRef (λ left. left) };

    ghost remaining = { item_count (λ left. left) };

    fn next(&mut self) -> Option<&'a T> {
        if let Some(first) = self.first.take() {
            return Some(first);
        }
        loop {
            if let Some((part, rest)) = self.parts.split_first() {
                self.parts = rest;
                return Some(part);
            }
            let Some((group, rest)) = self.groups.split_first() else {
                return None;
            };
            self.parts = group.as_slice();
            self.groups = rest;
        }
    }
}

impl<L, R> Form<L, R> {
    /// The points, in order; none of other kinds.
    pub fn points(&self) -> &[Pos]
        ensures { result.now ≡ points_in self.now }
    {
        match self {
            Form::Point(position) => slice::from_ref(position),
            Form::MultiPoint(positions) => positions.as_slice(),
            _ => &[],
        }
    }

    /// The polygons, each as the list of its rings; none of other kinds.
    pub fn polygons(&self) -> &[Items<R>]
        ensures { result.now ≡ polygons_in self.now }
    {
        match self {
            Form::Polygon(rings) => slice::from_ref(rings),
            Form::MultiPolygon(polygons) => polygons.as_slice(),
            _ => &[],
        }
    }

    /// The lines, in order; none of other kinds.
    pub fn lines(&self) -> FormParts<'_, L>
        ensures { result ≡ lines_in self.now }
    {
        match self {
            Form::Line(line) => FormParts {
                first: Some(line),
                parts: &[],
                groups: &[],
            },
            Form::MultiLine(lines) => FormParts::of_list(lines.as_slice()),
            _ => FormParts::of_list(&[]),
        }
    }

    /// The rings, polygon by polygon; none of other kinds.
    pub fn rings(&self) -> FormParts<'_, R>
        ensures { result ≡ rings_in self.now }
    {
        FormParts {
            first: None,
            parts: &[],
            groups: self.polygons(),
        }
    }
}

impl<T> Form<T, T> {
    /// The lines or rings, in order.
    pub fn parts(&self) -> FormParts<'_, T>
        ensures { result ≡ parts_in self.now }
    {
        match self {
            Form::Line(_) | Form::MultiLine(_) => self.lines(),
            _ => self.rings(),
        }
    }
}

impl<T, R> Form<Items<T>, R> {
    /// The lines as a list; none of other kinds.
    pub fn line_slice(&self) -> &[Items<T>]
        ensures { result.now ≡ lines_in self.now }
    {
        match self {
            Form::Line(line) => slice::from_ref(line),
            Form::MultiLine(lines) => lines.as_slice(),
            _ => &[],
        }
    }
}
