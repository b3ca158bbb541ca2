//! Geometries whose lines and rings become others.
ghost use Rattle.shapes.specs.Forms.{form_map};
ghost use Rattle.std.specs.Prelude.{◌≡◌, IfOk, map};

use crate::form::Form;
use faults::OutOfMemory;
use lines::items::Items;
use std::alloc::Global;

/// How a line, or a ring, becomes another.
pub trait Become<T> {
    type Made: Drop;

    ghost Seen: { Type 0 };

    // How what is made is seen.
    ghost seen: { Self.Made → Seen };

    // What the old one becomes.
    ghost becomes: { Self → T → Seen };

    /// What the old one becomes.
    ///
    /// # Errors
    /// Where memory is refused.
    fn make(&self, alloc: Global, old: &T) -> Result<Self::Made, OutOfMemory>
        ensures { IfOk result (λ made. seen made ≡ becomes self.now old.now) };
}

fn make_each<T, B: Become<T>>(
    alloc: Global,
    by: &B,
    olds: &[T],
) -> Result<Items<B::Made>, OutOfMemory>
    ensures { IfOk result (λ made. map B.seen made ≡ map (B.becomes by.now) olds.now) }
{
    let mut made = Vec::with_capacity(alloc, olds.len())?;
    for old in olds {
        made.push(by.make(alloc, old)?)?;
    }
    Ok(Items::from_vec(made))
}

fn make_groups<T, B: Become<T>>(
    alloc: Global,
    by: &B,
    groups: &[Items<T>],
) -> Result<Items<Items<B::Made>>, OutOfMemory>
    ensures { IfOk result (λ made. map (map B.seen) made ≡ map (map (B.becomes by.now)) groups.now) }
{
    let mut made = Vec::with_capacity(alloc, groups.len())?;
    for group in groups {
        made.push(make_each(alloc, by, group.as_slice())?)?;
    }
    Ok(Items::from_vec(made))
}

impl<L, R> Form<L, R> {
    /// The geometry of the same kind, and points, whose lines and rings become others.
    ///
    /// # Errors
    /// Where memory is refused.
    pub fn try_map<A: Become<L>, B: Become<R>>(
        &self,
        alloc: Global,
        line: &A,
        ring: &B,
    ) -> Result<Form<A::Made, B::Made>, OutOfMemory>
        ensures { IfOk result (λ made. form_map A.seen B.seen made ≡ form_map (A.becomes line.now) (B.becomes ring.now) self.now) }
    {
        match self {
            Form::Null => Ok(Form::Null),
            Form::Point(position) => Ok(Form::Point(*position)),
            Form::MultiPoint(positions) => {
                let positions = positions.as_slice().to_vec(alloc)?;
                Ok(Form::MultiPoint(Items::from_vec(positions)))
            }
            Form::Line(old) => Ok(Form::Line(line.make(alloc, old)?)),
            Form::MultiLine(olds) => Ok(Form::MultiLine(make_each(alloc, line, olds.as_slice())?)),
            Form::Polygon(olds) => Ok(Form::Polygon(make_each(alloc, ring, olds.as_slice())?)),
            Form::MultiPolygon(groups) => {
                Ok(Form::MultiPolygon(make_groups(alloc, ring, groups.as_slice())?))
            }
        }
    }
}
