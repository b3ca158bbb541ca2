//! Positions and arcs in the numbers of another transform.
ghost use Rattle.decimals.specs.Topology.QuantizedAxis.{AreFew};
ghost use Rattle.decimals.specs.Topology.Quantizing as spec;
ghost use Rattle.decimals.specs.Topology.Quantizing.{are_same, numbers_on, steps_from};
ghost use Rattle.std.specs.Prelude.{◌≡◌, ◌++◌, IfOk, OnOk};

use crate::topology::quantized_axis::QuantizedAxis;
use grid::{Grid, Pos};
use std::alloc::{AllocError, Global};

/// The grid of some positions, and the axes of another transform.
#[derive(Clone, Copy, PartialEq, Eq, Debug)]
pub struct Quantizer {
    pub grid: Grid,
    pub x: QuantizedAxis,
    pub y: QuantizedAxis,
}

// Whether both have the same numbers.
fn are_same(a: (i128, i128), b: (i128, i128)) -> bool
    ensures { result ≡ are_same a b }
{
    a.0 == b.0 && a.1 == b.1
}

// The numbers of a position less those of the one before.
fn step(before: (i128, i128), here: (i128, i128)) -> (i128, i128)
    requires from { AreFew before }
    requires to { AreFew here }
    ensures { result ≡ spec.step before here }
{
    (here.0 - before.0, here.1 - before.1)
}

impl Quantizer {
    /// The numbers of a position in x and in y.
    pub fn numbers(&self, position: Pos) -> (i128, i128)
        ensures value { result ≡ numbers_on self.now position }
        ensures few { AreFew result }
    {
        let (x, y) = self.grid.to_absolute(position);
        (self.x.number(x), self.y.number(y))
    }

    // The steps along positions, none of them of zero.
    fn add_steps(
        &self,
        steps: &mut Vec<(i128, i128)>,
        first: (i128, i128),
        others: &[Pos],
    ) -> Result<(), AllocError>
        requires { AreFew first }
        ensures { OnOk result (steps.new.items ≡ steps.old.items ++ steps_from (numbers_on self.now) first others.now) }
    {
        let mut before = first;
        for position in others {
            let here = self.numbers(*position);
            if !are_same(before, here) {
                steps.push(step(before, here))?;
                before = here;
            }
        }
        Ok(())
    }

    /// An arc: the numbers of its first position, and the steps from there.
    pub fn arc(&self, alloc: Global, positions: &[Pos]) -> Result<Vec<(i128, i128)>, AllocError>
        ensures { IfOk result (λ v. v.items ≡ spec.arc_numbers (numbers_on self.now) positions.now) }
    {
        let mut numbers = Vec::new(alloc);
        let Some((first, others)) = positions.split_first() else {
            return Ok(numbers);
        };
        let start = self.numbers(*first);
        numbers.push(start)?;
        self.add_steps(&mut numbers, start, others)?;
        if numbers.len() < 2 {
            numbers.push((0, 0))?;
        }
        Ok(numbers)
    }
}
