//! `compare::quality::without_id` and `compare::quality::repeated_ids`.
use crate::tests::inputs::id_of;
use compare::quality::{repeated_ids, without_id};
use shapes::Props;
use std::alloc::Global;
use std::test::Fail;
use topo::{Body, Geom};

/// A title, ids where 0 is none, the numbers without one, and those of ids that stand more than once.
type Row = (
    &'static str,
    &'static [i64],
    &'static [usize],
    &'static [usize],
);

/// Which are missing, and which are repeated.
const ROWS: &[Row] = &[
    ("no feature", &[], &[], &[]),
    ("each its own", &[1, 2, 3], &[], &[]),
    ("none", &[0, 0], &[0, 1], &[]),
    ("one twice", &[0, 4, 5, 5], &[0], &[2, 3]),
    ("apart", &[5, 4, 5, 0, 4, 5], &[3], &[0, 1, 2, 4, 5]),
];

fn geometries(alloc: Global, numbers: &[i64]) -> Result<Vec<Geom>, Fail> {
    let mut made = Vec::new(alloc);
    for number in numbers {
        made.push(Geom {
            id: id_of(*number),
            props: Props::empty(alloc)?,
            body: Body::Null,
        })?;
    }
    Ok(made)
}

#[test]
fn missing_and_repeated(rt: HostRuntime) -> Result<(), Fail> {
    for (title, numbers, missing, repeated) in ROWS {
        let layer = geometries(rt.alloc(), *numbers)?;
        assert!(rt;
            without_id(rt.alloc(), &layer)?.as_slice() == *missing,
            "{title}: missing"
        );
        assert!(rt;
            repeated_ids(rt.alloc(), &layer)?.as_slice() == *repeated,
            "{title}: repeated"
        );
    }
    Ok(())
}
