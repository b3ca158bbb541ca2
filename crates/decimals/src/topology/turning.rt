//! Rings that are turned as they are wanted.
ghost use Rattle.decimals.specs.Topology.Turning.{area_of, rewound_body, rewound_ring, rewound_rings, ring_area, turned_to, turns_wrong, wanted as wanted_of};
ghost use Rattle.std.specs.Prelude.{◌≡◌, ◌++◌, IfOk, IfSome, OnOk, if◌then◌else◌, false, map};
ghost use Rattle.theory.specs.ArcNumbers as spec;
ghost use Rattle.theory.specs.ArcNumbers.{backwards};

use crate::topology::rules::BackRules;
use chains::table::ArcRef;
use chains::used_arcs::add_backwards;
use faults::OutOfMemory;
use fixing::Rewind;
use lines::items::Items;
use std::alloc::{AllocError, Global};
use topo::geom::Body;

/// How layers are written: by twice the area along each arc, and the rules.
#[derive(Drop)]
pub(crate) struct Turning<'r> {
    pub(crate) areas: Vec<i128>,
    pub(crate) rules: BackRules<'r>,
}

/// Whether rings are asked to turn counterclockwise, if they are asked to turn.
fn turn_for(rewind: Rewind, is_outer: bool) -> Option<bool>
    ensures { result ≡ wanted_of rewind is_outer }
{
    match rewind {
        Rewind::Keep => None,
        Rewind::Rfc7946 => Some(is_outer),
        Rewind::D3 => Some(!is_outer),
    }
}

/// Whether a ring of this area turns the other way.
fn is_wrong(counterclockwise: bool, area: i128) -> bool
    ensures { result ≡ turns_wrong counterclockwise area }
{
    if area > 0 {
        !counterclockwise
    } else {
        area < 0 && counterclockwise
    }
}

/// A ring as it is, or read backwards.
fn rewind_ring(alloc: Global, ring: &[ArcRef], is_wrong: bool) -> Result<Items<ArcRef>, AllocError>
    ensures { IfOk result (λ r. r ≡ (if is_wrong then backwards ring.now else ring.now)) }
{
    let mut refs = Vec::new(alloc);
    if is_wrong {
        add_backwards(&mut refs, ring)?;
    } else {
        refs.extend_from_slice(ring)?;
    }
    Ok(Items::from_vec(refs))
}

impl<'r> Turning<'r> {
    /// The area along a used arc.
    fn along(&self, used: ArcRef) -> Option<i128>
        ensures { IfSome result (λ a. a ≡ area_of self.now.areas.items used) }
    {
        let along = self.areas.get(used.arc).copied().unwrap_or(0);
        if used.reversed {
            along.checked_neg()
        } else {
            Some(along)
        }
    }

    /// Twice the area of a ring, greater than 0 where it turns counterclockwise.
    fn of_ring(&self, ring: &[ArcRef]) -> Option<i128>
        ensures { IfSome result (λ a. a ≡ ring_area self.now.areas.items ring.now) }
    {
        let mut sum = 0i128;
        for used in ring {
            sum = sum.checked_add(self.along(*used)?)?;
        }
        Some(sum)
    }

    /// A ring turned as it is wanted: an outer one, or a hole.
    fn ring(
        &self,
        alloc: Global,
        ring: &[ArcRef],
        is_outer: bool,
    ) -> Result<Items<ArcRef>, OutOfMemory>
        ensures { IfOk result (λ r. r ≡ rewound_ring self.now.areas.items self.now.rules.rewind is_outer ring.now) }
    {
        match turn_for(self.rules.rewind, is_outer) {
            Some(counterclockwise) => match self.of_ring(ring) {
                Some(area) => Ok(rewind_ring(alloc, ring, is_wrong(counterclockwise, area))?),
                None => Err(OutOfMemory),
            },
            None => Ok(rewind_ring(alloc, ring, false)?),
        }
    }

    /// The holes of a polygon.
    fn add_holes(
        &self,
        alloc: Global,
        rings: &mut Vec<Items<ArcRef>>,
        holes: &[Items<ArcRef>],
    ) -> Result<(), OutOfMemory>
        ensures { OnOk result (rings.new.items ≡ rings.old.items ++ map (rewound_ring self.now.areas.items self.now.rules.rewind false) holes.now) }
    {
        for hole in holes {
            rings.push(self.ring(alloc, hole.as_slice(), false)?)?;
        }
        Ok(())
    }

    /// The rings of a polygon, the outer one first.
    fn rings(
        &self,
        alloc: Global,
        rings: &[Items<ArcRef>],
    ) -> Result<Items<Items<ArcRef>>, OutOfMemory>
        ensures { IfOk result (λ r. r ≡ rewound_rings self.now.areas.items self.now.rules.rewind rings.now) }
    {
        let mut made = Vec::new(alloc);
        if let Some((outer, holes)) = rings.split_first() {
            made.push(self.ring(alloc, outer.as_slice(), true)?)?;
            self.add_holes(alloc, &mut made, holes)?;
        }
        Ok(Items::from_vec(made))
    }

    fn polygons(
        &self,
        alloc: Global,
        polygons: &[Items<Items<ArcRef>>],
    ) -> Result<Items<Items<Items<ArcRef>>>, OutOfMemory>
        ensures { IfOk result (λ r. r ≡ map (rewound_rings self.now.areas.items self.now.rules.rewind) polygons.now) }
    {
        let mut made = Vec::new(alloc);
        for rings in polygons {
            made.push(self.rings(alloc, rings.as_slice())?)?;
        }
        Ok(Items::from_vec(made))
    }

    pub(crate) fn body(&self, alloc: Global, body: &Body) -> Result<Body, OutOfMemory>
        ensures { IfOk result (λ b. b ≡ rewound_body self.now.areas.items self.now.rules.rewind body.now) }
    {
        match body {
            Body::Polygon(rings) => Ok(Body::Polygon(self.rings(alloc, rings.as_slice())?)),
            Body::MultiPolygon(polygons) => Ok(Body::MultiPolygon(self.polygons(
                alloc,
                polygons.as_slice(),
            )?)),
            _ => Ok(body.copy(alloc)?),
        }
    }
}
