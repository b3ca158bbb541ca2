//! What the areas along arcs say of rings, and of numbers on another transform, and what stays on the way back, as
//! contracts of functions that do nothing.
ghost use Rattle.decimals.specs.Topology.Laws.{AreasAddUp, NumbersAreNearest, PropertiesStay, RewoundRingsTurnRight};

/// A ring that is asked to turn some way does not turn the other way.
pub fn rewound_rings_turn_right()
    ensures { RewoundRingsTurnRight }
{}

/// The areas along its arcs add up to that along the positions of a ring.
pub fn areas_add_up()
    ensures { AreasAddUp }
{}

/// The number of an absolute number on another transform is the whole one nearest to its place there, and of two that
/// are equally near the one farther from 0.
#[tactic(auto, using(crate::proofs::TopologyLemmas::Numbers::numbers_are_nearest))]
pub fn numbers_are_nearest()
    ensures { NumbersAreNearest }
{}

/// Where texts stay texts and nothing was scaled, properties stay as they are.
pub fn properties_stay()
    ensures { PropertiesStay }
{}
