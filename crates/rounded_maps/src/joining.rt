//! Maps whose nearly shared vertices are joined.
ghost use Rattle.faults.specs.Fault.{IsWant, pair_of};
ghost use Rattle.faults.specs.Path.{index, name};
ghost use Rattle.fixing.specs.Forms.{one, plain_shape};
ghost use Rattle.fixing.specs.Geometries.{geometry_counted, geometry_left};
ghost use Rattle.rounded_maps.specs.Joined.{AreJoined, AreJoinedShapes, IsJoined, IsJoinedMap, IsJoinedShape};
ghost use Rattle.rounded_maps.specs.Unjoined.{HasRefusedShape, IsRefusedShape, IsUnjoined, RefusesFor, kind_moved};
ghost use Rattle.rounded_maps.specs.declared.map.RoundedFeature.{RoundedFeature as Joined};
ghost use Rattle.rounded_maps.specs.declared.joining.Unjoined.TheVariants.{OutOfMemory as WantOfMemory};
ghost use Rattle.shapes.specs.Shapes.{Shape as Form};
ghost use Rattle.snapping.specs.NearlyShared.Joined.{target_in};
ghost use Rattle.snapping.specs.NearlyShared.Moved.{Moves, moved_shape};
ghost use Rattle.std.specs.Prelude.{◌≡◌, ◌⊎◌, ◌∷◌, ◌++◌, [], IfErr, IfOk, List, None, OnOk, Some, codes, map};

use crate::map::{RoundedFeature, RoundedMap, nothing_fixed};
use faults::{Fault, FaultKind, OutOfMemory};
use fixing::{Broken, FixedFeature, Fixes, FixingRules, RawGeometry, fix_geometry};
use shapes::Shape;
use snapping::nearly_shared::{Clusters, join_shape};
use std::alloc::{AllocError, AllocFailed, Global};

/// Why a shape is not joined.
#[derive(Clone, Copy, Drop)]
enum Unjoined {
    /// The moves collapse or fold it, and that is refused.
    Refused(FaultKind),
    /// A growth of memory was refused.
    OutOfMemory,
}

impl From<OutOfMemory> for Unjoined {
    ghost from_gives = { λ _ e. e ≡ WantOfMemory };

    fn from(_error: OutOfMemory) -> Unjoined {
        Unjoined::OutOfMemory
    }
}

impl From<AllocError> for Unjoined {
    ghost from_gives = { λ _ e. e ≡ WantOfMemory };

    fn from(_error: AllocError) -> Unjoined {
        Unjoined::OutOfMemory
    }
}

impl<T: Drop> From<AllocFailed<T>> for Unjoined {
    ghost from_gives = { λ _ e. e ≡ WantOfMemory };

    fn from(_failed: AllocFailed<T>) -> Unjoined {
        Unjoined::OutOfMemory
    }
}

/// What is left of a shape whose vertices are moved to where they are joined.
fn fix_moved(
    alloc: Global,
    shape: Shape,
    clusters: &Clusters,
    rules: &FixingRules,
    fixes: &mut Fixes,
) -> Result<Vec<Shape>, Broken>
    ensures left { IfOk result (λ left. geometry_left rules.now (one (moved_shape (target_in clusters.now) shape)) ≡ Some (map plain_shape left.items)) }
    ensures fixes { OnOk result (fixes.new ≡ geometry_counted rules.now (one (moved_shape (target_in clusters.now) shape)) fixes.old) }
    ensures refused { IfErr result (λ e. e ≡ Broken.Refused → geometry_left rules.now (one (moved_shape (target_in clusters.now) shape)) ≡ None) }
{
    let moved = join_shape(alloc, shape, clusters)?;
    fix_geometry(alloc, RawGeometry::One(moved), rules, fixes)
}

/// The fault of a shape that the moves collapse or fold: that it is too short, unless splitting it leaves something.
fn refused_kind(
    alloc: Global,
    shape: Shape,
    clusters: &Clusters,
    rules: &FixingRules,
) -> Result<FaultKind, OutOfMemory>
    ensures { IfOk result (λ kind. kind ≡ kind_moved rules.now (target_in clusters.now) shape) }
{
    let splitting = FixingRules {
        splits_folded: true,
        ..*rules
    };
    let mut fixes = nothing_fixed();
    match fix_moved(alloc, shape, clusters, &splitting, &mut fixes) {
        Ok(_) => Ok(FaultKind::Revisit),
        Err(Broken::Refused) => Ok(FaultKind::TooShort),
        Err(Broken::OutOfMemory) => Err(OutOfMemory),
    }
}

/// What becomes of a shape of which a vertex is moved.
fn join_moved(
    alloc: Global,
    shape: Shape,
    clusters: &Clusters,
    rules: &FixingRules,
    fixes: &mut Fixes,
) -> Result<Vec<Shape>, Unjoined>
    ensures left { IfOk result (λ left. geometry_left rules.now (one (moved_shape (target_in clusters.now) shape)) ≡ Some (map plain_shape left.items)) }
    ensures fixes { OnOk result (fixes.new ≡ geometry_counted rules.now (one (moved_shape (target_in clusters.now) shape)) fixes.old) }
    ensures refused { Moves (target_in clusters.now) shape → IfErr result (RefusesFor (IsRefusedShape rules.now (target_in clusters.now) shape)) }
{
    let before = shape.copy(alloc)?;
    match fix_moved(alloc, shape, clusters, rules, fixes) {
        Ok(left) => Ok(left),
        Err(Broken::Refused) => Err(Unjoined::Refused(refused_kind(
            alloc, before, clusters, rules,
        )?)),
        Err(Broken::OutOfMemory) => Err(Unjoined::OutOfMemory),
    }
}

/// Adds shapes behind others.
fn add_shapes(shapes: &mut Vec<Shape>, others: Vec<Shape>) -> Result<(), Unjoined>
    ensures ok { OnOk result (shapes.new.items ≡ shapes.old.items ++ others.items) }
    ensures err { IfErr result (λ e. e ≡ WantOfMemory) }
{
    for shape in others {
        shapes.push(shape)?;
    }
    Ok(())
}

/// Adds what becomes of a shape: what is left of it where a vertex is moved, else itself.
fn join_one(
    alloc: Global,
    shape: Shape,
    clusters: &Clusters,
    rules: &FixingRules,
    fixes: &mut Fixes,
    joined: &mut Vec<Shape>,
) -> Result<(), Unjoined>
    ensures ok { OnOk result ((left : List Form) × (joined.new.items ≡ joined.old.items ++ left) × IsJoinedShape rules.now (target_in clusters.now) shape left fixes.old fixes.new) }
    ensures err { IfErr result (RefusesFor (IsRefusedShape rules.now (target_in clusters.now) shape)) }
{
    if !clusters.moves_any(alloc, &shape)? {
        joined.push(shape)?;
        return Ok(());
    }
    let left = join_moved(alloc, shape, clusters, rules, fixes)?;
    add_shapes(joined, left)
}

/// What becomes of the shapes of a feature.
fn join_shapes(
    alloc: Global,
    shapes: Vec<Shape>,
    clusters: &Clusters,
    rules: &FixingRules,
    fixes: &mut Fixes,
) -> Result<Vec<Shape>, Unjoined>
    ensures ok { IfOk result (λ joined. AreJoinedShapes rules.now (target_in clusters.now) shapes.items joined.items fixes.old fixes.new) }
    ensures err { IfErr result (RefusesFor (HasRefusedShape rules.now (target_in clusters.now) shapes.items)) }
{
    let mut joined = Vec::with_capacity(alloc, shapes.len())?;
    for shape in shapes {
        join_one(alloc, shape, clusters, rules, fixes, &mut joined)?;
    }
    Ok(joined)
}

/// A feature with its vertices joined, and what is fixed of it then counted too.
fn join_feature(
    alloc: Global,
    feature: RoundedFeature,
    clusters: &Clusters,
    rules: &FixingRules,
) -> Result<RoundedFeature, Unjoined>
    ensures ok { IfOk result (IsJoined rules.now (target_in clusters.now) feature) }
    ensures err { IfErr result (RefusesFor (HasRefusedShape rules.now (target_in clusters.now) feature.feature.shapes.items)) }
{
    let RoundedFeature { feature, fixes } = feature;
    let FixedFeature { id, props, shapes } = feature;
    let mut again = nothing_fixed();
    let shapes = join_shapes(alloc, shapes, clusters, rules, &mut again)?;
    Ok(RoundedFeature {
        feature: FixedFeature { id, props, shapes },
        fixes: fixes.with(again),
    })
}

/// Adds a feature with its vertices joined.
fn join_next(
    alloc: Global,
    feature: RoundedFeature,
    clusters: &Clusters,
    rules: &FixingRules,
    joined: &mut Vec<RoundedFeature>,
) -> Result<(), Unjoined>
    ensures ok { OnOk result ((f : Joined) × (joined.new.items ≡ joined.old.items ++ f ∷ []) × IsJoined rules.now (target_in clusters.now) feature f) }
    ensures err { IfErr result (RefusesFor (HasRefusedShape rules.now (target_in clusters.now) feature.feature.shapes.items)) }
{
    joined.push(join_feature(alloc, feature, clusters, rules)?)?;
    Ok(())
}

/// The fault of the feature with this number.
fn refuse_feature(alloc: Global, unjoined: Unjoined, feature: usize) -> Fault
    ensures kind { RefusesFor (λ kind. IsWant result ⊎ (pair_of result ≡ record { path = name (codes "features") ∷ index feature ∷ []; kind = kind })) unjoined }
    ensures want { unjoined ≡ WantOfMemory → IsWant result }
{
    match unjoined {
        Unjoined::Refused(kind) => Fault::here(alloc, kind)
            .under_index(feature)
            .under_name(alloc, "features"),
        Unjoined::OutOfMemory => Fault::here(alloc, FaultKind::OutOfMemory),
    }
}

/// The features of a map with their vertices joined.
fn join_features(
    alloc: Global,
    features: Vec<RoundedFeature>,
    clusters: &Clusters,
    rules: &FixingRules,
) -> Result<Vec<RoundedFeature>, Fault>
    ensures ok { IfOk result (λ fs. AreJoined rules.now (target_in clusters.now) features.items fs.items) }
    ensures err { IfErr result (IsUnjoined rules.now (target_in clusters.now) 0 features.items) }
{
    let mut joined = Vec::new(alloc);
    for feature in features {
        let number = joined.len();
        match join_next(alloc, feature, clusters, rules, &mut joined) {
            Ok(()) => {}
            Err(unjoined) => return Err(refuse_feature(alloc, unjoined, number)),
        }
    }
    Ok(joined)
}

/// A map with its vertices joined: each moved to where the clusters say, and what is moved fixed again.
///
/// # Errors
/// A fault of the feature that the moves collapse or fold, where that is refused; `OutOfMemory`.
pub(crate) fn join_map(
    alloc: Global,
    rounded: RoundedMap,
    clusters: &Clusters,
    rules: &FixingRules,
) -> Result<RoundedMap, Fault>
    ensures ok { IfOk result (IsJoinedMap rules.now (target_in clusters.now) rounded) }
    ensures err { IfErr result (IsUnjoined rules.now (target_in clusters.now) 0 rounded.features.items) }
{
    let RoundedMap {
        features,
        tally,
        reals,
    } = rounded;
    let features = join_features(alloc, features, clusters, rules)?;
    Ok(RoundedMap {
        features,
        tally,
        reals,
    })
}
