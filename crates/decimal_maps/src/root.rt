//! Roots: a collection of features, a feature or a geometry, whose members come in any order.
ghost use Rattle.decimal_maps.specs.Features.{IsBareGeometry};
ghost use Rattle.decimal_maps.specs.Members.{KnowsGeometry, KnowsParts, KnowsRoot, LookupMeans, root_start};
ghost use Rattle.decimal_maps.specs.Reads.{Gives, then_member};
ghost use Rattle.decimal_maps.specs.Roots.{AreFeatures, IsMap};
ghost use Rattle.json.specs.Json.{Json, Members, document, object};
ghost use Rattle.std.specs.Prelude.{◌≡◌, ◌||◌, codes, IfOk, OnOk, Some};
ghost use Rattle.std.specs.Str.{bytes_eq};

use crate::feature::{FeatureParts, RawFeature, attributes_of, feature_of, no_parts};
use crate::from_tokens::Stop;
use crate::geometry::{GeometryMembers, geometry_of, no_geometry_members};
use crate::kind::Kind;
use crate::list::{read_list, single};
use crate::object::{Lookup, TakeMember, read_object, skip_value};
use crate::rules::{DecimalGrid, MapRules};
use crate::simple::GeometryStart;
use crate::tally::Tally;
use attributes::AttributeRules;
use json::{Reader, Scratch};
use std::alloc::Global;

// How deep values may nest.
const MAX_DEPTH: usize = 128;

/// What was read of a root.
#[derive(Drop)]
pub struct RootMembers<'t> {
    pub geometry: GeometryMembers,
    pub features: Lookup<Vec<RawFeature>>,
    pub parts: FeatureParts<'t>,
}

// The features of a collection, or nothing where the type is that of no collection.
fn read_features<'t>(
    alloc: Global,
    rules: &MapRules<'_>,
    kind: &Lookup<Kind>,
    reader: &mut Reader<'t>,
    depth: usize,
) -> Result<Lookup<Vec<RawFeature>>, Stop>
    ensures { IfOk result (λ n. (j : Json) × Gives depth reader.old j reader.new × LookupMeans (λ k fs. AreFeatures rules.now k fs.items) j n) }
{
    match kind {
        Lookup::Missing => Ok(Lookup::Read(read_list(alloc, rules, reader, depth, &mut ())?)),
        Lookup::Read(Kind::FeatureCollection) => {
            Ok(Lookup::Read(read_list(alloc, rules, reader, depth, &mut ())?))
        }
        _ => {
            skip_value(reader, depth)?;
            Ok(Lookup::Skipped)
        }
    }
}

// Whether a member of that name is a geometry's.
fn is_geometry_member(name: &str) -> bool
    ensures { result ≡ (bytes_eq name.now (codes "type") || bytes_eq name.now (codes "coordinates") || bytes_eq name.now (codes "geometries")) }
{
    name == "type" || name == "coordinates" || name == "geometries"
}

// Parts of a feature, none of which was read.
fn skipped_parts<'t>() -> FeatureParts<'t>
    ensures { (grid : DecimalGrid) (ms : Members) → KnowsParts grid result ms }
{
    FeatureParts {
        geometry: Lookup::Skipped,
        id: Lookup::Skipped,
        properties: Lookup::Skipped,
    }
}

// Reads a member of a feature, or skips it where the type is not that of a feature.
fn take_part<'t>(
    alloc: Global,
    grid: &DecimalGrid,
    kind: &Lookup<Kind>,
    parts: &mut FeatureParts<'t>,
    name: &'t str,
    reader: &mut Reader<'t>,
    depth: usize,
) -> Result<(), Stop>
    ensures { OnOk result ((j : Json) × Gives depth reader.old j reader.new × ((ms : Members) → KnowsParts grid.now parts.old ms → KnowsParts grid.now parts.new (then_member ms name.now j))) }
{
    match kind {
        Lookup::Missing => parts.take(alloc, grid, name, reader, depth),
        Lookup::Read(Kind::Feature) => parts.take(alloc, grid, name, reader, depth),
        _ => {
            *parts = skipped_parts();
            skip_value(reader, depth)
        }
    }
}

impl<'t, 'r> TakeMember<'t, MapRules<'r>> for RootMembers<'t> {
    ghost knows = { λ on m ms. KnowsRoot on m ms };

    fn take(
        &mut self,
        alloc: Global,
        on: &MapRules<'r>,
        name: &'t str,
        reader: &mut Reader<'t>,
        depth: usize,
    ) -> Result<(), Stop> {
        if name == "features" {
            let features = read_features(alloc, on, &self.geometry.simple.kind, reader, depth)?;
            self.features = features;
            return Ok(());
        }
        if is_geometry_member(name) {
            let start = start_of(on);
            return self.geometry.take(alloc, &start, name, reader, depth);
        }
        let kind = &self.geometry.simple.kind;
        take_part(alloc, &on.grid, kind, &mut self.parts, name, reader, depth)
    }
}

// What the geometry of a root is read by.
fn start_of(rules: &MapRules<'_>) -> GeometryStart
    ensures { result ≡ root_start rules.now }
{
    GeometryStart {
        grid: rules.grid,
        counted: Tally::new(),
    }
}

// A geometry that is no feature's, as a feature.
fn bare_feature(
    alloc: Global,
    rules: &MapRules<'_>,
    members: GeometryMembers,
) -> Result<RawFeature, Stop>
    ensures { IfOk result (λ f. (ms : Members) → KnowsGeometry (root_start rules.now) members ms → IsBareGeometry rules.now (object ms) f) }
{
    let (geometry, tally) = geometry_of(alloc, members)?;
    let unnamed = AttributeRules {
        id: None,
        scales: rules.attributes.scales,
        reals: rules.attributes.reals,
    };
    let attributes = attributes_of(alloc, &unnamed, None, None)?;
    Ok(RawFeature {
        attributes,
        geometry,
        tally,
    })
}

// The features of a root's members.
fn map_of<'t>(
    alloc: Global,
    rules: &MapRules<'_>,
    members: RootMembers<'t>,
) -> Result<Vec<RawFeature>, Stop>
    ensures { IfOk result (λ fs. (ms : Members) → KnowsRoot rules.now members.entry ms → IsMap rules.now (object ms) fs.items) }
{
    let RootMembers {
        geometry,
        features,
        parts,
    } = members;
    match geometry.simple.kind {
        Lookup::Read(Kind::FeatureCollection) => features.into_required(),
        Lookup::Read(Kind::Feature) => single(alloc, feature_of(alloc, rules, parts)?),
        _ => single(alloc, bare_feature(alloc, rules, geometry)?),
    }
}

// The root that comes next.
fn read_root<'t>(
    alloc: Global,
    rules: &MapRules<'_>,
    reader: &mut Reader<'t>,
) -> Result<Vec<RawFeature>, Stop>
    ensures { IfOk result (λ fs. (j : Json) × Gives MAX_DEPTH reader.old j reader.new × IsMap rules.now j fs.items) }
{
    let mut members = RootMembers {
        geometry: no_geometry_members(),
        features: Lookup::Missing,
        parts: no_parts(),
    };
    read_object(alloc, rules, &mut members, reader, MAX_DEPTH)?;
    map_of(alloc, rules, members)
}

/// The features of a GeoJSON text (RFC 7946, section 3), each coordinate rounded to the nearest whole number of steps:
/// those of a FeatureCollection, or a Feature, or a geometry as a feature with no id and no properties.
///
/// # Errors
/// `Unread` where it stops, at a fault or before: at collections in collections, and at members before their type that
/// are not what they would mean by another type. `OutOfMemory`.
pub fn read_map(alloc: Global, rules: &MapRules<'_>, text: &str) -> Result<Vec<RawFeature>, Stop>
    ensures { IfOk result (λ fs. (j : Json) × (document text.now ≡ Some j) × IsMap rules.now j fs.items) }
{
    let mut scratch = Scratch::new(alloc);
    let Ok(mut reader) = Reader::new(text, &mut scratch) else {
        return Err(Stop::OutOfMemory);
    };
    let features = read_root(alloc, rules, &mut reader)?;
    if reader.next().is_some() {
        return Err(Stop::Unread);
    }
    Ok(features)
}
