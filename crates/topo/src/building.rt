//! The topology of a map: its lines and rings are cut, all pieces are put into the table of arcs, and
//! each line and ring becomes the list of the arcs that its pieces are.
ghost use Rattle.chains.specs.Seen.{geometry_of};
ghost use Rattle.shapes.specs.Maps.{set_of};
ghost use Rattle.shapes.specs.Sets as set;
ghost use Rattle.std.specs.FinMap.{entries};
ghost use Rattle.std.specs.Prelude.{◌≡◌, ◌<◌, ◌^◌, IfOk, OnOk, drop, length, map as map_list};
ghost use Rattle.theory.specs.Arcs.{EachSegmentOnce};
ghost use Rattle.topo.specs.Building.{parts_entry};
ghost use Rattle.topo.specs.OfMap.{ArePartsOf, IsTopology, seen_parts, the_topology, IsOf};
ghost use Rattle.topo.specs.Taken.{first_list, taken, polygons_taken, polygons_left, body_taken, shape_left, geometry_taken, geometries_taken, features_left, layer_taken, entries_taken};

use crate::cuts::Cuts;
use crate::geom::{Body, Geom, copy_positions};
use crate::topology::{Layer, Topology};
use chains::table::{ArcRef, ArcTable};
use faults::OutOfMemory;
use grid::Grid;
use lines::items::Items;
use lines::ring::Ring;
use shapes::feature::Feature;
use shapes::feature_map::FeatureMap;
use shapes::layer::FeatureLayer;
use shapes::shape::Shape;
use std::alloc::Global;
use std::collections::BTreeSet;
use std::marker::Model;

/// The lists of used arcs of the lines and rings of a map that are not taken yet, in the map's order:
/// the used arcs of all, and how many each has.
#[derive(Drop)]
struct UsedLists<'a> {
    refs: &'a [ArcRef],
    counts: &'a [usize],
}

impl<'a> Model for UsedLists<'a> {
    ghost use Rattle.std.specs.Prelude.{List};
    ghost use Rattle.theory.specs.ArcNumbers.{ArcRef};
    ghost use Rattle.topo.specs.Taken.{parted};

    ghost Value = { List (List ArcRef) };

    ghost view = { λ a. parted a.counts.now a.refs.now };
}

impl<'a> UsedLists<'a> {
    /// Takes the list of the next line or ring.
    fn next_list(&mut self, alloc: Global) -> Result<Items<ArcRef>, OutOfMemory>
        ensures list { IfOk result (λ v. v ≡ first_list self.old) }
        ensures left { OnOk result (self.new ≡ drop 1 self.old) }
    {
        let Some((count, counts)) = self.counts.split_first() else {
            return Ok(Items::from_vec(Vec::new(alloc)));
        };
        let (these, others) = self.refs.split_at((*count).min(self.refs.len()));
        let list = these.to_vec(alloc)?;
        self.refs = others;
        self.counts = counts;
        Ok(Items::from_vec(list))
    }

    /// Takes the lists of so many lines or rings.
    fn next_lists(
        &mut self,
        alloc: Global,
        count: usize,
    ) -> Result<Items<Items<ArcRef>>, OutOfMemory>
        ensures lists { IfOk result (λ v. v ≡ taken count self.old) }
        ensures left { OnOk result (self.new ≡ drop count self.old) }
    {
        let mut lists = Vec::with_capacity(alloc, count)?;
        for _ in 0..count {
            lists.push(self.next_list(alloc)?)?;
        }
        Ok(Items::from_vec(lists))
    }

    fn polygons(
        &mut self,
        alloc: Global,
        polygons: &[Items<Ring>],
    ) -> Result<Items<Items<Items<ArcRef>>>, OutOfMemory>
        ensures lists { IfOk result (λ v. v ≡ polygons_taken polygons.now self.old) }
        ensures left { OnOk result (self.new ≡ polygons_left polygons.now self.old) }
    {
        let mut lists = Vec::with_capacity(alloc, polygons.len())?;
        for rings in polygons {
            lists.push(self.next_lists(alloc, rings.as_slice().len())?)?;
        }
        Ok(Items::from_vec(lists))
    }

    fn body(&mut self, alloc: Global, shape: &Shape) -> Result<Body, OutOfMemory>
        ensures body { IfOk result (λ b. b ≡ body_taken shape.now self.old) }
        ensures left { OnOk result (self.new ≡ shape_left shape.now self.old) }
    {
        match shape {
            Shape::Null => Ok(Body::Null),
            Shape::Point(p) => Ok(Body::Point(*p)),
            Shape::MultiPoint(ps) => Ok(Body::MultiPoint(copy_positions(alloc, ps.as_slice())?)),
            Shape::Line(_) => Ok(Body::Line(self.next_list(alloc)?)),
            Shape::MultiLine(lines) => {
                Ok(Body::MultiLine(self.next_lists(alloc, lines.as_slice().len())?))
            }
            Shape::Polygon(rings) => {
                Ok(Body::Polygon(self.next_lists(alloc, rings.as_slice().len())?))
            }
            Shape::MultiPolygon(polygons) => {
                Ok(Body::MultiPolygon(self.polygons(alloc, polygons.as_slice())?))
            }
        }
    }

    fn geometry(&mut self, alloc: Global, feature: Feature) -> Result<Geom, OutOfMemory>
        ensures geometry { IfOk result (λ g. g ≡ geometry_taken feature self.old) }
        ensures left { OnOk result (self.new ≡ shape_left feature.shape self.old) }
    {
        let body = self.body(alloc, &feature.shape)?;
        Ok(Geom {
            id: feature.id,
            props: feature.props,
            body,
        })
    }

    fn geometries(
        &mut self,
        alloc: Global,
        features: BTreeSet<Feature>,
    ) -> Result<Vec<Geom>, OutOfMemory>
        ensures geometries { IfOk result (λ v. v.items ≡ geometries_taken (set.items (set_of features)) self.old) }
        ensures left { OnOk result (self.new ≡ features_left (set.items (set_of features)) self.old) }
    {
        let mut geometries = Vec::with_capacity(alloc, features.len())?;
        for feature in features {
            geometries.push(self.geometry(alloc, feature)?)?;
        }
        Ok(geometries)
    }

    fn layer(&mut self, alloc: Global, layer: FeatureLayer) -> Result<Layer, OutOfMemory>
        ensures layer { IfOk result (λ l. l ≡ layer_taken layer self.old) }
        ensures left { OnOk result (self.new ≡ features_left (set.items (set_of layer.features)) self.old) }
    {
        let FeatureLayer { name, features } = layer;
        let geometries = self.geometries(alloc, features)?;
        Ok(Layer::new(name, geometries))
    }

    fn layers(&mut self, alloc: Global, map: FeatureMap) -> Result<Vec<Layer>, OutOfMemory>
        ensures { IfOk result (λ v. map_list parts_entry v.items ≡ entries_taken (entries map) self.old) }
    {
        let mut layers = Vec::new(alloc);
        for (_, layer) in map.into_layers() {
            layers.push(self.layer(alloc, layer)?)?;
        }
        Ok(layers)
    }
}

/// The table of a map's arcs, and its layers by them.
#[derive(Drop)]
struct BuiltParts {
    table: ArcTable,
    layers: Vec<Layer>,
}

fn parts_of(alloc: Global, map: FeatureMap) -> Result<BuiltParts, OutOfMemory>
    ensures { IfOk result (λ p. ArePartsOf map p.table p.layers.items) }
{
    let Cuts { pieces, counts } = Cuts::of(alloc, &map)?;
    let (table, refs) = ArcTable::with_refs(alloc, pieces)?;
    let mut lists = UsedLists {
        refs: &refs,
        counts: &counts,
    };
    let layers = lists.layers(alloc, map)?;
    Ok(BuiltParts { table, layers })
}

impl Topology {
    /// The topology of a map on a grid: its arcs are all chains of the map in least direction,
    /// sorted; each line and ring is the list of arcs that stitches to it, a ring read from its least
    /// junction, or from its least vertex where it has none. The map is copied; `build_owned` moves its ids
    /// and properties.
    ///
    /// # Errors
    /// Where memory is refused.
    pub fn build(alloc: Global, grid: &Grid, map: &FeatureMap) -> Result<Topology, OutOfMemory>
        ensures topology { IfOk result (λ t. IsTopology grid.now map.now (seen_parts t)) }
        ensures computed { IfOk result (λ t. seen_parts t ≡ the_topology grid.now map.now) }
        ensures segments { IfOk result (λ t. EachSegmentOnce (geometry_of map.now) t.arcs.arcs) }
        ensures of_map { IfOk result (λ t. IsOf map.now t) }
        ensures few { IfOk result (λ t. length t.arcs.arcs < 2 ^ 63) }
    {
        Topology::build_owned(alloc, grid, map.copy()?)
    }

    /// `build` of a map that is consumed.
    ///
    /// # Errors
    /// Where memory is refused.
    pub fn build_owned(alloc: Global, grid: &Grid, map: FeatureMap) -> Result<Topology, OutOfMemory>
        ensures topology { IfOk result (λ t. IsTopology grid.now map (seen_parts t)) }
        ensures computed { IfOk result (λ t. seen_parts t ≡ the_topology grid.now map) }
        ensures segments { IfOk result (λ t. EachSegmentOnce (geometry_of map) t.arcs.arcs) }
        ensures of_map { IfOk result (λ t. IsOf map t) }
        ensures few { IfOk result (λ t. length t.arcs.arcs < 2 ^ 63) }
    {
        let parts = parts_of(alloc, map)?;
        Ok(Topology::from_parts(*grid, parts.table, parts.layers))
    }
}
