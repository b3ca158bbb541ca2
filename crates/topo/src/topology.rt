//! A topology as a value.
ghost use Rattle.grid.specs.declared.pos.Pos.{Pos};
ghost use Rattle.shapes.specs.Maps.{Layers};
ghost use Rattle.shapes.specs.Parts.{spelled_text};
ghost use Rattle.std.specs.Prelude.{◌≡◌, ◌↔◌, ◌<◌, ◌^◌, length, IfOk, IfSome, IfNone, IsTrue, List};
ghost use Rattle.theory.specs.ArcNumbers.{StitchTo};
ghost use Rattle.theory.specs.Lists.{Has};
ghost use Rattle.topo.specs.OfMap.{ArePartsOf, IsOf, IsOfSomeMap, IsTopology, seen_parts, the_topology};
ghost use Rattle.topo.specs.Parts.{LayerParts, IsOfLayerNamed};
ghost use Rattle.topo.specs.Walked.{walked};

use crate::bounds::{Bbox, bounds};
use crate::geom::Geom;
use crate::walk::Walk;
use chains::table::{ArcRef, ArcTable};
use faults::OutOfMemory;
use grid::Grid;
use lines::items::Items;
use shapes::copying::{CopyIn, copy_each};
use shapes::spelled::Spelled;
use std::alloc::Global;
use std::marker::Model;

/// A layer of a topology: its name and its geometries, in the order of the features.
#[derive(Drop)]
pub struct Layer {
    name: Spelled,
    geometries: Items<Geom>,
}

impl Model for Layer {
    ghost use Rattle.topo.specs.Parts.{LayerParts};

    ghost Value = { LayerParts };

    ghost view = { λ l. record { name = l.name; geometries = l.geometries } };
}

impl Layer {
    /// The layer of a name and its geometries.
    pub fn new(name: Spelled, geometries: Vec<Geom>) -> Layer
        ensures { result ≡ record { name = name; geometries = geometries.items } }
    {
        Layer {
            name,
            geometries: Items::from_vec(geometries),
        }
    }

    /// The layer's name.
    pub fn name(&self) -> &Spelled
        ensures { result.now ≡ self.now.name }
    {
        &self.name
    }

    /// The layer's geometries, in the order of the features.
    pub fn geometries(&self) -> &[Geom]
        ensures { result.now ≡ self.now.geometries }
    {
        self.geometries.as_slice()
    }

    /// The layer's name, and its geometries in the order of the features.
    pub fn into_parts(self) -> (Spelled, Vec<Geom>)
        ensures name { result.0 ≡ self.name }
        ensures geometries { result.1.items ≡ self.geometries }
    {
        (self.name, self.geometries.into_vec())
    }

    /// An equal layer.
    pub fn copy(&self, alloc: Global) -> Result<Layer, OutOfMemory>
        ensures { IfOk result (λ l. l ≡ self.now) }
    {
        let name = self.name.copy(alloc)?;
        let geometries = copy_each(alloc, self.geometries())?;
        Ok(Layer::new(name, geometries))
    }
}

impl CopyIn for Layer {
    fn copy_in(&self, alloc: Global) -> Result<Layer, OutOfMemory> {
        self.copy(alloc)
    }
}

fn is_named(layer: &Layer, name: &str) -> bool
    ensures { IsTrue result ↔ (spelled_text layer.now.name ≡ name.now) }
{
    layer.name().text() == name
}

fn find_geometries<'a>(layers: &'a [Layer], name: &str) -> Option<&'a [Geom]>
    ensures found { IfSome result (λ gs. IsOfLayerNamed layers.now name.now gs.now) }
    ensures none { IfNone result ((l : LayerParts) → Has l layers.now → ¬ (spelled_text l.name ≡ name.now)) }
{
    for layer in layers {
        if is_named(layer, name) {
            return Some(layer.geometries());
        }
    }
    None
}

/// A quantized topology (TopoJSON section 2.1): the grid, the arcs, and for each layer its
/// geometries as lists of arcs. The bounding box of its positions is kept with it, or sought when it is
/// asked for.
#[derive(Drop)]
pub struct Topology {
    grid: Grid,
    arcs: ArcTable,
    layers: Items<Layer>,
    bbox: Bbox,
}

impl Model for Topology {
    ghost use Rattle.topo.specs.Parts.{TopologyParts};

    ghost Value = { TopologyParts };

    ghost use Rattle.topo.specs.Inside.{parts_inside, IsOfSomeMapInside};

    ghost view = { parts_inside };

    ghost invariant = { IsOfSomeMapInside };
}

impl Topology {
    /// The topology of its parts: those of one map on the grid. The layers are in the byte order
    /// of their names.
    pub fn from_parts(grid: Grid, arcs: ArcTable, layers: Vec<Layer>) -> Topology
        requires { (m : Layers) × ArePartsOf m arcs layers.items }
        ensures grid { result.grid ≡ grid }
        ensures arcs { result.arcs ≡ arcs }
        ensures layers { result.layers ≡ layers.items }
        ensures of_map { (m : Layers) → ArePartsOf m arcs layers.items → IsOf m result }
        ensures few { length result.arcs.arcs < 2 ^ 63 }
    {
        let bbox = bounds(&grid, &arcs, &layers);
        Topology {
            grid,
            arcs,
            layers: Items::from_vec(layers),
            bbox: Bbox::Known(bbox),
        }
    }

    /// `from_parts` of a topology whose box is not asked for, or seldom: it is sought each time that it
    /// is asked for.
    pub fn from_parts_without_bbox(grid: Grid, arcs: ArcTable, layers: Vec<Layer>) -> Topology
        requires { (m : Layers) × ArePartsOf m arcs layers.items }
        ensures grid { result.grid ≡ grid }
        ensures arcs { result.arcs ≡ arcs }
        ensures layers { result.layers ≡ layers.items }
        ensures of_map { (m : Layers) → ArePartsOf m arcs layers.items → IsOf m result }
        ensures few { length result.arcs.arcs < 2 ^ 63 }
    {
        let bbox = Bbox::unknown_box(&arcs, &layers);
        Topology {
            grid,
            arcs,
            layers: Items::from_vec(layers),
            bbox,
        }
    }

    /// The grid.
    pub fn grid(&self) -> Grid
        ensures { result ≡ self.now.grid }
    {
        self.grid
    }

    /// Whether both topologies have one grid.
    pub fn is_on_grid_of(&self, other: &Topology) -> bool
        ensures { IsTrue result ↔ (self.now.grid ≡ other.now.grid) }
    {
        self.grid == other.grid
    }

    /// The arcs, sorted.
    pub fn arcs(&self) -> &ArcTable
        ensures arcs { result.now ≡ self.now.arcs }
        ensures of_map { IsOfSomeMap self.now }
    {
        &self.arcs
    }

    /// The layers, in the byte order of their names.
    pub fn layers(&self) -> &[Layer]
        ensures layers { result.now ≡ self.now.layers }
        ensures of_map { IsOfSomeMap self.now }
    {
        self.layers.as_slice()
    }

    /// The geometries of the layer of a name; None exactly where there is no such layer.
    pub fn geometries(&self, name: &str) -> Option<&[Geom]>
        ensures found { IfSome result (λ gs. IsOfLayerNamed self.now.layers name.now gs.now) }
        ensures none { IfNone result ((l : LayerParts) → Has l self.now.layers → ¬ (spelled_text l.name ≡ name.now)) }
        ensures of_map { IsOfSomeMap self.now }
    {
        find_geometries(self.layers(), name)
    }

    /// Least x, least y, greatest x and greatest y of all positions, in absolute numbers (TopoJSON
    /// section 3); None where no position is there.
    pub fn bbox(&self) -> Option<(i64, i64, i64, i64)>
        ensures { result ≡ self.now.bbox }
    {
        match self.bbox {
            Bbox::Known(bbox) => bbox,
            Bbox::Unknown => bounds(&self.grid, &self.arcs, self.layers.as_slice()),
        }
    }

    /// The positions that a list of arcs stitches to, borrowed from the arcs.
    pub fn walk<'a>(&'a self, refs: &'a [ArcRef]) -> Walk<'a>
        ensures walked { result ≡ walked self.now.arcs.arcs refs.now }
        ensures stitched { (l : List Pos) → StitchTo self.now.arcs.arcs refs.now l → result ≡ l }
    {
        Walk::over(&self.arcs, refs)
    }

    /// The arcs, sorted, and the layers in the byte order of their names.
    pub fn into_parts(self) -> (ArcTable, Vec<Layer>)
        ensures arcs { result.0 ≡ self.arcs }
        ensures layers { result.1.items ≡ self.layers }
        ensures of_map { IsOfSomeMap self }
    {
        (self.arcs, self.layers.into_vec())
    }

    /// An equal topology over an equal table of arcs.
    fn over(&self, alloc: Global, arcs: ArcTable) -> Result<Topology, OutOfMemory>
        requires { arcs ≡ self.now.arcs }
        ensures { IfOk result (λ t. t ≡ self.now) }
    {
        let layers = copy_each(alloc, self.layers())?;
        Ok(Topology {
            grid: self.grid,
            arcs,
            layers: Items::from_vec(layers),
            bbox: self.bbox,
        })
    }

    /// An equal topology, with lists of its own.
    pub fn copy(&self, alloc: Global) -> Result<Topology, OutOfMemory>
        ensures { IfOk result (λ t. t ≡ self.now) }
    {
        let arcs = self.arcs.copy(alloc)?;
        self.over(alloc, arcs)
    }

    /// An equal topology, which shares the arcs' positions with this one.
    pub fn share(&self, alloc: Global) -> Result<Topology, OutOfMemory>
        ensures { IfOk result (λ t. t ≡ self.now) }
    {
        let arcs = self.arcs.share(alloc)?;
        self.over(alloc, arcs)
    }
}
