//! The lines and rings of a map, each cut once: all pieces, and how many each line and ring has.
ghost use Rattle.arcs.specs.declared.piece.Piece as the_piece;
ghost use Rattle.chains.specs.Pieces.{line_pieces, ring_pieces};
ghost use Rattle.chains.specs.Seen.{line_of, ring_of, form_of, seen};
ghost use Rattle.grid.specs.declared.pos.Pos.{Pos};
ghost use Rattle.shapes.specs.Maps.{set_of};
ghost use Rattle.shapes.specs.Sets as set;
ghost use Rattle.std.specs.Prelude.{◌≡◌, ◌++◌, IfOk, List, OnOk, map as map_list};
ghost use Rattle.theory.specs.Lists.{gathered};
ghost use Rattle.theory.specs.Topology.{forms_of};
ghost use Rattle.topo.specs.Building.{count_of, form_pieces, feature_pieces, form_counts, feature_counts};
ghost use Rattle.topo.specs.Cuts.{AreCutsOf};

use chains::cutting::{Piece, cut_line, cut_ring};
use chains::visits::VisitIndex;
use faults::OutOfMemory;
use lines::line::Line;
use lines::ring::Ring;
use shapes::feature::Feature;
use shapes::feature_map::FeatureMap;
use shapes::form_parts::FormParts;
use shapes::shape::Shape;
use std::alloc::Global;
use std::collections::BTreeSet;

/// What is cut at junctions: a line or a ring.
trait CutIntoArcs {
    // The positions that the map has of it.
    ghost positions: { Self → List Pos };

    // The pieces of such positions, cut at these junctions.
    ghost pieces: { List Pos → List Pos → List the_piece.Piece };

    fn cut_into_arcs(&self, alloc: Global, index: &VisitIndex) -> Result<Vec<Piece>, OutOfMemory>
        ensures { IfOk result (λ v. v.items ≡ pieces index.now (positions self.now)) };
}

impl CutIntoArcs for Line {
    ghost positions = { line_of };

    ghost pieces = { line_pieces };

    fn cut_into_arcs(&self, alloc: Global, index: &VisitIndex) -> Result<Vec<Piece>, OutOfMemory> {
        cut_line(alloc, index, self)
    }
}

impl CutIntoArcs for Ring {
    ghost positions = { ring_of };

    ghost pieces = { ring_pieces };

    fn cut_into_arcs(&self, alloc: Global, index: &VisitIndex) -> Result<Vec<Piece>, OutOfMemory> {
        cut_ring(alloc, index, self)
    }
}

/// The pieces of lines and rings, one after the other, and how many pieces each line and ring has.
#[derive(Drop)]
pub(crate) struct Cuts {
    pub(crate) pieces: Vec<Piece>,
    pub(crate) counts: Vec<usize>,
}

impl Cuts {
    /// Puts the pieces of a line or ring last.
    fn add<C: CutIntoArcs>(
        &mut self,
        alloc: Global,
        index: &VisitIndex,
        item: &C,
    ) -> Result<(), OutOfMemory>
        ensures pieces { OnOk result (self.new.pieces.items ≡ self.old.pieces.items ++ C.pieces index.now (C.positions item.now)) }
        ensures counts { OnOk result (self.new.counts.items ≡ self.old.counts.items ++ count_of (C.pieces index.now) (C.positions item.now)) }
    {
        let mut cut = item.cut_into_arcs(alloc, index)?;
        self.counts.push(cut.len())?;
        self.pieces.append(&mut cut)?;
        Ok(())
    }

    fn add_each<C: CutIntoArcs>(
        &mut self,
        alloc: Global,
        index: &VisitIndex,
        items: FormParts<'_, C>,
    ) -> Result<(), OutOfMemory>
        ensures pieces { OnOk result (self.new.pieces.items ≡ self.old.pieces.items ++ gathered (C.pieces index.now) (map_list C.positions items.entry)) }
        ensures counts { OnOk result (self.new.counts.items ≡ self.old.counts.items ++ gathered (count_of (C.pieces index.now)) (map_list C.positions items.entry)) }
    {
        for item in items {
            self.add(alloc, index, item)?;
        }
        Ok(())
    }

    fn add_shape(
        &mut self,
        alloc: Global,
        index: &VisitIndex,
        shape: &Shape,
    ) -> Result<(), OutOfMemory>
        ensures pieces { OnOk result (self.new.pieces.items ≡ self.old.pieces.items ++ form_pieces index.now (form_of shape.now)) }
        ensures counts { OnOk result (self.new.counts.items ≡ self.old.counts.items ++ form_counts index.now (form_of shape.now)) }
    {
        self.add_each(alloc, index, shape.lines())?;
        self.add_each(alloc, index, shape.rings())
    }

    fn add_features(
        &mut self,
        alloc: Global,
        index: &VisitIndex,
        features: &BTreeSet<Feature>,
    ) -> Result<(), OutOfMemory>
        ensures pieces { OnOk result (self.new.pieces.items ≡ self.old.pieces.items ++ gathered (feature_pieces index.now) (set.items (set_of features.now))) }
        ensures counts { OnOk result (self.new.counts.items ≡ self.old.counts.items ++ gathered (feature_counts index.now) (set.items (set_of features.now))) }
    {
        for feature in features.iter() {
            self.add_shape(alloc, index, &feature.shape)?;
        }
        Ok(())
    }

    fn add_layers(
        &mut self,
        alloc: Global,
        index: &VisitIndex,
        map: &FeatureMap,
    ) -> Result<(), OutOfMemory>
        ensures pieces { OnOk result (self.new.pieces.items ≡ self.old.pieces.items ++ gathered (form_pieces index.now) (forms_of (seen map.now))) }
        ensures counts { OnOk result (self.new.counts.items ≡ self.old.counts.items ++ gathered (form_counts index.now) (forms_of (seen map.now))) }
    {
        for layer in map.layers() {
            self.add_features(alloc, index, &layer.features)?;
        }
        Ok(())
    }

    /// All lines and rings of the map, in its order, cut at its junctions.
    pub(crate) fn of(alloc: Global, map: &FeatureMap) -> Result<Cuts, OutOfMemory>
        ensures { IfOk result (λ c. AreCutsOf map.now c) }
    {
        let index = VisitIndex::of(alloc, map)?;
        let mut cuts = Cuts {
            pieces: Vec::new(alloc),
            counts: Vec::new(alloc),
        };
        cuts.add_layers(alloc, &index, map)?;
        Ok(cuts)
    }
}
