//! Layers whose rings are turned as they are wanted, and whose properties have their numbers as they were.
ghost use Rattle.decimals.specs.Topology.LayersBack.{geometry_back, layer_back, layer_in};
ghost use Rattle.std.specs.BTreeMap.{get_by_text};
ghost use Rattle.std.specs.Prelude.{◌≡◌, IfOk, is_some, map};

use crate::topology::properties::{columns_named, columns_of, text_of_properties};
use crate::topology::rules::NumbersBack;
use crate::topology::turning::Turning;
use faults::OutOfMemory;
use shapes::Id;
use shapes::spelled::Spelled;
use std::alloc::Global;
use std::collections::BTreeMap;
use std::marker::Model;
use topo::geom::{Body, Geom};
use topo::topology::Layer;

/// A geometry with the text of its properties.
#[derive(Drop)]
pub struct BackGeometry {
    pub(crate) id: Id,
    pub(crate) properties: String,
    pub(crate) body: Body,
}

impl Model for BackGeometry {
    ghost use Rattle.decimals.specs.Topology.LayersBack.{BackGeometryParts};
    ghost use Rattle.std.specs.Prelude.{string_bytes};

    ghost Value = { BackGeometryParts };

    ghost view = { λ g. record { id = g.id; properties = string_bytes g.properties; body = g.body } };
}

/// A layer of such geometries.
#[derive(Drop)]
pub struct BackLayer {
    pub(crate) name: Spelled,
    pub(crate) geometries: Vec<BackGeometry>,
}

impl Model for BackLayer {
    ghost use Rattle.decimals.specs.Topology.LayersBack.{BackLayerParts};

    ghost Value = { BackLayerParts };

    ghost view = { λ l. record { name = l.name; geometries = l.geometries.items } };
}

impl<'r> Turning<'r> {
    fn geometry(
        &self,
        alloc: Global,
        geometry: &Geom,
        numbers: &BTreeMap<String, u64>,
    ) -> Result<BackGeometry, OutOfMemory>
        ensures { IfOk result (λ g. g ≡ geometry_back (λ name. is_some (get_by_text numbers.now name)) self.now.rules self.now.areas.items geometry.now) }
    {
        let id = geometry.id.copy(alloc)?;
        let properties = text_of_properties(alloc, &geometry.props, numbers, self.rules.scales)?;
        let body = self.body(alloc, &geometry.body)?;
        Ok(BackGeometry {
            id,
            properties,
            body,
        })
    }

    /// A layer with these columns of numbers.
    fn layer_in(
        &self,
        alloc: Global,
        layer: &Layer,
        numbers: &BTreeMap<String, u64>,
    ) -> Result<BackLayer, OutOfMemory>
        ensures { IfOk result (λ l. l ≡ layer_in (λ name. is_some (get_by_text numbers.now name)) self.now.rules self.now.areas.items layer.now) }
    {
        let mut geometries = Vec::new(alloc);
        for geometry in layer.geometries() {
            geometries.push(self.geometry(alloc, geometry, numbers)?)?;
        }
        let name = layer.name().copy(alloc)?;
        Ok(BackLayer { name, geometries })
    }

    fn layer(&self, alloc: Global, layer: &Layer) -> Result<BackLayer, OutOfMemory>
        ensures { IfOk result (λ l. l ≡ layer_back self.now.rules self.now.areas.items layer.now) }
    {
        match self.rules.numbers {
            NumbersBack::None => self.layer_in(alloc, layer, &BTreeMap::new(alloc)),
            NumbersBack::Named(names) => {
                self.layer_in(alloc, layer, &columns_named(alloc, names)?)
            }
            NumbersBack::Columns => {
                let columns = columns_of(alloc, layer.geometries())?;
                self.layer_in(alloc, layer, columns.numbers())
            }
        }
    }

    /// The layers as the rules say.
    pub(crate) fn layers(
        &self,
        alloc: Global,
        layers: &[Layer],
    ) -> Result<Vec<BackLayer>, OutOfMemory>
        ensures { IfOk result (λ ls. ls.items ≡ map (layer_back self.now.rules self.now.areas.items) layers.now) }
    {
        let mut made = Vec::new(alloc);
        for layer in layers {
            made.push(self.layer(alloc, layer)?)?;
        }
        Ok(made)
    }
}
