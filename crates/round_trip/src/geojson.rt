//! Written GeoJSON reads back: the laws of `geojson_io`'s writer and reader, promised by functions
//! that do nothing.

ghost use Rattle.round_trip.specs.Geojson.Laws as law;

/// What is written of features that fit the grid is accepted on that grid, and means those features.
pub fn written_collections_are_read()
    ensures { law.WrittenCollectionsAreRead }
{}

/// What is written of a layer of a map that fits the grid is accepted on that grid, and means the layer's features.
pub fn written_layers_are_read()
    ensures { law.WrittenLayersAreRead }
{}
