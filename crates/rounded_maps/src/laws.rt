//! The laws of accepted files, each promised by a function that does nothing.
ghost use Rattle.rounded_maps.specs.Laws.{FilesAreFaultless, RoundedMapsAreFaultless};

/// A file that is a map has no faults.
pub fn rounded_maps_are_faultless()
    ensures { RoundedMapsAreFaultless }
{}

/// A file that has maps has no faults, be it GeoJSON or a topology.
pub fn accepted_files_are_faultless()
    ensures { FilesAreFaultless }
{}
