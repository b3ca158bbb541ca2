//! The laws of what texts have for faults, as contracts of functions that do nothing.
ghost use Rattle.geojson_io.specs.Laws.{FirstIsRead};

/// The fault that `read` answers is the first that `faults` lists.
pub fn first_is_read()
    ensures { FirstIsRead }
{}
