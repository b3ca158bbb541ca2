//! The laws of what texts mean and of their faults, as contracts of functions that do nothing.
ghost use Rattle.topo_io.specs.Laws.{ValidTextsMeanAMap, FirstIsRead, InAnyOrder, OneMeaning};

/// A text means at most one grid and one feature map.
pub fn one_meaning()
    ensures { OneMeaning }
{}

/// Where the layers of a text are valid over its arcs, in order, the text means a feature map, and its
/// arcs and layers are those of that map's topology.
pub fn valid_texts_mean_a_map()
    ensures { ValidTextsMeanAMap }
{}

/// A text means a feature map also where valid layers over other arcs are those of the text, feature by feature, and their
/// geometries are in another order.
pub fn in_any_order()
    ensures { InAnyOrder }
{}

/// The fault that `read` answers is the first that `faults` lists.
pub fn first_is_read()
    ensures { FirstIsRead }
{}
