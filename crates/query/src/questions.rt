//! Questions that are asked of a layer, each in a file of its name. A function's name is not that of
//! a module beside it, so these files are in a module of their own.
pub(crate) mod borders;
pub(crate) mod borders_by;
pub(crate) mod feature;
pub(crate) mod mesh;
pub(crate) mod neighbors;
pub(crate) mod neighbors_by;
