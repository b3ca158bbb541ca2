//! Which borders are asked for.

/// Borders by how many features have them.
#[derive(Clone, Copy, PartialEq, Eq, Debug)]
pub enum Edges {
    /// All of them.
    All,
    /// Those between two features.
    Interior,
    /// Those of one feature alone.
    Exterior,
}
