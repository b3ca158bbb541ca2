//! What is fixed, and what was.
ghost use Rattle.fixing.specs.Counts.{is_any, sum_of_fixes};
ghost use Rattle.std.specs.Prelude.{◌≡◌};

/// What becomes of a feature of which no shape is left.
#[derive(Clone, Copy, PartialEq, Eq, Debug)]
pub enum Collapsed {
    /// Its geometry is null.
    Null,
    /// It is dropped.
    Drop,
    /// There is none: a line or ring of too few positions is a fault.
    Refuse,
}

/// How rings are turned. One without an area turns as the lesser of its two directions does, unless all rings are kept.
#[derive(Clone, Copy, PartialEq, Eq, Debug)]
pub enum Rewind {
    /// Not at all.
    Keep,
    /// Outer rings counterclockwise, holes clockwise (RFC 7946, section 3.1.6).
    Rfc7946,
    /// Outer rings clockwise, holes counterclockwise, as d3-geo reads them.
    D3,
}

/// What is fixed.
#[derive(Clone, Copy, PartialEq, Eq, Debug)]
pub struct FixingRules {
    pub collapsed: Collapsed,
    /// Whether an open ring is closed by its first position, before anything else is checked. Otherwise it is a fault.
    pub closes_rings: bool,
    /// Whether lines and rings that use a segment twice are split.
    pub splits_folded: bool,
    /// Whether GeometryCollections are split into features. Otherwise they are refused.
    pub splits_collections: bool,
    pub rewind: Rewind,
}

/// How much was fixed.
#[derive(Clone, Copy, PartialEq, Eq, Debug, Default)]
pub struct Fixes {
    /// Rings that were open, and were closed.
    pub closed: u64,
    /// Lines and rings that were dropped, because too few positions were left.
    pub collapsed: u64,
    /// Lines and rings that were split, because they used a segment twice.
    pub folded: u64,
    /// GeometryCollections that were split.
    pub collections: u64,
    /// Features of which no shape was left.
    pub lost: u64,
}

impl Fixes {
    /// Both together.
    pub fn with(self, other: Fixes) -> Fixes
        ensures { result ≡ sum_of_fixes self other }
    {
        Fixes {
            closed: self.closed.saturating_add(other.closed),
            collapsed: self.collapsed.saturating_add(other.collapsed),
            folded: self.folded.saturating_add(other.folded),
            collections: self.collections.saturating_add(other.collections),
            lost: self.lost.saturating_add(other.lost),
        }
    }

    /// Whether anything was closed, lost or split.
    pub fn any(self) -> bool
        ensures { result ≡ is_any self }
    {
        self.closed > 0
            || self.collapsed > 0
            || self.folded > 0
            || self.collections > 0
            || self.lost > 0
    }
}

/// How much was fixed of one feature.
#[derive(Clone, Copy, PartialEq, Eq, Debug)]
pub struct FeatureFixes {
    /// The number of the feature in the text, from 0.
    pub feature: usize,
    pub fixes: Fixes,
}
