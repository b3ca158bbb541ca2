//! What is counted of positions while they are read.
ghost use Rattle.decimal_maps.specs.Tally.{nothing_counted, with_height, with_position};
ghost use Rattle.std.specs.Prelude.{◌≡◌};

/// What is counted of the positions of a geometry. Counts stay at the greatest number of 64 bits.
#[derive(Clone, Copy, PartialEq, Eq, Debug, Default)]
pub struct Tally {
    pub positions: u64,
    /// How many numbers were dropped behind the second of a position.
    pub heights: u64,
    /// How many positions had a number that is no whole number of steps; 0 where it isn't measured.
    pub moved: u64,
    /// How far, in ten-thousandths of a step and rounded up, a position is moved along an axis at most; 0 where it
    /// isn't measured.
    pub furthest: u64,
}

impl Tally {
    /// Nothing is counted yet.
    pub fn new() -> Tally
        ensures { result ≡ nothing_counted }
    {
        Tally {
            positions: 0,
            heights: 0,
            moved: 0,
            furthest: 0,
        }
    }

    /// Counts a position of which one number or both are so far from the grid at most.
    pub fn add_position(&mut self, far: u64)
        ensures { self.new ≡ with_position far self.old }
    {
        self.positions = self.positions.saturating_add(1);
        if far > 0 {
            self.moved = self.moved.saturating_add(1);
            self.furthest = self.furthest.max(far);
        }
    }

    /// Counts a height.
    pub fn add_height(&mut self)
        ensures { self.new ≡ with_height self.old }
    {
        self.heights = self.heights.saturating_add(1);
    }
}
