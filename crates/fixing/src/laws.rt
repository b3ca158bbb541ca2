//! The laws of what is left of lines, rings and geometries, each promised by a function that does nothing.
ghost use Rattle.fixing.specs.Fixable as fixable;
ghost use Rattle.fixing.specs.Laws as law;

/// What is left of a line is lines: two positions or more, and no segment twice. What is left of a ring is rings:
/// closed, four positions or more, and no segment twice. So are the rings of what is left of a polygon, before they are
/// turned.
pub fn shapes_left_are_sound()
    ensures lines { law.LinesLeftAreSound }
    ensures rings { law.RingsLeftAreSound }
    ensures polygons { law.PolygonsLeftAreSound }
{}

/// The runs of a line have each of its segments once, in the order in which it is used first.
pub fn runs_use_each_segment_once()
    ensures { law.RunsUseEachSegmentOnce }
{}

/// Each loop of a ring meets no vertex again, and together they use each segment an odd number of times exactly where
/// the ring does.
pub fn loops_are_simple()
    ensures simple { law.LoopsAreSimple }
    ensures odd_uses { law.LoopsKeepOddUses }
{}

/// A ring counts as open exactly where its list is open and the rules don't close it.
pub fn open_rings_are_closed()
    ensures { law.OpenRingsAreClosed }
{}

/// Lines, rings, lists of lines and polygons without a fault are left as they are, and nothing is counted.
pub fn sound_shapes_stay()
    ensures lines { law.SoundLinesStay }
    ensures rings { law.SoundRingsStay }
    ensures multi_lines { law.SoundMultiLinesStay }
    ensures polygons { law.SoundPolygonsStay }
{}

/// Rings that are turned turn as they are wanted, and turning them again changes nothing.
pub fn turned_rings_turn()
    ensures turn { law.TurnedRingsTurn }
    ensures stay { law.TurnedRingsStay }
{}

/// What is left of a shape is left as it is when it is fixed again, and nothing is counted then.
pub fn shapes_left_stay()
    ensures { law.ShapesLeftStay }
{}

/// A line, a ring or a geometry is refused exactly where it has a fault that the rules don't fix, or is a GeometryCollection
/// that they don't split.
pub fn fixable_geometries_are_left()
    ensures lines { fixable.FixableLinesAreLeft }
    ensures rings { fixable.FixableRingsAreLeft }
    ensures geometries { fixable.FixableGeometriesAreLeft }
{}
