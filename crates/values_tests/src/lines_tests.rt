//! Lines, rings, lists of positions, texts and bits of positions.
use grid::pos::Pos;
use lines::items::Items;
use lines::line::Line;
use lines::position_filter::{PositionFilter, index_among};
use lines::ring::Ring;
use lines::shape_fault::ShapeFault;
use lines::text::JsonText;
use std::alloc::Global;
use std::hash::{DefaultHasher, Hash, Hasher};
use std::test::Fail;
use worked_maps::{Places, closed_ring, open_line, positions};

const A: (i64, i64) = (0, 0);

const B: (i64, i64) = (4, 0);

const C: (i64, i64) = (4, 4);

const D: (i64, i64) = (1, 4);

const E: (i64, i64) = (0, 4);

/// The fault of a list as a line, and its fault as a ring; none where it is one.
type Faults = (Option<ShapeFault>, Option<ShapeFault>);

const SHORT: Option<ShapeFault> = Some(ShapeFault::TooShort);

const OPEN: Option<ShapeFault> = Some(ShapeFault::NotClosed);

const AGAIN: Option<ShapeFault> = Some(ShapeFault::Revisit);

/// How many places of a zigzag begin a list, the places behind them, and the faults of the whole.
const JUDGED: &[(&str, i64, Places, Faults)] = &[
    ("nothing", 0, &[], (SHORT, SHORT)),
    ("A", 0, &[A], (SHORT, SHORT)),
    ("AAA", 0, &[A, A, A], (SHORT, SHORT)),
    ("ABA", 0, &[A, B, A], (SHORT, SHORT)),
    ("AB", 0, &[A, B], (None, OPEN)),
    ("ABBC", 0, &[A, B, B, C], (None, OPEN)),
    ("ABCAD", 0, &[A, B, C, A, D], (None, OPEN)),
    ("ABAC", 0, &[A, B, A, C], (AGAIN, OPEN)),
    ("ABCA", 0, &[A, B, C, A], (None, None)),
    ("AABCCA", 0, &[A, A, B, C, C, A], (None, None)),
    ("ABCADEA", 0, &[A, B, C, A, D, E, A], (None, None)),
    ("ABABA", 0, &[A, B, A, B, A], (AGAIN, AGAIN)),
    ("ABCBA", 0, &[A, B, C, B, A], (AGAIN, AGAIN)),
    ("ABCABD", 0, &[A, B, C, A, B, D], (AGAIN, OPEN)),
    ("ABCDBA", 0, &[A, B, C, D, B, A], (AGAIN, AGAIN)),
    ("DABAC", 0, &[D, A, B, A, C], (AGAIN, OPEN)),
    ("ABCADBE", 0, &[A, B, C, A, D, B, E], (None, OPEN)),
    ("ABCDAC", 0, &[A, B, C, D, A, C], (None, OPEN)),
    ("a zigzag", 300, &[], (None, OPEN)),
    ("to a vertex again", 300, &[(11, 1)], (None, OPEN)),
    (
        "along a segment again",
        300,
        &[(11, 1), (10, 0)],
        (AGAIN, OPEN),
    ),
];

fn faults(alloc: Global, places: &[(i64, i64)]) -> Result<Faults, Fail> {
    let as_line = Line::from_positions(alloc, positions(alloc, places)?).err();
    let as_ring = Ring::from_closed(alloc, positions(alloc, places)?).err();
    Ok((as_line, as_ring))
}

/// So many places of a zigzag.
fn zigzag(alloc: Global, count: i64) -> Result<Vec<(i64, i64)>, Fail> {
    let mut places = Vec::new(alloc);
    for across in 0..count {
        places.push((across, across % 2))?;
    }
    Ok(places)
}

fn faults_behind(alloc: Global, count: i64, further: Places) -> Result<Faults, Fail> {
    let mut places = zigzag(alloc, count)?;
    for place in further {
        places.push(*place)?;
    }
    faults(alloc, places.as_slice())
}

#[test]
fn lists_as_lines_and_rings(rt: HostRuntime) -> Result<(), Fail> {
    for (title, count, further, expected) in JUDGED {
        assert!(rt;
            faults_behind(rt.alloc(), *count, *further)? == *expected,
            "{title}"
        );
    }
    Ok(())
}

/// A closed list with a position twice in a row, which is both a line and a ring.
const SOUND: Places = &[B, B, C, A, B];

#[test]
fn a_list_that_is_known_to_be_a_line(rt: HostRuntime) -> Result<(), Fail> {
    let places = positions(rt.alloc(), SOUND)?;
    let line = Line::from_positions(rt.alloc(), places.to_vec(rt.alloc())?)?;
    assert!(rt; Line::from_sound(places) == line);
    Ok(())
}

#[test]
fn a_list_that_is_known_to_be_a_ring(rt: HostRuntime) -> Result<(), Fail> {
    let places = positions(rt.alloc(), SOUND)?;
    let ring = Ring::from_closed(rt.alloc(), places.to_vec(rt.alloc())?)?;
    assert!(rt; Ring::from_sound(places) == ring);
    Ok(())
}

/// Closed lists, and the vertices of their rings: those of the least rotation.
const ROTATED: &[(&str, Places, Places)] = &[
    ("CAABC", &[C, A, A, B, C], &[A, B, C]),
    ("BCAB", &[B, C, A, B], &[A, B, C]),
    ("ACBA", &[A, C, B, A], &[A, C, B]),
    ("EACBADE", &[E, A, C, B, A, D, E], &[A, D, E, A, C, B]),
    ("ACBADEA", &[A, C, B, A, D, E, A], &[A, D, E, A, C, B]),
];

/// Whether the ring of a closed list has these vertices, and is its copy.
fn has_vertices(alloc: Global, closed: Places, vertices: Places) -> Result<bool, Fail> {
    let ring = closed_ring(alloc, closed)?;
    if ring.copy(alloc)? != ring {
        return Ok(false);
    }
    Ok(ring.vertices() == positions(alloc, vertices)?.as_slice())
}

#[test]
fn a_ring_is_read_from_its_least_rotation(rt: HostRuntime) -> Result<(), Fail> {
    for (title, closed, vertices) in ROTATED {
        assert!(rt; has_vertices(rt.alloc(), *closed, *vertices)?, "{title}");
    }
    Ok(())
}

#[test]
fn a_line_keeps_its_direction_and_is_its_copy(rt: HostRuntime) -> Result<(), Fail> {
    let made = open_line(rt.alloc(), &[C, C, B, A, A])?;
    assert!(rt; made.copy(rt.alloc())? == made);
    let kept = positions(rt.alloc(), &[C, B, A])?;
    assert!(rt; made.positions() == kept.as_slice());
    Ok(())
}

fn hash_of<T: Hash>(value: &T) -> u64 {
    let mut state = DefaultHasher::new();
    value.hash(&mut state);
    state.finish()
}

/// Two closed lists, and whether their rings are equal.
const RINGS: &[(&str, Places, Places, bool)] = &[
    ("CAABC and BCAB", &[C, A, A, B, C], &[B, C, A, B], true),
    ("CAABC and ACBA", &[C, A, A, B, C], &[A, C, B, A], false),
    ("CABC and ABCA", &[C, A, B, C], &[A, B, C, A], true),
    (
        "EACBADE and ACBADEA",
        &[E, A, C, B, A, D, E],
        &[A, C, B, A, D, E, A],
        true,
    ),
];

/// Whether two rings are equal as they are expected to be; if so, they have one hash.
fn are_rings(alloc: Global, left: Places, right: Places, are_equal: bool) -> Result<bool, Fail> {
    let left = closed_ring(alloc, left)?;
    let right = closed_ring(alloc, right)?;
    if are_equal && hash_of(&left) != hash_of(&right) {
        return Ok(false);
    }
    Ok((left == right) == are_equal)
}

#[test]
fn rings_that_are_equal_and_others(rt: HostRuntime) -> Result<(), Fail> {
    for (title, left, right, are_equal) in RINGS {
        let as_expected = are_rings(rt.alloc(), *left, *right, *are_equal)?;
        assert!(rt; as_expected, "{title}");
    }
    Ok(())
}

#[test]
fn equal_lines_have_one_hash(rt: HostRuntime) -> Result<(), Fail> {
    let open = open_line(rt.alloc(), &[A, B])?;
    let again = open_line(rt.alloc(), &[A, A, B])?;
    assert!(rt; hash_of(&open) == hash_of(&again));
    Ok(())
}

fn items(alloc: Global, places: Places) -> Result<Items<Pos>, Fail> {
    Ok(Items::from_vec(positions(alloc, places)?))
}

#[test]
fn lists_are_ordered(rt: HostRuntime) -> Result<(), Fail> {
    let first = items(rt.alloc(), &[A, B])?;
    let second = items(rt.alloc(), &[A, C])?;
    assert!(rt; first < second && first != second);
    Ok(())
}

#[test]
fn a_list_has_what_was_put_in(rt: HostRuntime) -> Result<(), Fail> {
    let places = positions(rt.alloc(), &[A, B])?;
    let list = items(rt.alloc(), &[A, B])?;
    assert!(rt; list.as_slice() == places.as_slice() && list.into_vec() == places);
    Ok(())
}

fn text(alloc: Global, words: &str) -> Result<JsonText, Fail> {
    Ok(JsonText::from_string(String::from_str(alloc, words)?))
}

#[test]
fn texts_are_ordered(rt: HostRuntime) -> Result<(), Fail> {
    let ten = text(rt.alloc(), "10")?;
    assert!(rt; ten.as_str() == "10" && ten < text(rt.alloc(), "9")?);
    Ok(())
}

#[test]
fn bits_of_positions(rt: HostRuntime) -> Result<(), Fail> {
    let dealt = positions(rt.alloc(), &[A, B, C])?;
    let bits = PositionFilter::of(rt.alloc(), dealt.as_slice())?;
    for position in &dealt {
        assert!(rt; bits.may_hold(*position) && index_among(7, *position) < 7);
    }
    Ok(())
}

#[test]
fn bits_that_are_clear_and_marked(rt: HostRuntime) -> Result<(), Fail> {
    let clear = PositionFilter::clear(rt.alloc(), 9)?;
    let mut marked = PositionFilter::clear(rt.alloc(), 0)?;
    for (x, y) in [A, B, C] {
        let position = Pos::new(x, y).ok_or("outside the limits")?;
        marked.mark(position);
        assert!(rt;
            marked.may_hold(position) && !clear.may_hold(position),
            "{x}, {y}"
        );
    }
    Ok(())
}
