//! Marks of arcs by their numbers.
ghost use Rattle.arcs.specs.Stored.{first_of};
ghost use Rattle.std.specs.Prelude.{◌≡◌, drop, get_or, true};

/// Whether an arc is marked; one beyond the marks is.
pub fn is_marked(marks: &[bool], number: usize) -> bool
    ensures { result ≡ get_or marks.now number true }
{
    match marks.get(number) {
        Some(marked) => *marked,
        None => true,
    }
}

/// The first of some marks, and the others. Where there is none, it is not set.
pub fn first_mark(marks: &[bool]) -> (bool, &[bool])
    ensures first { result.0 ≡ first_of marks.now }
    ensures others { result.1.now ≡ drop 1 marks.now }
{
    match marks.split_first() {
        Some((mark, others)) => (*mark, others),
        None => (false, marks),
    }
}
