//! What helps against each error, in one line: the first lines of docs/FAULTS.md.
ghost use Rattle.fault_reports.specs.FaultReports.{remedy_of};
ghost use Rattle.std.specs.Prelude.{◌≡◌};

use faults::FaultKind;

/// What helps.
pub fn remedy(kind: FaultKind) -> &'static str
    ensures { result.now ≡ remedy_of kind }
{
    match kind {
        FaultKind::NotJson => "The file is no JSON.",
        FaultKind::Missing => "A required member is missing. The path ends in its name.",
        FaultKind::WrongKind => "A value has the wrong JSON type, such as a string for a number.",
        FaultKind::UnknownType => "The `type` is none of those that are allowed there.",
        FaultKind::NotWhole => {
            "A coordinate, a scale, a translation, an arc's index or an id is not an integer of 64 bits."
        }
        FaultKind::OutOfRange => "A number is outside its limits.",
        FaultKind::OffGrid => {
            "A coordinate is an integer, but not on the grid: minus the translation, it is no multiple of the scale."
        }
        FaultKind::TooShort => {
            "A line has fewer than two different positions, or a closed line or ring fewer than three."
        }
        FaultKind::NotClosed => "The last position of a ring is not its first.",
        FaultKind::Revisit => {
            "A line or ring uses a segment twice: a spike, a part that was drawn twice, or, after rounding, a fold."
        }
        FaultKind::NoArc => "A geometry of a topology names an arc that doesn't exist.",
        FaultKind::Broken => {
            "The arcs of a line or a ring are not connected: one doesn't begin where the one before it ends."
        }
        FaultKind::PropertyNumber => {
            "A number in the properties has a fraction or an exponent, or is past 64 bits."
        }
        FaultKind::PropertyDepth => {
            "Lists and objects in the properties are nested more than 64 deep."
        }
        FaultKind::NoTransform => "The topology has no `transform`, so it is not quantized.",
        FaultKind::NotTwo => { "A position, a scale or a translation has other than two numbers." }
        FaultKind::OtherGrid => "The files have different transforms.",
        FaultKind::BadPlan => "A plan names an index past the end of the list of files.",
        FaultKind::NoLayer => "The map has no layer of that name.",
        FaultKind::OutOfMemory => "The system refused memory.",
        FaultKind::Write => "Writing the output failed.",
    }
}
