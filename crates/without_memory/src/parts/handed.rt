//! Values that are handed over to calls that take no memory.

use crate::square::SQUARE;
use grid::Pos;
use lines::position_filter::PositionFilter;
use lines::text::JsonText;
use refused_calls::comparing::are_at;
use refused_calls::handed::Handed;
use refused_calls::inputs::positions;
use refused_calls::outcome::Tally;
use refused_calls::rows;
use refused_calls::tables::both;
use shapes::Items;
use sinks::{Kept, put};
use std::alloc::Global;

/// Positions, a text, bits and what a sink kept.
#[derive(Drop)]
pub(crate) struct Lists {
    places: Vec<Pos>,
    text: String,
    bits: PositionFilter,
    kept: Kept,
}

fn memory_sink(alloc: Global) -> Option<Kept> {
    let mut kept = Kept::new(alloc);
    put(&mut kept, b"abc").ok()?;
    Some(kept)
}

fn keeps_places(places: Vec<Pos>) -> bool {
    let items = Items::from_vec(places);
    are_at(items.as_slice(), SQUARE) && are_at(items.into_vec().as_slice(), SQUARE)
}

fn marks(mut bits: PositionFilter) -> bool {
    let Some(position) = Pos::new(3, 4) else {
        return false;
    };
    let was_marked = bits.may_hold(position);
    bits.mark(position);
    !was_marked && bits.may_hold(position)
}

fn is_text(text: String) -> bool {
    JsonText::from_string(text).as_str() == "text"
}

fn has_bytes(kept: Kept) -> bool {
    kept.into_bytes().as_slice() == b"abc".as_slice()
}

fn test_lists(rt: &HostRuntime, tally: &mut Tally, places: Vec<Pos>, text: String) {
    let are_places = keeps_places(places);
    let is_text = is_text(text);
    rows!(rt, tally;
        "Items::from_vec" => are_places,
        "Items::into_vec" => are_places,
        "JsonText::from_string" => is_text,
        "JsonText::as_str" => is_text,
    );
}

fn test_marks(rt: &HostRuntime, tally: &mut Tally, bits: PositionFilter, kept: Kept) {
    let are_marked = marks(bits);
    rows!(rt, tally;
        "PositionFilter::mark" => are_marked,
        "PositionFilter::may_hold" => are_marked,
        "Kept::into_bytes" => has_bytes(kept),
    );
}

impl Handed for Lists {
    fn make(alloc: Global) -> Option<Lists> {
        let lists = both(
            positions(alloc, SQUARE),
            String::from_str(alloc, "text").ok(),
        );
        let marks = both(PositionFilter::clear(alloc, 4).ok(), memory_sink(alloc));
        let ((places, text), (bits, kept)) = both(lists, marks)?;
        Some(Lists {
            places,
            text,
            bits,
            kept,
        })
    }

    fn test(self, rt: &HostRuntime, tally: &mut Tally) {
        let Lists {
            places,
            text,
            bits,
            kept,
        } = self;
        test_lists(rt, tally, places, text);
        test_marks(rt, tally, bits, kept);
    }
}
