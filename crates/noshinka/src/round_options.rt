//! The options of a rounding, as a caller passes them.
ghost use Rattle.noshinka.specs.RoundOptions.{are_options, are_fixes_chosen, are_powers, are_sources_chosen, collapsed_of, fixing_of, reals_of, rewind_of};
ghost use Rattle.std.specs.Prelude.{◌≡◌, nat_le};

use attributes::Reals;
use fixing::{Collapsed, FixingRules, Rewind};

/// A property whose numbers are multiplied by a power of ten, and how many zeros that has.
#[repr(C)]
#[derive(Drop)]
pub struct PropertyScale<'a> {
    pub property: &'a [u8],
    pub zeros: u32,
}

/// The options of `noshinka_round`. `c/noshinka.h` says what each means.
#[repr(C)]
#[derive(Drop)]
pub struct RoundOptions<'a> {
    pub size: usize,
    pub step: &'a [u8],
    pub unit: &'a [u8],
    pub layer: &'a [u8],
    pub id: &'a [u8],
    pub scales: &'a [PropertyScale<'a>],
    pub snap: u32,
    pub scope: u32,
    pub ids: u32,
    pub reals: u32,
    pub number: u32,
    pub unclosed: u32,
    pub heights: u32,
    pub folded: u32,
    pub collections: u32,
    pub collapsed: u32,
    pub rewind: u32,
    pub sequences: u32,
    pub renames: u32,
    pub format: u32,
    pub report: u32,
}

/// The bytes of the options.
const SIZE: usize = size_of::<RoundOptions<'static>>();

/// How many steps apart vertices are joined at most.
const MOST_STEPS: u32 = 10;

/// How many zeros the power of ten of a scale has at most.
const MOST_ZEROS: u32 = 12;

/// Whether a scale is by a power of ten that there is.
fn is_power(scale: &PropertyScale<'_>) -> bool
    ensures { result ≡ nat_le scale.now.zeros 12 }
{
    scale.zeros <= MOST_ZEROS
}

/// Whether each scale is.
pub(crate) fn are_powers(scales: &[PropertyScale<'_>]) -> bool
    ensures { result ≡ are_powers scales.now }
{
    for scale in scales {
        if !is_power(scale) {
            return false;
        }
    }
    true
}

/// Whether the numbers that say how texts are read stand for choices.
fn are_sources_chosen(options: &RoundOptions<'_>) -> bool
    ensures { result ≡ are_sources_chosen options.now }
{
    options.scope < 2
        && options.ids < 2
        && options.reals < 3
        && options.number < 2
        && options.sequences < 2
        && options.renames < 2
}

/// Whether the numbers that say what is fixed stand for choices.
fn are_fixes_chosen(options: &RoundOptions<'_>) -> bool
    ensures { result ≡ are_fixes_chosen options.now }
{
    options.unclosed < 2
        && options.heights < 2
        && options.folded < 2
        && options.collections < 2
        && options.collapsed < 3
        && options.rewind < 3
}

/// Whether the options have the size of these, and each number stands for a choice.
pub(crate) fn are_options(options: &RoundOptions<'_>) -> bool
    ensures { result ≡ are_options options.now }
{
    options.size == SIZE
        && options.snap <= MOST_STEPS
        && options.format < 2
        && options.report < 2
        && are_sources_chosen(options)
        && are_fixes_chosen(options)
        && are_powers(options.scales)
}

fn collapsed_of(number: u32) -> Collapsed
    ensures { result ≡ collapsed_of number }
{
    match number {
        0 => Collapsed::Null,
        1 => Collapsed::Drop,
        _ => Collapsed::Refuse,
    }
}

/// How rings are turned for a number.
pub(crate) fn rewind_of(number: u32) -> Rewind
    ensures { result ≡ rewind_of number }
{
    match number {
        0 => Rewind::Keep,
        1 => Rewind::Rfc7946,
        _ => Rewind::D3,
    }
}

/// What becomes of numbers that aren't scaled, for a number.
pub(crate) fn reals_of(number: u32) -> Reals
    ensures { result ≡ reals_of number }
{
    match number {
        0 => Reals::Whole,
        1 => Reals::Text,
        _ => Reals::Refuse,
    }
}

/// What is fixed.
pub(crate) fn fixing_of(options: &RoundOptions<'_>) -> FixingRules
    ensures { result ≡ fixing_of options.now }
{
    FixingRules {
        collapsed: collapsed_of(options.collapsed),
        closes_rings: options.unclosed == 0,
        splits_folded: options.folded == 0,
        splits_collections: options.collections == 0,
        rewind: rewind_of(options.rewind),
    }
}
