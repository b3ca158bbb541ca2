//! The options of the way back, as a caller passes them, and the rules that they stand for.
ghost use Rattle.noshinka.specs.BackOptions.{AreBackNames, AreBackRules, IsBackNamesRefusal, IsNumbers, IsPropertyRefusal, are_back_options, is_counted, properties_of};
ghost use Rattle.std.specs.Prelude.{◌≡◌, IfErr, IfOk, map, true};

use crate::round_options::{PropertyScale, are_powers, rewind_of};
use crate::rules::scales_of;
use attributes::Scale;
use c_calls::borrowed::name_of;
use c_calls::refusal::CallRefusal;
use decimals::topology::{BackRules, NumbersBack};
use grid::limits::GREATEST_GRID_NUMBER;
use std::alloc::Global;

/// The options of `noshinka_back`. `c/noshinka.h` says what each means.
#[repr(C)]
#[derive(Drop)]
pub struct WayBackOptions<'a> {
    pub size: usize,
    pub unit: &'a [u8],
    pub like: &'a [u8],
    pub properties: &'a [&'a [u8]],
    pub scales: &'a [PropertyScale<'a>],
    pub count: u64,
    pub numbers: u32,
    pub transform: u32,
    pub rewind: u32,
}

/// The bytes of the options.
const SIZE: usize = size_of::<WayBackOptions<'static>>();

/// Whether there are so many numbers along each axis as may be, where a transform is of them.
fn is_counted(options: &WayBackOptions<'_>) -> bool
    ensures { result ≡ is_counted options.now }
{
    options.transform < 2 || (2 <= options.count && options.count <= GREATEST_GRID_NUMBER as u64)
}

/// Whether the options have the size of these, and each number stands for a choice.
pub(crate) fn are_back_options(options: &WayBackOptions<'_>) -> bool
    ensures { result ≡ are_back_options options.now }
{
    options.size == SIZE
        && options.numbers < 3
        && options.transform < 3
        && options.rewind < 3
        && is_counted(options)
        && are_powers(options.scales)
}

/// The properties that are named, where that is asked for.
fn properties_named<'a>(options: &WayBackOptions<'a>) -> &'a [&'a [u8]]
    ensures { map (λ p. p.now) result.now ≡ properties_of options.now }
{
    if options.numbers == 2 {
        options.properties
    } else {
        &[]
    }
}

/// Names of properties.
#[tactic(auto, using(crate::proofs::Backs::property_memory, crate::proofs::Backs::property_refused))]
fn names_among<'a>(alloc: Global, properties: &[&'a [u8]]) -> Result<Vec<&'a str>, CallRefusal>
    ensures names { IfOk result (λ v. map (λ n. n.now) v.items ≡ map (λ p. p.now) properties.now) }
    ensures bad { IfErr result (IsPropertyRefusal (map (λ p. p.now) properties.now)) }
{
    let mut names = Vec::with_capacity(alloc, properties.len())?;
    for property in properties {
        names.push(name_of(0, *property)?)?;
    }
    Ok(names)
}

/// The names of the properties that are named.
fn property_names<'a>(
    alloc: Global,
    options: &WayBackOptions<'a>,
) -> Result<Vec<&'a str>, CallRefusal>
    ensures names { IfOk result (λ v. map (λ n. n.now) v.items ≡ properties_of options.now) }
    ensures bad { IfErr result (IsPropertyRefusal (properties_of options.now)) }
{
    names_among(alloc, properties_named(options))
}

/// The names that options have.
#[derive(Drop)]
pub(crate) struct BackNames<'a> {
    properties: Vec<&'a str>,
    scales: Vec<Scale<'a>>,
}

/// The names that options have, if they are UTF-8.
#[tactic(auto, using(crate::proofs::Backs::names_property, crate::proofs::Backs::names_scale))]
pub(crate) fn back_names_of<'a>(
    alloc: Global,
    options: &WayBackOptions<'a>,
) -> Result<BackNames<'a>, CallRefusal>
    ensures names { IfOk result (AreBackNames options.now) }
    ensures bad { IfErr result (IsBackNamesRefusal options.now) }
{
    let properties = property_names(alloc, options)?;
    let scales = scales_of(alloc, options.scales)?;
    Ok(BackNames { properties, scales })
}

/// Which decimal texts become numbers: none for 0, those of columns for 1, and else those of the names.
fn numbers_of<'r>(number: u32, names: &'r [&'r str]) -> NumbersBack<'r>
    ensures { IsNumbers number (map (λ n. n.now) names.now) result }
{
    match number {
        0 => NumbersBack::None,
        1 => NumbersBack::Columns,
        _ => NumbersBack::Named(names),
    }
}

/// The rules that options stand for.
pub(crate) fn back_rules_of<'r>(
    options: &WayBackOptions<'_>,
    names: &'r BackNames<'_>,
) -> BackRules<'r>
    requires chosen { are_back_options options.now ≡ true }
    requires names { AreBackNames options.now names.now }
    ensures { AreBackRules options.now result }
{
    BackRules {
        rewind: rewind_of(options.rewind),
        numbers: numbers_of(options.numbers, names.properties.as_slice()),
        scales: names.scales.as_slice(),
    }
}
