//! What the words ask for, as values.
use crate::target::Target;
use attributes::{AttributeRules, Reals, Scale};
use clap::ArgMatches;
use command_line::refusal::{Refusal, Usage};
use decimal_maps::{DecimalGrid, MapRules};
use fixing::{Collapsed, FixingRules, Rewind};
use grid::Grid;
use grid::limits::{GREATEST_ABSOLUTE_NUMBER, GREATEST_GRID_NUMBER};
use numerals::DecimalStep;
use rounded_maps::grid_of_units::grid_of_units;
use rounded_maps::{
    BuildRules, MapsFault, Rounded, RoundedMap, RoundingRules, Source, build_maps, round_maps,
};
use snapping::nearly_shared::GREATEST_DISTANCE;
use std::alloc::Global;
use topo::Topology;

/// The step of degrees, and the unit of the output, 0.000001.
const MILLIONTH: &str = "0.000001";

/// How many steps of degrees 180 and 90 degrees are.
const GREATEST_DEGREES: (u64, u64) = (180_000_000, 90_000_000);

/// How many steps the numbers of a position may be from 0, where a step is given.
const GREATEST_STEPS: (u64, u64) = (GREATEST_GRID_NUMBER as u64, GREATEST_GRID_NUMBER as u64);

/// How many units the numbers of the output may be from 0.
const GREATEST_UNITS: u64 = GREATEST_ABSOLUTE_NUMBER as u64;

/// The powers of ten that a property may be multiplied by.
const POWERS: &str = "1000000000000";

/// What the words ask for.
#[derive(Drop)]
pub struct GridOptions<'a> {
    pub step: DecimalStep,
    /// The step as it is written.
    pub step_word: &'a str,
    pub is_step_given: bool,
    /// The unit of the output, where the words say it.
    pub unit_word: Option<&'a str>,
    /// How many units of the output a step is.
    pub units: u64,
    /// The grid of the output: a scale of so many units.
    pub grid: Grid,
    pub id: Option<&'a str>,
    /// The only object that is read of a topology.
    pub layer: Option<&'a str>,
    /// Whether features without an id get their numbers.
    pub numbers: bool,
    pub scales: Vec<Scale<'a>>,
    pub reals: Reals,
    pub refuses_heights: bool,
    pub fixing: FixingRules,
    /// How many steps apart vertices are joined.
    pub join_distance: u32,
    /// Whether each file is a sequence of texts.
    pub is_sequence: bool,
    pub output: Option<&'a str>,
    pub target: Target<'a>,
    pub report: Option<&'a str>,
    pub is_quiet: bool,
    pub is_strict: bool,
    /// Whether a topology is printed.
    pub is_build: bool,
}

impl<'a> GridOptions<'a> {
    /// How many steps the numbers of a position may be from 0.
    fn greatest(&self) -> (u64, u64) {
        let (x, y) = if self.is_step_given {
            GREATEST_STEPS
        } else {
            GREATEST_DEGREES
        };
        let most = GREATEST_UNITS.checked_div(self.units).unwrap_or(0);
        (x.min(most), y.min(most))
    }

    /// How positions are read.
    fn decimal_grid(&self) -> DecimalGrid {
        let (greatest_x, greatest_y) = self.greatest();
        DecimalGrid {
            step: self.step,
            greatest_x,
            greatest_y,
            refuses_heights: self.refuses_heights,
            measures: self.reports(),
        }
    }

    /// What is done with each map.
    pub fn rounding(&self) -> RoundingRules<'_> {
        let attributes = AttributeRules {
            id: self.id,
            scales: self.scales.as_slice(),
            reals: self.reals,
        };
        RoundingRules {
            map: MapRules {
                grid: self.decimal_grid(),
                attributes,
            },
            fixing: self.fixing,
            numbers: self.numbers,
            layer: self.layer,
        }
    }

    /// What is done with all maps together.
    pub(crate) fn building(&self) -> BuildRules<'_> {
        BuildRules {
            rounding: self.rounding(),
            grid: self.grid,
            join_distance: self.join_distance,
            counts: self.reports() || self.is_strict,
        }
    }

    /// The topology of files, each in the layer of its name.
    pub fn build(
        &self,
        alloc: Global,
        names: &[&str],
        files: Vec<Source<Vec<u8>>>,
    ) -> Result<(Topology, Rounded), MapsFault> {
        let rules = self.building();
        // Kit 13f proves a function that owns rules only where it names a place inside each of them.
        let _attributes = &rules.rounding.map.attributes;
        build_maps(alloc, names, files, &rules)
    }

    /// The maps of files.
    pub fn round(
        &self,
        alloc: Global,
        names: &[&str],
        files: Vec<Source<Vec<u8>>>,
    ) -> Result<(Vec<RoundedMap>, Rounded), MapsFault> {
        let rules = self.building();
        // Kit 13f proves a function that owns rules only where it names a place inside each of them.
        let _attributes = &rules.rounding.map.attributes;
        round_maps(alloc, names, files, &rules)
    }

    /// Whether anything is reported.
    pub fn reports(&self) -> bool {
        !self.is_quiet || self.report.is_some()
    }
}

/// The word that stands for an option.
fn word_of<'a>(found: &ArgMatches<'a>, name: &str) -> &'a str {
    found.get_str(name).unwrap_or("")
}

fn collapsed_of(word: &str) -> Collapsed {
    match word {
        "drop" => Collapsed::Drop,
        "refuse" => Collapsed::Refuse,
        _ => Collapsed::Null,
    }
}

/// How rings are turned, and how they are if nothing is said.
pub fn rewind_of(found: &ArgMatches<'_>, otherwise: Rewind) -> Rewind {
    match found.get_str("rewind") {
        Some("rfc7946") => Rewind::Rfc7946,
        Some("d3") => Rewind::D3,
        Some(_) => Rewind::Keep,
        None => otherwise,
    }
}

fn fixing_of(found: &ArgMatches<'_>) -> FixingRules {
    FixingRules {
        collapsed: collapsed_of(word_of(found, "collapsed")),
        closes_rings: word_of(found, "unclosed") != "refuse",
        splits_folded: word_of(found, "folded") != "refuse",
        splits_collections: word_of(found, "collections") != "refuse",
        rewind: rewind_of(found, Rewind::Keep),
    }
}

/// The property and the power of ten of a word `scale:PROPERTY=K`.
pub fn scale_of<'a>(word: &'a str) -> Option<Scale<'a>> {
    let (kind, scale) = word.split_once(':')?;
    let (property, power) = scale.rsplit_once('=')?;
    if kind != "scale" || power.is_empty() || !POWERS.starts_with(power) {
        return None;
    }
    let places = power.len().saturating_sub(1) as u32;
    Some(Scale { property, places })
}

/// The power of ten that a property is multiplied by, as it is written.
pub fn power_of(scale: &Scale<'_>) -> &'static str {
    let digits = (scale.places as usize).saturating_add(1);
    POWERS.get(..digits).unwrap_or(POWERS)
}

/// What becomes of numbers that are not scaled, where a word says that.
fn kind_of_reals(word: &str) -> Option<Reals> {
    match word {
        "whole" => Some(Reals::Whole),
        "text" => Some(Reals::Text),
        "refuse" => Some(Reals::Refuse),
        _ => None,
    }
}

/// The properties that words scale, and what becomes of other numbers: what the last word says that is no scale.
fn reals_of<'a>(
    alloc: Global,
    words: &[&'a str],
) -> Result<(Vec<Scale<'a>>, Option<Reals>), Refusal<'a>> {
    let mut scales = Vec::new(alloc);
    let mut reals = None;
    for word in words {
        match scale_of(*word) {
            Some(scale) => scales.push(scale)?,
            None => match kind_of_reals(*word) {
                Some(kind) => reals = Some(kind),
                None => return Err(Refusal::Usage(Usage::BadReals(*word))),
            },
        }
    }
    Ok((scales, reals))
}

/// The word after an option that is a decimal number, 0.000001 if there is none.
pub fn decimal_word<'a>(found: &ArgMatches<'a>, name: &str) -> &'a str {
    found.get_str(name).unwrap_or(MILLIONTH)
}

/// What an absolute 1 of the output is.
pub fn unit_of<'a>(found: &ArgMatches<'a>) -> Result<DecimalStep, Refusal<'a>> {
    let word = decimal_word(found, "unit");
    match DecimalStep::parse(word.as_bytes()) {
        Some(unit) => Ok(unit),
        None => Err(Refusal::Usage(Usage::BadUnit(word))),
    }
}

/// The size of a step.
fn step_of<'a>(found: &ArgMatches<'a>) -> Result<DecimalStep, Refusal<'a>> {
    let word = decimal_word(found, "step");
    match DecimalStep::parse(word.as_bytes()) {
        Some(step) => Ok(step),
        None => Err(Refusal::Usage(Usage::BadStep(word))),
    }
}

/// How many units a step is, and the grid of a scale of so many.
fn units_of<'a>(found: &ArgMatches<'a>, step: &DecimalStep) -> Result<(u64, Grid), Refusal<'a>> {
    let units = step.over(&unit_of(found)?).unwrap_or(0);
    match grid_of_units(units) {
        Some(grid) => Ok((units, grid)),
        None => Err(Refusal::Usage(Usage::BadUnits(decimal_word(found, "step")))),
    }
}

/// How many steps apart vertices are joined: a whole number of at most `GREATEST_DISTANCE`.
fn join_distance_of<'a>(word: Option<&'a str>) -> Result<u32, Refusal<'a>> {
    let Some(word) = word else {
        return Ok(0);
    };
    match word.parse::<u32>() {
        Ok(distance) => if distance <= GREATEST_DISTANCE {
            Ok(distance)
        } else {
            Err(Refusal::Usage(Usage::BadDistance(word)))
        },
        Err(_) => Err(Refusal::Usage(Usage::BadDistance(word))),
    }
}

/// The options that the words give for so many files, or why they are none.
pub fn options_of<'a>(
    alloc: Global,
    found: &ArgMatches<'a>,
    files: usize,
) -> Result<GridOptions<'a>, Refusal<'a>> {
    let step = step_of(found)?;
    let (units, grid) = units_of(found, &step)?;
    let (scales, reals) = reals_of(alloc, found.get_strs("reals").unwrap_or(&[]))?;
    Ok(GridOptions {
        step,
        step_word: decimal_word(found, "step"),
        is_step_given: found.get_str("step").is_some(),
        unit_word: found.get_str("unit"),
        units,
        grid,
        id: found.get_str("id"),
        layer: found.get_str("layer"),
        numbers: found.get_flag("number"),
        scales,
        reals: reals.unwrap_or(Reals::Whole),
        refuses_heights: word_of(found, "heights") == "refuse",
        fixing: fixing_of(found),
        join_distance: join_distance_of(found.get_str("snap"))?,
        is_sequence: found.get_flag("seq"),
        output: found.get_str("output"),
        target: Target::of(found.get_str("output"), found.get_flag("build"), files),
        report: found.get_str("report"),
        is_quiet: found.get_flag("quiet"),
        is_strict: found.get_flag("strict"),
        is_build: found.get_flag("build"),
    })
}
