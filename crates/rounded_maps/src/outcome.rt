//! What became of a map, as it is reported.
ghost use Rattle.fixing.specs.Counts.{no_fixes, if_from, total_from};
ghost use Rattle.std.specs.Prelude.{◌≡◌, IfOk, map as map_list};

use crate::map::{RoundedFeature, RoundedMap};
use decimal_maps::Tally;
use faults::OutOfMemory;
use fixing::{FeatureFixes, Fixes};
use std::alloc::Global;

/// What became of a map.
#[derive(Drop)]
pub struct Outcome {
    /// How many features were read.
    pub features: usize,
    pub tally: Tally,
    /// How many numbers became texts.
    pub reals: u64,
    /// How much was fixed of all features.
    pub fixes: Fixes,
    /// The features of which anything was fixed, in order.
    pub fixed: Vec<FeatureFixes>,
}

impl Outcome {
    ghost use Rattle.rounded_maps.specs.Outcomes.{IsOutcome};

    /// Whether anything was lost or split.
    pub fn is_lossy(&self) -> bool {
        self.tally.heights > 0 || self.reals > 0 || self.fixes.any()
    }

    /// What became of a map.
    pub(crate) fn of(alloc: Global, map: &RoundedMap) -> Result<Outcome, OutOfMemory>
        ensures { IfOk result (IsOutcome map.now) }
    {
        Ok(Outcome {
            features: map.features.len(),
            tally: map.tally,
            reals: map.reals,
            fixes: all_fixes(map.features.as_slice()),
            fixed: features_fixed(alloc, map.features.as_slice())?,
        })
    }
}

/// How much was fixed of all features.
fn all_fixes(features: &[RoundedFeature]) -> Fixes
    ensures { result ≡ total_from no_fixes (map_list (λ f. f.fixes) features.now) }
{
    let mut all = Fixes::default();
    for feature in features {
        all = all.with(feature.fixes);
    }
    all
}

/// The features of which anything was fixed, in order.
fn features_fixed(
    alloc: Global,
    features: &[RoundedFeature],
) -> Result<Vec<FeatureFixes>, OutOfMemory>
    ensures { IfOk result (λ v. v.items ≡ if_from 0 (map_list (λ f. f.fixes) features.now)) }
{
    let mut fixed = Vec::new(alloc);
    for (number, feature) in features.iter().enumerate() {
        if feature.fixes.any() {
            fixed.push(FeatureFixes {
                feature: number,
                fixes: feature.fixes,
            })?;
        }
    }
    Ok(fixed)
}
