//! A part of a tree of JSON.
ghost use Rattle.faults.specs.Fault.{Pair};
ghost use Rattle.fixing.specs.declared.rules.FixingRules.{FixingRules};
ghost use Rattle.json.specs.Json.{Json};
ghost use Rattle.json.specs.Value.{value_view};
ghost use Rattle.reading.specs.FaultLists.Found.{pairs_of};
ghost use Rattle.std.specs.Prelude.{◌≡◌, ◌≢◌, List, [], IfOk, Err};

use decimal_maps::Stop;
use faults::OutOfMemory;
use faults::fault::Fault;
use fixing::FixingRules;
use json::Value;
use std::alloc::Global;

/// What checks and makes one kind of part.
pub trait Part {
    type Made: Drop;

    /// What is counted of the parts that are made.
    type Count;

    // The faults that the fixing rules leave.
    ghost faults: { Self → FixingRules → Json → List Pair };

    // What a value means as such a part, and what is counted before and behind it.
    ghost means: { Self → Json → Self.Made → Self.Count → Self.Count → Type 0 };

    /// All faults of the value that the fixing rules leave, with their paths from this value.
    fn judge(
        &self,
        alloc: Global,
        fixing: &FixingRules,
        value: &Value<'_>,
    ) -> Result<Vec<Fault>, OutOfMemory>
        ensures { IfOk result (λ fs. pairs_of fs.items ≡ faults self.now fixing.now (value_view value.now)) };

    /// What the value means. What is counted of it is added to `count`.
    fn make(
        &self,
        alloc: Global,
        value: &Value<'_>,
        count: &mut Self::Count,
    ) -> Result<Self::Made, Stop>
        ensures made { IfOk result (λ x. means self.now (value_view value.now) x count.old count.new) }
        ensures refused { result ≡ Err Stop.Unread → (fixing : FixingRules) → faults self.now fixing (value_view value.now) ≢ [] };
}
