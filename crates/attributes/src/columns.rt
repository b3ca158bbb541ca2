//! The columns of numbers of a layer: members of its properties whose numbers became texts.
ghost use Rattle.attributes.specs.Columns.{AreColumns, column_at, excluded, is_fraction_text, is_numeric, number_column, with_text, with_value};
ghost use Rattle.serde_json.specs.Find.{get_member};
ghost use Rattle.serde_json.specs.View.{members_view, view};
ghost use Rattle.std.specs.BTreeMap.{get_by_text};
ghost use Rattle.std.specs.Prelude.{◌≡◌, ◌++◌, [], ◌∷◌, bytes_eq, if◌then◌else◌, List, ℕ, OnOk, Some, unwrap_or};

use crate::decimals::{is_decimal, is_fraction};
use faults::OutOfMemory;
use serde_json::{Map, Value};
use shapes::Props;
use std::alloc::Global;
use std::collections::{BTreeMap, BTreeSet};

/// The columns of numbers of a layer: the members of properties that are null, a whole number or a decimal text in each
/// of its features, and in one of them a decimal text with a point or an exponent.
#[derive(Drop)]
pub struct Columns {
    /// How many texts with a point or an exponent a column has.
    numbers: BTreeMap<String, u64>,
    /// The members that have another value.
    mixed: BTreeSet<String>,
}

// Whether a column of numbers may have the value.
fn is_numeric(value: &Value) -> bool
    ensures { result ≡ is_numeric (Some (view value.now)) }
{
    match value {
        Value::Null | Value::Number(_) => true,
        Value::String(text) => is_decimal(text),
        _ => false,
    }
}

fn is_fraction_text(value: &Value) -> bool
    ensures { result ≡ is_fraction_text (Some (view value.now)) }
{
    match value {
        Value::String(text) => is_fraction(text),
        _ => false,
    }
}

impl Columns {
    /// The columns of a layer without features.
    pub fn new(alloc: Global) -> Columns
        ensures { AreColumns result [] }
    {
        Columns {
            numbers: BTreeMap::new(alloc),
            mixed: BTreeSet::new(alloc),
        }
    }

    fn count_of(&self, name: &str) -> u64
        ensures { result ≡ unwrap_or (get_by_text self.now.numbers name.now) 0 }
    {
        match self.numbers.get(name) {
            Some(count) => *count,
            None => 0,
        }
    }

    // One text more with a point or an exponent.
    fn add_text(&mut self, alloc: Global, name: &str) -> Result<(), OutOfMemory>
        ensures { OnOk result ((q : List ℕ) → column_at self.new q ≡ (if bytes_eq name.now q then with_text (column_at self.old q) else column_at self.old q)) }
    {
        if self.mixed.contains(name) {
            return Ok(());
        }
        let count = self.count_of(name).saturating_add(1);
        self.numbers.insert(String::from_str(alloc, name)?, count)?;
        Ok(())
    }

    // One value more that no column of numbers has.
    fn exclude(&mut self, alloc: Global, name: &str) -> Result<(), OutOfMemory>
        ensures { OnOk result ((q : List ℕ) → column_at self.new q ≡ (if bytes_eq name.now q then excluded else column_at self.old q)) }
    {
        self.numbers.remove(name);
        self.mixed.insert(String::from_str(alloc, name)?)?;
        Ok(())
    }

    fn add_value(&mut self, alloc: Global, name: &str, value: &Value) -> Result<(), OutOfMemory>
        ensures { OnOk result ((q : List ℕ) → column_at self.new q ≡ (if bytes_eq name.now q then with_value (Some (view value.now)) (column_at self.old q) else column_at self.old q)) }
    {
        if is_fraction_text(value) {
            self.add_text(alloc, name)
        } else if is_numeric(value) {
            Ok(())
        } else {
            self.exclude(alloc, name)
        }
    }

    fn add_members(
        &mut self,
        alloc: Global,
        members: &Map<String, Value>,
    ) -> Result<(), OutOfMemory>
        ensures { OnOk result ((q : List ℕ) → column_at self.new q ≡ with_value (get_member q (members_view members.now.entries)) (column_at self.old q)) }
    {
        for (name, value) in members.iter() {
            self.add_value(alloc, name, value)?;
        }
        Ok(())
    }

    /// Adds the properties of one feature more. After an error the columns are of no use.
    ///
    /// # Errors
    /// Where memory is refused.
    pub fn add(&mut self, alloc: Global, props: &Props) -> Result<(), OutOfMemory>
        ensures { OnOk result ((features : List Props) → AreColumns self.old features → AreColumns self.new (features ++ props.now ∷ [])) }
    {
        let Ok(value) = Value::from_str(alloc, props.text()) else {
            return Err(OutOfMemory);
        };
        let Value::Object(members) = value else {
            return Err(OutOfMemory);
        };
        self.add_members(alloc, &members)
    }

    /// The columns of numbers, in the order of their names, each with the count of its texts that have a point or an
    /// exponent.
    pub fn numbers(&self) -> &BTreeMap<String, u64>
        ensures { (features : List Props) → AreColumns self.now features → (name : List ℕ) → get_by_text result.now name ≡ number_column name features }
    {
        &self.numbers
    }
}
