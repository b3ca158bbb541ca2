//! A text beside its JSON spelling.
ghost use Rattle.shapes.specs.Spelling.{spelling_of};
ghost use Rattle.std.specs.Coded.{Coded-set, coded_bool};
ghost use Rattle.std.specs.Prelude.{◌≡◌, true};
ghost use Rattle.std.specs.Str.{is_utf8};

use faults::OutOfMemory;
use lines::text::JsonText;
use serde_json::Value;
use std::alloc::Global;

/// A text with its JSON spelling beside it, as `serde_json` writes it compactly.
/// Equality and order are those of the text, by its UTF-8 bytes.
#[derive(Drop)]
#[derive_where(PartialEq, Eq, PartialOrd, Ord, Debug)]
pub struct Spelled {
    text: JsonText,
    #[derive_where(skip(EqHashOrd))]
    json: JsonText,
    pub ghost spelled: { json ≡ spelling_of text },
    pub ghost utf8: { is_utf8 text ≡ true } by { Coded-set coded_bool _ _ },
}

impl Spelled {
    ghost use Rattle.shapes.specs.Parts.{spelled_text};
    ghost use Rattle.std.specs.Prelude.{IfOk};

    /// The text with its spelling, or out of memory.
    pub fn new(alloc: Global, text: &str) -> Result<Spelled, OutOfMemory>
        ensures { IfOk result (λ s. spelled_text s ≡ text.now) }
    {
        let value = Value::String(String::from_str(alloc, text)?);
        let json = JsonText::from_string(value.to_string(alloc)?);
        let text = JsonText::from_string(String::from_str(alloc, text)?);
        Ok(Spelled { text, json })
    }

    /// The text.
    pub fn text(&self) -> &str
        ensures { result.now ≡ spelled_text self.now }
    {
        self.text.as_str()
    }

    /// The text's compact JSON, in quotes.
    pub fn spelling(&self) -> &str
        ensures { result.now ≡ spelling_of (spelled_text self.now) }
    {
        self.json.as_str()
    }

    /// An equal text with its spelling, or out of memory.
    pub fn copy(&self, alloc: Global) -> Result<Spelled, OutOfMemory>
        ensures { IfOk result (λ s. s ≡ self.now) }
    {
        let text = JsonText::from_string(String::from_str(alloc, self.text())?);
        let json = JsonText::from_string(String::from_str(alloc, self.spelling())?);
        Ok(Spelled { text, json })
    }
}
