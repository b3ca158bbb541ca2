//! Properties, kept as their compact text.
ghost use Rattle.json.specs.Lex.{tokens};
ghost use Rattle.json.specs.Token.{tokens_code};
ghost use Rattle.json.specs.Tree.{json_tokens};
ghost use Rattle.serde_json.specs.View.{view};
ghost use Rattle.serde_json.specs.Written.{has_float, outline};
ghost use Rattle.shapes.specs.Properties.{is_properties, properties_value};
ghost use Rattle.shapes.specs.PropertyValues.{text_of_value};
ghost use Rattle.std.specs.Coded.{Coded-set, coded_bool};
ghost use Rattle.std.specs.Option.{option_map};
ghost use Rattle.std.specs.Prelude.{◌≡◌, IfOk, Some, false, string_bytes, true};

use crate::nesting::{GREATEST_PROPERTY_DEPTH, has_fraction, nests_within};
use faults::OutOfMemory;
use lines::text::JsonText;
use serde_json::Value;
use std::alloc::{AllocError, Global};
use thiserror::Error;

/// The properties of a feature: a JSON object, kept as its compact text.
/// All numbers are whole and its containers nest at most `GREATEST_PROPERTY_DEPTH` deep.
/// Equality and order are those of the text, by its bytes.
#[derive(PartialEq, Eq, PartialOrd, Ord, Drop, Debug)]
pub struct Props {
    text: JsonText,
    pub ghost properties: { is_properties text ≡ true } by { Coded-set coded_bool _ _ },
    pub ghost lexed: { tokens text ≡ json_tokens (outline (properties_value text)) } by { Coded-set tokens_code _ _ },
}

/// Why a JSON value is no properties.
#[derive(Clone, Copy, PartialEq, Eq, Debug, Error)]
pub enum PropFault {
    /// The value is not an object.
    #[error("properties are an object")]
    WrongKind,
    /// Some number inside is neither an i64 nor a u64.
    #[error("a number in properties that is not whole")]
    PropertyNumber,
    /// Containers nest deeper than `GREATEST_PROPERTY_DEPTH`.
    #[error("properties that nest too deep")]
    PropertyDepth,
    /// A growth of memory was refused.
    #[error("out of memory")]
    OutOfMemory,
}

impl Props {
    ghost use Rattle.serde_json.specs.View.{view};
    ghost use Rattle.serde_json.specs.Written.{compact_text};
    ghost use Rattle.shapes.specs.Parts.{properties_text};
    ghost use Rattle.shapes.specs.PropertyFaults.{property_fault};
    ghost use Rattle.shapes.specs.PropertyValues.{property_text};
    ghost use Rattle.std.specs.Option.{option_map};
    ghost use Rattle.std.specs.Prelude.{◌≢◌, IfOk, IfErr, None, Some, ◌↔◌, IsTrue, codes, string_bytes};

    /// The properties that the value is, or what is wrong with it: first that it is no object,
    /// then a number that is not whole, then its depth.
    pub fn from_value(alloc: Global, value: &Value) -> Result<Props, PropFault>
        ensures ok { IfOk result (λ _. property_fault (view value.now) ≡ None) }
        ensures text { IfOk result (λ p. properties_text p ≡ compact_text (view value.now)) }
        ensures fault { IfErr result (λ f. f ≢ PropFault.OutOfMemory → property_fault (view value.now) ≡ Some f) }
    {
        let Value::Object(_) = value else {
            return Err(PropFault::WrongKind);
        };
        if has_fraction(value) {
            return Err(PropFault::PropertyNumber);
        }
        if !nests_within(value, GREATEST_PROPERTY_DEPTH) {
            return Err(PropFault::PropertyDepth);
        }
        match value.to_string(alloc) {
            Ok(text) => Ok(Props {
                text: JsonText::from_string(text),
            }),
            Err(AllocError) => Err(PropFault::OutOfMemory),
        }
    }

    /// No properties: the text `{}`.
    pub fn empty(alloc: Global) -> Result<Props, OutOfMemory>
        ensures { IfOk result (λ p. properties_text p ≡ codes "{}") }
    {
        let text = JsonText::from_string(String::from_str(alloc, "{}")?);
        Ok(Props { text })
    }

    /// Whether there are no properties.
    pub fn is_empty(&self) -> bool
        ensures { IsTrue result ↔ (properties_text self.now ≡ codes "{}") }
    {
        self.text() == "{}"
    }

    /// The compact text.
    pub fn text(&self) -> &str
        ensures { result.now ≡ properties_text self.now }
    {
        self.text.as_str()
    }

    /// The compact text of the value of a property; `None` where it is missing or null.
    ///
    /// # Errors
    /// Where memory is refused.
    pub fn value_text(&self, alloc: Global, name: &str) -> Result<Option<String>, OutOfMemory>
        ensures { IfOk result (λ o. option_map string_bytes o ≡ property_text name.now (properties_text self.now)) }
    {
        let Ok(value) = Value::from_str(alloc, self.text()) else {
            return Err(OutOfMemory);
        };
        match value.get(name) {
            Some(found) => text_of(alloc, found),
            None => Ok(None),
        }
    }

    /// Equal properties, or out of memory.
    pub fn copy(&self, alloc: Global) -> Result<Props, OutOfMemory>
        ensures { IfOk result (λ p. p ≡ self.now) }
    {
        let text = JsonText::from_string(String::from_str(alloc, self.text())?);
        Ok(Props { text })
    }
}

/// The compact text of a value; `None` of null.
fn text_of(alloc: Global, value: &Value) -> Result<Option<String>, OutOfMemory>
    ensures { IfOk result (λ o. has_float (view value.now) ≡ false → option_map string_bytes o ≡ text_of_value (Some (view value.now))) }
{
    match value {
        Value::Null => Ok(None),
        _ => Ok(Some(value.to_string(alloc)?)),
    }
}
