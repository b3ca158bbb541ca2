//! The types of GeoJSON's objects (RFC 7946, section 1.4).
ghost use Rattle.decimal_maps.specs.Members.{type_name};
ghost use Rattle.decimal_maps.specs.Reads.{Gives};
ghost use Rattle.json.specs.Json.{string};
ghost use Rattle.std.specs.Prelude.{◌≡◌, ℕ, IfNone, IfOk, IfSome};

use crate::from_tokens::Stop;
use json::{Reader, Token};
use reading::geometry::GeometryType;

/// A type.
#[derive(Clone, Copy)]
pub enum Kind {
    FeatureCollection,
    Feature,
    GeometryCollection,
    /// A type of geometries that have coordinates (RFC 7946, sections 3.1.2 to 3.1.7).
    Simple(GeometryType),
}

impl Kind {
    /// The type of that name.
    #[tactic(auto, using(crate::proofs::Naming::unnamed))]
    pub fn from_name(text: &str) -> Option<Kind>
        ensures named { IfSome result (λ k. text.now ≡ type_name k) }
        ensures unknown { IfNone result ((k : Kind) → ¬ (text.now ≡ type_name k)) }
    {
        if text == "FeatureCollection" {
            Some(Kind::FeatureCollection)
        } else if text == "Feature" {
            Some(Kind::Feature)
        } else if text == "GeometryCollection" {
            Some(Kind::GeometryCollection)
        } else {
            match GeometryType::from_name(text) {
                Ok(kind) => Some(Kind::Simple(kind)),
                Err(_) => None,
            }
        }
    }
}

/// The type that comes next.
pub fn take_kind<'t>(reader: &mut Reader<'t>) -> Result<Kind, Stop>
    ensures { IfOk result (λ k. (depth : ℕ) → Gives depth reader.old (string (type_name k)) reader.new) }
{
    let Some(Token::String(text)) = reader.next() else {
        return Err(Stop::Unread);
    };
    match Kind::from_name(text) {
        Some(kind) => Ok(kind),
        None => Err(Stop::Unread),
    }
}
