//! What the numbers of a caller stand for.
ghost use Rattle.c_calls.specs.Options.{edges_of, has_no_id, lacks_id, name_if, scope_of};
ghost use Rattle.c_calls.specs.Why.{IsBadNameIf, IsChoiceRefusal, IsScopeRefusal};
ghost use Rattle.std.specs.Option.{option_map};
ghost use Rattle.std.specs.Prelude.{◌≡◌, ◌<◌, ◌≤◌, IfErr, IfOk, OnOk, nat_eq};

use crate::borrowed::name_of;
use crate::refusal::CallRefusal;
use query::Edges;
use shapes::Id;
use topo::Geom;

/// Yes for 1, no for 0.
pub fn flag(number: u32) -> Result<bool, CallRefusal>
    ensures yes { IfOk result (λ b. b ≡ nat_eq number 1) }
    ensures choice { OnOk result (number < 2) }
    ensures bad { IfErr result (IsChoiceRefusal (2 ≤ number)) }
{
    match number {
        0 => Ok(false),
        1 => Ok(true),
        _ => Err(CallRefusal::BadChoice),
    }
}

/// The edges that a number stands for; 3 is for those at which a property differs.
pub fn edges_named(number: u32) -> Result<Edges, CallRefusal>
    ensures edges { IfOk result (λ e. e ≡ edges_of number) }
    ensures choice { OnOk result (number < 4) }
    ensures bad { IfErr result (IsChoiceRefusal (4 ≤ number)) }
{
    match number {
        0 => Ok(Edges::All),
        1 => Ok(Edges::Interior),
        2 | 3 => Ok(Edges::Exterior),
        _ => Err(CallRefusal::BadChoice),
    }
}

/// The name of a layer for 1, none for 0.
pub fn scope_named(number: u32, layer: &[u8]) -> Result<Option<&str>, CallRefusal>
    ensures scope { IfOk result (λ s. option_map (λ n. n.now) s ≡ scope_of number layer.now) }
    ensures choice { OnOk result (number < 2) }
    ensures bad { IfErr result (IsScopeRefusal number layer.now) }
{
    match number {
        0 => Ok(None),
        1 => match name_of(0, layer) {
            Ok(name) => Ok(Some(name)),
            Err(refusal) => Err(refusal),
        },
        _ => Err(CallRefusal::BadChoice),
    }
}

/// A name where it is asked for.
pub fn name_if(asked: bool, name: &[u8]) -> Result<Option<&str>, CallRefusal>
    ensures name { IfOk result (λ n. option_map (λ n. n.now) n ≡ name_if asked name.now) }
    ensures bad { IfErr result (IsBadNameIf asked name.now) }
{
    if !asked {
        return Ok(None);
    }
    match str::from_utf8(name) {
        Ok(name) => Ok(Some(name)),
        Err(_) => Err(CallRefusal::BadName(0)),
    }
}

/// Whether a geometry has no id.
fn is_without_id(geometry: &Geom) -> bool
    ensures { result ≡ has_no_id geometry.now.id }
{
    matches!(geometry.id, Id::None)
}

/// Whether one of some geometries has no id.
pub fn is_id_missing(geometries: &[Geom]) -> bool
    ensures { result ≡ lacks_id geometries.now }
{
    let mut left = geometries;
    while let Some((geometry, after)) = left.split_first() {
        if is_without_id(geometry) {
            return true;
        }
        left = after;
    }
    false
}
