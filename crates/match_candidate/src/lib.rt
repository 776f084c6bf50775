// What one candidate gives: to a type as a whole, to a variant, to a path of fields.
#![tactic(auto)]

ghost use Rattle.std.specs.Prelude.{◌≡◌, Ok, Some, take};
ghost use Rattle.btf_view.specs.Lent.{lent};
ghost use Rattle.rules.specs.Matching.{worth, field_match, field_event, origin as nowhereYet};
ghost use Rattle.match_candidate.specs.Events.{variant_worth, type_events};

use btf_kinds::Entry;
use btf_view::Types;
use match_follow::path_step;
use rules::{Accessor, ENUM_VARIANT_EXISTS, Match, Record, Refusal, Target, Value};
use types_compat::types_are_compatible;
use value_match::{field_value, type_value, variant_value};
use value_member::plain_value;

// The steps of a local path: an access string has no more parts.
const MOST_STEPS: usize = 64;

// A value that must be there, of a type that matches at bit 0.
fn worth_event(v: Result<Value, Refusal>) -> Result<Option<Match>, Refusal>
    ensures { result ≡ worth v }
{
    let value = v?;
    Ok(Some(Match {
        bits: 0,
        value: Some(value),
    }))
}

// What the target's type id gives, as a whole, to a record.
#[tactic(auto, unfolding(crate::specs::Events::type_events))]
pub fn type_event(
    local: &Types,
    target: &Types,
    relo: Record,
    id: u32,
) -> Result<Option<Match>, Refusal>
    ensures { result ≡ type_events (lent local.now) (lent target.now) relo.kind relo.typ id }
{
    if types_are_compatible(local, target, relo.typ, id)? {
        worth_event(type_value(target, relo.kind, id))
    } else {
        Ok(None)
    }
}

// A variant of the target's enum id: that it exists, or its value.
pub fn variant_worth(target: &Types, kind: u32, id: u32, found: Entry) -> Option<Value>
    ensures { result ≡ variant_worth kind ((lent target.now).typ id) found }
{
    let number = if kind == ENUM_VARIANT_EXISTS {
        1
    } else {
        variant_value(target, id, found)
    };
    Some(plain_value(number))
}

// Before the first index.
fn origin() -> Target
    ensures { result ≡ nowhereYet }
{
    Target {
        typ: 0,
        last: Accessor::default(),
        bits: 0,
        parts: 0,
    }
}

// A path that leads to a place matches there, once the local value is there; the target's need not be.
fn place_event(
    target: &Types,
    kind: u32,
    mine: Result<Value, Refusal>,
    place: Target,
) -> Result<Option<Match>, Refusal>
    ensures { result ≡ field_event (lent target.now).typ kind mine (Ok (Some place)) }
{
    mine?;
    let theirs = field_value(target, kind, place.last, place.bits);
    Ok(Some(Match {
        bits: place.bits,
        value: theirs.ok(),
    }))
}

// A local path, followed in candidate id: left once a step finds nothing or is refused. An access string has at most 64 parts;
// of a longer list the first 64 steps are followed, so that the target's parts, up to 33 more with each, fit in 32 bits.
pub fn followed(
    local: &Types,
    target: &Types,
    steps: &[Accessor],
    id: u32,
) -> Result<Option<Target>, Refusal>
    ensures { result ≡ field_match (lent local.now) (lent target.now) (take 64 steps.now) id }
{
    if steps.is_empty() {
        return Ok(None);
    }
    let path = &steps[..steps.len().min(MOST_STEPS)];
    let mut place = origin();
    for (k, own) in path.iter().enumerate() {
        let Some(next) = path_step(local, target, id, place, *own, k)? else {
            return Ok(None);
        };
        place = next;
    }
    Ok(Some(place))
}

// What a candidate gives where the local path was followed.
pub fn field_event(
    target: &Types,
    kind: u32,
    mine: Result<Value, Refusal>,
    found: Result<Option<Target>, Refusal>,
) -> Result<Option<Match>, Refusal>
    ensures { result ≡ field_event (lent target.now).typ kind mine found }
{
    let Some(place) = found? else {
        return Ok(None);
    };
    place_event(target, kind, mine, place)
}
