// What is kept of the candidates' matches, by what the record accesses: all target types, in id order from 0.
#![tactic(auto)]

ghost use Rattle.std.specs.Prelude.{◌≡◌, ◌+◌, ◌<◌, ◌^◌, take};
ghost use Rattle.btf_view.specs.Lent.{lent};
ghost use Rattle.rules.specs.Fields.{nth_entry};
ghost use Rattle.rules.specs.Record.{agree, agrees, keep, matches};
ghost use Rattle.match_candidate.specs.Events.{type_events, enum_events, field_events};
ghost use Rattle.match_fold.specs.Folded.{conflicts, folded};
ghost use Rattle.access_walk.specs.Replies.{access_in, access_of};
ghost use Rattle.match_fold.specs.Matches.{matches_of};

use access_walk::Access;
use btf_view::Types;
use match_candidate::{field_event, followed, type_event, variant_worth};
use match_scan::{next_candidate, type_name};
use rules::{Accessor, Kept, Match, Record, Refusal, Value};
use types_chain::{is_enum, resolve_type};
use types_names::same_named;

// Two values conflict only where both are there.
fn values_agree(first: Option<Value>, other: Option<Value>) -> bool
    ensures { result ≡ agree first other }
{
    match (first, other) {
        (Some(v), Some(w)) => v.number == w.number,
        _ => true,
    }
}

// A match does not conflict with the first one: at the same bits, with no other value.
fn matches_agree(first: Match, other: Match) -> bool
    ensures { result ≡ agrees first other }
{
    let elsewhere = first.bits != other.bits;
    !elsewhere && values_agree(first.value, other.value)
}

// Candidate id matches: the first match is kept, conflicts with it are counted.
fn keep(kept: Option<Kept>, id: u32, found: Match) -> Kept
    requires { conflicts kept + 1 < 2 ^ 64 }
    ensures { result ≡ keep kept id found }
{
    let Some(before) = kept else {
        return Kept {
            first: found,
            conflict: 0,
            count: 0,
        };
    };
    if matches_agree(before.first, found) {
        return before;
    }
    let alone = before.count == 0;
    let conflict = if alone { id } else { before.conflict };
    Kept {
        first: before.first,
        conflict,
        count: before.count + 1,
    }
}

// The matches of a record of a type kind.
// A loop of its own: with the event as a closure the three folds would be one, but that the closure over lent types may be
// called was not proved.
pub fn type_matches(local: &Types, target: &Types, relo: Record) -> Result<Option<Kept>, Refusal>
    ensures { result ≡ folded (lent local.now) (lent target.now) relo
        (type_events (lent local.now) (lent target.now) relo.kind relo.typ) }
{
    let own = local.kind_of(relo.typ);
    let name = type_name(local, relo.typ);
    let mut kept = None;
    let mut from: u64 = 0;
    while let Some(id) = next_candidate(target, own, name, from) {
        if let Some(found) = type_event(local, target, relo, id)? {
            kept = Some(keep(kept, id, found));
        }
        from = id as u64 + 1;
    }
    Ok(kept)
}

// The matches of a record of an enum kind, on the variant `index` of the local enum `of`: a candidate is settled by its first
// variant of the same name, but for flavours.
pub fn enum_matches(
    local: &Types,
    target: &Types,
    relo: Record,
    of: u32,
    index: u32,
) -> Result<Option<Kept>, Refusal>
    ensures { result ≡ folded (lent local.now) (lent target.now) relo
        (enum_events (lent target.now) relo.kind ((lent local.now).text (nth_entry ((lent local.now).typ of) index).name)) }
{
    let own = local.kind_of(relo.typ);
    let name = type_name(local, relo.typ);
    let asked = local.entry_of(of, index);
    let variant = local.text_of(asked.name);
    let mut kept = None;
    let mut from: u64 = 0;
    // nested, and left by a label: the form that document 01 asks for here
    'candidates: while let Some(id) = next_candidate(target, own, name, from) {
        from = id as u64 + 1;
        let e = resolve_type(target, id)?;
        if !is_enum(target.kind_of(e)) {
            continue 'candidates;
        }
        for k in 0..target.count_of(e) {
            let v = target.entry_of(e, k);
            if same_named(variant, target, v.name) {
                let value = variant_worth(target, relo.kind, e, v);
                kept = Some(keep(kept, id, Match { bits: 0, value }));
                continue 'candidates;
            }
        }
    }
    Ok(kept)
}

// The matches of a record of a field kind, on the path of these steps, of which the first 64 count.
pub fn field_matches(
    local: &Types,
    target: &Types,
    relo: Record,
    steps: &[Accessor],
    mine: Result<Value, Refusal>,
) -> Result<Option<Kept>, Refusal>
    ensures { result ≡ folded (lent local.now) (lent target.now) relo
        (field_events (lent local.now) (lent target.now) relo.kind mine (take 64 steps.now)) }
{
    let own = local.kind_of(relo.typ);
    let name = type_name(local, relo.typ);
    let mut kept = None;
    let mut from: u64 = 0;
    while let Some(id) = next_candidate(target, own, name, from) {
        let found = followed(local, target, steps, id);
        if let Some(found) = field_event(target, relo.kind, mine, found)? {
            kept = Some(keep(kept, id, found));
        }
        from = id as u64 + 1;
    }
    Ok(kept)
}

// The matches of a record that accesses this.
fn accessed_matches(
    local: &Types,
    target: &Types,
    relo: Record,
    access: &Access,
    mine: Result<Value, Refusal>,
) -> Result<Option<Kept>, Refusal>
    ensures { result ≡ matches (lent local.now) (lent target.now) relo (access_in access.now) mine }
{
    match access {
        Access::Whole => type_matches(local, target, relo),
        Access::Variant(of, index) => enum_matches(local, target, relo, *of, *index),
        Access::Path(steps, _) => field_matches(local, target, relo, steps.as_slice(), mine),
    }
}

// What is kept of the matches of a record's candidates, given what it accesses and its local value.
pub fn match_candidates(
    local: &Types,
    target: &Types,
    relo: Record,
    access: &Result<Access, Refusal>,
    mine: Result<Value, Refusal>,
) -> Result<Option<Kept>, Refusal>
    ensures { result ≡ matches_of (lent local.now) (lent target.now) relo (access_of access.now) mine }
{
    match access {
        Ok(accessed) => accessed_matches(local, target, relo, accessed, mine),
        Err(r) => Err(*r),
    }
}
