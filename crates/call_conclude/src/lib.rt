// What is written, once the matches and the local value are known: the target's value, and the change of size.
#![tactic(auto)]

ghost use Rattle.std.specs.Prelude.{◌≡◌};
ghost use Rattle.btf_view.specs.Lent.{lent};
ghost use Rattle.rules.specs.Kinds.{asks_existence};
ghost use Rattle.rules.specs.Fields.{int_signed};
ghost use Rattle.rules.specs.Record.{resizable, resizing, writing, absent, conclude, computed, shown};

use btf_kinds::{BTF_KIND_INT, BTF_KIND_PTR};
use btf_view::Types;
use rules::{
    Answer, ENUM_VARIANT_EXISTS, FIELD_EXISTS, Kept, Refusal, Resize, TYPE_EXISTS, TYPE_ID_TARGET,
    TYPE_SIZE, Value, Write,
};
use value_member::plain_value;

// Whether the type with an id, an INT, is signed.
fn int_signed(types: &Types, id: u32) -> bool
    ensures { result ≡ int_signed ((lent types.now).typ id) }
{
    types.extra_of(id) / 16777216 % 2 == 1
}

// Both pointers, or both unsigned INTs.
#[tactic(auto, unfolding(rules::specs::Record::resizable))]
fn exchangeable(local: &Types, target: &Types, a: u32, b: u32) -> bool
    ensures { result ≡ resizable ((lent local.now).typ a) ((lent target.now).typ b) }
{
    let kind = local.kind_of(a);
    if target.kind_of(b) != kind {
        return false;
    }
    match kind {
        BTF_KIND_PTR => true,
        BTF_KIND_INT => !int_signed(local, a) && !int_signed(target, b),
        _ => false,
    }
}

// The change of size from the local value to the target's.
#[tactic(auto, unfolding(rules::specs::Record::resizing))]
fn resize_between(local: &Types, target: &Types, mine: Value, theirs: Value) -> Resize
    ensures { result ≡ resizing (lent local.now).typ (lent target.now).typ mine theirs }
{
    let size = theirs.size;
    if mine.size == size {
        return Resize::Same;
    }
    let (Some(a), Some(b)) = (mine.typ, theirs.typ) else {
        return Resize::OneSided;
    };
    if exchangeable(local, target, a, b) {
        Resize::To(size)
    } else {
        Resize::Unlike
    }
}

// What is written for a local value and the target's, if it has one.
fn write_for(local: &Types, target: &Types, mine: Value, theirs: Option<Value>) -> Write
    ensures { result ≡ writing (lent local.now).typ (lent target.now).typ mine theirs }
{
    match theirs {
        None => Write::Poison,
        Some(v) => {
            let z = resize_between(local, target, mine, v);
            Write::Put(v.number, z)
        }
    }
}

// Kinds that ask whether something exists.
fn asks_existence(kind: u32) -> bool
    ensures { result ≡ asks_existence kind }
{
    matches!(kind, FIELD_EXISTS | TYPE_EXISTS | ENUM_VARIANT_EXISTS)
}

// Where nothing matched: existence is 0, a type's id or size is refused, anything else has no value.
#[tactic(auto, unfolding(rules::specs::Record::absent))]
fn absent_worth(kind: u32) -> Result<Option<Value>, Refusal>
    ensures { result ≡ absent kind }
{
    match kind {
        TYPE_ID_TARGET | TYPE_SIZE => Err(Refusal::NoMatch),
        _ if asks_existence(kind) => Ok(Some(plain_value(0))),
        _ => Ok(None),
    }
}

// The target's value, from what was kept of the matches.
#[tactic(auto, unfolding(rules::specs::Record::conclude))]
pub fn conclude_from(
    kind: u32,
    matches: Result<Option<Kept>, Refusal>,
) -> Result<Option<Value>, Refusal>
    ensures { result ≡ conclude kind matches }
{
    let Some(kept) = matches? else {
        return absent_worth(kind);
    };
    let alone = kept.count == 0;
    if alone {
        Ok(kept.first.value)
    } else {
        Err(Refusal::Conflict(kept.conflict, kept.count))
    }
}

// The target's value comes first, then the local one, which must be there.
pub fn write_computed(
    local: &Types,
    target: &Types,
    mine: Result<Value, Refusal>,
    theirs: Result<Option<Value>, Refusal>,
) -> Result<Write, Refusal>
    ensures { result ≡ computed (lent local.now).typ (lent target.now).typ mine theirs }
{
    let worth = theirs?;
    let own = mine?;
    Ok(write_for(local, target, own, worth))
}

// What an applied record shows.
pub fn shown_answer(write: Write) -> Answer
    ensures { result ≡ shown write }
{
    match write {
        Write::Put(number, _) => Answer::Applied(number),
        Write::Poison => Answer::Poisoned,
    }
}
