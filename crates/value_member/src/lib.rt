// What a member of a type is worth, by the record's kind and by how it is loaded. Any bytes, any table, any kind and any bit
// offset get an answer.
#![tactic(auto)]

ghost use Rattle.std.specs.Prelude.{◌≡◌, ◌*◌, ◌≤◌, Ok};
ghost use Rattle.btf_view.specs.Lent.{lent};
ghost use Rattle.rules.specs.Fields.{bitfield_size, nth_entry};
ghost use Rattle.rules.specs.Value.{plain, end_from, shift, load_value, member_value};
ghost use Rattle.value_member.specs.Members.{offset_of, plain_member, bitfield_member, named_value};

use btf_kinds::Entry;
use btf_view::Types;
use rules::{FIELD_BYTE_OFFSET, FIELD_BYTE_SIZE, FIELD_LSHIFT, FIELD_SIGNED, Load, Refusal, Value};
use types_chain::{resolve_type, type_size};
use value_load::{bitfield_of, plain_load, signedness_of};

// The bits of a register.
const REGISTER: u64 = 64;

// A value with nothing to compare.
pub fn plain_value(number: u64) -> Value
    ensures { result ≡ plain number }
{
    Value {
        number,
        size: 0,
        typ: None,
    }
}

pub fn plainly(number: u64) -> Result<Value, Refusal>
    ensures { result ≡ Ok (plain number) }
{
    Ok(plain_value(number))
}

// 64 less some bits, where there are no more than 64.
fn shift_by(bits: u64) -> Result<Value, Refusal>
    ensures { result ≡ shift bits }
{
    let too_wide = bits > REGISTER;
    if too_wide {
        return Err(Refusal::Unresolved);
    }
    plainly(REGISTER - bits)
}

// 64 less a field's end, counted from where its load begins.
fn left_shift(bits: u64, load: Load) -> Result<Value, Refusal>
    requires { 8 * load.offset ≤ bits }
    ensures { result ≡ shift (end_from load.offset bits load.width) }
{
    let before = bits - 8 * load.offset;
    let end = before.checked_add(load.width).ok_or(Refusal::Unresolved)?;
    shift_by(end)
}

// The value of a field of a type, from how it is loaded; `offset` answers the kind that asks for the offset.
#[tactic(auto, unfolding(rules::specs::Value::load_value))]
fn load_value(
    types: &Types,
    kind: u32,
    id: u32,
    bits: u64,
    load: Load,
    offset: Value,
) -> Result<Value, Refusal>
    requires { 8 * load.offset ≤ bits }
    ensures { result ≡ load_value kind bits ((lent types.now).typ id) load offset }
{
    match kind {
        FIELD_BYTE_OFFSET => Ok(offset),
        FIELD_BYTE_SIZE => plainly(load.size),
        FIELD_SIGNED => plainly(signedness_of(types, id)),
        FIELD_LSHIFT => left_shift(bits, load),
        _ => shift_by(load.width),
    }
}

// An offset in bytes, compared by the size and the type of what lies there.
pub fn offset_value(bits: u64, size: u32, id: u32) -> Value
    ensures { result ≡ offset_of bits size id }
{
    Value {
        number: bits / 8,
        size,
        typ: Some(id),
    }
}

// A member of a type that is no bitfield.
#[tactic(auto, unfolding(rules::specs::Value::plain_value))]
fn plain_member(types: &Types, kind: u32, id: u32, bits: u64) -> Result<Value, Refusal>
    ensures { result ≡ plain_member (lent types.now).typ kind bits id }
{
    let size = type_size(types, id)?;
    let load = plain_load(bits, size);
    let offset = offset_value(bits, size, id);
    load_value(types, kind, id, bits, load, offset)
}

// A bitfield member of a type; its offset is not compared.
#[tactic(auto, unfolding(rules::specs::Value::bitfield_value))]
fn bitfield_member(
    types: &Types,
    kind: u32,
    id: u32,
    bits: u64,
    width: u32,
) -> Result<Value, Refusal>
    ensures { result ≡ bitfield_member (lent types.now).typ kind bits width id }
{
    let load = bitfield_of(types, id, bits, width)?;
    let offset = plain_value(load.offset);
    load_value(types, kind, id, bits, load, offset)
}

// A member of a type, `width` bits wide; 0 where it is no bitfield.
#[tactic(auto, unfolding(rules::specs::Value::member_value))]
fn member_value(types: &Types, kind: u32, id: u32, bits: u64, width: u32) -> Result<Value, Refusal>
    ensures { result ≡ member_value (lent types.now).typ kind bits width id }
{
    if width == 0 {
        return plain_member(types, kind, id, bits);
    }
    bitfield_member(types, kind, id, bits, width)
}

// The member `index` of a type; zeros where there is none.
pub fn member_of(types: &Types, id: u32, index: u64) -> Entry
    ensures { result ≡ nth_entry ((lent types.now).typ id) index }
{
    let count = types.count_of(id);
    if index >= count as u64 {
        return Entry {
            name: 0,
            typ: 0,
            low: 0,
            high: 0,
        };
    }
    types.entry_of(id, index as u32)
}

// How many bits wide a member of a type is; 0 where it is no bitfield.
fn bitfield_size(types: &Types, id: u32, member: Entry) -> u32
    ensures { result ≡ bitfield_size ((lent types.now).typ id) member }
{
    if types.flag_of(id) == 1 {
        member.low / 16777216
    } else {
        0
    }
}

// The member `index` of a composite type.
pub fn named_value(
    types: &Types,
    kind: u32,
    id: u32,
    index: u64,
    bits: u64,
) -> Result<Value, Refusal>
    ensures { result ≡ named_value (lent types.now).typ kind id index bits }
{
    let member = member_of(types, id, index);
    let width = bitfield_size(types, id, member);
    let at = resolve_type(types, member.typ)?;
    member_value(types, kind, at, bits, width)
}
