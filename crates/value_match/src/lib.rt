// What a match is worth, by the record's kind: a field's value, a type's, a variant's. All are functions of the view alone:
// no candidate is looked at, and no instruction. Any bytes, any table, any kind and any bit offset get an answer.
#![tactic(auto)]

ghost use Rattle.std.specs.Prelude.{◌≡◌, Ok};
ghost use Rattle.btf_view.specs.Lent.{lent};
ghost use Rattle.rules.specs.Fields.{raw_value};
ghost use Rattle.rules.specs.Types.{size_of, sized};
ghost use Rattle.rules.specs.Value.{plain, element_value, field_value, variant_value, type_value};

use btf_kinds::{BTF_KIND_ENUM, Entry};
use btf_view::Types;
use rules::{
    Accessor, FIELD_BYTE_OFFSET, FIELD_BYTE_SIZE, FIELD_EXISTS, Refusal, TYPE_EXISTS,
    TYPE_ID_TARGET, Value,
};
use types_chain::type_size;
use value_member::{named_value, offset_value, plainly};
use word_put::sign_extend;

// A type's size as a value.
fn size_value(types: &Types, id: u32) -> Result<Value, Refusal>
    ensures { result ≡ sized (size_of (lent types.now).typ id) (λ n. Ok (plain n)) }
{
    let size = type_size(types, id)?;
    plainly(size as u64)
}

// An element of a type: it has an offset and a size alone.
#[tactic(auto, unfolding(rules::specs::Value::element_value))]
fn element_value(types: &Types, kind: u32, id: u32, bits: u64) -> Result<Value, Refusal>
    ensures { result ≡ element_value (lent types.now).typ kind bits id }
{
    match kind {
        FIELD_BYTE_OFFSET => {
            let size = type_size(types, id)?;
            Ok(offset_value(bits, size, id))
        }
        FIELD_BYTE_SIZE => size_value(types, id),
        _ => Err(Refusal::WrongKind),
    }
}

// The value of a field, by the last accessor of its path and its bit offset.
#[tactic(auto, unfolding(rules::specs::Value::field_value))]
pub fn field_value(
    types: &Types,
    kind: u32,
    accessor: Accessor,
    bits: u64,
) -> Result<Value, Refusal>
    ensures { result ≡ field_value (lent types.now).typ kind accessor bits }
{
    if kind == FIELD_EXISTS {
        return plainly(1);
    }
    if accessor.named {
        return named_value(types, kind, accessor.typ, accessor.index, bits);
    }
    element_value(types, kind, accessor.typ, bits)
}

// The value of a type as a whole.
#[tactic(auto, unfolding(rules::specs::Value::type_value))]
pub fn type_value(types: &Types, kind: u32, id: u32) -> Result<Value, Refusal>
    ensures { result ≡ type_value (lent types.now).typ kind id }
{
    match kind {
        TYPE_ID_TARGET => plainly(id as u64),
        TYPE_EXISTS => plainly(1),
        _ => size_value(types, id),
    }
}

// A variant's value as it stands: 32 bits of an ENUM, 64 of an ENUM64.
fn raw_value(variant: Entry) -> u64
    ensures { result ≡ raw_value variant }
{
    variant.low as u64 + 4294967296 * (variant.high as u64)
}

// The value of a variant of an enum: of a signed ENUM it is an i32, widened with its sign.
#[tactic(auto, unfolding(rules::specs::Value::variant_value))]
pub fn variant_value(types: &Types, id: u32, variant: Entry) -> u64
    ensures { result ≡ variant_value ((lent types.now).typ id) variant }
{
    let signed = types.flag_of(id) == 1;
    if signed && types.kind_of(id) == BTF_KIND_ENUM {
        sign_extend(variant.low)
    } else {
        raw_value(variant)
    }
}
