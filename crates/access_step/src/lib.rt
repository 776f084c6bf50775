// Where one part of an access string leads in the local types: the first index, a member, an element. Where a member or an
// element lies is no other in the target's types.
#![tactic(auto)]

ghost use Rattle.std.specs.Prelude.{◌≡◌};
ghost use Rattle.btf_view.specs.Lent.{lent};
ghost use Rattle.rules.specs.Fields.{member_bits};
ghost use Rattle.rules.specs.Refusal.{bind};
ghost use Rattle.rules.specs.Types.{resolve};
ghost use Rattle.rules.specs.Access.{element, by, local_open, local_member, element_bits, local_element, local_step, first_bits};

use access_bits::{bits_sum, element_bits, local_first_bits};
use btf_kinds::{BTF_KIND_ARRAY, BTF_KIND_STRUCT, Entry};
use btf_view::Types;
use rules::{Accessor, Refusal, Step};
use types_chain::{is_composite, resolve_type, type_size};

// Where a member lies in its type, in bits.
pub fn member_bits(types: &Types, id: u32, member: Entry) -> u32
    ensures { result ≡ member_bits ((lent types.now).typ id) member }
{
    if types.flag_of(id) == 1 {
        member.low % 16777216
    } else {
        member.low
    }
}

// To the member `index` of a type. Without a name it adds its bits and no accessor.
#[tactic(auto, unfolding(rules::specs::Access::local_member))]
fn local_member(types: &Types, id: u32, bits: u64, index: u64) -> Result<Step, Refusal>
    ensures { result ≡ local_member bits index id ((lent types.now).typ id) }
{
    let count = types.count_of(id);
    if index >= count as u64 {
        return Err(Refusal::IndexTooBig(index, count));
    }
    let member = types.entry_of(id, index as u32);
    let at = bits_sum(bits, member_bits(types, id, member) as u64)?;
    let unnamed = member.name == 0;
    let by = if unnamed {
        None
    } else {
        Some(Accessor {
            typ: id,
            index,
            named: true,
        })
    };
    Ok(Step {
        by,
        typ: member.typ,
        bits: at,
    })
}

// Where the element `index` of a type lies, in an array that begins at some bits.
#[tactic(auto, unfolding(rules::specs::Access::element_bits))]
pub fn placed_element(types: &Types, id: u32, bits: u64, index: u64) -> Result<u64, Refusal>
    ensures { result ≡ element_bits (lent types.now).typ bits index id }
{
    let size = type_size(types, id)?;
    let from_start = element_bits(index, size)?;
    bits_sum(bits, from_start)
}

// SECOND ODDITY: a local array of 0 elements is open where the ARRAY INDEX is that of its struct's last member.
#[tactic(auto, unfolding(rules::specs::Access::local_open))]
fn local_open(types: &Types, array: u32, parent: u32, index: u64) -> bool
    ensures { result ≡ local_open ((lent types.now).typ array) ((lent types.now).typ parent) index }
{
    let count = types.count_of(parent) as u64;
    types.extra_of(array) == 0
        && types.kind_of(parent) == BTF_KIND_STRUCT
        && index < count
        && index + 1 == count
}

// To the element `index`, of a type.
fn to_element(types: &Types, id: u32, bits: u64, index: u64) -> Result<Step, Refusal>
    ensures { result ≡ bind (element_bits (lent types.now).typ bits index id) (λ b. Ok (by (element id index) id b)) }
{
    let at = placed_element(types, id, bits, index)?;
    let accessor = Accessor {
        typ: id,
        index,
        named: false,
    };
    Ok(Step {
        by: Some(accessor),
        typ: id,
        bits: at,
    })
}

// To the element `index` of an array, its type being resolved; `parent` is the type of the accessor before it.
#[tactic(auto, unfolding(rules::specs::Access::local_element))]
fn local_element(
    types: &Types,
    array: u32,
    parent: u32,
    id: u32,
    bits: u64,
    index: u64,
) -> Result<Step, Refusal>
    ensures { result ≡ local_element (lent types.now).typ ((lent types.now).typ parent) bits index ((lent types.now).typ array) id }
{
    let count = types.extra_of(array);
    if index >= count as u64 && !local_open(types, array, parent, index) {
        return Err(Refusal::IndexTooBig(index, count));
    }
    to_element(types, id, bits, index)
}

// One part, at a type that is no modifier.
#[tactic(auto, unfolding(rules::specs::Access::local_step))]
fn local_step(types: &Types, parent: u32, id: u32, bits: u64, index: u64) -> Result<Step, Refusal>
    ensures { result ≡ local_step (lent types.now).typ ((lent types.now).typ parent) bits index id }
{
    let kind = types.kind_of(id);
    if is_composite(kind) {
        return local_member(types, id, bits, index);
    }
    if kind != BTF_KIND_ARRAY {
        return Err(Refusal::WrongKind);
    }
    let element = resolve_type(types, types.ref_of(id))?;
    local_element(types, id, parent, element, bits, index)
}

// One part, at any type: its modifiers are passed first.
pub fn next_step(
    types: &Types,
    parent: u32,
    id: u32,
    bits: u64,
    index: u64,
) -> Result<Step, Refusal>
    ensures { let typ = (lent types.now).typ in result ≡ bind (resolve typ id) (local_step typ (typ parent) bits index) }
{
    let at = resolve_type(types, id)?;
    local_step(types, parent, at, bits, index)
}

// Where the first index begins.
#[tactic(auto, unfolding(rules::specs::Access::first_bits))]
pub fn placed_first(types: &Types, id: u32, index: u64) -> Result<u64, Refusal>
    ensures { result ≡ first_bits (lent types.now).typ index id }
{
    let size = type_size(types, id)?;
    local_first_bits(size, index)
}
