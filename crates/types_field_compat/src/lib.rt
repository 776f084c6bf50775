// Whether the types of two members are compatible: the local one's id and the target's. Any bytes, any tables get an
// answer.
#![tactic(auto)]

ghost use Rattle.std.specs.Prelude.{◌≡◌, ◌&&◌, ◌||◌, eqb};
ghost use Rattle.btf_view.specs.Lent.{lent};
ghost use Rattle.rules.specs.Kinds.{is_composite, is_enum};
ghost use Rattle.btf_kinds.specs.Names.{ARRAY, FWD};
ghost use Rattle.rules.specs.Types.{meet_fields, fields_compatible};
ghost use Rattle.types_field_compat.specs.Names.{no_further, names_agree};

use btf_kinds::{BTF_KIND_ARRAY, BTF_KIND_FLOAT, BTF_KIND_FWD, BTF_KIND_INT, BTF_KIND_PTR};
use btf_view::Types;
use rules::{MAX_RESOLVE_DEPTH, Refusal};
use types_chain::{ints_agree, is_composite, is_enum, kinds_alike, resolve_type};
use types_names::same_named;

// Structs and unions are compatible as fields, whatever they hold.
fn both_composite(a: u32, b: u32) -> bool
    ensures { result ≡ (is_composite a && is_composite b) }
{
    is_composite(a) && is_composite(b)
}

// Forward declarations and enums are compared by name.
fn goes_by_name(kind: u32) -> bool
    ensures { result ≡ (eqb kind FWD || is_enum kind) }
{
    let forward = kind == BTF_KIND_FWD;
    forward || is_enum(kind)
}

// Two types' names, the same but for flavours.
fn names_agree(local: &Types, target: &Types, i: u32, j: u32) -> bool
    ensures { result ≡ names_agree (lent local.now) (lent target.now) i j }
{
    let name = local.text_of(local.name_of(i));
    same_named(name, target, target.name_of(j))
}

// Two arrays.
fn are_arrays(local: &Types, target: &Types, i: u32, j: u32) -> bool
    ensures { result ≡ (eqb ((lent local.now).typ i).kind ARRAY && eqb ((lent target.now).typ j).kind ARRAY) }
{
    local.kind_of(i) == BTF_KIND_ARRAY && target.kind_of(j) == BTF_KIND_ARRAY
}

// Two fields' types without modifiers that are not both arrays.
#[tactic(auto, using(std::proofs::lemmas::Bool::Decides::nat_tests), unfolding(rules::specs::Types::meet_fields))]
fn fields_meet(local: &Types, target: &Types, i: u32, j: u32) -> Result<bool, Refusal>
    ensures { result ≡ meet_fields no_further (lent local.now).text (lent target.now).text ((lent local.now).typ i)
        ((lent target.now).typ j) }
{
    let kind = local.kind_of(i);
    let other = target.kind_of(j);
    if both_composite(kind, other) {
        return Ok(true);
    }
    if !kinds_alike(kind, other) {
        return Ok(false);
    }
    if goes_by_name(kind) {
        return Ok(names_agree(local, target, i, j));
    }
    match kind {
        BTF_KIND_INT => Ok(ints_agree(local, target, i, j)),
        BTF_KIND_FLOAT | BTF_KIND_PTR => Ok(true),
        _ => Err(Refusal::Unresolved),
    }
}

// Whether two members may have these types.
pub fn fields_are_compatible(local: &Types, target: &Types, a: u32, b: u32) -> Result<bool, Refusal>
    ensures { result ≡ fields_compatible (lent local.now) (lent target.now) a b }
{
    let mut u = a;
    let mut v = b;
    for turn in 0..MAX_RESOLVE_DEPTH {
        let i = resolve_type(local, u)?;
        let j = resolve_type(target, v)?;
        if !are_arrays(local, target, i, j) {
            return fields_meet(local, target, i, j);
        }
        u = local.ref_of(i);
        v = target.ref_of(j);
    }
    Err(Refusal::Unresolved)
}
