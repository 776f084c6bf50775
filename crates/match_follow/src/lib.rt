// The local path followed in the target: to a member by its name, to an element by its index.
//   local:  struct a { int n; struct { int z[4]; } s; };          the accessors of "0:1:0:2" are [0], .s, .z, [2]
//   target: struct a { struct { long w; int z[8]; } s; };
// From the target's a: [0] is at bit 0, .s at bit 0, .z at bit 64, [2] at bit 128.
#![tactic(auto)]

ghost use Rattle.std.specs.Prelude.{◌≡◌, ◌+◌, ◌<◌};
ghost use Rattle.btf_view.specs.Lent.{lent};
ghost use Rattle.rules.specs.Types.{resolve};
ghost use Rattle.rules.specs.Matching.{at_element, target_open, target_element_at, target_step};
ghost use Rattle.match_follow.specs.Bounds.{in_bounds};
ghost use Rattle.match_follow.specs.Walk.{accessor_step};

use access_step::placed_element;
use btf_kinds::{BTF_KIND_ARRAY, BTF_KIND_STRUCT};
use btf_view::Types;
use match_search::{Wanted, search_member};
use rules::{Accessor, MAX_LEVELS, MAX_SPEC_LEN, Refusal, Target};
use types_chain::resolve_type;
use value_member::member_of;

// The element `index` of type id, from a place of a candidate's walk.
#[tactic(auto, unfolding(rules::specs::Matching::at_element))]
fn at_element(
    target: &Types,
    candidate: u32,
    from: Target,
    index: u64,
    id: u32,
) -> Result<Target, Refusal>
    requires { from.parts + 1 < 4294967296 }
    ensures { result ≡ at_element (lent target.now).typ candidate from index id }
{
    let full = from.parts == MAX_SPEC_LEN;
    if full {
        return Err(Refusal::MaximumNesting(candidate));
    }
    let bits = placed_element(target, id, from.bits, index)?;
    let last = Accessor {
        typ: id,
        index,
        named: false,
    };
    Ok(Target {
        typ: id,
        last,
        bits,
        parts: from.parts + 1,
    })
}

// Whether an array of 0 elements is its struct's last member, so that any index is within it.
#[tactic(auto, unfolding(rules::specs::Matching::target_open))]
fn is_open(types: &Types, array: u32, last: Accessor) -> bool
    ensures { result ≡ target_open ((lent types.now).typ array) ((lent types.now).typ last.typ) last.index }
{
    let count = types.count_of(last.typ) as u64;
    types.extra_of(array) == 0
        && types.kind_of(last.typ) == BTF_KIND_STRUCT
        && last.index < count
        && last.index + 1 == count
}

// Whether an index is within the array that the accessor `last` led to.
#[tactic(auto, unfolding(crate::specs::Bounds::in_bounds))]
fn in_bounds(types: &Types, array: u32, last: Accessor, index: u64) -> bool
    ensures { result ≡ in_bounds (lent types.now).typ array last index }
{
    index < types.extra_of(array) as u64 || is_open(types, array, last)
}

// The element `index` of the type come to, where that is an array that has one.
#[tactic(auto, unfolding(rules::specs::Matching::target_element, crate::specs::Bounds::in_bounds))]
fn target_element(
    target: &Types,
    candidate: u32,
    from: Target,
    index: u64,
) -> Result<Option<Target>, Refusal>
    requires { from.parts + 1 < 4294967296 }
    ensures { result ≡ target_element_at (lent target.now).typ candidate from index (resolve (lent target.now).typ from.typ) }
{
    let array = resolve_type(target, from.typ)?;
    if target.kind_of(array) != BTF_KIND_ARRAY || !in_bounds(target, array, from.last, index) {
        return Ok(None);
    }
    let id = resolve_type(target, target.ref_of(array))?;
    let place = at_element(target, candidate, from, index, id)?;
    Ok(Some(place))
}

// One accessor of the local path, followed in the target from a place of a candidate's walk.
#[tactic(auto, unfolding(rules::specs::Matching::target_step, rules::specs::Matching::target_member))]
fn target_step(
    local: &Types,
    target: &Types,
    candidate: u32,
    from: Target,
    accessor: Accessor,
) -> Result<Option<Target>, Refusal>
    requires { from.parts + 34 < 4294967296 }
    ensures { result ≡ target_step (lent local.now) (lent target.now) candidate from accessor }
{
    if accessor.named {
        let member = member_of(local, accessor.typ, accessor.index);
        let want = Wanted {
            candidate,
            from,
            member,
        };
        return search_member(local, target, want, from.typ, MAX_LEVELS);
    }
    target_element(target, candidate, from, accessor.index)
}

// The accessor k of the local path: the first is an index of the candidate itself.
#[tactic(auto, unfolding(crate::specs::Walk::accessor_step))]
pub fn path_step(
    local: &Types,
    target: &Types,
    candidate: u32,
    from: Target,
    accessor: Accessor,
    k: usize,
) -> Result<Option<Target>, Refusal>
    requires { from.parts + 34 < 4294967296 }
    ensures { result ≡ accessor_step (lent local.now) (lent target.now) candidate k from accessor }
{
    if k != 0 {
        return target_step(local, target, candidate, from, accessor);
    }
    let id = resolve_type(target, candidate)?;
    let place = at_element(target, candidate, from, accessor.index, id)?;
    Ok(Some(place))
}
