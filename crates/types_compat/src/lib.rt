// Whether two types are compatible: the local one's id and the target's. Any bytes, any tables get an answer.
#![tactic(auto)]

ghost use Rattle.std.specs.Prelude.{◌≡◌};
ghost use Rattle.btf_view.specs.Lent.{lent};
ghost use Rattle.rules.specs.Limits.{max_resolve_depth};
ghost use Rattle.rules.specs.Types.{resolve, both, always, params, meet, types_compatible};
ghost use Rattle.types_compat.specs.Steps.{Leads, step_within};

use btf_kinds::{
    BTF_KIND_ARRAY, BTF_KIND_FLOAT, BTF_KIND_FUNC_PROTO, BTF_KIND_FWD, BTF_KIND_INT, BTF_KIND_PTR,
    BTF_KIND_UNKN,
};
use btf_view::Types;
use rules::{MAX_RESOLVE_DEPTH, MAX_STEPS, Refusal};
use types_chain::{ints_agree, is_composite, is_enum, kinds_alike, resolve_type};

// What two types ask for, once their modifiers are skipped.
#[derive(Clone, Copy)]
enum Descent {
    // nothing more
    Done(bool),
    // the types that these two refer to
    Down(u32, u32),
    // the parameters of these two functions, then their return types
    Function(u32, u32),
}

// Kinds that are compatible with their like whatever they hold.
fn always_compatible(kind: u32) -> bool
    ensures { result ≡ always kind }
{
    kind == BTF_KIND_UNKN
        || (is_composite(kind)
            || (is_enum(kind) || (kind == BTF_KIND_FWD || kind == BTF_KIND_FLOAT)))
}

// Two types without modifiers.
#[tactic(auto, unfolding(rules::specs::Types::meet))]
fn types_meet(local: &Types, target: &Types, i: u32, j: u32) -> Result<Descent, Refusal>
    ensures { Leads (lent local.now).typ (lent target.now).typ result
        (λ down param. meet down param ((lent local.now).typ i) ((lent target.now).typ j)) }
{
    let kind = local.kind_of(i);
    if !kinds_alike(kind, target.kind_of(j)) {
        return Ok(Descent::Done(false));
    }
    if always_compatible(kind) {
        return Ok(Descent::Done(true));
    }
    match kind {
        BTF_KIND_INT => Ok(Descent::Done(ints_agree(local, target, i, j))),
        BTF_KIND_PTR | BTF_KIND_ARRAY => Ok(Descent::Down(i, j)),
        BTF_KIND_FUNC_PROTO => Ok(Descent::Function(i, j)),
        _ => Err(Refusal::Unresolved),
    }
}

// Two types, modifiers skipped.
fn types_step(local: &Types, target: &Types, a: u32, b: u32) -> Result<Descent, Refusal>
    ensures { Leads (lent local.now).typ (lent target.now).typ result
        (λ down param. both (meet down param) (lent local.now).typ (lent target.now).typ (resolve (lent local.now).typ a)
        (resolve (lent target.now).typ b)) }
{
    let i = resolve_type(local, a)?;
    let j = resolve_type(target, b)?;
    types_meet(local, target, i, j)
}

// The check of two types, with `left` nested steps allowed, this one among them, and `own` turns of the crate's loop, which
// begins afresh for each parameter.
#[tactic(auto, using(crate::proofs::Cycle::step_turn))]
#[cycle(params_within_types_within)]
fn types_within(
    local: &Types,
    target: &Types,
    a: u32,
    b: u32,
    left: u32,
    own: u32,
) -> Result<bool, Refusal>
    ensures { result ≡ step_within (lent local.now).typ (lent target.now).typ left own a b }
{
    let left = left.checked_sub(1).ok_or(Refusal::TooDeep)?;
    let own = own.checked_sub(1).ok_or(Refusal::Unresolved)?;
    match types_step(local, target, a, b)? {
        Descent::Done(fit) => Ok(fit),
        Descent::Down(i, j) => {
            let u = local.ref_of(i);
            let v = target.ref_of(j);
            types_within(local, target, u, v, left, own)
        }
        Descent::Function(i, j) => {
            let list = params_within(local, target, i, j, left)?;
            if !list {
                return Ok(false);
            }
            let u = local.ref_of(i);
            let v = target.ref_of(j);
            types_within(local, target, u, v, left, own)
        }
    }
}

// The check of two functions' parameter lists.
#[tactic(auto, unfolding(rules::specs::Types::params, rules::specs::Types::pairs))]
#[cycle(params_within_types_within)]
fn params_within(local: &Types, target: &Types, i: u32, j: u32, left: u32) -> Result<bool, Refusal>
    ensures { result ≡ params (step_within (lent local.now).typ (lent target.now).typ left max_resolve_depth)
        ((lent local.now).typ i).entries ((lent target.now).typ j).entries }
{
    let n = local.count_of(i);
    if n != target.count_of(j) {
        return Ok(false);
    }
    for k in 0..n {
        let p = local.entry_of(i, k);
        let q = target.entry_of(j, k);
        let fit = types_within(local, target, p.typ, q.typ, left, MAX_RESOLVE_DEPTH)?;
        if !fit {
            return Ok(false);
        }
    }
    Ok(true)
}

// Whether the two types that these ids name are compatible.
#[tactic(auto, unfolding(crate::specs::Steps::step_within, rules::specs::Types::types_compatible))]
pub fn types_are_compatible(local: &Types, target: &Types, a: u32, b: u32) -> Result<bool, Refusal>
    ensures { result ≡ types_compatible (lent local.now).typ (lent target.now).typ a b }
{
    types_within(local, target, a, b, MAX_STEPS + 1, MAX_RESOLVE_DEPTH)
}
