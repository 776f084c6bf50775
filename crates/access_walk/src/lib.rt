// Where an access leads in the local types. For field kinds the parts lead through members and arrays:
//     struct a { int x; struct b { int y; struct { int z[4]; }; } s; };
//     "0:1:1:0:2" on a is ((struct a *)p)[0].s.z[2]: the accessors are [0], .s, .z, [2]; the unnamed struct's 1 adds its bits alone.
#![tactic(auto)]

ghost use Rattle.std.specs.Prelude.{◌≡◌, ◌<◌, ◌≤◌, length, Err};
ghost use Rattle.btf_view.specs.Lent.{lent};
ghost use Rattle.rules.specs.Refusal.{bind};
ghost use Rattle.rules.specs.Access.{last, begun, walked, local_steps, found, field_access, type_access, variant_at, enum_access, local_access};
ghost use Rattle.access_text.specs.Few.{items_of};
ghost use Rattle.access_text.specs.Text.{parts_of};
ghost use Rattle.access_walk.specs.Replies.{walk_of, access_of};

use access_step::{next_step, placed_first};
use access_text::{Few, Parts};
use btf_view::Types;
use rules::{Accessor, FIELD_RSHIFT, Refusal, Step, TYPE_SIZE};
use types_chain::is_enum;

// Where a walk has come to: a type, by a path of accessors, at a bit offset.
#[derive(Clone, Copy)]
pub struct Walk {
    pub typ: u32,
    pub path: Few<Accessor>,
    pub bits: u64,
}

// What was accessed: a type as a whole; a variant, by its enum and index; a path, and its bit offset.
#[derive(Clone, Copy)]
pub enum Access {
    Whole,
    Variant(u32, u32),
    Path(Few<Accessor>, u64),
}

// The walk that begins with an index of a type.
fn begin(id: u32, index: u64, bits: u64) -> Walk
    ensures { walk_of result ≡ begun id index bits }
{
    let mut path = Few::new(Accessor::default());
    path.push(Accessor {
        typ: id,
        index,
        named: false,
    });
    Walk {
        typ: id,
        path,
        bits,
    }
}

// The walk a step further: by an accessor, where the step has one.
fn further(walk: &mut Walk, step: Step)
    requires { length (items_of walk.old.path) < 64 }
    ensures { walk_of walk.new ≡ walked (walk_of walk.old) step }
{
    walk.typ = step.typ;
    walk.bits = step.bits;
    if let Some(accessor) = step.by {
        walk.path.push(accessor);
    }
}

// An access that is refused.
pub fn refuse(refusal: Refusal) -> Result<Access, Refusal>
    ensures { access_of result ≡ Err refusal }
{
    Err(refusal)
}

// The last accessor of a path; one of zeros where there is none.
pub fn last_step(path: &[Accessor]) -> Accessor
    ensures { result ≡ last path.now }
{
    path.last().copied().unwrap_or_default()
}

// The parts after the first, which was an index of a type that begins at some bits.
fn walk_on(types: &Types, id: u32, index: u64, bits: u64, parts: &[u64]) -> Result<Access, Refusal>
    requires { length parts.now < 64 }
    ensures { access_of result ≡ bind (local_steps (lent types.now).typ (begun id index bits) parts.now) found }
{
    let mut walk = begin(id, index, bits);
    for part in parts {
        let parent = last_step(walk.path.as_slice()).typ;
        let step = next_step(types, parent, walk.typ, walk.bits, *part)?;
        further(&mut walk, step);
    }
    Ok(Access::Path(walk.path, walk.bits))
}

// A field of a type: the first index, then members and elements.
#[tactic(auto, unfolding(rules::specs::Access::field_access, rules::specs::Access::local_walk))]
fn field_access(types: &Types, id: u32, parts: &[u64]) -> Result<Access, Refusal>
    requires { length parts.now ≤ 64 }
    ensures { access_of result ≡ field_access (lent types.now).typ id parts.now }
{
    let [index, rest @ ..] = parts else {
        return Err(Refusal::BadAccess);
    };
    let bits = placed_first(types, id, *index)?;
    walk_on(types, id, *index, bits, rest)
}

// A type as a whole takes exactly the part 0.
#[tactic(auto, unfolding(rules::specs::Access::type_access))]
fn type_access(parts: &[u64]) -> Result<Access, Refusal>
    ensures { access_of result ≡ type_access parts.now }
{
    match parts {
        [0] => Ok(Access::Whole),
        _ => Err(Refusal::BadAccess),
    }
}

// A variant takes exactly one part, below the number of variants.
#[tactic(auto, unfolding(rules::specs::Access::variant_at))]
fn variant_access(types: &Types, id: u32, parts: &[u64]) -> Result<Access, Refusal>
    ensures { access_of result ≡ variant_at id (length ((lent types.now).typ id).entries) parts.now }
{
    let &[index] = parts else {
        return Err(Refusal::BadAccess);
    };
    let count = types.count_of(id);
    if index >= count as u64 {
        return Err(Refusal::IndexTooBig(index, count));
    }
    Ok(Access::Variant(id, index as u32))
}

// A variant of an enum; any other type is the wrong kind, whatever the parts.
#[tactic(auto, unfolding(rules::specs::Access::enum_access))]
fn enum_access(types: &Types, id: u32, parts: &[u64]) -> Result<Access, Refusal>
    ensures { access_of result ≡ enum_access (lent types.now).typ id parts.now }
{
    if is_enum(types.kind_of(id)) {
        return variant_access(types, id, parts);
    }
    Err(Refusal::WrongKind)
}

// What a record of a kind accesses, at a type that is no modifier, by the parts of its access string. Parts that were
// refused stay refused.
#[tactic(auto, unfolding(rules::specs::Access::local_access))]
pub fn local_access(
    types: &Types,
    kind: u32,
    id: u32,
    parts: Result<Parts, Refusal>,
) -> Result<Access, Refusal>
    ensures { access_of result ≡ bind (parts_of parts) (local_access (lent types.now) kind id) }
{
    let parts = match &parts {
        Ok(parts) => parts.as_slice(),
        Err(why) => return refuse(*why),
    };
    if kind <= FIELD_RSHIFT {
        return field_access(types, id, parts);
    }
    if kind <= TYPE_SIZE {
        return type_access(parts);
    }
    enum_access(types, id, parts)
}
