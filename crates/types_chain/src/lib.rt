// Questions about one type, by id: where its chain of modifiers ends and how many bytes it has. Any bytes, any table get an
// answer.
#![tactic(auto)]

ghost use Rattle.std.specs.Prelude.{◌≡◌, cond, ◌||◌, eqb, ◌/◌, ◌%◌, ◌^◌};
ghost use Rattle.btf_view.specs.Lent.{lent};
ghost use Rattle.rules.specs.Kinds.{is_modifier, is_composite, is_enum, sized_by_ref, alike};
ghost use Rattle.btf_kinds.specs.Names.{ARRAY};
ghost use Rattle.rules.specs.Types.{resolve, product, size_of, ints_agree};

use btf_kinds::{
    BTF_KIND_ARRAY, BTF_KIND_DECL_TAG, BTF_KIND_ENUM, BTF_KIND_ENUM64, BTF_KIND_FUNC_PROTO,
    BTF_KIND_PTR, BTF_KIND_RESTRICT, BTF_KIND_STRUCT, BTF_KIND_TYPE_TAG, BTF_KIND_TYPEDEF,
    BTF_KIND_UNION, BTF_KIND_VAR, has_size,
};
use btf_view::Types;
use rules::{MAX_RESOLVE_DEPTH, Refusal, Unsized, Why};

pub const POINTER_SIZE: u32 = 8;

// The first size that is too big.
const SIZE_LIMIT: u64 = 4294967296;

// TYPEDEF, VOLATILE, CONST, RESTRICT and TYPE_TAG
fn is_modifier(kind: u32) -> bool
    ensures { result ≡ is_modifier kind }
{
    let tag = kind == BTF_KIND_TYPE_TAG;
    tag || (BTF_KIND_TYPEDEF <= kind && kind <= BTF_KIND_RESTRICT)
}

pub fn is_composite(kind: u32) -> bool
    ensures { result ≡ is_composite kind }
{
    kind == BTF_KIND_STRUCT || kind == BTF_KIND_UNION
}

pub fn is_enum(kind: u32) -> bool
    ensures { result ≡ is_enum kind }
{
    kind == BTF_KIND_ENUM || kind == BTF_KIND_ENUM64
}

// Whether a kind's size comes from the type that it refers to.
fn sized_by_ref(kind: u32) -> bool
    ensures { result ≡ (eqb kind ARRAY || sized_by_ref kind) }
{
    kind == BTF_KIND_ARRAY
        || (is_modifier(kind)
            || (kind == BTF_KIND_FUNC_PROTO || (kind == BTF_KIND_VAR || kind == BTF_KIND_DECL_TAG)))
}

// The type that an id names, whatever qualifies it.
pub fn resolve_type(types: &Types, id: u32) -> Result<u32, Refusal>
    ensures { result ≡ resolve (lent types.now).typ id }
{
    let mut at = id;
    for turn in 0..MAX_RESOLVE_DEPTH {
        if !is_modifier(types.kind_of(at)) {
            return Ok(at);
        }
        at = types.ref_of(at);
    }
    Err(Refusal::Unresolved)
}

// That there is no size, why, and the id where it showed.
fn no_size(why: Why, id: u32) -> Result<u32, Unsized>
    ensures { result ≡ Err (record { why = why; id = id }) }
{
    Err(Unsized { why, id })
}

// n times a size, met at an id.
fn product_of(id: u32, n: u32, size: u32) -> Result<u32, Unsized>
    ensures { result ≡ product id n size }
{
    let all = (n as u64) * (size as u64);
    if all < SIZE_LIMIT {
        Ok(all as u32)
    } else {
        no_size(Why::ProductTooBig, id)
    }
}

// How many elements count behind a type: an array's own, whatever counted before it.
fn elements_of(types: &Types, id: u32, kind: u32, n: u32) -> u32
    ensures { result ≡ cond (eqb kind ARRAY) ((lent types.now).typ id).extra n }
{
    if kind == BTF_KIND_ARRAY {
        types.extra_of(id)
    } else {
        n
    }
}

// How many bytes a type has; or why it has no size, and the id where that showed.
pub fn type_size(types: &Types, id: u32) -> Result<u32, Unsized>
    ensures { result ≡ size_of (lent types.now).typ id }
{
    let mut at = id;
    let mut n: u32 = 1;
    for turn in 0..MAX_RESOLVE_DEPTH {
        let kind = types.kind_of(at);
        if kind == BTF_KIND_PTR {
            return product_of(at, n, POINTER_SIZE);
        }
        if has_size(kind) {
            return product_of(at, n, types.size_of(at));
        }
        if !sized_by_ref(kind) {
            return no_size(Why::KindWithoutSize, at);
        }
        n = elements_of(types, at, kind, n);
        at = types.ref_of(at);
    }
    no_size(Why::ChainTooLong, at)
}

// Equal kinds; the two kinds of enum count as equal.
pub fn kinds_alike(a: u32, b: u32) -> bool
    ensures { result ≡ alike a b }
{
    a == b || (is_enum(a) && is_enum(b))
}

// Bits 16 to 23 of an INT's extra word.
fn int_offset(extra: u32) -> u32
    ensures { result ≡ extra / 2 ^ 16 % 2 ^ 8 }
{
    extra / 65536 % 256
}

// Two INTs: compatible where neither has an offset.
pub fn ints_agree(local: &Types, target: &Types, i: u32, j: u32) -> bool
    ensures { result ≡ ints_agree ((lent local.now).typ i) ((lent target.now).typ j) }
{
    int_offset(local.extra_of(i)) == 0 && int_offset(target.extra_of(j)) == 0
}
