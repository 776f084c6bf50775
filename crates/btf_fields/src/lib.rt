// The type that stands at a place of some bytes, field by field, and an entry of it.
#![tactic(auto)]

ghost use Rattle.std.specs.Prelude.{◌≡◌, ◌+◌, ◌<◌};
ghost use Rattle.word_read.specs.Num.{word};
ghost use Rattle.btf_kinds.specs.Kinds.{entry};
ghost use Rattle.btf_kinds.specs.Types.{type_at, extra_at, entry_at, count_at};

use btf_kinds::{
    BTF_KIND_ARRAY, BTF_KIND_DATASEC, BTF_KIND_ENUM, BTF_KIND_ENUM64, BTF_KIND_FUNC_PROTO,
    BTF_KIND_STRUCT, BTF_KIND_UNION, Entry, has_size, has_type, tail_of,
};
use word_read::u32_at;

// A word of the type at a place, `by` bytes behind its start.
fn word_at(bytes: &[u8], at: usize, by: u32) -> u32
    ensures { result ≡ word bytes.now (at + by) }
{
    if at < bytes.len() {
        u32_at(bytes, at + by as usize)
    } else {
        0
    }
}

pub fn kind_at(bytes: &[u8], at: usize) -> u32
    ensures { result ≡ (type_at bytes.now at).kind }
{
    word_at(bytes, at, 4) / 16777216 % 32
}

pub fn name_at(bytes: &[u8], at: usize) -> u32
    ensures { result ≡ (type_at bytes.now at).name }
{
    u32_at(bytes, at)
}

fn vlen_at(bytes: &[u8], at: usize) -> u32
    ensures { result ≡ (type_at bytes.now at).vlen }
{
    word_at(bytes, at, 4) % 65536
}

pub fn flag_at(bytes: &[u8], at: usize) -> u32
    ensures { result ≡ (type_at bytes.now at).flag }
{
    word_at(bytes, at, 4) / 2147483648 % 2
}

// The i-th word behind a type's twelve bytes, 0 where its kind has none.
fn extra_word(bytes: &[u8], at: usize, kind: u32, i: u32) -> u32
    requires { i < 3 }
    ensures { result ≡ extra_at i kind bytes.now at }
{
    let tail = tail_of(kind);
    let have = tail.once;
    if 4 * i + 4 <= have {
        word_at(bytes, at, 12 + 4 * i)
    } else {
        0
    }
}

pub fn size_at(bytes: &[u8], at: usize) -> u32
    ensures { result ≡ (type_at bytes.now at).size }
{
    if has_size(kind_at(bytes, at)) {
        word_at(bytes, at, 8)
    } else {
        0
    }
}

// Inlined, so that who asks for a type's size too looks at its kind once (`type_numbers` of `leamugi_numbers`).
#[inline(always)]
pub fn ref_at(bytes: &[u8], at: usize) -> u32
    ensures { result ≡ (type_at bytes.now at).ref }
{
    let kind = kind_at(bytes, at);
    if has_type(kind) {
        return word_at(bytes, at, 8);
    }
    if kind == BTF_KIND_ARRAY {
        extra_word(bytes, at, kind, 0)
    } else {
        0
    }
}

pub fn extra_at(bytes: &[u8], at: usize) -> u32
    ensures { result ≡ (type_at bytes.now at).extra }
{
    let kind = kind_at(bytes, at);
    if kind == BTF_KIND_ARRAY {
        extra_word(bytes, at, kind, 2)
    } else {
        extra_word(bytes, at, kind, 0)
    }
}

// How many entries the type at a place has.
pub fn count_at(bytes: &[u8], at: usize) -> u32
    ensures { result ≡ count_at bytes.now at }
{
    let tail = tail_of(kind_at(bytes, at));
    let entry = tail.each;
    let bare = entry == 0;
    if bare { 0 } else { vlen_at(bytes, at) }
}

fn made(name: u32, typ: u32, low: u32, high: u32) -> Entry
    ensures { result ≡ entry name typ low high }
{
    Entry {
        name: name,
        typ: typ,
        low: low,
        high: high,
    }
}

// The entry of a kind that begins at a place.
pub fn entry_at(bytes: &[u8], at: usize, kind: u32) -> Entry
    ensures { result ≡ entry_at kind bytes.now at }
{
    let a = u32_at(bytes, at);
    let b = word_at(bytes, at, 4);
    let c = word_at(bytes, at, 8);
    match kind {
        BTF_KIND_STRUCT | BTF_KIND_UNION => made(a, b, c, 0),
        BTF_KIND_ENUM => made(a, 0, b, 0),
        BTF_KIND_FUNC_PROTO => made(a, b, 0, 0),
        BTF_KIND_DATASEC => made(0, a, b, c),
        BTF_KIND_ENUM64 => made(a, 0, b, c),
        _ => Entry {
            name: 0,
            typ: 0,
            low: 0,
            high: 0,
        },
    }
}
