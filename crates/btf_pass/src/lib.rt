// One type of a types section passed in one go: where the next begins, and how far its names and type ids reach. This is the
// hottest code of reading: each word is one load, a kind is looked at once, and a list of names and types is read four entries a
// turn.
#![tactic(auto)]

ghost use Rattle.std.specs.Prelude.{◌≡◌, ◌+◌, ◌*◌, ◌≤◌, ◌<◌, length};
ghost use Rattle.word_read.specs.Num.{word};
ghost use Rattle.btf_kinds.specs.Types.{type_at};
ghost use Rattle.btf_pass.specs.Reach.{larger, lesser, topmost, four_of};
ghost use Rattle.btf_pass.specs.Shape.{Seen, Listed, Column, up_to, past_pairs, past_names, past_variables, past_int, past_array, step_at};

use btf_kinds::{
    BTF_KIND_ARRAY, BTF_KIND_DECL_TAG, BTF_KIND_ENUM, BTF_KIND_ENUM64, BTF_KIND_FLOAT,
    BTF_KIND_FUNC_PROTO, BTF_KIND_FWD, BTF_KIND_INT, BTF_KIND_PTR, BTF_KIND_STRUCT,
    BTF_KIND_TYPE_TAG, BTF_KIND_TYPEDEF, BTF_KIND_VAR, encoding_fine,
};

// A type's bytes before what its kind adds.
const BTF_TYPE_BYTES: usize = 12;

// One type passed: where the next begins, the highest name offset and the highest type id.
#[derive(Clone, Copy)]
pub enum Passing {
    Next(usize, u32, u32),
    Off,
}

fn wide(x: u8) -> u32
    ensures { (result ≡ x) × (result < 256) }
{
    x as u32
}

// Four bytes that are all there: one load, no test. A type is read through this alone.
fn u32_in(bytes: &[u8], at: usize) -> u32
    requires { at + 4 ≤ length bytes.now }
    ensures { result ≡ word bytes.now at }
{
    wide(bytes[at])
        + 256 * wide(bytes[at + 1])
        + 65536 * wide(bytes[at + 2])
        + 16777216 * wide(bytes[at + 3])
}

fn kind_in(types: &[u8], at: usize) -> u32
    requires { at + 8 ≤ length types.now }
    ensures { result ≡ (type_at types.now at).kind }
{
    u32_in(types, at + 4) / 16777216 % 32
}

fn vlen_in(types: &[u8], at: usize) -> u32
    requires { at + 8 ≤ length types.now }
    ensures { result ≡ (type_at types.now at).vlen }
{
    u32_in(types, at + 4) % 65536
}

pub fn larger_of(a: u32, b: u32) -> u32
    ensures { result ≡ larger a b }
{
    if a < b { b } else { a }
}

// The largest of `count` words, one every `step` bytes from `from` on.
fn highest(types: &[u8], from: usize, step: u32, count: u32) -> u32
    requires { (4 ≤ step) × (from + step * count + 4 ≤ length types.now + step) }
    ensures { result ≡ topmost types.now step from count }
{
    let mut at = from;
    let mut left = count;
    let mut high: u32 = 0;
    while left > 0 {
        high = larger_of(high, u32_in(types, at));
        at += step as usize;
        left -= 1;
    }
    high
}

fn lesser_of(a: u32, b: u32) -> u32
    ensures { result ≡ lesser a b }
{
    if a < b { a } else { b }
}

// The word of the i-th entry; past the last entry, of the last.
fn entry_word(types: &[u8], from: usize, step: u32, i: u32, last: u32) -> u32
    requires { Column types.now from step last }
    ensures { result ≡ word types.now (from + step * lesser i last) }
{
    u32_in(types, from + (step * lesser_of(i, last)) as usize)
}

// The largest of four words from the i-th entry on and of one more: a list of a few entries is one turn, which a processor foresees.
fn four(types: &[u8], from: usize, step: u32, i: u32, last: u32, high: u32) -> u32
    requires { Column types.now from step last × (i ≤ last) }
    ensures { result ≡ four_of types.now step from i last high }
{
    let a = larger_of(
        entry_word(types, from, step, i, last),
        entry_word(types, from, step, i + 1, last),
    );
    let b = larger_of(
        entry_word(types, from, step, i + 2, last),
        entry_word(types, from, step, i + 3, last),
    );
    larger_of(high, larger_of(a, b))
}

// A list whose entries have a name and a type: both columns in one loop. Where the next type begins does not wait for it.
fn past_pairs(types: &[u8], from: usize, step: u32, count: u32, name: u32, typ: u32) -> Passing
    requires { Listed types.now from step count }
    ensures { result ≡ past_pairs types.now from step count name typ }
{
    let size = (step * count) as usize;
    if types.len() - from < size {
        return Passing::Off;
    }
    let mut i: u32 = 0;
    let mut far: u32 = 0;
    let mut top: u32 = 0;
    while i < count {
        far = four(types, from, step, i, count - 1, far);
        top = four(types, from + 4, step, i, count - 1, top);
        i += 4;
    }
    Passing::Next(from + size, larger_of(name, far), larger_of(typ, top))
}

// A list whose entries have a name alone.
fn past_names(types: &[u8], from: usize, step: u32, count: u32, name: u32) -> Passing
    requires { Listed types.now from step count }
    ensures { result ≡ past_names types.now from step count name }
{
    let size = (step * count) as usize;
    if types.len() - from < size {
        return Passing::Off;
    }
    Passing::Next(
        from + size,
        larger_of(name, highest(types, from, step, count)),
        0,
    )
}

// A DATASEC's list: a type each.
fn past_variables(types: &[u8], from: usize, count: u32, name: u32) -> Passing
    requires { Listed types.now from 12 count }
    ensures { result ≡ past_variables types.now from count name }
{
    let size = (12 * count) as usize;
    if types.len() - from < size {
        return Passing::Off;
    }
    Passing::Next(from + size, name, highest(types, from, 12, count))
}

// The word behind an INT, which has at most one encoding bit.
fn past_int(types: &[u8], from: usize, name: u32) -> Passing
    requires { from ≤ length types.now }
    ensures { result ≡ past_int types.now from name }
{
    if types.len() - from < 4 {
        return Passing::Off;
    }
    if encoding_fine(u32_in(types, from)) {
        Passing::Next(from + 4, name, 0)
    } else {
        Passing::Off
    }
}

// The word behind a VAR or a DECL_TAG: a linkage or a component.
fn past_word(types: &[u8], from: usize, name: u32, typ: u32) -> Passing
    requires { from ≤ length types.now }
    ensures { result ≡ up_to types.now (from + 4) name typ }
{
    if types.len() - from < 4 {
        return Passing::Off;
    }
    Passing::Next(from + 4, name, typ)
}

// An array's words: its element, its index and its length.
fn past_array(types: &[u8], from: usize, name: u32) -> Passing
    requires { from ≤ length types.now }
    ensures { result ≡ past_array types.now from name }
{
    if types.len() - from < 12 {
        return Passing::Off;
    }
    Passing::Next(
        from + 12,
        name,
        larger_of(u32_in(types, from), u32_in(types, from + 4)),
    )
}

// The kinds before TYPEDEF.
fn pass_low(types: &[u8], at: usize, kind: u32, count: u32, name: u32, typ: u32) -> Passing
    requires { Seen types.now at kind count name typ × (kind < 8) }
    ensures { result ≡ step_at types.now at }
{
    let from = at + 12;
    if kind < BTF_KIND_STRUCT {
        match kind {
            BTF_KIND_PTR => Passing::Next(from, name, typ),
            BTF_KIND_INT => past_int(types, from, name),
            BTF_KIND_ARRAY => past_array(types, from, name),
            _ => Passing::Off,
        }
    } else if kind < BTF_KIND_ENUM {
        past_pairs(types, from, 12, count, name, 0)
    } else if kind < BTF_KIND_FWD {
        past_names(types, from, 8, count, name)
    } else {
        Passing::Next(from, name, 0)
    }
}

// The kinds from FUNC_PROTO on.
fn pass_high(types: &[u8], at: usize, kind: u32, count: u32, name: u32, typ: u32) -> Passing
    requires { Seen types.now at kind count name typ × (13 ≤ kind) }
    ensures { result ≡ step_at types.now at }
{
    let from = at + 12;
    if kind < BTF_KIND_FLOAT {
        match kind {
            BTF_KIND_FUNC_PROTO => past_pairs(types, from, 8, count, name, typ),
            BTF_KIND_VAR => past_word(types, from, name, typ),
            _ => past_variables(types, from, count, name),
        }
    } else {
        match kind {
            BTF_KIND_FLOAT => Passing::Next(from, name, 0),
            BTF_KIND_DECL_TAG => past_word(types, from, name, typ),
            BTF_KIND_TYPE_TAG => Passing::Next(from, name, typ),
            BTF_KIND_ENUM64 => past_names(types, from, 12, count, name),
            _ => Passing::Off,
        }
    }
}

// The type at a place: where the next begins and how far it reaches. Its kind is compared with the bounds of a few ranges, and not
// looked up: a jump by a table is foreseen badly (docs/PERFORMANCE.md).
pub fn pass(types: &[u8], at: usize) -> Passing
    ensures { result ≡ step_at types.now at }
{
    if types.len() < at {
        return Passing::Off;
    }
    if types.len() - at < BTF_TYPE_BYTES {
        return Passing::Off;
    }
    let name = u32_in(types, at);
    let typ = u32_in(types, at + 8);
    let count = vlen_in(types, at);
    let kind = kind_in(types, at);
    let bare = kind < BTF_KIND_FUNC_PROTO;
    if kind < BTF_KIND_TYPEDEF {
        pass_low(types, at, kind, count, name, typ)
    } else if bare {
        Passing::Next(at + 12, name, typ)
    } else {
        pass_high(types, at, kind, count, name, typ)
    }
}
