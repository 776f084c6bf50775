// How a field is loaded: from which bytes, so many bits of them, and whether they have a sign. Any bytes, any table and any bit
// offset get an answer.
#![tactic(auto)]

ghost use Rattle.std.specs.Prelude.{◌≡◌, ◌<◌, Some};
ghost use Rattle.btf_view.specs.Lent.{lent};
ghost use Rattle.rules.specs.Types.{own_size};
ghost use Rattle.rules.specs.Value.{bitfield, signedness, plain_load};
ghost use Rattle.value_load.specs.Aligned.{Aligned};

use btf_kinds::{BTF_KIND_INT, BTF_KIND_PTR, has_size};
use btf_view::Types;
use rules::{Load, Refusal};
use types_chain::{POINTER_SIZE, is_enum};

// The bit of an INT's encoding word that says signed.
const INT_SIGNED: u32 = 16777216;

// The most bytes that are tried for a bitfield, and how often: 1, 2, 4 and 8.
const WIDEST: u64 = 8;

const TRIES: u32 = 4;

// Where the `size` bytes that hold a bit begin, on a multiple of `size`.
fn aligned_to(bits: u64, size: u64) -> u64
    requires { 0 < size }
    ensures { Aligned bits size result }
{
    bits / 8 / size * size
}

// The smallest of `size`, twice that, .. bytes that hold a bitfield.
fn bitfield_load(bits: u64, width: u32, size: u32) -> Result<Load, Refusal>
    ensures { result ≡ bitfield bits width (Some size) }
{
    if size == 0 {
        return Err(Refusal::Unresolved);
    }
    let wide = width as u64;
    let mut s = size as u64;
    for turn in 0..TRIES {
        let offset = aligned_to(bits, s);
        if bits - 8 * offset + wide <= 8 * s {
            return Ok(Load {
                offset,
                size: s,
                width: wide,
            });
        }
        if s >= WIDEST {
            return Err(Refusal::Unresolved);
        }
        s = 2 * s;
    }
    Err(Refusal::Unresolved)
}

// A bitfield of a type begins with the type's own size.
pub fn bitfield_of(types: &Types, id: u32, bits: u64, width: u32) -> Result<Load, Refusal>
    ensures { result ≡ bitfield bits width (own_size ((lent types.now).typ id)) }
{
    let kind = types.kind_of(id);
    if kind == BTF_KIND_PTR {
        return bitfield_load(bits, width, POINTER_SIZE);
    }
    if has_size(kind) {
        return bitfield_load(bits, width, types.size_of(id));
    }
    Err(Refusal::Unresolved)
}

// 1 for a signed INT or enum.
#[tactic(auto, unfolding(rules::specs::Value::signedness))]
pub fn signedness_of(types: &Types, id: u32) -> u64
    ensures { result ≡ signedness ((lent types.now).typ id) }
{
    let kind = types.kind_of(id);
    if kind == BTF_KIND_INT {
        (types.extra_of(id) / INT_SIGNED % 2) as u64
    } else if is_enum(kind) && types.flag_of(id) == 1 {
        1
    } else {
        0
    }
}

// How a plain field of `size` bytes is loaded.
pub fn plain_load(bits: u64, size: u32) -> Load
    ensures { result ≡ plain_load bits size }
{
    let s = size as u64;
    Load {
        offset: bits / 8,
        size: s,
        width: 8 * s,
    }
}
