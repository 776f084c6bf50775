// Bit offsets: sums and products that stay below 2^32.
#![tactic(auto)]

ghost use Rattle.std.specs.Prelude.{◌≡◌, ◌+◌, ◌*◌};
ghost use Rattle.rules.specs.Refusal.{bit_offset};
ghost use Rattle.rules.specs.Access.{local_first_bits};

use rules::Refusal;

// The greatest bit offset.
const GREATEST: u64 = 4294967295;

pub fn bits_sum(a: u64, b: u64) -> Result<u64, Refusal>
    ensures { result ≡ bit_offset (a + b) }
{
    a.checked_add(b)
        .filter(|bits| *bits <= GREATEST)
        .ok_or(Refusal::BitsTooBig)
}

fn bits_product(a: u64, b: u64) -> Result<u64, Refusal>
    ensures { result ≡ bit_offset (a * b) }
{
    a.checked_mul(b)
        .filter(|bits| *bits <= GREATEST)
        .ok_or(Refusal::BitsTooBig)
}

// Where the element `index` of `size` bytes begins.
pub fn element_bits(index: u64, size: u32) -> Result<u64, Refusal>
    ensures { result ≡ bit_offset (index * size * 8) }
{
    bits_product(index, 8 * (size as u64))
}

// FIRST ODDITY: the local walk's first index counts the type's bytes, though the sum is of bits.
#[tactic(auto, unfolding(rules::specs::Access::local_first_bits))]
pub fn local_first_bits(size: u32, index: u64) -> Result<u64, Refusal>
    ensures { result ≡ bit_offset (local_first_bits size index) }
{
    bits_product(index, size as u64)
}
