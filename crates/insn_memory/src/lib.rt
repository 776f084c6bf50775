// A load or store patched (document 01, section 7): its off, and the size that it gets. The instruction is at the front of the
// bytes that are lent. Total: any bytes, any value and any change of size have an answer.
#![tactic(auto)]

ghost use Rattle.std.specs.Prelude.{◌≡◌, ◌≤◌, IfSome};
ghost use Rattle.rules.specs.Apply as apply;
ghost use Rattle.insn_fields.specs.Patched.{patch_of};

use insn_fields::{BPF_B, BPF_DW, BPF_H, BPF_W, CODE, OFF, bad_instruction};
use rules::{Refusal, Resize};
use word_put::{put_i16, put_u8};
use word_read::u8_at;

// The greatest off.
const MAX_OFF: u64 = 32767;

// Why an instruction is invalid (refusal 12). Numbers, as document 01 returns them: `call_lines::refusal_number` and
// `leamugi_numbers::ending_numbers` answer for any reason, and an enum could not hold each.
const OFFSET_TOO_BIG: u32 = 2;

const TYPES_UNLIKE: u32 = 3;

const SIZE_INVALID: u32 = 4;

const TYPE_ONE_SIDED: u32 = 6;

// Other size bits; mode and class stay.
#[tactic(auto, unfolding(rules::specs::Apply::with_size, rules::specs::Apply::with_code, rules::specs::Apply::code))]
fn put_size_bits(insns: &mut [u8], bits: u8)
    requires { bits ≤ 24 }
    ensures { insns.new ≡ apply.with_size insns.old bits }
{
    let code = u8_at(insns, CODE);
    put_u8(insns, CODE, code / 32 * 32 + bits + code % 8);
}

// The bits of a size, where there are any.
#[tactic(auto, unfolding(rules::specs::Apply::size_bits))]
fn size_bits(size: u32) -> Option<u8>
    ensures bits { result ≡ apply.size_bits size }
    ensures in_place { IfSome result (λ b. b ≤ 24) }
{
    match size {
        1 => Some(BPF_B),
        2 => Some(BPF_H),
        4 => Some(BPF_W),
        8 => Some(BPF_DW),
        _ => None,
    }
}

// The size that a load or store gets.
fn put_size(insns: &mut [u8], size: u32) -> Result<(), Refusal>
    ensures { patch_of result insns.new ≡ apply.resized insns.old (apply.size_bits size) }
{
    let Some(bits) = size_bits(size) else {
        return bad_instruction(SIZE_INVALID);
    };
    put_size_bits(insns, bits);
    Ok(())
}

#[tactic(auto, unfolding(rules::specs::Apply::resize))]
fn resize(insns: &mut [u8], change: Resize) -> Result<(), Refusal>
    ensures { patch_of result insns.new ≡ apply.resize insns.old change }
{
    match change {
        Resize::Same => Ok(()),
        Resize::OneSided => bad_instruction(TYPE_ONE_SIDED),
        Resize::Unlike => bad_instruction(TYPES_UNLIKE),
        Resize::To(size) => put_size(insns, size),
    }
}

// A load or store: the offset is written before the size is looked at.
#[tactic(auto, using(crate::proofs::Laws::too_far, crate::proofs::Laws::near))]
pub fn patch_memory(insns: &mut [u8], value: u64, change: Resize) -> Result<(), Refusal>
    ensures { patch_of result insns.new ≡ apply.patch_memory insns.old value change }
{
    let too_big = value > MAX_OFF;
    if too_big {
        return bad_instruction(OFFSET_TOO_BIG);
    }
    put_i16(insns, OFF, value as i16);
    resize(insns, change)
}
