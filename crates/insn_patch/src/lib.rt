// One instruction patched (document 01, section 7; RFC 9669), by its class. `patch` lends the instructions from the patched one
// onward; every function below it finds that one at the front, and its successor behind it. Total: any bytes and any index have
// an answer.
#![tactic(auto)]

ghost use Rattle.std.specs.Prelude.{◌≡◌, ◌≤◌, length};
ghost use Rattle.rules.specs.Apply as apply;
ghost use Rattle.insn_fields.specs.Patched.{patch_of};
ghost use Rattle.insn_patch.specs.Start.{start_of};

use insn_fields::{
    BPF_ALU, BPF_ALU64, BPF_LD, BPF_LDX, BPF_ST, BPF_STX, CODE, INSN_SIZE, REGISTERS, also_next,
    bad_instruction, poison, put_imm,
};
use insn_memory::patch_memory;
use rules::{Refusal, Resize, Write};
use word_read::u8_at;

// What the high half of a value counts.
const HALF: u64 = 4294967296;

// Why an instruction is invalid (refusal 12). Numbers, as document 01 returns them: `call_lines::refusal_number` and
// `leamugi_numbers::ending_numbers` answer for any reason, and an enum could not hold each.
const SOURCE_REGISTER: u32 = 1;

const CLASS_INVALID: u32 = 5;

fn low(value: u64) -> u32
    ensures { result ≡ apply.low value }
{
    (value % HALF) as u32
}

fn high(value: u64) -> u32
    ensures { result ≡ apply.high value }
{
    (value / HALF) as u32
}

// An immediate operand takes the low half.
#[tactic(auto, using(crate::proofs::Laws::register, crate::proofs::Laws::immediate))]
fn patch_alu(insns: &mut [u8], value: u64) -> Result<(), Refusal>
    ensures { patch_of result insns.new ≡ apply.patch_alu insns.old value }
{
    if u8_at(insns, REGISTERS) / 16 != 0 {
        return bad_instruction(SOURCE_REGISTER);
    }
    put_imm(insns, low(value));
    Ok(())
}

// A 64-bit immediate: the low half here, the high half in the successor.
#[tactic(auto, unfolding(rules::specs::Apply::patch_wide))]
fn patch_wide(insns: &mut [u8], index: u32, value: u64) -> Result<(), Refusal>
    ensures { patch_of result insns.new ≡ apply.patch_wide insns.old index value }
{
    put_imm(insns, low(value));
    also_next(insns, index, move |next| put_imm(next, high(value)))
}

// A value, by the instruction's class.
#[tactic(auto, using(crate::proofs::Laws::alu, crate::proofs::Laws::memory, crate::proofs::Laws::wide, crate::proofs::Laws::classless))]
fn patch_value(insns: &mut [u8], index: u32, value: u64, change: Resize) -> Result<(), Refusal>
    ensures { patch_of result insns.new ≡ apply.patch_class (apply.class (apply.code insns.old))
        insns.old index value change }
{
    match u8_at(insns, CODE) % 8 {
        BPF_ALU | BPF_ALU64 => patch_alu(insns, value),
        BPF_LDX | BPF_ST | BPF_STX => patch_memory(insns, value, change),
        BPF_LD => patch_wide(insns, index, value),
        _ => bad_instruction(CLASS_INVALID),
    }
}

#[tactic(auto, unfolding(rules::specs::Apply::patch_front))]
fn patch_front(insns: &mut [u8], index: u32, write: Write) -> Result<(), Refusal>
    ensures { patch_of result insns.new ≡ apply.patch_front insns.old index write }
{
    match write {
        Write::Poison => poison(insns, index),
        Write::Put(value, change) => patch_value(insns, index, value, change),
    }
}

// Where the instruction with an index begins; the end where there is none.
#[tactic(auto, using(crate::proofs::Laws::begins, crate::proofs::Laws::ends))]
fn start_of(insns: &[u8], index: u32) -> usize
    ensures { (result ≡ start_of (length insns.now) index) × (result ≤ length insns.now) }
{
    insns.len().min(INSN_SIZE * (index as usize))
}

// The patch of the instruction with an index. An index past the end has an answer too, and no byte changes.
#[tactic(auto, using(crate::proofs::Laws::patched))]
pub fn patch(insns: &mut [u8], index: u32, write: Write) -> Result<(), Refusal>
    ensures { patch_of result insns.new ≡ apply.patch insns.old index write }
{
    let at = start_of(insns, index);
    let (_, from) = insns.split_at_mut(at);
    patch_front(from, index, write)
}
