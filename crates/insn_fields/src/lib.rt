// One eBPF instruction (document 01, section 7; RFC 9669): eight bytes, code, destination (low) and source (high) register,
// off in two, imm in four. Here are its fields, a change of its successor, and poison. Every function finds the instruction at
// the front of the bytes that it is lent, and its successor behind it. Total: any bytes have an answer. A patch is done, or a
// refusal stopped it.
#![tactic(auto)]

ghost use Rattle.std.specs.Prelude.{◌≡◌, ℕ, List};
ghost use Rattle.rules.specs.Apply as apply;
ghost use Rattle.insn_fields.specs.Patched.{patch_of, no_successor, invalid, Changes};

use rules::Refusal;
use word_put::{put_i16, put_i32, put_u8, signed32};
use word_read::u8_at;

// How many bytes an instruction has, and where its fields begin.
pub const INSN_SIZE: usize = 8;

pub const CODE: usize = 0;

pub const REGISTERS: usize = 1;

pub const OFF: usize = 2;

const IMM: usize = 4;

// The classes of a code. No enum: the low three bits are matched as RFC 9669 numbers them, and to make an enum of them takes
// the same match once more.
pub const BPF_LD: u8 = 0;

pub const BPF_LDX: u8 = 1;

pub const BPF_ST: u8 = 2;

pub const BPF_STX: u8 = 3;

pub const BPF_ALU: u8 = 4;

const BPF_JMP: u8 = 5;

pub const BPF_ALU64: u8 = 7;

// The sizes of a load or store: four, two, one and eight bytes.
pub const BPF_W: u8 = 0x00;

pub const BPF_H: u8 = 0x08;

pub const BPF_B: u8 = 0x10;

pub const BPF_DW: u8 = 0x18;

// A 64-bit immediate over two instructions.
const BPF_LD_IMM64: u8 = BPF_LD + BPF_DW;

// Poison: a call of a helper that does not exist.
const BPF_CALL: u8 = 0x80;

const POISON_CODE: u8 = BPF_JMP + BPF_CALL;

const POISON_IMM: i32 = 0x0bad2310;

// Why an instruction is invalid (refusal 12).
pub fn bad_instruction(reason: u32) -> Result<(), Refusal>
    ensures { result ≡ invalid reason }
{
    Err(Refusal::BadInstruction(reason))
}

// A successor that is missing (refusal 6).
pub fn no_successor(index: u32) -> Result<(), Refusal>
    ensures { result ≡ no_successor index }
{
    Err(Refusal::NoSuccessor(index as u64 + 1))
}

#[tactic(auto, using(crate::proofs::Laws::sixteen))]
pub fn has_successor(insns: &[u8]) -> bool
    ensures { result ≡ apply.has_slot insns.now 1 }
{
    insns.len() >= 2 * INSN_SIZE
}

// imm, the signed number with these 32 bits.
#[tactic(auto, using(crate::proofs::Laws::signed), unfolding(rules::specs::Apply::with_imm))]
pub fn put_imm(insns: &mut [u8], bits: u32)
    ensures { insns.new ≡ apply.with_imm insns.old bits }
{
    put_i32(insns, IMM, signed32(bits));
}

#[tactic(auto, using(crate::proofs::Laws::poisons))]
fn poison_insn(insns: &mut [u8])
    ensures { insns.new ≡ apply.poisoned insns.old }
{
    put_u8(insns, CODE, POISON_CODE);
    put_u8(insns, REGISTERS, 0);
    put_i16(insns, OFF, 0);
    put_i32(insns, IMM, POISON_IMM);
}

// The successor changed too; refusal 6 where it is missing.
pub fn also_next<F: FnOnce(&mut [u8])>(
    insns: &mut [u8],
    index: u32,
    change: F,
) -> Result<(), Refusal>
    ghost to: { List ℕ → List ℕ }
    requires { Changes F.FnOnce change to }
    ensures { patch_of result insns.new ≡ apply.also_next to insns.old index }
{
    if !has_successor(insns) {
        return no_successor(index);
    }
    let (_, next) = insns.split_at_mut(INSN_SIZE);
    change(next);
    Ok(())
}

// No value. A 64-bit immediate takes its successor with it.
pub fn poison(insns: &mut [u8], index: u32) -> Result<(), Refusal>
    ensures { patch_of result insns.new ≡ apply.poison insns.old index }
{
    let code = u8_at(insns, CODE);
    poison_insn(insns);
    let alone = code != BPF_LD_IMM64;
    if alone {
        return Ok(());
    }
    also_next(insns, index, poison_insn)
}
