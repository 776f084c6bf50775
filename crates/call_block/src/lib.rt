// The block of a case after its report: the outcome, the instructions left, `end`.
#![tactic(auto)]

ghost use Rattle.std.specs.Prelude.{◌≡◌, [], ◌∷◌, ◌++◌};
ghost use Rattle.rules.specs.Report.{in_decimal};
ghost use Rattle.call_lines.specs.Pieces.{Wrote};
ghost use Rattle.call_block.specs.Block.{ending_number, which_shown, refusal_shown, ending_shown, outcome_line, hex_digit, hex, tail};

use call_lines::{near, put_byte, put_decimal, put_piece, refusal_number};
use rules::{Ending, Refusal, Said, Which};
use word_read::u8_at;

// Document 01's number of an ending.
#[tactic(auto, unfolding(rules::specs::Call::ending_said))]
fn ending_number(ending: Ending) -> u32
    ensures { result ≡ ending_number ending }
{
    match ending {
        Ending::Done => 0,
        Ending::BadBtf(_, _) => 1,
        Ending::OverLimit(_) => 2,
        Ending::TableShort(_, _) => 3,
        Ending::Stopped(_, refusal) => refusal_number(refusal),
        Ending::Misshapen => 18,
    }
}

// A number under a name.
fn put_field(out: &mut [u8], at: u64, name: &[u8], n: u64) -> u64
    ensures { Wrote out.old at (name.now ++ in_decimal n) out.new result }
{
    let number_at = put_piece(out, at, name);
    put_decimal(out, number_at, n)
}

#[tactic(auto, unfolding(crate::specs::Block::which_shown))]
fn put_which(out: &mut [u8], at: u64, which: Which) -> u64
    ensures { Wrote out.old at (which_shown which) out.new result }
{
    match which {
        Which::Local => put_piece(out, at, b" btf=local"),
        Which::Target => put_piece(out, at, b" btf=target"),
    }
}

// What a refusal of the record with this number returns.
#[tactic(auto, unfolding(crate::specs::Block::refusal_shown))]
fn put_refusal(out: &mut [u8], at: u64, number: u64, refusal: Refusal) -> u64
    ensures { Wrote out.old at (refusal_shown number refusal) out.new result }
{
    match refusal {
        Refusal::KindTooBig(kind) => put_field(out, at, b" kind=", kind as u64),
        Refusal::NoSuccessor(index) => put_field(out, at, b" index=", index),
        Refusal::IndexTooBig(index, count) => {
            let count_at = put_field(out, at, b" index=", index);
            put_field(out, count_at, b" count=", count as u64)
        }
        Refusal::Conflict(id, count) => {
            let count_at = put_field(out, at, b" id=", id as u64);
            put_field(out, count_at, b" count=", count)
        }
        Refusal::MaximumNesting(id) => put_field(out, at, b" id=", id as u64),
        Refusal::BadInstruction(reason) => put_field(out, at, b" reason=", reason as u64),
        _ => put_field(out, at, b" record=", number),
    }
}

// What an ending returns.
#[tactic(auto, unfolding(crate::specs::Block::ending_shown))]
fn put_ending(out: &mut [u8], at: u64, ending: Ending) -> u64
    ensures { Wrote out.old at (ending_shown ending) out.new result }
{
    match ending {
        Ending::BadBtf(which, id) => {
            let id_at = put_which(out, at, which);
            put_field(out, id_at, b" id=", id as u64)
        }
        Ending::OverLimit(which) => put_which(out, at, which),
        Ending::TableShort(which, entries) => {
            let entries_at = put_which(out, at, which);
            put_field(out, entries_at, b" entries=", entries as u64)
        }
        Ending::Stopped(number, refusal) => put_refusal(out, at, number, refusal),
        _ => near(at),
    }
}

// The line of the outcome.
fn put_outcome(out: &mut [u8], at: u64, said: Said) -> u64
    ensures { Wrote out.old at (outcome_line said) out.new result }
{
    let ending = said.ending;
    let shown_at = put_field(out, at, b"outcome=", ending_number(ending) as u64);
    let applied_at = put_ending(out, shown_at, ending);
    let end_at = put_field(out, applied_at, b" applied=", said.applied);
    put_byte(out, end_at, 10)
}

fn hex_digit(d: u8) -> u8
    ensures { result ≡ hex_digit d }
{
    u8_at(b"0123456789abcdef", d as usize)
}

#[tactic(auto, unfolding(crate::specs::Block::hex))]
fn put_hex_byte(out: &mut [u8], at: u64, byte: u8) -> u64
    ensures { Wrote out.old at (hex (byte ∷ [])) out.new result }
{
    put_piece(out, at, &[hex_digit(byte / 16), hex_digit(byte % 16)])
}

// Bytes in hexadecimal. Not by the kit's `hex`, which writes all or nothing: here what fits is written.
fn put_hex(out: &mut [u8], at: u64, bytes: &[u8]) -> u64
    ensures { Wrote out.old at (hex bytes.now) out.new result }
{
    let mut next = near(at);
    for byte in bytes {
        next = put_hex_byte(out, next, *byte);
    }
    next
}

// The block after its report.
pub fn put_tail(out: &mut [u8], at: u64, said: Said, insns: &[u8]) -> u64
    ensures { Wrote out.old at (tail said insns.now) out.new result }
{
    let insns_at = put_outcome(out, at, said);
    let hex_at = put_piece(out, insns_at, b"insns=");
    let end_at = put_hex(out, hex_at, insns);
    put_piece(out, end_at, b"\nend\n")
}
