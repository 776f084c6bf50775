// Section 9's report, piece by piece into a lent buffer. Every writer answers for any place: it writes what fits and returns
// the next place, so over an empty buffer it counts. No `Display` and no `write!`: they write to an `impl fmt::Write`, here a
// struct that holds buffer and place, and each contract of one that holds a `&mut` says besides that it still holds the same.
#![tactic(auto)]

ghost use Rattle.std.specs.Prelude.{◌≡◌, [], ◌∷◌, ◌++◌, ◌+◌, min};
ghost use Rattle.rules.specs.Refusal.{number};
ghost use Rattle.rules.specs.Ascii.{ascii};
ghost use Rattle.rules.specs.Report.{in_decimal, line, number_of, insn_shown, value_shown, lines};
ghost use Rattle.call_lines.specs.Pieces.{far, Wrote};

use itoa::Buffer;
use rules::{Answer, Refusal};
use word_put::put_u8;

// No buffer reaches this place, and a count stays there.
const FAR: u64 = 9223372036854775808;

// A place where a count may stay.
pub fn near(at: u64) -> u64
    ensures { result ≡ min at far }
{
    at.min(FAR)
}

pub fn put_byte(out: &mut [u8], at: u64, byte: u8) -> u64
    ensures { Wrote out.old at (byte ∷ []) out.new result }
{
    put_u8(out, at as usize, byte);
    near(at.saturating_add(1))
}

pub fn put_piece(out: &mut [u8], at: u64, piece: &[u8]) -> u64
    ensures { Wrote out.old at piece.now out.new result }
{
    let mut next = near(at);
    for byte in piece {
        next = put_byte(out, next, *byte);
    }
    next
}

// A number in decimal.
#[tactic(auto, using(crate::proofs::Decimal::same))]
pub fn put_decimal(out: &mut [u8], at: u64, n: u64) -> u64
    ensures { Wrote out.old at (in_decimal n) out.new result }
{
    put_piece(out, at, Buffer::new().format(n).as_bytes())
}

// A line that shows a number.
fn put_line(out: &mut [u8], at: u64, key: &[u8], n: u64) -> u64
    ensures { Wrote out.old at (key.now ++ in_decimal n ++ ascii "\n") out.new result }
{
    let shown = put_piece(out, at, key);
    let end = put_decimal(out, shown, n);
    put_byte(out, end, 10)
}

// Document 01's number of a refusal.
pub fn refusal_number(refusal: Refusal) -> u32
    ensures { result ≡ number refusal }
{
    match refusal {
        Refusal::KindTooBig(_) => 4,
        Refusal::NotInFunction => 5,
        Refusal::NoSuccessor(_) => 6,
        Refusal::BadAccess => 7,
        Refusal::IndexTooBig(_, _) => 8,
        Refusal::WrongKind => 9,
        Refusal::Conflict(_, _) => 10,
        Refusal::MaximumNesting(_) => 11,
        Refusal::BadInstruction(_) => 12,
        Refusal::NoMatch => 13,
        Refusal::Unresolved => 14,
        Refusal::TooManyParts => 15,
        Refusal::BitsTooBig => 16,
        Refusal::TooDeep => 17,
    }
}

// Document 01's number of an answer.
fn answer_number(answer: Answer) -> u32
    ensures { result ≡ number_of answer }
{
    match answer {
        Answer::Applied(_) | Answer::Poisoned => 0,
        Answer::Refused(refusal) => refusal_number(refusal),
    }
}

// Refusals 4 and 5 show no instruction.
#[tactic(auto, using(crate::proofs::Laws::called), unfolding(rules::specs::Report::insn_shown))]
fn put_insn(out: &mut [u8], at: u64, index: u64, answer: Answer) -> u64
    ensures { Wrote out.old at (line "insn=" (insn_shown index answer)) out.new result }
{
    match answer {
        Answer::Refused(Refusal::KindTooBig(_) | Refusal::NotInFunction) => {
            put_piece(out, at, b"insn=none\n")
        }
        _ => put_line(out, at, b"insn=", index),
    }
}

// Poison and refusal show `poison` and `none`.
#[tactic(auto, unfolding(rules::specs::Report::value_shown))]
fn put_value(out: &mut [u8], at: u64, answer: Answer) -> u64
    ensures { Wrote out.old at (line "value=" (value_shown answer)) out.new result }
{
    match answer {
        Answer::Applied(value) => put_line(out, at, b"value=", value),
        Answer::Poisoned => put_piece(out, at, b"value=poison\n"),
        Answer::Refused(_) => put_piece(out, at, b"value=none\n"),
    }
}

// The four lines of a record.
pub fn put_record(out: &mut [u8], at: u64, number: u64, index: u64, answer: Answer) -> u64
    ensures { Wrote out.old at (lines number index answer) out.new result }
{
    let answer_at = put_line(out, at, b"record=", number);
    let insn_at = put_line(out, answer_at, b"answer=", answer_number(answer) as u64);
    let value_at = put_insn(out, insn_at, index, answer);
    put_value(out, value_at, answer)
}
