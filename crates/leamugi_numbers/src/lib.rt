// Answers as numbers, as the exported calls say them: what a reading said, and what stands at an id. And back: the BTF that the
// numbers of a reading stand for. Any bytes, any table, any numbers get an answer.
#![tactic(auto)]

ghost use Rattle.std.specs.Prelude.{◌≡◌, length, set, get_or};
ghost use Rattle.std.proofs.lemmas.List.Edits.{sets};
ghost use Rattle.btf_view.specs.Lent.{lent};
ghost use Rattle.leamugi_numbers.specs.Numbers.{numbered, five, btf_of, read_numbers, type_numbers, entry_numbers};
ghost use Rattle.rules.specs.Call.{named};
ghost use Rattle.leamugi_numbers.specs.Endings.{refusal_numbers, ending_numbers};

use btf_accept::{Btf, Place, Reading};
use btf_fields::{count_at, kind_at, name_at, ref_at, size_at};
use btf_view::Types;
use rules::{Ending, Refusal, Which};

// An answer's number and the five beside it.
#[derive(Clone, Copy)]
pub struct Numbers {
    pub number: u32,
    pub beside: [u64; 5],
}

// One number of what is said back, where there is room for it. Not by `get_mut`, whose contract says nothing of what the slice
// ends as.
fn put_number(said: &mut [u64], at: usize, n: u64)
    ensures { said.new ≡ set said.old at n }
{
    if at < said.len() {
        said[at] = n;
    }
}

// The five numbers, as far as there is room.
pub fn put_five(said: &mut [u64], n: Numbers)
    ensures { said.new ≡ sets said.old 0 (five n) }
{
    for (at, number) in n.beside.iter().enumerate() {
        put_number(said, at, *number);
    }
}

pub fn said_numbers(number: u32, a: u64, b: u64, c: u64, d: u64, e: u64) -> Numbers
    ensures { result ≡ numbered number a b c d e }
{
    Numbers {
        number,
        beside: [a, b, c, d, e],
    }
}

// What a reading says. A function and no `From`, as for a type, an entry and an ending, which need more than one value.
#[tactic(auto, unfolding(crate::specs::Numbers::read_numbers))]
pub fn reading_numbers(answer: Reading) -> Numbers
    ensures { result ≡ read_numbers answer }
{
    match answer {
        Reading::Read(btf) => {
            let t = btf.types;
            let z = btf.strings;
            said_numbers(
                0,
                t.start as u64,
                t.size as u64,
                z.start as u64,
                z.size as u64,
                btf.last as u64,
            )
        }
        Reading::NoBtf(id) => said_numbers(1, id as u64, 0, 0, 0, 0),
        Reading::TooBig => said_numbers(2, 0, 0, 0, 0, 0),
        Reading::TooShort(entries) => said_numbers(3, entries as u64, 0, 0, 0, 0),
    }
}

// A number of what was said, 0 where it is missing.
fn number_at(said: &[u64], at: usize) -> u64
    ensures { result ≡ get_or said.now at 0 }
{
    said.get(at).copied().unwrap_or(0)
}

// The BTF that the five numbers of a reading stand for.
#[tactic(auto, unfolding(crate::specs::Numbers::btf_of))]
pub fn btf_from(said: &[u64]) -> Btf
    ensures { result ≡ btf_of said.now }
{
    let last = number_at(said, 4);
    Btf {
        types: Place {
            start: number_at(said, 0) as usize,
            size: number_at(said, 1) as usize,
        },
        strings: Place {
            start: number_at(said, 2) as usize,
            size: number_at(said, 3) as usize,
        },
        last: (last % 4294967296) as u32,
    }
}

// How long the name at an offset of the strings is.
fn name_length(types: &Types, name: u32) -> u64
    ensures { result ≡ length ((lent types.now).text name) }
{
    types.text_of(name).len() as u64
}

// What stands at an id.
#[tactic(auto, unfolding(crate::specs::Numbers::type_numbers))]
pub fn type_numbers(types: &Types, id: u32) -> Numbers
    ensures { result ≡ type_numbers (lent types.now) id }
{
    // by its place, which is looked up once: by the methods of `Types` it took 1.3 times as long
    let at = types.place_of(id);
    let bytes = types.bytes;
    let kind = kind_at(bytes, at);
    let name = name_at(bytes, at);
    let long = name_length(types, name);
    let size = size_at(bytes, at);
    let referred = ref_at(bytes, at);
    let count = count_at(bytes, at);
    said_numbers(
        kind,
        name as u64,
        long,
        size as u64,
        referred as u64,
        count as u64,
    )
}

// The k-th entry of what stands at an id.
#[tactic(auto, unfolding(crate::specs::Numbers::entry_numbers))]
pub fn entry_numbers(types: &Types, id: u32, k: u32) -> Numbers
    ensures { result ≡ entry_numbers (lent types.now) id k }
{
    let entry = types.entry_of(id, k);
    let name = entry.name;
    let long = name_length(types, name);
    said_numbers(
        entry.typ,
        name as u64,
        long,
        entry.low as u64,
        entry.high as u64,
        0,
    )
}

// Why a record was refused, with what document 01 returns beside the number.
#[tactic(auto, unfolding(crate::specs::Endings::refusal_numbers, rules::specs::Refusal::returned))]
fn refusal_numbers(applied: u64, at: u64, why: Refusal) -> Numbers
    ensures { result ≡ refusal_numbers applied at why }
{
    match why {
        Refusal::KindTooBig(kind) => said_numbers(4, applied, kind as u64, 0, 0, 0),
        Refusal::NotInFunction => said_numbers(5, applied, at, 0, 0, 0),
        Refusal::NoSuccessor(index) => said_numbers(6, applied, index, 0, 0, 0),
        Refusal::BadAccess => said_numbers(7, applied, at, 0, 0, 0),
        Refusal::IndexTooBig(index, count) => said_numbers(8, applied, index, count as u64, 0, 0),
        Refusal::WrongKind => said_numbers(9, applied, at, 0, 0, 0),
        Refusal::Conflict(id, count) => said_numbers(10, applied, id as u64, count, 0, 0),
        Refusal::MaximumNesting(id) => said_numbers(11, applied, id as u64, 0, 0, 0),
        Refusal::BadInstruction(reason) => said_numbers(12, applied, reason as u64, 0, 0, 0),
        Refusal::NoMatch => said_numbers(13, applied, at, 0, 0, 0),
        Refusal::Unresolved => said_numbers(14, applied, at, 0, 0, 0),
        Refusal::TooManyParts => said_numbers(15, applied, at, 0, 0, 0),
        Refusal::BitsTooBig => said_numbers(16, applied, at, 0, 0, 0),
        Refusal::TooDeep => said_numbers(17, applied, at, 0, 0, 0),
    }
}

// No `From`: the number is the definition `named`'s, which a conversion would not name.
fn which_number(which: Which) -> u64
    ensures { result ≡ named which }
{
    match which {
        Which::Local => 0,
        Which::Target => 1,
    }
}

// How a call ended.
#[tactic(auto, unfolding(crate::specs::Endings::ending_numbers, crate::specs::Endings::refusal_numbers, rules::specs::Call::ending_said))]
pub fn ending_numbers(applied: u64, ending: Ending) -> Numbers
    ensures { result ≡ ending_numbers applied ending }
{
    match ending {
        Ending::Done => said_numbers(0, applied, 0, 0, 0, 0),
        Ending::BadBtf(which, id) => said_numbers(1, applied, which_number(which), id as u64, 0, 0),
        Ending::OverLimit(which) => said_numbers(2, applied, which_number(which), 0, 0, 0),
        Ending::TableShort(which, entries) => said_numbers(
            3,
            applied,
            which_number(which),
            entries as u64,
            0,
            0,
        ),
        Ending::Stopped(at, why) => refusal_numbers(applied, at, why),
        Ending::Misshapen => said_numbers(18, applied, 0, 0, 0, 0),
    }
}
