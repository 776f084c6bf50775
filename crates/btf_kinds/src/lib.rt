// What a kind's number says of a type.
#![tactic(auto)]

ghost use Rattle.std.specs.Prelude.{◌≡◌, get_or};
ghost use Rattle.btf_kinds.specs.Rows.{row_in};
ghost use Rattle.btf_kinds.specs.Kinds.{tail_of, encodes, has_size, has_type};

use word_read::ones_masked;

// The kinds of a type (kernel BTF document).
pub const BTF_KIND_UNKN: u32 = 0;

pub const BTF_KIND_INT: u32 = 1;

pub const BTF_KIND_PTR: u32 = 2;

pub const BTF_KIND_ARRAY: u32 = 3;

pub const BTF_KIND_STRUCT: u32 = 4;

pub const BTF_KIND_UNION: u32 = 5;

pub const BTF_KIND_ENUM: u32 = 6;

pub const BTF_KIND_FWD: u32 = 7;

pub const BTF_KIND_TYPEDEF: u32 = 8;

pub const BTF_KIND_VOLATILE: u32 = 9;

pub const BTF_KIND_CONST: u32 = 10;

pub const BTF_KIND_RESTRICT: u32 = 11;

pub const BTF_KIND_FUNC: u32 = 12;

pub const BTF_KIND_FUNC_PROTO: u32 = 13;

pub const BTF_KIND_VAR: u32 = 14;

pub const BTF_KIND_DATASEC: u32 = 15;

pub const BTF_KIND_FLOAT: u32 = 16;

pub const BTF_KIND_DECL_TAG: u32 = 17;

pub const BTF_KIND_TYPE_TAG: u32 = 18;

pub const BTF_KIND_ENUM64: u32 = 19;

// An INT's encoding bits in its extra word, at most one of which may be set, and the bit above them, which may not.
pub const BTF_INT_ENCODINGS: u32 = 0x0700_0000;

pub const BTF_INT_UNKNOWN: u32 = 0x0800_0000;

// The bytes behind a type's twelve: those that come once, and those of each entry.
#[derive(Clone, Copy)]
pub struct Tail {
    pub once: u32,
    pub each: u32,
}

#[derive(Clone, Copy)]
pub struct Entry {
    pub name: u32,
    pub typ: u32,
    pub low: u32,
    pub high: u32,
}

// The table, one row a kind from 0 to 19: the bytes that come once, and those of each entry.
pub const ONCE: [u32; 20] = [0, 4, 0, 12, 0, 0, 0, 0, 0, 0, 0, 0, 0, 0, 4, 0, 0, 4, 0, 0];

pub const EACH: [u32; 20] = [
    0, // void
    0, // INT
    0, // PTR
    0, // ARRAY
    12, // STRUCT
    12, // UNION
    8, // ENUM
    0, // FWD
    0, // TYPEDEF
    0, // VOLATILE
    0, // CONST
    0, // RESTRICT
    0, // FUNC
    8, // FUNC_PROTO
    0, // VAR
    12, // DATASEC
    0, // FLOAT
    0, // DECL_TAG
    0, // TYPE_TAG
    12, // ENUM64
];

// A row of a column, 0 past its end.
fn cell(column: &[u32], row: usize) -> u32
    ensures { result ≡ get_or column.now row 0 }
{
    if row < column.len() { column[row] } else { 0 }
}

// The row of a kind, in the table's two columns as they are lent: the language lays a constant array out anew wherever it is
// named, so a pass over many types names it once. A number that is no kind has kind 0's row: nothing. So the row is chosen,
// and the way never parts.
pub fn tail_in(once: &[u32], each: &[u32], kind: u32) -> Tail
    ensures { result ≡ row_in once.now each.now kind }
{
    let row = if kind < 20 { kind as usize } else { 0 };
    Tail {
        once: cell(once, row),
        each: cell(each, row),
    }
}

pub fn tail_of(kind: u32) -> Tail
    ensures { result ≡ tail_of kind }
{
    let once = ONCE;
    let each = EACH;
    tail_in(&once, &each, kind)
}

// The rule case by case, as the kernel's BTF document tells it: the plain form that the table equals. No code calls it.
#[tactic(auto, using(std::proofs::lemmas::Bool::Decides::nat_tests), unfolding(crate::specs::Kinds::extra_bytes, crate::specs::Kinds::entry_bytes))]
pub fn tail_by_cases(kind: u32) -> Tail
    ensures { result ≡ tail_of kind }
{
    match kind {
        BTF_KIND_INT | BTF_KIND_VAR | BTF_KIND_DECL_TAG => Tail { once: 4, each: 0 },
        BTF_KIND_ARRAY => Tail { once: 12, each: 0 },
        BTF_KIND_STRUCT | BTF_KIND_UNION | BTF_KIND_DATASEC | BTF_KIND_ENUM64 => Tail {
            once: 0,
            each: 12,
        },
        BTF_KIND_ENUM | BTF_KIND_FUNC_PROTO => Tail { once: 0, each: 8 },
        BTF_KIND_FWD..=BTF_KIND_FUNC => Tail { once: 0, each: 0 },
        _ => Tail { once: 0, each: 0 },
    }
}

// Whether an INT's extra word has at most one encoding bit.
pub fn encoding_fine(x: u32) -> bool
    ensures { result ≡ encodes x }
{
    let at_most_one = ones_masked(x, BTF_INT_ENCODINGS) <= 1;
    if at_most_one {
        x & BTF_INT_UNKNOWN == 0
    } else {
        false
    }
}

// Whether a kind's third word is a size.
#[tactic(auto, using(std::proofs::lemmas::Bool::Decides::nat_tests), unfolding(crate::specs::Kinds::has_size))]
pub fn has_size(kind: u32) -> bool
    ensures { result ≡ has_size kind }
{
    match kind {
        BTF_KIND_INT
        | BTF_KIND_STRUCT..=BTF_KIND_ENUM
        | BTF_KIND_DATASEC
        | BTF_KIND_FLOAT
        | BTF_KIND_ENUM64 => true,
        _ => false,
    }
}

// Whether a kind's third word is a type's id.
#[tactic(auto, using(std::proofs::lemmas::Bool::Decides::nat_tests), unfolding(crate::specs::Kinds::has_type))]
pub fn has_type(kind: u32) -> bool
    ensures { result ≡ has_type kind }
{
    match kind {
        BTF_KIND_PTR | BTF_KIND_TYPEDEF..=BTF_KIND_VAR | BTF_KIND_DECL_TAG | BTF_KIND_TYPE_TAG =>
            true,
        _ => false,
    }
}
