// What `read` answers to built-in bytes, a line a case: a BTF with one type of each kind, and edits of it on both sides of
// each rule of document 01, sections 3 and 4. A line has what was edited, the number put there, and the answer's number and
// value.
#![tactic(auto)]

use crate::Put::{Byte, Word};
use btf_accept::{Reading, read};
use leamugi_numbers::{Numbers, reading_numbers};
use std::io;
use word_put::{put_u8, put_u16, put_u32};
use word_read::part;

// How many bytes the BTF of the cases has.
const SIZE: usize = 367;

// A number put at a place: one byte, or 32 bits.
#[derive(Clone, Copy)]
enum Put {
    Byte(usize, u8),
    Word(usize, u32),
}

impl Put {
    fn number(self) -> u32 {
        match self {
            Byte(_, n) => n as u32,
            Word(_, n) => n,
        }
    }

    fn store(self, b: &mut [u8]) {
        match self {
            Byte(at, n) => put_u8(b, at, n),
            Word(at, n) => put_u32(b, at, n),
        }
    }
}

// A type's twelve bytes.
fn typ(b: &mut [u8], at: usize, name: u32, kind: u8, vlen: u16, third: u32) {
    if at < b.len() {
        put_u32(b, at, name);
        put_u16(b, at + 4, vlen);
        put_u8(b, at + 7, kind);
        put_u32(b, at + 8, third);
    }
}

// Three words of an entry, or of an array.
fn words3(b: &mut [u8], at: usize, x: u32, y: u32, z: u32) {
    if at < b.len() {
        put_u32(b, at, x);
        put_u32(b, at + 4, y);
        put_u32(b, at + 8, z);
    }
}

// A header of 24 bytes before types and strings, one behind the other.
fn header(b: &mut [u8], types: u32, strings: u32) {
    put_u16(b, 0, 0xEB9F);
    put_u8(b, 2, 1);
    put_u32(b, 4, 24);
    put_u32(b, 12, types);
    put_u32(b, 16, types);
    put_u32(b, 20, strings);
}

// INT, PTR, ARRAY.
fn plain_types(b: &mut [u8]) {
    typ(b, 24, 1, 1, 0, 4);
    put_u32(b, 36, 0x0100_0020);
    typ(b, 40, 0, 2, 0, 1);
    typ(b, 52, 0, 3, 0, 0);
    words3(b, 64, 1, 1, 3);
}

// STRUCT, UNION.
fn member_types(b: &mut [u8]) {
    typ(b, 76, 3, 4, 2, 8);
    words3(b, 88, 1, 1, 0);
    words3(b, 100, 3, 2, 32);
    typ(b, 112, 0, 5, 1, 4);
    words3(b, 124, 1, 1, 0);
}

// ENUM.
fn enum_type(b: &mut [u8]) {
    typ(b, 136, 5, 6, 2, 4);
    words3(b, 148, 1, 0, 3);
    put_u32(b, 160, 1);
}

// FWD, TYPEDEF, VOLATILE, CONST, RESTRICT, FUNC.
fn short_types(b: &mut [u8]) {
    typ(b, 164, 3, 7, 0, 0);
    typ(b, 176, 5, 8, 0, 1);
    typ(b, 188, 0, 9, 0, 1);
    typ(b, 200, 0, 10, 0, 1);
    typ(b, 212, 0, 11, 0, 2);
    typ(b, 224, 1, 12, 1, 13);
}

// FUNC_PROTO, VAR, DATASEC.
fn program_types(b: &mut [u8]) {
    typ(b, 236, 0, 13, 1, 1);
    put_u32(b, 248, 3);
    put_u32(b, 252, 1);
    typ(b, 256, 5, 14, 0, 1);
    put_u32(b, 268, 1);
    typ(b, 272, 1, 15, 1, 4);
    words3(b, 284, 14, 0, 4);
}

// FLOAT, DECL_TAG, TYPE_TAG, ENUM64.
fn late_types(b: &mut [u8]) {
    typ(b, 296, 3, 16, 0, 8);
    typ(b, 308, 5, 17, 0, 4);
    put_u32(b, 320, 0xFFFF_FFFF);
    typ(b, 324, 1, 18, 0, 1);
    typ(b, 336, 3, 19, 1, 8);
    words3(b, 348, 5, 1, 0);
}

// The header, and the strings "", "a", "b", "c".
fn framed(b: &mut [u8]) {
    header(b, 336, 7);
    put_u8(b, 361, 97);
    put_u8(b, 363, 98);
    put_u8(b, 365, 99);
}

// The whole: nineteen types.
fn base() -> [u8; SIZE] {
    let mut b = [0u8; SIZE];
    framed(&mut b);
    plain_types(&mut b);
    member_types(&mut b);
    enum_type(&mut b);
    short_types(&mut b);
    program_types(&mut b);
    late_types(&mut b);
    b
}

// A write that failed is passed over, and what follows is tried: the gate compares what is printed, so a line that cannot be
// printed is missed there.
fn pass_over(_written: io::Result<()>) {}

fn line(rt: &impl Print, label: &str, put: u32, reading: Reading) {
    let Numbers { number, beside } = reading_numbers(reading);
    let [first, _, _, _, last] = beside;
    pass_over(match number {
        0 => println!(rt; "{label} {put} -> {number}, last {last}"),
        2 => println!(rt; "{label} {put} -> {number}"),
        _ => println!(rt; "{label} {put} -> {number}, {first}"),
    });
}

// The base with a number put into it, and others beside it.
fn edits(rt: &impl Print, label: &str, put: Put, beside: &[Put]) {
    let mut b = base();
    for other in beside {
        other.store(&mut b);
    }
    put.store(&mut b);
    line(rt, label, put.number(), read(&b, &mut [0u32; 20]))
}

fn edit(rt: &impl Print, label: &str, put: Put) {
    edits(rt, label, put, &[]);
}

// The first bytes of the base alone.
fn cut(rt: &impl Print, size: u32) {
    let b = base();
    line(
        rt,
        "bytes",
        size,
        read(part(&b, 0, size as usize), &mut [0u32; 20]),
    );
}

fn header_start(rt: &impl Print) {
    edit(rt, "base, its first word", Word(0, 0x0001_EB9F));
    edit(rt, "magic, low byte", Byte(0, 0x9E));
    edit(rt, "magic, high byte", Byte(1, 0xEC));
    edit(rt, "version", Byte(2, 0));
    edit(rt, "version", Byte(2, 2));
    edit(rt, "flags", Byte(3, 1));
    cut(rt, 0);
}

fn header_bytes(rt: &impl Print) {
    cut(rt, 23);
    cut(rt, 24);
    cut(rt, 366);
    edit(rt, "header length", Word(4, 23));
    edit(rt, "header length", Word(4, 25));
    edit(rt, "type offset", Word(8, 0xFFFF_FFFF));
    edit(rt, "type offset", Word(8, 7));
}

fn header_sections(rt: &impl Print) {
    edits(
        rt,
        "no types, offset to the end",
        Word(8, 343),
        &[Word(12, 0)],
    );
    edits(
        rt,
        "no types, offset past the end",
        Word(8, 344),
        &[Word(12, 0)],
    );
    edit(rt, "type length", Word(12, 0xFFFF_FFE8));
    edit(rt, "string offset", Word(16, 337));
    edit(rt, "string length", Word(20, 8));
}

// A header of 32 bytes, with no types behind it.
fn long_header(rt: &impl Print) {
    for length in [32, 33] {
        let mut b = [0u8; 33];
        header(&mut b, 0, 1);
        put_u32(&mut b, 4, length);
        line(rt, "long header", length, read(&b, &mut [0u32; 1]));
    }
}

fn string_cases(rt: &impl Print) {
    edit(rt, "string length", Word(20, 7));
    edit(rt, "string length", Word(20, 0));
    edit(rt, "string length", Word(20, 6));
    edits(
        rt,
        "string length, names inside",
        Word(20, 1),
        &[Word(12, 0)],
    );
    edit(rt, "first string byte", Byte(360, 1));
    edit(rt, "last string byte", Byte(366, 1));
}

// The section ends a byte before a type does, and where it does.
fn end(rt: &impl Print, at: u32) {
    if 0 < at {
        edit(rt, "type length", Word(12, at - 1));
    }
    edit(rt, "type length", Word(12, at));
}

fn cut_types(rt: &impl Print) {
    let ends = [
        0, 12, 16, 28, 52, 88, 112, 140, 152, 164, 176, 188, 200, 212, 232, 248, 272, 284, 300,
        312, 336,
    ];
    for at in ends {
        end(rt, at);
    }
}

fn kind_cases(rt: &impl Print) {
    edit(rt, "kind of INT", Byte(31, 0));
    edit(rt, "kind of FLOAT", Byte(303, 0));
    edit(rt, "kind of FLOAT", Byte(303, 19));
    edit(rt, "kind of FLOAT", Byte(303, 20));
    edit(rt, "kind of FLOAT", Byte(303, 31));
}

fn info_cases(rt: &impl Print) {
    edit(rt, "kind of FLOAT, unused bits", Byte(303, 0x70));
    edit(rt, "unused info bits", Byte(302, 0xFF));
    edit(rt, "kind flag of FWD", Byte(171, 0x87));
    edit(rt, "list length of FUNC", Word(228, 0x0C00_FFFF));
    edit(rt, "list length of STRUCT", Word(80, 0x0400_FFFF));
}

// Bits 24 to 28 of an INT's extra word.
fn encodings(rt: &impl Print) {
    for e in 0..32 {
        edit(rt, "encoding", Byte(39, e));
    }
}

// The strings have 7 bytes.
fn name_cases(rt: &impl Print) {
    edit(rt, "name of INT", Word(24, 6));
    edit(rt, "name of INT", Word(24, 7));
    edit(rt, "name of INT", Word(24, 0xFFFF_FFFF));
    edit(rt, "name of a member", Word(100, 6));
    edit(rt, "name of a member", Word(100, 7));
    edit(rt, "name of an enumerator", Word(156, 6));
    edit(rt, "name of an enumerator", Word(156, 7));
}

fn more_names(rt: &impl Print) {
    edit(rt, "name of a parameter", Word(248, 6));
    edit(rt, "name of a parameter", Word(248, 7));
    edit(rt, "name of a wide enumerator", Word(348, 6));
    edit(rt, "name of a wide enumerator", Word(348, 7));
    edit(rt, "value of an enumerator", Word(160, 7));
    edit(rt, "offset of a variable", Word(288, 0xFFFF_FFFF));
    edit(rt, "name of ENUM64", Word(336, 7));
}

// The last id is 19.
fn id_cases(rt: &impl Print) {
    edit(rt, "type of PTR", Word(48, 19));
    edit(rt, "type of PTR", Word(48, 20));
    edit(rt, "type of PTR", Word(48, 0));
    edit(rt, "third word of ARRAY", Word(60, 20));
    edit(rt, "element of ARRAY", Word(64, 19));
    edit(rt, "element of ARRAY", Word(64, 20));
}

fn chain_ids(rt: &impl Print) {
    edit(rt, "index of ARRAY", Word(68, 19));
    edit(rt, "index of ARRAY", Word(68, 20));
    edit(rt, "length of ARRAY", Word(72, 20));
    edit(rt, "type of a member", Word(104, 19));
    edit(rt, "type of a member", Word(104, 20));
    edit(rt, "third word of FWD", Word(172, 20));
}

fn function_ids(rt: &impl Print) {
    edit(rt, "type of TYPEDEF", Word(184, 20));
    edit(rt, "type of VOLATILE", Word(196, 20));
    edit(rt, "type of CONST", Word(208, 20));
    edit(rt, "type of RESTRICT", Word(220, 20));
    edit(rt, "type of FUNC", Word(232, 20));
    edit(rt, "type of FUNC_PROTO", Word(244, 20));
}

fn program_ids(rt: &impl Print) {
    edit(rt, "type of a parameter", Word(252, 19));
    edit(rt, "type of a parameter", Word(252, 20));
    edit(rt, "type of VAR", Word(264, 20));
    edit(rt, "linkage of VAR", Word(268, 20));
    edit(rt, "type of a variable", Word(284, 19));
    edit(rt, "type of a variable", Word(284, 20));
    edit(rt, "size of FLOAT", Word(304, 20));
}

fn order_cases(rt: &impl Print) {
    edit(rt, "type of DECL_TAG", Word(316, 20));
    edit(rt, "type of TYPE_TAG", Word(332, 20));
    edit(rt, "size of ENUM64", Word(344, 20));
    edits(
        rt,
        "types before names",
        Word(300, 0x1400_0000),
        &[Word(24, 7)],
    );
    edits(
        rt,
        "names in the order of ids",
        Word(24, 7),
        &[Word(48, 20)],
    );
    edits(
        rt,
        "ids in the order of ids",
        Word(316, 20),
        &[Word(48, 20)],
    );
}

// A table of so many entries: the answer, and what is left in it.
fn table(rt: &impl Print, label: &str, b: &[u8], entries: u32, t: &mut [u32]) {
    line(rt, label, entries, read(b, t));
    for entry in t.iter() {
        pass_over(print!(rt; " {entry}"));
    }
    pass_over(println!(rt; ""));
}

// A table one entry short, one that fits, and one that is longer; and a BTF that is refused.
fn tables(rt: &impl Print) {
    let mut b = base();
    table(rt, "table", &b, 19, &mut [7u32; 19]);
    table(rt, "table", &b, 20, &mut [7u32; 20]);
    table(rt, "table", &b, 22, &mut [7u32; 22]);
    put_u8(&mut b, 39, 3);
    table(rt, "table, refused", &b, 22, &mut [7u32; 22]);
}

fn main(rt: HostRuntime) {
    header_start(&rt);
    header_bytes(&rt);
    header_sections(&rt);
    long_header(&rt);
    string_cases(&rt);
    cut_types(&rt);
    kind_cases(&rt);
    info_cases(&rt);
    encodings(&rt);
    name_cases(&rt);
    more_names(&rt);
    id_cases(&rt);
    chain_ids(&rt);
    function_ids(&rt);
    program_ids(&rt);
    order_cases(&rt);
    tables(&rt);
}
