// Is it a BTF, and where its types begin. The types are passed once to be checked, once more only where a name or an id does
// not fit, and once to fill the table; nothing is copied. Where a type ends is known only once it is looked at, so that filling
// is a chain of loads, each waiting for the one before. The first pass therefore keeps marks, and the table is filled from four
// of them at once.
#![tactic(auto)]

ghost use Rattle.std.specs.Prelude.{◌≡◌, ◌+◌, ◌*◌, ◌-◌, ◌≤◌, ◌<◌, length, get_or, set};
ghost use Rattle.btf_kinds.specs.Rows.{Columns};
ghost use Rattle.btf_kinds.specs.Types.{type_bytes, after};
ghost use Rattle.btf_accept.specs.Limits.{max_bytes, max_types};
ghost use Rattle.btf_accept.specs.Sections.{begins, head_of, strings_fine};
ghost use Rattle.btf_accept.specs.Accept.{scan, unfit, first_or, then_fits, checked, accepted};
ghost use Rattle.btf_accept.specs.Shape.{stretch_of, place_of, Walking, Reached, stop_after, Marked, MarkedIf, MarkedIn, Lies, Filled};
ghost use Rattle.btf_accept.specs.Table.{laid, decode, tabled};

use btf_kinds::{EACH, ONCE, tail_in};
use btf_pass::{Passing, larger_of, pass};
use word_read::{part, u8_at, u16_at, u32_at};

// Document 01, section 2, as specs/Limits has it; both are inclusive.
pub const MAX_BYTES: usize = 16777216;

pub const MAX_TYPES: u32 = 1048575;

pub const BTF_MAGIC: u16 = 0xEB9F;

pub const BTF_VERSION: u8 = 1;

// The header's own bytes.
pub const BTF_HEADER_BYTES: usize = 24;

// A mark is kept every so many types; so many marks are enough for the most types there may be.
const STRIDE: u32 = 1024;

const MARKS: usize = 1024;

#[derive(Clone, Copy)]
pub struct Place {
    pub start: usize,
    pub size: usize,
}

// Where the sections of some bytes lie, and the last id.
#[derive(Clone, Copy)]
pub struct Btf {
    pub types: Place,
    pub strings: Place,
    pub last: u32,
}

#[derive(Clone, Copy)]
pub enum Head {
    Sections(Btf),
    Broken,
}

// Some types passed: where the next begins, how many in all, the highest name offset and the highest type id among all.
#[derive(Clone, Copy)]
pub enum Stretched {
    Passed(usize, u32, u32, u32),
    Stuck(u32),
}

#[derive(Clone, Copy)]
pub enum Scan {
    Count(u32),
    Stop(u32),
    Many,
}

#[derive(Clone, Copy)]
pub enum Whole {
    Accepted(Btf),
    // the id of the first fault, 0 for header and strings
    Faulty(u32),
    Over,
}

#[derive(Clone, Copy)]
pub enum Reading {
    Read(Btf),
    NoBtf(u32),
    TooBig,
    // entries needed
    TooShort(u32),
}

// Magic, version and flags.
fn begins_fine(bytes: &[u8]) -> bool
    ensures { result ≡ begins bytes.now }
{
    if u16_at(bytes, 0) != BTF_MAGIC {
        return false;
    }
    if u8_at(bytes, 2) != BTF_VERSION {
        return false;
    }
    u8_at(bytes, 3) == 0
}

fn header(bytes: &[u8]) -> Head
    ensures { result ≡ head_of bytes.now }
{
    if bytes.len() < BTF_HEADER_BYTES {
        return Head::Broken;
    }
    if !begins_fine(bytes) {
        return Head::Broken;
    }
    let length = u32_at(bytes, 4) as usize;
    if length < BTF_HEADER_BYTES {
        return Head::Broken;
    }
    let a = length + u32_at(bytes, 8) as usize;
    let b = u32_at(bytes, 12) as usize;
    if a + b > bytes.len() {
        return Head::Broken;
    }
    let c = length + u32_at(bytes, 16) as usize;
    let d = u32_at(bytes, 20) as usize;
    if c + d > bytes.len() {
        return Head::Broken;
    }
    Head::Sections(Btf {
        types: Place { start: a, size: b },
        strings: Place { start: c, size: d },
        last: 0,
    })
}

fn strings_fine(strings: &[u8]) -> bool
    ensures { result ≡ strings_fine strings.now }
{
    let n = strings.len();
    if n == 0 {
        return false;
    }
    if strings[0] != 0 {
        return false;
    }
    strings[n - 1] == 0
}

// How many bytes the type at a place takes, by the columns of the kinds' table.
fn bytes_in(types: &[u8], at: usize, once: &[u32], each: &[u32]) -> u32
    requires { (at + 8 ≤ length types.now) × Columns once.now each.now }
    ensures { result ≡ type_bytes types.now at }
{
    let info = u32_at(types, at + 4);
    let tail = tail_in(once, each, info / 16777216 % 32);
    let once = tail.once;
    let each = tail.each;
    12 + once + each * (info % 65536)
}

// Each type in turn, and how far it reaches, until `stop` have passed or none is left: the first pass from one mark to the next.
fn stretch(types: &[u8], from: usize, before: u32, far: u32, top: u32, stop: u32) -> Stretched
    ensures { result ≡ stretch_of types.now (stop - before) from before far top }
{
    let mut at = from;
    let mut n = before;
    let mut far = far;
    let mut top = top;
    while at < types.len() {
        if n >= stop {
            return Stretched::Passed(at, n, far, top);
        }
        let st = pass(types, at);
        let Passing::Next(x, f, t) = st else {
            return Stretched::Stuck(n + 1);
        };
        far = larger_of(far, f);
        top = larger_of(top, t);
        at = x;
        n += 1;
    }
    Stretched::Passed(at, n, far, top)
}

// The first id whose names or ids do not fit, or 0. It is looked for only where some type reaches too far.
fn first_unfit(types: &[u8], room: usize, last: u32) -> u32
    requires { Walking max_types types.now last 0 0 }
    ensures { result ≡ unfit types.now room last last 0 0 }
{
    let mut at: usize = 0;
    let mut n: u32 = 0;
    while n < last {
        let s = stretch(types, at, n, 0, 0, n + 1);
        let Stretched::Passed(next, _, far, top) = s else {
            return 0;
        };
        if far as usize >= room {
            return n + 1;
        }
        if top > last {
            return n + 1;
        }
        at = next;
        n += 1;
    }
    0
}

// All types passed, with the highest name offset and type id among them: `n` types, or the first that does not fit.
fn settle(types: &[u8], room: usize, n: u32, far: u32, top: u32) -> Scan
    requires { Walking max_types types.now n 0 0 × Reached types.now far top n }
    ensures { result ≡ first_or n (unfit types.now room n n 0 0) }
{
    if (far as usize) < room {
        if top <= n {
            return Scan::Count(n);
        }
    }
    let u = first_unfit(types, room, n);
    if u > 0 {
        return Scan::Stop(u);
    }
    Scan::Count(n)
}

// Up to the next mark, or to the limit.
fn next_stop(n: u32) -> u32
    ensures { result ≡ stop_after n }
{
    if n < MAX_TYPES - STRIDE {
        n + STRIDE
    } else {
        MAX_TYPES
    }
}

// The first pass, and its marks.
fn survey(types: &[u8], room: usize, marks: &mut [u32]) -> Scan
    requires { (length types.now ≤ max_bytes) × (1024 ≤ length marks.old) }
    ensures answer { result ≡ then_fits types.now room (scan types.now max_types 0 0) }
    ensures marks { MarkedIf types.now result marks.new }
{
    let mut at: usize = 0;
    let mut n: u32 = 0;
    let mut far: u32 = 0;
    let mut top: u32 = 0;
    let mut j: usize = 0;
    while at < types.len() {
        if n == MAX_TYPES {
            return Scan::Many;
        }
        marks[j] = at as u32;
        let s = stretch(types, at, n, far, top, next_stop(n));
        match s {
            Stretched::Stuck(i) => {
                return Scan::Stop(i);
            }
            Stretched::Passed(x, m, f, t) => {
                at = x;
                n = m;
                far = f;
                top = t;
            }
        }
        j += 1;
    }
    settle(types, room, n, far, top)
}

// A types section and a strings section: the last id, or what is wrong.
fn check(types: &[u8], strings: &[u8], marks: &mut [u32]) -> Scan
    requires { (length types.now ≤ max_bytes) × (1024 ≤ length marks.old) }
    ensures answer { result ≡ checked max_types types.now strings.now }
    ensures marks { MarkedIf types.now result marks.new }
{
    if !strings_fine(strings) {
        return Scan::Stop(0);
    }
    survey(types, strings.len(), marks)
}

// Whether the bytes are a BTF; the marks of its types are kept.
fn accept_marked(bytes: &[u8], marks: &mut [u32]) -> Whole
    requires { 1024 ≤ length marks.old }
    ensures answer { result ≡ accepted bytes.now }
    ensures marks { MarkedIn bytes.now result marks.new }
{
    if bytes.len() > MAX_BYTES {
        return Whole::Over;
    }
    let h = header(bytes);
    let Head::Sections(b) = h else {
        return Whole::Faulty(0);
    };
    let t = b.types;
    let z = b.strings;
    let c = check(
        part(bytes, t.start, t.size),
        part(bytes, z.start, z.size),
        marks,
    );
    match c {
        Scan::Count(n) => Whole::Accepted(Btf {
            types: t,
            strings: z,
            last: n,
        }),
        Scan::Stop(i) => Whole::Faulty(i),
        Scan::Many => Whole::Over,
    }
}

// Whether the bytes are a BTF; no table is looked at.
pub fn accept(bytes: &[u8]) -> Whole
    ensures { result ≡ accepted bytes.now }
{
    let mut marks: [u32; MARKS] = [0; MARKS];
    accept_marked(bytes, &mut marks)
}

// The entry of one type; where the next type begins.
fn lay(
    types: &[u8],
    base: usize,
    at: usize,
    once: &[u32],
    each: &[u32],
    id: u32,
    table: &mut [u32],
) -> usize
    requires { (base + length types.now ≤ max_bytes) × (after types.now at ≤ length types.now) × Columns once.now each.now
        × (id < length table.old) }
    ensures next { result ≡ after types.now at }
    ensures table { table.new ≡ set table.old id (base + at) }
{
    table[id as usize] = (base + at) as u32;
    at + bytes_in(types, at, once, each) as usize
}

// The entries of the first `run` types, and of those after each of the three marks, side by side: four chains of loads, none of
// which waits for another. Where the type after all of them begins.
fn fill_parts(
    types: &[u8],
    base: usize,
    run: u32,
    second: usize,
    third: usize,
    fourth: usize,
    table: &mut [u32],
) -> usize
    requires { (base + length types.now ≤ max_bytes) × Lies types.now (4 * run) × (4 * run < length table.old) × (4 * run ≤ max_types)
        × (second ≡ place_of types.now run) × (third ≡ place_of types.now (2 * run)) × (fourth ≡ place_of types.now (3 * run)) }
    ensures next { result ≡ place_of types.now (4 * run) }
    ensures table { Filled types.now base 0 (4 * run) table.old table.new }
{
    let once = ONCE;
    let each = EACH;
    let mut a: usize = 0;
    let mut b = second;
    let mut c = third;
    let mut d = fourth;
    let mut i: u32 = 0;
    while i < run {
        i += 1;
        a = lay(types, base, a, &once, &each, i, table);
        b = lay(types, base, b, &once, &each, run + i, table);
        c = lay(types, base, c, &once, &each, 2 * run + i, table);
        d = lay(types, base, d, &once, &each, 3 * run + i, table);
    }
    d
}

// The entries of the types after the first `before`, to the last.
fn fill_on(types: &[u8], base: usize, from: usize, before: u32, last: u32, table: &mut [u32])
    requires { (base + length types.now ≤ max_bytes) × Lies types.now last × (last < length table.old) × (before ≤ last)
        × (from ≡ place_of types.now before) }
    ensures { Filled types.now base before last table.old table.new }
{
    let once = ONCE;
    let each = EACH;
    let mut at = from;
    let mut n = before;
    while n < last {
        n += 1;
        at = lay(types, base, at, &once, &each, n, table);
    }
}

fn mark_at(marks: &[u32], i: u32) -> u32
    requires { i < length marks.now }
    ensures { result ≡ get_or marks.now i 0 }
{
    marks[i as usize]
}

// The last pass: where each type begins, counted from the bytes' start. Four parts of as many whole strides as there are, then
// what is left.
fn fill(types: &[u8], base: usize, last: u32, marks: &[u32], table: &mut [u32])
    requires { (base + length types.now ≤ max_bytes) × Lies types.now last × (last < length table.old) × (last ≤ max_types)
        × (1024 ≤ length marks.now) × Marked types.now last marks.now }
    ensures { table.new ≡ laid types.now base last table.old }
{
    table[0] = 0;
    let m = last / (4 * STRIDE);
    if m == 0 {
        fill_on(types, base, 0, 0, last, table);
    } else {
        let second = mark_at(marks, m) as usize;
        let third = mark_at(marks, 2 * m) as usize;
        let fourth = mark_at(marks, 3 * m) as usize;
        let run = m * STRIDE;
        let at = fill_parts(types, base, run, second, third, fourth, table);
        fill_on(types, base, at, 4 * run, last, table);
    }
}

// Whether the bytes are a BTF, its table filled where they are. Document 01's number of the answer, and what is returned beside
// it, are said in the crate `numbers`.
pub fn read(bytes: &[u8], table: &mut [u32]) -> Reading
    ensures answer { result ≡ decode bytes.now (length table.old) }
    ensures table { table.new ≡ tabled bytes.now table.old }
{
    let mut marks: [u32; MARKS] = [0; MARKS];
    let w = accept_marked(bytes, &mut marks);
    match w {
        Whole::Faulty(i) => Reading::NoBtf(i),
        Whole::Over => Reading::TooBig,
        Whole::Accepted(b) => {
            let last = b.last;
            if table.len() <= last as usize {
                return Reading::TooShort(last + 1);
            }
            let t = b.types;
            fill(part(bytes, t.start, t.size), t.start, last, &marks, table);
            Reading::Read(b)
        }
    }
}
