// What stands at an id, by the table that a read has left, and names as parts of the bytes. Every reader answers for any
// bytes and any table, as the view by the table says.
#![tactic(auto)]

ghost use Rattle.std.specs.Prelude.{◌≡◌, ◌<◌, get_or, length};
ghost use Rattle.btf_accept.specs.Sections.{strings_in};
ghost use Rattle.btf_view.specs.Text.{text_at};
ghost use Rattle.btf_view.specs.Lent.{lent};
ghost use Rattle.btf_view.specs.View.{tab_view};
ghost use Rattle.btf_view.specs.Places.{table_place, no_entry};

use btf_accept::Btf;
use btf_fields::{count_at, entry_at, extra_at, flag_at, kind_at, name_at, ref_at, size_at};
use btf_kinds::{Entry, tail_of};
use word_read::part;

// The types of a BTF as they are lent: its bytes, the table that a read has left, and where its sections lie. A name is a part of
// the bytes and may be kept for as long as they are lent, the table's end or not.
#[derive(Clone, Copy)]
pub struct Types<'a, 't> {
    pub bytes: &'a [u8],
    pub table: &'t [u32],
    pub btf: Btf,
}

// From an offset up to the zero.
fn text_in(strings: &[u8], from: usize) -> &[u8]
    ensures { result.now ≡ text_at strings.now from }
{
    if from > strings.len() {
        return &strings[..0];
    }
    let mut e = from;
    while e < strings.len() {
        if strings[e] == 0 {
            return &strings[from..e];
        }
        e += 1;
    }
    &strings[from..e]
}

impl<'a, 't> Types<'a, 't> {
    // Where the type with an id begins; the end of the bytes where there is none.
    pub fn place_of(&self, id: u32) -> usize
        ensures { (result ≡ table_place self.now.bytes.now self.now.table.now self.now.btf.last id) × (result < 9223372036854775808) }
    {
        let Types { bytes, table, btf } = *self;
        let last = btf.last;
        let void = id == 0;
        if void {
            return bytes.len();
        }
        if id > last {
            return bytes.len();
        }
        let i = id as usize;
        if i >= table.len() {
            return bytes.len();
        }
        table[i] as usize
    }

    pub fn kind_of(&self, id: u32) -> u32
        ensures { result ≡ ((lent self.now).typ id).kind }
    {
        kind_at(self.bytes, self.place_of(id))
    }

    // Where the type's name begins in the strings.
    pub fn name_of(&self, id: u32) -> u32
        ensures { result ≡ ((lent self.now).typ id).name }
    {
        name_at(self.bytes, self.place_of(id))
    }

    pub fn flag_of(&self, id: u32) -> u32
        ensures { result ≡ ((lent self.now).typ id).flag }
    {
        flag_at(self.bytes, self.place_of(id))
    }

    pub fn size_of(&self, id: u32) -> u32
        ensures { result ≡ ((lent self.now).typ id).size }
    {
        size_at(self.bytes, self.place_of(id))
    }

    // The type that it refers to: a pointee, an array's element.
    pub fn ref_of(&self, id: u32) -> u32
        ensures { result ≡ ((lent self.now).typ id).ref }
    {
        ref_at(self.bytes, self.place_of(id))
    }

    // An INT's encoding, a VAR's linkage, a DECL_TAG's component, an array's length.
    pub fn extra_of(&self, id: u32) -> u32
        ensures { result ≡ ((lent self.now).typ id).extra }
    {
        extra_at(self.bytes, self.place_of(id))
    }

    // The k-th member, enumerator, parameter or variable; zeros past the last.
    pub fn entry_of(&self, id: u32, k: u32) -> Entry
        ensures { result ≡ get_or ((lent self.now).typ id).entries k no_entry }
    {
        let bytes = self.bytes;
        let at = self.place_of(id);
        if k >= count_at(bytes, at) {
            return Entry {
                name: 0,
                typ: 0,
                low: 0,
                high: 0,
            };
        }
        let kind = kind_at(bytes, at);
        let tail = tail_of(kind);
        let size = tail.each;
        entry_at(bytes, at + 12 + (size * k) as usize, kind)
    }

    // How many members, enumerators, parameters or variables the type has.
    pub fn count_of(&self, id: u32) -> u32
        ensures { result ≡ length ((lent self.now).typ id).entries }
    {
        count_at(self.bytes, self.place_of(id))
    }

    // The strings that the names stand in.
    pub fn strings(&self) -> &'a [u8]
        ensures { result.now ≡ strings_in self.now.bytes.now self.now.btf }
    {
        let z = self.btf.strings;
        part(self.bytes, z.start, z.size)
    }

    // How many bytes the strings have.
    pub fn room(&self) -> usize
        ensures { result ≡ (lent self.now).room }
    {
        self.strings().len()
    }

    // The name at an offset of the strings: the very part of the bytes that it occupies.
    pub fn text_of(&self, offset: u32) -> &'a [u8]
        ensures { result.now ≡ (lent self.now).text offset }
    {
        text_in(self.strings(), offset as usize)
    }
}
