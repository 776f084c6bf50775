// Whether two names are the same, byte for byte or but for flavours. Any bytes get an answer, names that no zero ends too.
#![tactic(auto)]

ghost use Rattle.std.specs.Prelude.{◌≡◌, get_or, drop};
ghost use Rattle.btf_view.specs.Text.{cut};
ghost use Rattle.btf_view.specs.Lent.{lent};
ghost use Rattle.rules.specs.Types.{is_empty, same_text, flavour_begins, flavourless, same_flavourless};

use btf_view::Types;

// Byte for byte the same.
pub fn same_text(a: &[u8], b: &[u8]) -> bool
    ensures { result ≡ same_text a.now b.now }
{
    a == b
}

// The byte at an index; past the end the zero that ends a name.
fn byte_at(name: &[u8], i: usize) -> u8
    ensures { result ≡ get_or name.now i 0 }
{
    name.get(i).copied().unwrap_or(0)
}

// Whether three underscores stand first.
fn begins_flavour(name: &[u8]) -> bool
    ensures { result ≡ flavour_begins name.now }
{
    matches!(name, [b'_', b'_', b'_', ..])
}

// Whether a name has nothing from an index on, or a flavour.
fn ends_at(name: &[u8], i: usize) -> bool
    ensures { result ≡ is_empty (flavourless (drop i name.now)) }
{
    i >= name.len() || begins_flavour(&name[i..])
}

// Whether a name in the strings has nothing from an index on, or a flavour: past the end a byte reads as the zero that ends it.
fn ends_in(strings: &[u8], i: usize) -> bool
    ensures { result ≡ is_empty (flavourless (cut (drop i strings.now))) }
{
    let byte = byte_at(strings, i);
    let last = byte == 0;
    last || begins_flavour(&strings[i..])
}

// A name and the one that strings begin with, each up to its first three underscores. The first byte that differs ends it:
// most names differ early, so the other's end is not looked for.
fn same_in(name: &[u8], strings: &[u8]) -> bool
    ensures { result ≡ same_flavourless name.now (cut strings.now) }
{
    for (i, byte) in name.iter().enumerate() {
        let over = ends_in(strings, i);
        if ends_at(name, i) {
            return over;
        }
        if over || *byte != strings[i] {
            return false;
        }
    }
    ends_in(strings, name.len())
}

// Whether a name and the one at an offset of the strings are the same but for flavours.
pub fn same_named(name: &[u8], types: &Types, offset: u32) -> bool
    ensures { result ≡ same_flavourless name.now ((lent types.now).text offset) }
{
    let strings = types.strings();
    let from = (offset as usize).min(strings.len());
    same_in(name, &strings[from..])
}
