// An access string taken apart: decimal numbers between colons, each as Rust parses a `usize`.
#![tactic(auto)]

ghost use Rattle.std.specs.Prelude.{◌≡◌, ◌≤◌, ◌++◌, ◌∷◌, [], length, take};
ghost use Rattle.rules.specs.Access.{decimal, part, parse};
ghost use Rattle.access_text.specs.Few.{items_of};
ghost use Rattle.access_text.specs.Text.{one_digit, parts_of};

use rules::Refusal;

const MAX_PARTS: usize = 64;

// A list by value: the first `count` items of the table, where a count past 64 counts as 64. The parts of an access string
// are one, and so is a path of accessors. It is `Copy` and has no invariant, so that who makes one owes nothing.
#[derive(Clone, Copy)]
pub struct Few<T> {
    pub count: usize,
    pub items: [T; 64],
}

// The parts of an access string.
pub type Parts = Few<u64>;

impl<T: Copy> Few<T> {
    // None yet; each place of the table is blank.
    pub fn new(blank: T) -> Few<T>
        ensures { items_of result ≡ [] }
    {
        Few {
            count: 0,
            items: [blank; 64],
        }
    }

    // One more at the end; where 64 are there, it is not kept.
    pub fn push(&mut self, item: T)
        ensures { items_of self.new ≡ take 64 (items_of self.old ++ item ∷ []) }
    {
        if self.count < MAX_PARTS {
            self.items[self.count] = item;
            self.count += 1;
        }
    }

    // The list, lent.
    pub fn as_slice(&self) -> &[T]
        ensures value { result.now ≡ items_of self.now }
        ensures fits { length result.now ≤ 64 }
    {
        &self.items[..count_in(self)]
    }
}

// How many parts there are, or accessors of a path.
pub fn count_in<T: Copy>(parts: &Few<T>) -> usize
    ensures few { result ≤ 64 }
    ensures long { result ≡ length (items_of parts.now) }
{
    parts.count.min(MAX_PARTS)
}

// One digit more, where the number still fits in 64 bits.
#[tactic(auto, unfolding(crate::specs::Text::one_digit))]
fn digit_after(a: u64, x: u8) -> Option<u64>
    ensures { result ≡ one_digit a x }
{
    if !x.is_ascii_digit() {
        return None;
    }
    a.checked_mul(10)?.checked_add((x - b'0') as u64)
}

// The number that digits make; there must be at least one.
#[tactic(auto, using(crate::proofs::Digits::digit_steps))]
fn number_of(digits: &[u8]) -> Option<u64>
    ensures { result ≡ decimal digits.now }
{
    let empty = digits.is_empty();
    if empty {
        return None;
    }
    let mut a: u64 = 0;
    for x in digits {
        a = digit_after(a, *x)?;
    }
    Some(a)
}

// The number that a part is; one leading `+` is allowed.
#[tactic(auto, using(crate::proofs::Digits::part_steps), unfolding(rules::specs::Access::part))]
fn part_of(text: &[u8]) -> Option<u64>
    ensures { result ≡ part text.now }
{
    match text {
        [b'+', digits @ ..] => number_of(digits),
        _ => number_of(text),
    }
}

// The parts of an access string. All must be numbers, before it matters how many there are: a part past the 64th is
// parsed too, and not kept.
pub fn parse_access(text: &[u8]) -> Result<Parts, Refusal>
    ensures { parts_of result ≡ parse text.now }
{
    let mut parts = Few::new(0);
    let mut too_many = false;
    for one in text.split(|x| *x == b':') {
        let number = part_of(one).ok_or(Refusal::BadAccess)?;
        let count = count_in(&parts);
        too_many = count >= MAX_PARTS;
        parts.push(number);
    }
    if too_many {
        return Err(Refusal::TooManyParts);
    }
    Ok(parts)
}
