// Numbers of 1, 2, 4 and 8 bytes at a place, low byte first, parts of bytes and bits of a number, read. All are total, as the
// definitions are: past the end a byte reads as 0. The definitions of numbers written and signed stand here too, for the
// rules to speak of; the code is in `put`.
#![tactic(auto)]

ghost use Rattle.std.specs.Prelude.{◌≡◌, ◌+◌, ◌≤◌, ◌<◌, length, get_or};
ghost use Rattle.word_read.specs.Num.{little, num_at, half, word, section};
ghost use Rattle.word_read.specs.Bits.{ones_masked};

pub fn u8_at(bytes: &[u8], at: usize) -> u8
    ensures { result ≡ get_or bytes.now at 0 }
{
    if at < bytes.len() { bytes[at] } else { 0 }
}

pub fn u16_at(bytes: &[u8], at: usize) -> u16
    ensures { result ≡ half bytes.now at }
{
    if at < bytes.len() {
        u8_at(bytes, at) as u16 + 256 * (u8_at(bytes, at + 1) as u16)
    } else {
        0
    }
}

fn wide(x: u8) -> u32
    ensures { (result ≡ x) × (result < 256) }
{
    x as u32
}

// Four bytes that are all there: one load.
fn u32_in(bytes: &[u8], at: usize) -> u32
    requires { at + 4 ≤ length bytes.now }
    ensures { result ≡ word bytes.now at }
{
    wide(bytes[at])
        + 256 * wide(bytes[at + 1])
        + 65536 * wide(bytes[at + 2])
        + 16777216 * wide(bytes[at + 3])
}

// Four bytes of which some may be past the end.
fn u32_over(bytes: &[u8], at: usize) -> u32
    ensures { result ≡ word bytes.now at }
{
    if at < bytes.len() {
        u16_at(bytes, at) as u32 + 65536 * (u16_at(bytes, at + 2) as u32)
    } else {
        0
    }
}

pub fn u32_at(bytes: &[u8], at: usize) -> u32
    ensures { result ≡ word bytes.now at }
{
    if bytes.len() < 4 {
        return u32_over(bytes, at);
    }
    if at <= bytes.len() - 4 {
        return u32_in(bytes, at);
    }
    u32_over(bytes, at)
}

pub fn u64_at(bytes: &[u8], at: usize) -> u64
    ensures { result ≡ num_at little 8 bytes.now at }
{
    if at < bytes.len() {
        u32_at(bytes, at) as u64 + 4294967296 * (u32_at(bytes, at + 4) as u64)
    } else {
        0
    }
}

// The part of `size` bytes from `start` on, cut off where the bytes end.
pub fn part(bytes: &[u8], start: usize, size: usize) -> &[u8]
    ensures { result.now ≡ section bytes.now start size }
{
    if start > bytes.len() {
        return &bytes[..0];
    }
    if size > bytes.len() - start {
        return &bytes[start..];
    }
    &bytes[start..start + size]
}

// How many of the bits under a mask are ones.
pub fn ones_masked(x: u32, mask: u32) -> u32
    ensures { result ≡ ones_masked x mask }
{
    u32::count_ones(x & mask)
}
