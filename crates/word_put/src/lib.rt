// Numbers of 1, 2 and 4 bytes written at a place, low byte first, and the bits of signed numbers. All are total, as the
// definitions of `words` are: past the end a byte is not written.
#![tactic(auto)]

ghost use Rattle.std.specs.Prelude.{◌≡◌, set};
ghost use Rattle.std.specs.Int.{w16, w32, w64};
ghost use Rattle.std.proofs.Common.{of_z, to_z};
ghost use Rattle.word_read.specs.Num.{little};
ghost use Rattle.word_read.specs.Put.{put_at};
ghost use Rattle.word_read.specs.Sign.{extended};

pub fn put_u8(bytes: &mut [u8], at: usize, v: u8)
    ensures { bytes.new ≡ set bytes.old at v }
{
    if at < bytes.len() {
        bytes[at] = v;
    }
}

pub fn put_u16(bytes: &mut [u8], at: usize, v: u16)
    ensures { bytes.new ≡ put_at little 2 bytes.old at v }
{
    if at < bytes.len() {
        put_u8(bytes, at, (v % 256) as u8);
        put_u8(bytes, at + 1, (v / 256) as u8);
    }
}

pub fn put_u32(bytes: &mut [u8], at: usize, v: u32)
    ensures { bytes.new ≡ put_at little 4 bytes.old at v }
{
    if at < bytes.len() {
        put_u16(bytes, at, (v % 65536) as u16);
        put_u16(bytes, at + 2, (v / 65536) as u16);
    }
}

pub fn put_i16(bytes: &mut [u8], at: usize, v: i16)
    ensures { bytes.new ≡ put_at little 2 bytes.old at (of_z w16 v) }
{
    put_u16(bytes, at, bits16(v));
}

pub fn put_i32(bytes: &mut [u8], at: usize, v: i32)
    ensures { bytes.new ≡ put_at little 4 bytes.old at (of_z w32 v) }
{
    put_u32(bytes, at, bits32(v));
}

// A pattern of 32 bits read as signed. A cast never loses or turns a bit, so the sign is taken by a branch.
pub fn signed32(x: u32) -> i32
    ensures { result ≡ to_z w32 x }
{
    let positive = x < 2147483648;
    if positive {
        x as i32
    } else {
        -1 - ((4294967295 - x) as i32)
    }
}

// The pattern of a signed number, at 16, 32 and 64 bits.
fn bits16(v: i16) -> u16
    ensures { result ≡ of_z w16 v }
{
    if 0 <= v {
        v as u16
    } else {
        65535 - ((-1 - v) as u16)
    }
}

fn bits32(v: i32) -> u32
    ensures { result ≡ of_z w32 v }
{
    if 0 <= v {
        v as u32
    } else {
        4294967295 - ((-1 - v) as u32)
    }
}

fn bits64(v: i64) -> u64
    ensures { result ≡ of_z w64 v }
{
    if 0 <= v {
        v as u64
    } else {
        18446744073709551615 - ((-1 - v) as u64)
    }
}

// An i32 widened to a 64-bit pattern.
fn widened(v: i32) -> u64
    ensures { result ≡ of_z w64 v }
{
    bits64(v as i64)
}

// The sign of a 32-bit pattern extended to 64 bits.
pub fn sign_extend(x: u32) -> u64
    ensures { result ≡ extended x }
{
    widened(signed32(x))
}
