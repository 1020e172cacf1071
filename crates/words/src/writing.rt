// Words written at a place of a lent buffer. Each public function answers the place after what it
// wrote. Where the buffer has fewer bytes from that place on than the promise asks for, it writes
// nothing and answers the place itself.
ghost use Rattle.std.specs.Prelude.{◌≡◌, ◌+◌, ◌*◌, ◌≤◌, [], ◌∷◌, ◌++◌, leb, length};
ghost use Rattle.words.specs.Writing.{digit_count, digits_of, number_text, number_most, hex_text, byte_text, bytes_text, put, Writes, Puts};

use crate::{DASH, NUMBER_MOST, digits};

// Does a buffer of so many bytes have `most` bytes or more from `at` on?
pub fn has_room(len: usize, at: usize, most: usize) -> bool
    ensures { result ≡ leb (at + most) len }
{
    at <= len && most <= len - at
}

// How many decimal digits n has.
#[tactic(auto, using(crate::proofs::Spelling::count_on, crate::proofs::Spelling::count_end, crate::proofs::Spelling::count_one))]
fn count_digits(n: u64) -> usize
    ensures { (result ≡ digit_count 19 n) × (result ≤ 20) }
{
    let mut v = n;
    for k in 1..20 {
        if v < 10 {
            return k;
        }
        v /= 10;
    }
    20
}

// Writes the last k digits of n, from the right.
#[tactic(auto, using(crate::proofs::Spelling::spelled_down))]
fn spell(out: &mut [u8], at: usize, n: u64, k: usize)
    requires { at + k ≤ length out.old }
    ensures { out.new ≡ put at (digits_of k n) out.old }
{
    let mut v = n;
    for i in (at..at + k).rev() {
        out[i] = b'0' + (v % 10) as u8;
        v /= 10;
    }
}

// Writes a number with no zeros in front, and one byte after it, where there is room.
fn write_number(out: &mut [u8], at: usize, n: u64, behind: u8) -> usize
    requires { at + number_most ≤ length out.old }
    ensures { Puts at (number_text n behind) number_most out.old result out.new }
{
    let k = count_digits(n);
    spell(out, at, n, k);
    let end = at + k;
    out[end] = behind;
    end + 1
}

// A number with no zeros in front, and one byte after it: NUMBER_MOST bytes of room.
pub fn put_number(out: &mut [u8], at: usize, n: u64, behind: u8) -> usize
    ensures { Writes (number_text n behind) number_most at out.old result out.new }
{
    if has_room(out.len(), at, NUMBER_MOST) {
        write_number(out, at, n, behind)
    } else {
        at
    }
}

// Writes a text, where there is room.
#[tactic(auto, using(crate::proofs::Written::copied))]
fn write_text(out: &mut [u8], at: usize, s: &[u8]) -> usize
    requires { at + length s.now ≤ length out.old }
    ensures { Puts at s.now (length s.now) out.old result out.new }
{
    out[at..at + s.len()].copy_from_slice(s);
    at + s.len()
}

// A text: as many bytes of room as it has.
pub fn put_text(out: &mut [u8], at: usize, s: &[u8]) -> usize
    ensures { Writes s.now (length s.now) at out.old result out.new }
{
    if has_room(out.len(), at, s.len()) {
        write_text(out, at, s)
    } else {
        at
    }
}

// A byte by its two hex digits, and one byte after it: three bytes of room.
pub fn put_byte(out: &mut [u8], at: usize, x: u8, behind: u8) -> usize
    ensures { Writes (byte_text x behind) 3 at out.old result out.new }
{
    put_text(out, at, &[digits::glyph(x / 16), digits::glyph(x), behind])
}

// Writes the hex digits of bytes, two for each, where there is room.
#[tactic(auto, using(crate::proofs::Pairs::spelled_on, crate::proofs::Pairs::hex_none))]
fn write_hex(out: &mut [u8], at: usize, s: &[u8])
    requires { at + 2 * length s.now ≤ length out.old }
    ensures { out.new ≡ put at (hex_text s.now) out.old }
{
    for (i, x) in s.iter().enumerate() {
        out[at + 2 * i] = digits::glyph(*x / 16);
        out[at + 2 * i + 1] = digits::glyph(*x);
    }
}

// Writes one byte or more by their hex digits, and one byte after them, where there is room.
fn write_bytes(out: &mut [u8], at: usize, s: &[u8], behind: u8) -> usize
    requires { at + (2 * length s.now + 1) ≤ length out.old }
    ensures { Puts at (hex_text s.now ++ (behind ∷ [])) (2 * length s.now + 1) out.old result out.new }
{
    write_hex(out, at, s);
    let end = at + 2 * s.len();
    out[end] = behind;
    end + 1
}

// Bytes by their hex digits, `-` for none, and one byte after them: as many bytes of room as these are.
pub fn put_bytes(out: &mut [u8], at: usize, s: &[u8], behind: u8) -> usize
    ensures { Writes (bytes_text s.now behind) (length (bytes_text s.now behind)) at out.old result out.new }
{
    if s.is_empty() {
        put_text(out, at, &[DASH, behind])
    } else if has_room(out.len(), at, 2 * s.len() + 1) {
        write_bytes(out, at, s, behind)
    } else {
        at
    }
}
