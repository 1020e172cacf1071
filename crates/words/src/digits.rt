// Digits, read from bytes and written as bytes.
ghost use Rattle.std.specs.Prelude.{◌≡◌};
ghost use Rattle.words.specs.Digits.{is_digit, digit_of, below_16, either_of, is_hex, front_byte, glyph_of};

// Whether a byte is a decimal digit.
#[tactic(auto, unfolding(crate::specs::Digits::is_digit))]
pub fn is_digit(b: u8) -> bool
    ensures { result ≡ is_digit b }
{
    b.is_ascii_digit()
}

// The value of a hex digit, 0 to 9 or A to F.
#[tactic(auto, unfolding(crate::specs::Digits::hex_of, crate::specs::Digits::is_digit, crate::specs::Digits::is_capital))]
pub fn hex(b: u8) -> Option<u8>
    ensures { result ≡ digit_of b }
{
    match b {
        b'0'..=b'9' => Some(b - b'0'),
        b'A'..=b'F' => Some(b - b'A' + 10),
        _ => None,
    }
}

// The value of a hex digit of either case.
#[tactic(auto, unfolding(crate::specs::Digits::either_of, crate::specs::Digits::raised_of, crate::specs::Digits::hex_of, crate::specs::Digits::is_digit, crate::specs::Digits::is_capital))]
fn either(b: u8) -> Option<u8>
    ensures { result ≡ below_16 (either_of b) }
{
    hex(b.to_ascii_uppercase())
}

// Whether a byte is a hex digit of either case.
#[tactic(auto, unfolding(crate::specs::Digits::is_hex))]
pub(crate) fn is_hex(b: u8) -> bool
    ensures { result ≡ is_hex b }
{
    either(b).is_some()
}

// The byte that the two hex digits at the front are, where two stand there.
#[tactic(auto, using(crate::proofs::Pairs::byte_short), unfolding(crate::specs::Digits::front_byte, crate::specs::Digits::is_hex, crate::specs::Digits::pair_of))]
pub(crate) fn pair(s: &[u8]) -> Option<u8>
    ensures { result ≡ front_byte s.now }
{
    match s {
        [high, low, ..] => Some(either(*high)? * 16 + either(*low)?),
        _ => None,
    }
}

// The last hex digit of a number, as it is written.
#[tactic(auto, unfolding(crate::specs::Digits::glyph_of))]
pub(crate) fn glyph(n: u8) -> u8
    ensures { result ≡ glyph_of n }
{
    match n % 16 {
        d @ 0..10 => b'0' + d,
        d => b'A' - 10 + d,
    }
}
