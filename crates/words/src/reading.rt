// Words read at a place of a line. A word other than the first is read with the space before it. Each
// function answers the place after its word, where the next one is read; at the place 0 no word has
// ended, and nothing is read there.
ghost use Rattle.std.specs.Prelude.{◌≡◌, ◌+◌, ◌*◌, ◌≤◌, length, drop, IfSome};
ghost use Rattle.base.specs.Sums.{greatest};
ghost use Rattle.words.specs.Digits.{is_digit, is_hex};
ghost use Rattle.words.specs.Writing.{put};
ghost use Rattle.words.specs.Reading.{start_of, is_end, first_word, word_at, byte_at};
ghost use Rattle.words.specs.Reading.{number_at, number_by, held, run_of, pairs_in, bytes_in, pairs, ReadsBytes};

use crate::{DASH, SPACE, Word, digits};

// Where the next word starts, after the one that ended at `at`.
#[tactic(auto, unfolding(crate::specs::Reading::start_of))]
fn start(s: &[u8], at: usize) -> Option<usize>
    ensures place { result ≡ start_of s.now at }
    ensures within { IfSome result (λ w. (w ≡ at + 1) × (w ≤ length s.now)) }
{
    match s.get(at) {
        Some(&SPACE) if 0 < at => Some(at + 1),
        _ => None,
    }
}

// Whether the line ends here.
#[tactic(auto, unfolding(crate::specs::Reading::is_end))]
pub fn is_end(s: &[u8], at: usize) -> bool
    ensures { result ≡ is_end s.now at }
{
    0 < at && at == s.len()
}

// The place after these letters at the front of the line. That the word ends there is seen by what is
// read next.
#[tactic(auto, unfolding(crate::specs::Reading::first_word))]
pub fn read_first(s: &[u8], name: &[u8]) -> Option<usize>
    ensures place { result ≡ first_word s.now name.now }
    ensures within { IfSome result (λ n. n ≤ length s.now) }
{
    s.starts_with(name).then_some(name.len())
}

// The place after these letters where the next word starts.
#[tactic(auto, unfolding(crate::specs::Reading::word_at))]
pub fn read_word(s: &[u8], at: usize, name: &[u8]) -> Option<usize>
    ensures { result ≡ word_at s.now at name.now }
{
    let w = start(s, at)?;
    let n = read_first(&s[w..], name)?;
    Some(w + n)
}

// A byte, by two hex digits.
#[tactic(auto, unfolding(crate::specs::Reading::byte_at))]
pub fn read_byte(s: &[u8], at: usize) -> Option<Word<u8>>
    ensures { result ≡ byte_at s.now at }
{
    let w = start(s, at)?;
    let value = digits::pair(&s[w..])?;
    Some(Word { value, to: w + 2 })
}

// The number that the decimal digits at the front are, if 64 bits hold it.
#[tactic(auto, using(crate::proofs::Runs::number_on, crate::proofs::Runs::number_over, crate::proofs::Runs::number_stop, crate::proofs::Runs::number_end, crate::proofs::Within::digit_within))]
fn number_of(s: &[u8]) -> Option<u64>
    ensures { result ≡ held (number_by 0 s.now) }
{
    let mut n: u64 = 0;
    for b in s {
        if !digits::is_digit(*b) {
            break;
        }
        n = n.checked_mul(10)?.checked_add((*b - b'0') as u64)?;
    }
    Some(n)
}

// How many decimal digits stand at the front.
fn digit_run(s: &[u8]) -> usize
    ensures count { result ≡ run_of is_digit s.now }
    ensures within { result ≤ length s.now }
{
    s.iter().take_while(|b| digits::is_digit(**b)).count()
}

// A decimal number of any number of digits, if it is `most` or less.
#[tactic(auto, unfolding(crate::specs::Reading::number_at, crate::specs::Reading::number_in))]
pub fn read_number(s: &[u8], at: usize, most: u64) -> Option<Word<u64>>
    ensures word { result ≡ number_at s.now at most }
    ensures within { IfSome result (λ r. r.value ≤ most) }
{
    let w = start(s, at)?;
    let n = digit_run(&s[w..]);
    if n == 0 {
        return None;
    }
    let value = number_of(&s[w..])?;
    (value <= most).then_some(Word { value, to: w + n })
}

// How many hex digits stand at the front. (One function over the test would need clauses on a closure,
// longer than both.)
fn hex_run(s: &[u8]) -> usize
    ensures count { result ≡ run_of is_hex s.now }
    ensures within { result ≤ length s.now }
{
    s.iter().take_while(|b| digits::is_hex(**b)).count()
}

// How many bytes so many hex digits are, `most` or fewer, and the place after them.
#[tactic(auto, unfolding(crate::specs::Reading::pairs_in))]
fn pairs_in(w: usize, n: usize, most: usize) -> Option<Word<usize>>
    requires { w + n ≤ greatest }
    ensures word { result ≡ pairs_in w n most }
    ensures within { IfSome result (λ r. (2 * r.value ≤ n) × (r.value ≤ most)) }
{
    if n == 0 || n % 2 != 0 || most < n / 2 {
        return None;
    }
    Some(Word {
        value: n / 2,
        to: w + n,
    })
}

// How many bytes stand at a place, `most` or fewer, and the place after them.
#[tactic(auto, unfolding(crate::specs::Reading::bytes_in))]
fn bytes_in(s: &[u8], most: usize, w: usize) -> Option<Word<usize>>
    requires { w ≤ length s.now }
    ensures word { result ≡ bytes_in s.now most w }
    ensures within { IfSome result (λ r. (2 * r.value ≤ run_of is_hex (drop w s.now)) × (w + 2 * r.value ≤ length s.now) × (r.value ≤ most)) }
{
    if s.get(w) == Some(&DASH) {
        return Some(Word {
            value: 0,
            to: w + 1,
        });
    }
    let n = hex_run(&s[w..]);
    pairs_in(w, n, most)
}

// Puts the first k bytes that stand at the front as hex digits at the front of a buffer.
#[tactic(auto, using(crate::proofs::Written::put_nil, crate::proofs::Pairs::byte_there, crate::proofs::Pairs::decoded_on), unfolding(crate::specs::Reading::pairs))]
fn decode(s: &[u8], k: usize, out: &mut [u8])
    requires { (2 * k ≤ run_of is_hex s.now) × (2 * k ≤ length s.now) × (k ≤ length out.old) }
    ensures { out.new ≡ put 0 (pairs k s.now) out.old }
{
    for i in 0..k {
        out[i] = digits::pair(&s[2 * i..]).unwrap();
    }
}

// Bytes by their hex digits, or `-` for none, if the buffer has room for them: they are put at its
// front, and nothing after them.
#[tactic(auto, unfolding(crate::specs::Reading::bytes_at, crate::specs::Reading::with_read))]
pub fn read_bytes(s: &[u8], at: usize, out: &mut [u8]) -> Option<Word<usize>>
    ensures bytes { ReadsBytes s.now at out.old result out.new }
    ensures within { IfSome result (λ r. r.value ≤ length out.new) }
{
    let w = start(s, at)?;
    let word = bytes_in(s, out.len(), w)?;
    decode(&s[w..], word.value, out);
    Some(word)
}
