// Buffers of so many bytes. The one that a question lends is filled before the call, and looked at
// after it.
ghost use Rattle.std.specs.Prelude.{◌≡◌, length, replicate, drop};
ghost use Rattle.ask.specs.Lent.{filling, is_untouched};

// What a lent buffer holds before the call.
const FILLING: u8 = 0xEE;

// A line: a longer one is no question.
pub(crate) fn line() -> [u8; 66000]
    ensures { 66000 ≡ length result }
{
    [0; 66000]
}

// As many bytes as a line can have as hex digits.
pub(crate) fn bytes() -> [u8; 33000]
    ensures { 33000 ≡ length result }
{
    [0; 33000]
}

// The most data that is built.
pub(crate) fn data() -> [u8; 300]
    ensures { 300 ≡ length result }
{
    [0; 300]
}

// The most that is lent.
pub(crate) fn room() -> [u8; 20000]
    ensures { 20000 ≡ length result }
{
    [0; 20000]
}

// Fills a buffer.
pub(crate) fn fill(room: &mut [u8])
    ensures { room.new ≡ replicate (length room.old) filling }
{
    room.fill(FILLING);
}

// Whether a buffer is as it was filled, from a place on.
pub(crate) fn is_untouched(room: &[u8], from: usize) -> bool
    ensures { result ≡ is_untouched (drop from room.now) }
{
    room.iter().skip(from).all(|b| *b == FILLING)
}
