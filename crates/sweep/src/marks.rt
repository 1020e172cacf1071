// Digests, made-up numbers and tallies.
ghost use Rattle.std.specs.Prelude.{◌<◌, ◌≤◌};

use std::fmt;

// A digest with one number more.
pub(crate) fn mix(d: u32, x: u32) -> u32 {
    d.wrapping_mul(31).wrapping_add(x)
}

// A digest with a number of 64 bits more: its upper half, and its lower.
pub(crate) fn mix_wide(d: u32, x: u64) -> u32 {
    mix(mix(d, (x >> 32) as u32), (x & 0xFFFF_FFFF) as u32)
}

// A digest with all bytes of a slice more.
pub(crate) fn mix_all(d: u32, s: &[u8]) -> u32 {
    s.iter().fold(d, |d, &b| mix(d, u32::from(b)))
}

// A run of made-up numbers, by the one that it came to. Of each only the upper bits are used.
#[derive(Clone, Copy)]
pub(crate) struct MadeUp(pub(crate) u32);

impl MadeUp {
    // The next of them.
    pub(crate) fn next(&mut self) -> MadeUp {
        self.0 = self.0.wrapping_mul(1_664_525).wrapping_add(1_013_904_223);
        *self
    }

    // The upper bits.
    pub(crate) fn upper(self) -> u32
        ensures { result ≤ 65_535 }
    {
        self.0 >> 16
    }

    // The next as a byte.
    pub(crate) fn byte(&mut self) -> u8 {
        (self.next().upper() & 0xFF) as u8
    }

    // The next as a number below n.
    pub(crate) fn below(&mut self, n: u32) -> u32
        requires { 0 < n }
        ensures { result < n }
    {
        self.next().upper() % n
    }
}

// What a run of cases came to: a digest of all answers, how many were taken, and how many came back
// (codes that their windows have as codes, slices that read well).
#[derive(Clone, Copy, Default)]
pub(crate) struct Tally {
    pub(crate) digest: u32,
    taken: u32,
    back: u32,
}

impl Tally {
    // The tally with one case more.
    pub(crate) fn with(self, digest: u32, taken: bool, back: bool) -> Tally {
        Tally {
            digest,
            taken: self.taken.saturating_add(u32::from(taken)),
            back: self.back.saturating_add(u32::from(back)),
        }
    }
}

impl fmt::Display for Tally {
    fn fmt<W: fmt::Write>(&self, f: &mut fmt::Formatter<W>) -> fmt::Result {
        let Tally {
            digest,
            taken,
            back,
        } = *self;
        write!(
            f,
            "  taken: {taken}\n  came back: {back}\n  digest: {digest}"
        )
    }
}
