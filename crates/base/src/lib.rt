// What a caller may get back: refusals, and the reasons and numbers of reports (`specs/Numbers.antt` and `specs/Reports.antt` have
// their numbers for the definitions); sums and choices that several crates use.
#![tactic(auto)]

ghost use Rattle.std.specs.Prelude.{◌≡◌, if◌then◌else◌};
ghost use Rattle.base.specs.Sums.{byte_sum, count_sum};

pub mod reason;
pub mod report;

// Why a call refuses: each by the number that the caller may get back.
#[derive(Clone, Copy, Debug, PartialEq, Eq)]
pub enum Refusal {
    Unknown = 1,
    TooLate,
    OutOfOrder,
    TooMany,
    BadKeys,
    BadForm,
    BadLength,
    NoRoom,
    BadChecksum,
    BadTiming,
}

impl From<Refusal> for u8 {
    ghost use Rattle.base.specs.Refusals.{number_of};

    ghost from_gives = { λ why n. n ≡ number_of why };

    #[tactic(auto, unfolding(crate::specs::Refusals::number_of))]
    fn from(why: Refusal) -> u8 {
        why as u8
    }
}

// The number of what is not refused.
pub const TAKEN: u8 = 0;

// One value or another.
pub fn either<T: Copy>(first: bool, a: T, b: T) -> T
    ensures { result ≡ (if first then a else b) }
{
    if first { a } else { b }
}

// The sum of two bytes modulo 256.
#[tactic(auto, unfolding(crate::specs::Sums::byte_sum))]
pub fn byte_sum(a: u8, b: u8) -> u8
    ensures { result ≡ byte_sum a b }
{
    a.wrapping_add(b)
}

// The sum of two counts, which stops at the greatest.
#[tactic(auto, unfolding(crate::specs::Sums::count_sum))]
pub fn count_sum(a: u64, b: u64) -> u64
    ensures { result ≡ count_sum a b }
{
    a.saturating_add(b)
}
