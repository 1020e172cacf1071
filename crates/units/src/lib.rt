// Microseconds, and the steps that timing codes count in. One is turned into another only here:
// whoever else holds a time or a number of steps holds it in its own type.
#![tactic(auto)]

ghost use Rattle.std.specs.Prelude.{◌≡◌};
ghost use Rattle.units.specs.Units.{steps_by, byte_of, micros_of, steps_of, gap_of};

// A time, or a length of time, in microseconds. `a < b` is `is_earlier a b`, and `a == b` is `is_same a b`.
#[derive(Clone, Copy, Debug, PartialEq, Eq, PartialOrd, Ord)]
pub struct Micros(pub u64);

// So many steps, each of LENGTH microseconds.
#[derive(Clone, Copy, Debug, PartialEq, Eq, PartialOrd, Ord)]
pub struct Steps<const LENGTH: u32>(pub u32);

// So many steps of 0.5 ms.
pub type HalfMs = Steps<500>;

// So many steps of 25 ms.
pub type Step25 = Steps<25_000>;

// So many steps of 250 ms.
pub type Step250 = Steps<250_000>;

impl<const LENGTH: u32> Steps<LENGTH> {
    // As many steps as a code byte counts.
    pub fn by_code(code: u8) -> Self
        ensures { result ≡ steps_by LENGTH code }
    {
        Steps(u32::from(code))
    }

    // The code byte that counts so many steps, or the greatest.
    #[tactic(auto, unfolding(crate::specs::Units::byte_of))]
    pub fn code(self) -> u8
        ensures { result ≡ byte_of self.entry.0 }
    {
        u8::try_from(self.0).unwrap_or(u8::MAX)
    }

    // The steps as microseconds.
    pub fn micros(self) -> Micros
        ensures { result ≡ micros_of LENGTH self.entry }
    {
        Micros(u64::from(self.0) * u64::from(LENGTH))
    }

    // The whole steps in a time, or the most that there can be; none where a step has no length.
    #[tactic(auto, unfolding(crate::specs::Units::whole_steps))]
    pub fn of(m: Micros) -> Self
        ensures { result ≡ steps_of LENGTH m }
    {
        let whole = m.0.checked_div(u64::from(LENGTH)).unwrap_or(0);
        Steps(u32::try_from(whole).unwrap_or(u32::MAX))
    }
}

// The time from one time to a later one, and 0 where it is not later.
pub fn gap(from: Micros, to: Micros) -> Micros
    ensures { result ≡ gap_of from to }
{
    Micros(to.0.saturating_sub(from.0))
}
