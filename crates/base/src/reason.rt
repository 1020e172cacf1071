// The reasons of reports. Each has the paper's number, which is what a report says: `specs/Reports.antt` has the numbers and
// what each means, `specs/Reasons.antt` and `specs/Failures.antt` which is whose.
ghost use Rattle.std.specs.Prelude.{◌≡◌};

// Where none is named. Messages and reports hold a number, of a reason or this one.
pub const NONE: u8 = 0;

// Why what came is damage.
#[derive(Clone, Copy, Debug, PartialEq, Eq)]
pub enum Damage {
    BrokenOff = 1,
    Closed,
    Early,
    Stray,
    ModeOne,
    WrongForm,
    OtherSide,
    WrongLength,
    WrongSum,
}

impl From<Damage> for u8 {
    ghost use Rattle.base.specs.Reasons.{damage_number};

    ghost from_gives = { λ why n. n ≡ damage_number why };

    #[tactic(auto, unfolding(crate::specs::Reasons::damage_number))]
    fn from(why: Damage) -> u8 {
        why as u8
    }
}

// Why an initialization fails.
#[derive(Clone, Copy, Debug, PartialEq, Eq)]
pub enum Failure {
    WindowOver = 1,
    Closed,
    WrongLow,
    WrongSide,
    TooEarly,
    Misfit,
}

impl From<Failure> for u8 {
    ghost use Rattle.base.specs.Failures.{failure_number};

    ghost from_gives = { λ why n. n ≡ failure_number why };

    #[tactic(auto, unfolding(crate::specs::Failures::failure_number))]
    fn from(why: Failure) -> u8 {
        why as u8
    }
}

// Why a connected link goes down.
#[derive(Clone, Copy, Debug, PartialEq, Eq)]
pub enum Down {
    Stopped = 1,
    IdleOver,
    Dropped,
    Restarted,
}

impl From<Down> for u8 {
    ghost use Rattle.base.specs.Reasons.{down_number};

    ghost from_gives = { λ why n. n ≡ down_number why };

    #[tactic(auto, unfolding(crate::specs::Reasons::down_number))]
    fn from(why: Down) -> u8 {
        why as u8
    }
}
