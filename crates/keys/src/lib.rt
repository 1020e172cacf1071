// Key bytes: which pairs are good, what KB1 announces, and which edition a pair chooses.
#![tactic(auto)]

ghost use Rattle.std.specs.Prelude.{◌≡◌};
ghost use Rattle.keys.specs.Keys.{length_in_format, extra_length, no_addresses, with_addresses, is_extended, good_pair, takes_form};
ghost use Rattle.keys.specs.Editions.{edition_of, is_car, is_quick, is_slow_pair};

// The form of a frame. Foreign is what is none of ours: mode 01 (CARB) of a format byte, or a form
// number above 2.
#[derive(Clone, Copy, Debug, PartialEq, Eq)]
pub enum Form {
    Plain,
    Physical,
    Functional,
    Foreign,
}

// A pair of key bytes, as a unit announces it.
#[derive(Clone, Copy, Debug, PartialEq, Eq)]
pub struct Pair {
    pub kb1: u8,
    pub kb2: u8,
}

// The edition that a unit's key bytes choose: ISO 14230, or ISO 9141-2 with 08 08 or with 94 94.
#[derive(Clone, Copy, Debug, PartialEq, Eq)]
pub enum Edition {
    Iso14230,
    Car08,
    Car94,
}

// The address that cars answer.
const CAR_ADDRESS: u8 = 0x33;

impl Pair {
    // Whether the pair is good.
    #[tactic(auto, using(crate::proofs::Masks::good_by_masks))]
    pub fn is_good(self) -> bool
        ensures { result ≡ good_pair self.kb1 self.kb2 }
    {
        self.kb2 == 0x8F
            && self.kb1.count_ones() % 2 == 1
            && self.kb1 & 0x40 != 0
            && (self.kb1 & 0x30).count_ones() == 1
            && self.kb1 & 0x03 != 0
            && self.kb1 & 0x0C != 0
    }

    // The edition that the pair chooses.
    #[tactic(auto, unfolding(crate::specs::Editions::edition_of))]
    pub fn edition(self) -> Edition
        ensures { result ≡ edition_of self }
    {
        match (self.kb1, self.kb2) {
            (0x08, 0x08) => Edition::Car08,
            (0x94, 0x94) => Edition::Car94,
            _ => Edition::Iso14230,
        }
    }

    // Whether the pair is a car's.
    #[tactic(auto, unfolding(crate::specs::Editions::is_car))]
    pub fn is_car(self) -> bool
        ensures { result ≡ is_car (edition_of self) }
    {
        matches!(self.edition(), Edition::Car08 | Edition::Car94)
    }

    // Whether a unit with this pair may answer at once.
    #[tactic(auto, unfolding(crate::specs::Editions::is_quick))]
    pub fn is_quick(self) -> bool
        ensures { result ≡ is_quick (edition_of self) }
    {
        self.edition() == Edition::Car94
    }

    // Whether the pair is right in a slow start from an address: a good one, or a car's from its address.
    #[tactic(auto, unfolding(crate::specs::Editions::is_slow_pair))]
    pub fn is_slow_from(self, address: u8) -> bool
        ensures { result ≡ is_slow_pair address self }
    {
        self.is_good() || address == CAR_ADDRESS && self.is_car()
    }
}

// Whether KB1 announces a length in the format byte.
#[tactic(auto, unfolding(crate::specs::Keys::length_in_format))]
pub fn length_in_format(kb1: u8) -> bool
    ensures { result ≡ length_in_format kb1 }
{
    kb1 & 0x01 != 0
}

// Whether KB1 announces an extra length byte.
#[tactic(auto, using(crate::proofs::Masks::extra_length_by_mask))]
pub fn extra_length(kb1: u8) -> bool
    ensures { result ≡ extra_length kb1 }
{
    kb1 & 0x02 != 0
}

// Whether KB1 announces frames with no addresses.
#[tactic(auto, using(crate::proofs::Masks::no_addresses_by_mask))]
pub fn no_addresses(kb1: u8) -> bool
    ensures { result ≡ no_addresses kb1 }
{
    kb1 & 0x04 != 0
}

// Whether KB1 announces frames with target and source.
#[tactic(auto, using(crate::proofs::Masks::with_addresses_by_mask))]
pub fn with_addresses(kb1: u8) -> bool
    ensures { result ≡ with_addresses kb1 }
{
    kb1 & 0x08 != 0
}

// Whether KB1 announces extended timing.
#[tactic(auto, using(crate::proofs::Masks::is_extended_by_mask))]
pub fn is_extended(kb1: u8) -> bool
    ensures { result ≡ is_extended kb1 }
{
    kb1 & 0x10 != 0
}

// Whether KB1 takes frames of a form.
#[tactic(auto, unfolding(crate::specs::Keys::takes_form))]
pub fn takes_form(kb1: u8, form: Form) -> bool
    ensures { result ≡ takes_form kb1 form }
{
    match form {
        Form::Plain => no_addresses(kb1),
        Form::Physical => with_addresses(kb1),
        Form::Functional => with_addresses(kb1) && !is_extended(kb1),
        Form::Foreign => false,
    }
}
