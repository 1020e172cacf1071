// A frame's layout, which building and reading share: forms, places, sizes, the checksum.
ghost use Rattle.std.specs.Prelude.{◌≡◌};
ghost use Rattle.frame.specs.Layout.{form_numbered, number_of, top_bits, format_form, low_bits};
ghost use Rattle.frame.specs.Layout.{address_count, extra_count, head_size, checksum_of, carried};

use crate::Place;
use keys::Form;

// The form that a number names.
#[tactic(auto, unfolding(crate::specs::Layout::form_numbered))]
pub(crate) fn form_numbered(n: u8) -> Form
    ensures { result ≡ form_numbered n }
{
    match n {
        0 => Form::Plain,
        1 => Form::Physical,
        2 => Form::Functional,
        _ => Form::Foreign,
    }
}

// The number of a form: 0 none, 1 physical, 2 functional, and 3 for what is none of ours.
pub fn number_of(form: Form) -> u8
    ensures { result ≡ number_of form }
{
    match form {
        Form::Plain => 0,
        Form::Physical => 1,
        Form::Functional => 2,
        Form::Foreign => 3,
    }
}

// The top two bits of a form's format byte.
pub(crate) fn top_bits(form: Form) -> u8
    ensures { result ≡ top_bits form }
{
    match form {
        Form::Plain => 0x00,
        Form::Foreign => 0x40,
        Form::Physical => 0x80,
        Form::Functional => 0xC0,
    }
}

// The form that a format byte names.
#[tactic(auto, unfolding(crate::specs::Layout::format_form))]
pub fn format_form(f: u8) -> Form
    ensures { result ≡ format_form f }
{
    match f / 64 {
        0b00 => Form::Plain,
        0b01 => Form::Foreign,
        0b10 => Form::Physical,
        _ => Form::Functional,
    }
}

// The low six bits of the format byte for a length.
#[tactic(auto, unfolding(crate::specs::Layout::low_bits))]
pub(crate) fn low_bits(place: Place, n: u8) -> u8
    ensures { result ≡ low_bits (Some place) n }
{
    match place {
        Place::Format => n,
        Place::Extra => 0,
    }
}

// How many address bytes a form carries.
#[tactic(auto, unfolding(crate::specs::Layout::address_count))]
pub(crate) fn address_count(form: Form) -> u8
    ensures { result ≡ address_count form }
{
    match form {
        Form::Plain | Form::Foreign => 0,
        Form::Physical | Form::Functional => 2,
    }
}

// How many extra length bytes there are.
#[tactic(auto, unfolding(crate::specs::Layout::extra_count))]
pub(crate) fn extra_count(place: Place) -> u8
    ensures { result ≡ extra_count (Some place) }
{
    match place {
        Place::Format => 0,
        Place::Extra => 1,
    }
}

// How many bytes stand before the data.
#[tactic(auto, using(crate::proofs::Sizes::address_le, crate::proofs::Sizes::extra_le), unfolding(crate::specs::Layout::head_size))]
pub(crate) fn head_size(form: Form, place: Place) -> u8
    ensures { result ≡ head_size form (Some place) }
{
    1 + address_count(form) + extra_count(place)
}

// An address as a frame of this form carries it.
#[tactic(auto, unfolding(crate::specs::Layout::carried))]
pub(crate) fn carried_by(form: Form, address: u8) -> u8
    ensures { result ≡ carried form address }
{
    match form {
        Form::Plain | Form::Foreign => 0,
        Form::Physical | Form::Functional => address,
    }
}

// The sum of all bytes, modulo 256.
#[tactic(auto, using(crate::proofs::Lists::checksum_folds))]
pub(crate) fn checksum(s: &[u8]) -> u8
    ensures { result ≡ checksum_of s.now }
{
    s.iter().fold(0, |sum: u8, x| sum.wrapping_add(*x))
}
