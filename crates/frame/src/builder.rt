// A frame built into a lent buffer.
ghost use Rattle.std.specs.Prelude.{◌≡◌, ◌+◌, ◌≤◌, ◌<◌, length, set, IfOk};
ghost use Rattle.base.specs.Refusals.{no_of};
ghost use Rattle.frame.specs.Layout.{addresses_of, extra_of, address_count, extra_count, head_size, head_of, frame_of};
ghost use Rattle.frame.specs.Build.{place_for, only_in, place_chosen, place_in, build_no, built_as, put, over, Builds, Writable};

use crate::{IN_EXTRA_BYTE, IN_FORMAT_BYTE, Place, Plan, SHORTEST, layout};
use base::Refusal;
use keys::Form;

// One place and no other: there if it is announced, for a length from 1 to the most that it holds.
#[tactic(auto, unfolding(crate::specs::Build::only_in))]
fn only_in(place: Place, announced: bool, n: usize, most: usize) -> Option<Place>
    ensures { result ≡ only_in place announced n most }
{
    (announced && 1 <= n && n <= most).then_some(place)
}

// Where a length goes that may stand in either place: in the format byte if it can.
#[tactic(auto, unfolding(crate::specs::Build::place_for, crate::specs::Build::only_in))]
fn place_for(kb1: u8, n: usize) -> Option<Place>
    ensures { result ≡ place_for kb1 n }
{
    let in_format = only_in(Place::Format, keys::length_in_format(kb1), n, 63);
    in_format.or(only_in(Place::Extra, keys::extra_length(kb1), n, 255))
}

// Where a length goes by the choice.
#[tactic(auto, unfolding(crate::specs::Build::place_chosen))]
fn place_chosen(choice: u8, kb1: u8, n: usize) -> Option<Place>
    ensures { result ≡ place_chosen choice kb1 n }
{
    match choice {
        SHORTEST => place_for(kb1, n),
        IN_FORMAT_BYTE => only_in(Place::Format, keys::length_in_format(kb1), n, 63),
        IN_EXTRA_BYTE => only_in(Place::Extra, keys::extra_length(kb1), n, 255),
        _ => None,
    }
}

// Where the length of n bytes goes under a plan.
fn place_in(p: Plan, n: usize) -> Option<Place>
    ensures { result ≡ place_in p n }
{
    place_chosen(p.choice, p.pair.kb1, n)
}

// Where the length of n bytes goes, if they can be built into a buffer of so many: else 5, 6, 7, 8 in this order.
#[tactic(auto, using(crate::proofs::Announced::place_small), unfolding(crate::specs::Build::build_no, crate::specs::Build::size_of, crate::specs::Layout::is_nowhere, base::specs::Refusals::number_of, base::specs::Refusals::no_of))]
fn place_allowed(p: Plan, n: usize, room: usize) -> Result<Place, Refusal>
    ensures number { no_of result ≡ build_no p n room }
    ensures place { IfOk result (λ place. place_in p n ≡ Some place) }
{
    let form = layout::form_numbered(p.form);
    if !p.pair.is_good() {
        return Err(Refusal::BadKeys);
    }
    if IN_EXTRA_BYTE < p.choice || !keys::takes_form(p.pair.kb1, form) {
        return Err(Refusal::BadForm);
    }
    let place = place_in(p, n).ok_or(Refusal::BadLength)?;
    let h = layout::head_size(form, place) as usize;
    if room < h + n + 1 {
        return Err(Refusal::NoRoom);
    }
    Ok(place)
}

// Writes the addresses after the format byte, and says where the next byte goes.
#[tactic(auto, unfolding(crate::specs::Layout::addresses_of, crate::specs::Layout::address_count))]
fn put_addresses(form: Form, target: u8, source: u8, out: &mut [u8]) -> usize
    requires { 1 + address_count form ≤ length out.old }
    ensures { (result ≡ 1 + address_count form) × (out.new ≡ put 1 (addresses_of form target source) out.old) }
{
    match form {
        Form::Plain | Form::Foreign => 1,
        Form::Physical | Form::Functional => {
            out[1..3].copy_from_slice(&[target, source]);
            3
        }
    }
}

// Writes the extra length byte, if any, and says where the next byte goes.
#[tactic(auto, unfolding(crate::specs::Layout::extra_of, crate::specs::Layout::extra_count))]
fn put_extra(place: Place, n: u8, at: usize, out: &mut [u8]) -> usize
    requires { at + extra_count (Some place) ≤ length out.old }
    ensures { (result ≡ at + extra_count (Some place)) × (out.new ≡ put at (extra_of (Some place) n) out.old) }
{
    match place {
        Place::Format => at,
        Place::Extra => {
            out[at] = n;
            at + 1
        }
    }
}

// Writes the format byte, the addresses and the extra length byte at the front, and says where the data goes.
#[tactic(auto, using(crate::proofs::Sizes::top_le, crate::proofs::Sizes::low_le), unfolding(crate::specs::Layout::head_size))]
fn put_head(form: Form, place: Place, p: Plan, n: u8, out: &mut [u8]) -> usize
    requires { Writable form (Some place) n (length out.old) }
    ensures { (result ≡ head_size form (Some place))
        × (out.new ≡ over (head_of form (Some place) p.target p.source n) out.old) }
{
    out[0] = layout::top_bits(form) + layout::low_bits(place, n);
    let a = put_addresses(form, p.target, p.source, out);
    put_extra(place, n, a, out)
}

// Writes one byte, and nothing after it.
fn put_byte(x: u8, at: usize, out: &mut [u8])
    requires { at < length out.old }
    ensures { out.new ≡ set out.old at x }
{
    out[at] = x;
}

// Writes a frame at the front of a buffer that has room for it.
fn write(form: Form, place: Place, p: Plan, bytes: &[u8], out: &mut [u8]) -> usize
    requires { Writable form (Some place) (length bytes.now) (length out.old) }
    ensures { (result ≡ head_size form (Some place) + length bytes.now + 1)
        × (out.new ≡ over (frame_of form (Some place) p.target p.source bytes.now) out.old) }
{
    let n = bytes.len();
    let h = put_head(form, place, p, n as u8, out);
    let e = h + n;
    out[h..e].copy_from_slice(bytes);
    put_byte(layout::checksum(&out[..e]), e, out);
    e + 1
}

// Builds a frame at the front of `out`, with the length in the place chosen, and touches nothing after it: how long it is.
// A refusal touches nothing at all: 5 the key bytes, 6 the choice or the form, 7 the length or its place, 8 the room, the first
// that applies.
#[tactic(auto, unfolding(crate::specs::Build::planned))]
pub fn build(p: Plan, bytes: &[u8], out: &mut [u8]) -> Result<usize, Refusal>
    ensures { Builds p bytes.now out.old (built_as result) out.new }
{
    let place = place_allowed(p, bytes.len(), out.len())?;
    Ok(write(layout::form_numbered(p.form), place, p, bytes, out))
}
