// A frame read from a slice, and its data as a part of the slice.
ghost use Rattle.std.specs.Prelude.{◌≡◌, ◌%◌, eqb, get_or};
ghost use Rattle.frame.specs.Read.{place_read, length_read, laid_as, laid_of, read_as, judged, read_of, DataIn};

use crate::{Frame, Front, Place, layout};
use base::Refusal;
use keys::Pair;

// Whether a format byte leaves the length to an extra byte.
fn has_extra(f: u8) -> bool
    ensures { result ≡ eqb (f % 64) 0 }
{
    f % 64 == 0
}

// Where the length of a frame with this format byte stands.
#[tactic(auto, unfolding(crate::specs::Read::place_read))]
fn place_read(kb1: u8, f: u8) -> Option<Place>
    ensures { result ≡ place_read kb1 f }
{
    if has_extra(f) {
        keys::extra_length(kb1).then_some(Place::Extra)
    } else {
        keys::length_in_format(kb1).then_some(Place::Format)
    }
}

// The byte at an index, 0 where the slice has none.
fn byte_at(s: &[u8], i: usize) -> u8
    ensures { result ≡ get_or s.now i 0 }
{
    s.get(i).copied().unwrap_or(0)
}

// How many data bytes there are: the low six bits of the format byte, or where these are 0 the byte at an index of the slice.
#[tactic(auto, unfolding(crate::specs::Read::length_read))]
fn length_read(s: &[u8], f: u8, at: usize) -> u8
    ensures { result ≡ length_read s.now f at }
{
    if has_extra(f) { byte_at(s, at) } else { f % 64 }
}

// What the front of a slice says of a frame that starts there.
#[tactic(auto, unfolding(crate::specs::Read::laid_of, crate::specs::Layout::is_nowhere, base::specs::Refusals::number_of))]
fn lay_out(kb1: u8, s: &[u8]) -> Result<Front, Refusal>
    ensures { laid_as result ≡ laid_of kb1 s.now }
{
    let f = *s.first().ok_or(Refusal::BadLength)?;
    let form = layout::format_form(f);
    if !keys::takes_form(kb1, form) {
        return Err(Refusal::BadForm);
    }
    let place = place_read(kb1, f).ok_or(Refusal::BadLength)?;
    let len = length_read(s, f, 1 + layout::address_count(form) as usize);
    if len == 0 {
        return Err(Refusal::BadLength);
    }
    Ok(Front {
        form,
        start: layout::head_size(form, place),
        len,
    })
}

// Judges whether a slice is exactly the frame that its front lays out: it ends after the checksum, which the length does not
// count.
#[tactic(auto, unfolding(crate::specs::Read::judged, base::specs::Refusals::number_of))]
fn judge(s: &[u8], front: Front) -> Result<Frame, Refusal>
    ensures { read_as result ≡ judged s.now (laid_as (Ok front)) }
{
    let start = front.start as usize;
    let len = front.len as usize;
    let e = start + len;
    if s.len() != e + 1 {
        return Err(Refusal::BadLength);
    }
    if layout::checksum(&s[..e]) != s[e] {
        return Err(Refusal::BadChecksum);
    }
    Ok(Frame {
        form: front.form,
        target: layout::carried_by(front.form, byte_at(s, 1)),
        source: layout::carried_by(front.form, byte_at(s, 2)),
        start,
        len,
    })
}

// Reads a slice that must be exactly one frame: 5 the key bytes, 7 an empty slice, 6 the form, 7 the length, 9 the checksum,
// the first that applies.
#[tactic(auto, unfolding(crate::specs::Read::read_of, crate::specs::Read::judged, base::specs::Refusals::number_of))]
pub fn read(pair: Pair, s: &[u8]) -> Result<Frame, Refusal>
    ensures { read_as result ≡ read_of pair.kb1 pair.kb2 s.now }
{
    if !pair.is_good() {
        return Err(Refusal::BadKeys);
    }
    judge(s, lay_out(pair.kb1, s)?)
}

// The data of a frame, as a part of the slice; an empty part of what is no frame.
#[tactic(auto, using(crate::proofs::Within::read_inside), unfolding(crate::specs::Read::data_of))]
pub fn contents(pair: Pair, s: &[u8]) -> &[u8]
    ensures { DataIn pair.kb1 pair.kb2 s.entry result }
{
    match read(pair, s) {
        Ok(frame) => &s[frame.start..frame.start + frame.len],
        Err(_) => &s[..0],
    }
}
