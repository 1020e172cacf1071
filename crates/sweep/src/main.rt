// Runs the leaves over many inputs, good and bad, and prints what came as counts and digests.
// `tests/reference.py`, written apart from the definitions, works the same lines out of the rules.
#![tactic(auto)]

mod frames;
mod marks;
mod times;

use keys::Pair;
use marks::{MadeUp, Tally, mix};
use std::io;

// One pair of key bytes: a good one counts as taken, and is mixed.
fn pair_case(t: Tally, pair: Pair) -> Tally {
    if !pair.is_good() {
        return t;
    }
    t.with(
        mix(mix(t.digest, u32::from(pair.kb1)), u32::from(pair.kb2)),
        true,
        false,
    )
}

// Runs so many cases, and prints what came.
fn part<F: FnMut(Tally, u32) -> Tally>(
    rt: &impl Print,
    what: &str,
    n: u32,
    case: F,
) -> io::Result<()>
    requires { (state : F) (t : _) (i : _) → F.pre state t i }
{
    let tally = (0..n).fold(Tally::default(), case);
    println!(rt; "{what}\n{tally}")
}

fn main(rt: HostRuntime) -> io::Result<()> {
    part(&rt, "each pair of key bytes", 65536, |t, i| {
        let [_, _, kb1, kb2] = i.to_be_bytes();
        pair_case(t, Pair { kb1, kb2 })
    })?;
    part(
        &rt,
        "each code of P2 and P3 max, P3 min with P4 min, and P2 min about P2 max",
        66063,
        |t, i| times::codes_case(t, times::listed_codes(i)),
    )?;
    part(&rt, "20000 made-up codes", 20000, |t, i| {
        times::codes_case(t, times::made_codes(MadeUp(mix(3, i))))
    })?;
    part(
        &rt,
        "the set of each KB1",
        256,
        |t, i| times::set_case(t, (i % 256) as u8),
    )?;
    part(
        &rt,
        "20000 made-up plans, built by choice 0 and read",
        20000,
        |t, i| frames::frame_case(t, mix(5, i), frame::SHORTEST),
    )?;
    part(&rt, "the same plans by choice 1", 20000, |t, i| {
        frames::frame_case(t, mix(5, i), frame::IN_FORMAT_BYTE)
    })?;
    part(&rt, "the same plans by choice 2", 20000, |t, i| {
        frames::frame_case(t, mix(5, i), frame::IN_EXTRA_BYTE)
    })?;
    part(
        &rt,
        "the same plans by choice 3",
        20000,
        |t, i| frames::frame_case(t, mix(5, i), 3),
    )?;
    part(
        &rt,
        "20000 made-up slices, read",
        20000,
        |t, i| frames::slice_case(t, mix(6, i)),
    )
}
