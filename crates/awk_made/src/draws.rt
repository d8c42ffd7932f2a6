//! The events that a seed determines, as the bytes of their columns.
ghost use Rattle.std.specs.Prelude.{◌≡◌, ◌<◌, ◌≤◌, ◌+◌, ◌*◌, ◌++◌, ◌∷◌, [], OnOk, IfOk, length};
ghost use Rattle.std.specs.Int.{to_le_bytes, cast_unsigned, w8};
ghost use Rattle.std.specs.List.{flat_map};
ghost use Rattle.awk_made.specs.Draws.{muons, events, after_draws, charge_of};
ghost use Rattle.awk_made.specs.Draws as drawn;
ghost use Rattle.awk_made.specs.Session.{number_bytes, offsets_bytes, stops, pt_bytes};
ghost use Rattle.awk_made.specs.Session.{charge_bytes, pts_bytes, charges_bytes};

use crate::NoMemory;
use std::alloc::Global;

/// The bytes of the three columns of some events.
#[derive(Drop)]
pub struct Drawn {
    pub offsets: Vec<u8>,
    pub pts: Vec<u8>,
    pub charges: Vec<u8>,
}

// The draw that follows a draw.
fn draw(s: u64) -> u64
    requires { s < 2147483647 }
    ensures value { result ≡ drawn.draw s }
    ensures range { result < 2147483647 }
{
    48_271 * s % 2_147_483_647
}

// The byte of the charge that a draw says.
fn charge_byte(d: u64) -> u8
    ensures { result ∷ [] ≡ to_le_bytes w8 (cast_unsigned w8 (charge_of d)) }
{
    if d % 2 == 0 { 255 } else { 1 }
}

// Adds the next n muons, and answers their last draw.
fn push_muons(n: u64, seed: u64, pts: &mut Vec<u8>, charges: &mut Vec<u8>) -> Result<u64, NoMemory>
    requires below { seed < 2147483647 }
    requires few { n ≤ 3 }
    ensures last { IfOk result (λ s. (s ≡ after_draws (2 * n) seed) × (s < 2147483647)) }
    ensures pts { OnOk result (pts.new.items ≡ pts.old.items ++ pt_bytes (muons n seed)) }
    ensures charges { OnOk result
        (charges.new.items ≡ charges.old.items ++ charge_bytes (muons n seed)) }
{
    let mut s = seed;
    for _i in 0..n {
        let first = draw(s);
        let second = draw(first);
        pts.extend_from_slice(&(first % 99_000 + 1_000).to_le_bytes())?;
        charges.push(charge_byte(second))?;
        s = second;
    }
    Ok(s)
}

/// The columns of the next n events.
pub fn draw_events(alloc: Global, seed: u64, n: u64) -> Result<Drawn, NoMemory>
    requires below { seed < 2147483647 }
    requires few { n ≤ 1000000 }
    ensures offsets { IfOk result (λ c. c.offsets.items ≡ offsets_bytes (events n seed)) }
    ensures pts { IfOk result (λ c. c.pts.items ≡ pts_bytes (events n seed)) }
    ensures charges { IfOk result (λ c. c.charges.items ≡ charges_bytes (events n seed)) }
{
    let mut offsets = Vec::new(alloc);
    let mut pts = Vec::new(alloc);
    let mut charges = Vec::new(alloc);
    let mut s = seed;
    let mut count: u64 = 0;
    offsets.extend_from_slice(&count.to_le_bytes())?;
    for i in 0..n {
        let next = draw(s);
        let muons = next % 4;
        s = push_muons(muons, next, &mut pts, &mut charges)?;
        count += muons;
        offsets.extend_from_slice(&count.to_le_bytes())?;
    }
    Ok(Drawn {
        offsets,
        pts,
        charges,
    })
}
