//! Numbers in blocks of eight, and the last eight beside them: few numbers are read without a
//! branch at each, since no rest is less than a block.
ghost use Rattle.std.specs.Prelude.{◌≡◌, ◌≤◌, ◌*◌, ◌/◌, ◌-◌, ◌==◌, ◌||◌};
ghost use Rattle.std.specs.Prelude.{not, nat_lt, length, take, drop};
ghost use Rattle.std.specs.List.{flat_map};

/// Whether numbers of W bytes are read in blocks of eight: not where they are few, nor where each
/// has eight bytes, of which a block gains nothing.
#[inline(always)]
pub(crate) fn has_blocks<const W: usize>(count: usize) -> bool
    ensures { result ≡ not (W == 8 || nat_lt count 8) }
{
    if W == 8 { false } else { count >= 8 }
}

/// The blocks of eight as far as they go, and the last eight, which may stand in both.
#[inline(always)]
pub(crate) fn eights_of<'a, const W: usize>(
    groups: &'a [[u8; W]],
) -> (&'a [[[u8; W]; 8]], &'a [[u8; W]])
    requires { 8 ≤ length groups.now }
    ensures front { flat_map (λ b. b) result.0.now ≡ take (length groups.now / 8 * 8) groups.now }
    ensures last { result.1.now ≡ drop (length groups.now - 8) groups.now }
{
    let (blocks, _) = groups.as_chunks::<8>();
    (blocks, &groups[groups.len() - 8..groups.len()])
}
