//! How many numbers have so many edges that are no greater than they.
ghost use Rattle.std.specs.Prelude.{◌≡◌, ◌+◌, ◌<◌, ◌^◌, length, map, replicate};
ghost use Rattle.std.specs.Prelude.{IfSome};
ghost use Rattle.awk_bins.specs.Even.{AreEven};
ghost use Rattle.awk_bins.specs.Near.{AreNear};
ghost use Rattle.awk_bins.specs.Tallies as spec;

use crate::edges::{Edges, edges_up_to};
use crate::number::Number;

/// Counts set back to 0.
fn clear(tallies: &mut [u64])
    ensures { tallies.new ≡ replicate (length tallies.old) 0 }
{
    tallies.fill(0);
}

/// The tallies of numbers, put in place of others.
pub(crate) fn tally_row<N: Number>(row: &[N], edges: &Edges<N>, tallies: &mut [u64])
    requires edges { AreNear N.least N.greatest edges.now.all.now
        (map N.number edges.now.near.now) }
    requires even { IfSome edges.now.even (λ e. AreEven (N.number e.base) e.step
        (map N.number edges.now.near.now)) }
    requires size { length tallies.old ≡ length edges.now.all.now + 1 }
    requires few { length row.now < 2 ^ 63 }
    ensures { tallies.new ≡ spec.tallies edges.now.all.now (map N.number row.now) }
{
    clear(tallies);
    for i in 0..row.len() {
        tallies[edges_up_to(edges, &row[i])] += 1;
    }
}
