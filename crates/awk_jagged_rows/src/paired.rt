//! The rows of two columns of lists in pairs, as lists below.
ghost use Rattle.std.specs.Prelude.{◌≡◌, ◌+◌, ◌<◌, ◌^◌, IfSome};
ghost use Rattle.awk_lanes.specs.Numbers.{int_of, IsOf};
ghost use Rattle.awk_lanes.specs.Places.{size_of, place_at};
ghost use Rattle.awk_lanes.specs.declared.kind.Kind.TheVariants as Kinds;
ghost use Rattle.awk_layout.specs.Valid.{len};
ghost use Rattle.awk_columns.specs.Lists.{span_length};
ghost use Rattle.awk_jagged_rows.specs.Rows as rows;
ghost use Rattle.awk_jagged_rows.specs.Rows.{AreReady};

use crate::row_lists::RowLists;
use awk_columns::Lists;
use awk_lanes::{Items, Lengths, Num, Steps, number, place_in};
use std::sync::ledger::Ledger;

/// Where item k of list i lies in the content.
fn item_place<L: Ledger>(lists: &Lists, i: u64, k: u64, steps: &mut Steps<L>) -> u64
    requires list { i < size_of lists.now.starts }
    requires item { k < span_length lists.now.starts lists.now.stops i }
    ensures place { result ≡ place_at lists.now.starts i + k }
    ensures within { result < len lists.now.content }
    ensures small { result < 2 ^ 63 }
{
    let _ = lists.content().len();
    place_in(lists.starts(), i, steps) + k
}

/// The list of a row that is present in both of two columns, where rows stand in pairs.
#[derive(Clone, Copy)]
pub struct PairLists<'r, 'a> {
    pub xs: &'r Lists<'a>,
    pub ws: &'r Lists<'a>,
    pub x: &'r RowLists<'a>,
    pub w: &'r RowLists<'a>,
    /// Whether the list of the second column is asked for.
    pub second: bool,
}

/// One of two places, or -1 where not both are there.
fn pair_number(p: Option<u64>, q: Option<u64>, second: bool) -> Num
    requires first { IfSome p (λ k. k < 2 ^ 63) }
    requires second { IfSome q (λ k. k < 2 ^ 63) }
    ensures number { int_of result ≡ rows.pair_number second p q }
    ensures kind { IsOf Kinds.I64 result }
{
    let (Some(p), Some(q)) = (p, q) else {
        return Num::Int(-1);
    };
    if second { number(q) } else { number(p) }
}

impl<'r, 'a> Lengths for PairLists<'r, 'a> {
    ghost length = { λ f. span_length f.ws.now.starts f.ws.now.stops };

    ghost size = { λ f. size_of f.ws.now.starts };

    ghost IsReady = { λ f. AreReady f.xs.now f.ws.now f.x.now f.w.now };

    fn length<L: Ledger>(&self, i: u64, steps: &mut Steps<L>) -> u64 {
        self.ws.length_at(i, steps)
    }
}

impl<'r, 'a> Items for PairLists<'r, 'a> {
    ghost kind = { λ _. Kinds.I64 };

    ghost at = { λ f i k.
        rows.pair_at f.second f.xs.now f.ws.now f.x.now f.w.now i k };

    fn item<L: Ledger>(&self, i: u64, k: u64, steps: &mut Steps<L>) -> Num {
        let a = item_place(self.xs, i, k, steps);
        let b = item_place(self.ws, i, k, steps);
        let p = self.x.list(a, steps);
        let q = self.w.list(b, steps);
        pair_number(p, q, self.second)
    }
}
