//! What the types of operands tell before their values are looked at.
ghost use Rattle.std.specs.Prelude.{◌≡◌, map};
ghost use Rattle.awk_types.specs.DataType.{depth as type_depth};
ghost use Rattle.awk_types.specs.Parts.{item_of};
ghost use Rattle.awk_types.specs.View.{typ_of};
ghost use Rattle.awk_layout.specs.Datum.{IsOperand};
ghost use Rattle.awk_pair_operands.specs.First.{all_data};
ghost use Rattle.awk_pair_operands.specs.Pairs.{is_array, some_array, below, has_wrong_end};
ghost use Rattle.awk_pair_operands.specs.Paired as spec;
ghost use Rattle.awk_pair_operands.specs.Types.{down, operand_type};
ghost use Rattle.awk_pair_operands.specs.Types.{lists_down, leaf_down, opens_down, leaves_down};
ghost use Rattle.awk_layout.specs.Single.{own_datum};

use awk_layout::{Datum, Operand, Operands};
use awk_pair_sides::present_type;
use awk_types::{Typ, depth, is_leaf, is_list};

/// Whether an operand is an array.
pub(crate) fn is_array(x: &Operand) -> bool
    ensures { result ≡ is_array (own_datum x.now) }
{
    match x {
        Operand::Of(Datum::Arr(_)) => true,
        Operand::Of(Datum::One(_)) | Operand::Literal(_) => false,
    }
}

/// Whether some operand is an array.
pub fn some_array(xs: &Operands) -> bool
    ensures { result ≡ some_array (all_data xs.now) }
{
    for i in 0..xs.len() {
        if is_array(xs.get(i)) {
            return true;
        }
    }
    false
}

/// The type of the items of lists; another type stays.
fn item_type(t: &Typ) -> &Typ
    ensures { typ_of result.now ≡ item_of (typ_of t.now) }
{
    match t {
        Typ::Var(item) | Typ::Reg(_, item) => item,
        _ => t,
    }
}

/// The type so many levels down, without its option.
fn type_down(t: &Typ, k: u64) -> &Typ
    ensures { typ_of result.now ≡ down k (typ_of t.now) }
{
    let t = present_type(t);
    if k == 0 {
        t
    } else {
        type_down(item_type(t), k - 1)
    }
}

/// Whether an operand is a list so many levels down.
fn lists_down(x: &Operand, k: u64) -> bool
    ensures { result ≡ lists_down k x.now }
{
    match x {
        Operand::Of(datum) => is_list(type_down(datum.kept().typ(), k)),
        Operand::Literal(_) => false,
    }
}

/// Whether an operand is a leaf so many levels down.
fn leaf_down(x: &Operand, k: u64) -> bool
    ensures { result ≡ leaf_down k x.now }
{
    match x {
        Operand::Of(datum) => is_leaf(type_down(datum.kept().typ(), k)),
        Operand::Literal(_) => true,
    }
}

/// Whether some operand is a list so many levels down.
fn opens_down(xs: &Operands, k: u64) -> bool
    ensures { result ≡ opens_down k xs.now }
{
    for i in 0..xs.len() {
        if lists_down(xs.get(i), k) {
            return true;
        }
    }
    false
}

/// Whether all operands are leaves so many levels down.
fn leaves_down(xs: &Operands, k: u64) -> bool
    ensures { result ≡ leaves_down k xs.now }
{
    for i in 0..xs.len() {
        if !leaf_down(xs.get(i), k) {
            return false;
        }
    }
    true
}

/// Whether an end that is reached through at most d levels is no leaf.
fn is_wrong(xs: &Operands, d: u64) -> bool
    ensures { result ≡ spec.is_wrong spec.to_leaves d (map operand_type xs.now) }
{
    for k in 0..d {
        if !opens_down(xs, k) {
            return !leaves_down(xs, k);
        }
    }
    !leaves_down(xs, d)
}

/// How deep the type of an operand is.
fn depth_of(x: &Operand) -> u64
    requires { IsOperand x.now }
    ensures { result ≡ type_depth (operand_type x.now) }
{
    match x {
        Operand::Of(datum) => depth(datum.kept().typ()),
        Operand::Literal(_) => 1,
    }
}

/// As many levels as operands may have.
fn all_levels(xs: &Operands) -> u64
    ensures { result ≡ spec.all_levels (map operand_type xs.now) }
{
    let mut greatest = 0;
    for i in 0..xs.len() {
        greatest = greatest.max(depth_of(xs.get(i)));
    }
    greatest
}

/// At most how many levels there are below the first rows.
pub fn levels_below(xs: &Operands, depth: Option<u64>) -> u64
    ensures { result ≡ below depth (all_data xs.now) }
{
    match depth {
        None => all_levels(xs),
        Some(d) => { if some_array(xs) && d > 0 { d - 1 } else { d } }
    }
}

/// Whether a pairing of operands asks for leaves and has an end that is none: a record, a tuple or
/// a union. This is the type fault of `pair` and `pair_keeping`, and takes no memory.
pub fn has_wrong_end(xs: &Operands, depth: Option<u64>) -> bool
    ensures { result ≡ has_wrong_end depth (all_data xs.now) }
{
    match depth {
        None => is_wrong(xs, all_levels(xs)),
        Some(_) => false,
    }
}
