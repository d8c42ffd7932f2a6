//! The levels of a pairing, by the types of the operands' items.
ghost use Rattle.std.specs.Prelude.{◌≡◌, map};
ghost use Rattle.awk_types.specs.Simple.{present};
ghost use Rattle.awk_types.specs.View.{typ_of};
ghost use Rattle.awk_layout.specs.Typing.{array_type};
ghost use Rattle.awk_pair_sides.specs.Levels as spec;

use awk_layout::Arrays;
use awk_types::{Typ, is_list, is_optional};

/// The type without its option.
pub fn present_type(t: &Typ) -> &Typ
    ensures { typ_of result.now ≡ present (typ_of t.now) }
{
    match t {
        Typ::Opt(inner) => inner,
        _ => t,
    }
}

/// Whether some operand is optional.
pub fn some_option(xs: &Arrays) -> bool
    ensures { result ≡ spec.some_option (map array_type xs.now) }
{
    for i in 0..xs.len() {
        if is_optional(xs.get(i).typ()) {
            return true;
        }
    }
    false
}

/// Whether some operand, its option dropped, is a list.
pub fn opens(xs: &Arrays) -> bool
    ensures { result ≡ spec.opens (map array_type xs.now) }
{
    for i in 0..xs.len() {
        if is_list(present_type(xs.get(i).typ())) {
            return true;
        }
    }
    false
}

/// Whether there is a further level where at most d levels are left.
pub fn goes_on(d: u64, xs: &Arrays) -> bool
    ensures { result ≡ spec.goes_on d (map array_type xs.now) }
{
    d > 0 && opens(xs)
}

/// Whether a type counts as lists that are not of size 1.
fn is_longer(t: &Typ) -> bool
    ensures { result ≡ spec.is_longer (typ_of t.now) }
{
    match t {
        Typ::Reg(n, _) => *n != 1,
        Typ::Var(_) | Typ::Unknown => true,
        _ => false,
    }
}

/// Whether lists of size 1 are stretched, beside lists of another.
pub fn stretches(xs: &Arrays) -> bool
    ensures { result ≡ spec.stretches (map array_type xs.now) }
{
    for i in 0..xs.len() {
        if is_longer(xs.get(i).typ()) {
            return true;
        }
    }
    false
}

/// Whether a type is of lists of size 1.
pub fn is_single(t: &Typ) -> bool
    ensures { result ≡ spec.is_single (typ_of t.now) }
{
    match t {
        Typ::Reg(n, _) => *n == 1,
        _ => false,
    }
}
