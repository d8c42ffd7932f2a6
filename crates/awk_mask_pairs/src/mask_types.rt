//! The types of masks over arrays, and of arrays where masks are over them.
ghost use Rattle.std.specs.Prelude.{◌≡◌, ◌==◌, ◌||◌, min, IfOk};
ghost use Rattle.awk_types.specs.View.{typ_of};
ghost use Rattle.awk_mask_pairs.specs.MaskTypes.{mask_levels as levels, has_ones as ones};
ghost use Rattle.awk_mask_pairs.specs.MaskValues as spec;

use awk_types::{NoMemory, Prim, Typ, copy_type, is_unknown};
use std::alloc::Global;

/// Whether items of type u are a mask over items of type t.
#[cycle(masks)]
pub fn masks(u: &Typ, t: &Typ) -> bool
    ensures { result ≡ spec.masks (typ_of u.now) (typ_of t.now) }
{
    match u {
        Typ::Unknown | Typ::Leaf(Prim::Bool) => true,
        Typ::Var(inner) | Typ::Reg(_, inner) => masks_lists(inner, t),
        Typ::Opt(inner) => !is_unknown(inner) && masks(inner, t),
        _ => false,
    }
}

/// Whether items of type u are a mask over the items of lists of type t, optional or not.
#[cycle(masks)]
fn masks_lists(u: &Typ, t: &Typ) -> bool
    ensures { result ≡ spec.has_items (spec.masks (typ_of u.now)) (typ_of t.now) }
{
    match t {
        Typ::Opt(inner) => masks_items(u, inner),
        _ => masks_items(u, t),
    }
}

/// Whether items of type u are a mask over the items of lists of type t.
#[cycle(masks)]
fn masks_items(u: &Typ, t: &Typ) -> bool
    ensures { result ≡ spec.of_items (spec.masks (typ_of u.now)) (typ_of t.now) }
{
    match t {
        Typ::Var(item) | Typ::Reg(_, item) => masks(u, item),
        _ => false,
    }
}

/// The type of items of type t where a mask of type u is over them.
#[cycle(masked)]
pub fn masked_type(alloc: Global, u: &Typ, t: &Typ) -> Result<Typ, NoMemory>
    ensures { IfOk result (λ r. typ_of r ≡ spec.masked_type (typ_of u.now) (typ_of t.now)) }
{
    match u {
        Typ::Var(inner) => with_items(alloc, inner, t),
        Typ::Reg(_, inner) => with_items(alloc, inner, t),
        Typ::Opt(inner) => Ok(Typ::Opt(Box::new(alloc, masked_type(alloc, inner, t)?)?)),
        _ => Ok(Typ::Opt(Box::new(alloc, copy_type(alloc, t)?)?)),
    }
}

/// The type of lists of type t where a mask of lists of type u is over them.
#[cycle(masked)]
fn with_items(alloc: Global, u: &Typ, t: &Typ) -> Result<Typ, NoMemory>
    ensures { let f = spec.masked_type (typ_of u.now) in
        IfOk result (λ r. typ_of r ≡ spec.with_items f (typ_of t.now)) }
{
    match t {
        Typ::Var(item) => Ok(Typ::Var(Box::new(alloc, masked_type(alloc, u, item)?)?)),
        Typ::Reg(n, item) => Ok(Typ::Reg(*n, Box::new(alloc, masked_type(alloc, u, item)?)?)),
        Typ::Opt(inner) => Ok(Typ::Opt(Box::new(alloc, with_items(alloc, u, inner)?)?)),
        _ => copy_type(alloc, t),
    }
}

/// How many levels of lists a mask has, or the greatest u64 where these are more.
pub fn mask_levels(u: &Typ) -> u64
    ensures { result ≡ min (levels (typ_of u.now)) u64.MAX }
{
    match u {
        Typ::Var(inner) | Typ::Reg(_, inner) => mask_levels(inner).saturating_add(1),
        Typ::Opt(inner) => mask_levels(inner),
        _ => 0,
    }
}

/// Whether a size is 1, or lists within are.
fn is_one(n: u64, within: bool) -> bool
    ensures { result ≡ (n == 1 || within) }
{
    if n == 1 {
        return true;
    }
    within
}

/// Whether lists of a mask are, at some level, of a type of size 1.
pub fn has_ones(u: &Typ) -> bool
    ensures { result ≡ ones (typ_of u.now) }
{
    match u {
        Typ::Var(inner) | Typ::Opt(inner) => has_ones(inner),
        Typ::Reg(n, inner) => is_one(*n, has_ones(inner)),
        _ => false,
    }
}
