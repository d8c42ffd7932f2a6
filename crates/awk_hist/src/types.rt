//! What types histograms take, and what they give.
ghost use Rattle.std.specs.Prelude.{◌≡◌, IfOk};
ghost use Rattle.awk_types.specs.Simple.{present};
ghost use Rattle.awk_types.specs.View.{typ_of, typs_of};
ghost use Rattle.awk_types.specs.WholeNumbers as whole;
ghost use Rattle.awk_hist.specs.Bins as bins;
ghost use Rattle.awk_hist.specs.Hist as spec;

use awk_types::{Fields, Name, Names, NoMemory, Prim, Typ, Typs, is_numbers};
use std::alloc::Global;

/// Whether items of a type are numbers, optional or not.
pub(crate) fn are_numbers(t: &Typ) -> bool
    ensures { result ≡ whole.is_numbers (present (typ_of t.now)) }
{
    match t {
        Typ::Opt(inner) => is_numbers(inner),
        _ => is_numbers(t),
    }
}

/// Whether numbers stand below lists and options alone.
pub(crate) fn has_numbers(t: &Typ) -> bool
    ensures { result ≡ spec.has_numbers (typ_of t.now) }
{
    match t {
        Typ::Var(inner) | Typ::Reg(_, inner) | Typ::Opt(inner) => has_numbers(inner),
        _ => is_numbers(t),
    }
}

/// The names of a histogram's fields.
pub(crate) fn bin_names(alloc: Global) -> Result<Names, NoMemory>
    ensures { IfOk result (λ names. names ≡ bins.bin_names) }
{
    let mut names = Names::new(alloc);
    names.push(Name::new(alloc, "counts")?)?;
    names.push(Name::new(alloc, "under")?)?;
    names.push(Name::new(alloc, "over")?)?;
    names.push(Name::new(alloc, "nulls")?)?;
    Ok(names)
}

/// Their types.
fn bin_typs(alloc: Global) -> Result<Typs, NoMemory>
    ensures { IfOk result (λ types. typs_of types ≡ bins.bin_types) }
{
    let mut types = Typs::new(alloc);
    types.push(Typ::Var(Box::new(alloc, Typ::Leaf(Prim::I64))?))?;
    types.push(Typ::Leaf(Prim::I64))?;
    types.push(Typ::Leaf(Prim::I64))?;
    types.push(Typ::Leaf(Prim::I64))?;
    Ok(types)
}

/// The type of a histogram.
pub(crate) fn bins_typ(alloc: Global) -> Result<Typ, NoMemory>
    ensures { IfOk result (λ t. typ_of t ≡ bins.bins_type) }
{
    let names = bin_names(alloc)?;
    let types = bin_typs(alloc)?;
    Ok(Typ::Rec(Fields::named(alloc, &names, types)?))
}
