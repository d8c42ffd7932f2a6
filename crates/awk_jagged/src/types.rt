//! The types of picks row by row.
ghost use Rattle.std.specs.Prelude.{◌≡◌, option_map, IfOk};
ghost use Rattle.awk_types.specs.DataType.{var, opt};
ghost use Rattle.awk_types.specs.Faults.{fault_told};
ghost use Rattle.awk_types.specs.Gives.{Gives};
ghost use Rattle.awk_types.specs.Parts.{list_item};
ghost use Rattle.awk_types.specs.View.{typ_of};
ghost use Rattle.awk_jagged.specs.Jagged as jagged;
ghost use Rattle.awk_jagged.specs.Judged.{judged_pick, list_pick};
ghost use Rattle.awk_jagged_rows.specs.RowTypes.{rows_of};

use awk_types::{Fault, NoMemory, Typ, copy_type, is_list, simple_of};
use std::alloc::Global;

/// Whether items are lists, optional or not.
pub fn is_jagged(u: &Typ) -> bool
    ensures { result ≡ jagged.is_jagged (typ_of u.now) }
{
    match u {
        Typ::Opt(inner) => is_list(inner),
        _ => is_list(u),
    }
}

/// The option of a type, if there is one.
fn as_option(alloc: Global, t: Option<Typ>) -> Result<Option<Typ>, NoMemory>
    ensures { IfOk result (λ r. option_map typ_of r ≡ option_map opt (option_map typ_of t)) }
{
    match t {
        None => Ok(None),
        Some(t) => Ok(Some(Typ::Opt(Box::new(alloc, t)?))),
    }
}

/// Lists of a type, if there is one.
fn as_lists(alloc: Global, t: Option<Typ>) -> Result<Option<Typ>, NoMemory>
    ensures { IfOk result (λ r. option_map typ_of r ≡ option_map var (option_map typ_of t)) }
{
    match t {
        None => Ok(None),
        Some(t) => Ok(Some(Typ::Var(Box::new(alloc, t)?))),
    }
}

/// The type of items of type t that are picked by items of type u, if these pick them.
#[cycle(pick)]
pub fn pick_type(alloc: Global, u: &Typ, t: &Typ) -> Result<Option<Typ>, NoMemory>
    ensures { IfOk result (λ r.
        option_map typ_of r ≡ jagged.pick_type (typ_of u.now) (typ_of t.now)) }
{
    match u {
        Typ::Unknown | Typ::Leaf(_) => Ok(Some(copy_type(alloc, t)?)),
        Typ::Var(inner) => rows_type(alloc, inner, t),
        Typ::Reg(_, inner) => rows_type(alloc, inner, t),
        Typ::Opt(inner) => as_option(alloc, pick_type(alloc, inner, t)?),
        Typ::Rec(_) | Typ::Tup(_) | Typ::Uni(_) => Ok(None),
    }
}

/// The type of rows of type t, optional or not, whose items are picked by items of type u.
#[cycle(pick)]
fn rows_type(alloc: Global, u: &Typ, t: &Typ) -> Result<Option<Typ>, NoMemory>
    ensures { IfOk result (λ r.
        option_map typ_of r ≡ jagged.rows_type (rows_of (typ_of t.now))
        (jagged.pick_type (typ_of u.now))) }
{
    match t {
        Typ::Opt(inner) => as_option(alloc, list_type(alloc, u, inner)?),
        _ => list_type(alloc, u, t),
    }
}

/// The type of rows of type t whose items are picked by items of type u.
#[cycle(pick)]
fn list_type(alloc: Global, u: &Typ, t: &Typ) -> Result<Option<Typ>, NoMemory>
    ensures { IfOk result (λ r.
        option_map typ_of r ≡ list_pick (list_item (typ_of t.now))
        (jagged.pick_type (typ_of u.now))) }
{
    match t {
        Typ::Unknown => as_lists(alloc, pick_type(alloc, u, t)?),
        Typ::Var(item) | Typ::Reg(_, item) => as_lists(alloc, pick_type(alloc, u, item)?),
        _ => Ok(None),
    }
}

/// Judges the types of items of type t that are picked by items of type u.
pub fn judged(alloc: Global, u: &Typ, t: &Typ) -> Result<(), Fault>
    ensures { Gives (λ _. tt {0}) fault_told result (judged_pick (typ_of u.now) (typ_of t.now)) }
{
    if !is_jagged(u) {
        return Err(Fault::WrongType);
    }
    match pick_type(alloc, u, t)? {
        None => Err(Fault::WrongType),
        Some(typ) => {
            let _ = simple_of(alloc, typ)?;
            Ok(())
        }
    }
}
