//! How far a datum is lists, and an array as one list beside a single value.
ghost use Rattle.std.specs.Prelude.{◌≡◌, ◌<◌, ◌≤◌, ◌∷◌, [], IfOk};
ghost use Rattle.awk_types.specs.DataType.{var};
ghost use Rattle.awk_types.specs.Parts.{list_depth};
ghost use Rattle.awk_types.specs.Value.{list, values_from};
ghost use Rattle.awk_types.specs.View.{typ_of};
ghost use Rattle.awk_layout.specs.Datum.{datum_of};
ghost use Rattle.awk_layout.specs.Typing.{array_type, array_items};
ghost use Rattle.awk_layout.specs.Valid.{len};
ghost use Rattle.awk_put_field.specs.Ends as ends;
ghost use Rattle.awk_with_field.specs.WithField as spec;

use awk_lanes::{Arena, NoMemory, Steps, one_offsets};
use awk_layout::{Array, Datum, Node};
use awk_types::Typ;
use std::alloc::Global;
use std::sync::ledger::Ledger;

/// Whether there are records where the lists of a type end, options dropped.
pub(crate) fn ends_at_records(t: &Typ) -> bool
    ensures { result ≡ ends.ends_at_records (typ_of t.now) }
{
    match t {
        Typ::Var(item) | Typ::Reg(_, item) | Typ::Opt(item) => ends_at_records(item),
        Typ::Rec(_) => true,
        _ => false,
    }
}

/// How many lists lie above what is none, options dropped.
fn lists_down(t: &Typ) -> u64
    requires few { list_depth (typ_of t.now) ≤ 60 }
    ensures levels { result ≡ list_depth (typ_of t.now) }
    ensures few { result ≤ 60 }
{
    match t {
        Typ::Var(item) | Typ::Reg(_, item) => lists_down(item) + 1,
        Typ::Opt(item) => lists_down(item),
        _ => 0,
    }
}

/// As far as a datum is lists.
pub(crate) fn levels_of(x: &Datum) -> u64
    ensures { result ≡ spec.levels_of (datum_of x.now) }
{
    let down = lists_down(x.kept().typ());
    match x {
        Datum::Arr(_) => down + 1,
        Datum::One(_) => down,
    }
}

/// One list of all items of an array.
pub(crate) fn one_list<'a, L: Ledger>(
    alloc: Global,
    x: &Array<'a>,
    arena: &'a Arena,
    steps: &mut Steps<L>,
) -> Result<Node<'a>, NoMemory>
    ensures typ { IfOk result (λ y. array_type y ≡ var (array_type x.now)) }
    ensures items { let only = list (values_from (array_items x.now)) in
        IfOk result (λ y. array_items y ≡ only ∷ []) }
    ensures size { IfOk result (λ y. len y ≡ 1) }
{
    let offsets = one_offsets(x.len(), arena)?;
    let content = Box::new(alloc, x.node().copy(alloc)?)?;
    Ok(Node::list_offset(offsets, content, steps))
}
