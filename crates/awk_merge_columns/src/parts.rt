//! The types of parts and alternatives.
ghost use Rattle.std.specs.Prelude.{◌≡◌, ◌<◌, Some, length, slice_get};
ghost use Rattle.awk_types.specs.View.{typ_of};
ghost use Rattle.awk_types.specs.declared.typ.Typ.{size-Typ};
ghost use Rattle.awk_merge_columns.specs.PartTypes.{part_types};

use awk_types::Typ;

/// The type of the part or alternative at a place.
#[tactic(auto, using(crate::proofs::PartTypeLaws::part_laws))]
pub fn part_type(t: &Typ, j: usize) -> &Typ
    requires within { j < length (part_types (typ_of t.now)) }
    ensures item { slice_get (part_types (typ_of t.now)) j ≡ Some (typ_of result.now) }
    ensures below { size-Typ result.now < size-Typ t.now }
{
    match t {
        Typ::Rec(fields) => &fields.get(j).typ,
        Typ::Tup(parts) => parts.get(j),
        Typ::Uni(alternatives) => alternatives.get(j),
        _ => unreachable!(),
    }
}
