//! There and back: packing, loading what was packed, and packing that again.
ghost use Rattle.std.specs.Prelude.{◌≡◌, false};
ghost use Rattle.awk_types.specs.Gives.{Gives};
ghost use Rattle.awk_layout.specs.Typing.{array_type, array_items, array_datum};
ghost use Rattle.awk_form.specs.Lawful.{IsLawful};
ghost use Rattle.awk_form.specs.View.{form_of};
ghost use Rattle.awk_pack.specs.Shown.{packed_of};
ghost use Rattle.awk_valid.specs.Container.{container_of};
ghost use Rattle.awk_valid.specs.Denote.{denoting};
ghost use Rattle.awk_valid.specs.Loading.{told};
ghost use Rattle.awk_readback.specs.Back.{GivesBack, HoldsPacked, round_of, back_over};
ghost use Rattle.awk_readback.specs.Back.{there_and_back, back_told};

use awk_kernels::Kernels;
use awk_lanes::{Arena, Steps};
use awk_layout::Array;
use awk_pack::{PackFault, Packed, pack};
use awk_store::Store;
use awk_valid::{LoadFault, load};
use std::alloc::Global;
use std::sync::ledger::Ledger;

/// A packed array, the array that was loaded of it, and that packed.
#[derive(Drop)]
pub struct Back<'a> {
    pub first: Packed<'a>,
    pub array: Array<'a>,
    pub again: Packed<'a>,
}

/// Why an array does not come back.
#[derive(Debug, Drop)]
pub enum BackFault {
    Pack(PackFault),
    Load(LoadFault),
}

impl From<PackFault> for BackFault {
    ghost use Rattle.std.specs.Prelude.{◌≡◌};
    ghost use Rattle.awk_readback.specs.declared.back.BackFault.TheVariants.{Pack};

    ghost from_gives = { λ fault e. e ≡ Pack fault };

    fn from(fault: PackFault) -> BackFault {
        BackFault::Pack(fault)
    }
}

impl From<LoadFault> for BackFault {
    ghost use Rattle.std.specs.Prelude.{◌≡◌};
    ghost use Rattle.awk_readback.specs.declared.back.BackFault.TheVariants.{Load};

    ghost from_gives = { λ fault e. e ≡ Load fault };

    fn from(fault: LoadFault) -> BackFault {
        BackFault::Load(fault)
    }
}

/// The array that the form and the length of a packed array denote over a store.
pub fn load_packed<'a, N: Kernels, L: Ledger>(
    alloc: Global,
    packed: &Packed<'_>,
    store: &mut Store<'_, 'a>,
    kernels: &N,
    arena: &'a Arena,
    steps: &mut Steps<L>,
) -> Result<Array<'a>, LoadFault>
    requires lawful { IsLawful (form_of packed.now.form) }
    ensures denoted { Gives array_datum told result (denoting (form_of packed.now.form)
        packed.now.length (container_of false store.old.held)) }
    // What was packed comes back.
    ensures back { GivesBack (packed_of packed.now) store.old.held result }
    ensures held { store.new.held ≡ store.old.held }
{
    load(
        alloc,
        &packed.form,
        packed.length,
        false,
        store,
        kernels,
        arena,
        steps,
    )
}

/// Packs an array, loads what was packed, and packs that again.
fn rounded<'a, N: Kernels, L: Ledger>(
    alloc: Global,
    x: &Array<'a>,
    store: &mut Store<'_, 'a>,
    kernels: &N,
    arena: &'a Arena,
    steps: &mut Steps<L>,
) -> Result<Back<'a>, BackFault>
    ensures round { let said = back_over store.old.held (array_type x.now) (array_items x.now) in
        Gives round_of back_told result said }
    ensures held { store.new.held ≡ store.old.held }
{
    let first = pack(alloc, x, arena, steps)?;
    let array = load_packed(alloc, &first, store, kernels, arena, steps)?;
    let again = pack(alloc, &array, arena, steps)?;
    Ok(Back {
        first,
        array,
        again,
    })
}

/// Packs an array, loads what was packed from a store, and packs that again.
pub fn there_and_back<'a, N: Kernels, L: Ledger>(
    alloc: Global,
    x: &Array<'a>,
    store: &mut Store<'_, 'a>,
    kernels: &N,
    arena: &'a Arena,
    steps: &mut Steps<L>,
) -> Result<Back<'a>, BackFault>
    // Over every store: why the array is not packed, or not loaded, or the packed array, what it
    // denotes over the store, and that packed.
    ensures round { let said = back_over store.old.held (array_type x.now) (array_items x.now) in
        Gives round_of back_told result said }
    // Over a store that has the buffers, as bytes or as texts, the array that is loaded has the
    // same type and items, and packing that gives the same form, length and lanes.
    ensures back { HoldsPacked store.old.held (array_type x.now) (array_items x.now) → Gives
        round_of back_told result (there_and_back (array_type x.now) (array_items x.now)) }
    ensures held { store.new.held ≡ store.old.held }
{
    // the type is lawful, and the items are of it
    let _typ = x.typ();
    let _len = x.len();
    rounded(alloc, x, store, kernels, arena, steps)
}
