//! Arrays, loaded from containers.
ghost use Rattle.std.specs.Prelude.{◌≡◌, ◌+◌, ◌*◌, ◌≤◌, IfOk};
ghost use Rattle.awk_types.specs.Datum.{arr};
ghost use Rattle.awk_types.specs.Gives.{Gives};
ghost use Rattle.awk_types.specs.Simple.{simple};
ghost use Rattle.awk_types.specs.View.{typ_of};
ghost use Rattle.awk_layout.specs.Layout.{weight, height};
ghost use Rattle.awk_layout.specs.Typing.{array_type, array_items};
ghost use Rattle.awk_layout.specs.Valid.{len};
ghost use Rattle.awk_store.specs.Buffers.{held_len};
ghost use Rattle.awk_form.specs.FormType.{HasType, type_of};
ghost use Rattle.awk_form.specs.Lawful.{IsLawful};
ghost use Rattle.awk_form.specs.View.{form_of};
ghost use Rattle.awk_valid.specs.Container.{container_of};
ghost use Rattle.awk_valid.specs.Denote.{denoting};
ghost use Rattle.awk_valid.specs.Loading.{told, loading};
ghost use Rattle.awk_form.specs.Measures as size;

use crate::fault::LoadFault;
use crate::lanes::Reader;
use crate::parts::Walk;
use crate::walk::node;
use awk_form::{Form, type_of_form};
use awk_kernels::Kernels;
use awk_lanes::{Arena, Steps};
use awk_layout::Array;
use awk_store::Store;
use awk_types::Typ;
use std::alloc::Global;
use std::sync::ledger::Ledger;

/// The array of n items that a form and the buffers of a store give.
///
/// How it works, which no clause says: its lanes are the store's bytes, cut and not copied, unless
/// the most significant byte of each number comes first; then the numbers that are needed are
/// turned
/// round into the arena once.
pub fn load<'a, N: Kernels, L: Ledger>(
    alloc: Global,
    form: &Form,
    n: u64,
    big: bool,
    store: &mut Store<'_, 'a>,
    kernels: &N,
    arena: &'a Arena,
    steps: &mut Steps<L>,
) -> Result<Array<'a>, LoadFault>
    requires lawful { IsLawful (form_of form.now) }
    // The layout that the form, the length and the buffers stand for, or exactly why there is none:
    // the limit of the
    // type, else the first break of the walk.
    ensures answer { Gives (λ array. array) told result
        (loading (form_of form.now) n (container_of big store.old.held)) }
    // The array is that which the form, the length and the buffers denote, value by value.
    ensures denoted { Gives (λ array. arr (array_type array) (array_items array)) told result
        (denoting (form_of form.now) n (container_of big store.old.held)) }
    // The type is that of the form, and there are n items.
    ensures typ { IfOk result (λ array. array_type array ≡ simple (type_of (form_of form.now))) }
    ensures length { IfOk result (λ array. len array ≡ n) }
    // It has no more nodes, and is no higher, than the form with its inner numbers.
    ensures nodes { IfOk result (λ array. weight array ≤ size.width (form_of form.now)) }
    ensures height { IfOk result (λ array. height array ≤ size.height (form_of form.now)) }
    // The store answers as before.
    ensures held { store.new.held ≡ store.old.held }
    ensures cost { steps.new ≤ steps.old + 8 * (size.width (form_of form.now) + 1) * (held_len
        store.old.held + 1) }
{
    let typ = type_of_form(alloc, form)?;
    load_typed(
        &Reader { alloc, big, arena },
        form,
        typ,
        n,
        store,
        kernels,
        steps,
    )
}

/// The same array, where the type of the form is at hand.
pub fn load_typed<'a, N: Kernels, L: Ledger>(
    reader: &Reader<'a>,
    form: &Form,
    typ: Typ,
    n: u64,
    store: &mut Store<'_, 'a>,
    kernels: &N,
    steps: &mut Steps<L>,
) -> Result<Array<'a>, LoadFault>
    requires lawful { IsLawful (form_of form.now) }
    requires typ { HasType (form_of form.now) (typ_of typ) }
    // The layout that the form, the length and the buffers stand for, or exactly why there is none:
    // the first break of the walk.
    ensures answer { Gives (λ array. array) told result
        (loading (form_of form.now) n (container_of reader.now.big store.old.held)) }
    // The array is that which the form, the length and the buffers denote, value by value.
    ensures denoted { Gives (λ array. arr (array_type array) (array_items array)) told result
        (denoting (form_of form.now) n (container_of reader.now.big store.old.held)) }
    // The type is that of the form, and there are n items.
    ensures typ { IfOk result (λ array. array_type array ≡ simple (type_of (form_of form.now))) }
    ensures length { IfOk result (λ array. len array ≡ n) }
    // It has no more nodes, and is no higher, than the form with its inner numbers.
    ensures nodes { IfOk result (λ array. weight array ≤ size.width (form_of form.now)) }
    ensures height { IfOk result (λ array. height array ≤ size.height (form_of form.now)) }
    // The store answers as before.
    ensures held { store.new.held ≡ store.old.held }
    ensures cost { steps.new ≤ steps.old + 8 * (size.width (form_of form.now) + 1) * (held_len
        store.old.held + 1) }
{
    let walk = Walk { reader, kernels };
    let node = node(&walk, form, n, &mut 0, store, steps)?;
    Ok(Array::with_type(node, typ))
}
