//! The lists and nulls that an array and a mask over it share, as lists of the array's classes.
ghost use Rattle.std.specs.Prelude.{◌≡◌, IfOk};
ghost use Rattle.awk_types.specs.View.{typ_of};
ghost use Rattle.awk_frames.specs.View.{shape_of};
ghost use Rattle.awk_types.specs.Parts.{item_of};
ghost use Rattle.awk_mask_pairs.specs.MaskTypes as spec;

use awk_frames::Frame;
use awk_pair_sides::present_type;
use awk_types::{NoMemory, Typ};
use std::alloc::Global;

/// The type of the items of lists; another type stays.
fn item_type(t: &Typ) -> &Typ
    ensures { typ_of result.now ≡ item_of (typ_of t.now) }
{
    match t {
        Typ::Var(item) | Typ::Reg(_, item) => item,
        _ => t,
    }
}

/// The size of lists of one size.
fn class_of(t: &Typ) -> Option<u64>
    ensures { result ≡ spec.class_of (typ_of t.now) }
{
    match t {
        Typ::Reg(n, _) => Some(*n),
        _ => None,
    }
}

/// A frame whose lists are of the classes of a type.
pub fn classed<'a>(alloc: Global, shape: &Frame<'a>, t: &Typ) -> Result<Frame<'a>, NoMemory>
    ensures { IfOk result (λ r. shape_of r ≡ spec.classed (typ_of t.now) (shape_of shape.now)) }
{
    match shape {
        Frame::Leaf(n) => Ok(Frame::Leaf(*n)),
        Frame::Missing { index, below } => {
            let inner = classed(alloc, below, t)?;
            let below = Box::new(alloc, inner)?;
            let index = index.copy();
            Ok(Frame::Missing { index, below })
        }
        Frame::Items { offsets, below, .. } => {
            let lists = present_type(t);
            let inner = classed(alloc, below, item_type(lists))?;
            let below = Box::new(alloc, inner)?;
            let offsets = offsets.copy();
            let regular = class_of(lists);
            Ok(Frame::Items {
                offsets,
                regular,
                below,
            })
        }
    }
}
