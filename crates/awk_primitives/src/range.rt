//! The numbers of the primitives.
ghost use Rattle.std.specs.Prelude.{◌≡◌};
ghost use Rattle.awk_primitives.specs.Fits.{fits as fits_in, literal_primitive};
ghost use Rattle.awk_primitives.specs.Fits.{literal_fits as literal_fits_in};
ghost use Rattle.awk_types.specs.Has.{least_number, greatest_number};
ghost use Rattle.awk_types.specs.View.{typ_of};

use awk_types::{Prim, Typ};

/// The least number of a primitive.
pub fn least(prim: Prim) -> i128
    ensures { result ≡ least_number prim }
{
    match prim {
        Prim::I8 => -0x80,
        Prim::I16 => -0x8000,
        Prim::I32 => -0x8000_0000,
        Prim::I64 => -0x8000_0000_0000_0000,
        _ => 0,
    }
}

/// The greatest number of a primitive. Truth values are no numbers.
pub fn greatest(prim: Prim) -> i128
    ensures { result ≡ greatest_number prim }
{
    match prim {
        Prim::Bool => -1,
        Prim::I8 => 0x7f,
        Prim::I16 => 0x7fff,
        Prim::I32 => 0x7fff_ffff,
        Prim::I64 => 0x7fff_ffff_ffff_ffff,
        Prim::U8 => 0xff,
        Prim::U16 => 0xffff,
        Prim::U32 => 0xffff_ffff,
        Prim::U64 => 0xffff_ffff_ffff_ffff,
    }
}

/// Whether a primitive holds a number.
pub fn fits(prim: Prim, z: i128) -> bool
    ensures { result ≡ fits_in prim z }
{
    least(prim) <= z && z <= greatest(prim)
}

/// The type of a literal beside items of a type.
pub fn literal_prim(item: &Typ) -> Prim
    ensures { result ≡ literal_primitive (typ_of item.now) }
{
    match item {
        Typ::Leaf(Prim::Bool) => Prim::I64,
        Typ::Leaf(prim) => *prim,
        _ => Prim::I64,
    }
}

/// Whether a literal is a number of its type beside items of a type.
pub fn literal_fits(item: &Typ, z: i128) -> bool
    ensures { result ≡ literal_fits_in (typ_of item.now) z }
{
    fits(literal_prim(item), z)
}
