//! Promotion of whole-number types.
ghost use Rattle.std.specs.Prelude.{◌≡◌, IfSome};
ghost use Rattle.awk_primitives.specs.Promotion.{HoldsAll, promotion, promotion_mixed};
ghost use Rattle.awk_primitives.specs.Promotion.{promotion_whole};
ghost use Rattle.awk_primitives.specs.Promotion.{bits as bits_of, is_signed as signed};
ghost use Rattle.awk_primitives.specs.Promotion.{is_whole as whole, signed_twice as twice};
ghost use Rattle.awk_primitives.specs.Promotion.{wider as wider_of};

use awk_types::Prim;

fn is_whole(p: Prim) -> bool
    ensures { result ≡ whole p }
{
    !matches!(p, Prim::Bool)
}

fn is_signed(p: Prim) -> bool
    ensures { result ≡ signed p }
{
    matches!(p, Prim::I8 | Prim::I16 | Prim::I32 | Prim::I64)
}

fn bits(p: Prim) -> u8
    ensures { result ≡ bits_of p }
{
    match p {
        Prim::Bool => 0,
        Prim::I8 | Prim::U8 => 8,
        Prim::I16 | Prim::U16 => 16,
        Prim::I32 | Prim::U32 => 32,
        Prim::I64 | Prim::U64 => 64,
    }
}

fn wider(p: Prim, q: Prim) -> Prim
    ensures { result ≡ wider_of p q }
{
    if bits(p) < bits(q) { q } else { p }
}

/// The signed type of twice the bits of an unsigned one.
fn signed_twice(p: Prim) -> Option<Prim>
    ensures { result ≡ twice p }
{
    match p {
        Prim::U8 => Some(Prim::I16),
        Prim::U16 => Some(Prim::I32),
        Prim::U32 => Some(Prim::I64),
        _ => None,
    }
}

/// A signed type and an unsigned one.
fn promote_mixed(p: Prim, q: Prim) -> Option<Prim>
    ensures { result ≡ promotion_mixed p q }
{
    if bits(q) < bits(p) {
        Some(p)
    } else {
        signed_twice(q)
    }
}

/// Two whole-number types.
fn promote_whole(p: Prim, q: Prim) -> Option<Prim>
    ensures { result ≡ promotion_whole (signed p) (signed q) p q }
{
    match (is_signed(p), is_signed(q)) {
        (true, false) => promote_mixed(p, q),
        (false, true) => promote_mixed(q, p),
        _ => Some(wider(p, q)),
    }
}

/// The type that numbers of both types are carried into. There is none where one of the two is
/// `Bool`, or where one is signed and the other is `U64`.
pub fn promote(a: Prim, b: Prim) -> Option<Prim>
    ensures value { result ≡ promotion a b }
    ensures holds_both { IfSome result (λ r. HoldsAll a r × HoldsAll b r) }
{
    if is_whole(a) && is_whole(b) {
        promote_whole(a, b)
    } else {
        None
    }
}
