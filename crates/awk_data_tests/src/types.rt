// Types that no form gives: copies, names beside types, options and unions of types, promotion,
// levels of types, and whole numbers in order.
ghost use Rattle.std.specs.Prelude.{◌<◌, length};
ghost use Rattle.awk_types.specs.View.{typs_of};

use awk_primitives::promote;
use awk_types::{
    Fields, Name, Names, NoMemory, Prim, Typ, TypeFault, Typs, Wholes, copy_type, levels, opt_of,
    same, turned_axis, uni_of,
};
use std::alloc::Global;
use std::process::Abort;
use std::test::Fail;

/// So many times the same leaf.
fn leaves(alloc: Global, n: u8) -> Result<Typs, NoMemory> {
    let mut made = Typs::new(alloc);
    for _ in 0..n {
        made.push(Typ::Leaf(Prim::I64))?;
    }
    Ok(made)
}

/// The record of these fields, whose types are all leaves.
fn record(rt: &impl Abort, alloc: Global, texts: [&str; 2]) -> Result<Typ, NoMemory> {
    let mut names = Names::new(alloc);
    for text in &texts {
        names.push(Name::new(alloc, text)?)?;
    }
    let names = names.copy(alloc)?;
    let types = leaves(alloc, 2)?;
    assert!(rt; names.len() == types.len());
    Ok(Typ::Rec(Fields::named(alloc, &names, types)?))
}

#[test]
fn the_option_of_an_option_is_one(rt: HostRuntime) -> Result<(), Fail> {
    let alloc = rt.alloc();
    let particle = record(&rt, alloc, ["pt", "charge"])?;
    let whole = Typ::Opt(Box::new(alloc, particle)?);
    let copied = copy_type(alloc, &whole)?;
    assert!(rt; same(&opt_of(alloc, copied)?, &whole));
    Ok(())
}

#[test]
fn types_over_a_limit_are_refused(rt: HostRuntime) -> Result<(), Fail> {
    let alloc = rt.alloc();
    let mut deep = Typ::Unknown;
    for _ in 0..59 {
        deep = Typ::Var(Box::new(alloc, deep)?);
    }
    assert!(rt; matches!(opt_of(alloc, deep), Err(TypeFault::Depth)));
    let widest = leaves(alloc, 127)?;
    let wider = leaves(alloc, 128)?;
    assert!(rt; widest.len() == 127 && wider.len() == 128);
    assert!(rt; uni_of(alloc, widest).is_ok());
    assert!(rt; matches!(uni_of(alloc, wider), Err(TypeFault::Size)));
    Ok(())
}

#[test]
fn numbers_are_promoted(rt: HostRuntime) {
    for (a, b, wanted) in [
        (Prim::I8, Prim::I8, Some(Prim::I8)),
        (Prim::I8, Prim::U8, Some(Prim::I16)),
        (Prim::U32, Prim::I64, Some(Prim::I64)),
        (Prim::U8, Prim::U64, Some(Prim::U64)),
        (Prim::U64, Prim::I8, None),
        (Prim::Bool, Prim::Bool, None),
    ] {
        assert!(rt; promote(a, b) == wanted);
    }
}

#[test]
fn levels_are_of_equally_deep_branches(rt: HostRuntime) -> Result<(), Fail> {
    let alloc = rt.alloc();
    let numbers = Typ::Reg(3, Box::new(alloc, Typ::Leaf(Prim::I8))?);
    let lists = opt_of(alloc, Typ::Var(Box::new(alloc, numbers)?))?;
    let depth = levels(&lists);
    assert!(rt; depth == Some(2));
    assert!(rt; turned_axis(depth, -1) == 1);
    assert!(rt; turned_axis(depth, -3) == -1);
    let row = record(&rt, alloc, ["pt", "charge"])?;
    assert!(rt; levels(&opt_of(alloc, row)?) == Some(0));
    let mut parts = leaves(alloc, 1)?;
    parts.push(Typ::Var(Box::new(alloc, Typ::Unknown)?))?;
    let unequal = opt_of(alloc, Typ::Tup(parts))?;
    assert!(rt; levels(&unequal).is_none());
    Ok(())
}

#[test]
fn whole_numbers_are_kept_in_order(rt: HostRuntime) -> Result<(), Fail> {
    let mut edges = Wholes::new(rt.alloc());
    edges.push(-9_223_372_036_854_775_808)?;
    edges.push(18_446_744_073_709_551_615)?;
    assert!(rt; edges.len() == 2);
    assert!(rt; *edges.get(0) == -9_223_372_036_854_775_808);
    assert!(rt; *edges.get(1) == 18_446_744_073_709_551_615);
    Ok(())
}
