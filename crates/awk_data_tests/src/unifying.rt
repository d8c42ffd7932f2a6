// What two types unify to, and where the values of each go.
use awk_types::{Fields, Name, Names, NoMemory, Prim, Typ, Typs, opt_of, same, simple_of, uni_of};
use awk_unify::{Lift, unify};
use std::alloc::Global;
use std::process::Abort;
use std::test::Fail;

/// Two leaf types.
fn pair(alloc: Global, p: Prim, q: Prim) -> Result<Typs, NoMemory> {
    let mut made = Typs::new(alloc);
    made.push(Typ::Leaf(p))?;
    made.push(Typ::Leaf(q))?;
    Ok(made)
}

/// The record of two fields.
fn record(rt: &impl Abort, alloc: Global, texts: [&str; 2], types: Typs) -> Result<Typ, NoMemory> {
    let mut names = Names::new(alloc);
    for text in &texts {
        names.push(Name::new(alloc, text)?)?;
    }
    assert!(rt; names.len() == types.len());
    Ok(Typ::Rec(Fields::named(alloc, &names, types)?))
}

/// The first tag or place that a lift of a union or of a row goes to.
fn first(rt: &impl Abort, f: &Lift) -> u64 {
    let places = match f {
        Lift::Parts { places, .. } => places,
        Lift::Alternatives { tags, .. } => tags,
        _ => panic!(rt; "neither a row nor a union"),
    };
    assert!(rt; places.len() > 0);
    places.get(0)
}

#[test]
fn an_option_goes_outside(rt: HostRuntime) -> Result<(), Fail> {
    let alloc = rt.alloc();
    let narrow = simple_of(alloc, Typ::Leaf(Prim::I8))?;
    let unsigned = opt_of(alloc, Typ::Leaf(Prim::U8))?;
    let made = unify(alloc, &narrow, &unsigned)?;
    assert!(rt; same(&made.typ, &opt_of(alloc, Typ::Leaf(Prim::I16))?));
    assert!(rt; matches!(made.left, Lift::Same) && matches!(made.right, Lift::Same));
    Ok(())
}

#[test]
fn numbers_and_truth_values_are_a_union(rt: HostRuntime) -> Result<(), Fail> {
    let alloc = rt.alloc();
    let number = simple_of(alloc, Typ::Leaf(Prim::I64))?;
    let truth = simple_of(alloc, Typ::Leaf(Prim::Bool))?;
    let made = unify(alloc, &number, &truth)?;
    let both = pair(alloc, Prim::I64, Prim::Bool)?;
    assert!(rt; both.len() == 2);
    assert!(rt; same(&made.typ, &uni_of(alloc, both)?));
    assert!(rt; first(&rt, &made.left) == 0 && first(&rt, &made.right) == 1);
    Ok(())
}

#[test]
fn fields_go_by_name(rt: HostRuntime) -> Result<(), Fail> {
    let alloc = rt.alloc();
    let numbers = pair(alloc, Prim::I64, Prim::Bool)?;
    let swapped = pair(alloc, Prim::Bool, Prim::I8)?;
    let one = simple_of(alloc, record(&rt, alloc, ["pt", "isolated"], numbers)?)?;
    let other = simple_of(alloc, record(&rt, alloc, ["isolated", "pt"], swapped)?)?;
    let made = unify(alloc, &one, &other)?;
    assert!(rt; same(&made.typ, &one));
    assert!(rt; first(&rt, &made.left) == 0 && first(&rt, &made.right) == 1);
    Ok(())
}
