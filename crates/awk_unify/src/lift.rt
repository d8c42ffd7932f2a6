//! How a value becomes one of another type.
ghost use Rattle.std.specs.Prelude.{◌≡◌, ◌<◌, ◌↔◌, [], ◌∷◌, ◌++◌, length, IfOk, IsTrue, OnErr};
ghost use Rattle.std.specs.Prelude.{OnOk};
ghost use Rattle.std.specs.Prelude.{slice_get};
ghost use Rattle.awk_unify.specs.View.{LiftBelow, lift_of, lifts_of};

use crate::places::Places;
use awk_types::NoMemory;
use std::alloc::Global;

/// How a value of one type becomes one of another. Null stays null.
#[cycle(lift)]
#[derive(Debug, Drop)]
pub enum Lift {
    /// The value as it is.
    Same,
    /// Each item of a list.
    Items(Box<Lift>),
    /// Each part of a row, to the place that is said for it.
    Parts { places: Places, parts: Lifts },
    /// A value of an alternative, to the alternative that is said for it; one of no union counts
    /// as one of a union of one.
    Alternatives { tags: Places, parts: Lifts },
}

/// Lifts in order.
#[cycle(lift)]
#[derive(Debug, Drop)]
pub struct Lifts {
    items: Vec<Lift>,
}

impl Lifts {
    /// No lifts.
    pub fn new(alloc: Global) -> Lifts
        ensures { lifts_of result ≡ [] }
    {
        Lifts {
            items: Vec::new(alloc),
        }
    }

    /// Puts a lift at the end.
    pub fn push(&mut self, item: Lift) -> Result<(), NoMemory>
        ensures ok { OnOk result (lifts_of self.new ≡ lifts_of self.old ++ lift_of item ∷ []) }
        ensures err { OnErr result (lifts_of self.new ≡ lifts_of self.old) }
    {
        self.items.push(item)?;
        Ok(())
    }

    /// How many lifts there are.
    pub fn len(&self) -> usize
        ensures { result ≡ length (lifts_of self.now) }
    {
        self.items.len()
    }

    /// The lift at a place.
    #[tactic(auto, using(crate::proofs::Views::lifts_get))]
    pub fn get(&self, i: usize) -> &Lift
        requires { i < length (lifts_of self.now) }
        ensures item { slice_get (lifts_of self.now) i ≡ Some (lift_of result.now) }
        ensures below { LiftBelow result.now self.now }
    {
        &self.items[i]
    }

    /// Equal lifts.
    #[cycle(copy)]
    pub fn copy(&self, alloc: Global) -> Result<Lifts, NoMemory>
        ensures { IfOk result (λ c. lifts_of c ≡ lifts_of self.now) }
    {
        let mut made = Lifts::new(alloc);
        for item in &self.items {
            made.push(copy_lift(alloc, item)?)?;
        }
        Ok(made)
    }
}

/// An equal lift.
#[cycle(copy)]
pub fn copy_lift(alloc: Global, f: &Lift) -> Result<Lift, NoMemory>
    ensures { IfOk result (λ c. lift_of c ≡ lift_of f.now) }
{
    match f {
        Lift::Same => Ok(Lift::Same),
        Lift::Items(item) => Ok(Lift::Items(Box::new(alloc, copy_lift(alloc, item)?)?)),
        Lift::Parts { places, parts } => {
            let places = places.copy(alloc)?;
            Ok(Lift::Parts {
                places,
                parts: parts.copy(alloc)?,
            })
        }
        Lift::Alternatives { tags, parts } => {
            let tags = tags.copy(alloc)?;
            Ok(Lift::Alternatives {
                tags,
                parts: parts.copy(alloc)?,
            })
        }
    }
}

/// Whether two lifts are the same.
#[cycle(same)]
pub(crate) fn same_lift(f: &Lift, g: &Lift) -> bool
    ensures { IsTrue result ↔ (lift_of f.now ≡ lift_of g.now) }
{
    match (f, g) {
        (Lift::Same, Lift::Same) => true,
        (Lift::Items(item), Lift::Items(other)) => same_lift(item, other),
        (
            Lift::Parts { places, parts },
            Lift::Parts {
                places: places_two,
                parts: parts_two,
            },
        ) => same_parts(places, parts, places_two, parts_two),
        (
            Lift::Alternatives { tags, parts },
            Lift::Alternatives {
                tags: tags_two,
                parts: parts_two,
            },
        ) => same_parts(tags, parts, tags_two, parts_two),
        _ => false,
    }
}

/// Whether two lists of lifts are the same, and what stands beside them is.
#[cycle(same)]
fn same_parts(ps: &Places, fs: &Lifts, qs: &Places, gs: &Lifts) -> bool
    ensures { IsTrue result ↔ (ps.now ≡ qs.now) × (lifts_of fs.now ≡ lifts_of gs.now) }
{
    ps.same(qs) && same_lifts(fs, gs)
}

/// Whether two lists of lifts are the same.
#[cycle(same)]
pub(crate) fn same_lifts(fs: &Lifts, gs: &Lifts) -> bool
    ensures { IsTrue result ↔ (lifts_of fs.now ≡ lifts_of gs.now) }
{
    if fs.items.len() != gs.items.len() {
        return false;
    }
    for i in 0..fs.items.len() {
        if !same_lift(&fs.items[i], &gs.items[i]) {
            return false;
        }
    }
    true
}
