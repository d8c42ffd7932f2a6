//! Why a function of lists is not applied.
ghost use Rattle.std.specs.Prelude.{◌≡◌, Some};
ghost use Rattle.awk_list_functions.specs.Causes.{refusal_rank, spoil_rank, sooner, first_spoil};

/// Why a type is refused.
#[derive(Clone, Copy, Debug, PartialEq, Eq)]
pub enum Refusal {
    /// There is no list at the axis.
    Axis,
    /// The type is not one that the function takes.
    WrongType,
    /// A literal does not fit the type.
    Overflow,
}

/// Why values are refused.
#[derive(Clone, Copy, Debug, PartialEq, Eq)]
pub enum Spoil {
    /// A place is out of range.
    Index,
    /// A column has too many items.
    Size,
    /// A result does not fit its type.
    Overflow,
}

fn refusal_rank(refusal: Option<Refusal>) -> u8
    ensures { result ≡ refusal_rank refusal }
{
    match refusal {
        Some(Refusal::Axis) => 0,
        Some(Refusal::WrongType) => 1,
        Some(Refusal::Overflow) => 2,
        None => 3,
    }
}

fn spoil_rank(spoil: Option<Spoil>) -> u8
    ensures { result ≡ spoil_rank spoil }
{
    match spoil {
        Some(Spoil::Index) => 0,
        Some(Spoil::Size) => 1,
        Some(Spoil::Overflow) => 2,
        None => 3,
    }
}

/// The one that is told first.
pub fn sooner_refusal(a: Option<Refusal>, b: Option<Refusal>) -> Option<Refusal>
    ensures { result ≡ sooner a b }
{
    if refusal_rank(b) < refusal_rank(a) {
        b
    } else {
        a
    }
}

/// The one that is told first.
pub fn sooner_spoil(a: Option<Spoil>, b: Option<Spoil>) -> Option<Spoil>
    ensures { result ≡ first_spoil a b }
{
    if spoil_rank(b) < spoil_rank(a) { b } else { a }
}

/// The one that is told first, where one is told anyway.
#[tactic(auto, using(crate::proofs::JudgedTypes::first_some))]
pub fn first_of(many: Option<Spoil>, why: Spoil) -> Spoil
    ensures { first_spoil many (Some why) ≡ Some result }
{
    match sooner_spoil(many, Some(why)) {
        Some(first) => first,
        None => why,
    }
}
