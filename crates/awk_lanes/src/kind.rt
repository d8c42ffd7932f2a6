//! The kinds of numbers, and a number as code holds it.
ghost use Rattle.std.specs.Prelude.{◌≡◌, ◌<◌, ◌≤◌};
ghost use Rattle.awk_lanes.specs.Numbers.{width};

/// The kind of a lane's numbers.
#[derive(Clone, Copy, Debug, PartialEq, Eq)]
pub enum Kind {
    Bool,
    I8,
    I16,
    I32,
    I64,
    U8,
    U16,
    U32,
    U64,
}

impl Kind {
    /// In how many bytes a number lies.
    pub fn width(self) -> usize
        ensures value { result ≡ width self }
        ensures positive { 0 < result }
        ensures small { result ≤ 8 }
    {
        match self {
            Kind::Bool | Kind::I8 | Kind::U8 => 1,
            Kind::I16 | Kind::U16 => 2,
            Kind::I32 | Kind::U32 => 4,
            Kind::I64 | Kind::U64 => 8,
        }
    }
}

/// A number: `Int` for the signed kinds, `Nat` for the unsigned kinds, `Truth` for `Bool`.
#[derive(Clone, Copy, Debug, PartialEq, Eq)]
pub enum Num {
    Int(i64),
    Nat(u64),
    Truth(bool),
}
