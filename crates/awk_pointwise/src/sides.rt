//! What an operand gives at each place.
ghost use Rattle.std.specs.Prelude.{◌≡◌};
ghost use Rattle.awk_pointwise.specs.Sides as spec;

use awk_lanes::Lane;
use awk_layout::prim_of;
use awk_leaves::LeafType;
use awk_types::Prim;

/// What an operand gives at each place.
#[derive(Drop)]
pub enum Side<'b, 'a> {
    /// The numbers of a lane.
    Column(&'b Lane<'a>),
    /// Unknown, which has no places.
    Missing,
    /// One number of a primitive, or one truth value as 0 or 1.
    Number(Prim, i128),
    /// One whole number that takes its type from the other side.
    Literal(i128),
}

impl<'b, 'a> Side<'b, 'a> {
    /// What its leaves are of.
    pub fn leaf_type(&self) -> LeafType
        ensures { result ≡ spec.leaf_type self.now }
    {
        match self {
            Side::Column(lane) => LeafType::Of(prim_of(lane.kind())),
            Side::Missing => LeafType::Unknown,
            Side::Number(prim, _) => LeafType::Of(*prim),
            Side::Literal(z) => LeafType::Literal(*z),
        }
    }
}
