//! The operations: their names and what they take.
ghost use Rattle.std.specs.Prelude.{◌≡◌, option_map};
ghost use Rattle.awk_expr.specs.Operations.{rows_of, row_of, row_among, found_of};

use crate::kind::ArgKind;
use crate::kind::ArgKind::{
    Bound, Count, Edges, Expr, Exprs, NamedExprs, Place, Primitive, SomeCount, Step, Text, Texts,
    Truth,
};
use crate::op::{AxisOp, Extent, LogicOp, Op, PairOp, PlaceOp, ReduceOp, SingleOp, Target};
use awk_kernels::{Arith, Compare};

// Each name, its operation, and what the arguments are. A name stands once for each number of them.
const OPERATIONS: [(&str, Op, &[ArgKind]); 61] = [
    ("at", Op::Place(PlaceOp::At), &[Expr, Place]),
    ("range", Op::Range, &[Expr, Bound, Bound]),
    ("range", Op::Range, &[Expr, Bound, Bound, Step]),
    ("field", Op::Field, &[Expr, Text]),
    ("fields", Op::Fields, &[Expr, Texts]),
    ("without_field", Op::WithoutField, &[Expr, Text]),
    ("at_each", Op::Place(PlaceOp::AtEach), &[Expr, Place]),
    ("pick", Op::Pair(PairOp::Pick), &[Expr, Expr]),
    ("num", Op::Axis(AxisOp::Num), &[Expr, Place]),
    ("flatten", Op::Axis(AxisOp::Flatten), &[Expr, Place]),
    ("local_index", Op::Axis(AxisOp::LocalIndex), &[Expr, Place]),
    ("unflatten", Op::Pair(PairOp::Unflatten), &[Expr, Expr]),
    ("run_lengths", Op::RunLengths, &[Expr]),
    ("zip", Op::Zip, &[SomeCount, NamedExprs]),
    ("tuple", Op::Tuple, &[SomeCount, Exprs]),
    ("with_field", Op::WithField, &[Expr, Text, Expr]),
    ("is_none", Op::Axis(AxisOp::IsNone), &[Expr, Place]),
    ("fill_none", Op::FillNone, &[Expr, Expr, Place]),
    ("drop_none", Op::Axis(AxisOp::DropNone), &[Expr, Place]),
    ("firsts", Op::Axis(AxisOp::Firsts), &[Expr, Place]),
    ("singletons", Op::Axis(AxisOp::Singletons), &[Expr, Place]),
    ("pad_none", Op::PadNone, &[Expr, Count, Place, Truth]),
    ("put_mask", Op::PutMask, &[Expr, Expr, Truth]),
    ("concatenate", Op::Concatenate, &[Place, Exprs]),
    ("add", Op::Calculate(Arith::Add), &[Expr, Expr]),
    ("sub", Op::Calculate(Arith::Sub), &[Expr, Expr]),
    ("mul", Op::Calculate(Arith::Mul), &[Expr, Expr]),
    ("floor_div", Op::Calculate(Arith::FloorDiv), &[Expr, Expr]),
    ("rem", Op::Calculate(Arith::Rem), &[Expr, Expr]),
    ("eq", Op::Test(Compare::Eq), &[Expr, Expr]),
    ("ne", Op::Test(Compare::Ne), &[Expr, Expr]),
    ("lt", Op::Test(Compare::Lt), &[Expr, Expr]),
    ("le", Op::Test(Compare::Le), &[Expr, Expr]),
    ("gt", Op::Test(Compare::Gt), &[Expr, Expr]),
    ("ge", Op::Test(Compare::Ge), &[Expr, Expr]),
    ("and", Op::Join(LogicOp::And), &[Expr, Expr]),
    ("or", Op::Join(LogicOp::Or), &[Expr, Expr]),
    ("xor", Op::Join(LogicOp::Xor), &[Expr, Expr]),
    ("not", Op::Single(SingleOp::Not), &[Expr]),
    ("neg", Op::Single(SingleOp::Neg), &[Expr]),
    ("abs", Op::Single(SingleOp::Abs), &[Expr]),
    ("where", Op::Choose, &[Expr, Expr, Expr]),
    ("cast", Op::Cast, &[Expr, Primitive]),
    ("sum", Op::Reduce(ReduceOp::Sum), &[Expr]),
    ("prod", Op::Reduce(ReduceOp::Prod), &[Expr]),
    ("min", Op::Reduce(ReduceOp::Min), &[Expr]),
    ("max", Op::Reduce(ReduceOp::Max), &[Expr]),
    ("argmin", Op::Reduce(ReduceOp::Argmin), &[Expr]),
    ("argmax", Op::Reduce(ReduceOp::Argmax), &[Expr]),
    ("any", Op::Reduce(ReduceOp::Any), &[Expr]),
    ("all", Op::Reduce(ReduceOp::All), &[Expr]),
    ("count", Op::Reduce(ReduceOp::Count), &[Expr]),
    ("count_nonzero", Op::Reduce(ReduceOp::CountNonzero), &[Expr]),
    ("cartesian", Op::Cartesian(Target::Items), &[Place, Exprs]),
    (
        "argcartesian",
        Op::Cartesian(Target::Places),
        &[Place, Exprs],
    ),
    (
        "combinations",
        Op::Combinations(Target::Items),
        &[SomeCount, Truth, Place, Expr],
    ),
    (
        "argcombinations",
        Op::Combinations(Target::Places),
        &[SomeCount, Truth, Place, Expr],
    ),
    ("sort", Op::Sort(Target::Items), &[Expr, Truth]),
    ("argsort", Op::Sort(Target::Places), &[Expr, Truth]),
    ("hist", Op::Hist(Extent::Whole), &[Expr, Edges]),
    ("hist_each", Op::Hist(Extent::Each), &[Expr, Edges]),
];

/// The operation of a name that takes so many arguments, and what each of them is.
pub fn operation(name: &str, count: usize) -> Option<(Op, &'static [ArgKind])>
    ensures { option_map found_of result ≡ row_of name.now count }
{
    among(&OPERATIONS, name, count)
}

// The first row with this name and so many arguments.
fn among(
    rows: &[(&str, Op, &'static [ArgKind])],
    name: &str,
    count: usize,
) -> Option<(Op, &'static [ArgKind])>
    ensures { option_map found_of result ≡ row_among (rows_of rows.now) name.now count }
{
    for row in rows {
        if row.2.len() == count && row.0 == name {
            return Some((row.1, row.2));
        }
    }
    None
}
