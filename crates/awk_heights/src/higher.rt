//! Whether a layout is higher than a limit.
ghost use Rattle.std.specs.Prelude.{◌≡◌, ◌*◌, nat_lt};
ghost use Rattle.awk_layout.specs.Layout.{contents_of, height, heights, layouts_from};
ghost use Rattle.awk_layout.specs.Typing.{array_type};
ghost use Rattle.awk_heights.specs.Contents.{layouts_of};
ghost use Rattle.awk_heights.specs.Low.{height_limit};

use awk_layout::{Array, Class, Node, Nodes};
use awk_types::depth;

/// The contents of a node.
#[derive(Drop)]
pub enum Contents<'n, 'a> {
    Nothing,
    One(&'n Node<'a>),
    Several(&'n Nodes<'a>),
}

fn contents_below<'n, 'a>(x: &'n Node<'a>) -> Contents<'n, 'a>
    ensures { layouts_of result ≡ contents_of x.now }
{
    match x.class() {
        Class::Empty => Contents::Nothing,
        Class::Numpy { .. } => Contents::Nothing,
        Class::Regular { content, .. } => Contents::One(content),
        Class::List { content, .. } => Contents::One(content),
        Class::ListOffset { content, .. } => Contents::One(content),
        Class::Row { contents, .. } => Contents::Several(contents),
        Class::Indexed { content, .. } => Contents::One(content),
        Class::IndexedOption { content, .. } => Contents::One(content),
        Class::ByteMasked { content, .. } => Contents::One(content),
        Class::BitMasked { content, .. } => Contents::One(content),
        Class::Unmasked { content } => Contents::One(content),
        Class::Union { contents, .. } => Contents::Several(contents),
    }
}

/// Whether a node has more than so many nodes on a path. It looks no deeper than that.
#[cycle(higher)]
fn is_higher(x: &Node, most: u64) -> bool
    ensures { result ≡ nat_lt most (height x.now) }
{
    if most == 0 {
        return true;
    }
    match contents_below(x) {
        Contents::Nothing => false,
        Contents::One(content) => is_higher(content, most - 1),
        Contents::Several(contents) => is_some_higher(contents, most - 1),
    }
}

/// Whether one of some nodes is higher.
#[cycle(higher)]
fn is_some_higher(xs: &Nodes, most: u64) -> bool
    ensures { result ≡ nat_lt most (heights (layouts_from xs.now)) }
{
    for i in 0..xs.len() {
        if is_higher(xs.get(i), most) {
            return true;
        }
    }
    false
}

/// Whether an array is higher than its type asks for.
pub(crate) fn is_high(x: &Array) -> bool
    ensures { result ≡ nat_lt (height_limit (array_type x.now)) (height x.now) }
{
    let most = depth(x.typ());
    is_higher(x.node(), 2 * most)
}
