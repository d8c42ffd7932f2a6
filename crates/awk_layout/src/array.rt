//! Arrays: nodes with their simple types.
ghost use Rattle.std.specs.Prelude.{◌≡◌, ◌<◌, ◌++◌, ◌∷◌, [], length, slice_get};
ghost use Rattle.std.specs.Prelude.{Some, None, IfOk, OnOk, OnErr};
ghost use Rattle.std.specs.List.{AllByRecursion};
ghost use Rattle.awk_types.specs.Gives.{Gives};
ghost use Rattle.awk_types.specs.Has.{Has};
ghost use Rattle.awk_types.specs.Limit.{limit, limit_told};
ghost use Rattle.awk_types.specs.View.{typ_of};
ghost use Rattle.awk_layout.specs.Array.{array_of, IsArrayType, IsTypeOf};
ghost use Rattle.awk_layout.specs.Typing.{array_type, array_items};
ghost use Rattle.awk_layout.specs.Valid.{len, IsValid};

use crate::node::Node;
use crate::typing::type_of;
use awk_types::{NoMemory, Typ, TypeFault, copy_type, simple_of};
use std::alloc::{AllocError, Global};
use std::marker::Model;

/// A node with its type, which is simple and passes no limit.
pub struct Array<'a> {
    node: Node<'a>,
    typ: Typ,
}

// The drops are written out, so that whoever drops an array sees one call.

impl Drop for Array<'_> {
    fn drop(self) {
        let Array { node, typ } = self;
        let_go(node, typ);
    }
}

fn let_go(_node: Node<'_>, _typ: Typ) {}

impl<'a> Model for Array<'a> {
    ghost use Rattle.awk_layout.specs.Layout.{Layout};
    ghost use Rattle.awk_layout.specs.Code.{coded_layout};

    ghost Value = { Layout };

    ghost coded = { coded_layout };

    ghost use Rattle.awk_types.specs.View.{typ_of};
    ghost use Rattle.awk_layout.specs.Array.{IsTypeOf};

    ghost view = { λ a. a.node };

    ghost invariant = { λ a. IsTypeOf (typ_of a.typ) a.node };
}

impl<'a> Array<'a> {
    /// The array of a node, which is dropped on a refusal.
    pub fn new(alloc: Global, node: Node<'a>) -> Result<Array<'a>, TypeFault>
        ensures gives { Gives (λ array. array) limit_told result (array_of node.entry) }
        ensures node { IfOk result (λ array. array ≡ node.entry) }
    {
        let typ = simple_of(alloc, type_of(alloc, &node)?)?;
        Ok(Array { node, typ })
    }

    /// The array of a node whose simple type is at hand.
    pub fn with_type(node: Node<'a>, typ: Typ) -> Array<'a>
        requires { IsTypeOf (typ_of typ) node }
        ensures { result ≡ node.entry }
    {
        Array { node, typ }
    }

    /// The array of a node whose type passes no limit. It makes the type anew.
    #[tactic(auto, using(crate::proofs::JudgedTypes::judging))]
    pub fn of_node(alloc: Global, node: Node<'a>) -> Result<Array<'a>, NoMemory>
        requires { limit (array_type node) ≡ None }
        ensures { IfOk result (λ array. array ≡ node.entry) }
    {
        match Array::new(alloc, node) {
            Ok(array) => Ok(array),
            Err(TypeFault::NoMemory) => Err(AllocError),
            Err(TypeFault::Depth | TypeFault::Size) => unreachable!(),
        }
    }

    /// The array of a node whose simple type is at hand, and was judged to pass no limit.
    #[tactic(auto, using(crate::proofs::JudgedTypes::judging))]
    pub fn within_limits(node: Node<'a>, typ: Typ) -> Array<'a>
        requires typ { typ_of typ ≡ array_type node }
        requires limit { limit (array_type node) ≡ None }
        ensures { result ≡ node.entry }
    {
        let _ = node.len(); // the node is valid
        Array { node, typ }
    }

    /// The node, taken out without a copy.
    pub fn into_node(self) -> Node<'a>
        ensures { result ≡ self.entry }
    {
        let Array { node, typ: _ } = self;
        node
    }

    /// The node and the simple type, taken apart without a copy.
    pub fn into_parts(self) -> (Node<'a>, Typ)
        ensures node { result.0 ≡ self.entry }
        ensures typ { IsTypeOf (typ_of result.1) self.entry }
    {
        let Array { node, typ } = self;
        (node, typ)
    }

    /// The node.
    pub fn node(&self) -> &Node<'a>
        ensures { result.now ≡ self.now }
    {
        &self.node
    }

    /// The number of items.
    pub fn len(&self) -> u64
        ensures len { result ≡ len self.now }
        ensures valid { IsValid self.now }
        ensures items { AllByRecursion (Has (array_type self.now)) (array_items self.now) }
    {
        self.node.len()
    }

    /// The type of the items.
    pub fn typ(&self) -> &Typ
        ensures typ { typ_of result.now ≡ array_type self.now }
        ensures lawful { IsArrayType (array_type self.now) }
    {
        &self.typ
    }

    /// The same array over the same bytes. It takes no step.
    pub fn copy(&self, alloc: Global) -> Result<Array<'a>, NoMemory>
        ensures { IfOk result (λ copied. copied ≡ self.now) }
    {
        let node = self.node.copy(alloc)?;
        let typ = copy_type(alloc, &self.typ)?;
        Ok(Array { node, typ })
    }
}

/// Arrays in order.
pub struct Arrays<'a> {
    arrays: Vec<Array<'a>>,
}

impl Drop for Arrays<'_> {
    fn drop(self) {
        let Arrays { arrays } = self;
        let_all_go(arrays);
    }
}

fn let_all_go(_arrays: Vec<Array<'_>>) {}

impl<'a> Model for Arrays<'a> {
    ghost use Rattle.std.specs.Prelude.{List};
    ghost use Rattle.std.specs.Coded.{coded_list};
    ghost use Rattle.awk_layout.specs.Layout.{Layout};
    ghost use Rattle.awk_layout.specs.Code.{coded_layout};

    ghost Value = { List Layout };

    ghost coded = { coded_list coded_layout };

    ghost view = { λ a. a.arrays.items };
}

impl<'a> Arrays<'a> {
    /// No arrays.
    pub fn new(alloc: Global) -> Arrays<'a>
        ensures { result ≡ [] }
    {
        Arrays {
            arrays: Vec::new(alloc),
        }
    }

    /// One array.
    pub fn only(alloc: Global, array: Array<'a>) -> Result<Arrays<'a>, NoMemory>
        ensures { IfOk result (λ arrays. arrays ≡ array.entry ∷ []) }
    {
        let mut arrays = Arrays::new(alloc);
        arrays.push(array)?;
        Ok(arrays)
    }

    /// Puts an array at the end.
    pub fn push(&mut self, item: Array<'a>) -> Result<(), NoMemory>
        ensures ok { OnOk result (self.new ≡ self.old ++ item.entry ∷ []) }
        ensures err { OnErr result (self.new ≡ self.old) }
    {
        self.arrays.push(item)?;
        Ok(())
    }

    /// How many arrays there are.
    pub fn len(&self) -> usize
        ensures { result ≡ length self.now }
    {
        self.arrays.len()
    }

    /// The array at a place.
    pub fn get(&self, i: usize) -> &Array<'a>
        requires { i < length self.now }
        ensures { slice_get self.now i ≡ Some result.now }
    {
        &self.arrays[i]
    }
}
