ghost use Rattle.std.specs.Prelude.{MatchOption, ◌≡◌, IfOk, IfErr};
ghost use Rattle.alg_model.specs.declared.edition.Edition.TheVariants.{One};
ghost use Rattle.alg_model.specs.Views.{expression_of};
ghost use Rattle.alg_model.specs.Formation.{IsFormed, IsAlg, IsFirstBroken};
ghost use Rattle.alg_model.specs.Bounds.{ExpressionAtMost, greatest_number};
ghost use Rattle.alg_model.specs.Numbers.{max_instance_number, max_marks, max_simple_symbols, max_table_names, max_tree_nodes, max_value_number};
ghost use Rattle.meta_base.specs.declared.limits.TheConstants.{MAX_NUMBER};

use crate::formation::{meets_carriers, meets_names, meets_ranges, room_after};
use crate::{Amount, Edition, Tree};
use meta_base::NoMemory;
use std::alloc::Global;
use std::marker::Model;
use thiserror::Error;

/// The most nodes that the tree of an algebra may have.
pub const MAX_TREE_NODES: usize = 256;

/// The most values that a table may have, and the most rows.
pub const MAX_TABLE_NAMES: usize = 16;

/// The most symbols of sequences without a repeat.
pub const MAX_SIMPLE_SYMBOLS: u64 = 1024;

/// The most numbers of sets: they are the bits of a word.
pub const MAX_MARKS: u64 = 64;

/// The greatest number of a value that a label may be applied to: the numbers of images leave room
/// above it.
pub const MAX_VALUE_NUMBER: Amount = 1 << 120;

/// The greatest number of the values of an instance.
pub const MAX_INSTANCE_NUMBER: Amount = 1 << 66;

/// The bounds of expressions and of values are the numbers of the specification.
pub fn numbers_are_specified()
    ensures tree_nodes { MAX_TREE_NODES ≡ max_tree_nodes }
    ensures table_names { MAX_TABLE_NAMES ≡ max_table_names }
    ensures simple_symbols { MAX_SIMPLE_SYMBOLS ≡ max_simple_symbols }
    ensures marks { MAX_MARKS ≡ max_marks }
    ensures value { MAX_VALUE_NUMBER ≡ max_value_number }
    ensures instance { MAX_INSTANCE_NUMBER ≡ max_instance_number }
{}

/// The first formation rule that a tree breaks, in this order.
#[derive(Clone, Copy, Debug, PartialEq, Eq, Error)]
pub enum Shape {
    /// A low number is above its high number or a high one above its top, there are too few or too
    /// many symbols or numbers, or the sizes, ranks or images of a table don't fit one another.
    #[error("a number is out of its range")]
    Range,
    /// The two sides of a `plus` have different carriers.
    #[error("the carriers of a plus differ")]
    Carriers,
    /// The tree has more than [`MAX_TREE_NODES`] nodes.
    #[error("the expression is too large")]
    Size,
    /// A table's name is `none` or no word, or is there twice among the values or among the rows.
    #[error("a name of a table is no name, or there twice")]
    Names,
}

/// An algebra: a tree that meets the formation rules, and none of whose numbers is above the greatest of
/// its edition. Contracts see it as its expression and its edition.
#[derive(Debug, Drop)]
pub struct Alg {
    tree: Tree,
    edition: Edition,
}

impl Model for Alg {
    ghost use Rattle.alg_model.specs.Expressions.{PureAlg};
    ghost use Rattle.alg_model.specs.Codes.{coded_alg};
    ghost use Rattle.alg_model.specs.Views.{expression_of};
    ghost use Rattle.alg_model.specs.Formation.{IsAlg};

    ghost Value = { PureAlg };

    ghost coded = { coded_alg };

    ghost view = { λ a. record { expression = expression_of a.tree; edition = a.edition } };

    ghost invariant = { λ a. IsAlg (record { expression = expression_of a.tree; edition = a.edition }) };
}

impl Alg {
    /// The algebra of profile 1 of a tree whose numbers are at most [`meta_base::MAX_NUMBER`], or the
    /// first formation rule that the tree breaks. It takes no memory.
    pub fn checked(tree: Tree) -> Result<Alg, Shape>
        requires { ExpressionAtMost MAX_NUMBER (expression_of tree) }
        ensures algebra { IfOk result (λ alg. alg ≡ record { expression = expression_of tree; edition = One }) }
        ensures formed { IfOk result (λ _. IsFormed (expression_of tree)) }
        ensures broken { IfErr result (IsFirstBroken (expression_of tree)) }
    {
        Alg::checked_in(tree, Edition::One)
    }

    /// The algebra of this edition of a tree whose numbers are at most the edition's greatest, or the
    /// first formation rule that the tree breaks. It takes no memory.
    pub fn checked_in(tree: Tree, edition: Edition) -> Result<Alg, Shape>
        requires { ExpressionAtMost (greatest_number edition) (expression_of tree) }
        ensures algebra { IfOk result (λ alg. alg ≡ record { expression = expression_of tree; edition = edition }) }
        ensures formed { IfOk result (λ _. IsFormed (expression_of tree)) }
        ensures broken { IfErr result (IsFirstBroken (expression_of tree)) }
    {
        match first_broken(&tree) {
            Some(rule) => Err(rule),
            None => Ok(Alg { tree, edition }),
        }
    }

    /// The algebra of this edition of a tree that is known to meet the formation rules and the edition's bound. It
    /// takes no memory, and tests nothing.
    pub fn formed(tree: Tree, edition: Edition) -> Alg
        requires { IsAlg (record { expression = expression_of tree; edition = edition }) }
        ensures { result ≡ record { expression = expression_of tree; edition = edition } }
    {
        Alg { tree, edition }
    }

    /// The algebra of the same edition with a tree equal to `part`, which meets the formation rules and
    /// the edition's bound, as each part of an algebra's tree does. Given the algebra's own tree it
    /// copies the whole.
    pub fn copy_part(&self, alloc: Global, part: &Tree) -> Result<Alg, NoMemory>
        requires { IsAlg (record { expression = expression_of part.now; edition = self.now.edition }) }
        ensures { IfOk result (λ alg.
            alg ≡ record { expression = expression_of part.now; edition = self.now.edition }) }
    {
        Ok(Alg {
            tree: part.copy(alloc)?,
            edition: self.edition,
        })
    }

    /// The edition of the algebra's text. It takes no memory.
    pub fn edition(&self) -> Edition
        ensures { result ≡ self.now.edition }
    {
        self.edition
    }

    /// Lends the tree.
    pub fn tree(&self) -> &Tree
        ensures tree { expression_of result.now ≡ self.now.expression }
        ensures formed { IsAlg self.now }
    {
        &self.tree
    }
}

// The first formation rule that the tree breaks.
fn first_broken(tree: &Tree) -> Option<Shape>
    ensures { MatchOption result (IsFormed (expression_of tree.now)) (IsFirstBroken (expression_of tree.now)) }
{
    if !meets_ranges(tree) {
        Some(Shape::Range)
    } else if !meets_carriers(tree) {
        Some(Shape::Carriers)
    } else if room_after(tree, MAX_TREE_NODES).is_none() {
        Some(Shape::Size)
    } else if !meets_names(tree) {
        Some(Shape::Names)
    } else {
        None
    }
}
