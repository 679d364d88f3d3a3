ghost use Rattle.std.specs.Prelude.{◌≡◌, IfOk};
ghost use Rattle.alg_model.specs.Carriers.{carrier_of};
ghost use Rattle.alg_model.specs.Formation.{IsCarrier, IsFormed};
ghost use Rattle.alg_model.specs.Views.{expression_of, pure_carrier};

use alg_model::{Carrier, Tree, tree_carrier};
use meta_base::NoMemory;
use std::alloc::Global;
use std::marker::Model;

/// A part of an algebra, which meets the rules of formation. Contracts see its expression.
#[derive(Drop)]
pub(crate) struct Part<'a> {
    tree: &'a Tree,
}

impl<'a> Model for Part<'a> {
    ghost use Rattle.alg_model.specs.Codes.{coded_expression};
    ghost use Rattle.alg_model.specs.Expressions.{Expression};
    ghost use Rattle.alg_model.specs.Formation.{IsFormed};
    ghost use Rattle.alg_model.specs.Views.{expression_of};

    ghost Value = { Expression };

    ghost coded = { coded_expression };

    ghost view = { λ s. expression_of s.tree.now };

    ghost invariant = { λ s. IsFormed (expression_of s.tree.now) };
}

impl<'a> Part<'a> {
    pub(crate) fn of(tree: &'a Tree) -> Part<'a>
        requires { IsFormed (expression_of tree.now) }
        ensures { result ≡ expression_of tree.now }
    {
        Part { tree }
    }

    // The same part.
    pub(crate) fn again(&self) -> Part<'a>
        ensures { result ≡ self.now }
    {
        Part { tree: self.tree }
    }

    // Its carrier.
    pub(crate) fn carrier(&self, alloc: Global) -> Result<Carrier, NoMemory>
        ensures carrier { IfOk result (λ c. pure_carrier c ≡ carrier_of self.now) }
        ensures may_be { IfOk result (λ c. IsCarrier (pure_carrier c)) }
    {
        tree_carrier(alloc, self.tree)
    }
}
