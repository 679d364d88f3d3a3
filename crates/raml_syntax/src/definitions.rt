// The names that earlier `let`s define, and the trees that were read.
ghost use Rattle.std.specs.Prelude.{◌≡◌, ◌≤◌, [], ◌∷◌, false, length, MatchOption, IfSome, IfOk, OnOk, Some, None};
ghost use Rattle.alg_model.specs.Formation.{node_count};
ghost use Rattle.alg_model.specs.declared.alg.TheConstants.{MAX_TREE_NODES};
ghost use Rattle.raml_syntax.specs.Syntax.{is_among};
ghost use Rattle.raml_syntax.specs.Meaning.{lookup};
ghost use Rattle.raml_syntax.specs.Forest.{IsTree, tree_at, node_meaning, HasParts};
ghost use Rattle.raml_syntax.specs.Definitions.{names_of, Keeps};

use crate::forest::{Forest, Node, TreeId};
use indexmap::IndexMap;
use meta_base::NoMemory;
use std::alloc::Global;
use std::marker::Model;

/// What the names of earlier `let`s stand for. A name is found by its hash, however many there are, and
/// stands for the number of its tree. Contracts see the trees, and the latest definition first.
#[derive(Debug, Drop)]
pub struct Definitions<'a> {
    forest: Forest,
    numbers: IndexMap<&'a [u8], TreeId>,
}

impl<'a> Model for Definitions<'a> {
    ghost use Rattle.std.specs.Prelude.{[]};
    ghost use Rattle.raml_syntax.specs.Definitions.{Known, coded_known, latest_first, AreApart, HaveTrees};

    ghost Value = { Known };

    ghost coded = { coded_known };

    ghost view = { λ d. record { trees = d.forest; defined = latest_first d.forest d.numbers.entries [] } };

    ghost invariant = { λ d. AreApart (latest_first d.forest d.numbers.entries [])
        × HaveTrees d.forest d.numbers.entries };
}

impl<'a> Definitions<'a> {
    /// No trees and no definitions.
    pub fn new(alloc: Global) -> Definitions<'a>
        ensures trees { result.trees ≡ [] }
        ensures defined { result.defined ≡ [] }
    {
        Definitions {
            forest: Forest::new(alloc),
            numbers: IndexMap::new(alloc),
        }
    }

    /// The trees that were read.
    pub fn forest(&self) -> &Forest
        ensures { result.now ≡ self.now.trees }
    {
        &self.forest
    }

    /// The tree that the name stands for, if it is defined.
    pub fn lookup(&self, name: &[u8]) -> Option<TreeId>
        ensures found { MatchOption result (lookup self.now.defined name.now ≡ None)
            (λ id. lookup self.now.defined name.now ≡ Some (tree_at self.now.trees id)) }
        ensures tree { IfSome result (IsTree self.now.trees) }
    {
        self.numbers.get(name).copied()
    }

    /// Whether the name is defined.
    pub fn has(&self, name: &[u8]) -> bool
        ensures { result ≡ is_among (names_of self.now.defined) name.now }
    {
        self.numbers.contains_key(name)
    }

    /// Adds a tree whose parts are there. It fails only for want of memory.
    pub fn plant(&mut self, root: Node) -> Result<TreeId, NoMemory>
        requires parts { HasParts (length self.old.trees) root }
        requires small { node_count (node_meaning self.old.trees root) ≤ MAX_TREE_NODES }
        ensures keeps { Keeps self.old self.new }
        ensures tree { IfOk result (IsTree self.new.trees) }
        ensures means { IfOk result (λ id. tree_at self.new.trees id ≡ node_meaning self.old.trees root) }
    {
        self.forest.plant(root)
    }

    /// Lets a name that isn't defined yet stand for the tree. It fails only for want of memory.
    pub fn define(&mut self, name: &'a [u8], tree: TreeId) -> Result<(), NoMemory>
        requires tree { IsTree self.old.trees tree }
        requires absent { is_among (names_of self.old.defined) name.now ≡ false }
        ensures trees { OnOk result (self.new.trees ≡ self.old.trees) }
        ensures defined { OnOk result (self.new.defined
            ≡ record { name = name.now; expression = tree_at self.old.trees tree } ∷ self.old.defined) }
    {
        self.numbers.insert(name, tree)?;
        Ok(())
    }
}
