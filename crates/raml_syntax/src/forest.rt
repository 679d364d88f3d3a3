// The trees that were read. Each stands once, after its parts, and is known by its number, so a name
// costs no copy of its tree.
ghost use Rattle.std.specs.Prelude.{◌≡◌, ◌↔◌, ◌≤◌, ◌∷◌, ◌++◌, [], true, length, IfOk, OnOk, OnErr};
ghost use Rattle.alg_model.specs.Views.{expression_of};
ghost use Rattle.alg_model.specs.Carriers.{carrier_of};
ghost use Rattle.alg_model.specs.Formation.{node_count};
ghost use Rattle.raml_syntax.specs.Meaning.{paired_meaning, single_meaning};
ghost use Rattle.raml_syntax.specs.Heads.{paired_of, single_of};
ghost use Rattle.raml_syntax.specs.Forest.{IsTree, tree_at, node_meaning, HasParts, StandsAt};

use crate::heads::{Paired, Single};
use alg_model::{MAX_TREE_NODES, Tree};
use meta_base::NoMemory;
use std::alloc::Global;
use std::marker::Model;

/// The number of a tree of a forest.
#[derive(Clone, Copy, Debug)]
pub struct TreeId {
    number: usize,
}

/// What a tree is made of: a base algebra, or an operator and the trees of its parts.
#[derive(Debug, Drop)]
pub enum Node {
    Base(Tree),
    Paired(Paired, TreeId, TreeId),
    Single(Single, TreeId),
}

#[derive(Debug, Drop)]
struct Entry {
    node: Node,
    // The nodes of the whole tree, so that none is counted again where a name stands for it.
    size: usize,
}

/// Trees, each once. Contracts see the expressions that they mean, in the order in which they came.
#[derive(Debug, Drop)]
pub struct Forest {
    entries: Vec<Entry>,
}

impl Model for Forest {
    ghost use Rattle.std.specs.Prelude.{List, []};
    ghost use Rattle.std.specs.Coded.{coded_list};
    ghost use Rattle.alg_model.specs.Expressions.{Expression};
    ghost use Rattle.alg_model.specs.Codes.{coded_expression};
    ghost use Rattle.raml_syntax.specs.Forest.{trees_from, AreEntries};

    ghost Value = { List Expression };

    ghost coded = { coded_list coded_expression };

    ghost view = { λ f. trees_from [] f.entries.items };

    ghost invariant = { λ f. AreEntries [] f.entries.items };
}

impl Forest {
    /// No trees.
    pub fn new(alloc: Global) -> Forest
        ensures { result ≡ [] }
    {
        Forest {
            entries: Vec::new(alloc),
        }
    }

    // The entry of a tree.
    fn entry(&self, id: TreeId) -> &Entry
        requires { IsTree self.now id }
        ensures { StandsAt self.now id result.now }
    {
        &self.entries[id.number]
    }

    /// How many nodes the tree has.
    pub fn size(&self, id: TreeId) -> usize
        requires { IsTree self.now id }
        ensures { result ≡ node_count (tree_at self.now id) }
    {
        self.entry(id).size
    }

    // How many nodes a tree of this root has.
    #[tactic(auto, using(crate::proofs::Forests::paired_count, crate::proofs::Forests::single_count))]
    fn size_with(&self, root: &Node) -> usize
        requires parts { HasParts (length self.now) root.now }
        requires small { node_count (node_meaning self.now root.now) ≤ MAX_TREE_NODES }
        ensures { result ≡ node_count (node_meaning self.now root.now) }
    {
        match root {
            Node::Base(_) => 1,
            Node::Paired(_, first, second) => 1 + self.size(*first) + self.size(*second),
            Node::Single(_, part) => 1 + self.size(*part),
        }
    }

    /// Adds a tree whose parts are there. It fails only for want of memory.
    pub fn plant(&mut self, root: Node) -> Result<TreeId, NoMemory>
        requires parts { HasParts (length self.old) root }
        requires small { node_count (node_meaning self.old root) ≤ MAX_TREE_NODES }
        ensures trees { OnOk result (self.new ≡ self.old ++ node_meaning self.old root ∷ []) }
        ensures number { IfOk result (λ id. id.number ≡ length self.old) }
        ensures err { OnErr result (self.new ≡ self.old) }
    {
        let size = self.size_with(&root);
        let number = self.entries.len();
        self.entries.push(Entry { node: root, size })?;
        Ok(TreeId { number })
    }

    /// Whether two trees have the same carrier.
    #[tactic(auto, using(crate::proofs::Forests::one_no_pairs, crate::proofs::Forests::one_no_sides))]
    pub fn have_same_carrier(&self, a: TreeId, b: TreeId) -> bool
        requires first { IsTree self.now a }
        requires second { IsTree self.now b }
        ensures { (result ≡ true) ↔ (carrier_of (tree_at self.now a) ≡ carrier_of (tree_at self.now b)) }
    {
        if a.number == b.number {
            return true;
        }
        match (&self.entry(a).node, &self.entry(b).node) {
            (Node::Paired(Paired::Plus, a, _) | Node::Single(_, a), _) => {
                self.have_same_carrier(*a, b)
            }
            (_, Node::Paired(Paired::Plus, b, _) | Node::Single(_, b)) => {
                self.have_same_carrier(a, *b)
            }
            (Node::Base(a), Node::Base(b)) => alg_model::have_same_carrier(a, b),
            (
                Node::Paired(Paired::Lex | Paired::Scoped, a, b),
                Node::Paired(Paired::Lex | Paired::Scoped, c, d),
            )
            | (
                Node::Paired(Paired::Union | Paired::Sum, a, b),
                Node::Paired(Paired::Union | Paired::Sum, c, d),
            ) => self.have_same_carrier(*a, *c) && self.have_same_carrier(*b, *d),
            (Node::Base(_), Node::Paired(_, _, _))
            | (Node::Paired(_, _, _), Node::Base(_))
            | (
                Node::Paired(Paired::Lex | Paired::Scoped, _, _),
                Node::Paired(Paired::Union | Paired::Sum, _, _),
            )
            | (
                Node::Paired(Paired::Union | Paired::Sum, _, _),
                Node::Paired(Paired::Lex | Paired::Scoped, _, _),
            ) => false,
        }
    }

    /// A copy of the tree. It fails only for want of memory.
    pub fn tree(&self, alloc: Global, id: TreeId) -> Result<Tree, NoMemory>
        requires { IsTree self.now id }
        ensures { IfOk result (λ tree. expression_of tree ≡ tree_at self.now id) }
    {
        match &self.entry(id).node {
            Node::Base(tree) => tree.copy(alloc),
            Node::Paired(kind, first, second) => {
                let first = self.tree(alloc, *first)?;
                let second = self.tree(alloc, *second)?;
                paired_tree(alloc, *kind, first, second)
            }
            Node::Single(kind, part) => {
                let part = self.tree(alloc, *part)?;
                single_tree(alloc, *kind, part)
            }
        }
    }
}

fn paired_tree(alloc: Global, kind: Paired, first: Tree, second: Tree) -> Result<Tree, NoMemory>
    ensures { IfOk result (λ tree. expression_of tree
        ≡ paired_meaning (paired_of kind) (expression_of first) (expression_of second)) }
{
    let first = Box::new(alloc, first)?;
    let second = Box::new(alloc, second)?;
    match kind {
        Paired::Lex => Ok(Tree::Lex(first, second)),
        Paired::Scoped => Ok(Tree::Scoped(first, second)),
        Paired::Union => Ok(Tree::Union(first, second)),
        Paired::Sum => Ok(Tree::Sum(first, second)),
        Paired::Plus => Ok(Tree::Plus(first, second)),
    }
}

fn single_tree(alloc: Global, kind: Single, part: Tree) -> Result<Tree, NoMemory>
    ensures { IfOk result (λ tree. expression_of tree ≡ single_meaning (single_of kind) (expression_of part)) }
{
    let part = Box::new(alloc, part)?;
    match kind {
        Single::Left => Ok(Tree::Left(part)),
        Single::Right => Ok(Tree::Right(part)),
    }
}
