ghost use Rattle.std.specs.Prelude.{◌≡◌, ◌==◌, ◌+◌, ◌<◌, ◌≤◌, ◌∷◌, ◌++◌, List, [], length, IfOk, IfSome, OnErr, OnOk};
ghost use Rattle.std.specs.List.{list_any};
ghost use Rattle.meta_base.specs.NodePaths.{numbers, compare_nodes, compare_paths};
ghost use Rattle.path_store.specs.PathOf.{HasNumber, path_of, path_by};
ghost use Rattle.path_store.specs.Trails.{marks_of, path_along, path_or_end};

use meta_base::{List, NoMemory, NodeId};
use std::alloc::Global;
use std::cmp::Ordering;
use std::marker::Model;

/// A path of a store: its number, from 0 in the order in which the paths were added. It means nothing
/// in another store.
#[derive(Clone, Copy, Debug, PartialEq, Eq)]
pub struct PathId(pub u32);

// The first node of a path, how many nodes come after it, the marks of all its nodes, and the earlier path that goes on
// from there, if one does. Those after it are counted, since a path of all 2^32 numbers would have a node more than the
// count has room for. The mark of a node is the bit of its number modulo 64, which it shares with other nodes.
#[derive(Clone, Copy, Debug)]
pub(crate) struct Step {
    node: NodeId,
    after: u32,
    marks: u64,
    rest: Option<PathId>,
}

/// Paths that are added one after another: each goes from its node on along an earlier one, or ends there. So a path
/// takes the memory of one node, and no path is ever changed or removed. Contracts see the list of the paths, in the
/// order in which they were added.
#[derive(Debug, Drop)]
pub struct Trails {
    steps: Vec<Step>,
}

impl Model for Trails {
    ghost use Rattle.std.specs.Prelude.{List, []};
    ghost use Rattle.meta_base.specs.declared.ids.NodeId.{NodeId};
    ghost use Rattle.path_store.specs.Trails.{AreSteps, paths_after};

    ghost Value = { List (List NodeId) };

    ghost view = { λ t. paths_after [] t.steps.items };

    ghost invariant = { λ t. AreSteps [] t.steps.items };
}

impl Trails {
    /// The store of no path. It takes no memory before the first path is added.
    pub fn new(alloc: Global) -> Trails
        ensures { result ≡ [] }
    {
        Trails {
            steps: Vec::new(alloc),
        }
    }

    /// The store of no path, with room for so many: until these are there, adding a path takes no more memory.
    pub fn with_room(alloc: Global, count: usize) -> Result<Trails, NoMemory>
        ensures { IfOk result (λ trails. trails ≡ []) }
    {
        Ok(Trails {
            steps: Vec::with_capacity(alloc, count)?,
        })
    }

    /// Adds the path that goes from the node on along the rest, or is the node alone, and gives its number. A store
    /// holds at most 2^32 paths. After a refusal the store is as it was.
    pub fn add(&mut self, node: NodeId, rest: Option<PathId>) -> Result<PathId, NoMemory>
        requires few { HasNumber (length self.old) }
        requires rest { IfSome rest (λ id. id.0 < length self.old) }
        ensures ok { OnOk result (self.new ≡ self.old ++ (node ∷ path_by self.old rest) ∷ []) }
        ensures id { IfOk result (λ id. id.0 ≡ length self.old) }
        ensures err { OnErr result (self.new ≡ self.old) }
    {
        let after = self.nodes_after(rest);
        let marks = self.marks_after(rest) | (1u64 << (node.0 % 64));
        let id = PathId(self.steps.len() as u32);
        self.steps.push(Step {
            node,
            after,
            marks,
            rest,
        })?;
        Ok(id)
    }

    /// How many paths there are.
    #[inline(always)]
    pub fn count(&self) -> usize
        ensures { result ≡ length self.now }
    {
        self.steps.len()
    }

    /// Lends the path of that number.
    #[inline(always)]
    pub fn path(&self, id: PathId) -> Trail<'_>
        requires { id.0 < length self.now }
        ensures { result ≡ path_of self.now id }
    {
        Trail { trails: self, id }
    }

    /// The first node of the path of that number.
    #[inline(always)]
    pub fn first(&self, id: PathId) -> NodeId
        requires { id.0 < length self.now }
        ensures { (rest : List NodeId) × (path_of self.now id ≡ result ∷ rest) }
    {
        self.step(id).node
    }

    /// The number of what lies after the first node of the path, if it goes on.
    #[inline(always)]
    pub fn rest(&self, id: PathId) -> Option<PathId>
        requires { id.0 < length self.now }
        ensures within { IfSome result (λ rest. rest.0 < id.0) }
        ensures path { (node : NodeId) × (path_of self.now id ≡ node ∷ path_by self.now result) }
    {
        self.step(id).rest
    }

    /// Whether the path of that number passes the node. Where no node of the path has its number modulo 64, the path
    /// isn't walked.
    #[inline(always)]
    pub fn passes(&self, id: PathId, node: NodeId) -> bool
        requires { id.0 < length self.now }
        ensures { result ≡ list_any (λ n. n.0 == node.0) (path_of self.now id) }
    {
        if (self.step(id).marks >> (node.0 % 64)) & 1 == 0 {
            return false;
        }
        self.passes_by_walk(id, node)
    }

    // The same, by a walk along the path.
    #[inline(never)]
    fn passes_by_walk(&self, id: PathId, node: NodeId) -> bool
        requires { id.0 < length self.now }
        ensures { result ≡ list_any (λ n. n.0 == node.0) (path_of self.now id) }
    {
        let mut left = Some(id);
        while let Some(path) = left {
            let step = self.step(path);
            if step.node.0 == node.0 {
                return true;
            }
            left = step.rest;
        }
        false
    }

    /// Which of two paths of the store comes first, `Less` for the first: the shorter one, and of two of one length the
    /// one with the smaller node number where they first differ. Paths of the same nodes are `Equal`. Where both go on
    /// along one earlier path, no node of it is looked at.
    #[inline(always)]
    pub fn compare(&self, first: PathId, second: PathId) -> Ordering
        requires first { first.0 < length self.now }
        requires second { second.0 < length self.now }
        ensures { result ≡ compare_paths (numbers (path_of self.now first)) (numbers (path_of self.now second)) }
    {
        match self.step(first).after.cmp(&self.step(second).after) {
            Ordering::Equal => self.compare_in_turn(first, second),
            unequal => unequal,
        }
    }

    // The same of two paths of one length.
    fn compare_in_turn(&self, first: PathId, second: PathId) -> Ordering
        requires first { first.0 < length self.now }
        requires second { second.0 < length self.now }
        requires count { length (path_of self.now first) ≡ length (path_of self.now second) }
        ensures { result ≡ compare_nodes (numbers (path_of self.now first)) (numbers (path_of self.now second)) }
    {
        let mut p = first;
        let mut q = second;
        while p.0 != q.0 {
            let i = self.step(p);
            let j = self.step(q);
            match i.node.0.cmp(&j.node.0) {
                Ordering::Equal => (),
                unequal => return unequal,
            }
            let Some(p_rest) = i.rest else {
                return Ordering::Equal;
            };
            let Some(q_rest) = j.rest else {
                // The other goes on, and is as long.
                unreachable!()
            };
            p = p_rest;
            q = q_rest;
        }
        Ordering::Equal
    }

    // The step of the path of that number.
    #[inline(always)]
    fn step(&self, id: PathId) -> Step
        requires { id.0 < length self.now }
        ensures path { path_of self.now id ≡ path_along self.now result }
        ensures rest { IfSome result.rest (λ rest. rest.0 < id.0) }
        ensures after { length (path_of self.now id) ≡ result.after + 1 }
        ensures more { IfSome result.rest (λ rest. 0 < result.after) }
        ensures small { result.after ≤ id.0 }
        ensures marks { result.marks ≡ marks_of (path_of self.now id) }
    {
        self.steps[id.0 as usize]
    }

    // How many nodes the path of that number has, if there is one.
    #[inline(always)]
    fn nodes_after(&self, rest: Option<PathId>) -> u32
        requires few { HasNumber (length self.now) }
        requires rest { IfSome rest (λ id. id.0 < length self.now) }
        ensures { result ≡ length (path_by self.now rest) }
    {
        match rest {
            Some(id) => self.step(id).after + 1,
            None => 0,
        }
    }

    // The marks of the nodes of the path of that number, if there is one.
    #[inline(always)]
    fn marks_after(&self, rest: Option<PathId>) -> u64
        requires { IfSome rest (λ id. id.0 < length self.now) }
        ensures { result ≡ marks_of (path_by self.now rest) }
    {
        match rest {
            Some(id) => self.step(id).marks,
            None => 0,
        }
    }
}

/// A path that is lent, node by node. Contracts see its nodes, in order.
#[derive(Debug, Drop)]
pub struct Trail<'t> {
    trails: &'t Trails,
    id: PathId,
}

impl<'t> Model for Trail<'t> {
    ghost use Rattle.std.specs.Prelude.{◌<◌, List, length};
    ghost use Rattle.meta_base.specs.declared.ids.NodeId.{NodeId};
    ghost use Rattle.path_store.specs.PathOf.{path_of};

    ghost Value = { List NodeId };

    ghost view = { λ t. path_of t.trails.now t.id };

    ghost invariant = { λ t. t.id.0 < length t.trails.now };
}

impl<'t> Trail<'t> {
    /// How many nodes the path has. None is walked to be counted.
    #[inline(always)]
    pub fn len(&self) -> usize
        ensures { result ≡ length self.now }
    {
        self.trails.step(self.id).after as usize + 1
    }

    /// The first node of the path, and the path from the next one on, if there is a next.
    #[inline(always)]
    pub fn split(self) -> (NodeId, Option<Trail<'t>>)
        ensures { self.entry ≡ result.0 ∷ path_or_end result.1 }
    {
        let trails = self.trails;
        let step = trails.step(self.id);
        let rest = match step.rest {
            Some(id) => Some(trails.path(id)),
            None => None,
        };
        (step.node, rest)
    }

    /// A list of the path's nodes, in order. It is refused for want of memory alone.
    pub fn to_list(self, alloc: Global) -> Result<List<NodeId>, NoMemory>
        ensures { IfOk result (λ nodes. nodes ≡ self.entry) }
    {
        let mut nodes = Vec::with_capacity(alloc, self.len())?;
        let mut rest = Some(self);
        while let Some(path) = rest {
            let (node, after) = path.split();
            nodes.push_reserved(node);
            rest = after;
        }
        Ok(List::from_vec(nodes))
    }
}
