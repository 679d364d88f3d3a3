ghost use Rattle.std.specs.Prelude.{◌≡◌, ◌<◌, ◌∷◌, ◌++◌, [], Some, None, length, option_map, replicate, is_some, IfOk, OnOk};
ghost use Rattle.std.proofs.Math.ListN.{set};
ghost use Rattle.path_store.specs.PathOf.{HasNumber};
ghost use Rattle.best_first.specs.Found.{found_at};
ghost use Rattle.best_first.specs.Fixed.{path_after};
ghost use Rattle.best_first.specs.Numbered.{lent_fixed};

use crate::route::OpenRoute;
use meta_base::{NoMemory, NodeId};
use path_store::{PathId, Trails};
use std::alloc::Global;
use std::marker::Model;

/// The route of a node that is fixed, which is lent: its value in the algebra's own form, and its path.
#[derive(Drop)]
pub struct FixedRoute<'f, S> {
    pub sig: &'f S,
    pub path: PathId,
}

/// The routes of the nodes that are fixed, and their paths. Contracts see for each node its route, or none.
#[derive(Debug, Drop)]
pub struct Fixed<S> {
    // By number of node: the path of its route, or none.
    ids: Vec<Option<PathId>>,
    // The values of the routes, in the order of their paths.
    sigs: Vec<S>,
    paths: Trails,
}

impl<S> Model for Fixed<S> {
    ghost use Rattle.best_first.specs.Numbered.{AreNumbered, PureFixed, rows_by};

    ghost Value = { PureFixed S };

    ghost view = { λ f. record { rows = rows_by f.sigs.items f.ids.items; paths = f.paths } };

    ghost invariant = { λ f. AreNumbered f.sigs.items f.ids.items f.paths };
}

impl<S: Drop> Fixed<S> {
    // So many nodes, none of which is fixed.
    pub(crate) fn new(alloc: Global, count: usize) -> Result<Fixed<S>, NoMemory>
        ensures rows { IfOk result (λ fixed. fixed.rows ≡ replicate count None) }
        ensures paths { IfOk result (λ fixed. fixed.paths ≡ []) }
    {
        Ok(Fixed {
            ids: none_of(alloc, count)?,
            sigs: Vec::with_capacity(alloc, count)?,
            paths: Trails::with_room(alloc, count)?,
        })
    }

    // Fixes the node of the route.
    pub(crate) fn fix(&mut self, route: OpenRoute<S>) -> Result<(), NoMemory>
        requires node { route.place.node.0 < length self.old.rows }
        requires next { route.place.next.0 < length self.old.rows }
        requires few { HasNumber (length self.old.paths) }
        ensures rows { OnOk result (self.new.rows ≡ set self.old.rows route.place.node.0
            (Some (record { sig = route.sig; path = record { 0 = length self.old.paths } }))) }
        ensures paths { OnOk result (self.new.paths ≡ self.old.paths ++ (route.place.node
            ∷ path_after self.old.paths (found_at self.old.rows route.place.next.0)) ∷ []) }
    {
        let OpenRoute { sig, place } = route;
        self.sigs.reserve(1)?;
        let next = self.ids[place.next.0 as usize];
        let path = self.paths.add(place.node, next)?;
        self.sigs.push_reserved(sig);
        self.ids[place.node.0 as usize] = Some(path);
        Ok(())
    }
}

impl<S> Fixed<S> {
    /// Of how many nodes these are.
    pub fn node_count(&self) -> usize
        ensures { result ≡ length self.now.rows }
    {
        self.ids.len()
    }

    // Whether the node is fixed.
    #[inline(always)]
    pub(crate) fn is_fixed(&self, node: NodeId) -> bool
        requires { node.0 < length self.now.rows }
        ensures { result ≡ is_some (found_at self.now.rows node.0) }
    {
        self.ids[node.0 as usize].is_some()
    }

    /// Lends the route of the node, if it has one.
    #[inline(always)]
    pub fn route(&self, node: NodeId) -> Option<FixedRoute<'_, S>>
        requires { node.0 < length self.now.rows }
        ensures { option_map lent_fixed result ≡ found_at self.now.rows node.0 }
    {
        match self.ids[node.0 as usize] {
            Some(path) => Some(FixedRoute {
                sig: &self.sigs[path.0 as usize],
                path,
            }),
            None => None,
        }
    }

    /// Lends the paths of the routes.
    pub fn paths(&self) -> &Trails
        ensures { result.now ≡ self.now.paths }
    {
        &self.paths
    }
}

// Places for so many, in which there is none yet.
pub(crate) fn none_of<T: Drop>(alloc: Global, count: usize) -> Result<Vec<Option<T>>, NoMemory>
    ensures { IfOk result (λ places. places.items ≡ replicate count None) }
{
    let mut places = Vec::with_capacity(alloc, count)?;
    for _made in 0..count {
        places.push_reserved(None);
    }
    Ok(places)
}
