// What a node heard of its neighbours last.
ghost use Rattle.std.specs.Prelude.{◌≡◌, ◌*◌, ◌<◌, ◌^◌, ℕ, None, Some, IfOk, length, slice_get};
ghost use Rattle.std.proofs.Math.ListN.{set};
ghost use Rattle.path_vector.specs.Known.{entry_of, HasHeard, Listened};
ghost use Rattle.path_vector.specs.Columns.{AreSilent, HasEntry};

use crate::known::Known;
use crate::neighbour::Neighbour;
use meta_base::{ArcId, NoMemory};
use std::alloc::Global;
use std::marker::Model;
use std::mem::replace;

// The neighbours at the arcs that a node may route by, and what was heard of each for each destination. All routes are
// in one store, a row for each destination, since a choice looks at those of one. Contracts see the neighbours, each
// with what was heard of it.
#[derive(Drop)]
pub(crate) struct Heard<L, S> {
    neighbours: Vec<Neighbour<L>>,
    dests: usize,
    routes: Vec<Option<Known<S>>>,
}

impl<L, S> Model for Heard<L, S> {
    ghost use Rattle.std.specs.Prelude.{◌≡◌, ◌*◌, List, length};
    ghost use Rattle.path_vector.specs.Known.{Listened};
    ghost use Rattle.path_vector.specs.Columns.{listened};

    ghost Value = { List (Listened L S) };

    ghost view = { λ h. listened h.dests h.neighbours.items h.routes.items };

    ghost invariant = { λ h. length h.routes.items ≡ h.dests * length h.neighbours.items };
}

// No entry for any of so many destinations.
pub(crate) fn no_entries<X: Drop>(alloc: Global, count: usize) -> Result<Vec<Option<X>>, NoMemory>
    ensures count { IfOk result (λ entries. length entries.items ≡ count) }
    ensures none { IfOk result (λ entries. (dest : ℕ) → entry_of entries.items dest ≡ None) }
{
    let mut entries = Vec::with_capacity(alloc, count)?;
    for _dest in 0..count {
        entries.push(None)?;
    }
    Ok(entries)
}

impl<L, S> Heard<L, S> {
    // These neighbours, of which nothing was heard.
    pub(crate) fn nothing(
        alloc: Global,
        neighbours: Vec<Neighbour<L>>,
        dests: usize,
    ) -> Result<Heard<L, S>, NoMemory>
    where
        L: Drop,
        S: Drop,
        requires { dests * length neighbours.items < 2 ^ 64 }
        ensures { IfOk result (AreSilent dests neighbours.items) }
    {
        let routes = no_entries(alloc, dests * neighbours.len())?;
        Ok(Heard {
            neighbours,
            dests,
            routes,
        })
    }

    // How many neighbours there are.
    pub(crate) fn count(&self) -> usize
        ensures { result ≡ length self.now }
    {
        self.neighbours.len()
    }

    // The neighbour at a place.
    pub(crate) fn neighbour(&self, place: usize) -> &Neighbour<L>
        requires { place < length self.now }
        ensures { (n : Listened L S) → slice_get self.now place ≡ Some n →
            (result.now.arc ≡ n.arc) × (result.now.label ≡ n.label) }
    {
        &self.neighbours[place]
    }

    // Puts the neighbour at a place at another arc.
    pub(crate) fn put_at(&mut self, place: usize, arc: ArcId)
        requires { place < length self.old }
        ensures { (n : Listened L S) → slice_get self.old place ≡ Some n →
            self.new ≡ set self.old place (record n { arc = arc }) }
    {
        self.neighbours[place].arc = arc;
    }

    // What the neighbour at a place was heard to say of a destination last.
    pub(crate) fn route(&self, place: usize, dest: usize) -> &Option<Known<S>>
        requires { HasEntry place dest self.now }
        ensures { (n : Listened L S) → slice_get self.now place ≡ Some n → entry_of n.heard dest ≡ result.now }
    {
        &self.routes[dest * self.neighbours.len() + place]
    }

    // Lets the neighbour at a place say a route, or that there is none, for a destination, and gives what was heard
    // before.
    pub(crate) fn hear(
        &mut self,
        place: usize,
        dest: usize,
        route: Option<Known<S>>,
    ) -> Option<Known<S>>
        requires { HasEntry place dest self.old }
        ensures { (n : Listened L S) → slice_get self.old place ≡ Some n →
            HasHeard dest route result self.old place n self.new }
    {
        let at = dest * self.neighbours.len() + place;
        replace(&mut self.routes[at], route)
    }
}
