ghost use Rattle.std.specs.Prelude.{◌≡◌, ◌==◌, ◌||◌, ◌&&◌, ℕ, [], ◌≤◌, length, OnOk};
ghost use Rattle.number_sets.specs.NumberSets.{HasRoomFor};
ghost use Rattle.net_graph.specs.Groups.{group_at};
ghost use Rattle.net_graph.specs.Joins.{is_joined};

use meta_base::NoMemory;
use number_sets::NumberSet;
use std::alloc::Global;
use std::marker::Model;

// Which nodes are joined: for each tail the set of the heads of its arcs. Contracts see the words of the sets.
#[derive(Debug, Drop)]
pub(crate) struct Joins {
    heads: Vec<NumberSet>,
}

impl Model for Joins {
    ghost use Rattle.std.specs.Prelude.{List, ℕ};

    ghost Value = { List (List ℕ) };

    ghost view = { λ j. j.heads.items };
}

impl Joins {
    /// Where no nodes are joined. It takes no memory.
    pub fn new(alloc: Global) -> Joins
        ensures { result ≡ [] }
    {
        Joins {
            heads: Vec::new(alloc),
        }
    }

    /// Whether the tail is joined to the head.
    pub fn contains(&self, tail: u32, head: u32) -> bool
        ensures { result ≡ is_joined self.now tail head }
    {
        match self.heads.get(tail as usize) {
            Some(heads) => heads.contains(head),
            None => false,
        }
    }

    /// Makes room for a pair of nodes, so that [`Joins::note`] can join them. The same nodes are joined as before,
    /// after a refusal too.
    pub fn make_room(&mut self, alloc: Global, tail: u32, head: u32) -> Result<(), NoMemory>
        ensures room { OnOk result (HasRoomFor (group_at self.new tail) head) }
        ensures same { (i k : ℕ) → is_joined self.new i k ≡ is_joined self.old i k }
    {
        let place = tail as usize;
        if place >= self.heads.len() {
            add_sets(alloc, &mut self.heads, place + 1)?;
        }
        self.heads[place].make_room(head)
    }

    /// Joins two nodes that there is room for.
    pub fn note(&mut self, tail: u32, head: u32)
        requires { HasRoomFor (group_at self.old tail) head }
        ensures { (i k : ℕ) → is_joined self.new i k ≡ (is_joined self.old i k || (tail == i && head == k)) }
    {
        self.heads[tail as usize].note(head);
    }
}

// Adds sets of no number, until there are so many.
#[inline(never)]
fn add_sets(alloc: Global, sets: &mut Vec<NumberSet>, count: usize) -> Result<(), NoMemory>
    ensures room { OnOk result (count ≤ length sets.new.items) }
    ensures same { (i k : ℕ) → is_joined sets.new.items i k ≡ is_joined sets.old.items i k }
{
    for _made in sets.len()..count {
        sets.push(NumberSet::new(alloc))?;
    }
    Ok(())
}
