ghost use Rattle.std.specs.Prelude.{◌≡◌, ◌<◌, ◌++◌, ◌∷◌, [], false, length, position, IfOk, IfSome, OnOk, OnErr};
ghost use Rattle.net_graph.specs.Pairs.{has_pair, is_pair};

use indexmap::IndexSet;
use meta_base::NoMemory;
use std::alloc::Global;
use std::marker::Model;

// Pairs of ids, in the order in which they were added. Contracts see the list of the pairs.
#[derive(Debug, Drop)]
pub(crate) struct Pairs {
    pairs: IndexSet<(u32, u32)>,
}

impl Model for Pairs {
    ghost use Rattle.std.specs.Prelude.{List, ℕ};

    ghost Value = { List (ℕ × ℕ) };

    ghost view = { λ s. s.pairs.keys };
}

impl Pairs {
    ghost use Rattle.std.specs.Prelude.{List, ℕ};

    /// No pair.
    pub fn new(alloc: Global) -> Pairs
        ensures { result ≡ [] }
    {
        Pairs {
            pairs: IndexSet::new(alloc),
        }
    }

    /// The pair is there.
    pub fn contains(&self, first: u32, second: u32) -> bool
        ensures { result ≡ has_pair self.now first second }
    {
        self.pairs.contains(&(first, second))
    }

    /// Where the pair stands, if it is there.
    pub fn place(&self, first: u32, second: u32) -> Option<usize>
        ensures place { result ≡ position (is_pair first second) self.now }
        ensures within { IfSome result (λ place. place < length self.now) }
    {
        self.pairs.get_index_of(&(first, second))
    }

    /// The same pairs.
    pub fn copy(&self) -> Result<Pairs, NoMemory>
        ensures { IfOk result (λ copied. copied ≡ self.now) }
    {
        Ok(Pairs {
            pairs: self.pairs.clone()?,
        })
    }

    /// Adds a pair that isn't there. After a refusal nothing has changed.
    pub fn add(&mut self, first: u32, second: u32) -> Result<(), NoMemory>
        requires { has_pair self.old first second ≡ false }
        ensures ok { OnOk result (self.new ≡ self.old ++ (first, second) ∷ []) }
        ensures err { OnErr result (self.new ≡ self.old) }
    {
        self.pairs.insert((first, second))?;
        Ok(())
    }
}
