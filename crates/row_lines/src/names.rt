// The names of nodes and destinations, prepared for many lines.
ghost use Rattle.std.specs.Prelude.{◌≡◌, ◌<◌, ◌++◌, [], get_or, length, map, IfOk, OnOk};
ghost use Rattle.word_text.specs.PathNames.{after_space, between_spaces, name_text};

use meta_base::{DestId, NoMemory, NodeId};
use net_graph::Net;
use std::alloc::Global;
use std::marker::Model;
use word_text::{Line, PathName};

/// Names that stand in many lines, with the spaces round them, by their numbers.
#[derive(Debug, Drop)]
pub struct Names {
    texts: Vec<PathName>,
}

impl Model for Names {
    ghost use Rattle.std.specs.Prelude.{List, ℕ, map};
    ghost use Rattle.word_text.specs.PathNames.{name_text};

    ghost Value = { List (List ℕ) };

    ghost view = { λ names. map name_text names.texts.items };
}

impl Names {
    /// The names of the nodes of a network, each after a space. They are refused for want of memory alone.
    pub fn of_nodes(alloc: Global, net: &Net) -> Result<Names, NoMemory>
        ensures { IfOk result (λ names. names ≡ map after_space net.now.nodes) }
    {
        let texts = path_names(alloc, net)?;
        Ok(Names { texts })
    }

    /// The names of the destinations of a network, each between two spaces. They are refused for want of memory alone.
    pub fn of_dests(alloc: Global, net: &Net) -> Result<Names, NoMemory>
        ensures { IfOk result (λ names. names ≡ map between_spaces net.now.dests) }
    {
        let texts = dest_names(alloc, net)?;
        Ok(Names { texts })
    }

    /// Appends the name of that number to a line. It is refused for want of memory alone; what the line has then isn't
    /// said.
    #[inline(always)]
    #[tactic(auto, using(crate::proofs::PathNames::text_at))]
    pub fn push(&self, line: &mut Line, number: usize) -> Result<(), NoMemory>
        requires { number < length self.now }
        ensures { OnOk result (line.new ≡ line.old ++ get_or self.now number []) }
    {
        line.push_name(&self.texts[number])
    }
}

// The names of all nodes of a network.
fn path_names(alloc: Global, net: &Net) -> Result<Vec<PathName>, NoMemory>
    ensures { IfOk result (λ names. map name_text names.items ≡ map after_space net.now.nodes) }
{
    let mut names = Vec::with_capacity(alloc, net.node_count())?;
    let mut text = Line::new(alloc)?;
    for node in 0..net.node_count() {
        text.clear();
        text.push_bytes(b" ")?;
        text.push_bytes(net.node_text(NodeId(node as u32)).as_bytes())?;
        names.push(PathName::of(alloc, text.as_bytes())?)?;
    }
    Ok(names)
}

// The names of all destinations of a network.
fn dest_names(alloc: Global, net: &Net) -> Result<Vec<PathName>, NoMemory>
    ensures { IfOk result (λ names. map name_text names.items ≡ map between_spaces net.now.dests) }
{
    let mut names = Vec::with_capacity(alloc, net.dest_count())?;
    let mut text = Line::new(alloc)?;
    for dest in 0..net.dest_count() {
        text.clear();
        text.push_bytes(b" ")?;
        text.push_bytes(net.dest_text(DestId(dest as u32)).as_bytes())?;
        text.push_bytes(b" ")?;
        names.push(PathName::of(alloc, text.as_bytes())?)?;
    }
    Ok(names)
}
