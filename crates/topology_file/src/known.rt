// What texts of the lines so far name, so that no text of a label is read twice, and few names are looked up among all.
ghost use Rattle.std.specs.Prelude.{◌≡◌, Ok, IfSome};
ghost use Rattle.net_graph.specs.Nets.{PureNet};
ghost use Rattle.topology_file.specs.KnownTexts.{IsSpelledBy, Knows};
ghost use Rattle.topology_file.specs.NetText.{node_in};

use crate::text_spots::TextSpots;
use crate::word::Word;
use indexmap::IndexMap;
use meta_base::{ArcId, NoMemory, NodeId};
use std::alloc::Global;

// So many bytes of lines, or more, are there for each spot.
const BYTES_OF_SPOT: usize = 64;

// There are at most so many spots of a kind.
const MAX_SPOTS: usize = 4_096;

/// Texts of labels and names of nodes.
#[derive(Debug, Drop)]
pub struct KnownTexts<'a> {
    /// Each text of a label, with the first arc whose label it spells.
    pub arcs: IndexMap<&'a [u8], ArcId>,
    /// Some of these at hand.
    pub labels: TextSpots<'a, ArcId>,
    /// Names of nodes.
    pub nodes: TextSpots<'a, NodeId>,
}

impl<'a> KnownTexts<'a> {
    /// No text, and no spots.
    pub fn new(alloc: Global) -> KnownTexts<'a>
        ensures { (net : PureNet) → Knows net result }
    {
        KnownTexts {
            arcs: IndexMap::new(alloc),
            labels: TextSpots::new(alloc, 0),
            nodes: TextSpots::new(alloc, 0),
        }
    }

    /// Makes spots for the texts of so many bytes of lines, as far as there is memory for them.
    pub fn make_spots(&mut self, alloc: Global, bytes: usize)
        ensures { (net : PureNet) → Knows net self.old → Knows net self.new }
    {
        let spots = (bytes / BYTES_OF_SPOT).min(MAX_SPOTS).next_power_of_two();
        self.labels = TextSpots::new(alloc, spots);
        self.nodes = TextSpots::new(alloc, spots);
    }

    /// An arc whose label the text spells, if one was noted. Mostly it is at hand.
    #[inline(always)]
    pub fn arc_of(&mut self, text: &Word<'a>) -> Option<ArcId>
        ensures arc { (net : PureNet) → Knows net self.old →
            IfSome result (λ arc. IsSpelledBy net text.now arc.0) }
        ensures known { (net : PureNet) → Knows net self.old → Knows net self.new }
    {
        match self.labels.get(text) {
            Some(arc) => Some(arc),
            None => self.look_up(text),
        }
    }

    // The same among all texts.
    #[inline(never)]
    fn look_up(&mut self, text: &Word<'a>) -> Option<ArcId>
        ensures arc { (net : PureNet) → Knows net self.old →
            IfSome result (λ arc. IsSpelledBy net text.now arc.0) }
        ensures known { (net : PureNet) → Knows net self.old → Knows net self.new }
    {
        let arc = self.arcs.get(text.text()).copied()?;
        self.labels.note(text.copy(), arc);
        Some(arc)
    }

    /// Notes an arc whose label the text spells. After a refusal nothing is lost.
    pub fn note_arc(&mut self, text: &'a [u8], arc: ArcId) -> Result<(), NoMemory>
        ensures { (net : PureNet) → Knows net self.old → IsSpelledBy net text.now arc.0 → Knows net self.new }
    {
        self.arcs.insert(text, arc)?;
        Ok(())
    }

    /// The node of that name, if it is at hand.
    #[inline]
    pub fn node_of(&self, name: &Word<'_>) -> Option<NodeId>
        ensures { (net : PureNet) → Knows net self.now →
            IfSome result (λ node. node_in net name.now ≡ Ok node.0) }
    {
        self.nodes.get(name)
    }

    /// Notes the node of that name.
    pub fn note_node(&mut self, name: Word<'a>, node: NodeId)
        ensures { (net : PureNet) → Knows net self.old → node_in net name.entry ≡ Ok node.0 → Knows net self.new }
    {
        self.nodes.note(name, node);
    }
}
