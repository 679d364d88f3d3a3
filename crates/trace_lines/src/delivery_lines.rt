// The lines of deliveries, written one after another.
ghost use Rattle.std.specs.Prelude.{◌≡◌, ◌<◌, ◌++◌, length, map, IfOk, OnOk};
ghost use Rattle.net_graph.specs.RowTexts.{node_text};
ghost use Rattle.word_text.specs.PathNames.{after_space};

use label_code::Word;
use meta_base::{Delivery, NoMemory, NodeId};
use net_graph::Net;
use row_lines::Names;
use std::alloc::Global;
use word_text::Line;

/// The lines of deliveries on a network, which are written one after another in the same room. The names of nodes are
/// prepared for all of them.
#[derive(Drop)]
pub struct DeliveryLines<'a> {
    net: &'a Net,
    names: Names,
    line: Line,
    ghost names_are: { names ≡ map after_space net.now.nodes },
}

impl<'a> DeliveryLines<'a> {
    ghost use Rattle.trace_lines.specs.DeliveryLines.{delivery_text, line_of, net_of};

    /// Where no line is written yet. It is refused for want of memory alone.
    pub fn new(alloc: Global, net: &'a Net) -> Result<DeliveryLines<'a>, NoMemory>
        ensures { IfOk result (λ lines. net_of lines ≡ net.now) }
    {
        Ok(DeliveryLines {
            net,
            names: Names::of_nodes(alloc, net)?,
            line: Line::new(alloc)?,
        })
    }

    /// Lends the line that was written last.
    pub fn line(&self) -> &[u8]
        ensures { result.now ≡ line_of self.now }
    {
        self.line.as_bytes()
    }

    /// Writes the line of a delivery in place of the one before: its clock, and the listener and the speaker of its arc.
    /// It is refused for want of memory alone; which line is lent then isn't said.
    pub fn write(&mut self, delivery: &Delivery) -> Result<(), NoMemory>
        requires { delivery.now.arc.0 < length (net_of self.now).arcs }
        ensures line { OnOk result (line_of self.new ≡ delivery_text (net_of self.old) delivery.now) }
        ensures net { net_of self.new ≡ net_of self.old }
    {
        let arc = self.net.arc(delivery.arc);
        let (listener, speaker) = (arc.tail, arc.head);
        self.line.clear();
        self.line.push_number(Word::from(delivery.clock))?;
        self.push_node(listener)?;
        self.push_node(speaker)?;
        self.line.push_bytes(b"\n")
    }

    // The name of a node, after a space.
    #[inline(always)]
    fn push_node(&mut self, node: NodeId) -> Result<(), NoMemory>
        requires { node.0 < length (net_of self.now).nodes }
        ensures line { OnOk result (line_of self.new
            ≡ line_of self.old ++ after_space (node_text (net_of self.old) node.0)) }
        ensures net { net_of self.new ≡ net_of self.old }
    {
        self.names.push(&mut self.line, node.0 as usize)
    }
}
