// The lines of the rows of a network, written one after another.
ghost use Rattle.std.specs.Prelude.{◌≡◌, ◌<◌, ◌++◌, codes, length, map, IfOk, IfSome, OnOk};
ghost use Rattle.meta_base.specs.NodePaths.{numbers};
ghost use Rattle.alg_model.specs.Carriers.{In};
ghost use Rattle.alg_model.specs.Formation.{IsCarrier};
ghost use Rattle.alg_model.specs.Texts.{value_text};
ghost use Rattle.alg_model.specs.Views.{pure_carrier, pure_value};
ghost use Rattle.code_gen.specs.Encoding.{IsEncoded, decoded};
ghost use Rattle.net_graph.specs.Tables.{carrier as net_carrier};
ghost use Rattle.net_graph.specs.Views.{pure_row};
ghost use Rattle.net_graph.specs.RowTexts.{AreNodesOf, IsRowOf, dest_text, node_text, path_text, row_text};
ghost use Rattle.word_tables.specs.Routes.{lent_row};
ghost use Rattle.word_text.specs.Forms.{Prints};
ghost use Rattle.word_text.specs.FormLaws.{prints_prop};
ghost use Rattle.word_text.specs.PathNames.{after_space, between_spaces};

use crate::names::Names;
use alg_model::{Carrier, Value, carrier_of};
use meta_base::{DestId, NoMemory, NodeId};
use net_graph::{Net, RouteRow};
use path_store::Trail;
use sig_text::push_value;
use std::alloc::Global;
use word_tables::LentRow;
use word_text::{Line, ValueForm};

/// The lines of rows of a network, which are written one after another in the same room. The names of nodes and
/// destinations are prepared for all of them, with the spaces round them: so the line stands after a space.
#[derive(Drop)]
pub struct RowLines<'a> {
    net: &'a Net,
    form: ValueForm,
    names: Names,
    dests: Names,
    value: String,
    line: Line,
    ghost form_is: { Prints (net_carrier net.now) form } by { prints_prop (net_carrier net.now) form },
    ghost names_are: { names ≡ map after_space net.now.nodes },
    ghost dests_are: { dests ≡ map between_spaces net.now.dests },
}

impl<'a> RowLines<'a> {
    ghost use Rattle.row_lines.specs.RowLines.{line_of, names_text, net_of, room_of};

    /// Where no line is written yet. It is refused for want of memory alone.
    pub fn new(alloc: Global, net: &'a Net) -> Result<RowLines<'a>, NoMemory>
        ensures { IfOk result (λ lines. net_of lines ≡ net.now) }
    {
        Ok(RowLines {
            net,
            form: ValueForm::of(alloc, carrier_of(alloc, net.alg())?)?,
            names: Names::of_nodes(alloc, net)?,
            dests: Names::of_dests(alloc, net)?,
            value: String::new(alloc),
            line: Line::new(alloc)?,
        })
    }

    /// Lends the line that was written last.
    pub fn line(&self) -> &[u8]
        ensures { result.now ≡ line_of self.now }
    {
        match self.line.as_bytes() {
            [_, line @ ..] => line,
            [] => &[],
        }
    }

    /// Writes the line of a row in place of the one before: the node, the destination, and the value and the path of
    /// the route, or `none`. It is refused for want of memory alone; which line is lent then isn't said.
    pub fn write(&mut self, row: &RouteRow) -> Result<(), NoMemory>
        requires { IsRowOf (net_of self.now) (pure_row row.now) }
        ensures line { OnOk result (line_of self.new ≡ row_text (net_of self.old) (pure_row row.now)) }
        ensures net { net_of self.new ≡ net_of self.old }
    {
        match &row.route {
            None => self.put_none(row.node, row.dest),
            Some(route) => {
                self.put_names(row.node, row.dest)?;
                self.push_value(&route.value)?;
                self.push_path(route.path.as_slice())?;
                self.line.push_bytes(b"\n")
            }
        }
    }

    /// Writes the line of a row that is lent in place of the one before, as [`RowLines::write`] does: its value's words
    /// are of this carrier, which is the network's. It is refused for want of memory alone; which line is lent then
    /// isn't said.
    pub fn write_lent(&mut self, carrier: &Carrier, row: LentRow<'_>) -> Result<(), NoMemory>
        requires carrier { pure_carrier carrier.now ≡ net_carrier (net_of self.now) }
        requires may_be { IsCarrier (pure_carrier carrier.now) }
        requires row { IsRowOf (net_of self.now) (lent_row (pure_carrier carrier.now) row) }
        requires words { IfSome row.route (λ r. IsEncoded (pure_carrier carrier.now) r.words.now) }
        ensures line { OnOk result (line_of self.new
            ≡ row_text (net_of self.old) (lent_row (pure_carrier carrier.now) row.entry)) }
        ensures net { net_of self.new ≡ net_of self.old }
    {
        let LentRow { node, dest, route } = row;
        match route {
            None => self.put_none(node, dest),
            Some(route) => {
                self.put_names(node, dest)?;
                self.form.push(&mut self.line, route.words)?;
                self.push_lent_path(route.path)?;
                self.line.push_bytes(b"\n")
            }
        }
    }

    // The text of a value.
    fn push_value(&mut self, value: &Value) -> Result<(), NoMemory>
        requires { In (net_carrier (net_of self.now)) (pure_value value.now) }
        ensures line { OnOk result (room_of self.new
            ≡ room_of self.old ++ value_text (net_carrier (net_of self.old)) (pure_value value.now)) }
        ensures net { net_of self.new ≡ net_of self.old }
    {
        self.value.clear();
        push_value(&mut self.value, self.net.alg(), value)?;
        self.line.push_bytes(self.value.as_bytes())
    }

    // The line of a row without a route, after a space.
    fn put_none(&mut self, node: NodeId, dest: DestId) -> Result<(), NoMemory>
        requires node { node.0 < length (net_of self.now).nodes }
        requires dest { dest.0 < length (net_of self.now).dests }
        ensures line { OnOk result (room_of self.new
            ≡ codes " " ++ names_text (net_of self.old) node.0 dest.0 ++ codes "none" ++ codes "\n") }
        ensures net { net_of self.new ≡ net_of self.old }
    {
        self.put_names(node, dest)?;
        self.line.push_bytes(b"none\n")
    }

    // A space, the names of a row and the space after each, in place of the line before.
    #[inline(always)]
    fn put_names(&mut self, node: NodeId, dest: DestId) -> Result<(), NoMemory>
        requires node { node.0 < length (net_of self.now).nodes }
        requires dest { dest.0 < length (net_of self.now).dests }
        ensures line { OnOk result (room_of self.new ≡ codes " " ++ names_text (net_of self.old) node.0 dest.0) }
        ensures net { net_of self.new ≡ net_of self.old }
    {
        self.line.clear();
        self.push_node(node)?;
        self.push_dest(dest)
    }

    // The name of a destination, between spaces.
    #[inline(always)]
    #[tactic(auto, using(crate::proofs::PathNames::name_at))]
    fn push_dest(&mut self, dest: DestId) -> Result<(), NoMemory>
        requires { dest.0 < length (net_of self.now).dests }
        ensures line { OnOk result (room_of self.new ≡ room_of self.old
            ++ between_spaces (dest_text (net_of self.old) dest.0)) }
        ensures net { net_of self.new ≡ net_of self.old }
    {
        self.dests.push(&mut self.line, dest.0 as usize)
    }

    // The name of a node, after a space.
    #[inline(always)]
    #[tactic(auto, using(crate::proofs::PathNames::name_at))]
    fn push_node(&mut self, node: NodeId) -> Result<(), NoMemory>
        requires { node.0 < length (net_of self.now).nodes }
        ensures line { OnOk result (room_of self.new ≡ room_of self.old
            ++ after_space (node_text (net_of self.old) node.0)) }
        ensures net { net_of self.new ≡ net_of self.old }
    {
        self.names.push(&mut self.line, node.0 as usize)
    }

    // The names of the nodes of a path, each after a space.
    fn push_path(&mut self, path: &[NodeId]) -> Result<(), NoMemory>
        requires { AreNodesOf (net_of self.now) (numbers path.now) }
        ensures line { OnOk result (room_of self.new ≡ room_of self.old
            ++ path_text (net_of self.old) (numbers path.now)) }
        ensures net { net_of self.new ≡ net_of self.old }
    {
        match path {
            [] => Ok(()),
            [node, rest @ ..] => {
                self.push_node(*node)?;
                self.push_path(rest)
            }
        }
    }

    // The same of a path that is lent.
    fn push_lent_path(&mut self, path: Trail<'_>) -> Result<(), NoMemory>
        requires { AreNodesOf (net_of self.now) (numbers path) }
        ensures line { OnOk result (room_of self.new ≡ room_of self.old
            ++ path_text (net_of self.old) (numbers path.entry)) }
        ensures net { net_of self.new ≡ net_of self.old }
    {
        let (node, rest) = path.split();
        self.push_node(node)?;
        match rest {
            Some(rest) => self.push_lent_path(rest),
            None => Ok(()),
        }
    }
}
