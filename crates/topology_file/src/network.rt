ghost use Rattle.std.specs.Prelude.{◌≡◌, ◌≤◌, length, map, IfOk, IfErr};
ghost use Rattle.meta_base.specs.declared.limits.TheConstants.{MAX_FILE_BYTES};
ghost use Rattle.net_graph.specs.Changes.{AreChanges};
ghost use Rattle.net_graph.specs.Views.{pure_change};
ghost use Rattle.topology_file.specs.NetText.{NetText, IsRefusedBy};
ghost use Rattle.topology_file.specs.Numbers.{max_line_bytes};
ghost use Rattle.topology_file.specs.Views.{pure_file};

use crate::NetError;
use crate::draft::FileDraft;
use crate::forms::ArcLine;
use alg_model::Alg;
use meta_base::{List, MAX_FILE_BYTES};
use net_graph::{Change, Net};
use sig_text::texts_have_one_spelling;
use std::alloc::Global;

/// The most bytes of a line as it is cut, before a carriage return or a comment is dropped.
pub const MAX_LINE_BYTES: usize = 4_096;

/// The bound of lines is the number of the specification.
pub fn numbers_are_specified()
    ensures { MAX_LINE_BYTES ≡ max_line_bytes }
{}

/// What a network file means: a network, and the changes that come after it.
#[derive(Debug, Drop)]
pub struct NetFile {
    pub net: Net,
    /// Each is one that the network after those before it may have.
    pub changes: List<Change>,
}

/// The network that the bytes of a network file mean over the algebra, and its changes.
///
/// The file is cut at line feeds; what stands after the last one is a line too if it isn't empty. A
/// line has at most [`MAX_LINE_BYTES`] bytes. One carriage return at its end is dropped, and so is all
/// from `#` on. Words are separated by spaces and tabs. A line is one of these, or has no word:
///
/// - `node A ..`: one or more nodes of new names, numbered in order.
/// - `link A B : LABEL`: an arc from node A, which listens, to node B, which speaks. There is no other
///   arc from A to B, and A isn't B.
/// - `both A B : LABEL`: the arcs from A to B and from B to A.
/// - `origin D at A : VALUE`: an origin of destination D at node A, which has no other one of D.
/// - `then link A B : LABEL`: after the changes so far, the arc from A to B gets this label in its
///   place; if there is none, it is added as the last one.
/// - `then drop A B`: after the changes so far, the arc from A to B is taken out.
///
/// After a `then` line only such lines come. A name is 1 to 32 ASCII letters, digits, `_`, `-` and `.`.
/// The literal is all that follows the first colon of the line, as [`sig_text::read_label`] and
/// [`sig_text::read_value`] have it. There are at most so many nodes, arcs, destinations and changes as
/// [`net_graph`] says for the algebra's edition.
///
/// The first line that breaks a rule is [`NetError::Bad`] with its number, from 1 on, and the first rule
/// that it breaks, in the order of [`crate::NetKind`]. [`NetError::NoMemory`] comes where there is no
/// memory for the network.
pub fn read_net(alloc: Global, alg: Alg, source: &[u8]) -> Result<NetFile, NetError>
    requires { length source.now ≤ MAX_FILE_BYTES }
    ensures network { IfOk result (λ file. NetText source.now alg (pure_file file)) }
    ensures changes { IfOk result (λ file. AreChanges file.net (map pure_change file.changes)) }
    ensures fault { IfErr result (IsRefusedBy source.now alg) }
{
    // What is read of a literal is what it spells.
    texts_have_one_spelling();
    let mut file = FileDraft::new(alloc, alg);
    file.reserve(source.len())?;
    let mut number: u32 = 1;
    let mut rest = source;
    let mut place = ArcLine::blank();
    while !rest.is_empty() {
        match file.add_first_line(rest, &mut place) {
            Ok(others) => rest = others,
            Err(error) => return Err(error.at(number)),
        }
        number += 1;
    }
    Ok(file.finish()?)
}
