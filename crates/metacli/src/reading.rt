// The files that a command names.
ghost use Rattle.std.specs.Prelude.{◌≡◌, IfOk, map};
ghost use Rattle.meta_base.specs.declared.ids.Which.TheVariants.{Report};
ghost use Rattle.net_graph.specs.Changes.{AreChanges};
ghost use Rattle.net_graph.specs.Views.{pure_change};
ghost use Rattle.topology_file.specs.Views.{pure_file};
ghost use Rattle.metacli.specs.Reading.{Takes, ReadsExpression, ReadsNetwork};
ghost use Rattle.metacli.specs.Views.{as_read};

use crate::outcome::Stop;
use alg_model::Alg;
use meta_base::{List, MAX_FILE_BYTES, NoMemory, Shelf, TakeError, Which, take_all};
use raml_syntax::{AlgError, read_alg};
use std::alloc::Global;
use topology_file::{NetError, NetFile, networks_keep_their_algebra, read_net};

/// The algebra of the expression file of that name, or why there is none.
pub fn read_expression<S: Shelf>(alloc: Global, shelf: &mut S, name: &str) -> Result<Alg, Stop>
    ensures { ReadsExpression name.now (S.now_is shelf.old) (as_read (λ alg. alg) result) (S.now_is shelf.new) }
{
    let bytes = take_file(alloc, shelf, name, Which::Expr)?;
    match read_alg(alloc, bytes.as_slice()) {
        Ok(alg) => Ok(alg),
        Err(AlgError::Bad(fault)) => Err(Stop::Expr(fault)),
        Err(AlgError::NoMemory) => Err(Stop::Memory),
    }
}

/// The network of the network file of that name over the algebra with its changes, or why there is none.
pub fn read_network<S: Shelf>(
    alloc: Global,
    shelf: &mut S,
    alg: &Alg,
    name: &str,
) -> Result<NetFile, Stop>
    ensures reads { ReadsNetwork alg.now name.now (S.now_is shelf.old)
        (as_read pure_file result) (S.now_is shelf.new) }
    ensures alg { IfOk result (λ file. file.net.alg ≡ alg.now) }
    ensures changes { IfOk result (λ file. AreChanges file.net (map pure_change file.changes)) }
{
    // The network that is read is over the algebra that was lent.
    networks_keep_their_algebra();
    let bytes = take_file(alloc, shelf, name, Which::Network)?;
    let alg = copied(alloc, alg)?;
    match read_net(alloc, alg, bytes.as_slice()) {
        Ok(file) => Ok(file),
        Err(NetError::Bad(fault)) => Err(Stop::Network(fault)),
        Err(NetError::NoMemory) => Err(Stop::Memory),
    }
}

/// The bytes of the report of that name, or why they were not taken.
pub fn take_report<S: Shelf>(alloc: Global, shelf: &mut S, name: &str) -> Result<List<u8>, Stop>
    ensures { Takes Report name.now (S.now_is shelf.old) (as_read (λ bytes. bytes) result) (S.now_is shelf.new) }
{
    take_file(alloc, shelf, name, Which::Report)
}

// An equal algebra.
fn copied(alloc: Global, alg: &Alg) -> Result<Alg, NoMemory>
    ensures { IfOk result (λ copied. copied ≡ alg.now) }
{
    alg.copy_part(alloc, alg.tree())
}

// The bytes of the file of that name, or why they were not taken.
fn take_file<S: Shelf>(
    alloc: Global,
    shelf: &mut S,
    name: &str,
    which: Which,
) -> Result<List<u8>, Stop>
    ensures { Takes which name.now (S.now_is shelf.old) (as_read (λ bytes. bytes) result) (S.now_is shelf.new) }
{
    match take_all(alloc, shelf, name, MAX_FILE_BYTES) {
        Ok(bytes) => Ok(bytes),
        Err(TakeError::Fault) => Err(Stop::Read(which)),
        Err(TakeError::TooLong) => Err(Stop::Long(which)),
        Err(TakeError::NoMemory) => Err(Stop::Memory),
    }
}
