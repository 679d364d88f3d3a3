//! What the crates of tests read their algebras, values and networks from: texts, by functions that promise nothing, so
//! that no test's proof sees the contracts of the readers. It stands on the readers, and on no crate that it
//! helps to test beyond them.
#![tactic(auto)]

use alg_model::{Alg, Value};
use meta_base::MAX_FILE_BYTES;
use net_graph::Net;
use raml_syntax::read_alg;
use sig_text::read_value;
use std::alloc::Global;
use std::test::Fail;
use topology_file::{NetFile, read_net};

/// The algebra that the text of an expression file means.
pub fn algebra_of_file(alloc: Global, text: &[u8]) -> Result<Alg, Fail> {
    if text.len() > MAX_FILE_BYTES {
        return Err("the expression file is too long".into());
    }
    Ok(read_alg(alloc, text)?)
}

/// The algebra of an expression.
pub fn algebra(alloc: Global, expression: &str) -> Result<Alg, Fail> {
    let text = format!(in alloc; "main {expression};")?;
    algebra_of_file(alloc, text.as_bytes())
}

/// The value of the algebra that the text spells.
pub fn value(alloc: Global, alg: &Alg, text: &str) -> Result<Value, Fail> {
    Ok(read_value(alloc, alg, text.as_bytes())?)
}

/// What the text of a network file means over the algebra of an expression.
pub fn network_file(alloc: Global, expression: &str, text: &[u8]) -> Result<NetFile, Fail> {
    let alg = algebra(alloc, expression)?;
    if text.len() > MAX_FILE_BYTES {
        return Err("the network file is too long".into());
    }
    Ok(read_net(alloc, alg, text)?)
}

/// The network of the file, without its changes.
pub fn network(alloc: Global, expression: &str, text: &[u8]) -> Result<Net, Fail> {
    Ok(network_file(alloc, expression, text)?.net)
}
