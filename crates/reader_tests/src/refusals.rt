// Tests of `testkit_readers`: what means nothing is refused. No test may let a refusal go by, so each of these is to fail.
use alg_model::{Alg, Value};
use meta_base::{MAX_FILE_BYTES, NoMemory};
use net_graph::Net;
use std::alloc::Global;
use std::process::Abort;
use std::test::Fail;
use testkit_readers::{algebra, algebra_of_file, network, value};

fn panic_at_refusal<T: Drop>(rt: &impl Abort, answer: Result<T, Fail>) {
    match answer {
        Ok(_) => {}
        Err(_refusal) => panic!(rt; "refused"),
    }
}

// The text after so many empty lines that it ends past the limit of a file.
fn too_long(alloc: Global, text: &[u8]) -> Result<Vec<u8>, NoMemory> {
    let mut file = vec![in alloc; b'\n'; MAX_FILE_BYTES]?;
    file.extend_from_slice(text)?;
    Ok(file)
}

fn algebra_of_long_file(alloc: Global) -> Result<Alg, Fail> {
    let file = too_long(alloc, b"main gate;")?;
    algebra_of_file(alloc, &file)
}

#[test]
#[should_panic(expected = "refused")]
fn long_expression_files(rt: HostRuntime) {
    panic_at_refusal(&rt, algebra_of_long_file(rt.alloc()));
}

#[test]
#[should_panic(expected = "refused")]
fn broken_expression_files(rt: HostRuntime) {
    panic_at_refusal(&rt, algebra_of_file(rt.alloc(), b"main gate"));
}

#[test]
#[should_panic(expected = "refused")]
fn unknown_expressions(rt: HostRuntime) {
    panic_at_refusal(&rt, algebra(rt.alloc(), "door"));
}

fn value_of_gate(alloc: Global, text: &str) -> Result<Value, Fail> {
    let gate = algebra(alloc, "gate")?;
    let value = value(alloc, &gate, text);
    drop(gate);
    value
}

// A label of the algebra is no value.
#[test]
#[should_panic(expected = "refused")]
fn values_of_no_carrier(rt: HostRuntime) {
    panic_at_refusal(&rt, value_of_gate(rt.alloc(), "deny"));
}

fn network_of_long_file(alloc: Global) -> Result<Net, Fail> {
    let file = too_long(alloc, b"node a\n")?;
    network(alloc, "gate", &file)
}

#[test]
#[should_panic(expected = "refused")]
fn long_network_files(rt: HostRuntime) {
    panic_at_refusal(&rt, network_of_long_file(rt.alloc()));
}

#[test]
#[should_panic(expected = "refused")]
fn broken_network_files(rt: HostRuntime) {
    panic_at_refusal(&rt, network(rt.alloc(), "gate", b"node a a\n"));
}

#[test]
#[should_panic(expected = "refused")]
fn networks_of_unknown_expressions(rt: HostRuntime) {
    panic_at_refusal(&rt, network(rt.alloc(), "door", b"node a\n"));
}
