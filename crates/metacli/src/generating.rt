// What `demo` decides.
ghost use Rattle.std.specs.Prelude.{◌≡◌, IfOk};
ghost use Rattle.command_words.specs.Words.{AreDemoNodes};
ghost use Rattle.net_gen.specs.Networks.{demo_alg};
ghost use Rattle.topology_file.specs.Views.{pure_file};
ghost use Rattle.vector_runs.specs.Runs.{pure_phase};
ghost use Rattle.metacli.specs.Generated.{IsGenerated, IsRunAlone};
ghost use Rattle.metacli.specs.Outcome.{IsShownAs};
ghost use Rattle.metacli.specs.Views.{CanBeWritten, pure_outcome};

use crate::outcome::{Outcome, Shown, Stop};
use crate::running::run_through;
use alg_model::{Alg, Tree};
use demo_rest::generated_runs_are_quiet;
use meta_base::{Gate, NoMemory};
use net_gen::{
    generated_texts_are_networks, generated_texts_are_never_refused, generated_texts_are_short,
    network_text,
};
use std::alloc::{AllocGlobal, Global};
use std::sync::Wait;
use std::thread::Threads;
use topology_file::{NetError, NetFile, read_net};
use vector_runs::Phase;

// How many deliveries the nodes of a generated network may make.
const DEMO_TURNS: u64 = 100_000;

// By how many workers they are run.
const DEMO_WORKERS: u32 = 4;

/// What `demo` comes to with this seed and so many nodes.
pub fn demo<R: AllocGlobal + Threads + Wait + Sync, G: Gate>(
    rt: &R,
    seed: u64,
    nodes: u32,
    gate: &G,
) -> Outcome
    requires { AreDemoNodes nodes }
    ensures shown { IsShownAs seed nodes (pure_outcome result) }
    ensures printable { CanBeWritten result }
{
    match run_generated(rt, seed, nodes, gate) {
        Ok((alg, file, last)) => Outcome::Shown(Shown { alg, file, last }),
        Err(NoMemory) => Outcome::refused(Stop::Memory),
    }
}

// The generated network, and the phase that its nodes run, which is quiet.
fn run_generated<R: AllocGlobal + Threads + Wait + Sync, G: Gate>(
    rt: &R,
    seed: u64,
    nodes: u32,
    gate: &G,
) -> Result<(Alg, NetFile, Phase), NoMemory>
    requires { AreDemoNodes nodes }
    ensures alg { IfOk result (λ made. made.0 ≡ demo_alg) }
    ensures file { IfOk result (λ made. IsGenerated seed nodes (pure_file made.1)) }
    ensures run { IfOk result (λ made. IsRunAlone made.1.net (pure_phase made.2)) }
{
    generated_runs_are_quiet();
    let file = generated(rt.alloc(), demo_algebra(), seed, nodes)?;
    match run_through(rt, &file, DEMO_WORKERS, DEMO_TURNS, gate) {
        Ok((changed, run)) => {
            drop(changed);
            drop(run.past);
            Ok((demo_algebra(), file, run.last))
        }
        Err(NoMemory) => {
            drop(file);
            Err(NoMemory)
        }
    }
}

// `add(1..9)`.
fn demo_algebra() -> Alg
    ensures { result ≡ demo_alg }
{
    match Alg::checked(Tree::Add { low: 1, high: 9 }) {
        Ok(alg) => alg,
        Err(_) => unreachable!(),
    }
}

// The network of the generated text.
fn generated(alloc: Global, alg: Alg, seed: u64, nodes: u32) -> Result<NetFile, NoMemory>
    requires alg { alg ≡ demo_alg }
    requires nodes { AreDemoNodes nodes }
    ensures { IfOk result (λ file. IsGenerated seed nodes (pure_file file)) }
{
    generated_texts_are_networks();
    generated_texts_are_never_refused();
    generated_texts_are_short();
    let text = network_text(alloc, seed, nodes)?;
    match read_net(alloc, alg, text.as_str().as_bytes()) {
        Ok(file) => Ok(file),
        Err(NetError::NoMemory) => Err(NoMemory),
        Err(NetError::Bad(_)) => unreachable!(),
    }
}
