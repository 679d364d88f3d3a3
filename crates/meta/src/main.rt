//! The program: it hands the words, the system's files and standard output, as `host_io` adapts them, to the top call
//! of `metacli`, where all that it does is decided.
#![tactic(auto)]

ghost use Rattle.std.specs.Prelude.{◌≡◌, IfOk, IsErrOf};
ghost use Rattle.meta.specs.Endings.{IsCarriedOut, IsRefusedUnread};
ghost use Rattle.meta.specs.declared.WordsError.TheVariants.{NoMemory as NoMemoryLeft};

use host_io::{FileShelf, OutSink};
use meta_base::{Failed, NoMemory, OpenGate, Shelf, Sink, Text, put_all};
use metacli::{run_meta, status};
use std::alloc::Global;
use std::process::ExitCode;
use std::rt::{Env, Files};
use std::sync::Wait;
use std::thread::Threads;
use std::{env, io, mem};

// Why there are no words.
enum WordsError {
    NoMemory,
    // A word isn't UTF-8, so it names no command and no file.
    NotText,
}

impl From<NoMemory> for WordsError {
    ghost from_gives = { λ _ e. e ≡ NoMemoryLeft };

    fn from(_: NoMemory) -> Self {
        WordsError::NoMemory
    }
}

// The words after the program's name.
fn read_args<R: AllocGlobal + Env>(rt: &R) -> Result<Vec<Text>, WordsError> {
    let mut words = Vec::new(rt.alloc());
    let args = env::args(rt).map_err(|error| match error.kind() {
        io::ErrorKind::OutOfMemory => WordsError::NoMemory,
        _ => WordsError::NotText,
    })?;
    for word in args.skip(1) {
        let word = Text::copy(rt.alloc(), word.as_str())?;
        words.push(word).map_err(NoMemory::from)?;
    }
    Ok(words)
}

// Carries the words out over these files, and answers the status.
fn carry_out<R: AllocGlobal + Threads + Wait + Sync, S: Shelf, K: Sink>(
    rt: &R,
    words: &[Text],
    shelf: &mut S,
    out: &mut K,
) -> u8
    ensures { IsCarriedOut words.now (S.now_is shelf.old) (S.now_is shelf.new)
        (K.holds out.old) (K.holds out.new) result }
{
    let ended = run_meta(rt, words, shelf, out, &OpenGate);
    let status = status(&ended.answer);
    // The process ends, and all its memory with it: giving back what was found piece by piece takes a tenth of a run.
    mem::forget(ended);
    status
}

// Refuses words that aren't UTF-8, and answers the status.
fn refuse_words<K: Sink>(out: &mut K) -> u8
    ensures { IsRefusedUnread (K.holds out.old) (K.holds out.new) result }
{
    match put_all(out, b"words refused: C2\n") {
        Ok(()) => match out.flush() {
            Ok(()) => 1,
            Err(_) => 6,
        },
        Err(Failed) => 6,
    }
}

// What the program does with these words, and the status that it ends with.
fn run<R: AllocGlobal + Threads + Wait + Sync, S: Shelf, K: Sink>(
    rt: &R,
    words: Result<Vec<Text>, WordsError>,
    shelf: &mut S,
    out: &mut K,
) -> u8
    ensures carried_out { IfOk words (λ words. IsCarriedOut words.items (S.now_is shelf.old) (S.now_is shelf.new)
        (K.holds out.old) (K.holds out.new) result) }
    ensures not_text { IsErrOf words WordsError.NotText →
        IsRefusedUnread (K.holds out.old) (K.holds out.new) result × (S.now_is shelf.new ≡ S.now_is shelf.old) }
    ensures no_memory { IsErrOf words WordsError.NoMemory →
        (result ≡ 7) × (K.holds out.new ≡ K.holds out.old) × (S.now_is shelf.new ≡ S.now_is shelf.old) }
{
    match words {
        Ok(words) => carry_out(rt, &words, shelf, out),
        Err(WordsError::NotText) => refuse_words(out),
        Err(WordsError::NoMemory) => 7,
    }
}

// As many bytes as most blocks have that are given back while the program works.
const USUAL_BLOCK: usize = 1 << 20;

// Has the system's allocator keep blocks that are given back for later requests. glibc hands those of 128 KiB and more
// back to the system, until it has seen a larger one given back: then it keeps all up to that size, and memory that was
// touched once need not be found again. The block isn't written to, so it takes no memory. Where there is none the
// program does without.
fn keep_blocks(alloc: Global) {
    drop(Vec::<u8>::with_capacity(alloc, USUAL_BLOCK));
}

// The same with the words, the files and the standard output of the system.
fn run_on_system<R: AllocGlobal + Env + Files + Print + Threads + Wait + Sync>(rt: &R) -> u8 {
    keep_blocks(rt.alloc());
    let mut shelf = FileShelf::new(rt);
    match OutSink::new(rt.alloc(), rt) {
        Ok(mut out) => run(rt, read_args(rt), &mut shelf, &mut out),
        Err(NoMemory) => 7,
    }
}

fn main(rt: HostRuntime) -> ExitCode {
    ExitCode::from(run_on_system(&rt))
}
