ghost use Rattle.std.specs.Prelude.{◌≡◌, ◌<◌, ◌++◌, ◌∷◌, [], ℕ, List, Some, None, length, slice_get, true, IfOk, IfSome, OnOk, OnErr};
ghost use Rattle.std.specs.Str.{bytes_eq};
ghost use Rattle.net_graph.specs.Nets.{CanBeNumbered, is_name, number_of};

use crate::spots::Spots;
use indexmap::IndexSet;
use meta_base::{NoMemory, Text};
use std::alloc::Global;
use std::marker::Model;
use std::str;

// So many bytes, or fewer, are compared one by one: that takes less than a comparison of blocks.
const SHORT: usize = 16;

// Names, numbered from 0 in order of first sight. Contracts see the list of the names.
#[derive(Debug, Drop)]
pub(crate) struct Names {
    names: IndexSet<Vec<u8>>,
    // Their numbers. Where the guess is wrong, a name is looked up among all.
    spots: Spots,
    // The same names, as they are printed.
    texts: Vec<Text>,
}

impl Model for Names {
    ghost use Rattle.std.specs.Prelude.{◌≡◌, List, ℕ, map};

    ghost Value = { List (List ℕ) };

    ghost view = { λ s. map (λ v. v.items) s.names.keys };

    ghost invariant = { λ s. s.texts.items ≡ map (λ v. v.items) s.names.keys };
}

impl Names {
    /// No name.
    pub fn new(alloc: Global) -> Names
        ensures { result ≡ [] }
    {
        Names {
            names: IndexSet::new(alloc),
            spots: Spots::new(alloc),
            texts: Vec::new(alloc),
        }
    }

    /// How many names there are.
    pub fn count(&self) -> usize
        ensures { result ≡ length self.now }
    {
        self.names.len()
    }

    /// The number of a name, if it is there.
    pub fn named(&self, name: &[u8]) -> Option<u32>
        requires { CanBeNumbered (length self.now) }
        ensures { result ≡ number_of self.now name.now }
    {
        if let Some(number) = self.guessed(name) {
            return Some(number);
        }
        match self.names.get_index_of(name) {
            Some(number) => Some(number as u32),
            None => None,
        }
    }

    // The number of a name, if the guess is right.
    fn guessed(&self, name: &[u8]) -> Option<u32>
        requires { CanBeNumbered (length self.now) }
        ensures { IfSome result (λ number. number_of self.now name.now ≡ Some number) }
    {
        let number = self.spots.guess(name)?;
        let known = self.names.as_slice().get(number)?;
        if is_same(known.as_slice(), name) {
            Some(number as u32)
        } else {
            None
        }
    }

    /// The name of that number.
    pub fn name(&self, number: usize) -> &[u8]
        requires { number < length self.now }
        ensures { slice_get self.now number ≡ Some result.now }
    {
        self.names.as_slice()[number].as_slice()
    }

    /// The name of that number, as it is printed.
    pub fn text(&self, number: usize) -> &str
        requires { number < length self.now }
        ensures { slice_get self.now number ≡ Some result.now }
    {
        self.texts[number].as_str()
    }

    /// Adds a name that isn't there. After a refusal nothing has changed.
    pub fn add(&mut self, alloc: Global, name: &[u8]) -> Result<(), NoMemory>
        requires name { is_name name.now ≡ true }
        requires absent { number_of self.old name.now ≡ None }
        ensures ok { OnOk result (self.new ≡ self.old ++ name.now ∷ []) }
        ensures err { OnErr result (self.new ≡ self.old) }
    {
        let text = Text::copy(alloc, as_text(name))?;
        self.texts.reserve(1)?;
        self.spots.reserve()?;
        let number = self.texts.len();
        self.names.insert(Vec::from_slice(alloc, name)?)?;
        self.texts.push(text).unwrap();
        self.spots.note(name, number);
        Ok(())
    }

    /// The same names. They are looked up among all.
    pub fn copy(&self, alloc: Global) -> Result<Names, NoMemory>
        ensures { IfOk result (λ copied. copied ≡ self.now) }
    {
        Ok(Names {
            names: self.names.clone()?,
            spots: Spots::new(alloc),
            texts: copy_texts(alloc, &self.texts)?,
        })
    }

    /// Drops the last name.
    pub fn drop_last(&mut self)
        ensures { (names : List (List ℕ)) (name : List ℕ) → self.old ≡ names ++ name ∷ [] → self.new ≡ names }
    {
        let _ = self.names.pop();
        let _ = self.texts.pop();
    }
}

// Whether both are the same bytes.
fn is_same(first: &[u8], second: &[u8]) -> bool
    ensures { result ≡ bytes_eq first.now second.now }
{
    if first.len() > SHORT {
        return first == second;
    }
    let mut first = first;
    let mut second = second;
    while let ([a, after_a @ ..], [b, after_b @ ..]) = (first, second) {
        if a != b {
            return false;
        }
        first = after_a;
        second = after_b;
    }
    first.is_empty() && second.is_empty()
}

// The name as text: all of its bytes are ASCII.
fn as_text(name: &[u8]) -> &str
    requires { is_name name.now ≡ true }
    ensures { result.now ≡ name.now }
{
    match str::from_utf8(name) {
        Ok(name) => name,
        Err(_) => unreachable!(),
    }
}

fn copy_texts(alloc: Global, texts: &[Text]) -> Result<Vec<Text>, NoMemory>
    ensures { IfOk result (λ copied. copied.items ≡ texts.now) }
{
    let mut copied = Vec::with_capacity(alloc, texts.len())?;
    for text in texts {
        copied.push(Text::copy(alloc, text.as_str())?)?;
    }
    Ok(copied)
}
