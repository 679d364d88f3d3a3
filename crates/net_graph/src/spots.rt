// Where texts stand that are looked up often.
ghost use Rattle.std.specs.Prelude.{◌<◌};

use meta_base::NoMemory;
use std::alloc::Global;

// How many spots there are.
const SPOTS: usize = 4_096;

// Numbers that were noted for texts, each at the spot of its text. Texts may have one spot in common: then the later
// number stands there. So what is given for a text is a guess, and whoever asks compares.
#[derive(Debug, Drop)]
pub(crate) struct Spots {
    numbers: Vec<u32>,
}

impl Spots {
    /// No number. It takes no memory before [`Spots::reserve`].
    pub fn new(alloc: Global) -> Spots {
        Spots {
            numbers: Vec::new(alloc),
        }
    }

    /// Takes memory for the spots, if they have none. Before that nothing is noted.
    pub fn reserve(&mut self) -> Result<(), NoMemory> {
        if self.numbers.is_empty() {
            self.numbers.resize(SPOTS, 0)?;
        }
        Ok(())
    }

    /// Notes the number of a text.
    pub fn note(&mut self, text: &[u8], number: usize) {
        if let (Some(spot), Ok(number)) = (
            self.numbers.get_mut(spot_of(text)),
            u32::try_from(number),
        ) {
            *spot = number;
        }
    }

    /// What may be the number of the text.
    pub fn guess(&self, text: &[u8]) -> Option<usize> {
        match self.numbers.get(spot_of(text)) {
            Some(number) => Some(*number as usize),
            None => None,
        }
    }
}

// The spot of a text, by its length and its last bytes, in which names that are made by counting differ.
fn spot_of(text: &[u8]) -> usize
    ensures { result < SPOTS }
{
    let mut hash = text.len() as u64;
    for byte in &text[text.len().saturating_sub(8)..] {
        hash = hash.wrapping_mul(31).wrapping_add(u64::from(*byte));
    }
    hash as usize % SPOTS
}
