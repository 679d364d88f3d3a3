// What texts name, at hand where it was noted.
ghost use Rattle.std.specs.Prelude.{◌≡◌, None, replicate, set, IfOk, IfSome};
ghost use Rattle.topology_file.specs.TextSpots.{IsBlank, IsNoted, IsNotedMore};

use crate::word::Word;
use meta_base::NoMemory;
use std::alloc::Global;

/// What texts name, each noted at the spot of its hash. Texts may have one spot in common: then the one that was noted
/// last stands there. So a text may have been noted though it isn't found.
#[derive(Debug, Drop)]
pub struct TextSpots<'a, T: Copy> {
    pub spots: Vec<Option<(Word<'a>, T)>>,
}

impl<'a, T: Copy> TextSpots<'a, T> {
    /// So many spots, at none of which a text is noted. Where there is no memory for them there are none.
    pub fn new(alloc: Global, count: usize) -> TextSpots<'a, T>
        ensures { IsBlank result.spots.items }
    {
        match empty_spots(alloc, count) {
            Ok(spots) => TextSpots { spots },
            Err(_) => TextSpots {
                spots: Vec::new(alloc),
            },
        }
    }

    /// What the text names, if it is found.
    #[inline]
    pub fn get(&self, text: &Word<'_>) -> Option<T>
        ensures { IfSome result (IsNoted self.now.spots.items text.now) }
    {
        match self.spots.get(self.spot_of(text)) {
            Some(Some((noted, named))) if noted.is_same(text) => Some(*named),
            _ => None,
        }
    }

    /// Notes what the text names, if there are spots.
    pub fn note(&mut self, text: Word<'a>, named: T)
        ensures { IsNotedMore self.old.spots.items text.entry named self.new.spots.items }
    {
        let spot = self.spot_of(&text);
        self.put(spot, Some((text, named)));
    }

    // From now on this stands at the spot, if there is such a one.
    fn put(&mut self, spot: usize, noted: Option<(Word<'a>, T)>)
        ensures { self.new.spots.items ≡ set self.old.spots.items spot noted.entry }
    {
        if let Some(place) = self.spots.get_mut(spot) {
            *place = noted;
        }
    }

    // The spot of a text. It is there where the number of spots is a power of two, and not above 2^16.
    #[inline]
    fn spot_of(&self, text: &Word<'_>) -> usize {
        (text.hash() >> 48) as usize & self.spots.len().saturating_sub(1)
    }
}

fn empty_spots<'a, T: Copy>(
    alloc: Global,
    count: usize,
) -> Result<Vec<Option<(Word<'a>, T)>>, NoMemory>
    ensures { IfOk result (λ spots. spots.items ≡ replicate count None) }
{
    let mut spots = Vec::with_capacity(alloc, count)?;
    for _ in 0..count {
        spots.push(None)?;
    }
    Ok(spots)
}
