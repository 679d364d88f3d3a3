// Pieces of rows and lists by places and lengths that are words.
ghost use Rattle.std.specs.Prelude.{◌≡◌, ◌<◌, ◌≤◌, length, take, drop, slice_get, Some};

use crate::Word;

// The item at that place.
pub(crate) fn item<T: Copy>(items: &[T], place: Word) -> T
    requires { place < length items.now }
    ensures { slice_get items.now place ≡ Some result }
{
    items[place as usize]
}

// So many words from the front of the row, and those after them.
pub(crate) fn sequence(count: Word, row: &[Word]) -> (&[Word], &[Word])
    requires { count ≤ length row.now }
    ensures front { result.0.now ≡ take count row.now }
    ensures rest { result.1.now ≡ drop count row.now }
{
    row.split_at(count as usize)
}

// The items after so many from the front.
pub(crate) fn after<T>(items: &[T], count: usize) -> &[T]
    requires { count ≤ length items.now }
    ensures { result.now ≡ drop count items.now }
{
    items.split_at(count).1
}
