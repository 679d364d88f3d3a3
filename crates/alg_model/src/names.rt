ghost use Rattle.std.specs.Prelude.{◌≡◌, ◌≤◌, ◌<◌, List, ℕ, length, IfSome};
ghost use Rattle.alg_model.specs.declared.alg.TheConstants.{MAX_TABLE_NAMES};
ghost use Rattle.alg_model.specs.Formation.{row_name};
ghost use Rattle.alg_model.specs.Names.{place_among};

use crate::TableRow;
use meta_base::Text;

/// What has a name in a table: a value's name itself, and a row.
pub trait Named {
    /// The name as bytes.
    ghost name_of: { Self → List ℕ };

    /// Lends the name.
    fn name(&self) -> &[u8]
        ensures { result.now ≡ name_of self.now };
}

impl Named for Text {
    ghost name_of = { λ name. name };

    fn name(&self) -> &[u8] {
        self.as_str().as_bytes()
    }
}

impl Named for TableRow {
    ghost name_of = { row_name };

    fn name(&self) -> &[u8] {
        self.name.as_str().as_bytes()
    }
}

/// The place of the first of a table's values or rows whose name is this word, or `None` where none has it.
/// A table has at most [`crate::MAX_TABLE_NAMES`] of either.
pub fn place_of<N: Named>(items: &[N], word: &[u8]) -> Option<u8>
    requires { length items.now ≤ MAX_TABLE_NAMES }
    ensures place { result ≡ place_among N.name_of items.now word.now }
    ensures within { IfSome result (λ place. place < length items.now) }
{
    let place = position(items, word)?;
    Some(place as u8)
}

fn position<N: Named>(items: &[N], word: &[u8]) -> Option<usize>
    ensures place { result ≡ place_among N.name_of items.now word.now }
    ensures within { IfSome result (λ place. place < length items.now) }
{
    items.iter().position(|item| item.name() == word)
}
