ghost use Rattle.std.specs.Prelude.{◌≡◌};
ghost use Rattle.meta_base.specs.Numbers.{max_file_bytes};
ghost use Rattle.alg_model.specs.declared.edition.Edition.{Edition};
ghost use Rattle.alg_model.specs.Bounds.{greatest_number};
ghost use Rattle.alg_model.specs.Numbers.{IsMost, limits_of, max_label_number, max_table_names};

use meta_base::{MAX_FILE_BYTES, MAX_NUMBER};

/// The greatest number of a label in any edition: that of a text of profile 2.
pub const MAX_LABEL_NUMBER: u64 = 18_446_744_073_709_551_615;

/// The profile of the language in which an algebra was written. It says how great the numbers of its
/// texts may be, and how large its networks.
#[derive(Clone, Copy, Debug, PartialEq, Eq)]
pub enum Edition {
    /// Numbers to [`meta_base::MAX_NUMBER`].
    One,
    /// Numbers to [`MAX_LABEL_NUMBER`].
    Two,
}

/// What an edition bounds.
#[derive(Clone, Copy)]
pub struct EditionLimits {
    /// The greatest number that a text may hold, and so that of a label.
    pub number: u64,
    /// The most values of a table, and the most rows.
    pub table_names: usize,
    /// The most nodes of a network.
    pub nodes: usize,
    /// The most arcs of a network.
    pub arcs: usize,
    /// The most destinations of a network.
    pub dests: usize,
    /// The most changes of a network file.
    pub changes: usize,
    /// The most bytes of a network file.
    pub net_bytes: usize,
}

impl Edition {
    /// What this edition bounds.
    pub fn limits(self) -> EditionLimits
        ensures { result ≡ limits_of self }
    {
        match self {
            Edition::One => EditionLimits {
                number: MAX_NUMBER,
                table_names: 16,
                nodes: 512,
                arcs: 8_192,
                dests: 64,
                changes: 16,
                net_bytes: MAX_FILE_BYTES,
            },
            Edition::Two => EditionLimits {
                number: MAX_LABEL_NUMBER,
                table_names: 16,
                nodes: 4_096,
                arcs: 8_192,
                dests: 8,
                changes: 4,
                net_bytes: MAX_FILE_BYTES,
            },
        }
    }

    /// The greatest number that a text of this edition may hold.
    pub fn greatest_number(self) -> u64
        ensures { result ≡ greatest_number self }
    {
        self.limits().number
    }
}

/// [`MAX_LABEL_NUMBER`] is the number of the specification, and the greatest number of any edition.
#[tactic(auto, using(crate::specs::Numbers::most_of_labels))]
pub fn labels_are_bounded()
    ensures number { MAX_LABEL_NUMBER ≡ max_label_number }
    ensures most { IsMost (λ e. (limits_of e).number) MAX_LABEL_NUMBER }
{}

/// Tables and network files have one limit in all editions: what reads them asks for none.
#[tactic(auto, using(crate::specs::Numbers::tables_alike, crate::specs::Numbers::files_alike))]
pub fn editions_are_alike()
    ensures tables { (e : Edition) → (limits_of e).table_names ≡ max_table_names }
    ensures files { (e : Edition) → (limits_of e).net_bytes ≡ max_file_bytes }
{}
