ghost use Rattle.std.specs.Prelude.{◌≡◌};
ghost use Rattle.meta_base.specs.Numbers.{max_number, max_file_bytes};

/// The greatest number that a text may hold, other than one that begins with the header of profile 2.
pub const MAX_NUMBER: u64 = 4_294_967_295;

/// The most bytes that a file may have.
pub const MAX_FILE_BYTES: usize = 4_194_304;

/// The bounds of texts and files are the numbers of the specification.
pub fn numbers_are_specified()
    ensures number { MAX_NUMBER ≡ max_number }
    ensures file_bytes { MAX_FILE_BYTES ≡ max_file_bytes }
{}
