ghost use Rattle.std.specs.Prelude.{Option, None};

use std::marker::Brand;

/// A mark of one algebra. Nodes tell values in the algebra's own form, which means something in that algebra alone; so
/// all nodes and messages of a machine have one mark, and what a speaker tells means the same to its listeners. No code
/// holds it: who makes the nodes passes [`Brand`], and the proof of that call picks the algebra.
pub trait Mark<A> {
    /// The algebra, if the mark is one of an algebra.
    ghost algebra: { Option A };
}

impl<A> Mark<A> for Brand {
    ghost algebra = { None };
}
