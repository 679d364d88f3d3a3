// The facts, by how many values an example of each has.

// A fact that a value refutes.
#[derive(Clone, Copy, Debug, PartialEq, Eq)]
pub(crate) enum ValueFact {
    Total,
    Dead,
    Monotone,
    Strict,
}

// A fact that two values refute.
#[derive(Clone, Copy, Debug, PartialEq, Eq)]
pub(crate) enum PairFact {
    Isotone,
    Cancellative,
    Condensed,
    Narrow,
}
