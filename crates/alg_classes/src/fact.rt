/// One of the eight facts of a label. D is the set of the values that it doesn't send to none. Monotone, strict,
/// isotone, cancellative and total are as [`crate::Property`] has them (Sobrinho 2002 and 2005, Gurney and Griffin
/// 2007); the rules of composed labels ask for the other three of the parts.
#[derive(Clone, Copy, Debug, PartialEq, Eq)]
pub enum Fact {
    /// D is all values.
    Total,
    /// D is empty.
    Dead,
    Monotone,
    Strict,
    Isotone,
    Cancellative,
    /// All images are equivalent.
    Condensed,
    /// All values of D are equivalent.
    Narrow,
}
