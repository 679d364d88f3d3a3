/// How many updates were sent, and how many were taken.
#[derive(Clone, Copy, Debug, PartialEq, Eq)]
pub struct Totals {
    pub sent: u64,
    pub taken: u64,
}

/// What was read of a book's running totals. No contract speaks of its numbers: other workers may
/// have changed the totals before the sight is used.
#[derive(Clone, Copy, Debug, PartialEq, Eq)]
pub struct Sight {
    pub sent: u64,
    pub taken: u64,
}
