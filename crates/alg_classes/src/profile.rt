ghost use Rattle.std.specs.Prelude.{◌≡◌};
ghost use Rattle.alg_classes.specs.Profiles.{bit};

use crate::Fact;

/// Which of the eight facts a label has: [`Fact`] says what each means.
#[derive(Clone, Copy, Debug, PartialEq, Eq)]
pub struct Profile {
    pub total: bool,
    pub dead: bool,
    pub mono: bool,
    pub strict: bool,
    pub iso: bool,
    pub canc: bool,
    pub cond: bool,
    pub narrow: bool,
}

impl Profile {
    /// Whether the label has the fact.
    pub fn has(&self, fact: Fact) -> bool
        ensures { result ≡ bit self.now fact }
    {
        match fact {
            Fact::Total => self.total,
            Fact::Dead => self.dead,
            Fact::Monotone => self.mono,
            Fact::Strict => self.strict,
            Fact::Isotone => self.iso,
            Fact::Cancellative => self.canc,
            Fact::Condensed => self.cond,
            Fact::Narrow => self.narrow,
        }
    }
}
