ghost use Rattle.std.specs.Prelude.{◌≡◌, Bool, true, false, ◌+◌};

use crate::Steps;
use std::sync::ledger::Ledger;

/// Which key comes before which: a strict weak order among the keys that it speaks of. Keys of which neither
/// comes before the other tie.
pub trait Order<K> {
    /// The first key comes before the second.
    ghost is_before: { Self → K → K → Bool };

    /// The order speaks of this key.
    ghost is_key: { Self → K → Type 0 };

    /// Whether the first key comes before the second, both of which the order speaks of. It is one step: an
    /// implementation ticks once.
    fn before<L: Ledger>(&self, a: &K, b: &K, steps: &mut Steps<L>) -> bool
        requires first { is_key self.now a.now }
        requires second { is_key self.now b.now }
        ensures value { result ≡ is_before self.now a.now b.now }
        ensures step { steps.new ≡ steps.old + 1 };

    // Of two keys one at most comes before the other.
    ghost asymmetric: { (s : Self) (a b : K) → is_key s a → is_key s b →
        is_before s a b ≡ true → is_before s b a ≡ false };

    // If the second doesn't come before the first, nor the third before the second, the third doesn't come
    // before the first.
    ghost transitive: { (s : Self) (a b c : K) → is_key s a → is_key s b → is_key s c →
        is_before s b a ≡ false → is_before s c b ≡ false → is_before s c a ≡ false };
}
