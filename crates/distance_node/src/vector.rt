ghost use Rattle.std.specs.Prelude.{◌≡◌, Some, option_map};
ghost use Rattle.distance_node.specs.Node.{PureVector};
ghost use Rattle.distance_node.specs.Vectors.{IsReported};

use crate::Mark;
use alg_model::Algebra;
use meta_base::DestId;
use std::marker::{Model, PhantomData};

/// What a node tells those that may route by it: the value of its row for a destination, in the algebra's own form, or
/// that it has none. It holds no memory but that of the value. Contracts see what it says, by the algebra of its mark.
#[derive(Drop)]
pub struct Vector<A: Algebra, M: Mark<A>> {
    dest: DestId,
    stamp: u64,
    value: Option<A::Sig>,
    mark: PhantomData<M>,
}

impl<A: Algebra, M: Mark<A>> Model for Vector<A, M> {
    ghost use Rattle.std.specs.Prelude.{option_map};
    ghost use Rattle.distance_node.specs.Marks.{meant, is_meant};
    ghost use Rattle.distance_node.specs.Node.{PureVector};
    ghost use Rattle.distance_node.specs.Vectors.{coded_vector, IsReported};

    ghost Value = { PureVector };

    ghost coded = { coded_vector };

    ghost view = { λ m. record {
      dest = m.dest.0;
      value = option_map (meant A.sig_value M.algebra) m.value;
      stamp = m.stamp;
    } };

    // A value is one of the algebra, whose numbers it may have by the clock.
    ghost invariant = { λ m. IsReported (is_meant A.is_sig M.algebra) (meant A.sig_value M.algebra) m.stamp m.value };
}

impl<A: Algebra, M: Mark<A>> Vector<A, M> {
    // The message of this value, or of none, at a clock.
    pub(crate) fn new(_algebra: &A, dest: DestId, value: Option<A::Sig>, stamp: u64) -> Vector<A, M>
        requires mark { M.algebra ≡ Some _algebra.now }
        requires reported { IsReported (A.is_sig _algebra.now) (A.sig_value _algebra.now) stamp value }
        ensures { result ≡
            record { dest = dest.0; value = option_map (A.sig_value _algebra.now) value; stamp = stamp } }
    {
        Vector {
            dest,
            stamp,
            value,
            mark: PhantomData,
        }
    }

    /// The destination that it tells of.
    pub fn dest(&self) -> DestId
        ensures { result.0 ≡ self.now.dest }
    {
        self.dest
    }

    /// The clock of the delivery that made the node send it, and 0 where it was sent at the start.
    pub fn stamp(&self) -> u64
        ensures { result ≡ self.now.stamp }
    {
        self.stamp
    }

    // Lends the value in the form of the mark's algebra.
    pub(crate) fn reported(&self, _algebra: &A) -> &Option<A::Sig>
        requires mark { M.algebra ≡ Some _algebra.now }
        ensures reported { IsReported (A.is_sig _algebra.now) (A.sig_value _algebra.now) self.now.stamp result.now }
        ensures value { option_map (A.sig_value _algebra.now) result.now ≡ self.now.value }
    {
        &self.value
    }
}
