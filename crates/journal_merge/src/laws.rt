ghost use Rattle.std.specs.Prelude.{◌≡◌, ◌≢◌, ◌<◌, ℕ, List, [], Some, slice_get};
ghost use Rattle.std.specs.List.{AllByRecursion};
ghost use Rattle.meta_base.specs.declared.ids.Delivery.{Delivery};
ghost use Rattle.journal_merge.specs.declared.log.NodeLog.{NodeLog};
ghost use Rattle.journal_merge.specs.Merging.{entries_of, ClocksAscend, AreOfDifferentNodes, IsMerged};

/// A journal has the entries of each log, in their order, where no two are of one node and each has ascending clocks;
/// and none of a node that no log is of.
pub fn keeps_each_log()
    ensures log { (logs : List NodeLog) (journal : List Delivery) → AreOfDifferentNodes logs
        → AllByRecursion (λ log. ClocksAscend log.entries) logs → (merged : IsMerged logs journal)
        → (p : ℕ) (log : NodeLog) → slice_get logs p ≡ Some log
        → entries_of log.node.0 merged.tagged ≡ log.entries }
    ensures none { (logs : List NodeLog) (journal : List Delivery) → (merged : IsMerged logs journal)
        → (i : ℕ) → AllByRecursion (λ log. log.node.0 ≢ i) logs → entries_of i merged.tagged ≡ [] }
{}

/// No receipt stands before its sending: where the entry at place p has the clock that a message was stamped with, and
/// that at place q has a clock above the stamp, as the receipt of the message has, p is before q.
pub fn receipts_follow_sendings()
    ensures { (logs : List NodeLog) (journal : List Delivery) → IsMerged logs journal
        → (p q : ℕ) (sending receipt : Delivery) (stamp : ℕ)
        → slice_get journal p ≡ Some sending → slice_get journal q ≡ Some receipt
        → sending.clock ≡ stamp → stamp < receipt.clock → p < q }
{}

/// Logs have one journal at most.
pub fn logs_have_one_journal()
    ensures { (logs : List NodeLog) (journal other : List Delivery) → IsMerged logs journal → IsMerged logs other
        → journal ≡ other }
{}
