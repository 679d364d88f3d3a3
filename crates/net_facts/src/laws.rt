ghost use Rattle.std.specs.Prelude.{◌≡◌, ◌<◌, ℕ, List, length};
ghost use Rattle.alg_model.specs.Instances.{InstanceAtMost};
ghost use Rattle.alg_model.specs.Properties.{PureProperty};
ghost use Rattle.alg_model.specs.Verdicts.{PureInstance};
ghost use Rattle.alg_model.specs.declared.alg.TheConstants.{MAX_VALUE_NUMBER};
ghost use Rattle.alg_model.specs.declared.edition.TheConstants.{MAX_LABEL_NUMBER};
ghost use Rattle.net_facts.specs.Misses.{IsFirstMissing, MissesFirst, NetHasAll};
ghost use Rattle.net_graph.specs.Nets.{PureNet};

/// At most one arc is the first whose label doesn't have one of the properties, and one property the earliest that it
/// doesn't have.
pub fn first_missing_is_unique()
    ensures { (properties : List PureProperty) (net : PureNet) (j k : ℕ) (p q : PureProperty) →
        MissesFirst properties net j p → MissesFirst properties net k q → (j ≡ k) × (p ≡ q) }
{}

/// A network in which an arc is the first whose label doesn't have one of the properties hasn't all of them.
#[tactic(auto, using(crate::specs::MissingLaws::first_refutes))]
pub fn first_misses_refute()
    ensures { (properties : List PureProperty) (net : PureNet) (k : ℕ) (p : PureProperty) →
        MissesFirst properties net k p → ¬ NetHasAll properties net }
{}

/// The arc that is the first to miss a property is the network's, and the instance's numbers are small enough to apply
/// its label to its values.
pub fn first_misses_are_small()
    ensures { (properties : List PureProperty) (net : PureNet) (k : ℕ) (x : PureInstance) →
        IsFirstMissing properties net k x →
        (k < length net.arcs) × InstanceAtMost MAX_LABEL_NUMBER MAX_VALUE_NUMBER x }
{}
