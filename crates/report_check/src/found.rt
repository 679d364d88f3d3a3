// What is found of a row, and what an offer shows of one.
ghost use Rattle.std.specs.Prelude.{◌≡◌, ◌||◌, ◌&&◌, not, Some, None, false, option_map, IfSome, MatchOption};
ghost use Rattle.std.specs.Bool.{Decides};
ghost use Rattle.std.specs.Option.{option_or};
ghost use Rattle.alg_model.specs.Carriers.{In};
ghost use Rattle.net_graph.specs.Tables.{carrier};
ghost use Rattle.net_graph.specs.Views.{pure_route};
ghost use Rattle.stable_check.specs.Checks.{Makes, Outdoes};

use meta_base::{List, NodeId};
use net_graph::{Net, Route};
use stable_check::{makes, outdoes};

/// What of a table, or of a row, is to be judged.
#[derive(Clone, Copy, Debug)]
pub struct Wanted {
    pub optimal: bool,
    pub stable: bool,
}

impl Wanted {
    /// What of this isn't cleared.
    pub fn without(self, clear: Wanted) -> Wanted
        ensures optimal { result.optimal ≡ (self.optimal && not clear.optimal) }
        ensures stable { result.stable ≡ (self.stable && not clear.stable) }
    {
        Wanted {
            optimal: self.optimal && !clear.optimal,
            stable: self.stable && !clear.stable,
        }
    }
}

/// What is found of a row by the offers to its node.
#[derive(Debug, Drop)]
pub struct OfferFindings {
    /// The row has no route, or one of the offers is its route.
    pub is_made: bool,
    /// An offer that is better than the row.
    pub better: Option<Route>,
}

/// What is found of a row.
#[derive(Debug, Drop)]
pub struct RowFindings {
    /// A walk that beats the row.
    pub beating: Option<List<NodeId>>,
    pub offers: OfferFindings,
}

impl RowFindings {
    /// An arc without a value shows nothing.
    pub fn nothing() -> RowFindings
        ensures beating { result.beating ≡ None }
        ensures made { result.offers.is_made ≡ false }
        ensures better { result.offers.better ≡ None }
    {
        RowFindings {
            beating: None,
            offers: OfferFindings {
                is_made: false,
                better: None,
            },
        }
    }

    /// What one or the other shows.
    pub fn or(self, other: RowFindings) -> RowFindings
        ensures beating { result.beating ≡ option_or self.beating other.beating }
        ensures made { result.offers.is_made ≡ (self.offers.is_made || other.offers.is_made) }
        ensures better { result.offers.better ≡ option_or self.offers.better other.offers.better }
    {
        RowFindings {
            beating: self.beating.or(other.beating),
            offers: OfferFindings {
                is_made: self.offers.is_made || other.offers.is_made,
                better: self.offers.better.or(other.offers.better),
            },
        }
    }
}

/// What an offer, if there is one, shows of a row.
pub fn weighed(net: &Net, offer: Option<Route>, row: Option<&Route>) -> OfferFindings
    requires offer { IfSome (option_map pure_route offer) (λ s. In (carrier net.now) s.value) }
    requires row { IfSome (option_map (λ r. pure_route r.now) row) (λ r. In (carrier net.now) r.value) }
    ensures made { Decides result.is_made (Makes
        (option_map pure_route offer) (option_map (λ r. pure_route r.now) row.entry)) }
    ensures better { let reported = option_map (λ r. pure_route r.now) row.entry in MatchOption result.better
        (¬ Outdoes (carrier net.now) (option_map pure_route offer) reported)
        (λ s. (option_map pure_route offer ≡ Some (pure_route s))
        × Outdoes (carrier net.now) (Some (pure_route s)) reported) }
{
    let is_made = makes(offer.as_ref(), row);
    if outdoes(net, offer.as_ref(), row) {
        return OfferFindings {
            is_made,
            better: offer,
        };
    }
    OfferFindings {
        is_made,
        better: None,
    }
}
