ghost use Rattle.std.specs.Prelude.{◌≡◌, ◌≤◌, ℕ, Bool, true, List};
ghost use Rattle.std.specs.List.{AllByRecursion};
ghost use Rattle.alg_model.specs.Properties.{monotone};
ghost use Rattle.net_graph.specs.Nets.{PureNet, IsNet};
ghost use Rattle.net_graph.specs.Tables.{NetHas};
ghost use Rattle.vector_runs.specs.Alike.{last_net, rows_of_each};
ghost use Rattle.vector_runs.specs.Runs.{PurePhase, IsRun, AreLater, AreOfNetworks, AreStable};
ghost use Rattle.vector_runs.specs.Turns.{AreMonotone, deliveries_left, deliveries_made};

/// The rows of each phase of a run that is quiet are a stable table of the phase's network for each destination
/// (Griffin and Sobrinho 2005), and the only one where all labels are monotone (after Sobrinho 2005).
#[tactic(auto, using(crate::specs::Laws::quiet_phases_are_stable))]
pub fn quiet_phases_are_stable()
    ensures { (net : PureNet) (nets : List PureNet) (turns : ℕ) (past : List PurePhase) (last : PurePhase)
        (quiet : Bool) → IsNet net → AllByRecursion IsNet nets → AreLater net nets →
        IsRun net nets turns past last quiet → AreStable net nets past last quiet }
{}

/// So two runs through the same networks that are both quiet end with the same rows, whatever their workers, turns and
/// deliveries: where all labels of the last network are monotone, the last rows are the same, and where those of all
/// networks are, the rows of each phase.
pub fn two_quiet_runs_end_alike()
    ensures last { (net : PureNet) (nets : List PureNet) (turns others_turns : ℕ) (past others : List PurePhase)
        (last end : PurePhase) → IsNet net → AllByRecursion IsNet nets → AreLater net nets →
        NetHas monotone (last_net net nets) → IsRun net nets turns past last true →
        IsRun net nets others_turns others end true → last.rows ≡ end.rows }
    ensures past { (net : PureNet) (nets : List PureNet) (turns others_turns : ℕ) (past others : List PurePhase)
        (last end : PurePhase) → IsNet net → AllByRecursion IsNet nets → AreLater net nets →
        AreMonotone net nets → IsRun net nets turns past last true →
        IsRun net nets others_turns others end true → rows_of_each past ≡ rows_of_each others }
{}

/// The rows of each phase of a run are rows of the phase's network, and its deliveries are on arcs of that.
#[tactic(auto, using(crate::specs::Laws::phases_are_of_networks))]
pub fn phases_are_of_networks()
    ensures { (net : PureNet) (nets : List PureNet) (turns : ℕ) (past : List PurePhase) (last : PurePhase)
        (quiet : Bool) → IsNet net → AllByRecursion IsNet nets → AreLater net nets →
        IsRun net nets turns past last quiet → AreOfNetworks net nets past last }
{}

/// Where all labels of its networks are monotone, a run makes no more deliveries than are left at the starts of its
/// phases, whatever the workers do: that path-vector protocols come to rest there is Sobrinho's (2005), this bound is
/// this project's own (`vector_rest`).
#[tactic(auto, using(crate::specs::TurnLaws::runs_are_short))]
pub fn runs_are_short()
    ensures { (net : PureNet) (nets : List PureNet) (turns : ℕ) (past : List PurePhase) (last : PurePhase)
        (quiet : Bool) → IsNet net → AllByRecursion IsNet nets → AreLater net nets → AreMonotone net nets →
        IsRun net nets turns past last quiet → deliveries_made past last ≤ deliveries_left net nets past }
{}

/// So with at least as many turns it is quiet on its last network, and never ends before that.
#[tactic(auto, using(crate::specs::TurnLaws::enough_turns_are_quiet))]
pub fn enough_turns_are_quiet()
    ensures { (net : PureNet) (nets : List PureNet) (turns : ℕ) (past : List PurePhase) (last : PurePhase)
        (quiet : Bool) → IsNet net → AllByRecursion IsNet nets → AreLater net nets → AreMonotone net nets →
        IsRun net nets turns past last quiet → deliveries_left net nets past ≤ turns → quiet ≡ true }
{}
