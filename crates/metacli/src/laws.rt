//! Laws of what words come to.
ghost use Rattle.std.specs.Prelude.{◌≡◌, ◌++◌, ℕ, Bool, List, length, true};
ghost use Rattle.meta_base.specs.Shelf.{Moment};
ghost use Rattle.alg_model.specs.Expressions.{PureAlg};
ghost use Rattle.distance_runs.specs.Runs.{AreAsGoodRows};
ghost use Rattle.net_graph.specs.Tables.{carrier};
ghost use Rattle.report_text.specs.RunTexts.{end_text};
ghost use Rattle.topology_file.specs.NetText.{PureNetFile, changed_net};
ghost use Rattle.vector_runs.specs.Turns.{AreMonotone};
ghost use Rattle.metacli.specs.Alike.{undelivered};
ghost use Rattle.metacli.specs.Answers.{done};
ghost use Rattle.metacli.specs.After.{nets_after};
ghost use Rattle.metacli.specs.Complete.{IsComplete};
ghost use Rattle.metacli.specs.Outcome.{ComesTo, IsExchangedAs, IsFloodedAs, IsRoutedAs, IsRunAs, IsShownAs, PureOutcome, answer_in, hops_in, journal_in, rows_in};
ghost use Rattle.metacli.specs.Texts.{TextOf};
ghost use Rattle.metacli.specs.declared.routing.Solution.TheVariants.{AllStable, Unbeaten};

use raml_syntax::{no_fault_beside_an_algebra, one_text_one_algebra, one_text_one_fault};
use settled_laws::strict_is_monotone;
use sig_text::values_are_reported;
use topology_file::one_text_one_network;

/// Nothing is given up. Where the shelf tells its files, none of them is too long and no fault came, words that mean a
/// command are carried out or refused by their files alone, unless memory is refused.
pub fn nothing_is_given_up()
    ensures { (words : List (List ℕ)) (old new : Moment) (o : PureOutcome) →
        ComesTo words old new o → IsComplete words old new o }
{
    // One text means one thing, so that what the files mean tells what was decided.
    one_text_one_algebra();
    one_text_one_fault();
    no_fault_beside_an_algebra();
    one_text_one_network();
    values_are_reported();
}

/// Two quiet runs of one network, through the same changes, come to the same but for their deliveries, where all labels
/// are monotone: they print the same rows in each phase, by whatever workers, in whatever order and with whatever turns.
#[tactic(auto, using(crate::proofs::Alike::runs_alike))]
pub fn quiet_runs_end_alike()
    ensures { (traced other : Bool) (turns more : ℕ) (a : PureAlg) (f : PureNetFile) (o p : PureOutcome) →
        AreMonotone f.net (nets_after f.net f.changes) → IsRunAs traced turns a f o → IsRunAs other more a f p →
        answer_in o ≡ done → answer_in p ≡ done → undelivered o ≡ undelivered p }
{}

/// The rows of a quiet run are those that `stable` finds on the same files.
#[tactic(auto, using(crate::proofs::Alike::stable_alike))]
pub fn quiet_runs_have_the_stable_rows()
    ensures { (traced : Bool) (turns : ℕ) (a : PureAlg) (f : PureNetFile) (o p : PureOutcome) →
        IsRunAs traced turns a f o → IsRoutedAs AllStable a f p →
        answer_in o ≡ done → answer_in p ≡ done → rows_in o ≡ rows_in p }
{}

/// A quiet flood prints what `route` prints on the same files, and then its end: its rows are those routes, which no walk
/// beats, by whatever workers, in whatever order and with whatever turns.
#[tactic(auto, using(crate::proofs::Floods::flood_rows_alike, crate::proofs::Floods::flood_text_alike))]
pub fn quiet_floods_have_the_rows_of_route()
    ensures rows { (turns : ℕ) (a : PureAlg) (f : PureNetFile) (o p : PureOutcome) →
        IsFloodedAs turns a f o → IsRoutedAs Unbeaten a f p →
        answer_in o ≡ done → answer_in p ≡ done → rows_in o ≡ rows_in p }
    ensures text { (turns : ℕ) (a : PureAlg) (f : PureNetFile) (o p : PureOutcome) →
        IsFloodedAs turns a f o → IsRoutedAs Unbeaten a f p →
        answer_in o ≡ done → answer_in p ≡ done → TextOf o ≡ TextOf p ++ end_text true (length (journal_in o)) }
{}

/// The values of a quiet exchange, which `distance` prints, are as good as those of `route` on the same files, row for
/// row: neither is preferred to the other, and there is none exactly where `route` prints none.
#[tactic(auto, using(crate::proofs::Exchanges::exchanges_alike))]
pub fn quiet_exchanges_are_as_good_as_route()
    ensures { (turns : ℕ) (a : PureAlg) (f : PureNetFile) (o p : PureOutcome) →
        IsExchangedAs turns a f o → IsRoutedAs Unbeaten a f p →
        answer_in o ≡ done → answer_in p ≡ done → AreAsGoodRows (carrier (changed_net f)) (hops_in o) (rows_in p) }
{}

/// What `demo` comes to with a seed and a number of nodes is the same but for its deliveries, of which the summary says
/// nothing.
#[tactic(auto, using(crate::proofs::Alike::summaries_alike))]
pub fn summaries_are_determined()
    ensures alike { (seed nodes : ℕ) (o p : PureOutcome) → IsShownAs seed nodes o → IsShownAs seed nodes p →
        answer_in o ≡ done → answer_in p ≡ done → undelivered o ≡ undelivered p }
    ensures text { (seed nodes : ℕ) (o : PureOutcome) → IsShownAs seed nodes o → TextOf (undelivered o) ≡ TextOf o }
{
    one_text_one_network();
    strict_is_monotone();
}
