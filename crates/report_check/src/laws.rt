ghost use Rattle.std.specs.Prelude.{◌≡◌, ◌↔◌, ℕ, List, [], ◌∷◌, Option, true, IsSome, length, map};
ghost use Rattle.std.specs.List.{Contains, concat};
ghost use Rattle.alg_model.specs.Carriers.{AreEquivalent, IsPreferred, distinct};
ghost use Rattle.alg_model.specs.Properties.{isotone, strict};
ghost use Rattle.net_graph.specs.Nets.{IsNet, PureNet};
ghost use Rattle.net_graph.specs.RowTexts.{row_text};
ghost use Rattle.net_graph.specs.Tables.{NetHas, OnTablesFrom, Optimal, PureRow, TableOf, carrier, joined_rows, value_at};
ghost use Rattle.net_graph.specs.Walks.{Walk, Weight};
ghost use Rattle.report_check.specs.Hops.{Follows, IsHopChoice, hops_at};
ghost use Rattle.report_check.specs.Judged.{JudgedOptimal, beaten, no_walk, table_at, unbeaten};
ghost use Rattle.report_check.specs.ReportText.{HasOneMeaning, HasPaths, ReportText};

use sig_text::{printed_values_are_read_back_to, values_are_reported};
use stable_check::relaxed_is_optimal;

/// A report means one list of tables over a network at most, has one fault at most, and not both.
pub fn one_report_one_meaning()
    ensures { (net : PureNet) (text : List ℕ) → HasOneMeaning net text }
{
    values_are_reported();
}

/// The printed rows of the tables of all destinations are a report that means these tables. So what is printed of
/// them can be judged by whoever is given it.
pub fn printed_rows_are_read_back()
    ensures { (net : PureNet) (tables : List (List PureRow)) → IsNet net → OnTablesFrom (TableOf net) 0 tables →
        OnTablesFrom (λ dest table. HasPaths net table) 0 tables → length tables ≡ length net.dests →
        ReportText net (concat (map (row_text net) (joined_rows tables))) tables }
{
    values_are_reported();
    printed_values_are_read_back_to();
}

/// What is found of tables decides whether they are optimal, but for labels that aren't isotone (Griffin and Sobrinho
/// 2005): unbeaten tables are; a table with a path that is no walk of its value isn't; and neither is one with a row
/// that a walk beats.
pub fn findings_decide()
    ensures unbeaten { (net : PureNet) (tables : List (List PureRow)) → IsNet net →
        JudgedOptimal net tables unbeaten → OnTablesFrom (Optimal net) 0 tables }
    ensures no_walk { (net : PureNet) (tables : List (List PureRow)) (i dest : ℕ) →
        JudgedOptimal net tables (no_walk i dest) → ¬ Optimal net dest (table_at tables dest) }
    ensures beaten { (net : PureNet) (tables : List (List PureRow)) (i dest : ℕ) (walk : List ℕ) →
        JudgedOptimal net tables (beaten i dest walk) → Walk net dest walk
        × IsPreferred (carrier net) (Weight net dest walk) (value_at (table_at tables dest) i)
        × ¬ Optimal net dest (table_at tables dest) }
{
    relaxed_is_optimal();
}

/// Where labels are isotone, the next hops that are listed for a row of an optimal table are the second nodes of all
/// walks whose weight is equivalent to the row's value; and the node itself is listed exactly where it is such a walk.
pub fn hops_are_second_nodes()
    ensures heads { (net : PureNet) (dest : ℕ) (t : List PureRow) (i j : ℕ) → IsNet net → NetHas isotone net →
        Optimal net dest t → (Contains (hops_at net dest t i).heads j ↔ ((p : List ℕ) × Walk net dest (i ∷ j ∷ p)
        × AreEquivalent (carrier net) (Weight net dest (i ∷ j ∷ p)) (value_at t i))) }
    ensures here { (net : PureNet) (dest : ℕ) (t : List PureRow) (i : ℕ) →
        ((hops_at net dest t i).here ≡ true ↔ AreEquivalent (carrier net) (Weight net dest (i ∷ [])) (value_at t i)) }
{
    relaxed_is_optimal();
}

/// Where labels are strict and isotone, whoever follows at each node one of the listed next hops comes from each node
/// with a route to an origin, without a loop, by a walk whose weight is equivalent to the row's value. Where they
/// aren't strict, a loop of nodes that list each other may be followed.
pub fn hops_lead_home()
    ensures { (net : PureNet) (dest : ℕ) (t : List PureRow) (choice : ℕ → Option ℕ) (i : ℕ) → IsNet net →
        NetHas strict net → NetHas isotone net → TableOf net dest t → IsHopChoice net dest t choice →
        IsSome (value_at t i) → (p : List ℕ) × Follows choice (i ∷ p) × (distinct (i ∷ p) ≡ true)
        × Walk net dest (i ∷ p) × AreEquivalent (carrier net) (Weight net dest (i ∷ p)) (value_at t i) }
{}
