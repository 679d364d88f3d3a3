// A quick look at a whole table, in an algebra's own form. It copies no path, and builds no value but where a row's own
// route is offered. What it doesn't clear is judged row by row.
ghost use Rattle.std.specs.Prelude.{◌≡◌, ◌<◌, ◌∷◌, ◌||◌, ◌&&◌, not, ℕ, true, false, length, option_map, option_and_then, IfOk, IfSome};
ghost use Rattle.std.specs.Bool.{Decides};
ghost use Rattle.meta_base.specs.NodePaths.{compare_paths, numbers};
ghost use Rattle.alg_model.specs.declared.alg.TheConstants.{MAX_VALUE_NUMBER};
ghost use Rattle.alg_model.specs.Application.{App};
ghost use Rattle.alg_model.specs.Bounds.{AtMost};
ghost use Rattle.alg_model.specs.Carriers.{IsPreferred, carrier_of};
ghost use Rattle.alg_model.specs.Expressions.{PureLabel};
ghost use Rattle.alg_model.specs.Views.{pure_value};
ghost use Rattle.net_graph.specs.Nets.{origin_value};
ghost use Rattle.net_graph.specs.Tables.{carrier, is_among, route_at, value_at};
ghost use Rattle.net_graph.specs.Views.{pure_route, rows_of};
ghost use Rattle.arc_labels.specs.Images.{made_in};
ghost use Rattle.report_check.specs.Compiled.{AreSigs, IsCompiled, IsHopFrom};
ghost use Rattle.report_check.specs.Findings.{IsMadeAlone, OptimalUpTo, StableUpTo};
ghost use Rattle.report_check.specs.Judged.{IsBeaten, stable, unbeaten};
ghost use Rattle.report_check.specs.Looks.{IsAsGood, Shows, path_after};
ghost use Rattle.stable_check.specs.Checks.{ImprovedBy, IsMade, IsOutdone, MadeBy, OutdoneBy, Outdoes, own_offer};

use crate::compiled::{Compiled, sig_at};
use crate::found::Wanted;
use alg_model::{Algebra, Value, same_value};
use arc_labels::{Neighbour, image_into};
use meta_base::{NoMemory, NodeId};
use net_graph::Route;
use path_store::compare;
use stable_check::{passes, route_at};
use std::alloc::Global;
use std::cmp::Ordering;

// What origins and arcs show of rows.
#[derive(Clone, Copy, Debug)]
struct Shown {
    // One may give a value that is preferred to that of the row.
    pub improves: bool,
    // The row has no route, or one of them offers it.
    pub makes: bool,
    // One may offer a route that is better than the row.
    pub outdoes: bool,
}

impl Shown {
    // What is worse than a row shows nothing of it.
    fn nothing() -> Shown
        ensures improves { result.improves ≡ false }
        ensures makes { result.makes ≡ false }
        ensures outdoes { result.outdoes ≡ false }
    {
        Shown {
            improves: false,
            makes: false,
            outdoes: false,
        }
    }

    // What is better than a row, with such a path.
    fn better(is_offer: bool) -> Shown
        ensures improves { result.improves ≡ true }
        ensures makes { result.makes ≡ false }
        ensures outdoes { result.outdoes ≡ is_offer }
    {
        Shown {
            improves: true,
            makes: false,
            outdoes: is_offer,
        }
    }

    // What one or the other shows of one row.
    fn or(self, other: Shown) -> Shown
        ensures improves { result.improves ≡ (self.improves || other.improves) }
        ensures makes { result.makes ≡ (self.makes || other.makes) }
        ensures outdoes { result.outdoes ≡ (self.outdoes || other.outdoes) }
    {
        Shown {
            improves: self.improves || other.improves,
            makes: self.makes || other.makes,
            outdoes: self.outdoes || other.outdoes,
        }
    }

    // What is cleared of a table of whose rows this is shown.
    fn clears(self) -> Wanted
        ensures optimal { result.optimal ≡ (self.makes && not self.improves) }
        ensures stable { result.stable ≡ (self.makes && not self.outdoes) }
    {
        Wanted {
            optimal: self.makes && !self.improves,
            stable: self.makes && !self.outdoes,
        }
    }

    // What is shown of several rows, with one more.
    fn and_of(self, row: Shown) -> Shown
        ensures improves { result.improves ≡ (self.improves || row.improves) }
        ensures makes { result.makes ≡ (self.makes && row.makes) }
        ensures outdoes { result.outdoes ≡ (self.outdoes || row.outdoes) }
    {
        Shown {
            improves: self.improves || row.improves,
            makes: self.makes && row.makes,
            outdoes: self.outdoes || row.outdoes,
        }
    }
}

// Which of two paths comes first: that of the node and the nodes after it, or the other.
fn compare_from(node: NodeId, after: &[NodeId], path: &[NodeId]) -> Ordering
    ensures { result ≡ compare_paths (node.0 ∷ numbers after.now) (numbers path.now) }
{
    let [first, rest @ ..] = path else {
        return Ordering::Greater;
    };
    match after.len().cmp(&rest.len()) {
        Ordering::Equal => node.0.cmp(&first.0).then(compare(after, rest)),
        unequal => unequal,
    }
}

// The nodes after the node itself, of an offer by its own origin, and of one by an arc to a node with this route.
fn path_after<'a>(next: Option<&'a Route>) -> &'a [NodeId]
    ensures { numbers result.now ≡ path_after (option_map (λ r. pure_route r.now) next.entry) }
{
    match next {
        Some(route) => route.path.as_slice(),
        None => &[],
    }
}

// Whether the path doesn't pass the node.
fn is_loopless(next: Option<&Route>, node: NodeId) -> bool
    ensures { result ≡ not (is_among (path_after (option_map (λ r. pure_route r.now) next.entry)) node.0) }
{
    match next {
        Some(route) => !passes(route, node),
        None => true,
    }
}

// Whether it stands for the value.
fn is_value<A: Algebra>(
    alloc: Global,
    algebra: &A,
    sig: &A::Sig,
    value: &Value,
) -> Result<bool, NoMemory>
    requires { A.is_sig algebra.now sig.now }
    ensures { IfOk result (λ same. Decides same (A.sig_value algebra.now sig.now ≡ pure_value value.now)) }
{
    let stood_for = algebra.value_of(alloc, sig)?;
    Ok(same_value(&stood_for, value))
}

// What the offer of a value that is as good as the node's own shows of its row.
fn weigh_equal<A: Algebra>(
    alloc: Global,
    form: &Compiled<'_, A>,
    node: NodeId,
    next: Option<&Route>,
    image: &A::Sig,
) -> Result<Shown, NoMemory>
    requires image { A.is_sig form.now.algebra.now image.now }
    requires equal { IsAsGood (carrier_of (A.expression form.now.algebra.now))
        (A.sig_value form.now.algebra.now image.now) (route_at (rows_of form.now.table.now) node.0) }
    ensures { IfOk result (λ shown.
        Shows (carrier_of (A.expression form.now.algebra.now)) node.0 (option_map (λ r. pure_route r.now) next.entry)
        (A.sig_value form.now.algebra.now image.now) (route_at (rows_of form.now.table.now) node.0) shown) }
{
    let Some(row) = route_at(form.table, node) else {
        return Ok(Shown::better(true));
    };
    match compare_from(node, path_after(next), row.path.as_slice()) {
        Ordering::Greater => Ok(Shown::nothing()),
        Ordering::Less => Ok(Shown {
            improves: false,
            makes: false,
            outdoes: is_loopless(next, node),
        }),
        Ordering::Equal => Ok(Shown {
            improves: false,
            makes: is_value(alloc, form.algebra, image, &row.value)? && is_loopless(next, node),
            outdoes: false,
        }),
    }
}

// What the offer of a value shows of the node's row, by its own origin or an arc to a node with this route.
fn weigh<A: Algebra>(
    alloc: Global,
    form: &Compiled<'_, A>,
    node: NodeId,
    next: Option<&Route>,
    image: &A::Sig,
) -> Result<Shown, NoMemory>
    requires image { A.is_sig form.now.algebra.now image.now }
    requires rows { AreSigs (A.is_sig form.now.algebra.now) (A.sig_value form.now.algebra.now)
        (value_at (rows_of form.now.table.now)) form.now.rows.items }
    ensures { IfOk result (λ shown.
        Shows (carrier_of (A.expression form.now.algebra.now)) node.0 (option_map (λ r. pure_route r.now) next.entry)
        (A.sig_value form.now.algebra.now image.now) (route_at (rows_of form.now.table.now) node.0) shown) }
{
    let Some(row) = sig_at(&form.rows, node) else {
        return Ok(Shown::better(true));
    };
    match form.algebra.order(image, row) {
        Ordering::Greater => Ok(Shown::nothing()),
        Ordering::Less => Ok(Shown::better(is_loopless(next, node))),
        Ordering::Equal => weigh_equal(alloc, form, node, next, image),
    }
}

// What the node's own origin shows of its row.
fn origin_shows<A: Algebra>(
    alloc: Global,
    form: &Compiled<'_, A>,
    node: NodeId,
) -> Result<Shown, NoMemory>
    requires algebra { A.expression form.now.algebra.now ≡ form.now.net.now.alg.expression }
    requires compiled { let a = form.now.algebra.now in IsCompiled (A.is_sig a) (A.sig_value a) (A.stands_for a)
        form.now.net.now form.now.table.now.dest.0 (rows_of form.now.table.now)
        form.now.labels.now form.now.rows.items form.now.own.items }
    ensures improves { IfOk result (λ shown. shown.improves ≡ false →
        ¬ IsPreferred (carrier form.now.net.now) (origin_value form.now.net.now form.now.table.now.dest.0 node.0)
        (value_at (rows_of form.now.table.now) node.0)) }
    ensures makes { IfOk result (λ shown. shown.makes ≡ true →
        IsMadeAlone form.now.net.now form.now.table.now.dest.0 (route_at (rows_of form.now.table.now)) node.0) }
    ensures outdoes { IfOk result (λ shown. shown.outdoes ≡ false →
        ¬ Outdoes (carrier form.now.net.now) (own_offer form.now.net.now form.now.table.now.dest.0 node.0)
        (route_at (rows_of form.now.table.now) node.0)) }
{
    let Some(own) = sig_at(&form.own, node) else {
        return Ok(Shown {
            improves: false,
            makes: route_at(form.table, node).is_none(),
            outdoes: false,
        });
    };
    weigh(alloc, form, node, None, own)
}

// Puts into the place what the hop's label makes of the value of its head's row, if it has one.
pub(crate) fn image_along<A: Algebra>(
    alloc: Global,
    form: &Compiled<'_, A>,
    hop: &Neighbour<'_, A::Lab>,
    place: &mut Option<A::Sig>,
) -> Result<bool, NoMemory>
    requires compiled { let a = form.now.algebra.now in IsCompiled (A.is_sig a) (A.sig_value a) (A.stands_for a)
        form.now.net.now form.now.table.now.dest.0 (rows_of form.now.table.now)
        form.now.labels.now form.now.rows.items form.now.own.items }
    requires lab { (l : PureLabel) × A.stands_for form.now.algebra.now hop.now.label.now l }
    ensures sig { IfOk result (λ placed. IfSome (made_in placed place.new) (A.is_sig form.now.algebra.now)) }
    ensures image { (l : PureLabel) → A.stands_for form.now.algebra.now hop.now.label.now l → IfOk result (λ placed.
        option_map (A.sig_value form.now.algebra.now) (made_in placed place.new) ≡ option_and_then
        (App (A.expression form.now.algebra.now) l) (value_at (rows_of form.now.table.now) hop.now.node.0)) }
{
    let Some(next) = sig_at(&form.rows, hop.node) else {
        return Ok(false);
    };
    image_into(alloc, form.algebra, hop.label, next, place)
}

// What the arc to the hop shows of the node's row. Its label is applied once, into the spare place.
fn hop_shows<A: Algebra>(
    alloc: Global,
    form: &Compiled<'_, A>,
    node: NodeId,
    hop: &Neighbour<'_, A::Lab>,
    spare: &mut Option<A::Sig>,
) -> Result<Shown, NoMemory>
    requires algebra { A.expression form.now.algebra.now ≡ form.now.net.now.alg.expression }
    requires compiled { let a = form.now.algebra.now in IsCompiled (A.is_sig a) (A.sig_value a) (A.stands_for a)
        form.now.net.now form.now.table.now.dest.0 (rows_of form.now.table.now)
        form.now.labels.now form.now.rows.items form.now.own.items }
    requires hop { IsHopFrom (A.stands_for form.now.algebra.now) form.now.net.now node.0 hop.now }
    ensures improves { IfOk result (λ shown. shown.improves ≡ false →
        ¬ ImprovedBy form.now.net.now (rows_of form.now.table.now) node.0 hop.now.node.0) }
    ensures makes { IfOk result (λ shown. shown.makes ≡ true →
        MadeBy form.now.net.now (route_at (rows_of form.now.table.now)) node.0 hop.now.node.0) }
    ensures outdoes { IfOk result (λ shown. shown.outdoes ≡ false →
        ¬ OutdoneBy form.now.net.now (route_at (rows_of form.now.table.now)) node.0 hop.now.node.0) }
{
    if !image_along(alloc, form, hop, spare)? {
        return Ok(Shown::nothing());
    }
    match spare {
        Some(image) => weigh(alloc, form, node, route_at(form.table, hop.node), image),
        None => Ok(Shown::nothing()),
    }
}

// What the node's own origin and its arcs show of its row.
fn row_shows<A: Algebra>(
    alloc: Global,
    form: &Compiled<'_, A>,
    node: NodeId,
    spare: &mut Option<A::Sig>,
) -> Result<Shown, NoMemory>
    requires algebra { A.expression form.now.algebra.now ≡ form.now.net.now.alg.expression }
    requires compiled { let a = form.now.algebra.now in IsCompiled (A.is_sig a) (A.sig_value a) (A.stands_for a)
        form.now.net.now form.now.table.now.dest.0 (rows_of form.now.table.now)
        form.now.labels.now form.now.rows.items form.now.own.items }
    requires node { node.0 < length form.now.net.now.nodes }
    ensures improves { IfOk result (λ shown. shown.improves ≡ false →
        ¬ IsBeaten form.now.net.now form.now.table.now.dest.0 (rows_of form.now.table.now) node.0) }
    ensures makes { IfOk result (λ shown. shown.makes ≡ true →
        IsMade form.now.net.now form.now.table.now.dest.0 (route_at (rows_of form.now.table.now)) node.0) }
    ensures outdoes { IfOk result (λ shown. shown.outdoes ≡ false →
        ¬ IsOutdone form.now.net.now form.now.table.now.dest.0 (route_at (rows_of form.now.table.now)) node.0) }
{
    let mut shown = origin_shows(alloc, form, node)?;
    for hop in form.labels.of(node) {
        let of_hop = hop_shows(alloc, form, node, hop, spare)?;
        shown = shown.or(of_hop);
    }
    Ok(shown)
}

/// What of the table is cleared: where `optimal`, each row's path is a walk of its value and none beats it; where
/// `stable`, each row is its node's choice. Each arc's label is applied once.
pub(crate) fn cleared<A: Algebra>(alloc: Global, form: &Compiled<'_, A>) -> Result<Wanted, NoMemory>
    requires algebra { A.expression form.now.algebra.now ≡ form.now.net.now.alg.expression }
    requires compiled { let a = form.now.algebra.now in IsCompiled (A.is_sig a) (A.sig_value a) (A.stands_for a)
        form.now.net.now form.now.table.now.dest.0 (rows_of form.now.table.now)
        form.now.labels.now form.now.rows.items form.now.own.items }
    ensures optimal { let n = length form.now.net.now.nodes in IfOk result (λ clear. clear.optimal ≡ true →
        OptimalUpTo form.now.net.now form.now.table.now.dest.0 (rows_of form.now.table.now) n n unbeaten) }
    ensures stable { let n = length form.now.net.now.nodes in IfOk result (λ clear. clear.stable ≡ true →
        StableUpTo form.now.net.now form.now.table.now.dest.0 (rows_of form.now.table.now) n stable) }
{
    let mut spare = None;
    let mut shown = Shown {
        improves: false,
        makes: true,
        outdoes: false,
    };
    for node in 0..form.net.node_count() {
        let row = row_shows(alloc, form, NodeId(node as u32), &mut spare)?;
        shown = shown.and_of(row);
    }
    Ok(shown.clears())
}
