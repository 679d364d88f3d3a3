ghost use Rattle.std.specs.Prelude.{◌≡◌, ◌<◌, length, slice_index, option_map, IfSome};
ghost use Rattle.alg_model.specs.Expressions.{name};
ghost use Rattle.alg_model.specs.Views.{expression_of, pure_label};
ghost use Rattle.alg_model.specs.Application.{IsLabel};
ghost use Rattle.alg_model.specs.Formation.{MeetsRanges};
ghost use Rattle.alg_model.specs.Carriers.{OrderOrNone, IsPreferred, AreEquivalent};
ghost use Rattle.alg_classes.specs.Classes.{IsTruthOf};
ghost use Rattle.table_classes.specs.Rows.{IsTable, IsRow, IsRowOf, image_at, row_carrier, value_fact, pair_fact};
ghost use Rattle.table_classes.specs.Found.{FailsAtPlace, FailsBetween};

use crate::fact::{PairFact, ValueFact};
use alg_model::{Label, Tree};
use meta_base::Text;
use std::cmp::Ordering;
use std::marker::Model;

// A row of a table, with the names and the ranks of the table's values. Values are places, from 0.
#[derive(Debug, Drop)]
pub(crate) struct Row<'a> {
    pub(crate) names: &'a [Text],
    pub(crate) ranks: &'a [u8],
    pub(crate) images: &'a [Option<u8>],
}

impl<'a> Model for Row<'a> {
    ghost use Rattle.table_classes.specs.Rows.{PureRow, IsRow};

    ghost Value = { PureRow };

    ghost view = { λ s. record { names = s.names.now; ranks = s.ranks.now; images = s.images.now } };

    ghost invariant = { λ s. IsRow (record { names = s.names.now; ranks = s.ranks.now; images = s.images.now }) };
}

impl<'a> Row<'a> {
    // The row of a table's tree that the label is.
    pub(crate) fn of(tree: &'a Tree, label: &Label) -> Row<'a>
        requires table { IsTable (expression_of tree.now) }
        requires formed { MeetsRanges (expression_of tree.now) }
        requires label { IsLabel (expression_of tree.now) (pure_label label.now) }
        ensures { IsRowOf (expression_of tree.now) (pure_label label.now) result }
    {
        match (tree, label) {
            (Tree::Table(table), Label::Row(place)) => Row {
                names: table.names.as_slice(),
                ranks: table.ranks.as_slice(),
                images: table.rows.as_slice()[usize::from(*place)].images.as_slice(),
            },
            _ => unreachable!(),
        }
    }

    // How many values there are.
    pub(crate) fn count(&self) -> u8
        ensures count { result ≡ length self.now.names }
        ensures row { IsRow self.now }
    {
        self.names.len() as u8
    }

    // What stands at that place of the row, if anything does.
    fn entry(&self, place: u8) -> Option<u8>
        ensures { result ≡ image_at self.now.images place }
    {
        *self.images.get(usize::from(place))?
    }

    // The image of the value at that place, if there is one.
    pub(crate) fn image(&self, place: u8) -> Option<u8>
        ensures image { result ≡ image_at self.now.images place }
        ensures within { IfSome result (λ image. image < length self.now.names) }
    {
        // (images are values)
        self.count();
        self.entry(place)
    }

    // The rank of the value at that place.
    fn rank(&self, place: u8) -> u8
        requires { place < length self.now.names }
        ensures { result ≡ slice_index self.now.ranks place }
    {
        self.ranks[usize::from(place)]
    }

    // Which of two values, or none, is preferred.
    fn order(&self, u: Option<u8>, v: Option<u8>) -> Ordering
        requires first { IfSome u (λ u. u < length self.now.names) }
        requires second { IfSome v (λ v. v < length self.now.names) }
        ensures { result ≡ OrderOrNone (row_carrier self.now) (option_map name u) (option_map name v) }
    {
        match (u, v) {
            (Some(u), Some(v)) => self.rank(u).cmp(&self.rank(v)),
            (Some(_), None) => Ordering::Less,
            (None, Some(_)) => Ordering::Greater,
            (None, None) => Ordering::Equal,
        }
    }

    // The first is preferred to the second.
    fn is_preferred(&self, u: Option<u8>, v: Option<u8>) -> bool
        requires first { IfSome u (λ u. u < length self.now.names) }
        requires second { IfSome v (λ v. v < length self.now.names) }
        ensures { IsTruthOf result (IsPreferred (row_carrier self.now) (option_map name u) (option_map name v)) }
    {
        self.order(u, v).is_lt()
    }

    // Both are values, and neither is preferred.
    fn are_equivalent(&self, u: Option<u8>, v: Option<u8>) -> bool
        requires first { IfSome u (λ u. u < length self.now.names) }
        requires second { IfSome v (λ v. v < length self.now.names) }
        ensures { IsTruthOf result (AreEquivalent (row_carrier self.now) (option_map name u) (option_map name v)) }
    {
        u.is_some() && v.is_some() && self.order(u, v).is_eq()
    }

    // The fact fails at this value.
    pub(crate) fn fails_at(&self, fact: ValueFact, u: u8) -> bool
        requires { u < length self.now.names }
        ensures { IsTruthOf result (FailsAtPlace self.now (value_fact fact) u) }
    {
        match (fact, self.image(u)) {
            (ValueFact::Total, image) => image.is_none(),
            (ValueFact::Dead, image) => image.is_some(),
            (ValueFact::Monotone, image) => self.is_preferred(image, Some(u)),
            (ValueFact::Strict, Some(image)) => !self.is_preferred(Some(u), Some(image)),
            (ValueFact::Strict, None) => false,
        }
    }

    // The fact fails between these values, in this order. The first has this image, which a search asks for once.
    pub(crate) fn fails_between(&self, fact: PairFact, u: u8, image: Option<u8>, v: u8) -> bool
        requires image { image ≡ image_at self.now.images u }
        requires within { IfSome image (λ image. image < length self.now.names) }
        requires first { u < length self.now.names }
        requires second { v < length self.now.names }
        ensures { IsTruthOf result (FailsBetween self.now (pair_fact fact) u v) }
    {
        match (fact, image, self.image(v)) {
            (PairFact::Isotone, first, second) => {
                !self.is_preferred(Some(v), Some(u)) && self.is_preferred(second, first)
            }
            (PairFact::Cancellative, first, second) => {
                self.are_equivalent(first, second) && self.is_preferred(Some(u), Some(v))
            }
            (PairFact::Condensed, Some(first), Some(second)) => {
                self.is_preferred(Some(first), Some(second))
            }
            (PairFact::Narrow, Some(_), Some(_)) => self.is_preferred(Some(u), Some(v)),
            (PairFact::Condensed | PairFact::Narrow, _, _) => false,
        }
    }
}
