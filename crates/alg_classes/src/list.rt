ghost use Rattle.std.specs.Prelude.{◌≡◌, [], OnOk, OnErr};
ghost use Rattle.alg_classes.specs.Classes.{HasBy, HasProfile, IsTruthOf, AreDistinct, IsGrownBy};

use crate::{Class, Profile};
use meta_base::{List, NoMemory};
use std::alloc::Global;
use std::marker::Model;

/// Classes of labels, no two of which have one profile. Contracts see the list of them.
#[derive(Debug, Drop)]
pub struct ClassList {
    classes: List<Class>,
}

impl Model for ClassList {
    ghost use Rattle.std.specs.Prelude.{List};
    ghost use Rattle.alg_classes.specs.declared.class.Class.{Class};
    ghost use Rattle.alg_classes.specs.Classes.{AreDistinct};

    ghost Value = { List Class };

    ghost use Rattle.std.specs.Coded.{codes};
    ghost use Rattle.alg_model.specs.contracts.tree.Value as value;
    ghost use Rattle.alg_model.specs.contracts.tree.Label as label;

    ghost coded = { Prim.hlevel (codes, value.the_row.coded, label.the_row.coded) };

    ghost view = { λ s. s.classes };

    ghost invariant = { λ s. AreDistinct s.classes };
}

/// What has a profile: a class, and whatever else stands for all labels that have the same.
pub trait Profiled: Sized {
    ghost use Rattle.alg_classes.specs.declared.profile.Profile.{Profile};

    /// The profile.
    ghost profile_of: { Self → Profile };

    /// Lends the profile.
    fn profile(&self) -> &Profile
        ensures { result.now ≡ profile_of self.now };
}

impl Profiled for Class {
    ghost use Rattle.alg_classes.specs.Classes.{of_class};

    ghost profile_of = { of_class };

    fn profile(&self) -> &Profile {
        &self.profile
    }
}

/// Whether an item of the slice has the profile. It takes no memory.
pub fn has_profile<T: Profiled>(items: &[T], profile: &Profile) -> bool
    ensures { IsTruthOf result (HasBy T.profile_of items.now profile.now) }
{
    match items {
        [] => false,
        [item, rest @ ..] => *item.profile() == *profile || has_profile(rest, profile),
    }
}

impl ClassList {
    /// The empty list. It takes no memory before the first `add`.
    pub fn new(alloc: Global) -> ClassList
        ensures { result ≡ [] }
    {
        ClassList {
            classes: List::new(alloc),
        }
    }

    /// A class of the list has the profile.
    pub fn has(&self, profile: &Profile) -> bool
        ensures { IsTruthOf result (HasProfile self.now profile.now) }
    {
        has_profile(self.classes.as_slice(), profile)
    }

    /// Appends the class if its profile isn't in the list, else drops it. After a refusal the list is as it
    /// was, and the class is dropped.
    pub fn add(&mut self, class: Class) -> Result<(), NoMemory>
        ensures ok { OnOk result (IsGrownBy self.old class self.new) }
        ensures err { OnErr result (self.new ≡ self.old) }
    {
        if self.has(&class.profile) {
            return Ok(());
        }
        self.classes.push(class)
    }

    /// Lends the classes in order.
    pub fn classes(&self) -> &[Class]
        ensures classes { result.now ≡ self.now }
        ensures distinct { AreDistinct self.now }
    {
        self.classes.as_slice()
    }
}
