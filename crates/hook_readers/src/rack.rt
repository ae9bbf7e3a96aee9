//! What readers look into, and what changes it.

ghost use Rattle.std.specs.Prelude.{◌≡◌, ◌++◌, ◌∷◌, [], List};
ghost use Rattle.hook_registry.specs.Tables.{Shows};
ghost use Rattle.hook_readers.specs.Edits.{changes_of};
ghost use Rattle.hook_readers.specs.declared.edit.Edit.{Edit as Made};

use crate::edit::Edit;
use hook_registry::Registry;
use left_right::Absorb;
use shared_prefix::{Front, Naming};
use std::marker::Model;

/// A change, with the front that ends with it. Contracts see the front.
#[derive(Drop)]
pub struct Op<J: Naming> {
    edit: Edit,
    front: Front<Edit, J>,
}

impl<J: Naming> Model for Op<J> {
    ghost use Rattle.std.specs.Prelude.{◌≡◌, List, ◌++◌, ◌∷◌, []};
    ghost use Rattle.hook_readers.specs.declared.edit.Edit.{Edit};

    ghost Value = { List Edit };

    ghost view = { λ o. o.front };

    ghost invariant = { λ o. (before : List Edit) × (o.front ≡ before ++ o.edit ∷ []) };
}

impl<J: Naming> Op<J> {
    /// A change, and the front that it ends.
    pub fn new(edit: Edit, front: Front<Edit, J>) -> Op<J>
        requires { (before : List Made) × (front ≡ before ++ edit ∷ []) }
        ensures { result ≡ front }
    {
        Op { edit, front }
    }

    /// The change.
    pub fn edit(&self) -> &Edit
        ensures { (before : List Made) × (self.now ≡ before ++ result.now ∷ []) }
    {
        &self.edit
    }

    /// The front that it ends.
    pub fn front(&self) -> &Front<Edit, J>
        ensures { result.now ≡ self.now }
    {
        &self.front
    }
}

/// What takes in one change after another, each with the front that it ends.
pub trait Rack<J: Naming>: Absorb<Op<J>, State = [Edit; 0]> {
    /// The front of all changes that were taken in.
    fn front(&self) -> &Front<Edit, J>
        ensures { result.now ≡ Self.state self.now };

    /// The registry that they make.
    fn registry(&self) -> &Registry
        ensures { Shows (changes_of (Self.state self.now)) result.now };

    // the last change ends the front
    ghost last: { (before after : List Made) → Self.applied before after ≡ after };
}
