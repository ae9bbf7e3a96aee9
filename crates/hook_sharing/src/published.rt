//! What readers see.

ghost use Rattle.std.specs.Prelude.{◌≡◌, List};
ghost use Rattle.hook_registry.specs.Tables.{Shows};
ghost use Rattle.hook_readers.specs.Edits.{changes_of};

use crate::edit::apply;
use hook_readers::{Edit, Op, Rack};
use hook_registry::Registry;
use left_right::Absorb;
use shared_prefix::{Front, Naming};
use std::alloc::AllocError;
use std::marker::Model;

/// A registry, with the front of the changes that made it. Contracts see these changes.
#[derive(Drop)]
pub struct Published<J: Naming> {
    registry: Registry,
    front: Front<Edit, J>,
}

impl<J: Naming> Model for Published<J> {
    ghost use Rattle.std.specs.Prelude.{List};
    ghost use Rattle.hook_registry.specs.Tables.{Shows};
    ghost use Rattle.hook_readers.specs.declared.edit.Edit.{Edit};
    ghost use Rattle.hook_readers.specs.Edits.{changes_of};

    ghost Value = { List Edit };

    ghost view = { λ p. p.front };

    ghost invariant = { λ p. Shows (changes_of p.front) p.registry };
}

impl<J: Naming> Published<J> {
    pub(crate) fn new(registry: Registry, front: Front<Edit, J>) -> Published<J>
        requires { Shows (changes_of front) registry }
        ensures { result ≡ front }
    {
        Published { registry, front }
    }
}

impl<J: Naming> Absorb<Op<J>> for Published<J> {
    // Any number of changes.
    type State = [Edit; 0];

    ghost state = { λ before. before };

    ghost applied = { λ before after. after };

    // A change is taken in where it is the next.
    fn absorb_first(&mut self, operation: &Op<J>, _other: &Published<J>) -> Result<(), AllocError> {
        hook_registry::laws::changes_add_up();
        let ends = operation.front();
        let front = ends.longer(&self.front);
        if ends.len() == 0 || self.front.len() != ends.len() - 1 {
            return Err(AllocError);
        }
        apply(operation.edit(), &mut self.registry)?;
        self.front = front;
        Ok(())
    }
}

impl<J: Naming> Rack<J> for Published<J> {
    ghost use Rattle.std.specs.Prelude.{refl};

    ghost last = { λ before after. refl };

    fn front(&self) -> &Front<Edit, J> {
        &self.front
    }

    fn registry(&self) -> &Registry {
        &self.registry
    }
}
