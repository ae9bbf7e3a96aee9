//! Tables of the program's helpers, one for each worker.

ghost use Rattle.std.specs.Prelude.{◌≡◌, ◌<◌, ◌+◌, OnOk, vec_len};
ghost use Rattle.std.specs.List.{All};
ghost use Rattle.commands.specs.Own.{shapes_of, own_shapes};

use bpf_helpers::Table;
use std::alloc::{AllocError, Global};

/// Tables of helpers: one for who runs a program, and one for each further worker that serves.
#[derive(Drop)]
pub struct Tables {
    /// That of the first.
    pub first: Table,
    /// Those of the others.
    pub more: Vec<Table>,
}

/// Tables of the program's helpers.
#[derive(Drop)]
pub(crate) struct OwnTables {
    pub(crate) made: Vec<Table>,
    pub(crate) ghost own: { All (λ table. shapes_of table.listed ≡ own_shapes) made.items },
}

impl OwnTables {
    /// No table yet.
    pub(crate) fn new(alloc: Global) -> OwnTables
        ensures { vec_len result.made ≡ 0 }
    {
        OwnTables {
            made: Vec::new(alloc),
        }
    }

    /// Keeps one more. The error is want of memory.
    pub(crate) fn keep(&mut self, table: Table) -> Result<(), AllocError>
        requires { shapes_of table.listed ≡ own_shapes }
        ensures { OnOk result (vec_len self.new.made ≡ vec_len self.old.made + 1) }
    {
        self.made.push(table)?;
        Ok(())
    }

    /// One of them, and the others.
    pub(crate) fn split(self) -> Tables
        requires { 0 < vec_len self.made }
        ensures own { shapes_of result.first.listed ≡ own_shapes }
        ensures others { vec_len result.more + 1 ≡ vec_len self.made }
    {
        let OwnTables { mut made } = self;
        match made.pop() {
            Some(first) => Tables { first, more: made },
            None => unreachable!(),
        }
    }
}
