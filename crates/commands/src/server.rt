//! Who serves the store.
ghost use Rattle.std.specs.Prelude.{◌≡◌, ◌<◌, OnOk, IfOk, IfErr, Result, vec_len};
ghost use Rattle.audit_faults.specs.declared.fault.WatchFault.{WatchFault as OneFault};
ghost use Rattle.commands.specs.Command.{HasKept, HasRefused, Listened};

use audit_faults::Followed;
use bpf_helpers::Table;
use std::alloc::Global;
use std::io;
use std::io::Write;

/// Why the store is not served, or no longer.
#[derive(Clone, Copy)]
pub enum Unserved {
    /// Memory ran out before anything was told.
    NoMemory,
    /// The address can't be bound, the output can't be written, or no connection can be had any more.
    Unreadable,
    /// The folder isn't taken, and nothing in it is changed: why was told.
    Refused,
}

/// What is said of the vnodes' journals at the end. Each server has a type of its own for it: so who prints a yes was handed one by who
/// has followed them.
pub trait Says {
    // What it says.
    ghost says: { Self → Result (Unit {0}) OneFault };

    /// What it says.
    fn said(&self) -> Followed
        ensures { result ≡ says self.now };
}

/// What doubles of a server say is not followed by anybody.
impl Says for Followed {
    ghost says = { λ said. said };

    fn said(&self) -> Followed {
        *self
    }
}

/// How a store that is kept has ended, and what is said of its vnodes' journals.
#[derive(Drop)]
pub enum Ended<V> {
    /// All that it held was written.
    Kept(V),
    /// Not all of it was, or none.
    Unkept(V),
}

/// Where a store answers that is forgotten, and how many copies of a key it has.
#[derive(Clone, Copy)]
pub struct Post<'a> {
    /// The address.
    pub addr: &'a str,
    /// How many connections are answered; any number where that isn't said.
    pub count: Option<u32>,
    /// How many copies of each key are wanted, 1 to 3: fewer count as 1, and more as 3.
    pub copies: u32,
}

/// Where a store is kept, and where it answers.
#[derive(Clone, Copy)]
pub struct Site<'a> {
    /// The folder.
    pub folder: &'a str,
    /// The address.
    pub addr: &'a str,
    /// How many connections are answered; any number where that isn't said.
    pub count: Option<u32>,
}

impl From<io::Error> for Unserved {
    ghost use Rattle.commands.specs.declared.server.Unserved.TheVariants.{Unreadable};

    ghost from_gives = { λ _ why. why ≡ Unreadable };

    fn from(_: io::Error) -> Unserved {
        Unserved::Unreadable
    }
}

/// Serves the store over a network.
pub trait Server {
    /// What it says of the journals at the end.
    type Said: Says + Drop;

    /// What the types of the server have to meet, as that threads may share its handle.
    ghost ready: { Type 0 } = { Unit {0} };

    /// Binds the address, tells on `out` which one it is, and answers connections, so many or without end, over a store with so many
    /// copies of each key, whose hooks may call the helpers of the tables: by one worker for each table, `table` and those of `more`. Answers what is said of the vnodes'
    /// journals then, which were followed meanwhile.
    fn serve<O: Write>(
        &mut self,
        alloc: Global,
        table: Table,
        more: Vec<Table>,
        post: &Post<'_>,
        out: &mut O,
    ) -> Result<Self::Said, Unserved>
        requires ready { ready }
        requires few { vec_len more < 16 }
        ensures told { OnOk result (Listened (O.contents out.old) (O.contents out.new)) }
        ensures untold { IfErr result (λ why. why ≡ Unserved.NoMemory → O.contents out.new ≡ O.contents out.old) };

    /// Takes the store that a folder keeps, tells on `out` how many records it has, and then answers connections as
    /// [`serve`](Server::serve) does. At the end all that the store holds is written into the folder, and how many records it has is told,
    /// or why it isn't.
    fn keep<O: Write>(
        &mut self,
        alloc: Global,
        table: Table,
        more: Vec<Table>,
        site: &Site<'_>,
        out: &mut O,
    ) -> Result<Ended<Self::Said>, Unserved>
        requires ready { ready }
        requires few { vec_len more < 16 }
        ensures told { IfOk result (HasKept (O.contents out.old) (O.contents out.new)) }
        ensures refused { IfErr result (λ why. why ≡ Unserved.Refused → HasRefused (O.contents out.old) (O.contents out.new)) }
        ensures untold { IfErr result (λ why. why ≡ Unserved.NoMemory → O.contents out.new ≡ O.contents out.old) };
}

/// Who serves a store that is forgotten, and has no folder to keep one in.
pub trait Serving {
    /// Serves as [`Server::serve`] does.
    fn serve<O: Write>(
        &mut self,
        alloc: Global,
        table: Table,
        more: Vec<Table>,
        post: &Post<'_>,
        out: &mut O,
    ) -> Result<Followed, Unserved>
        requires few { vec_len more < 16 }
        ensures told { OnOk result (Listened (O.contents out.old) (O.contents out.new)) }
        ensures untold { IfErr result (λ why. why ≡ Unserved.NoMemory → O.contents out.new ≡ O.contents out.old) };
}

/// A server that serves as another does, and keeps no store: none can be read.
#[derive(Drop)]
pub struct ServesOnly<S>(pub S);

impl<S: Serving> Server for ServesOnly<S> {
    type Said = Followed;

    fn serve<O: Write>(
        &mut self,
        alloc: Global,
        table: Table,
        more: Vec<Table>,
        post: &Post<'_>,
        out: &mut O,
    ) -> Result<Followed, Unserved> {
        self.0.serve(alloc, table, more, post, out)
    }

    fn keep<O: Write>(
        &mut self,
        _alloc: Global,
        _table: Table,
        _more: Vec<Table>,
        _site: &Site<'_>,
        _out: &mut O,
    ) -> Result<Ended<Followed>, Unserved> {
        Err(Unserved::Unreadable)
    }
}

/// Serves nothing: no address can be bound.
#[derive(Clone, Copy)]
pub struct Offline;

impl Server for Offline {
    type Said = Followed;

    fn serve<O: Write>(
        &mut self,
        _alloc: Global,
        _table: Table,
        _more: Vec<Table>,
        _post: &Post<'_>,
        _out: &mut O,
    ) -> Result<Followed, Unserved> {
        Err(Unserved::Unreadable)
    }

    fn keep<O: Write>(
        &mut self,
        _alloc: Global,
        _table: Table,
        _more: Vec<Table>,
        _site: &Site<'_>,
        _out: &mut O,
    ) -> Result<Ended<Followed>, Unserved> {
        Err(Unserved::Unreadable)
    }
}
