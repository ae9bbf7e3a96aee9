//! What is noted of troubles until who runs the server is told.

ghost use Rattle.std.specs.Prelude.{◌≡◌, ◌≤◌, length};
ghost use Rattle.std.specs.Slice.Iter.{iter_rest};
ghost use Rattle.server_log.specs.Notes.{no_notes, noted_of, one_more, unnoted};

use crate::bucket::Bucket;
use crate::limits::KINDS;
use crate::trouble::{HookTrouble, Trouble};
use std::slice::Iter;

/// What is noted of the troubles of one kind.
#[derive(Clone, Copy, Drop)]
pub struct Note {
    /// The kind.
    pub trouble: Trouble,
    /// How many came; the count stays at its greatest.
    pub count: u64,
    /// The bucket at which the last came up; none where none came.
    pub bucket: Option<Bucket>,
}

impl Note {
    // None of this kind.
    fn new(trouble: Trouble) -> Note
        ensures { result ≡ unnoted trouble }
    {
        Note {
            trouble,
            count: 0,
            bucket: None,
        }
    }

    // One more, at a bucket of this name.
    fn add(&mut self, name: &[u8])
        requires { length name.now ≤ 64 }
        ensures { self.new ≡ one_more self.old name.now }
    {
        self.count = self.count.saturating_add(1);
        self.bucket = Some(Bucket::new(name));
    }
}

/// Which troubles came, since it was begun: how many of each kind, and at which bucket the last. It takes no memory.
#[derive(Drop)]
pub struct Noted {
    /// What is noted of each kind.
    pub kinds: [Note; KINDS],
}

impl Noted {
    /// None came.
    pub fn new() -> Noted
        ensures { result.kinds ≡ no_notes }
    {
        Noted {
            kinds: [
                Note::new(Trouble::NoMemory),
                Note::new(Trouble::Unwritten),
                Note::new(Trouble::PreCommit(HookTrouble::Unseen)),
                Note::new(Trouble::PreCommit(HookTrouble::Disagrees)),
                Note::new(Trouble::PreCommit(HookTrouble::TooLarge)),
                Note::new(Trouble::PreCommit(HookTrouble::BadAnswer)),
                Note::new(Trouble::Resolver(HookTrouble::Unseen)),
                Note::new(Trouble::Resolver(HookTrouble::Disagrees)),
                Note::new(Trouble::Resolver(HookTrouble::TooLarge)),
                Note::new(Trouble::Resolver(HookTrouble::BadAnswer)),
            ],
        }
    }

    /// Notes a trouble, if there is one, that came up at a bucket of this name.
    pub fn note(&mut self, trouble: Option<Trouble>, bucket: &[u8])
        requires { length bucket.now ≤ 64 }
        ensures { self.new.kinds ≡ noted_of self.old.kinds trouble bucket.now }
    {
        if let Some(trouble) = trouble {
            self.kinds[trouble.place()].add(bucket);
        }
    }

    /// What is noted of each kind, also of those of which none came.
    pub fn iter(&self) -> Iter<'_, Note>
        ensures { iter_rest result ≡ self.now.kinds }
    {
        self.kinds.iter()
    }
}
