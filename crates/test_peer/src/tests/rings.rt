//! A ring of which one thread has two vnodes, with the indexes 1 and 2, and a link the others.

use dvv::{Clock, Dot};
use key_state::{Content, Key, KeyState};
use peer_remote::{Ask, Link, Remote, Told};
use peer_routing::Router;
use peers::{Local, PeerFault, Peers};
use std::alloc::Global;
use std::test::Fail;

/// What the link tells of each put.
const FAR: Dot = Dot {
    vnode: 5 * 256,
    n: 9,
};

/// A link to a server that answers puts by one dot, and reads by the state of a vnode with the index 1; else it is lost.
#[derive(Drop)]
struct Fixed {
    alloc: Global,
}

impl Link for Fixed {
    ghost sent = { λ asked told. Unit {0} };

    fn ask(&mut self, ask: &Ask<'_>) -> Option<Told> {
        match ask {
            Ask::Put { .. } => Some(Told::Dot(FAR)),
            Ask::Read { .. } => Some(Told::State {
                from: 5 * 256 + 1,
                at: 0,
                state: KeyState::new(self.alloc),
            }),
            _ => None,
        }
    }
}

/// The dot of a put of a tombstone at a vnode.
fn put<P: Peers>(peers: &mut P, alloc: Global, i: usize, key: &Key) -> Result<Dot, PeerFault> {
    peers.put_at(i, key, &Clock::new(alloc), &Content::Tombstone)
}

#[test]
fn calls_go_where_the_vnode_is(rt: HostRuntime) -> Result<(), Fail> {
    let alloc = rt.alloc();
    let own = Local::open(alloc, 2, 1)?;
    let mut ring = Router::new(own, 1, 2, Remote::new(Fixed { alloc }));
    let key = Key::new(alloc, b"b", b"k")?;
    let dots = [
        put(&mut ring, alloc, 0, &key),
        put(&mut ring, alloc, 1, &key),
        put(&mut ring, alloc, 2, &key),
        put(&mut ring, alloc, 3, &key),
        put(&mut ring, alloc, 256, &key),
    ];
    let expected = [
        Ok(FAR),
        Ok(Dot {
            vnode: 65_536,
            n: 1,
        }),
        Ok(Dot {
            vnode: 65_537,
            n: 1,
        }),
        Ok(FAR),
        Err(PeerFault::Lost),
    ];
    if dots != expected || ring.failures() != 1 {
        return Err(Fail::new(format_args!("puts went elsewhere")));
    }
    Ok(())
}

#[test]
fn what_another_index_answers_is_lost(rt: HostRuntime) -> Result<(), Fail> {
    let alloc = rt.alloc();
    let own = Local::open(alloc, 1, 1)?;
    let mut ring = Router::new(own, 0, 1, Remote::new(Fixed { alloc }));
    let key = Key::new(alloc, b"b", b"k")?;
    let found = [
        ring.state_of(1, &key).is_ok(),
        ring.state_of(2, &key).is_ok(),
        ring.summary_at(1, &key).is_ok(),
    ];
    if found != [true, false, false] || ring.failures() != 2 {
        return Err(Fail::new(format_args!("it was taken")));
    }
    Ok(())
}
