//! Two clients of one hall, whose bytes come in any order, cut anywhere, and who take a byte at a time or all.

use crate::tests::opening::open;
use hook_registry::Registry;
use http_connection::FrontFault;
use http_connections::{Clients, Closing, Hall, Stage};
use peers::Local;
use server_one_thread::answers_to;
use server_store::Store;
use std::alloc::{AllocError, Global};
use std::test::Fail;
use test_support::expect;

/// A request for which no call is made, whose connection stays.
const FIRST: &[u8] = b"GET /ping HTTP/1.1\r\nHost: a\r\n\r\n";

/// A read of a key that nobody wrote, and the connection ends.
const SECOND: &[u8] = b"GET /buckets/b/keys/k HTTP/1.1\r\nHost: b\r\nConnection: close\r\n\r\n";

/// What the two are sent.
const ASKED: [&[u8]; 2] = [FIRST, SECOND];

/// Whose piece comes first, second, third and fourth: each client sends two.
const ORDERS: [[usize; 4]; 6] = [
    [0, 0, 1, 1],
    [0, 1, 0, 1],
    [0, 1, 1, 0],
    [1, 0, 0, 1],
    [1, 0, 1, 0],
    [1, 1, 0, 0],
];

/// A hall and its clients, on a store of its own.
#[derive(Drop)]
struct Meeting {
    hall: Hall,
    clients: Clients,
    store: Store<Local, Registry>,
}

/// How a meeting goes: where the bytes of each client are cut, whose pieces come in turn, how many bytes more a client takes each time
/// something comes, and how often each is attended then.
#[derive(Clone, Copy)]
struct Course {
    cuts: [usize; 2],
    order: [usize; 4],
    room: usize,
    rounds: u32,
}

impl Meeting {
    /// Nobody came yet.
    fn new(alloc: Global) -> Result<Meeting, AllocError> {
        let hall = Hall::new(alloc)?;
        let store = open(alloc, 0)?;
        Ok(Meeting {
            hall,
            clients: Clients::new(alloc),
            store,
        })
    }

    /// Two clients connect.
    fn admit_two(&mut self) -> Result<(), Fail> {
        self.clients.connect()?;
        self.clients.connect()?;
        for admitted in [true, true, false] {
            expect(
                self.hall.admit(&mut self.clients) == Ok(admitted),
                &"admitted",
            )?;
        }
        Ok(())
    }

    /// A piece comes from a client, which takes so many bytes more.
    fn arrive(&mut self, who: usize, piece: &[u8], room: usize) -> Result<(), AllocError> {
        if let Some(client) = self.clients.clients.get_mut(who) {
            client.coming.extend_from_slice(piece)?;
            client.room = client.room.saturating_add(room);
        }
        Ok(())
    }

    /// These are reported.
    fn turn(&mut self, reported: &[u64]) {
        self.hall.turn(reported, &mut self.clients, &mut self.store);
    }

    /// The pieces come in an order.
    fn come(&mut self, course: &Course) -> Result<(), AllocError> {
        let mut sent = [false, false];
        for who in course.order {
            let who = who % 2;
            let piece = piece_of(who, course.cuts[who], sent[who]);
            sent[who] = true;
            self.arrive(who, piece, course.room)?;
            self.turn(&[who as u64]);
        }
        Ok(())
    }

    /// The first client sends nothing more, and both take what is left.
    fn finish(&mut self, course: &Course) -> Result<(), AllocError> {
        if let Some(client) = self.clients.clients.get_mut(0) {
            client.hangs_up = true;
        }
        for _ in 0..course.rounds {
            self.arrive(0, b"", course.room)?;
            self.arrive(1, b"", course.room)?;
            self.turn(&[0, 1]);
        }
        Ok(())
    }

    /// Whether a client was told this, and its connection ended so.
    fn was_told(&self, who: usize, told: &[u8], closing: Closing) -> bool {
        match self.clients.clients.get(who) {
            Some(client) => client.written.as_slice() == told
                && client.stage == Stage::Gone(closing),
            None => false,
        }
    }

    /// In the end each is told what it would be alone.
    fn go(&mut self, course: &Course, told: [&[u8]; 2]) -> Result<(), Fail> {
        self.admit_two()?;
        self.come(course)?;
        self.finish(course)?;
        let are_told = self.was_told(0, told[0], Closing::InOrder)
            && self.was_told(1, told[1], Closing::InOrder);
        let Course { cuts, order, .. } = course;
        expect(are_told, &(cuts[0], cuts[1], order[0], order[1]))
    }

    /// A failure in the midst of a request ends that connection, and the other is told what it would be alone.
    fn break_off(&mut self, told: &[u8]) -> Result<(), Fail> {
        self.admit_two()?;
        self.arrive(0, b"GET /ping HT", 1000)?;
        self.arrive(1, SECOND, 1000)?;
        self.turn(&[0]);
        if let Some(client) = self.clients.clients.get_mut(0) {
            client.fails = true;
        }
        self.turn(&[0, 1]);
        let are_told = self.was_told(0, b"", Closing::Broken(FrontFault::Read))
            && self.was_told(1, told, Closing::InOrder);
        expect(are_told, &"one breaks off")
    }
}

/// The first piece of a client's bytes, or the second.
fn piece_of(who: usize, cut: usize, is_second: bool) -> &'static [u8] {
    let (front, rest) = ASKED[who % 2]
        .split_at_checked(cut)
        .unwrap_or((ASKED[who % 2], &[]));
    if is_second { rest } else { front }
}

/// What the bytes of a client are answered on a store of its own.
fn told_alone(alloc: Global, asked: &[u8]) -> Result<Vec<u8>, Fail> {
    let told = answers_to(alloc, asked, &mut open(alloc, 0)?)?;
    expect(!told.is_empty(), &"told")?;
    Ok(told)
}

/// A meeting goes so, and each is told what it would be alone.
fn go_once(alloc: Global, course: &Course, told: [&[u8]; 2]) -> Result<(), Fail> {
    Meeting::new(alloc)?.go(course, told)
}

/// The pieces of both clients come in each order, the first client's cut at each byte; then a byte is taken at a time.
fn go_each(alloc: Global, told: [&[u8]; 2]) -> Result<(), Fail> {
    for cut in 0..FIRST.len() {
        for order in ORDERS {
            let course = Course {
                cuts: [cut, (cut * 5) % 64],
                order,
                room: 1000,
                rounds: 4,
            };
            go_once(alloc, &course, told)?;
        }
    }
    let byte_by_byte = Course {
        cuts: [3, 30],
        order: ORDERS[1],
        room: 1,
        rounds: 600,
    };
    go_once(alloc, &byte_by_byte, told)
}

/// The meetings of clients who are told this where each is alone; then one breaks off.
fn go_all(alloc: Global, told: [&[u8]; 2]) -> Result<(), Fail> {
    go_each(alloc, told)?;
    Meeting::new(alloc)?.break_off(told[1])
}

/// However the bytes of two clients come, each is told what it would be alone.
#[test]
fn two_clients_of_one_hall(rt: HostRuntime) -> Result<(), Fail> {
    let first = told_alone(rt.alloc(), FIRST)?;
    let second = told_alone(rt.alloc(), SECOND)?;
    go_all(rt.alloc(), [&first, &second])
}
