//! Workers, and a thread that hands them connections and follows what they do.

ghost use Rattle.std.specs.Prelude.{◌≡◌, ◌≢◌, IfOk, map, vec_len};
ghost use Rattle.server_accept.specs.Waiting.{HasHadNone};
ghost use Rattle.ring.specs.Places.{copies_in};
ghost use Rattle.server_one_thread.specs.Passes.{GivesUnnoted, unnoted};
ghost use Rattle.server_sockets.specs.Work.{Stays, Works};
ghost use Rattle.server_store.specs.View.{StoreView};
ghost use Rattle.dvvstore.specs.Scribing.{IsMoreKept};
ghost use Rattle.dvvstore.specs.Visits.{HasLed, HasVisited, HaveVisited, Leads, begun};

use crate::crew::aside::{Aside, Passes, Reader};
use crate::crew::pace::{Next, Pace, keeps_snapshots_waiting};
use crate::crew::reporter::{Aloud, Reporter};
use crate::crew::scribe::{Desk, Filing, Logged, Scribe, TurnNotes};
use crate::crew::signs::{Signs, Until};
use crate::host::Host;
use crate::limits::{FOLLOWED_PIECE_STAMPS, WORKER_NAP_MS, WORKER_WAIT_MS};
use audit_cluster::{Spot, Watch};
use cluster::{Cluster, Pass, Room};
use cluster_peers::ClusterPeers;
use hook_registry::{HookChanges, Hooks};
use http_connection::Backend;
use kept_hooks::{Recorder, Requests, Writes};
use log_desk::Ledger;
use peers::Peers;
use quorum::Hooking;
use ring::Placement;
use server_accept::{Lobby, Post, Timer};
use server_log::{Noted, Trouble};
use server_one_thread::passes::exchanges_are_by_a_pass;
use server_sockets::{Orders, Stance, Worker};
use server_store::{NotingBackend, Store};
use std::alloc::{AllocError, Global};
use std::io::Stderr;
use std::sync::atomic::AtomicBool;
use std::sync::atomic::Ordering::SeqCst;
use std::sync::{Mutex, Wait};
use std::thread;
use std::thread::{Parker, Threads};
use std::time::Duration;

/// What one worker has.
#[derive(Drop)]
pub struct Seat<B: Room, H> {
    /// What it calls the vnodes with.
    pub pass: Pass<B>,
    /// What it reads with what it wrote.
    pub aside: Aside<B>,
    /// Where it looks hooks up, and the helpers that they may call.
    pub hooking: Hooking<H>,
    /// Where keys stand among the vnodes.
    pub placement: Placement,
    /// The place of its worker among the lobby's.
    pub place: usize,
}

impl<B: Room, H: Drop> Seat<B, H> {
    /// What is left of a seat whose worker doesn't come.
    fn leave(self) -> Passes<B>
        ensures pass { result.pass ≡ self.pass }
    {
        let Seat { pass, aside, .. } = self;
        Passes { pass, aside }
    }
}

/// A follower, and where it tells what can't wait.
#[derive(Drop)]
pub struct Lookout<B: Room + Spot> {
    /// The follower.
    pub watch: Watch<B>,
    /// The requests that changed the hooks so far, if they are written down.
    pub requests: Requests,
    /// Where it tells.
    pub err: Stderr,
}

/// What the workers and the thread that follows share.
#[derive(Drop)]
pub(crate) struct Shared<'a, B: Room + Spot, L> {
    /// Where what workers note is kept.
    pub(crate) ledger: &'a L,
    /// Who has this alone writes the file of the requests that make hooks what they are.
    filing: Mutex<Filing>,
    /// The follower of what they do.
    pub(crate) watch: Mutex<Watch<B>>,
    /// Where requests that change the hooks are written down.
    pub(crate) requests: Mutex<Requests>,
    /// Where is told what can't wait.
    err: Stderr,
    /// Where is told what goes wrong while requests are answered.
    reporter: Reporter,
    /// Whether workers rest, so that what they did can be followed.
    is_behind: AtomicBool,
    /// Whether snapshots wait, so that what was done can be followed.
    is_trailing: AtomicBool,
    /// Whether a thread has begun that accepts and follows, so that no worker has to.
    is_followed: AtomicBool,
    /// Whether all workers have ended.
    over: AtomicBool,
    /// What wakes who does something beside the workers, once they have ended.
    bell: Parker,
    /// Whether something was written since who does something beside the workers looked last.
    writes: Writes,
}

impl<'a, B: Room + Spot, L> Shared<'a, B, L> {
    pub(crate) fn new(lookout: Lookout<B>, ledger: &'a L) -> Shared<'a, B, L> {
        let Lookout {
            watch,
            requests,
            err,
        } = lookout;
        let writes = Writes::new(&requests);
        Shared {
            ledger,
            filing: Mutex::new(Filing),
            watch: Mutex::new(watch),
            requests: Mutex::new(requests),
            err,
            reporter: Reporter::new(err),
            is_behind: AtomicBool::new(false),
            is_trailing: AtomicBool::new(false),
            is_followed: AtomicBool::new(false),
            over: AtomicBool::new(false),
            bell: Parker::new(),
            writes,
        }
    }

    /// What somebody looks at who does something beside the workers of a lobby.
    pub(crate) fn signs<'b>(&'b self, lobby: &'b Lobby) -> Signs<'b> {
        Signs {
            lobby,
            requests: &self.requests,
            over: &self.over,
            bell: &self.bell,
            writes: &self.writes,
            trailing: &self.is_trailing,
            filing: &self.filing,
            until: Until::Stop,
        }
    }

    /// Where what workers noted is kept.
    fn desk(&self) -> Desk<'_, L> {
        Desk {
            ledger: self.ledger,
            requests: &self.requests,
            filing: &self.filing,
        }
    }
}

/// Where workers work: the vnodes that they call, and what they share.
#[derive(Drop)]
pub(crate) struct Floor<'a, B: Room + Spot, L> {
    alloc: Global,
    cluster: &'a Cluster<B>,
    lobby: &'a Lobby,
    shared: &'a Shared<'a, B, L>,
    ghost first: { cluster.now.first ≡ B.first },
}

impl<'a, B: Room + Spot, L> Floor<'a, B, L> {
    /// That of some vnodes, whose identifiers begin where those begin that are followed.
    pub(crate) fn new(
        alloc: Global,
        cluster: &'a Cluster<B>,
        lobby: &'a Lobby,
        shared: &'a Shared<'a, B, L>,
    ) -> Floor<'a, B, L>
        requires first { cluster.now.first ≡ B.first }
        ensures cluster { result.cluster.now ≡ cluster.now }
    {
        Floor {
            alloc,
            cluster,
            lobby,
            shared,
        }
    }
}

/// Has the vnodes hand out what they did, and follows so many stamps of it. Answers when the next turn is. Workers rest from then on, or no
/// longer, as the pace says, and so do those who make snapshots.
fn follow<B: Room + Spot, R: Wait, L>(
    rt: &R,
    floor: &Floor<'_, B, L>,
    pace: &mut Pace,
    stamps: u64,
) -> Next {
    let shared = floor.shared;
    let alarm = Aloud(shared.err);
    let mut watch = shared.watch.lock(rt);
    watch.hear_all(rt, floor.cluster);
    let is_more = watch.follow_some(stamps, &alarm);
    let rests = pace.look(&watch, is_more);
    let is_trailing = keeps_snapshots_waiting(&watch, is_more);
    let next = Next::after(&watch, is_more);
    drop(watch);
    shared.is_trailing.store(is_trailing, SeqCst);
    if shared.is_behind.swap(rests, SeqCst) && !rests {
        floor.lobby.roster.wake_all();
    }
    next
}

/// Hands out the connections that come, and follows what workers do, turn by turn, until all workers have ended.
pub(crate) fn attend<B: Room + Spot, R: Wait, L: Ledger>(rt: &R, floor: &Floor<'_, B, L>) {
    let mut timer = Timer::new();
    floor.shared.is_followed.store(true, SeqCst);
    let mut pace = Pace::new();
    let mut next = Next::Later;
    for _ in rt.forever() {
        if floor.shared.over.load(SeqCst) {
            break;
        }
        floor.lobby.accept(rt, next.pause());
        next = follow(rt, floor, &mut pace, FOLLOWED_PIECE_STAMPS);
        floor.shared.ledger.force_due(rt, timer.now());
    }
}

/// Tells what went wrong in a store, and how many connections ended for want of memory.
fn tell<R: Wait>(rt: &R, reporter: &Reporter, noted: &Noted, lacks: u32) {
    reporter.tell(rt, Trouble::NoMemory, u64::from(lacks), None);
    for note in noted.iter() {
        let bucket = note.bucket.as_ref().map(|it| it.name());
        reporter.tell(rt, note.trouble, note.count, bucket);
    }
}

/// What a worker goes by from turn to turn.
#[derive(Clone, Copy)]
struct Shift<'a> {
    /// Where it is offered connections.
    post: &'a Post,
    timer: Timer,
    pace: Pace,
    /// Whether its next turn may be its last.
    is_last: bool,
    /// What came of keeping what it noted last.
    logged: Logged,
}

/// What a turn of a worker came to.
#[derive(Clone, Copy)]
struct Worked {
    /// Whether it goes on.
    goes_on: bool,
    /// So many connections ended for want of memory.
    lacks: u32,
}

/// One turn of a worker over a store. It goes on until no more connections come and all have ended, or it is told to end at once. Where no
/// thread has begun that accepts and follows, it does that, too.
fn work_once<B: Room + Spot, K: Backend, R: Wait, L>(
    rt: &R,
    floor: &Floor<'_, B, L>,
    worker: &mut Worker,
    store: &mut K,
    shift: &mut Shift<'_>,
) -> Worked
    ensures works { Works K.gives K.copies worker.old worker.new store.old store.new }
{
    let post = shift.post;
    let ending = &floor.lobby.roster.ending;
    let is_alone = !floor.shared.is_followed.load(SeqCst);
    let orders = Orders {
        now: shift.timer.now(),
        may_read: !floor.shared.is_behind.load(SeqCst),
        stance: ending.stance(),
    };
    let most = longest_wait(&orders, is_alone, shift);
    let turned = worker.turn(rt, &post.inlet, store, &orders, most);
    post.note_turn();
    if is_alone {
        floor.lobby.accept(rt, Duration::ZERO);
        follow(rt, floor, &mut shift.pace, u64::MAX);
    }
    let has_ended = orders.stance != Stance::Serving && turned.open == 0;
    let goes_on = !ending.is_cut() && !(has_ended && shift.is_last);
    if has_ended && goes_on {
        // What was offered before is taken by one more turn.
        post.inlet.end();
        shift.is_last = true;
    }
    Worked {
        goes_on,
        lacks: turned.lacks,
    }
}

/// How long a worker waits at the most for something to do: not at all in its last turn or where it has noted more since, and not for long
/// where it also accepts and follows, or rests, or something that it noted isn't kept yet.
fn longest_wait(orders: &Orders, is_alone: bool, shift: &Shift<'_>) -> Duration {
    let millis = if shift.is_last
        || (shift.logged == Logged::All && shift.post.inlet.unlogged.is_noted())
    {
        0
    } else if is_alone || !orders.may_read || shift.logged == Logged::NotYet {
        WORKER_NAP_MS
    } else {
        WORKER_WAIT_MS
    };
    Duration::from_millis(millis)
}

/// Has a worker let its longest idle connection go, where it was asked to.
fn shed_if_asked(post: &Post, worker: &mut Worker)
    ensures stays { Stays worker.old worker.new }
{
    if post.is_to_shed() {
        worker.shed();
    }
}

/// Tells what went wrong in a turn over a store, if anything did.
fn tell_troubles<P: Peers, H: Hooks + HookChanges, K: NotingBackend<P, H>, R: Wait>(
    rt: &R,
    reporter: &Reporter,
    store: &mut K,
    worked: Worked,
)
    ensures stays { unnoted (K.shows store.new) ≡ unnoted (K.shows store.old) }
{
    if worked.lacks > 0 || store.has_troubles() {
        tell(rt, reporter, &store.take_troubles(), worked.lacks);
    }
}

/// Has what a worker noted in a turn be kept, and then tells the answers that waited for it.
fn keep_turn<B: Room, K: Backend, R: Wait, L: Ledger>(
    scribe: &mut Scribe<'_, B, R, L>,
    worker: &mut Worker,
    store: &mut K,
    shift: &mut Shift<'_>,
)
    ensures works { Works K.gives K.copies worker.old worker.new store.old store.new }
    // Answers that waited go out only where all that was noted is kept.
    ensures held { shift.new.logged ≢ Logged.All → (worker.new ≡ worker.old) × (store.new ≡ store.old) }
    ensures kept { shift.new.logged ≡ Logged.All → IsMoreKept L.put L.shows scribe.old.desk.ledger.now scribe.old.sheet scribe.old.records scribe.old.receipt }
{
    shift.logged = scribe.keep(shift.timer.now());
    if shift.logged == Logged::All {
        worker.release(store);
    }
}

/// One turn of a worker over a store. Behind it what it noted is kept, it lets a connection go where it is asked to, and tells what went
/// wrong. Whether it goes on.
fn take_turn<
    B: Room + Spot,
    P: Peers,
    H: Hooks + HookChanges,
    K: NotingBackend<P, H>,
    R: Wait,
    L: Ledger,
>(
    rt: &R,
    floor: &Floor<'_, B, L>,
    worker: &mut Worker,
    store: &mut K,
    scribe: &mut Scribe<'_, B, R, L>,
    shift: &mut Shift<'_>,
) -> bool
    ensures leads { (start : StoreView P H)
        → Leads (GivesUnnoted P.happens H.finds H.names H.takes) (λ s. copies_in s.placement) start worker.old (unnoted (K.shows store.old))
        → Leads (GivesUnnoted P.happens H.finds H.names H.takes) (λ s. copies_in s.placement) start worker.new (unnoted (K.shows store.new)) }
{
    let worked = work_once(rt, floor, worker, store, shift);
    keep_turn(scribe, worker, store, shift);
    shed_if_asked(shift.post, worker);
    tell_troubles::<P, H, K, R>(rt, &floor.shared.reporter, store, worked);
    worked.goes_on
}

/// Has a worker, to which no connection came before, answer its connections over a store, turn by turn, until it ends.
fn stay<
    B: Room + Spot,
    P: Peers,
    H: Hooks + HookChanges,
    K: NotingBackend<P, H>,
    R: Wait,
    L: Ledger,
>(
    rt: &R,
    floor: &Floor<'_, B, L>,
    post: &Post,
    mut worker: Worker,
    store: &mut K,
    scribe: &mut Scribe<'_, B, R, L>,
)
    ensures led { HasHadNone worker → HasLed (GivesUnnoted P.happens H.finds H.names H.takes) (λ s. copies_in s.placement) (unnoted (K.shows store.old)) (unnoted (K.shows store.new)) }
{
    let mut shift = Shift {
        post,
        timer: Timer::new(),
        pace: Pace::new(),
        is_last: false,
        logged: Logged::Nothing,
    };
    for _ in rt.forever() {
        if !take_turn::<B, P, H, K, R, L>(rt, floor, &mut worker, store, scribe, &mut shift) {
            break;
        }
    }
}

/// Has a worker, to which no connection came before, answer its connections until it ends, over the vnodes of the floor, which are called
/// by a seat's pass. The pass is handed back.
fn visit<B: Room + Spot, H: Hooks + HookChanges + Drop, R: Wait, L: Ledger>(
    rt: &R,
    floor: &Floor<'_, B, L>,
    post: &Post,
    worker: Worker,
    seat: Seat<B, H>,
) -> Passes<B>
    ensures visited { HasHadNone worker → HasVisited H.finds H.names H.takes (begun floor.now.cluster.now seat.pass seat.hooking.hooks seat.hooking.table.listed seat.placement) result.pass }
{
    let Seat {
        pass,
        aside,
        hooking,
        placement,
        ..
    } = seat;
    let places = Placement::by_digest(placement.vnodes(), placement.copies());
    exchanges_are_by_a_pass::<ClusterPeers<'_, B, R>, H>();
    let peers = ClusterPeers::new(floor.alloc, rt, floor.cluster, pass);
    let store = Store::new(floor.alloc, peers, hooking, placement);
    let shared = floor.shared;
    let (alloc, unlogged) = (floor.alloc, &post.inlet.unlogged);
    let notes = TurnNotes::new(alloc, rt, shared.ledger.is_kept(), &shared.writes, unlogged);
    let reader = Reader::new(alloc, rt, floor.cluster, aside);
    let mut scribe = Scribe::new(alloc, &notes, shared.desk(), places, reader);
    let mut recorder = Recorder::new(store, &shared.requests, &notes, rt);
    stay::<B, ClusterPeers<'_, B, R>, H, _, R, L>(
        rt,
        floor,
        post,
        worker,
        &mut recorder,
        &mut scribe,
    );
    let Recorder { store, .. } = recorder;
    let Store { peers, .. } = store;
    Passes {
        pass: peers.into_pass(),
        aside: scribe.into_aside(),
    }
}

/// Has the worker at the seat's place answer its connections until it ends, over the vnodes of the floor, which are called by the seat's
/// pass. The pass is handed back.
fn work<B: Room + Spot, H: Hooks + HookChanges + Drop, R: Wait, L: Ledger>(
    rt: &R,
    floor: &Floor<'_, B, L>,
    seat: Seat<B, H>,
) -> Passes<B>
    ensures visited { HasVisited H.finds H.names H.takes (begun floor.now.cluster.now seat.pass seat.hooking.hooks seat.hooking.table.listed seat.placement) result.pass }
{
    let Some(post) = floor.lobby.roster.posts.get(seat.place) else {
        return seat.leave();
    };
    let Some(worker) = post.take_worker(rt) else {
        return seat.leave();
    };
    post.inlet.begin();
    let passes = visit(rt, floor, post, worker, seat);
    post.inlet.end();
    passes
}

/// Has each seat's worker answer its connections, each on a thread of its own, or on the caller's where no thread can be made. That all
/// have ended is noted.
pub(crate) fn work_all<
    B: Room + Spot + Send + Sync,
    H: Hooks + HookChanges + Send + Drop,
    R: Threads + Wait + Sync,
    L: Ledger + Sync,
>(
    host: &Host<'_, R>,
    cluster: &Cluster<B>,
    seats: Vec<Seat<B, H>>,
    lobby: &Lobby,
    shared: &Shared<'_, B, L>,
) -> Result<Vec<Passes<B>>, AllocError>
    requires first { cluster.now.first ≡ B.first }
    ensures count { IfOk result (λ passes. vec_len passes ≡ vec_len seats) }
    ensures visited { IfOk result (λ passes. HaveVisited H.finds H.names H.takes (map (λ s. begun cluster.now s.pass s.hooking.hooks s.hooking.table.listed s.placement) seats.items) (map (λ p. p.pass) passes.items)) }
{
    let (alloc, rt) = (host.alloc, host.rt);
    let back = thread::map_vec(
        rt,
        seats,
        &|seat: Seat<B, H>| -> Passes<B>
            requires { cluster.now.first ≡ B.first }
            ensures { HasVisited H.finds H.names H.takes (begun cluster.entry.now seat.pass seat.hooking.hooks seat.hooking.table.listed seat.placement) result.pass }
        { work(rt, &Floor::new(alloc, cluster, lobby, shared), seat) },
    );
    shared.over.store(true, SeqCst);
    shared.bell.unpark();
    lobby.wake();
    back
}
