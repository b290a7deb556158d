//! Posts. A worker is at one at a time, or at none while it rests. Those that were left lie here.
ghost use Rattle.std.specs.Prelude.{◌≡◌, Option, Some, None, Result, vec_len, slice_get, slice_set};
ghost use Rattle.std.specs.Option.{ForSome};
ghost use Rattle.jh_history.specs.declared.entry.Entry.{Entry as TheEntry};
ghost use Rattle.jh_board.specs.declared.turn.Turn.{Turn as TheTurn};
ghost use Rattle.jh_board.specs.declared.turn.TurnFault.{TurnFault as TheFault};
ghost use Rattle.jh_turn.specs.Histories.{IsTurn};
ghost use Rattle.jh_turn.specs.Ports.{IsPortOf, opened_value, port_caller, turn_at};
ghost use Rattle.jh_turn.specs.declared.shared.Shared.{Shared as TheShared};
ghost use Rattle.jh_run.specs.Running.{whose_entry, origin_of, IsTurnAnswer};
ghost use Rattle.jh_run.specs.declared.running.Running.{Running as TheRunning};

use crate::running::Running;
use jh_board::{Turn, TurnFault};
use jh_num::NoMemory;
use jh_outside::Gate;
use jh_turn::{Port, Shared};
use std::alloc::Global;
use std::marker::{Brand, PhantomData};
use std::sync::atomic::{AtomicBool, Ordering};
use std::sync::{Mutex, Wait};
use std::thread;

/// How many callers there may be: their numbers are below this.
const CALLERS: u16 = 256;

/// How often a worker that rests looks whether the run has ended. Then it takes a post all the same, since
/// whoever is at the others may wait at the gate.
const LOOKS: u32 = 1000;

/// The board that posts are of. It is there for the proofs alone.
pub trait Home {
    ghost shared: { Option (TheShared TheRunning TheEntry (Result TheTurn TheFault)) };
}

// `None` stands for no board: what proves the call of `drive_at` with a `Brand` chooses the board for that call
impl Home for Brand {
    ghost shared = { None };
}

/// A port, and how many turns it has made.
#[derive(Drop)]
pub struct Post<H: Home> {
    pub port: Port<Running>,
    pub turns: u64,
    home: PhantomData<H>,
    ghost own: { ForSome H.shared (λ shared. IsPortOf shared port) },
}

impl<H: Home> Post<H> {
    /// The post of a port that has made no turn.
    pub fn new(shared: &Shared<Running>, port: Port<Running>) -> Self
        requires home { H.shared ≡ Some shared.now }
        requires own { IsPortOf shared.now port }
        ensures { result.port ≡ port }
    {
        Post {
            port,
            turns: 0,
            home: PhantomData,
        }
    }

    /// A turn of the port behind the gate.
    pub fn turn<R: Wait, G: Gate>(
        &mut self,
        rt: &R,
        shared: &Shared<Running>,
        gate: &G,
    ) -> Result<Turn, TurnFault>
        requires home { H.shared ≡ Some shared.now }
        ensures caller { port_caller self.new.port ≡ port_caller self.old.port }
        ensures turn { IsTurn whose_entry (IsTurnAnswer (origin_of (opened_value shared.now))) (turn_at self.old.port result self.new.port) }
    {
        gate.pass(self.port.caller(), self.turns);
        self.turns = self.turns.saturating_add(1);
        shared.turn(rt, &mut self.port)
    }
}

/// The posts that were left, each at the index of its caller's number.
#[derive(Drop)]
struct Left<H: Home> {
    posts: Vec<Option<Post<H>>>,
    ghost whole: { vec_len posts ≡ 256 },
}

impl<H: Home> Left<H> {
    /// No posts.
    fn new(alloc: Global) -> Result<Self, NoMemory> {
        let mut posts = Vec::new(alloc);
        for _ in 0..CALLERS {
            posts.push(None)?;
        }
        Ok(Left { posts })
    }

    /// The post of the caller, which is left no more.
    fn take(&mut self, caller: u8) -> Option<Post<H>>
        ensures taken { slice_get self.old.posts.items caller ≡ Some result }
        ensures rest { self.new.posts.items ≡ slice_set self.old.posts.items caller None }
    {
        self.posts[usize::from(caller)].take()
    }

    /// The post of the lowest caller that was left, which is left no more.
    fn take_any(&mut self) -> Option<Post<H>> {
        for post in self.posts.as_mut_slice() {
            if post.is_some() {
                return post.take();
            }
        }
        None
    }

    /// Leaves the post.
    fn put(&mut self, post: Post<H>)
        ensures { self.new.posts.items ≡ slice_set self.old.posts.items (port_caller post.port) (Some post) }
    {
        let caller = post.port.caller();
        self.posts[usize::from(caller)] = Some(post);
    }
}

/// The posts of a run that were left, and whether the run has ended.
#[derive(Drop)]
pub struct Posts<H: Home> {
    left: Mutex<Left<H>>,
    looking: Mutex<()>,
    ended: AtomicBool,
}

impl<H: Home> Posts<H> {
    /// Before a run, with no post.
    pub fn new(alloc: Global) -> Result<Self, NoMemory> {
        let left = Left::new(alloc)?;
        Ok(Posts {
            left: Mutex::new(left),
            looking: Mutex::new(()),
            ended: AtomicBool::new(false),
        })
    }

    /// Whether a worker has ended the run.
    pub fn have_ended(&self) -> bool {
        self.ended.load(Ordering::SeqCst)
    }

    /// Ends the run, for all workers.
    pub fn end(&self) {
        self.ended.store(true, Ordering::SeqCst);
    }

    /// Leaves the post.
    pub fn leave<R: Wait>(&self, rt: &R, post: Post<H>) {
        self.left.lock(rt).put(post);
    }

    /// The own post, or another one where that wasn't left, once one was.
    pub fn take<R: Wait>(&self, rt: &R, own: u8) -> Post<H> {
        for _ in rt.forever() {
            let mut left = self.left.lock(rt);
            if let Some(post) = left.take(own).or_else(|| left.take_any()) {
                return post;
            }
            drop(left);
            thread::yield_now();
        }
        // the tries have no end of their own
        unreachable!()
    }

    /// Leaves the post and takes that of the other caller. Where that one wasn't left, this one comes back instead.
    pub fn trade<R: Wait>(&self, rt: &R, post: Post<H>, other: u8) -> Result<Post<H>, Post<H>> {
        let mut left = self.left.lock(rt);
        match left.take(other) {
            Some(other) => {
                left.put(post);
                Ok(other)
            }
            None => Err(post),
        }
    }

    /// Leaves the post, lets other threads go first for a while, and takes the own one or another.
    pub fn rest<R: Wait>(&self, rt: &R, post: Post<H>, own: u8) -> Post<H> {
        self.leave(rt, post);
        self.look(rt);
        self.take(rt, own)
    }

    /// Looks whether the run has ended, again and again for a while, and lets other threads go first. Of several workers that
    /// rest one looks, and the others sleep until it has looked.
    fn look<R: Wait>(&self, rt: &R) {
        let _looking = self.looking.lock(rt);
        for _ in 0..LOOKS {
            if self.have_ended() {
                return;
            }
            thread::yield_now();
        }
    }

    /// The post of the caller, if it was left.
    pub fn take_left<R: Wait>(&self, rt: &R, caller: u8) -> Option<Post<H>> {
        self.left.lock(rt).take(caller)
    }

    /// The post of the caller, once it was left.
    pub fn take_back<R: Wait>(&self, rt: &R, caller: u8) -> Post<H>
        ensures caller { port_caller result.port ≡ caller }
    {
        for _ in rt.forever() {
            if let Some(post) = self.take_left(rt, caller) {
                // for the proof: a post lies at its caller's index, which `Left` doesn't say
                if post.port.caller() == caller {
                    return post;
                }
                self.leave(rt, post);
            }
            thread::yield_now();
        }
        // the tries have no end of their own
        unreachable!()
    }
}
