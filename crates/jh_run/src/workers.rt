//! A worker for each port, in a thread of its own where one can be had.
ghost use Rattle.std.specs.Prelude.{◌≡◌, ◌+◌, ◌<◌, ◌≤◌, ◌++◌, [], ◌∷◌, length, map, All, Some, IfOk, vec_capacity};
ghost use mathlib.Core.List.{IsPrefix};
ghost use Rattle.jh_turn.specs.Ports.{IsPortOf, port_caller, opened_value};
ghost use Rattle.jh_turn.specs.PortSets.{IsSameSet};
ghost use Rattle.jh_run.specs.Drives.{SomeShows};
ghost use Rattle.jh_run.specs.Running.{origin_of};

use crate::driving::drive;
use crate::posts::{Home, Post, Posts};
use crate::roaming::{roam, roam_own};
use crate::running::Running;
use jh_board::TurnFault;
use jh_num::NoMemory;
use jh_outside::Gate;
use jh_turn::{Port, Shared};
use std::alloc::Global;
use std::marker::Brand;
use std::sync::Wait;
use std::thread::{Scope, Threads};
use std::{slice, thread};

/// All ports once they are driven no more, and for what a turn was refused, if one was.
#[derive(Drop)]
pub struct Driven {
    pub ports: Vec<Port<Running>>,
    pub refused: Option<TurnFault>,
}

/// The callers of the ports.
fn callers_of_ports(alloc: Global, ports: &[Port<Running>]) -> Result<Vec<u8>, NoMemory>
    ensures { IfOk result (λ callers. callers.items ≡ map port_caller ports.now) }
{
    let mut callers = Vec::new(alloc);
    for port in ports {
        callers.push(port.caller())?;
    }
    Ok(callers)
}

/// Leaves the posts.
fn leave_all<H: Home, R: Wait>(rt: &R, posts: &Posts<H>, own: Vec<Post<H>>) {
    for post in own {
        posts.leave(rt, post);
    }
}

/// Starts a worker for the caller in a thread of its own, and tells whether one could be had.
fn start<'s, E, H: Home + Send + Sync, R: Threads + Wait + Sync, G: Gate + Sync>(
    scope: &'s Scope<'s, E>,
    rt: &'s R,
    shared: &'s Shared<Running>,
    posts: &'s Posts<H>,
    gate: &'s G,
    caller: u8,
) -> bool
    requires home { H.shared ≡ Some shared.now }
{
    let started = scope.spawn(
        move || -> ()
            requires { H.shared ≡ Some shared.now }
        { roam(rt, shared, posts, gate, caller) },
    );
    started.is_ok()
}

/// Puts the first port's post into the calling thread's own list, and that of each port that no worker can be started
/// for, and leaves the others.
fn spread_out<'s, E, H: Home + Send + Sync, R: Threads + Wait + Sync, G: Gate + Sync>(
    scope: &'s Scope<'s, E>,
    rt: &'s R,
    shared: &'s Shared<Running>,
    posts: &'s Posts<H>,
    gate: &'s G,
    ports: Vec<Port<Running>>,
    own: &mut Vec<Post<H>>,
)
    requires home { H.shared ≡ Some shared.now }
    requires ports { All (IsPortOf shared.now) ports.items }
    requires some { 0 < length ports.items }
    requires room { length own.old.items + length ports.items ≤ vec_capacity own.old }
    ensures { 0 < length own.new.items }
{
    for port in ports {
        let caller = port.caller();
        let post = Post::new(shared, port);
        if own.is_empty() || !start(scope, rt, shared, posts, gate, caller) {
            own.push_reserved(post);
        } else {
            posts.leave(rt, post);
        }
    }
}

/// Drives the calling thread's own list until the run has ended, and leaves its posts. Where it has one post alone, all
/// others have workers, and the calling thread is one of these.
fn drive_own<H: Home, R: Wait, G: Gate>(
    rt: &R,
    shared: &Shared<Running>,
    posts: &Posts<H>,
    gate: &G,
    mut own: Vec<Post<H>>,
)
    requires home { H.shared ≡ Some shared.now }
    requires some { 0 < length own.items }
{
    let first = own[0].port.caller();
    if own.len() > 1 {
        roam_own(rt, shared, posts, gate, own.as_mut_slice());
    }
    leave_all(rt, posts, own);
    // this ends at once where the own list was driven until the run's end
    roam(rt, shared, posts, gate, first);
}

/// Spreads the ports over workers and the calling thread's own list, and drives the latter until the run has ended.
fn work<'s, E, H: Home + Send + Sync, R: Threads + Wait + Sync, G: Gate + Sync>(
    scope: &'s Scope<'s, E>,
    rt: &'s R,
    shared: &'s Shared<Running>,
    posts: &'s Posts<H>,
    gate: &'s G,
    ports: Vec<Port<Running>>,
    mut own: Vec<Post<H>>,
)
    requires home { H.shared ≡ Some shared.now }
    requires ports { All (IsPortOf shared.now) ports.items }
    requires some { 0 < length ports.items }
    requires room { length own.items + length ports.items ≤ vec_capacity own }
{
    spread_out(scope, rt, shared, posts, gate, ports, &mut own);
    drive_own(rt, shared, posts, gate, own);
}

/// A gate for turns of a port that has made others before.
#[derive(Clone, Copy)]
struct Later<'a, G> {
    gate: &'a G,
    before: u64,
}

impl<'a, G: Gate> Gate for Later<'a, G> {
    fn pass(&self, cpu: u8, turn: u64) {
        self.gate.pass(cpu, self.before.saturating_add(turn));
    }
}

/// Takes turns at the post's port until one tells the end.
fn see_end<H: Home, R: Wait, G: Gate>(
    rt: &R,
    shared: &Shared<Running>,
    post: Post<H>,
    gate: &G,
) -> (Port<Running>, Option<TurnFault>)
    requires home { H.shared ≡ Some shared.now }
    ensures own { IsPortOf shared.now result.0 }
    ensures caller { port_caller result.0 ≡ port_caller post.port }
    ensures shows { SomeShows (origin_of (opened_value shared.now)) result.1 (result.0 ∷ []) }
{
    let later = Later {
        gate,
        before: post.turns,
    };
    let mut port = post.port;
    let refused = drive(rt, shared, slice::from_mut(&mut port), &later);
    (port, refused)
}

/// Takes the callers' ports back, and puts them behind the others.
fn gather<H: Home, R: Wait>(
    rt: &R,
    shared: &Shared<Running>,
    posts: &Posts<H>,
    callers: &[u8],
    ports: &mut Vec<Port<Running>>,
)
    requires home { H.shared ≡ Some shared.now }
    requires own { All (IsPortOf shared.now) ports.old.items }
    requires room { length ports.old.items + length callers.now ≤ vec_capacity ports.old }
    ensures own { All (IsPortOf shared.now) ports.new.items }
    ensures kept { IsPrefix ports.old.items ports.new.items }
    ensures callers { map port_caller ports.new.items ≡ map port_caller ports.old.items ++ callers.now }
{
    for caller in callers {
        let post = posts.take_back(rt, *caller);
        ports.push_reserved(post.port);
    }
}

/// The same as `work`, in a scope for the threads of the workers, for all of which it waits.
fn work_in_scope<'x, H: Home + Send + Sync, R: Threads + Wait + Sync, G: Gate + Sync>(
    rt: &'x R,
    shared: &'x Shared<Running>,
    posts: &'x Posts<H>,
    gate: &'x G,
    ports: Vec<Port<Running>>,
    own: Vec<Post<H>>,
)
    requires home { H.shared ≡ Some shared.now }
    requires ports { All (IsPortOf shared.now) ports.items }
    requires some { 0 < length ports.items }
    requires room { length own.items + length ports.items ≤ vec_capacity own }
{
    thread::scope(
        thread::scope_env(),
        rt,
        |scope| -> ()
            requires home { H.shared ≡ Some shared.now }
            requires ports { All (IsPortOf shared.now) ports.items }
            requires some { 0 < length ports.items }
            requires room { length own.items + length ports.items ≤ vec_capacity own }
        { work(scope, rt, shared, posts, gate, ports, own) },
    );
}

/// The same as `drive_all`, where `H` has the board.
fn drive_at<H: Home + Send + Sync, R: Threads + Wait + Sync, G: Gate + Sync>(
    rt: &R,
    alloc: Global,
    shared: &Shared<Running>,
    ports: Vec<Port<Running>>,
    gate: &G,
) -> Result<Driven, NoMemory>
    requires home { H.shared ≡ Some shared.now }
    requires own { All (IsPortOf shared.now) ports.items }
    requires some { 0 < length ports.items }
    ensures same { IfOk result (λ driven. IsSameSet shared.now ports.items driven.ports.items) }
    ensures shows { IfOk result (λ driven. SomeShows (origin_of (opened_value shared.now)) driven.refused driven.ports.items) }
{
    let callers = callers_of_ports(alloc, ports.as_slice())?;
    let mut back = Vec::with_capacity(alloc, ports.len())?;
    let own = Vec::with_capacity(alloc, ports.len())?;
    let posts: Posts<H> = Posts::new(alloc)?;
    work_in_scope(rt, shared, &posts, gate, ports, own);
    let first = callers.as_slice()[0];
    let others = &callers.as_slice()[1..];
    let (port, refused) = see_end(rt, shared, posts.take_back(rt, first), gate);
    back.push_reserved(port);
    gather(rt, shared, &posts, others, &mut back);
    Ok(Driven {
        ports: back,
        refused,
    })
}

/// Drives the ports by as many workers until nothing is due to any CPU or a turn is refused: the calling thread is one,
/// and each other has a thread of its own. A port whose thread can't be started is driven in the calling thread's own
/// list. It waits for the workers.
pub fn drive_all<R: Threads + Wait + Sync, G: Gate + Sync>(
    rt: &R,
    alloc: Global,
    shared: &Shared<Running>,
    ports: Vec<Port<Running>>,
    gate: &G,
) -> Result<Driven, NoMemory>
    requires own { All (IsPortOf shared.now) ports.items }
    requires some { 0 < length ports.items }
    ensures same { IfOk result (λ driven. IsSameSet shared.now ports.items driven.ports.items) }
    ensures shows { IfOk result (λ driven. SomeShows (origin_of (opened_value shared.now)) driven.refused driven.ports.items) }
{
    drive_at::<Brand, R, G>(rt, alloc, shared, ports, gate)
}
