//! A worker, which is at one post after another.
ghost use Rattle.std.specs.Prelude.{◌≡◌, ◌<◌, Some, length};

use crate::posts::{Home, Post, Posts};
use crate::running::Running;
use jh_board::{Turn, TurnFault};
use jh_outside::Gate;
use jh_turn::Shared;
use std::sync::Wait;
use std::thread;

/// The post for the turn behind one that answered this: the same one while its CPU has entries due, and else that of
/// the CPU that has. Where that one wasn't left, the worker rests. Where nothing is due to any CPU, or the turn was
/// refused, the run is ended, and the post stays.
fn next_post<H: Home, R: Wait>(
    rt: &R,
    posts: &Posts<H>,
    post: Post<H>,
    own: u8,
    answer: Result<Turn, TurnFault>,
) -> Post<H> {
    match answer {
        Ok(Turn::Made(_) | Turn::Edited { .. }) => post,
        Ok(Turn::NotNow { due_to }) => match posts.trade(rt, post, due_to) {
            Ok(other) => other,
            Err(post) => posts.rest(rt, post, own),
        },
        Ok(Turn::Done) | Err(_) => {
            posts.end();
            post
        }
    }
}

/// Takes turns, each behind the gate, until a worker finds that nothing is due to any CPU, or that a turn is refused:
/// first at the own post, or at another where that wasn't left, and then at that of the CPU that has an entry due.
pub fn roam<H: Home, R: Wait, G: Gate>(
    rt: &R,
    shared: &Shared<Running>,
    posts: &Posts<H>,
    gate: &G,
    own: u8,
)
    requires home { H.shared ≡ Some shared.now }
{
    let mut post = posts.take(rt, own);
    for _ in rt.forever() {
        if posts.have_ended() {
            break;
        }
        let answer = post.turn(rt, shared, gate);
        post = next_post(rt, posts, post, own, answer);
    }
    posts.leave(rt, post);
}

/// Takes turns at the post, each behind the gate, while its CPU has entries due and the run goes on. What the last one
/// answered.
fn stay<H: Home, R: Wait, G: Gate>(
    rt: &R,
    shared: &Shared<Running>,
    posts: &Posts<H>,
    gate: &G,
    post: &mut Post<H>,
) -> Result<Turn, TurnFault>
    requires home { H.shared ≡ Some shared.now }
{
    for _ in rt.forever() {
        let answer = post.turn(rt, shared, gate);
        if posts.have_ended() || !matches!(answer, Ok(Turn::Made(_) | Turn::Edited { .. })) {
            return answer;
        }
    }
    // the turns have no end of their own
    unreachable!()
}

/// What the turn answered; or, where that told of a CPU whose post was left, what the last turn at that post answered.
/// Then the post is left again.
fn visit<H: Home, R: Wait, G: Gate>(
    rt: &R,
    shared: &Shared<Running>,
    posts: &Posts<H>,
    gate: &G,
    answer: Result<Turn, TurnFault>,
) -> Result<Turn, TurnFault>
    requires home { H.shared ≡ Some shared.now }
{
    let due_to = match &answer {
        Ok(Turn::NotNow { due_to }) => *due_to,
        _ => return answer,
    };
    let Some(mut post) = posts.take_left(rt, due_to) else {
        return answer;
    };
    let last = stay(rt, shared, posts, gate, &mut post);
    posts.leave(rt, post);
    last
}

/// The index in the calling thread's own list for the turn behind one that answered this: the same one while its CPU
/// has entries due, and else that of the CPU that has. Where that one isn't in the list, other threads go first, and
/// the next post has its turn. Where nothing is due to any CPU, or the turn was refused, the run is ended.
fn next_index<H: Home>(
    posts: &Posts<H>,
    own: &[Post<H>],
    at: usize,
    answer: Result<Turn, TurnFault>,
) -> usize
    requires { at < length own.now }
    ensures { result < length own.now }
{
    match answer {
        Ok(Turn::Made(_) | Turn::Edited { .. }) => at,
        Ok(Turn::NotNow { due_to }) => {
            if let Some(index) = own.iter().position(|post| post.port.caller() == due_to) {
                return index;
            }
            thread::yield_now();
            (at + 1) % own.len()
        }
        Ok(Turn::Done) | Err(_) => {
            posts.end();
            at
        }
    }
}

/// Takes turns at the posts of the calling thread's own list, each behind the gate, until a worker finds that nothing is
/// due to any CPU, or that a turn is refused. No other worker goes to these; the calling thread also goes to posts that
/// were left.
pub fn roam_own<H: Home, R: Wait, G: Gate>(
    rt: &R,
    shared: &Shared<Running>,
    posts: &Posts<H>,
    gate: &G,
    own: &mut [Post<H>],
)
    requires home { H.shared ≡ Some shared.now }
    requires some { 0 < length own.old }
{
    let mut at = 0;
    for _ in rt.forever() {
        if posts.have_ended() {
            return;
        }
        let answer = own[at].turn(rt, shared, gate);
        let answer = visit(rt, shared, posts, gate, answer);
        at = next_index(posts, own, at, answer);
    }
}
