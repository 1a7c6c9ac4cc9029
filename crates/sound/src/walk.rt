// The walk over the queues that are not empty. `spots` has where each task stands. A slot strikes the spot of its task out, and so it can
// stand in no second slot.
ghost use Rattle.std.specs.Prelude.{◌≡◌, ◌≤◌, ◌<◌, IfSome, unwrap_or};
ghost use Rattle.rules.specs.Sizes.{task_count};
ghost use Rattle.rules.specs.Table.{queue_count, works};
ghost use Rattle.table.specs.Image.{view};
ghost use Rattle.sound.specs.Lines.{may_stand};
ghost use Rattle.sound.specs.Waits.{is_awaited};
ghost use Rattle.sound.specs.Walks.{QueueWalked, QueuePassed, NextFront, AllWalked};

use table::layout::Image;
use table::{channels, groups, layout, moves, mutexes, semaphores};

// Where each task stands: the number of its queue. A byte and no Option, so that the compiler takes many at once. It goes beside the image, and in
// no struct with it: the image is only read while the spots change.
pub type Spots = [u8; layout::TASKS];

// The spot of a task that stands in no queue.
pub const NOWHERE: u8 = layout::QUEUES as u8;

// What a slot leaves of the spot of its task.
const STRUCK: u8 = 255;

// Whether v may stand next in queue q, behind a task of this key.
#[tactic(auto, using(laws::specs::queues::Put::work_at), unfolding(crate::specs::Lines::may_stand))]
fn may_stand(s: &Image, spots: &Spots, q: usize, key: u8, v: u8) -> bool
    requires { (1 ≤ v) × (q < queue_count) }
    ensures { result ≡ may_stand q key (works (view s.now)) spots.now v }
{
    if 32 < v {
        return false;
    }
    let i = v as usize - 1;
    (spots[i] == q as u8) & (key <= table::tasks::get_work(s, i))
}

// How many slots of queue q are filled from the front on, where each may stand there.
fn walk_queue(s: &Image, spots: &mut Spots, q: usize) -> Option<usize>
    requires { q < queue_count }
    ensures { QueueWalked (view s.now) q spots.old result spots.new }
{
    let mut key: u8 = 0;
    for j in 0..layout::SLOTS {
        let v = moves::slot_in(s, q, j);
        if v == 0 {
            return Some(j);
        }
        if !may_stand(s, spots, q, key, v) {
            return None;
        }
        let i = v as usize - 1;
        key = table::tasks::get_work(s, i);
        spots[i] = STRUCK;
    }
    Some(layout::SLOTS)
}

// Whether the object of queue q is in use and has nothing to take; the able queue has none, and a group is only asked for its use. Ifs and no match:
// each range ends where the next begins, and so each bound stands once.
fn is_awaited(s: &Image, q: usize) -> bool
    requires { q < queue_count }
    ensures { result ≡ is_awaited (view s.now) q }
{
    if q == 0 {
        return true;
    }
    if q < layout::MUTEX_QUEUE {
        let o = q - layout::SEMAPHORE_QUEUE;
        return (semaphores::get_used(s, o) == 1) & (semaphores::get_count(s, o) == 0);
    }
    if q < layout::GROUP_QUEUE {
        let o = q - layout::MUTEX_QUEUE;
        return (mutexes::get_used(s, o) == 1) & (mutexes::get_holder(s, o) != 0);
    }
    if q < layout::CHANNEL_QUEUE {
        return groups::get_used(s, q - layout::GROUP_QUEUE) == 1;
    }
    let o = q - layout::CHANNEL_QUEUE;
    (channels::get_used(s, o) == 1) & (channels::get_held(s, o) == 0)
}

// The same as `walk_queue`, where the queue's object may have a waiter or the queue is empty.
fn pass_queue(s: &Image, spots: &mut Spots, q: usize) -> Option<usize>
    requires { q < queue_count }
    ensures { QueuePassed (view s.now) q spots.old result spots.new }
{
    if moves::slot_in(s, q, 0) == 0 {
        return Some(0);
    }
    if !is_awaited(s, q) {
        return None;
    }
    walk_queue(s, spots, q)
}

// The first queue from q on that is not empty: a loop of its own, since most are empty, and the compiler then takes them in few instructions.
fn next_front(s: &Image, q: usize) -> Option<usize>
    requires { q ≤ queue_count }
    ensures first { NextFront (view s.now) q (unwrap_or result queue_count) }
    ensures there { IfSome result (λ r. r < queue_count) }
{
    for at in q..layout::QUEUES {
        if moves::slot_in(s, at, 0) != 0 {
            return Some(at);
        }
    }
    None
}

// How many slots of all queues are filled from the front on, where each queue passes.
pub fn walk_queues(s: &Image, spots: &mut Spots) -> Option<usize>
    ensures { AllWalked (view s.now) spots.old result spots.new }
{
    let mut n = 0;
    let mut from = 0;
    while let Some(q) = next_front(s, from) {
        n += pass_queue(s, spots, q)?;
        from = q + 1;
    }
    Some(n)
}
