// How tasks change their places. A service stores the fields that it changes, the working priority not among them, and then moves the task:
// `settle` where its place may be another, `leave_queue` or `join_queue` where it is known to stand nowhere now or before; `Settled` says when
// that is the `put` of the rules. Where the working priority changes, the task leaves its level with the old one. A record is stored whole where
// a task is created or deleted. `rotate` is the one other move, and stays within a level. And who runs.
// Image, queue and task stay three parameters, since they change apart.
ghost use Rattle.std.specs.Prelude.{◌≡◌, false, cond, ◌+◌, ◌≤◌, ◌<◌, IfSome, eqb, get_or};
ghost use Rattle.queue.specs.Slots.{place_of as place_in, place_from, limit, entered, without, moved, replaced};
ghost use Rattle.queue.specs.Slide.{lifted, packed_at};
ghost use Rattle.rules.specs.Sizes.{task_count, level_count};
ghost use Rattle.rules.specs.Table.{queue_count, able_queue, task_of, queue_of, works, is_able, first_in, no_task, with_queue};
ghost use Rattle.rules.specs.Family.{place_of};
ghost use Rattle.rules.specs.Ready.{first_level};
ghost use Rattle.rules.specs.Move.{leave, join, put, put_work, rotate, chosen};
ghost use Rattle.table.specs.Image.{slot_count, view};
ghost use Rattle.table.specs.Byte.{byte_of};
ghost use Rattle.table.specs.Ready.{reworked_in};
ghost use Rattle.table.specs.Settled.{settled};

use crate::layout::Image;
use crate::{layout, levels, numbers, tasks};

// Whether task i is able.
pub fn is_able(s: &Image, i: usize) -> bool
    requires { i < task_count }
    ensures { result ≡ is_able (task_of (view s.now) i) }
{
    let used = tasks::get_used(s, i);
    let state = tasks::get_state(s, i);
    let suspend = tasks::get_suspend(s, i);
    (used == 1) & ((state == tasks::PLAIN) & (suspend == 0))
}

// The queue where task i stands: 0 that of the able tasks, then those of the semaphores, of the mutexes, of the groups and of the channels; QUEUES
// or more for none. It is no Option, since in an image that is not sound an object's number may be any, and places are compared as numbers.
pub fn place_of(s: &Image, i: usize) -> usize
    requires { i < task_count }
    ensures { result ≡ place_of (task_of (view s.now) i) }
{
    if is_able(s, i) {
        return layout::ABLE_QUEUE;
    }
    let object = tasks::get_object(s, i) as usize;
    match tasks::get_state(s, i) {
        tasks::WAITS_SEMAPHORE => layout::SEMAPHORE_QUEUE + object,
        tasks::WAITS_MUTEX => layout::MUTEX_QUEUE + object,
        tasks::WAITS_FLAGS => layout::GROUP_QUEUE + object,
        tasks::WAITS_MESSAGE => layout::CHANNEL_QUEUE + object,
        _ => layout::QUEUES,
    }
}

// The slots of queue q without task i.
fn remove_in(s: &mut Image, q: usize, i: usize)
    requires { (i < task_count) × (q < queue_count) }
    ensures { view s.new ≡ with_queue q (without i (queue_of (view s.old) q)) (view s.old) }
{
    let a = layout::QUEUE + layout::SLOTS * q;
    let e = a + layout::SLOTS;
    let _ = queue::remove(&mut s[a..e], i as u8);
}

// Task i leaves the able queue, where it stands in slot `at`. The word asks who stands beside it, so it comes first.
fn leave_from(s: &mut Image, i: usize, at: usize)
    requires { (i < task_count) × (at ≤ slot_count) × (at ≡ place_in i (queue_of (view s.old) able_queue)) }
    ensures { view s.new ≡ leave able_queue i (view s.old) }
{
    levels::drop_at(s, i, at);
    let a = layout::QUEUE + layout::SLOTS * layout::ABLE_QUEUE;
    let e = a + layout::SLOTS;
    queue::close(&mut s[a..e], at);
}

// Task i leaves the able queue. One search serves the word and the slots, and none is made where it is the first, as the running task mostly is.
fn leave_able(s: &mut Image, i: usize)
    requires { i < task_count }
    ensures { view s.new ≡ leave able_queue i (view s.old) }
{
    if slot_in(s, layout::ABLE_QUEUE, 0) as usize == i + 1 {
        leave_from(s, i, 0);
        return;
    }
    let at = levels::place_of_able(s, i as u8);
    leave_from(s, i, at);
}

// Task i leaves queue q, if there is such a queue.
pub fn leave_queue(s: &mut Image, q: usize, i: usize)
    requires { i < task_count }
    ensures { view s.new ≡ leave q i (view s.old) }
{
    if layout::QUEUES <= q {
        return;
    }
    if q == layout::ABLE_QUEUE {
        leave_able(s, i);
        return;
    }
    remove_in(s, q, i);
}

// Where task i goes in queue q, before its equals or behind them: the queue and the keys are two parts of one slice.
fn place_in(s: &Image, q: usize, i: usize, ahead: bool) -> usize
    requires { (i < task_count) × (q < queue_count) }
    ensures { result ≡ place_from (works (view s.now)) (limit ahead (get_or (works (view s.now)) i 0)) (queue_of (view s.now) q) }
{
    let a = layout::QUEUE + layout::SLOTS * q;
    let e = a + layout::SLOTS;
    let key = tasks::get_work(s, i);
    queue::slides::place_at(
        &s[a..e],
        &s[layout::WORK..layout::WORK + layout::TASKS],
        key,
        ahead,
    )
}

// The slots of queue q with task i before its equals, or behind them.
fn insert_in(s: &mut Image, q: usize, i: usize, ahead: bool)
    requires { (i < task_count) × (q < queue_count) }
    ensures { view s.new ≡ with_queue q (entered ahead (works (view s.old)) i (queue_of (view s.old) q)) (view s.old) }
{
    let a = layout::QUEUE + layout::SLOTS * q;
    let e = a + layout::SLOTS;
    let at = place_in(s, q, i, ahead);
    queue::open(&mut s[a..e], at, i as u8 + 1);
}

// Task i goes before its equals in queue q, or behind them, if there is such a queue.
fn enter_queue(s: &mut Image, q: usize, i: usize, ahead: bool)
    requires { i < task_count }
    ensures { view s.new ≡ join ahead q i (view s.old) }
{
    if layout::QUEUES <= q {
        return;
    }
    insert_in(s, q, i, ahead);
    levels::add_in(s, q, i);
}

// Task i arrives in queue q, behind its equals.
pub fn join_queue(s: &mut Image, q: usize, i: usize)
    requires { i < task_count }
    ensures { view s.new ≡ join false q i (view s.old) }
{
    enter_queue(s, q, i, false);
}

// Where task i stands in queue q, with no free slot before it, or SLOTS, with which its callers compare it.
fn packed_in(s: &Image, q: usize, i: usize) -> usize
    requires { (i < task_count) × (q < queue_count) }
    ensures { result ≡ packed_at (i + 1) (queue_of (view s.now) q) }
{
    let a = layout::QUEUE + layout::SLOTS * q;
    let e = a + layout::SLOTS;
    queue::slides::find_packed(&s[a..e], i as u8)
}

// The same, with the slot `at`, its own, not counted.
fn place_again(s: &Image, q: usize, i: usize, at: usize, ahead: bool) -> usize
    requires { (i < task_count) × (q < queue_count) }
    ensures { result ≡ place_from (works (view s.now)) (limit ahead (get_or (works (view s.now)) i 0)) (lifted at (queue_of (view s.now) q)) }
{
    let a = layout::QUEUE + layout::SLOTS * q;
    let e = a + layout::SLOTS;
    let key = tasks::get_work(s, i);
    queue::slides::place_without(
        &s[a..e],
        &s[layout::WORK..layout::WORK + layout::TASKS],
        key,
        ahead,
        at,
    )
}

// The slots of queue q with task i before its equals, or behind them, from slot `at`, where it stands with no free slot before it. Only those
// between the two places move.
fn slide_in(s: &mut Image, q: usize, i: usize, at: usize, ahead: bool)
    requires { (i < task_count) × (q < queue_count) × (at < slot_count) × (at ≡ packed_at (i + 1) (queue_of (view s.old) q)) }
    ensures { view s.new ≡ with_queue q (replaced ahead (works (view s.old)) i (queue_of (view s.old) q)) (view s.old) }
{
    let to = place_again(s, q, i, at, ahead);
    let a = layout::QUEUE + layout::SLOTS * q;
    let e = a + layout::SLOTS;
    queue::slides::slide(&mut s[a..e], at, to, i as u8 + 1);
}

// The slots of queue q with task i behind its equals, from where it stands. With a free slot before it, as in no queue that is packed, a slide
// would leave something else.
fn move_in(s: &mut Image, q: usize, i: usize)
    requires { (i < task_count) × (q < queue_count) }
    ensures { view s.new ≡ with_queue q (moved (works (view s.old)) i (queue_of (view s.old) q)) (view s.old) }
{
    let at = packed_in(s, q, i);
    if at < layout::SLOTS {
        slide_in(s, q, i, at, false);
        return;
    }
    remove_in(s, q, i);
    insert_in(s, q, i, false);
}

// Task i, whose fields were stored, but for its working priority, stood in queue q: where its place is another now, it leaves q and
// goes behind its equals in its own.
pub fn settle(s: &mut Image, i: usize, q: usize)
    requires { i < task_count }
    ensures { view s.new ≡ settled q i (view s.old) }
{
    let new = place_of(s, i);
    if q == new {
        return;
    }
    leave_queue(s, q, i);
    join_queue(s, new, i);
}

fn put_in(s: &mut Image, i: usize, k: rules::Task)
    requires { i < task_count }
    ensures { view s.new ≡ put i k (view s.old) }
{
    let q = place_of(s, i);
    let old = tasks::get_work(s, i);
    if old == k.work {
        tasks::store(s, i, k);
        settle(s, i, q);
        return;
    }
    let raised = k.work < old;
    leave_queue(s, q, i);
    tasks::store(s, i, k);
    let new = place_of(s, i);
    enter_queue(s, new, i, (q == new) & raised);
}

// Task i becomes k. Where its place or its working priority changes, it leaves its queue and comes into the other, before its equals where it is
// raised and else behind them.
pub fn put_task(s: &mut Image, i: usize, k: rules::Task)
    ensures { view s.new ≡ put i k (view s.old) }
{
    if layout::TASKS <= i {
        return;
    }
    put_in(s, i, k);
}

// Task i is free again: it leaves its queue, and its record is that of a free number.
pub fn clear_task(s: &mut Image, i: usize)
    requires { i < task_count }
    ensures { view s.new ≡ put i no_task (view s.old) }
{
    let q = place_of(s, i);
    leave_queue(s, q, i);
    tasks::store(s, i, tasks::no_task());
}

// The working priority of task i, which stands in queue q, becomes p, and the task goes before its equals or behind them. One search serves the
// word and the slots; where a free slot stands before the task, it leaves and comes in again.
fn rework_in(s: &mut Image, q: usize, i: usize, p: u8, ahead: bool)
    requires { (i < task_count) × (q < queue_count) }
    ensures { view s.new ≡ reworked_in ahead q i p (view s.old) }
{
    let at = packed_in(s, q, i);
    if at < layout::SLOTS {
        levels::drop_from(s, q, i, at);
        tasks::set_work(s, i, p);
        slide_in(s, q, i, at, ahead);
        levels::add_in(s, q, i);
        return;
    }
    leave_queue(s, q, i);
    tasks::set_work(s, i, p);
    enter_queue(s, q, i, ahead);
}

// The working priority of task i becomes p; raised, the task goes before its equals, and lowered behind them.
pub fn rework_task(s: &mut Image, i: usize, p: u8)
    requires { i < task_count }
    ensures { view s.new ≡ put_work (view s.old) i p }
{
    let old = tasks::get_work(s, i);
    if old == p {
        return;
    }
    let q = place_of(s, i);
    if layout::QUEUES <= q {
        tasks::set_work(s, i, p);
        return;
    }
    rework_in(s, q, i, p, p < old);
}

fn rotate_in(s: &mut Image, i: usize)
    requires { i < task_count }
    ensures { view s.new ≡ rotate i (view s.old) }
{
    let quantum = tasks::get_quantum(s, i);
    tasks::set_left(s, i, quantum);
    move_in(s, layout::ABLE_QUEUE, i);
}

// The able task i goes behind its equals, and has its whole quantum again.
pub fn rotate_task(s: &mut Image, i: usize)
    ensures { view s.new ≡ rotate i (view s.old) }
{
    if layout::TASKS <= i {
        return;
    }
    rotate_in(s, i);
}

// The task in front of queue q, None where the queue is empty or there is none.
pub fn first_in(s: &Image, q: usize) -> Option<usize>
    ensures front { byte_of result ≡ first_in q (view s.now) }
    ensures within { IfSome result (λ w. w < 255) }
{
    if layout::QUEUES <= q {
        return None;
    }
    match slot_in(s, q, 0) {
        0 => None,
        v => Some(v as usize - 1),
    }
}

// Slot j of queue q: the byte as it stands in the image, a task's number plus 1, or 0 for none.
pub fn slot_in(s: &Image, q: usize, j: usize) -> u8
    requires { (q < queue_count) × (j < slot_count) }
    ensures { result ≡ get_or (queue_of (view s.now) q) j 0 }
{
    s[layout::QUEUE + layout::SLOTS * q + j]
}

// The first able task, its number plus 1: the first level's first is the front of the able queue. 0 where no level has one, as
// `set_running` takes it.
fn first_ready(s: &Image) -> u8
    ensures { result ≡ cond (eqb (first_level (view s.now).ready) level_count) 0 (first_in able_queue (view s.now)) }
{
    if levels::first_level(s) == levels::LEVELS as u32 {
        return 0;
    }
    slot_in(s, layout::ABLE_QUEUE, 0)
}

// At depth 0 the first able task runs.
pub fn choose(s: &mut Image)
    ensures { view s.new ≡ chosen (view s.old) }
{
    let d = numbers::get_depth(s);
    if d == 0 {
        let v = first_ready(s);
        numbers::set_running(s, v);
    }
}
