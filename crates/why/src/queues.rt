// The rules on the queues. What stands in a slot comes out of the bytes: it may be no task's number.
ghost use Rattle.std.specs.Prelude.{◌≡◌, ◌+◌, ◌≤◌, ◌<◌};
ghost use Rattle.queue.specs.Slots.{key_of};
ghost use Rattle.queue.specs.Order.{count};
ghost use Rattle.rules.specs.Sizes.{task_count};
ghost use Rattle.rules.specs.Table.{queue_of, queue_count, slot_in, works};
ghost use Rattle.table.specs.Image.{view};
ghost use Rattle.why.specs.Tests.{kept_in, queue_tests, is_placed, may_stand};

use table::layout::Image;
use table::{layout, moves};

// The slots of all queues, which are the records of these rules.
pub const RECORDS: usize = layout::QUEUES * layout::SLOTS;

// How often v stands in queue q.
fn count_in(s: &Image, q: usize, v: u8) -> u8
    requires { q < queue_count }
    ensures { result ≡ count v (queue_of (view s.now) q) }
{
    let mut n: u8 = 0;
    for j in 0..layout::SLOTS {
        n += u8::from(moves::slot_in(s, q, j) == v);
    }
    n
}

// Task i stands in queue q once where that is its queue, and else not at all.
fn is_placed(s: &Image, q: usize, i: usize) -> bool
    requires { (q < queue_count) × (i < task_count) }
    ensures { result ≡ is_placed (view s.now) q i }
{
    let n = count_in(s, q, i as u8 + 1);
    let place = moves::place_of(s, i);
    n == u8::from(place == q)
}

// The working priority of the task that a slot holds, 0 where it is no task's number, as the rules have it.
fn key_of(s: &Image, v: u8) -> u8
    requires { 1 ≤ v }
    ensures { result ≡ key_of (works (view s.now)) v }
{
    if 32 < v {
        return 0;
    }
    table::tasks::get_work(s, v as usize - 1)
}

// Slot x may stand before slot y.
#[tactic(auto, unfolding(crate::specs::Tests::may_stand))]
fn may_stand(s: &Image, x: u8, y: u8) -> bool
    ensures { result ≡ may_stand (works (view s.now)) x y }
{
    if y == 0 {
        return true;
    }
    if x == 0 {
        return false;
    }
    key_of(s, x) <= key_of(s, y)
}

// Slot j may stand before the next. Behind the last there is none.
fn is_ordered(s: &Image, q: usize, j: usize) -> bool
    requires { (q < queue_count) × (j < task_count) }
    ensures { result ≡ may_stand (works (view s.now)) (slot_in q j (view s.now)) (slot_in q (j + 1) (view s.now)) }
{
    if 31 <= j {
        return true;
    }
    let x = moves::slot_in(s, q, j);
    let y = moves::slot_in(s, q, j + 1);
    may_stand(s, x, y)
}

#[tactic(auto, unfolding(crate::specs::Tests::kept_in))]
pub fn is_right(s: &Image, rule: u32, n: usize) -> bool
    ensures { result ≡ kept_in queue_tests rule n (view s.now) }
{
    if RECORDS <= n {
        return true;
    }
    match rule {
        0x90 => is_placed(s, n / 32, n % 32),
        0x91 => moves::slot_in(s, n / 32, n % 32) <= 32,
        0x92 => is_ordered(s, n / 32, n % 32),
        _ => true,
    }
}
