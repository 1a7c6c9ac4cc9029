// The queues, who waits, and who holds.
ghost use Rattle.std.specs.Prelude.{◌≡◌, cond, ◌+◌, ◌≤◌, ◌<◌, eqb, length, get_or};
ghost use Rattle.queue.specs.Order.{one, count};
ghost use Rattle.rules.specs.Sizes.{task_count, mutex_count};
ghost use Rattle.rules.specs.Table.{task_of, queue_of, queue_count, able_queue};
ghost use Rattle.rules.specs.Family.{place_of};
ghost use Rattle.rules.specs.Sound.{each, SoundTasks};
ghost use Rattle.table.specs.Image.{view};
ghost use Rattle.sound.specs.Packed.{of_seven, frees, slot_count};
ghost use Rattle.sound.specs.Queues.{Spotted, is_met};
ghost use Rattle.sound.specs.Waits.{is_holder_sound};
ghost use Rattle.sound.specs.Whole.{are_queues_sound};

use crate::every::every;
use crate::walk;
use crate::walk::{NOWHERE, Spots};
use table::layout::Image;
use table::{layout, moves, mutexes, tasks};

const ALL_SLOTS: usize = layout::QUEUES * layout::SLOTS;

// The queues of the objects, by seven.
const SEVENS: usize = (layout::QUEUES - layout::SEMAPHORE_QUEUE) / 7;

// The queue where task i stands. Each arm is one sum of bytes, of which the compiler makes no branch: it takes many tasks at once.
#[tactic(auto, using(crate::specs::Queues::object_most), unfolding(rules::specs::Family::of_state, rules::specs::Family::place_of))]
fn spot_of(s: &Image, i: usize) -> u8
    requires { (i < task_count) × SoundTasks (view s.now) }
    ensures { result ≡ place_of (task_of (view s.now) i) }
{
    let object = tasks::get_object(s, i);
    if moves::is_able(s, i) {
        return layout::ABLE_QUEUE as u8;
    }
    match tasks::get_state(s, i) {
        tasks::WAITS_SEMAPHORE => layout::SEMAPHORE_QUEUE as u8 + object,
        tasks::WAITS_MUTEX => layout::MUTEX_QUEUE as u8 + object,
        tasks::WAITS_FLAGS => layout::GROUP_QUEUE as u8 + object,
        tasks::WAITS_MESSAGE => layout::CHANNEL_QUEUE as u8 + object,
        _ => NOWHERE,
    }
}

// That the tasks are right is asked of the caller, who has just tested it: a type for such images would be taken apart again by each reader of a field.
fn fill_spots(s: &Image, spots: &mut Spots)
    requires { SoundTasks (view s.now) }
    ensures { Spotted (view s.now) task_count spots.new }
{
    for i in 0..layout::TASKS {
        spots[i] = spot_of(s, i);
    }
}

// Whether the holder of mutex m, if it has one, is in use and does not wait for it.
fn is_holder_right(s: &Image, spots: &Spots, m: usize) -> bool
    requires { (m < mutex_count) × Spotted (view s.now) task_count spots.now }
    ensures { result ≡ is_holder_sound (view s.now) m }
{
    let h = mutexes::get_holder(s, m);
    if h == 0 {
        return true;
    }
    if 32 < h {
        return false;
    }
    let i = h as usize - 1;
    (tasks::get_used(s, i) == 1) & (spots[i] as usize != layout::MUTEX_QUEUE + m)
}

fn are_holders_right(s: &Image, spots: &Spots) -> bool
    requires { Spotted (view s.now) task_count spots.now }
    ensures { result ≡ each mutex_count (is_holder_sound (view s.now)) }
{
    every(layout::MUTEXES, |m| is_holder_right(s, spots, m))
}

// Whether no task is left that should stand in a queue.
fn are_all_met(spots: &Spots) -> bool
    ensures { result ≡ each task_count (is_met spots.now) }
{
    every(layout::TASKS, |i| NOWHERE <= spots[i])
}

// 1 where slot j of queue q is free.
fn free_at(s: &Image, q: usize, j: usize) -> u8
    requires { (q < queue_count) × (j < task_count) }
    ensures { (result ≡ one 0 (get_or (queue_of (view s.now) q) j 0)) × (result ≤ 1) }
{
    u8::from(moves::slot_in(s, q, j) == 0)
}

// The free slots of the able queue, counted in a byte as in `free_in_seven`.
fn free_in_able(s: &Image) -> u8
    ensures { result ≡ count 0 (queue_of (view s.now) able_queue) }
{
    let mut n: u8 = 0;
    for j in 0..layout::SLOTS {
        n += free_at(s, layout::ABLE_QUEUE, j);
    }
    n
}

// How many of the slots j of seven queues are free.
fn free_at_seven(s: &Image, q: usize, j: usize) -> u8
    requires { (q + 6 < queue_count) × (j < task_count) }
    ensures { (result ≡ of_seven (λ p. one 0 (get_or (queue_of (view s.now) p) j 0)) q) × (result ≤ 7) }
{
    free_at(s, q, j)
        + (free_at(s, q + 1, j)
            + (free_at(s, q + 2, j)
                + (free_at(s, q + 3, j)
                    + (free_at(s, q + 4, j) + (free_at(s, q + 5, j) + free_at(s, q + 6, j))))))
}

// The free slots of seven queues: no branch, and few enough for a byte, so that the compiler counts many at once.
fn free_in_seven(s: &Image, q: usize) -> u8
    requires { q + 6 < queue_count }
    ensures { result ≡ of_seven (λ p. count 0 (queue_of (view s.now) p)) q }
{
    let mut n: u8 = 0;
    for j in 0..layout::SLOTS {
        n += free_at_seven(s, q, j);
    }
    n
}

// Whether all slots but n are free. The count ends where it is too great: without that end the compiler counts all queues in one go, and keeps them on the stack.
fn are_others_free(s: &Image, n: usize) -> bool
    requires { n ≤ slot_count + 1 + slot_count }
    ensures { result ≡ eqb (n + frees queue_count (view s.now)) slot_count }
{
    let mut m = n + free_in_able(s) as usize;
    for i in 0..SEVENS {
        m += free_in_seven(s, layout::SEMAPHORE_QUEUE + 7 * i) as usize;
        if ALL_SLOTS < m {
            return false;
        }
    }
    m == ALL_SLOTS
}

// Queues, waits and holders. Each slot that is filled is one from the front of its queue on, where these and the free ones are all there are.
pub fn are_queues_right(s: &Image) -> bool
    requires { SoundTasks (view s.now) }
    ensures { result ≡ are_queues_sound (view s.now) }
{
    let mut spots = [NOWHERE; layout::TASKS];
    fill_spots(s, &mut spots);
    let held = are_holders_right(s, &spots);
    let Some(n) = walk::walk_queues(s, &mut spots) else {
        return false;
    };
    are_others_free(s, n) & (are_all_met(&spots) & held)
}
