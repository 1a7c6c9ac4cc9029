// The fields of the tasks. A test has no branch, so that the compiler takes many tasks at once.
ghost use Rattle.std.specs.Prelude.{◌≡◌, ◌<◌};
ghost use Rattle.rules.specs.Sizes.{task_count};
ghost use Rattle.rules.specs.Table.{task_of};
ghost use Rattle.rules.specs.Family.{objects_in};
ghost use Rattle.rules.specs.Sound.{each, asks_in};
ghost use Rattle.table.specs.Image.{view};
ghost use Rattle.sound.specs.Rows.{has_sound_levels, has_sound_state, has_sound_asks, has_sound_fields, has_sound_turns, has_sound_mark, has_sound_mask, has_sound_message, are_tasks_sound};

use crate::every::every;
use table::layout::Image;
use table::tasks::{DELAYED, PLAIN, WAITS_FLAGS, WAITS_MESSAGE, WAITS_MUTEX, WAITS_SEMAPHORE};
use table::{layout, numbers};

// How many numbers the object of a task in this state may have.
#[tactic(auto, unfolding(rules::specs::Family::of_state))]
pub fn objects_in(state: u8) -> u8
    ensures { result ≡ objects_in state }
{
    match state {
        WAITS_SEMAPHORE => layout::SEMAPHORES as u8,
        WAITS_MUTEX => layout::MUTEXES as u8,
        WAITS_FLAGS => layout::GROUPS as u8,
        WAITS_MESSAGE => layout::CHANNELS as u8,
        _ => 1,
    }
}

// How many numbers what is asked of flags may have: n, and none but 0 where the task waits for no flags.
#[tactic(auto, unfolding(rules::specs::Sound::asks_in))]
pub fn asks_in(state: u8, n: u8) -> u8
    ensures { result ≡ asks_in state n }
{
    if state == WAITS_FLAGS { n } else { 1 }
}

// Its priorities, and how often it is suspended.
#[tactic(auto, unfolding(crate::specs::Rows::has_sound_levels))]
fn has_right_levels(s: &Image, i: usize) -> bool
    requires { i < task_count }
    ensures { result ≡ has_sound_levels (task_of (view s.now) i) }
{
    let used = table::tasks::get_used(s, i);
    let base = table::tasks::get_base(s, i);
    let work = table::tasks::get_work(s, i);
    let suspend = table::tasks::get_suspend(s, i);
    let free = (used != 0) | ((base == 0) & ((work == 0) & (suspend == 0)));
    (used <= 1) & ((base <= 62) & ((work <= 62) & ((suspend <= 250) & free)))
}

// Its state and what goes with it.
#[tactic(auto, unfolding(crate::specs::Rows::has_sound_state))]
fn has_right_state(s: &Image, i: usize) -> bool
    requires { i < task_count }
    ensures { result ≡ has_sound_state (task_of (view s.now) i) }
{
    let used = table::tasks::get_used(s, i);
    let state = table::tasks::get_state(s, i);
    let object = table::tasks::get_object(s, i);
    let marked = table::tasks::get_marked(s, i);
    let outcome = table::tasks::get_outcome(s, i);
    let free = (used != 0) | ((state == PLAIN) & (outcome == 0));
    let timed = (DELAYED < state) | (marked == state);
    (state <= WAITS_MESSAGE)
        & ((object < objects_in(state)) & ((marked <= 1) & ((outcome <= 3) & (timed & free))))
}

// The test that it waits for, and whether it consumes the flags.
#[tactic(auto, unfolding(crate::specs::Rows::has_sound_asks))]
fn has_right_asks(s: &Image, i: usize) -> bool
    requires { i < task_count }
    ensures { result ≡ has_sound_asks (task_of (view s.now) i) }
{
    let state = table::tasks::get_state(s, i);
    let test = table::tasks::get_test(s, i);
    let consume = table::tasks::get_consume(s, i);
    (test < asks_in(state, 4)) & (consume < asks_in(state, 2))
}

// The fields of one byte.
fn are_fields_right(s: &Image) -> bool
    ensures { result ≡ each task_count (λ i. has_sound_fields (task_of (view s.now) i)) }
{
    every(layout::TASKS, |i| {
        has_right_levels(s, i) & (has_right_state(s, i) & has_right_asks(s, i))
    })
}

// Every number of 16 bits is in range. A task in use has a quantum, and nobody else.
fn has_right_turns(s: &Image, i: usize) -> bool
    requires { i < task_count }
    ensures { result ≡ has_sound_turns (task_of (view s.now) i) }
{
    let used = table::tasks::get_used(s, i);
    let quantum = table::tasks::get_quantum(s, i);
    let left = table::tasks::get_left(s, i);
    (left <= quantum) & (((used != 0) | (quantum == 0)) & ((used != 1) | (quantum != 0)))
}

// Quantum and what is left of it.
fn are_turns_right(s: &Image) -> bool
    ensures { result ≡ each task_count (λ i. has_sound_turns (task_of (view s.now) i)) }
{
    every(layout::TASKS, |i| has_right_turns(s, i))
}

// Every number of 32 bits is in range where there is a mark.
fn has_right_mark(s: &Image, i: usize, tick: u32) -> bool
    requires { i < task_count }
    ensures { result ≡ has_sound_mark tick (task_of (view s.now) i) }
{
    let marked = table::tasks::get_marked(s, i);
    let due = table::tasks::get_due(s, i);
    ((marked != 0) | (due == 0)) & ((marked != 1) | (due != tick))
}

// The due marks.
fn are_marks_right(s: &Image) -> bool
    ensures { result ≡ each task_count (λ i. has_sound_mark (view s.now).tick (task_of (view s.now) i)) }
{
    let tick = numbers::get_tick(s);
    every(layout::TASKS, |i| has_right_mark(s, i, tick))
}

// Who waits for flags, and nobody else, has a mask.
fn has_right_mask(s: &Image, i: usize) -> bool
    requires { i < task_count }
    ensures { result ≡ has_sound_mask (task_of (view s.now) i) }
{
    let state = table::tasks::get_state(s, i);
    let mask = table::tasks::get_mask(s, i);
    ((state == WAITS_FLAGS) | (mask == 0)) & ((state != WAITS_FLAGS) | (mask != 0))
}

// The masks.
fn are_masks_right(s: &Image) -> bool
    ensures { result ≡ each task_count (λ i. has_sound_mask (task_of (view s.now) i)) }
{
    every(layout::TASKS, |i| has_right_mask(s, i))
}

// Every number of 32 bits is a message.
fn has_right_message(s: &Image, i: usize) -> bool
    requires { i < task_count }
    ensures { result ≡ has_sound_message (task_of (view s.now) i) }
{
    let used = table::tasks::get_used(s, i);
    let message = table::tasks::get_message(s, i);
    (used != 0) | (message == 0)
}

// The messages. In the loop of the masks, which go by the state, they would take twice as many instructions.
fn are_messages_right(s: &Image) -> bool
    ensures { result ≡ each task_count (λ i. has_sound_message (task_of (view s.now) i)) }
{
    every(layout::TASKS, |i| has_right_message(s, i))
}

// Each task by itself, and no mark is due.
pub(crate) fn are_tasks_right(s: &Image) -> bool
    ensures { result ≡ are_tasks_sound (view s.now) }
{
    are_fields_right(s)
        & (are_turns_right(s) & (are_masks_right(s) & (are_messages_right(s) & are_marks_right(s))))
}
