// The rules on a task's fields.
ghost use Rattle.std.specs.Prelude.{◌≡◌, ◌<◌, eqb};
ghost use Rattle.rules.specs.Sizes.{task_count};
ghost use Rattle.rules.specs.Table.{task_of};
ghost use Rattle.rules.specs.Family.{objects_in};
ghost use Rattle.rules.specs.Sound.{implies, asks_in, is_no_task};
ghost use Rattle.table.specs.Image.{view};
ghost use Rattle.why.specs.Tests.{kept_in, range_tests, task_tests};
ghost use Rattle.why.specs.Zeros.{is_plain_zero, is_wait_zero};

use table::layout::Image;
use table::{layout, tasks};

// How many numbers the object of a task in this state may have. It is no function of `sound`, which shares no test with this crate.
#[tactic(auto, unfolding(rules::specs::Family::of_state))]
fn objects_in(state: u8) -> u8
    ensures { result ≡ objects_in state }
{
    match state {
        tasks::WAITS_SEMAPHORE => layout::SEMAPHORES as u8,
        tasks::WAITS_MUTEX => layout::MUTEXES as u8,
        tasks::WAITS_FLAGS => layout::GROUPS as u8,
        tasks::WAITS_MESSAGE => layout::CHANNELS as u8,
        _ => 1,
    }
}

// How many numbers what is asked of flags may have: n, and none but 0 where the task waits for no flags.
#[tactic(auto, unfolding(rules::specs::Sound::asks_in))]
fn asks_in(state: u8, n: u8) -> u8
    ensures { result ≡ asks_in state n }
{
    if state == tasks::WAITS_FLAGS { n } else { 1 }
}

#[tactic(auto, unfolding(crate::specs::Tests::kept_in))]
pub fn is_in_range(s: &Image, rule: u32, i: usize) -> bool
    ensures { result ≡ kept_in range_tests rule i (view s.now) }
{
    if 32 <= i {
        return true;
    }
    match rule {
        0x01 => tasks::get_used(s, i) <= 1,
        0x02 => tasks::get_base(s, i) <= 62,
        0x03 => tasks::get_work(s, i) <= 62,
        0x04 => tasks::get_suspend(s, i) <= 250,
        0x05 => (tasks::get_quantum(s, i) as u32) <= 65535,
        0x06 => (tasks::get_left(s, i) as u32) <= 65535,
        0x07 => tasks::get_state(s, i) <= tasks::WAITS_MESSAGE,
        0x08 => tasks::get_object(s, i) < objects_in(tasks::get_state(s, i)),
        0x09 => tasks::get_marked(s, i) <= 1,
        0x0A => (tasks::get_marked(s, i) != 0) | (tasks::get_due(s, i) == 0),
        0x0B => tasks::get_outcome(s, i) <= 3,
        0x0C => (tasks::get_state(s, i) == tasks::WAITS_FLAGS) | (tasks::get_mask(s, i) == 0),
        0x0D => tasks::get_test(s, i) < asks_in(tasks::get_state(s, i), 4),
        0x0E => tasks::get_consume(s, i) < asks_in(tasks::get_state(s, i), 2),
        0x0F => tasks::get_message(s, i) <= 4294967295,
        _ => true,
    }
}

// Whether the fields of a wait are 0, and the message that one gave. Field by field: for `==` the whole record would have to be read together first.
#[tactic(auto, unfolding(crate::specs::Zeros::is_wait_zero))]
fn is_wait_zero(s: &Image, i: usize) -> bool
    requires { i < task_count }
    ensures { result ≡ is_wait_zero (task_of (view s.now) i) }
{
    let object = tasks::get_object(s, i);
    let marked = tasks::get_marked(s, i);
    let due = tasks::get_due(s, i);
    let outcome = tasks::get_outcome(s, i);
    let mask = tasks::get_mask(s, i);
    let test = tasks::get_test(s, i);
    let consume = tasks::get_consume(s, i);
    let message = tasks::get_message(s, i);
    let asked = (mask == 0) & ((test == 0) & ((consume == 0) & (message == 0)));
    (object == 0) & ((marked == 0) & ((due == 0) & ((outcome == 0) & asked)))
}

// Whether its other fields are 0.
#[tactic(auto, unfolding(crate::specs::Zeros::is_plain_zero))]
fn is_plain_zero(s: &Image, i: usize) -> bool
    requires { i < task_count }
    ensures { result ≡ is_plain_zero (task_of (view s.now) i) }
{
    let base = tasks::get_base(s, i);
    let work = tasks::get_work(s, i);
    let suspend = tasks::get_suspend(s, i);
    let quantum = tasks::get_quantum(s, i);
    let left = tasks::get_left(s, i);
    let state = tasks::get_state(s, i);
    let turns = (quantum == 0) & ((left == 0) & (state == 0));
    (base == 0) & ((work == 0) & ((suspend == 0) & turns))
}

// A free number has zero fields.
fn is_free_right(s: &Image, i: usize) -> bool
    requires { i < task_count }
    ensures { result ≡ implies (eqb (task_of (view s.now) i).used 0) (is_no_task (task_of (view s.now) i)) }
{
    (tasks::get_used(s, i) != 0) | (is_plain_zero(s, i) & is_wait_zero(s, i))
}

#[tactic(auto, unfolding(crate::specs::Tests::kept_in))]
pub fn is_right(s: &Image, rule: u32, i: usize) -> bool
    ensures { result ≡ kept_in task_tests rule i (view s.now) }
{
    if 32 <= i {
        return true;
    }
    match rule {
        0x10 => is_free_right(s, i),
        0x11 => (tasks::get_state(s, i) != tasks::PLAIN) | (tasks::get_marked(s, i) == 0),
        0x12 => (tasks::get_state(s, i) != tasks::DELAYED) | (tasks::get_marked(s, i) == 1),
        0x13 => tasks::get_left(s, i) <= tasks::get_quantum(s, i),
        0x14 => (tasks::get_state(s, i) != tasks::WAITS_FLAGS) | (1 <= tasks::get_mask(s, i)),
        0x15 => (tasks::get_used(s, i) != 1) | (1 <= tasks::get_quantum(s, i)),
        _ => true,
    }
}
