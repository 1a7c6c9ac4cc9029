// The rules on who waits and who holds. What a task waits for comes out of the bytes: there may be no such object.
ghost use Rattle.std.specs.Prelude.{◌≡◌, not, ◌<◌, eqb, ltb};
ghost use Rattle.rules.specs.Sizes.{task_count, mutex_count};
ghost use Rattle.rules.specs.Table.{semaphore_of, mutex_of, channel_of};
ghost use Rattle.table.specs.Image.{view};
ghost use Rattle.why.specs.Tests.{kept_in, wait_tests, holder_tests, is_object_used, offers_nothing, is_apart, is_holder_used};

use table::families::{Channels, Groups, Mutexes, Semaphores, used_at};
use table::layout::Image;
use table::{channels, layout, mutexes, semaphores, tasks};

// The object that task i waits for is in use.
fn is_used(s: &Image, i: usize) -> bool
    requires { i < task_count }
    ensures { result ≡ is_object_used (view s.now) i }
{
    let object = tasks::get_object(s, i) as usize;
    match tasks::get_state(s, i) {
        tasks::WAITS_SEMAPHORE => used_at::<Semaphores>(s, object) == 1,
        tasks::WAITS_MUTEX => used_at::<Mutexes>(s, object) == 1,
        tasks::WAITS_FLAGS => used_at::<Groups>(s, object) == 1,
        tasks::WAITS_MESSAGE => used_at::<Channels>(s, object) == 1,
        _ => true,
    }
}

// What there is to take is another field of each kind.
fn is_empty(s: &Image, o: usize) -> bool
    ensures { result ≡ not (ltb 0 (semaphore_of (view s.now) o).count) }
{
    layout::SEMAPHORES <= o || semaphores::get_count(s, o) == 0
}

fn is_held(s: &Image, o: usize) -> bool
    ensures { result ≡ not (eqb (mutex_of (view s.now) o).holder 0) }
{
    o < layout::MUTEXES && mutexes::get_holder(s, o) != 0
}

fn has_no_message(s: &Image, o: usize) -> bool
    ensures { result ≡ not (ltb 0 (channel_of (view s.now) o).held) }
{
    layout::CHANNELS <= o || channels::get_held(s, o) == 0
}

// It has nothing to take.
fn has_nothing(s: &Image, i: usize) -> bool
    requires { i < task_count }
    ensures { result ≡ offers_nothing (view s.now) i }
{
    let object = tasks::get_object(s, i) as usize;
    match tasks::get_state(s, i) {
        tasks::WAITS_SEMAPHORE => is_empty(s, object),
        tasks::WAITS_MUTEX => is_held(s, object),
        tasks::WAITS_MESSAGE => has_no_message(s, object),
        _ => true,
    }
}

// The task does not hold it.
fn is_apart(s: &Image, i: usize) -> bool
    requires { i < task_count }
    ensures { result ≡ is_apart (view s.now) i }
{
    tasks::get_state(s, i) != tasks::WAITS_MUTEX
        || chain::holder_of(s, tasks::get_object(s, i) as usize) != i
}

#[tactic(auto, unfolding(crate::specs::Tests::kept_in))]
pub fn is_right(s: &Image, rule: u32, i: usize) -> bool
    ensures { result ≡ kept_in wait_tests rule i (view s.now) }
{
    if 32 <= i {
        return true;
    }
    match rule {
        0x80 => is_used(s, i),
        0x81 => has_nothing(s, i),
        0x82 => is_apart(s, i),
        _ => true,
    }
}

// The holder of mutex m, if it has one, is in use.
fn is_holder_used(s: &Image, m: usize) -> bool
    requires { m < mutex_count }
    ensures { result ≡ is_holder_used (view s.now) m }
{
    let h = mutexes::get_holder(s, m);
    if h == 0 {
        return true;
    }
    if 32 < h {
        return false;
    }
    tasks::get_used(s, h as usize - 1) == 1
}

#[tactic(auto, unfolding(crate::specs::Tests::kept_in))]
pub fn is_holder_right(s: &Image, rule: u32, m: usize) -> bool
    ensures { result ≡ kept_in holder_tests rule m (view s.now) }
{
    if 16 <= m {
        return true;
    }
    match rule {
        0x83 => is_holder_used(s, m),
        _ => true,
    }
}
