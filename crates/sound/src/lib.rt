// The standing rules, tested on an image: each field in a row over all tasks or objects, then the queues, the working priorities and who runs.
#![tactic(auto)]

ghost use Rattle.std.specs.Prelude.{◌≡◌};
ghost use Rattle.rules.specs.Sound.{is_sound_numbers, is_sound_runs, is_sound};
ghost use Rattle.table.specs.Image.{view};
ghost use Rattle.sound.specs.Whole.{may_run};

use table::layout::Image;

mod channels;
mod every;
mod groups;
mod mutexes;
mod objects;
mod queues;
mod ready;
mod semaphores;
pub mod tasks;
mod walk;
mod works;

// Whether v, a task's number plus 1 or 0 for none, may run while the scheduler is locked.
#[tactic(auto, unfolding(crate::specs::Whole::may_run))]
pub fn may_run(s: &Image, v: u8) -> bool
    ensures { result ≡ may_run (view s.now) v }
{
    if v == 0 {
        return true;
    }
    if 32 < v {
        return false;
    }
    table::moves::is_able(s, v as usize - 1)
}

// Tick counter, default quantum and lock depth. Every tick of 32 bits is in range, and every quantum of 16 but 0.
fn are_numbers_right(s: &Image) -> bool
    ensures { result ≡ is_sound_numbers (view s.now) }
{
    let quantum = table::numbers::get_default(s);
    let depth = table::numbers::get_depth(s);
    (quantum != 0) & (depth <= 250)
}

fn is_run_right(s: &Image) -> bool
    ensures { result ≡ is_sound_runs (view s.now) }
{
    let depth = table::numbers::get_depth(s);
    let v = table::numbers::get_running(s);
    if depth == 0 {
        let front = table::moves::slot_in(s, table::layout::ABLE_QUEUE, 0);
        return (v <= 32) & (v == front);
    }
    may_run(s, v)
}

// Whether the table that the image shows is sound. The queues are looked at where the tasks are right, so that each has a place. Objects that are
// not right end the test too: without that end the compiler keeps the fields of all objects on the stack until the queues are walked. The word is
// looked at along the able queue, where the queues are right.
pub fn is_sound(s: &Image) -> bool
    ensures { result ≡ is_sound (view s.now) }
{
    if !tasks::are_tasks_right(s) {
        return false;
    }
    if !objects::are_objects_right(s) {
        return false;
    }
    if !queues::are_queues_right(s) {
        return false;
    }
    ready::is_word_right(s) & (works::are_works_right(s) & (are_numbers_right(s) & is_run_right(s)))
}
