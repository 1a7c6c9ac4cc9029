// Waits and delays that end.
ghost use Rattle.std.specs.Prelude.{◌≡◌, ◌<◌};
ghost use Rattle.rules.specs.Sizes.{task_count, delayed};
ghost use Rattle.rules.specs.Table.{task_of, with_state, with_mark};
ghost use Rattle.rules.specs.Move.{put, away, ready, ended, ended_all};
ghost use Rattle.table.specs.Image.{view};

use chain::walk;
use table::layout::Image;
use table::{layout, moves, tasks};

// What a wait comes to. These are numbers and no enum, since what follows is promised of every number.
pub const GIVEN: u8 = 0;

pub const TIMED_OUT: u8 = 1;

pub const ABORTED: u8 = 2;

pub const OBJECT_DELETED: u8 = 3;

// Task i leaves its queue and is delayed, with this due mark, or 0 and 0 for none: the image's two fields, and any bytes of them, as
// the rules' `with_mark` takes them. A number that is no task's changes nothing.
pub fn delay_task(s: &mut Image, i: usize, marked: u8, due: u32)
    ensures { view s.new ≡ put i (with_state delayed 0 (with_mark marked due (task_of (view s.old) i))) (view s.old) }
{
    if layout::TASKS <= i {
        return;
    }
    let q = moves::place_of(s, i);
    tasks::set_state(s, i, tasks::DELAYED, 0);
    tasks::set_mark(s, i, marked, due);
    moves::leave_queue(s, q, i);
}

// Task i becomes plain, with this outcome, and goes where it stands now. A number that is no task's changes nothing.
pub fn stand_ready(s: &mut Image, i: usize, outcome: u8)
    ensures { view s.new ≡ put i (ready outcome (task_of (view s.old) i)) (view s.old) }
{
    if layout::TASKS <= i {
        return;
    }
    let q = moves::place_of(s, i);
    tasks::set_state(s, i, tasks::PLAIN, 0);
    tasks::set_mark(s, i, 0, 0);
    tasks::set_outcome(s, i, outcome);
    moves::settle(s, i, q);
}

// The same of a task that is away: it stands nowhere and has no mark.
fn come_back(s: &mut Image, i: usize, outcome: u8)
    requires { (i < task_count) × (away (task_of (view s.old) i) ≡ task_of (view s.old) i) }
    ensures { view s.new ≡ put i (ready outcome (task_of (view s.old) i)) (view s.old) }
{
    tasks::set_state(s, i, tasks::PLAIN, 0);
    tasks::set_outcome(s, i, outcome);
    let q = moves::place_of(s, i);
    moves::join_queue(s, q, i);
}

// Task i leaves its queue, the chain from the holder moves, and it becomes plain.
pub fn end_wait(s: &mut Image, outcome: u8, i: usize)
    ensures { view s.new ≡ ended outcome i (view s.old) }
{
    if layout::TASKS <= i {
        return;
    }
    let holder = chain::next_of(s, i);
    delay_task(s, i, 0, 0);
    walk::walk_from(s, holder);
    come_back(s, i, outcome);
}

// The wait of each waiter of queue q ends, from the first.
pub fn end_all(s: &mut Image, outcome: u8, q: usize)
    ensures { view s.new ≡ ended_all task_count outcome q (view s.old) }
{
    for _ in 0..layout::TASKS {
        let Some(w) = moves::first_in(s, q) else {
            return;
        };
        end_wait(s, outcome, w);
    }
}
