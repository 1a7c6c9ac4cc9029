// The tick.
#![tactic(auto)]

ghost use Rattle.std.specs.Prelude.{◌≡◌, ◌-◌, ◌<◌, ◌&&◌, ◌==◌};
ghost use Rattle.rules.specs.Sizes.{task_count};
ghost use Rattle.rules.specs.Move.{chosen, has_peer};
ghost use Rattle.rules.specs.Tick.{turned, is_due, due_ended, due_below, ticked};
ghost use Rattle.table.specs.Image.{view};
ghost use Rattle.tick.specs.Marks.{is_at, some_at};

use service::ending;
use table::layout::Image;
use table::{layout, moves, numbers, tasks};
use time::peer;

// Whether the turn of task i, which has so much left, is over.
fn is_over(s: &Image, i: usize, left: u16) -> bool
    ensures { result ≡ (left == 0) && ((view s.now).depth == 0 && has_peer i (view s.now)) }
{
    let d = numbers::get_depth(s);
    if !((left == 0) & (d == 0)) {
        return false;
    }
    peer::has_peer(s, i)
}

// What is left of the running task's quantum falls, and at 0 its turn ends.
fn turn(s: &mut Image)
    ensures { view s.new ≡ turned (view s.old) }
{
    let i = numbers::caller_of(s);
    if layout::TASKS <= i {
        return;
    }
    if numbers::get_running(s) == 0 {
        return;
    }
    let left = tasks::get_left(s, i).saturating_sub(1);
    tasks::set_left(s, i, left);
    if is_over(s, i, left) {
        moves::rotate_task(s, i);
    }
}

fn is_due(s: &Image, i: usize) -> bool
    requires { i < task_count }
    ensures { result ≡ is_due i (view s.now) }
{
    let marked = tasks::get_marked(s, i);
    let due = tasks::get_due(s, i);
    let now = numbers::get_tick(s);
    (marked == 1) & (due == now)
}

// The wait or delay of task i ends, if its mark is the tick.
fn end_due(s: &mut Image, i: usize)
    requires { i < task_count }
    ensures { view s.new ≡ due_ended i (view s.old) }
{
    if !is_due(s, i) {
        return;
    }
    if tasks::get_state(s, i) == tasks::DELAYED {
        ending::end_wait(s, ending::GIVEN, i);
        return;
    }
    ending::end_wait(s, ending::TIMED_OUT, i);
}

// Whether the due mark of task i is the tick `at`.
fn is_at(s: &Image, i: usize, at: u32) -> bool
    requires { i < task_count }
    ensures { result ≡ is_at i at (view s.now) }
{
    tasks::get_due(s, i) == at
}

// Whether a due mark is the tick `at`. No branch for a task, so that the compiler takes many at once.
fn any_at(s: &Image, at: u32) -> bool
    ensures { result ≡ some_at task_count at (view s.now) }
{
    let mut any = false;
    for i in 0..layout::TASKS {
        any = is_at(s, i, at) | any;
    }
    any
}

// Most marks lie ahead: where none is the tick, no task is asked.
fn end_all_due(s: &mut Image)
    ensures { view s.new ≡ due_below task_count (view s.old) }
{
    let at = numbers::get_tick(s);
    if !any_at(s, at) {
        return;
    }
    for i in 0..layout::TASKS {
        end_due(s, i);
    }
}

pub fn tick_once(s: &mut Image)
    ensures { view s.new ≡ chosen (ticked (view s.old)) }
{
    let n = numbers::get_tick(s);
    numbers::set_tick(s, n.wrapping_add(1));
    turn(s);
    end_all_due(s);
    moves::choose(s);
}
