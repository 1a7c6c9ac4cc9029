// The working priorities by the local rule: a walk that looks at the first waiters only, and stops where nothing changes. What it does is said
// of every image; that it is the walk of the rules, of sound ones without rings.
ghost use Rattle.std.specs.Prelude.{◌≡◌, ◌<◌};
ghost use Rattle.rules.specs.Sizes.{task_count, mutex_count};
ghost use Rattle.table.specs.Image.{view};
ghost use Rattle.laws.specs.local.Table.{local_in, rise, fall};
ghost use Rattle.laws.specs.local.Walk.{most};
ghost use Rattle.chain.specs.Local.{with_first};

use crate::rings;
use table::layout::Image;
use table::{layout, moves, mutexes, tasks};

// The smaller of `best` and of the number of the first waiter of mutex m, if task i holds it. Most are not its own, and their queues are left
// alone. A slot of an image that is not sound may hold a number that is no task's.
fn with_first(s: &Image, i: usize, m: usize, best: u8) -> u8
    requires { (i < task_count) × (m < mutex_count) }
    ensures { result ≡ with_first (view s.now) i m best }
{
    if mutexes::get_holder(s, m) as usize != i + 1 {
        return best;
    }
    let Some(v) = moves::first_in(s, layout::MUTEX_QUEUE + m) else {
        return best;
    };
    if layout::TASKS <= v {
        return best;
    }
    let w = tasks::get_work(s, v);
    if w < best {
        return w;
    }
    best
}

// The smallest of the base of task i and of the numbers of the first waiters of the mutexes that it holds.
fn local_of(s: &Image, i: usize) -> u8
    requires { i < task_count }
    ensures { result ≡ local_in (view s.now) i }
{
    let mut best = tasks::get_base(s, i);
    for m in 0..layout::MUTEXES {
        best = with_first(s, i, m, best);
    }
    best
}

// A chain as urgent as p leads to task i: it and those behind it rise to p, up to one that works at p or better. It calls itself with one less, as
// the rules' `rise` does: a loop would have to say at each turn what is left to do.
fn raise_on(s: &mut Image, i: usize, p: u8, left: usize)
    ensures { view s.new ≡ rise p left i (view s.old) }
{
    if left == 0 {
        return;
    }
    if layout::TASKS <= i {
        return;
    }
    if tasks::get_work(s, i) <= p {
        return;
    }
    let further = crate::next_of(s, i);
    moves::rework_task(s, i, p);
    raise_on(s, further, p, left - 1);
}

// Task i and those behind it get their local numbers, up to one that has it. No twin of `raise_on`, as each task gets another number.
fn lower_on(s: &mut Image, i: usize, left: usize)
    ensures { view s.new ≡ fall left i (view s.old) }
{
    if left == 0 {
        return;
    }
    if layout::TASKS <= i {
        return;
    }
    let p = local_of(s, i);
    if tasks::get_work(s, i) == p {
        return;
    }
    let further = crate::next_of(s, i);
    moves::rework_task(s, i, p);
    lower_on(s, further, left - 1);
}

// The whole rise to p from task i.
pub fn raise_from(s: &mut Image, i: usize, p: u8)
    ensures { view s.new ≡ rise p most i (view s.old) }
{
    raise_on(s, i, p, rings::MOST);
}

// The whole walk from task i to the local numbers.
pub fn lower_from(s: &mut Image, i: usize)
    ensures { view s.new ≡ fall most i (view s.old) }
{
    lower_on(s, i, rings::MOST);
}
