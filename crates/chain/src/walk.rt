// The walk along the chain of holders.
ghost use Rattle.std.specs.Prelude.{◌≡◌, ◌≤◌, ◌<◌};
ghost use Rattle.rules.specs.Sizes.{task_count};
ghost use Rattle.rules.specs.Walk.{walk_on};
ghost use Rattle.rules.specs.Move.{next, fresh_in, put_work, walk};
ghost use Rattle.table.specs.Image.{view};
ghost use Rattle.chain.specs.Given.{Given};

use crate::Priorities;
use table::layout::Image;
use table::{layout, moves, tasks};

// Where a walk stands, and how many tasks at most it has before it.
#[derive(Clone, Copy)]
struct Stand {
    task: usize,
    left: usize,
}

// The walk goes past the tasks that work at the right number already: they stay as they are.
fn pass_right(s: &Image, given: &Priorities, i: usize, left: usize) -> Stand
    requires { Given (view s.now) given.now }
    ensures { (result.left ≤ left) × (walk_on task_count next fresh_in put_work left i (view s.now) ≡ walk_on task_count next fresh_in put_work result.left result.task (view s.now)) }
{
    let mut at = i;
    for passed in 0..left {
        if layout::TASKS <= at {
            return Stand {
                task: at,
                left: left - passed,
            };
        }
        let p = crate::fresh_of(s, given, at);
        if tasks::get_work(s, at) != p {
            return Stand {
                task: at,
                left: left - passed,
            };
        }
        at = crate::next_of(s, at);
    }
    Stand { task: at, left: 0 }
}

// From task i along the holders, `left` tasks at most: each gets its working priority worked out afresh. These do not change on the way,
// so what each task is given along the chains has been found out before. It calls itself with one less, as the rules' `walk_on` does.
fn walk_on(s: &mut Image, given: &Priorities, i: usize, left: usize)
    requires { Given (view s.old) given.now }
    ensures { view s.new ≡ walk_on task_count next fresh_in put_work left i (view s.old) }
{
    let stand = pass_right(s, given, i, left);
    let at = stand.task;
    let n = stand.left;
    if n == 0 {
        return;
    }
    if layout::TASKS <= at {
        return;
    }
    let further = crate::next_of(s, at);
    let p = crate::fresh_of(s, given, at);
    moves::rework_task(s, at, p);
    walk_on(s, given, further, n - 1);
}

// The whole walk from task i.
pub fn walk_from(s: &mut Image, i: usize)
    ensures { view s.new ≡ walk i (view s.old) }
{
    if layout::TASKS <= i {
        return;
    }
    let mut given = [255u8; layout::TASKS];
    crate::carry_all(s, &mut given);
    walk_on(s, &given, i, layout::TASKS);
}
