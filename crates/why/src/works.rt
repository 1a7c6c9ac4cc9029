// The working priority of a task, held against the one worked out afresh, and its due mark against the tick counter.
ghost use Rattle.std.specs.Prelude.{◌≡◌, ◌<◌, eqb};
ghost use Rattle.rules.specs.Sizes.{task_count};
ghost use Rattle.rules.specs.Table.{task_of};
ghost use Rattle.rules.specs.Move.{fresh_in};
ghost use Rattle.table.specs.Image.{view};
ghost use Rattle.why.specs.Tests.{kept_in, work_tests};

use table::layout::Image;
use table::{numbers, tasks};

fn is_worked(s: &Image, i: usize) -> bool
    requires { i < task_count }
    ensures { result ≡ eqb (task_of (view s.now) i).work (fresh_in (view s.now) i) }
{
    let mut given = [255u8; 32];
    chain::carry_all(s, &mut given);
    let fresh = chain::fresh_of(s, &given, i);
    tasks::get_work(s, i) == fresh
}

#[tactic(auto, unfolding(crate::specs::Tests::kept_in))]
pub fn is_right(s: &Image, rule: u32, i: usize) -> bool
    ensures { result ≡ kept_in work_tests rule i (view s.now) }
{
    if 32 <= i {
        return true;
    }
    match rule {
        0xA0 => is_worked(s, i),
        0xA1 => (tasks::get_marked(s, i) != 1) | (tasks::get_due(s, i) != numbers::get_tick(s)),
        _ => true,
    }
}
