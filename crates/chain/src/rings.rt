// Rings: whether a wait would close one, and whether there is one.
ghost use Rattle.std.specs.Prelude.{◌≡◌, leb};
ghost use Rattle.rules.specs.Sizes.{task_count};
ghost use Rattle.rules.specs.Chain.{after, leads};
ghost use Rattle.rules.specs.Move.{next};
ghost use Rattle.table.specs.Image.{view};
ghost use Rattle.laws.specs.local.Local.{ringless};
ghost use Rattle.laws.specs.local.Walk.{most};

use table::layout;
use table::layout::Image;

// How many tasks a chain that is no ring has at most: its waits are for different mutexes.
pub const MOST: usize = layout::MUTEXES + 1;

// Whether a chain of waits leads from task h to task c.
pub fn leads_to(s: &Image, h: usize, c: usize) -> bool
    ensures { result ≡ leads task_count (next (view s.now)) task_count h c }
{
    let mut at = h;
    for _ in 0..layout::TASKS {
        if at == c {
            return true;
        }
        if layout::TASKS <= at {
            return false;
        }
        at = crate::next_of(s, at);
    }
    false
}

// Whether the chain from task j has an end.
fn runs_out(s: &Image, j: usize) -> bool
    ensures { result ≡ leb task_count (after (next (view s.now)) most j) }
{
    let mut at = j;
    for _ in 0..MOST {
        if layout::TASKS <= at {
            return true;
        }
        at = crate::next_of(s, at);
    }
    layout::TASKS <= at
}

// Whether each chain has an end: there is no ring. It stops at the first that has none.
pub fn no_rings(s: &Image) -> bool
    ensures { result ≡ ringless task_count (next (view s.now)) most task_count }
{
    for j in 0..layout::TASKS {
        if !runs_out(s, j) {
            return false;
        }
    }
    true
}
