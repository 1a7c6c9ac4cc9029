// The rules on the single numbers, and who runs.
ghost use Rattle.std.specs.Prelude.{◌≡◌};
ghost use Rattle.table.specs.Image.{view};
ghost use Rattle.why.specs.Tests.{kept_in, single_tests, may_run};

use table::layout::Image;
use table::{layout, moves, numbers};

// Whether v, a task's number plus 1 or 0 for none, may run while the scheduler is locked. As `objects_in`, it is no function of `sound`.
#[tactic(auto, unfolding(crate::specs::Tests::may_run))]
fn may_run(s: &Image, v: u8) -> bool
    ensures { result ≡ may_run (view s.now) v }
{
    if v == 0 {
        return true;
    }
    if 32 < v {
        return false;
    }
    moves::is_able(s, v as usize - 1)
}

#[tactic(auto, unfolding(crate::specs::Tests::kept_in))]
pub fn is_right(s: &Image, rule: u32, i: usize) -> bool
    ensures { result ≡ kept_in single_tests rule i (view s.now) }
{
    if 1 <= i {
        return true;
    }
    let depth = numbers::get_depth(s);
    let v = numbers::get_running(s);
    match rule {
        0xB0 => (numbers::get_tick(s) as u64) < 4294967296,
        0xB1 => depth <= 250,
        0xB2 => v <= 32,
        0xB3 => (depth != 0) | (v == moves::slot_in(s, layout::ABLE_QUEUE, 0)),
        0xB4 => (depth == 0) | may_run(s, v),
        0xB5 => 1 <= numbers::get_default(s),
        0xB6 => (numbers::get_default(s) as u32) <= 65535,
        0xB7 => numbers::get_ready(s) <= 18446744073709551615,
        _ => true,
    }
}
