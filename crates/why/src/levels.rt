// The rule on the levels of the word of ready levels: a level's bit is set exactly if an able task has that working priority.
ghost use Rattle.std.specs.Prelude.{◌≡◌, ◌<◌};
ghost use Rattle.rules.specs.Sizes.{task_count, level_count};
ghost use Rattle.rules.specs.Ready.{is_set};
ghost use Rattle.table.specs.Image.{view};
ghost use Rattle.why.specs.Tests.{kept_in, level_tests, has_able, is_level_right};

use table::layout::Image;
use table::{layout, moves, numbers, tasks};

// The levels, which are the records of this rule.
pub const RECORDS: usize = 64;

// Whether the level's bit is set. Level 0 has the top bit.
fn is_set(word: u64, l: u8) -> bool
    requires { l < level_count }
    ensures { result ≡ is_set l word }
{
    (word >> (63 - l)) % 2 == 1
}

// Whether an able task has the level.
fn has_able(s: &Image, l: u8) -> bool
    ensures { result ≡ has_able task_count l (view s.now) }
{
    let mut found = false;
    for i in 0..layout::TASKS {
        found = found | (moves::is_able(s, i) & (tasks::get_work(s, i) == l));
    }
    found
}

#[tactic(auto, unfolding(crate::specs::Tests::is_level_right))]
fn is_level_right(s: &Image, l: u8) -> bool
    requires { l < level_count }
    ensures { result ≡ is_level_right (view s.now) l }
{
    is_set(numbers::get_ready(s), l) == has_able(s, l)
}

#[tactic(auto, unfolding(crate::specs::Tests::kept_in))]
pub fn is_right(s: &Image, rule: u32, i: usize) -> bool
    ensures { result ≡ kept_in level_tests rule i (view s.now) }
{
    if RECORDS <= i {
        return true;
    }
    match rule {
        0xB8 => is_level_right(s, i as u8),
        _ => true,
    }
}
