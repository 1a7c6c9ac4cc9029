// The working priorities, held against those worked out afresh for all tasks together.
ghost use Rattle.std.specs.Prelude.{◌≡◌};
ghost use Rattle.rules.specs.Sound.{is_worked_out};
ghost use Rattle.table.specs.Image.{view};
ghost use Rattle.chain.specs.Given.{Given};

use crate::every::every;
use chain::Priorities;
use table::layout;
use table::layout::Image;

// In place of a priority: nobody waits for what this task holds. Behind all levels, as `chain` asks.
const NONE_GIVEN: u8 = 255;

#[tactic(auto, unfolding(rules::specs::Sound::is_worked_out))]
fn are_works(s: &Image, given: &Priorities) -> bool
    requires { Given (view s.now) given.now }
    ensures { result ≡ is_worked_out (view s.now) }
{
    every(layout::TASKS, |i| {
        table::tasks::get_work(s, i) == chain::fresh_of(s, given, i)
    })
}

pub fn are_works_right(s: &Image) -> bool
    ensures { result ≡ is_worked_out (view s.now) }
{
    let mut given = [NONE_GIVEN; layout::TASKS];
    chain::carry_all(s, &mut given);
    are_works(s, &given)
}
