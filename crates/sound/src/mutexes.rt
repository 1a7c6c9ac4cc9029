// The fields of the mutexes, in the same way as those of the tasks.
ghost use Rattle.std.specs.Prelude.{◌≡◌, ◌<◌};
ghost use Rattle.rules.specs.Sizes.{mutex_count};
ghost use Rattle.rules.specs.Table.{mutex_of};
ghost use Rattle.rules.specs.Sound.{each, is_sound_mutex};
ghost use Rattle.table.specs.Image.{view};

use crate::every::every;
use table::layout;
use table::layout::Image;

// What is held is in use.
fn is_right(s: &Image, i: usize) -> bool
    requires { i < mutex_count }
    ensures { result ≡ is_sound_mutex (mutex_of (view s.now) i) }
{
    let used = table::mutexes::get_used(s, i);
    let holder = table::mutexes::get_holder(s, i);
    let nesting = table::mutexes::get_nesting(s, i);
    let unheld = (holder != 0) | (nesting == 0);
    let held = (holder == 0) | ((nesting != 0) & (used != 0));
    (used <= 1) & ((holder <= 32) & ((nesting <= 250) & (unheld & held)))
}

pub fn are_right(s: &Image) -> bool
    ensures { result ≡ each mutex_count (λ i. is_sound_mutex (mutex_of (view s.now) i)) }
{
    every(layout::MUTEXES, |i| is_right(s, i))
}
