// The fields of the semaphores, in the same way as those of the tasks.
ghost use Rattle.std.specs.Prelude.{◌≡◌, ◌<◌};
ghost use Rattle.rules.specs.Sizes.{semaphore_count};
ghost use Rattle.rules.specs.Table.{semaphore_of};
ghost use Rattle.rules.specs.Sound.{each, is_sound_semaphore};
ghost use Rattle.table.specs.Image.{view};

use crate::every::every;
use table::layout;
use table::layout::Image;

// Every count of 32 bits is in range. The fields are its own, so each kind has its test.
fn is_right(s: &Image, i: usize) -> bool
    requires { i < semaphore_count }
    ensures { result ≡ is_sound_semaphore (semaphore_of (view s.now) i) }
{
    let used = table::semaphores::get_used(s, i);
    let count = table::semaphores::get_count(s, i);
    (used <= 1) & ((used != 0) | (count == 0))
}

pub fn are_right(s: &Image) -> bool
    ensures { result ≡ each semaphore_count (λ i. is_sound_semaphore (semaphore_of (view s.now) i)) }
{
    every(layout::SEMAPHORES, |i| is_right(s, i))
}
