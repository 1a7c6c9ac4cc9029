// The fields of the groups of flags, in the same way as those of the tasks.
ghost use Rattle.std.specs.Prelude.{◌≡◌, ◌<◌};
ghost use Rattle.rules.specs.Sizes.{group_count};
ghost use Rattle.rules.specs.Table.{group_of};
ghost use Rattle.rules.specs.Sound.{each, is_sound_group};
ghost use Rattle.table.specs.Image.{view};

use crate::every::every;
use table::layout;
use table::layout::Image;

// Every set of 32 flags is in range. The fields are its own, so each kind has its test.
fn is_right(s: &Image, i: usize) -> bool
    requires { i < group_count }
    ensures { result ≡ is_sound_group (group_of (view s.now) i) }
{
    let used = table::groups::get_used(s, i);
    let flags = table::groups::get_flags(s, i);
    (used <= 1) & ((used != 0) | (flags == 0))
}

pub fn are_right(s: &Image) -> bool
    ensures { result ≡ each group_count (λ i. is_sound_group (group_of (view s.now) i)) }
{
    every(layout::GROUPS, |i| is_right(s, i))
}
