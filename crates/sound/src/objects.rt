// The fields of the objects.
ghost use Rattle.std.specs.Prelude.{◌≡◌};
ghost use Rattle.table.specs.Image.{view};
ghost use Rattle.sound.specs.Rows.{are_objects_sound};

use crate::{channels, groups, mutexes, semaphores};
use table::layout::Image;

// Each object by itself.
pub fn are_objects_right(s: &Image) -> bool
    ensures { result ≡ are_objects_sound (view s.now) }
{
    semaphores::are_right(s)
        & (mutexes::are_right(s) & (groups::are_right(s) & channels::are_right(s)))
}
