// A semaphore's fields in the image: each is read and stored alone, by a function that names its column, as in `tasks`.
#![tactic(auto, using(crate::specs::records::Semaphore::read), unfolding(crate::specs::kinds::Semaphore::made))]

ghost use Rattle.std.specs.Prelude.{◌≡◌, ◌<◌};
ghost use Rattle.rules.specs.Sizes.{semaphore_count};
ghost use Rattle.rules.specs.Table.{semaphore_of, with_semaphore, with_count};
ghost use Rattle.table.specs.Image.{view};

use crate::layout;
use crate::layout::Image;

pub fn get_used(s: &Image, i: usize) -> u8
    requires { i < semaphore_count }
    ensures { result ≡ (semaphore_of (view s.now) i).used }
{
    columns::get(s, layout::SEMAPHORE_USED, i)
}

pub fn get_count(s: &Image, i: usize) -> u32
    requires { i < semaphore_count }
    ensures { result ≡ (semaphore_of (view s.now) i).count }
{
    columns::get(s, layout::COUNT, i)
}

pub fn set_count(s: &mut Image, i: usize, count: u32)
    requires { i < semaphore_count }
    ensures { view s.new ≡ with_semaphore i (with_count count (semaphore_of (view s.old) i)) (view s.old) }
{
    columns::put(s, layout::COUNT, i, count);
}

// A whole record, of a semaphore that is created or cleared.
pub fn store(s: &mut Image, i: usize, x: rules::Semaphore)
    requires { i < semaphore_count }
    ensures { view s.new ≡ with_semaphore i x (view s.old) }
{
    columns::put(s, layout::SEMAPHORE_USED, i, x.used);
    columns::put(s, layout::COUNT, i, x.count);
}
