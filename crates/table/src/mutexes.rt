// A mutex's fields in the image: each is read and stored alone, by a function that names its column, as in `tasks`.
#![tactic(auto, using(crate::specs::records::Mutex::read), unfolding(crate::specs::kinds::Mutex::made))]

ghost use Rattle.std.specs.Prelude.{◌≡◌, ◌<◌};
ghost use Rattle.rules.specs.Sizes.{mutex_count};
ghost use Rattle.rules.specs.Table.{mutex_of, with_mutex, with_hold};
ghost use Rattle.table.specs.Image.{view};

use crate::layout;
use crate::layout::Image;

pub fn get_used(s: &Image, i: usize) -> u8
    requires { i < mutex_count }
    ensures { result ≡ (mutex_of (view s.now) i).used }
{
    columns::get(s, layout::MUTEX_USED, i)
}

pub fn get_holder(s: &Image, i: usize) -> u8
    requires { i < mutex_count }
    ensures { result ≡ (mutex_of (view s.now) i).holder }
{
    columns::get(s, layout::HOLDER, i)
}

pub fn get_nesting(s: &Image, i: usize) -> u8
    requires { i < mutex_count }
    ensures { result ≡ (mutex_of (view s.now) i).nesting }
{
    columns::get(s, layout::NESTING, i)
}

// The task that holds it, written, 0 for none, and how many times over.
pub fn set_hold(s: &mut Image, i: usize, holder: u8, nesting: u8)
    requires { i < mutex_count }
    ensures { view s.new ≡ with_mutex i (with_hold holder nesting (mutex_of (view s.old) i)) (view s.old) }
{
    columns::put(s, layout::HOLDER, i, holder);
    columns::put(s, layout::NESTING, i, nesting);
}

// A whole record, of a mutex that is created or cleared.
pub fn store(s: &mut Image, i: usize, x: rules::Mutex)
    requires { i < mutex_count }
    ensures { view s.new ≡ with_mutex i x (view s.old) }
{
    columns::put(s, layout::MUTEX_USED, i, x.used);
    columns::put(s, layout::HOLDER, i, x.holder);
    columns::put(s, layout::NESTING, i, x.nesting);
}
