// A group's fields in the image: each is read and stored alone, by a function that names its column, as in `tasks`.
#![tactic(auto, using(crate::specs::records::Group::read), unfolding(crate::specs::kinds::Group::made))]

ghost use Rattle.std.specs.Prelude.{◌≡◌, ◌<◌};
ghost use Rattle.rules.specs.Sizes.{group_count};
ghost use Rattle.rules.specs.Table.{group_of, with_group, with_flags};
ghost use Rattle.table.specs.Image.{view};

use crate::layout;
use crate::layout::Image;

pub fn get_used(s: &Image, i: usize) -> u8
    requires { i < group_count }
    ensures { result ≡ (group_of (view s.now) i).used }
{
    columns::get(s, layout::GROUP_USED, i)
}

pub fn get_flags(s: &Image, i: usize) -> u32
    requires { i < group_count }
    ensures { result ≡ (group_of (view s.now) i).flags }
{
    columns::get(s, layout::FLAGS, i)
}

pub fn set_flags(s: &mut Image, i: usize, flags: u32)
    requires { i < group_count }
    ensures { view s.new ≡ with_group i (with_flags flags (group_of (view s.old) i)) (view s.old) }
{
    columns::put(s, layout::FLAGS, i, flags);
}

// A whole record, of a group that is created or cleared.
pub fn store(s: &mut Image, i: usize, x: rules::Group)
    requires { i < group_count }
    ensures { view s.new ≡ with_group i x (view s.old) }
{
    columns::put(s, layout::GROUP_USED, i, x.used);
    columns::put(s, layout::FLAGS, i, x.flags);
}
