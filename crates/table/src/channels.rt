// The fields in the image of a message queue, called a channel, since a queue is a row of tasks: each is read and stored alone, by a function that names its
// column, as in `tasks`, and so is each slot of its row of messages. `messages` has the messages as a whole.
#![tactic(auto, using(crate::specs::records::Channel::read), unfolding(crate::specs::kinds::Channel::made))]

ghost use Rattle.std.specs.Prelude.{◌≡◌, ◌<◌, get_or, set};
ghost use Rattle.rules.specs.Sizes.{channel_count, most_messages};
ghost use Rattle.rules.specs.Table.{channel_of, row_of, with_channel, with_held, with_row};
ghost use Rattle.table.specs.Image.{view};

use crate::layout;
use crate::layout::Image;

pub fn get_used(s: &Image, i: usize) -> u8
    requires { i < channel_count }
    ensures { result ≡ (channel_of (view s.now) i).used }
{
    columns::get(s, layout::CHANNEL_USED, i)
}

pub fn get_capacity(s: &Image, i: usize) -> u8
    requires { i < channel_count }
    ensures { result ≡ (channel_of (view s.now) i).capacity }
{
    columns::get(s, layout::CAPACITY, i)
}

pub fn get_held(s: &Image, i: usize) -> u8
    requires { i < channel_count }
    ensures { result ≡ (channel_of (view s.now) i).held }
{
    columns::get(s, layout::HELD, i)
}

pub fn set_held(s: &mut Image, i: usize, held: u8)
    requires { i < channel_count }
    ensures { view s.new ≡ with_channel i (with_held held (channel_of (view s.old) i)) (view s.old) }
{
    columns::put(s, layout::HELD, i, held);
}

// A whole record, of a channel that is created or cleared.
pub fn store(s: &mut Image, i: usize, x: rules::Channel)
    requires { i < channel_count }
    ensures { view s.new ≡ with_channel i x (view s.old) }
{
    columns::put(s, layout::CHANNEL_USED, i, x.used);
    columns::put(s, layout::CAPACITY, i, x.capacity);
    columns::put(s, layout::HELD, i, x.held);
}

// Slot j of its row.
pub fn get_message_at(s: &Image, i: usize, j: usize) -> u32
    requires { (i < channel_count) × (j < most_messages) }
    ensures { result ≡ get_or (row_of (view s.now) i) j 0 }
{
    columns::get(s, layout::MESSAGES + layout::ROW * i, j)
}

pub fn put_message_at(s: &mut Image, i: usize, j: usize, v: u32)
    requires { (i < channel_count) × (j < most_messages) }
    ensures { view s.new ≡ with_row i (set (row_of (view s.old) i) j v) (view s.old) }
{
    columns::put(s, layout::MESSAGES + layout::ROW * i, j, v);
}
