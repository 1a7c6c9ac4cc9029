// The messages of a channel as a whole, the next one first. They stand packed from the first slot of its row on, a slot behind them is not touched,
// and the work goes by how many there are. All of it holds in every image, also in one that is not sound and says that more messages are held
// than there are slots.
ghost use Rattle.std.specs.Prelude.{◌≡◌, [], ◌∷◌, ◌++◌, ◌≤◌, ◌<◌, length, get_or, set, drop};
ghost use Rattle.rules.specs.Sizes.{channel_count, most_messages};
ghost use Rattle.rules.specs.Table.{row_of, with_row};
ghost use Rattle.rules.specs.Messages.{present, holding};
ghost use Rattle.table.specs.Image.{view};

use crate::layout::Image;
use crate::{channels, layout};

// How many there are.
pub fn count_in(s: &Image, c: usize) -> usize
    requires { c < channel_count }
    ensures { (result ≡ length (present (view s.now) c)) × (result ≤ most_messages) }
{
    (channels::get_held(s, c) as usize).min(layout::MOST_MESSAGES)
}

// The next one; 0 where there is none, as the rules have it: who calls it has asked for that first.
pub fn first_of(s: &Image, c: usize) -> u32
    requires { c < channel_count }
    ensures { result ≡ get_or (present (view s.now) c) 0 0 }
{
    if channels::get_held(s, c) == 0 {
        return 0;
    }
    channels::get_message_at(s, c, 0)
}

// Slot j of the row becomes v, if there is such a slot.
fn put_slot(s: &mut Image, c: usize, j: usize, v: u32)
    requires { c < channel_count }
    ensures { view s.new ≡ with_row c (set (row_of (view s.old) c) j v) (view s.old) }
{
    if layout::MOST_MESSAGES <= j {
        return;
    }
    channels::put_message_at(s, c, j, v);
}

// The message v comes last.
pub fn add_last(s: &mut Image, c: usize, v: u32)
    requires { c < channel_count }
    ensures { view s.new ≡ holding c (present (view s.old) c ++ (v ∷ [])) (view s.old) }
{
    let n = count_in(s, c);
    put_slot(s, c, n, v);
    channels::set_held(s, c, n as u8 + 1);
}

// The message v comes first, and each of the others moves one further.
pub fn add_first(s: &mut Image, c: usize, v: u32)
    requires { c < channel_count }
    ensures { view s.new ≡ holding c (v ∷ present (view s.old) c) (view s.old) }
{
    let n = count_in(s, c);
    let mut carry = v;
    for i in 0..n {
        let next = channels::get_message_at(s, c, i);
        channels::put_message_at(s, c, i, carry);
        carry = next;
    }
    put_slot(s, c, n, carry);
    channels::set_held(s, c, n as u8 + 1);
}

// The first message goes, if there is one, and each of the others moves one nearer.
pub fn take_first(s: &mut Image, c: usize)
    requires { c < channel_count }
    ensures { view s.new ≡ holding c (drop 1 (present (view s.old) c)) (view s.old) }
{
    let n = count_in(s, c);
    if n == 0 {
        return;
    }
    let last = n - 1;
    for i in 0..last {
        let next = channels::get_message_at(s, c, i + 1);
        channels::put_message_at(s, c, i, next);
    }
    channels::put_message_at(s, c, last, 0);
    channels::set_held(s, c, last as u8);
}

// Slot j becomes 0, by a store only where it is not: of a loop that always stores zeros compilers make a call of memset, and a board may have no
// C library.
fn empty_slot(s: &mut Image, c: usize, j: usize)
    requires { (c < channel_count) × (j < most_messages) }
    ensures { view s.new ≡ with_row c (set (row_of (view s.old) c) j 0) (view s.old) }
{
    if channels::get_message_at(s, c, j) == 0 {
        return;
    }
    channels::put_message_at(s, c, j, 0);
}

// All of them go.
pub fn clear(s: &mut Image, c: usize)
    requires { c < channel_count }
    ensures { view s.new ≡ holding c [] (view s.old) }
{
    let n = count_in(s, c);
    for i in 0..n {
        empty_slot(s, c, i);
    }
    channels::set_held(s, c, 0);
}
