// The rules on the fields of a message queue, called a channel, since a queue is a row of tasks; and those on its messages.
ghost use Rattle.std.specs.Prelude.{◌≡◌, ◌<◌, eqb, leb, get_or};
ghost use Rattle.rules.specs.Sizes.{channel_count, most_messages};
ghost use Rattle.rules.specs.Table.{channel_of, row_of};
ghost use Rattle.rules.specs.Sound.{implies, is_no_channel};
ghost use Rattle.table.specs.Image.{view};
ghost use Rattle.why.specs.Tests.{kept_in, channel_tests, message_tests};

use table::layout::Image;
use table::{channels, layout};

// The slots of all rows, which are the records of the rules on messages.
pub const MESSAGES: usize = layout::CHANNELS * layout::MOST_MESSAGES;

// A free channel has zero fields. They are its own, so each kind has its test.
fn is_free_right(s: &Image, i: usize) -> bool
    requires { i < channel_count }
    ensures { result ≡ implies (eqb (channel_of (view s.now) i).used 0) (is_no_channel (channel_of (view s.now) i)) }
{
    let used = channels::get_used(s, i);
    let capacity = channels::get_capacity(s, i);
    let held = channels::get_held(s, i);
    (used != 0) | ((capacity == 0) & (held == 0))
}

#[tactic(auto, unfolding(crate::specs::Tests::kept_in))]
pub fn is_right(s: &Image, rule: u32, i: usize) -> bool
    ensures { result ≡ kept_in channel_tests rule i (view s.now) }
{
    if 16 <= i {
        return true;
    }
    match rule {
        0x50 => channels::get_used(s, i) <= 1,
        0x51 => channels::get_capacity(s, i) <= 32,
        0x52 => channels::get_held(s, i) <= channels::get_capacity(s, i),
        0x53 => is_free_right(s, i),
        0x54 => (channels::get_used(s, i) != 1) | (1 <= channels::get_capacity(s, i)),
        _ => true,
    }
}

// Slot j of channel c holds a message, or it is 0.
fn is_unused_right(s: &Image, c: usize, j: usize) -> bool
    requires { (c < channel_count) × (j < most_messages) }
    ensures { result ≡ implies (leb (channel_of (view s.now) c).held j) (eqb (get_or (row_of (view s.now) c) j 0) 0) }
{
    if j < channels::get_held(s, c) as usize {
        return true;
    }
    channels::get_message_at(s, c, j) == 0
}

// Slot j of channel c is number 32 c + j.
#[tactic(auto, unfolding(crate::specs::Tests::kept_in))]
pub fn is_message_right(s: &Image, rule: u32, n: usize) -> bool
    ensures { result ≡ kept_in message_tests rule n (view s.now) }
{
    if MESSAGES <= n {
        return true;
    }
    match rule {
        0x55 => channels::get_message_at(s, n / 32, n % 32) <= 4294967295,
        0x56 => is_unused_right(s, n / 32, n % 32),
        _ => true,
    }
}
