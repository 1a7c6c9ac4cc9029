// The fields of the message queues, called channels, in the same way as those of the tasks, and their rows of messages.
ghost use Rattle.std.specs.Prelude.{◌≡◌, ◌<◌};
ghost use Rattle.rules.specs.Sizes.{channel_count};
ghost use Rattle.rules.specs.Table.{channel_of, row_of};
ghost use Rattle.rules.specs.Sound.{each, is_sound_channel};
ghost use Rattle.table.specs.Image.{view};
ghost use Rattle.sound.specs.Channels.{has_sound_room, are_free_from, is_row_sound};

use crate::every::every;
use table::layout::Image;
use table::{channels, layout};

// What is in use has room for a message, and no other has.
#[tactic(auto, unfolding(crate::specs::Channels::has_sound_room))]
fn has_right_room(s: &Image, c: usize) -> bool
    requires { c < channel_count }
    ensures { result ≡ has_sound_room (channel_of (view s.now) c) }
{
    let used = channels::get_used(s, c);
    let capacity = channels::get_capacity(s, c);
    let held = channels::get_held(s, c);
    let room = ((used != 0) | (capacity == 0)) & ((used != 1) | (capacity != 0));
    (used <= 1) & ((capacity <= 32) & ((held <= capacity) & room))
}

fn are_rooms_right(s: &Image) -> bool
    ensures { result ≡ each channel_count (λ c. has_sound_room (channel_of (view s.now) c)) }
{
    every(layout::CHANNELS, |c| has_right_room(s, c))
}

// Whether the slots of the row of channel c from `from` on are 0: none is looked at by itself, so that the compiler takes four at once.
fn are_free_from(s: &Image, c: usize, from: usize) -> bool
    requires { c < channel_count }
    ensures { result ≡ are_free_from from (row_of (view s.now) c) }
{
    let mut any: u32 = 0;
    for j in from..layout::MOST_MESSAGES {
        any |= channels::get_message_at(s, c, j);
    }
    any == 0
}

// Whether the slots without a message are 0. Most channels hold none: there the compiler knows how many slots to take, and needs no loop.
fn is_row_right(s: &Image, c: usize) -> bool
    requires { c < channel_count }
    ensures { result ≡ is_row_sound (view s.now) c }
{
    let held = channels::get_held(s, c);
    if held == 0 {
        return are_free_from(s, c, 0);
    }
    are_free_from(s, c, held as usize)
}

// Every number of 32 bits is a message, so those that are held need no test. A row that is not right ends it.
fn are_rows_right(s: &Image) -> bool
    ensures { result ≡ each channel_count (is_row_sound (view s.now)) }
{
    for c in 0..layout::CHANNELS {
        if !is_row_right(s, c) {
            return false;
        }
    }
    true
}

// Records that are not right end the test: without that end the compiler keeps them all until the rows are done.
pub fn are_right(s: &Image) -> bool
    ensures { result ≡ each channel_count (λ c. is_sound_channel (channel_of (view s.now) c) (row_of (view s.now) c)) }
{
    if !are_rooms_right(s) {
        return false;
    }
    are_rows_right(s)
}
