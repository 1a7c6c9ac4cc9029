// The word of ready levels, against the able queue.
ghost use Rattle.std.specs.Prelude.{◌≡◌};
ghost use Rattle.rules.specs.Table.{queue_of, able_queue, works};
ghost use Rattle.rules.specs.Sound.{SoundQueues, is_sound_ready};
ghost use Rattle.table.specs.Image.{view};
ghost use Rattle.sound.specs.Ready.{worded, levels_from};

use table::layout::Image;
use table::{layout, levels, moves, numbers, tasks};

// The levels of the tasks in the able queue, from its front on: fewer than all tasks, mostly.
fn levels_along(s: &Image) -> u64
    requires { SoundQueues (worded (view s.now)) }
    ensures { result ≡ levels_from (works (view s.now)) 0 (queue_of (view s.now) able_queue) }
{
    let mut word: u64 = 0;
    for j in 0..layout::SLOTS {
        let v = moves::slot_in(s, layout::ABLE_QUEUE, j);
        if v == 0 {
            return word;
        }
        word = levels::with_level(word, tasks::get_work(s, v as usize - 1));
    }
    word
}

pub fn is_word_right(s: &Image) -> bool
    requires { SoundQueues (worded (view s.now)) }
    ensures { result ≡ is_sound_ready (view s.now) }
{
    levels_along(s) == numbers::get_ready(s)
}
