// The single numbers of the image: tick counter, default quantum, lock depth, who runs, and the word of ready levels. Each has a function
// that names its column, as in `tasks`.
ghost use Rattle.std.specs.Prelude.{◌≡◌, ◌<◌};
ghost use Rattle.rules.specs.Table.{with_tick, with_default_quantum, with_depth, with_running, with_ready};
ghost use Rattle.rules.specs.Time.{caller_of};
ghost use Rattle.table.specs.Image.{view};

use crate::layout;
use crate::layout::Image;

pub fn get_tick(s: &Image) -> u32
    ensures { result ≡ (view s.now).tick }
{
    columns::get(s, layout::TICK, 0)
}

pub fn set_tick(s: &mut Image, n: u32)
    ensures { view s.new ≡ with_tick n (view s.old) }
{
    columns::put(s, layout::TICK, 0, n);
}

pub fn get_default(s: &Image) -> u16
    ensures { result ≡ (view s.now).default_quantum }
{
    columns::get(s, layout::DEFAULT_QUANTUM, 0)
}

pub fn set_default(s: &mut Image, n: u16)
    ensures { view s.new ≡ with_default_quantum n (view s.old) }
{
    columns::put(s, layout::DEFAULT_QUANTUM, 0, n);
}

pub fn get_depth(s: &Image) -> u8
    ensures { result ≡ (view s.now).depth }
{
    columns::get(s, layout::DEPTH, 0)
}

pub fn set_depth(s: &mut Image, n: u8)
    ensures { view s.new ≡ with_depth n (view s.old) }
{
    columns::put(s, layout::DEPTH, 0, n);
}

// Who runs: the task's number plus 1, 0 for none.
pub fn get_running(s: &Image) -> u8
    ensures { result ≡ (view s.now).running }
{
    columns::get(s, layout::RUNNING, 0)
}

// The running task's number; 0 where none runs, as the rules' `caller_of` has it: a service asks for that first.
pub fn caller_of(s: &Image) -> usize
    ensures { (result ≡ caller_of (view s.now)) × (result < 255) }
{
    (get_running(s) as usize).saturating_sub(1)
}

pub fn set_running(s: &mut Image, v: u8)
    ensures { view s.new ≡ with_running v (view s.old) }
{
    columns::put(s, layout::RUNNING, 0, v);
}

pub fn get_ready(s: &Image) -> u64
    ensures { result ≡ (view s.now).ready }
{
    columns::get(s, layout::READY, 0)
}

pub fn set_ready(s: &mut Image, word: u64)
    ensures { view s.new ≡ with_ready word (view s.old) }
{
    columns::put(s, layout::READY, 0, word);
}
