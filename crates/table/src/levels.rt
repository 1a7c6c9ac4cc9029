// The word of ready levels: a level's bit is set where an able task has that working priority. Level 0 has the top bit.
ghost use Rattle.std.specs.Prelude.{◌≡◌, ◌+◌, ◌≤◌, ◌<◌};
ghost use Rattle.queue.specs.Slots.{place_of as place_in};
ghost use Rattle.rules.specs.Sizes.{task_count};
ghost use Rattle.rules.specs.Table.{task_of, queue_of, able_queue, with_ready};
ghost use Rattle.rules.specs.Ready.{bit_of, with_level, without_level, first_level, is_at, beside, ready_without, ready_with};
ghost use Rattle.table.specs.Image.{slot_count, view};
ghost use Rattle.table.specs.Ready.{word_left, word_joined};

use crate::layout::Image;
use crate::{layout, moves, numbers, tasks};

// How many levels there are, and the bit of the first.
pub const LEVELS: u8 = 64;

const TOP: u64 = 1 << 63;

// The bit of a level; 0 where it is none, which changes no word.
pub fn bit_of(l: u8) -> u64
    ensures { result ≡ bit_of l }
{
    if LEVELS <= l {
        return 0;
    }
    TOP >> l
}

pub fn with_level(word: u64, l: u8) -> u64
    ensures { result ≡ with_level l word }
{
    word | bit_of(l)
}

pub fn without_level(word: u64, l: u8) -> u64
    ensures { result ≡ without_level l word }
{
    word ^ (word & bit_of(l))
}

// The first level that has an able task, LEVELS where none has: it is the count of leading zeros, one instruction, and no Option.
pub fn first_level(s: &Image) -> u32
    ensures { result ≡ first_level (view s.now).ready }
{
    u64::leading_zeros(numbers::get_ready(s))
}

// Whether slot k of the able queue holds a task of level l.
pub fn is_at(s: &Image, l: u8, k: usize) -> bool
    ensures { result ≡ is_at l k (view s.now) }
{
    if layout::SLOTS <= k {
        return false;
    }
    let v = moves::slot_in(s, layout::ABLE_QUEUE, k) as usize;
    if v == 0 {
        return false;
    }
    tasks::work_at(s, v - 1) == l
}

// Where task id stands in the able queue, or SLOTS, which `drop_at` takes as it comes. The id is a byte, as the slots are: then the compiler
// compares each where it lies.
pub fn place_of_able(s: &Image, id: u8) -> usize
    requires { id < task_count }
    ensures { (result ≡ place_in id (queue_of (view s.now) able_queue)) × (result ≤ slot_count) }
{
    let a = layout::QUEUE + layout::SLOTS * layout::ABLE_QUEUE;
    let e = a + layout::SLOTS;
    queue::slides::slot_of(&s[a..e], id as usize + 1)
}

// Whether a neighbour of task i, which stands in slot `at` of the able queue, has its level. Equals stand together there, so no other need be
// asked.
fn has_equal(s: &Image, i: usize, at: usize) -> bool
    requires { (i < task_count) × (at ≤ slot_count) × (at ≡ place_in i (queue_of (view s.now) able_queue)) }
    ensures { result ≡ beside i (view s.now) }
{
    let l = tasks::get_work(s, i);
    if is_at(s, l, at + 1) {
        return true;
    }
    if at == 0 {
        return false;
    }
    is_at(s, l, at - 1)
}

// `add_level` is the same with the other word: three calls each, which a closure would make longer.
fn clear_level(s: &mut Image, i: usize)
    requires { i < task_count }
    ensures { view s.new ≡ with_ready (without_level (task_of (view s.old) i).work (view s.old).ready) (view s.old) }
{
    let l = tasks::get_work(s, i);
    let word = numbers::get_ready(s);
    numbers::set_ready(s, without_level(word, l));
}

// Before task i leaves the able queue, where it stands in slot `at`: its level's bit is cleared, unless a neighbour has its level.
// The place comes from one search and holds until the next store, so it is handed on with a clause and in no struct.
pub fn drop_at(s: &mut Image, i: usize, at: usize)
    requires { (i < task_count) × (at ≤ slot_count) × (at ≡ place_in i (queue_of (view s.old) able_queue)) }
    ensures { view s.new ≡ with_ready (ready_without i (view s.old)) (view s.old) }
{
    if has_equal(s, i, at) {
        return;
    }
    clear_level(s, i);
}

// Task i joins the able queue: its level's bit is set.
pub fn add_level(s: &mut Image, i: usize)
    requires { i < task_count }
    ensures { view s.new ≡ with_ready (ready_with i (view s.old)) (view s.old) }
{
    let l = tasks::get_work(s, i);
    let word = numbers::get_ready(s);
    numbers::set_ready(s, with_level(word, l));
}

// Both for any queue: the word is changed where q is the able one. Who leaves stands in slot `at` of q.
pub fn drop_from(s: &mut Image, q: usize, i: usize, at: usize)
    requires { (i < task_count) × (at ≤ slot_count) × (at ≡ place_in i (queue_of (view s.old) q)) }
    ensures { view s.new ≡ with_ready (word_left q i (view s.old)) (view s.old) }
{
    if q == layout::ABLE_QUEUE {
        drop_at(s, i, at);
    }
}

pub fn add_in(s: &mut Image, q: usize, i: usize)
    requires { i < task_count }
    ensures { view s.new ≡ with_ready (word_joined q i (view s.old)) (view s.old) }
{
    if q == layout::ABLE_QUEUE {
        add_level(s, i);
    }
}
