// A task's fields in the image: each is read and stored alone, by a function that names its column. One function over a trait of fields would want
// a type and an impl for each of them, which are longer. A task's number is a plain one: it comes from C, from a byte of the image or from a loop,
// and goes into an offset. A task changes its place through `moves`.
#![tactic(auto, using(crate::specs::records::Task::read), unfolding(crate::specs::kinds::Task::made))]

ghost use Rattle.std.specs.Prelude.{◌≡◌, ◌<◌, take};
ghost use Rattle.columns.specs.Views.{with_row};
ghost use Rattle.rules.specs.Sizes.{task_count};
ghost use Rattle.rules.specs.Table.{no_task, task_of, with_task, with_base, with_work, with_suspend, with_left, with_state, with_mark, with_outcome, with_message, asking, with_asked};
ghost use Rattle.table.specs.kinds.Task.{kind, row};
ghost use Rattle.table.specs.Image.{view};

use crate::layout;
use crate::layout::Image;

// What a task waits for, as its state says it. It is a byte there, and an image that is not sound may hold any.
pub const PLAIN: u8 = 0;

pub const DELAYED: u8 = 1;

pub const WAITS_SEMAPHORE: u8 = 2;

pub const WAITS_MUTEX: u8 = 3;

pub const WAITS_FLAGS: u8 = 4;

pub const WAITS_MESSAGE: u8 = 5;

// What a task asks of the flags that it waits for. A wait for another object asks nothing, and all three are 0.
#[derive(Clone, Copy)]
pub struct Asked {
    pub mask: u32,
    pub test: u8,
    pub consume: u8,
}

impl Asked {
    pub const NOTHING: Asked = Asked {
        mask: 0,
        test: 0,
        consume: 0,
    };
}

pub fn get_used(s: &Image, i: usize) -> u8
    requires { i < task_count }
    ensures { result ≡ (task_of (view s.now) i).used }
{
    columns::get(s, layout::USED, i)
}

pub fn get_base(s: &Image, i: usize) -> u8
    requires { i < task_count }
    ensures { result ≡ (task_of (view s.now) i).base }
{
    columns::get(s, layout::BASE, i)
}

pub fn get_work(s: &Image, i: usize) -> u8
    requires { i < task_count }
    ensures { result ≡ (task_of (view s.now) i).work }
{
    columns::get(s, layout::WORK, i)
}

// The same of every number, 0 where it is no task's, as the rules' `task_of` has it: one that a slot of an image which is not sound may hold.
pub fn work_at(s: &Image, i: usize) -> u8
    ensures { result ≡ (task_of (view s.now) i).work }
{
    if layout::TASKS <= i {
        return 0;
    }
    get_work(s, i)
}

pub fn get_suspend(s: &Image, i: usize) -> u8
    requires { i < task_count }
    ensures { result ≡ (task_of (view s.now) i).suspend }
{
    columns::get(s, layout::SUSPEND, i)
}

pub fn get_state(s: &Image, i: usize) -> u8
    requires { i < task_count }
    ensures { result ≡ (task_of (view s.now) i).state }
{
    columns::get(s, layout::STATE, i)
}

pub fn get_object(s: &Image, i: usize) -> u8
    requires { i < task_count }
    ensures { result ≡ (task_of (view s.now) i).object }
{
    columns::get(s, layout::OBJECT, i)
}

pub fn get_marked(s: &Image, i: usize) -> u8
    requires { i < task_count }
    ensures { result ≡ (task_of (view s.now) i).marked }
{
    columns::get(s, layout::MARKED, i)
}

pub fn get_outcome(s: &Image, i: usize) -> u8
    requires { i < task_count }
    ensures { result ≡ (task_of (view s.now) i).outcome }
{
    columns::get(s, layout::OUTCOME, i)
}

pub fn get_quantum(s: &Image, i: usize) -> u16
    requires { i < task_count }
    ensures { result ≡ (task_of (view s.now) i).quantum }
{
    columns::get(s, layout::QUANTUM, i)
}

pub fn get_left(s: &Image, i: usize) -> u16
    requires { i < task_count }
    ensures { result ≡ (task_of (view s.now) i).left }
{
    columns::get(s, layout::LEFT, i)
}

pub fn get_due(s: &Image, i: usize) -> u32
    requires { i < task_count }
    ensures { result ≡ (task_of (view s.now) i).due }
{
    columns::get(s, layout::DUE, i)
}

pub fn get_mask(s: &Image, i: usize) -> u32
    requires { i < task_count }
    ensures { result ≡ (task_of (view s.now) i).mask }
{
    columns::get(s, layout::MASK, i)
}

pub fn get_test(s: &Image, i: usize) -> u8
    requires { i < task_count }
    ensures { result ≡ (task_of (view s.now) i).test }
{
    columns::get(s, layout::TEST, i)
}

pub fn get_consume(s: &Image, i: usize) -> u8
    requires { i < task_count }
    ensures { result ≡ (task_of (view s.now) i).consume }
{
    columns::get(s, layout::CONSUME, i)
}

// The last message that it was given.
pub fn get_message(s: &Image, i: usize) -> u32
    requires { i < task_count }
    ensures { result ≡ (task_of (view s.now) i).message }
{
    columns::get(s, layout::MESSAGE, i)
}

pub fn set_base(s: &mut Image, i: usize, base: u8)
    requires { i < task_count }
    ensures { view s.new ≡ with_task i (with_base base (task_of (view s.old) i)) (view s.old) }
{
    columns::put(s, layout::BASE, i, base);
}

// The task stays in its place: it changes it through `moves::rework_task`.
pub fn set_work(s: &mut Image, i: usize, work: u8)
    requires { i < task_count }
    ensures { view s.new ≡ with_task i (with_work work (task_of (view s.old) i)) (view s.old) }
{
    columns::put(s, layout::WORK, i, work);
}

pub fn set_suspend(s: &mut Image, i: usize, suspend: u8)
    requires { i < task_count }
    ensures { view s.new ≡ with_task i (with_suspend suspend (task_of (view s.old) i)) (view s.old) }
{
    columns::put(s, layout::SUSPEND, i, suspend);
}

pub fn set_left(s: &mut Image, i: usize, left: u16)
    requires { i < task_count }
    ensures { view s.new ≡ with_task i (with_left left (task_of (view s.old) i)) (view s.old) }
{
    columns::put(s, layout::LEFT, i, left);
}

pub fn set_outcome(s: &mut Image, i: usize, outcome: u8)
    requires { i < task_count }
    ensures { view s.new ≡ with_task i (with_outcome outcome (task_of (view s.old) i)) (view s.old) }
{
    columns::put(s, layout::OUTCOME, i, outcome);
}

pub fn set_message(s: &mut Image, i: usize, message: u32)
    requires { i < task_count }
    ensures { view s.new ≡ with_task i (with_message message (task_of (view s.old) i)) (view s.old) }
{
    columns::put(s, layout::MESSAGE, i, message);
}

// The state, with the number of the object waited for, 0 where none is; nothing is asked of flags.
pub fn set_state(s: &mut Image, i: usize, state: u8, object: u8)
    requires { i < task_count }
    ensures { view s.new ≡ with_task i (with_state state object (task_of (view s.old) i)) (view s.old) }
{
    columns::put(s, layout::STATE, i, state);
    columns::put(s, layout::OBJECT, i, object);
    columns::put(s, layout::TEST, i, 0u8);
    columns::put(s, layout::CONSUME, i, 0u8);
    columns::put(s, layout::MASK, i, 0u32);
}

pub fn set_asked(s: &mut Image, i: usize, asked: Asked)
    requires { i < task_count }
    ensures { view s.new ≡ with_task i (with_asked (asking asked.mask asked.test asked.consume) (task_of (view s.old) i)) (view s.old) }
{
    columns::put(s, layout::TEST, i, asked.test);
    columns::put(s, layout::CONSUME, i, asked.consume);
    columns::put(s, layout::MASK, i, asked.mask);
}

// 1 and the due mark, or 0 and 0 for none. Both are stored as they come, so that any two may be.
pub fn set_mark(s: &mut Image, i: usize, marked: u8, due: u32)
    requires { i < task_count }
    ensures { view s.new ≡ with_task i (with_mark marked due (task_of (view s.old) i)) (view s.old) }
{
    columns::put(s, layout::MARKED, i, marked);
    columns::put(s, layout::DUE, i, due);
}

// The record of a free number.
pub fn no_task() -> rules::Task
    ensures { result ≡ no_task }
{
    rules::Task::default()
}

// A whole record, of a task that is created or cleared. It takes three functions: the prover looks back over six stores at most.
fn store_first(s: &mut Image, i: usize, k: rules::Task)
    requires { i < task_count }
    ensures { view s.new ≡ with_task i (with_row kind 0 (take 6 (row k)) (task_of (view s.old) i)) (view s.old) }
{
    columns::put(s, layout::USED, i, k.used);
    columns::put(s, layout::BASE, i, k.base);
    columns::put(s, layout::WORK, i, k.work);
    columns::put(s, layout::SUSPEND, i, k.suspend);
    columns::put(s, layout::STATE, i, k.state);
    columns::put(s, layout::OBJECT, i, k.object);
}

fn store_bytes(s: &mut Image, i: usize, k: rules::Task)
    requires { i < task_count }
    ensures { view s.new ≡ with_task i (with_row kind 0 (take 10 (row k)) (task_of (view s.old) i)) (view s.old) }
{
    store_first(s, i, k);
    columns::put(s, layout::MARKED, i, k.marked);
    columns::put(s, layout::OUTCOME, i, k.outcome);
    columns::put(s, layout::TEST, i, k.test);
    columns::put(s, layout::CONSUME, i, k.consume);
}

pub fn store(s: &mut Image, i: usize, k: rules::Task)
    requires { i < task_count }
    ensures { view s.new ≡ with_task i k (view s.old) }
{
    store_bytes(s, i, k);
    columns::put(s, layout::QUANTUM, i, k.quantum);
    columns::put(s, layout::LEFT, i, k.left);
    columns::put(s, layout::DUE, i, k.due);
    columns::put(s, layout::MASK, i, k.mask);
    columns::put(s, layout::MESSAGE, i, k.message);
}
