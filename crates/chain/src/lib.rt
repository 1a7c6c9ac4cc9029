// The chain of holders: who waits for whom, and the working priorities of all tasks worked out together.
#![tactic(auto)]

ghost use Rattle.std.specs.Prelude.{◌≡◌, ◌+◌, ◌≤◌, ◌<◌};
ghost use Rattle.rules.specs.Sizes.{task_count};
ghost use Rattle.rules.specs.Table.{holder_of};
ghost use Rattle.rules.specs.Move.{next, base_of, fresh_in};
ghost use Rattle.table.specs.Image.{view};
ghost use Rattle.chain.specs.Carry.{HadTurns};
ghost use Rattle.chain.specs.Given.{NoneGiven, given_to_all, Given};
ghost use Rattle.chain.specs.States.{states_from};

use table::layout::Image;
use table::{layout, mutexes, tasks};

pub mod local;
pub mod rings;
pub mod walk;

// What each task is given by those who wait for it: a priority, or 255, which is none. A byte and no Option: the smallest is looked for, and none is
// behind all.
pub type Priorities = [u8; layout::TASKS];

// The task that holds mutex m; 32, which is no task, for none. No Option: an image that is not sound may name any number there, and a
// chain ends at each that is no task's, as the rules' `holder_of` and `next` have it.
pub fn holder_of(s: &Image, m: usize) -> usize
    ensures { result ≡ holder_of (view s.now) m }
{
    if layout::MUTEXES <= m {
        return layout::TASKS;
    }
    let v = mutexes::get_holder(s, m);
    if v == 0 {
        return layout::TASKS;
    }
    v as usize - 1
}

// The holder of the mutex for which task j waits, or no task.
pub fn next_of(s: &Image, j: usize) -> usize
    ensures { result ≡ next (view s.now) j }
{
    if layout::TASKS <= j {
        return layout::TASKS;
    }
    if tasks::get_state(s, j) == tasks::WAITS_MUTEX {
        let m = tasks::get_object(s, j);
        return holder_of(s, m as usize);
    }
    layout::TASKS
}

// The base priority of task i goes along its chain, to each task whose own is greater and that was given a greater one. Where one has
// none greater, those behind it have none either, or get one no greater in their turn; so a ring ends too.
fn carry(s: &Image, given: &mut Priorities, i: usize)
    requires { (i < task_count) × HadTurns task_count (next (view s.now)) (base_of (view s.now)) i given.old }
    ensures { HadTurns task_count (next (view s.now)) (base_of (view s.now)) (i + 1) given.new }
{
    let base = tasks::get_base(s, i);
    let mut j = next_of(s, i);
    // A `while`: it goes from holder to holder and counts nothing.
    while j < layout::TASKS {
        let v = given[j];
        if v <= base {
            return;
        }
        let own = tasks::get_base(s, j);
        if own <= base {
            return;
        }
        given[j] = base;
        j = next_of(s, j);
    }
}

// The states of the eight tasks from `a` on, one bit over another. No task has a branch of its own, so that the compiler takes all at once.
fn states_of(s: &Image, a: usize) -> u8
    requires { a + 8 ≤ task_count }
    ensures { result ≡ states_from 8 a (view s.now) }
{
    tasks::get_state(s, a)
        | (tasks::get_state(s, a + 1)
            | (tasks::get_state(s, a + 2)
                | (tasks::get_state(s, a + 3)
                    | (tasks::get_state(s, a + 4)
                        | (tasks::get_state(s, a + 5)
                            | (tasks::get_state(s, a + 6) | tasks::get_state(s, a + 7)))))))
}

// The eight tasks from `a` on have their turns.
fn carry_eight(s: &Image, given: &mut Priorities, a: usize)
    requires { (a + 8 ≤ task_count) × HadTurns task_count (next (view s.now)) (base_of (view s.now)) a given.old }
    ensures { HadTurns task_count (next (view s.now)) (base_of (view s.now)) (a + 8) given.new }
{
    for i in a..a + 8 {
        carry(s, given, i);
    }
}

// What each task is given by those from which a chain of waits leads to it: the smallest base priority of theirs where it is smaller than
// its own, and else 255, as the bytes lent are. Eight tasks whose states together make less than that of a wait for a
// mutex have none among them that waits for one, and are passed over. The caller lends the array: one that is given back
// would come through memory.
pub fn carry_all(s: &Image, given: &mut Priorities)
    requires { NoneGiven given.old }
    ensures { given.new ≡ given_to_all (view s.now) }
{
    for a in (0..layout::TASKS).step_by(8) {
        if tasks::WAITS_MUTEX <= states_of(s, a) {
            carry_eight(s, given, a);
        }
    }
}

// The working priority of task i, worked out afresh, where `given` has what it is given. That it is of this table is a clause: a type
// would have to hold the image too, which changes on the way.
pub fn fresh_of(s: &Image, given: &Priorities, i: usize) -> u8
    requires { (i < task_count) × Given (view s.now) given.now }
    ensures { result ≡ fresh_in (view s.now) i }
{
    let own = tasks::get_base(s, i);
    let v = given[i];
    if v < own {
        return v;
    }
    own
}
