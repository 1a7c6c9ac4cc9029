// Groups of flags: create, wait, post. What is the same for every kind of object, `object` has.
#![tactic(auto)]

ghost use Rattle.std.specs.Prelude.{◌≡◌, cond, ◌<◌};
ghost use Rattle.rules.specs.Sizes.{task_count, group_count, done};
ghost use Rattle.rules.specs.Table.{asking, asked_by, task_of};
ghost use Rattle.rules.specs.Move.{chosen};
ghost use Rattle.rules.specs.Object.{block_answer, object_create_answer};
ghost use Rattle.rules.specs.Group.{flags_of, is_met, woken, create, wait_answer, wait, post_answer, post};
ghost use Rattle.rules.specs.Family.{groups};
ghost use Rattle.table.specs.Image.{view};
ghost use Rattle.service.specs.Answers.{number_of};
ghost use Rattle.service.specs.Served.{Served};
ghost use Rattle.object.specs.Asking.{asked_in};

use service::answers::{Answer, Done, Refusal};
use service::ending;
use table::families::{Groups, Kind};
use table::layout::{self, Image};
use table::tasks::Asked;
use table::{groups, moves, tasks};

pub mod tests;

pub fn create(s: &mut Image, i: u32, flags: u32) -> Answer
    ensures { Served (object_create_answer groups i (view s.old)) (chosen (create i flags (view s.old))) (number_of result) s.old s.new }
{
    let j = object::may_create::<Groups>(s, i)?;
    groups::store(s, j, rules::Group { used: 1, flags });
    moves::choose(s);
    Ok(Done::Now)
}

// A wait for group i, in use, that asks rightly: it is met and consumes, or the caller waits.
fn take(s: &mut Image, i: usize, block: u32, limit: u32, asked: Asked) -> Answer
    requires { i < group_count }
    ensures { Served (cond (is_met (flags_of (view s.old) i) (asked_in asked)) done (block_answer block (view s.old))) (chosen (wait i limit (asked_in asked) (view s.old))) (number_of result) s.old s.new }
{
    let flags = groups::get_flags(s, i);
    if !tests::is_met(flags, asked) {
        return object::wait_on::<Groups>(s, i, block, limit, asked);
    }
    groups::set_flags(s, i, flags ^ tests::consumed(flags, asked));
    object::take_now(s);
    moves::choose(s);
    Ok(Done::Now)
}

// The numbers of a call have 32 bits each; an `Asked` has those that ask rightly.
pub fn wait(
    s: &mut Image,
    i: u32,
    block: u32,
    limit: u32,
    mask: u32,
    test: u32,
    consume: u32,
) -> Answer
    ensures { Served (wait_answer i block (asking mask test consume) (view s.old)) (chosen (wait i limit (asking mask test consume) (view s.old))) (number_of result) s.old s.new }
{
    let j = object::may_wait::<Groups>(s, i, block)?;
    if (mask == 0) | (tests::COUNT <= test) {
        return Err(Refusal::BadValue);
    }
    if 1 < consume {
        return Err(Refusal::BadValue);
    }
    let asked = Asked {
        mask,
        test: test as u8,
        consume: consume as u8,
    };
    take(s, j, block, limit, asked)
}

// What task w asks of flags. A number that is no task's asks nothing, and that is met.
fn asked_by(s: &Image, w: usize) -> Asked
    ensures { asked_in result ≡ asked_by (task_of (view s.now) w) }
{
    if layout::TASKS <= w {
        return Asked::NOTHING;
    }
    Asked {
        mask: tasks::get_mask(s, w),
        test: tasks::get_test(s, w),
        consume: tasks::get_consume(s, w),
    }
}

// Who waits for group i and is met by these flags wakes, from the first; then what all of them consume is turned over together.
fn wake(s: &mut Image, i: usize, flags: u32)
    requires { i < group_count }
    ensures { view s.new ≡ woken task_count i flags 0 0 (view s.old) }
{
    let mut k: usize = 0;
    let mut together: u32 = 0;
    for _ in 0..layout::SLOTS {
        let v = moves::slot_in(s, Groups::FIRST + i, k);
        if v == 0 {
            groups::set_flags(s, i, flags ^ together);
            return;
        }
        let w = v as usize - 1;
        let asked = asked_by(s, w);
        if tests::is_met(flags, asked) {
            together |= tests::consumed(flags, asked);
            ending::end_wait(s, ending::GIVEN, w);
        } else {
            k += 1;
        }
    }
    groups::set_flags(s, i, flags ^ together);
}

pub fn post(s: &mut Image, i: u32, mask: u32, on: u32) -> Answer
    ensures { Served (post_answer i mask on (view s.old)) (chosen (post i mask on (view s.old))) (number_of result) s.old s.new }
{
    let j = object::in_use::<Groups>(s, i)?;
    if mask == 0 {
        return Err(Refusal::BadValue);
    }
    if 1 < on {
        return Err(Refusal::BadValue);
    }
    let before = groups::get_flags(s, j);
    let flags = tests::posted(before, mask, on);
    wake(s, j, flags);
    moves::choose(s);
    Ok(Done::Now)
}
