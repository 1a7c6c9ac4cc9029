// Semaphores: create, wait, post. What is the same for every kind of object, `object` has.
#![tactic(auto)]

ghost use Rattle.std.specs.Prelude.{cond, ◌<◌};
ghost use Rattle.rules.specs.Sizes.{semaphore_count, done};
ghost use Rattle.rules.specs.Move.{chosen};
ghost use Rattle.rules.specs.Object.{block_answer, object_create_answer};
ghost use Rattle.rules.specs.Semaphore.{create, wait_answer, wait, post_answer, post};
ghost use Rattle.rules.specs.Family.{semaphores};
ghost use Rattle.table.specs.Image.{view};
ghost use Rattle.service.specs.Answers.{number_of};
ghost use Rattle.service.specs.Served.{Served};

use service::answers::{Answer, Done, Refusal};
use service::ending;
use table::families::{Kind, Semaphores};
use table::layout::Image;
use table::tasks::Asked;
use table::{moves, semaphores};

pub fn create(s: &mut Image, i: u32, count: u32) -> Answer
    ensures { Served (object_create_answer semaphores i (view s.old)) (chosen (create i count (view s.old))) (number_of result) s.old s.new }
{
    let j = object::may_create::<Semaphores>(s, i)?;
    semaphores::store(s, j, rules::Semaphore { used: 1, count });
    moves::choose(s);
    Ok(Done::Now)
}

// A wait for semaphore i, in use: it is taken, or the caller waits.
fn take(s: &mut Image, i: usize, block: u32, limit: u32) -> Answer
    requires { i < semaphore_count }
    ensures { Served (cond (semaphores.offers (view s.old) i) done (block_answer block (view s.old))) (chosen (wait i limit (view s.old))) (number_of result) s.old s.new }
{
    let count = semaphores::get_count(s, i);
    if count == 0 {
        return object::wait_on::<Semaphores>(s, i, block, limit, Asked::NOTHING);
    }
    semaphores::set_count(s, i, count - 1);
    object::take_now(s);
    moves::choose(s);
    Ok(Done::Now)
}

pub fn wait(s: &mut Image, i: u32, block: u32, limit: u32) -> Answer
    ensures { Served (wait_answer i block (view s.old)) (chosen (wait i limit (view s.old))) (number_of result) s.old s.new }
{
    let j = object::may_wait::<Semaphores>(s, i, block)?;
    take(s, j, block, limit)
}

pub fn post(s: &mut Image, i: u32) -> Answer
    ensures { Served (post_answer i (view s.old)) (chosen (post i (view s.old))) (number_of result) s.old s.new }
{
    let j = object::in_use::<Semaphores>(s, i)?;
    let count = semaphores::get_count(s, j);
    if count == u32::MAX {
        return Err(Refusal::CountFull);
    }
    match moves::first_in(s, Semaphores::FIRST + j) {
        None => semaphores::set_count(s, j, count + 1),
        Some(w) => ending::end_wait(s, ending::GIVEN, w),
    }
    moves::choose(s);
    Ok(Done::Now)
}
