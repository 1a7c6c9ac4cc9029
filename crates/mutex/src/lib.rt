// Mutexes: create, wait, post. What is the same for every kind of object, `object` has.
#![tactic(auto)]

ghost use Rattle.std.specs.Prelude.{◌≡◌, ◌<◌};
ghost use Rattle.rules.specs.Sizes.{mutex_count};
ghost use Rattle.rules.specs.Move.{chosen};
ghost use Rattle.rules.specs.Object.{taken, object_create_answer};
ghost use Rattle.rules.specs.Mutex.{is_own, with_hold_of, take_answer, create, wait_answer, wait, post_answer, handed, released, post};
ghost use Rattle.rules.specs.Table.{written};
ghost use Rattle.rules.specs.Family.{mutexes};
ghost use Rattle.table.specs.Image.{view};
ghost use Rattle.service.specs.Answers.{number_of};
ghost use Rattle.service.specs.Served.{Served};

use chain::walk;
use service::answers::{Answer, Done, Refusal};
use service::{checks, ending};
use table::families::{Kind, Mutexes};
use table::layout::Image;
use table::tasks::Asked;
use table::{moves, mutexes, numbers};

pub fn create(s: &mut Image, i: u32) -> Answer
    ensures { Served (object_create_answer mutexes i (view s.old)) (chosen (create i (view s.old))) (number_of result) s.old s.new }
{
    let j = object::may_create::<Mutexes>(s, i)?;
    mutexes::store(
        s,
        j,
        rules::Mutex {
            used: 1,
            holder: 0,
            nesting: 0,
        },
    );
    moves::choose(s);
    Ok(Done::Now)
}

// The caller has mutex i at once: the task written h holds it, n times over.
fn hold(s: &mut Image, i: usize, h: u8, n: u8)
    requires { i < mutex_count }
    ensures { view s.new ≡ chosen (taken (with_hold_of i h n (view s.old))) }
{
    mutexes::set_hold(s, i, h, n);
    object::take_now(s);
    moves::choose(s);
}

// A wait for mutex i, in use: it is taken, nested once more, or the caller waits for its holder.
fn take(s: &mut Image, i: usize, block: u32, limit: u32) -> Answer
    requires { i < mutex_count }
    ensures { Served (take_answer i block (view s.old)) (chosen (wait i limit (view s.old))) (number_of result) s.old s.new }
{
    let holder = mutexes::get_holder(s, i);
    let caller = numbers::caller_of(s);
    if holder == 0 {
        hold(s, i, caller as u8 + 1, 1);
        return Ok(Done::Now);
    }
    if holder as usize != caller + 1 {
        return object::wait_on::<Mutexes>(s, i, block, limit, Asked::NOTHING);
    }
    let n = mutexes::get_nesting(s, i);
    if checks::MOST_NESTED <= n {
        return Err(Refusal::NestedTooDeep);
    }
    hold(s, i, holder, n + 1);
    Ok(Done::Now)
}

pub fn wait(s: &mut Image, i: u32, block: u32, limit: u32) -> Answer
    ensures { Served (wait_answer i block (view s.old)) (chosen (wait i limit (view s.old))) (number_of result) s.old s.new }
{
    let j = object::may_wait::<Mutexes>(s, i, block)?;
    take(s, j, block, limit)
}

// Task w is the new holder of mutex i.
fn hand_to(s: &mut Image, i: usize, w: usize)
    requires { (i < mutex_count) × (w < 255) }
    ensures { view s.new ≡ handed i (written w) (view s.old) }
{
    mutexes::set_hold(s, i, w as u8 + 1, 1);
    ending::stand_ready(s, w, ending::GIVEN);
}

// The caller, its last holder, lets mutex i go.
fn release(s: &mut Image, i: usize)
    requires { i < mutex_count }
    ensures { view s.new ≡ released i (view s.old) }
{
    let c = numbers::caller_of(s);
    mutexes::set_hold(s, i, 0, 0);
    walk::walk_from(s, c);
    if let Some(w) = moves::first_in(s, Mutexes::FIRST + i) {
        hand_to(s, i, w);
    }
}

// Whether the caller holds mutex i.
fn is_own(s: &Image, i: usize) -> bool
    requires { i < mutex_count }
    ensures { result ≡ is_own i (view s.now) }
{
    let holder = mutexes::get_holder(s, i);
    let caller = numbers::caller_of(s);
    holder as usize == caller + 1
}

// A post of mutex i by its holder: it is nested once less, or let go.
fn give(s: &mut Image, i: usize)
    requires { i < mutex_count }
    ensures { view s.new ≡ chosen (post i (view s.old)) }
{
    let n = mutexes::get_nesting(s, i);
    if 1 < n {
        let holder = mutexes::get_holder(s, i);
        mutexes::set_hold(s, i, holder, n - 1);
    } else {
        release(s, i);
    }
    moves::choose(s);
}

pub fn post(s: &mut Image, i: u32) -> Answer
    ensures { Served (post_answer i (view s.old)) (chosen (post i (view s.old))) (number_of result) s.old s.new }
{
    if numbers::get_running(s) == 0 {
        return Err(Refusal::NoneRunning);
    }
    let j = object::in_use::<Mutexes>(s, i)?;
    if !is_own(s, j) {
        return Err(Refusal::NotItsHolder);
    }
    give(s, j);
    Ok(Done::Now)
}
