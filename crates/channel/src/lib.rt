// Message queues, called channels here, since a queue is a row of tasks: create, wait, post, flush. What is the same for every kind of object,
// `object` has.
#![tactic(auto)]

ghost use Rattle.std.specs.Prelude.{◌≡◌, cond, ◌<◌};
ghost use Rattle.rules.specs.Sizes.{channel_count, done};
ghost use Rattle.rules.specs.Move.{chosen};
ghost use Rattle.rules.specs.Object.{block_answer};
ghost use Rattle.rules.specs.Messages.{present, holding};
ghost use Rattle.rules.specs.Channel.{create_answer, create, delivered, wait_answer, wait, with_posted, post_answer, post, flush_answer, flush, flushed};
ghost use Rattle.rules.specs.Family.{channels};
ghost use Rattle.table.specs.Image.{view};
ghost use Rattle.service.specs.Answers.{number_of};
ghost use Rattle.service.specs.Served.{Served};
ghost use Rattle.service.specs.Told.{Told, told_of};

use service::answers::{Answer, Done, Refusal};
use service::ending;
use table::families::{Channels, Kind};
use table::layout::{self, Image};
use table::tasks::Asked;
use table::{channels, messages, moves, numbers, tasks};

pub fn create(s: &mut Image, i: u32, capacity: u32) -> Answer
    ensures { Served (create_answer i capacity (view s.old)) (chosen (create i capacity (view s.old))) (number_of result) s.old s.new }
{
    let j = object::may_create::<Channels>(s, i)?;
    if (capacity == 0) | (layout::MOST_MESSAGES < capacity as usize) {
        return Err(Refusal::BadValue);
    }
    channels::store(
        s,
        j,
        rules::Channel {
            used: 1,
            capacity: capacity as u8,
            held: 0,
        },
    );
    moves::choose(s);
    Ok(Done::Now)
}

// The message v stands in the record of task i. A number that is no task's changes nothing.
fn deliver(s: &mut Image, i: usize, v: u32)
    ensures { view s.new ≡ delivered i v (view s.old) }
{
    if layout::TASKS <= i {
        return;
    }
    tasks::set_message(s, i, v);
}

// A wait for channel i, in use: its first message is taken, or the caller waits.
fn take(s: &mut Image, i: usize, block: u32, limit: u32) -> Answer
    requires { i < channel_count }
    ensures { Served (cond (channels.offers (view s.old) i) done (block_answer block (view s.old))) (chosen (wait i limit (view s.old))) (number_of result) s.old s.new }
{
    if channels::get_held(s, i) == 0 {
        return object::wait_on::<Channels>(s, i, block, limit, Asked::NOTHING);
    }
    let v = messages::first_of(s, i);
    let caller = numbers::caller_of(s);
    messages::take_first(s, i);
    deliver(s, caller, v);
    object::take_now(s);
    moves::choose(s);
    Ok(Done::Now)
}

pub fn wait(s: &mut Image, i: u32, block: u32, limit: u32) -> Answer
    ensures { Served (wait_answer i block (view s.old)) (chosen (wait i limit (view s.old))) (number_of result) s.old s.new }
{
    let j = object::may_wait::<Channels>(s, i, block)?;
    take(s, j, block, limit)
}

// The message v goes to the front of channel i, or to its end. `front` is the word of the call, as the rules' `with_posted` takes it.
fn keep(s: &mut Image, i: usize, v: u32, front: u32)
    requires { i < channel_count }
    ensures { view s.new ≡ holding i (with_posted front v (present (view s.old) i)) (view s.old) }
{
    if front == 1 {
        messages::add_first(s, i, v);
        return;
    }
    messages::add_last(s, i, v);
}

// A post to channel i, in use and not full: the first waiter is given the message, or the channel keeps it.
fn give(s: &mut Image, i: usize, v: u32, front: u32)
    requires { i < channel_count }
    ensures { view s.new ≡ chosen (post i v front (view s.old)) }
{
    match moves::first_in(s, Channels::FIRST + i) {
        None => keep(s, i, v, front),
        Some(w) => {
            ending::end_wait(s, ending::GIVEN, w);
            deliver(s, w, v);
        }
    }
    moves::choose(s);
}

pub fn post(s: &mut Image, i: u32, v: u32, front: u32) -> Answer
    ensures { Served (post_answer i front (view s.old)) (chosen (post i v front (view s.old))) (number_of result) s.old s.new }
{
    let j = object::in_use::<Channels>(s, i)?;
    if 1 < front {
        return Err(Refusal::BadValue);
    }
    let capacity = channels::get_capacity(s, j);
    if capacity <= channels::get_held(s, j) {
        return Err(Refusal::ChannelFull);
    }
    give(s, j, v, front);
    Ok(Done::Now)
}

// How many messages went.
pub fn flush(s: &mut Image, i: u32) -> Result<u16, Refusal>
    ensures { Told (flush_answer i (view s.old)) (chosen (flush i (view s.old))) (flushed i (view s.old)) (told_of result) s.old s.new }
{
    let j = object::in_use::<Channels>(s, i)?;
    let n = messages::count_in(s, j);
    messages::clear(s, j);
    moves::choose(s);
    Ok(n as u16)
}
