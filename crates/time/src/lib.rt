// Yield, delay, delay resume; the mark of a tick to come.
#![tactic(auto)]

ghost use Rattle.std.specs.Prelude.{◌≡◌};
ghost use Rattle.rules.specs.Move.{chosen};
ghost use Rattle.rules.specs.Time.{mark_in, yield_answer, yield, delay_answer, delay, delay_resume_answer, delay_resume};
ghost use Rattle.table.specs.Image.{view};
ghost use Rattle.service.specs.Answers.{number_of};
ghost use Rattle.service.specs.Served.{Served};

use service::answers::{Answer, Done, Refusal};
use service::{checks, ending};
use table::layout::Image;
use table::{moves, numbers, tasks};

pub mod lock;
pub mod peer;

// The tick in n ticks.
pub fn mark_in(s: &Image, n: u32) -> u32
    ensures { result ≡ mark_in n (view s.now) }
{
    numbers::get_tick(s).wrapping_add(n)
}

pub fn yield_turn(s: &mut Image) -> Answer
    ensures { Served (yield_answer (view s.old)) (chosen (yield (view s.old))) (number_of result) s.old s.new }
{
    if numbers::get_running(s) == 0 {
        return Err(Refusal::NoneRunning);
    }
    if numbers::get_depth(s) != 0 {
        return Err(Refusal::WhileLocked);
    }
    let i = numbers::caller_of(s);
    if !peer::has_peer(s, i) {
        return Err(Refusal::NoPeer);
    }
    moves::rotate_task(s, i);
    moves::choose(s);
    Ok(Done::Now)
}

pub fn delay_by(s: &mut Image, n: u32) -> Answer
    ensures { Served (delay_answer n (view s.old)) (chosen (delay n (view s.old))) (number_of result) s.old s.new }
{
    if numbers::get_running(s) == 0 {
        return Err(Refusal::NoneRunning);
    }
    if n == 0 {
        return Err(Refusal::BadValue);
    }
    if numbers::get_depth(s) != 0 {
        return Err(Refusal::WhileLocked);
    }
    let i = numbers::caller_of(s);
    let due = mark_in(s, n);
    ending::delay_task(s, i, 1, due);
    moves::choose(s);
    Ok(Done::Now)
}

pub fn delay_resume(s: &mut Image, i: u32) -> Answer
    ensures { Served (delay_resume_answer i (view s.old)) (chosen (delay_resume i (view s.old))) (number_of result) s.old s.new }
{
    let i = checks::task_in_use(s, i)?;
    if tasks::get_state(s, i) != tasks::DELAYED {
        return Err(Refusal::NotDelayed);
    }
    ending::end_wait(s, ending::GIVEN, i);
    moves::choose(s);
    Ok(Done::Now)
}
