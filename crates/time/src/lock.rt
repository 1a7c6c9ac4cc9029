// Lock, unlock.
ghost use Rattle.rules.specs.Move.{chosen};
ghost use Rattle.rules.specs.Lock.{lock_answer, lock, unlock_answer, unlock};
ghost use Rattle.table.specs.Image.{view};
ghost use Rattle.service.specs.Answers.{number_of};
ghost use Rattle.service.specs.Served.{Served};

use service::answers::{Answer, Done, Refusal};
use service::checks;
use table::layout::Image;
use table::{moves, numbers};

pub fn lock_on(s: &mut Image) -> Answer
    ensures { Served (lock_answer (view s.old)) (chosen (lock (view s.old))) (number_of result) s.old s.new }
{
    let d = numbers::get_depth(s);
    if checks::MOST_NESTED <= d {
        return Err(Refusal::NestedTooDeep);
    }
    numbers::set_depth(s, d + 1);
    moves::choose(s);
    Ok(Done::Now)
}

pub fn unlock_once(s: &mut Image) -> Answer
    ensures { Served (unlock_answer (view s.old)) (chosen (unlock (view s.old))) (number_of result) s.old s.new }
{
    let d = numbers::get_depth(s);
    if d == 0 {
        return Err(Refusal::NotLocked);
    }
    numbers::set_depth(s, d - 1);
    moves::choose(s);
    Ok(Done::Now)
}
