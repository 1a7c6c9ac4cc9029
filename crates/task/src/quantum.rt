// The default quantum: set, and taken by a task that is created with 0.
ghost use Rattle.std.specs.Prelude.{◌≡◌};
ghost use Rattle.rules.specs.Move.{chosen};
ghost use Rattle.rules.specs.Quantum.{quantum_of, default_answer, set_default};
ghost use Rattle.table.specs.Image.{view};
ghost use Rattle.service.specs.Answers.{number_of};
ghost use Rattle.service.specs.Served.{Served};

use service::answers::{Answer, Done, Refusal};
use table::layout::Image;
use table::{moves, numbers};

// The longest.
pub const MOST: u32 = 65535;

// The quantum of a task that is created with n.
pub fn quantum_of(s: &Image, n: u16) -> u16
    ensures { result ≡ quantum_of n (view s.now) }
{
    if n == 0 {
        return numbers::get_default(s);
    }
    n
}

pub fn set_default(s: &mut Image, quantum: u32) -> Answer
    ensures { Served (default_answer quantum) (chosen (set_default quantum (view s.old))) (number_of result) s.old s.new }
{
    if quantum == 0 {
        return Err(Refusal::BadValue);
    }
    if MOST < quantum {
        return Err(Refusal::BadValue);
    }
    numbers::set_default(s, quantum as u16);
    moves::choose(s);
    Ok(Done::Now)
}
