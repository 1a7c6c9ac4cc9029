// Checks that several calls begin with. Each hands on what the rest of the call works with, or tells why it is refused.
ghost use Rattle.std.specs.Prelude.{◌≡◌, ◌<◌, ℕ, IfOk};
ghost use Rattle.rules.specs.Sizes.{task_count};
ghost use Rattle.rules.specs.Task.{on_task};
ghost use Rattle.table.specs.Image.{view};
ghost use Rattle.service.specs.Answers.{answer_after};

use crate::answers::Refusal;
use table::layout::Image;
use table::{layout, tasks};

// How often locks, suspends and the holds of a mutex nest at most.
pub const MOST_NESTED: u8 = 250;

// The number of a task that is in range and in use.
pub fn task_in_use(s: &Image, i: u32) -> Result<usize, Refusal>
    ensures answers { (n : ℕ) → answer_after result n ≡ on_task i (view s.now) n }
    ensures within { IfOk result (λ j. (j ≡ i) × (j < task_count)) }
{
    let j = i as usize;
    if layout::TASKS <= j {
        return Err(Refusal::BeyondRange);
    }
    if tasks::get_used(s, j) != 1 {
        return Err(Refusal::NotInUse);
    }
    Ok(j)
}
