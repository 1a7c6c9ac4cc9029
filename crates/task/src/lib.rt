// Task create, delete, change priority, suspend, resume; the default quantum.
#![tactic(auto)]

ghost use Rattle.std.specs.Prelude.{◌≡◌, ◌&&◌, ◌<◌};
ghost use Rattle.rules.specs.Sizes.{task_count, mutex_count};
ghost use Rattle.rules.specs.Table.{task_of, with_suspend};
ghost use Rattle.rules.specs.Move.{put, chosen, is_running};
ghost use Rattle.rules.specs.Task.{is_locked, created, holds_below, create_answer, create, delete_answer, delete, priority_answer, change_priority, suspend_answer, suspend, resume_answer, resume};
ghost use Rattle.table.specs.Image.{view};
ghost use Rattle.service.specs.Answers.{number_of};
ghost use Rattle.service.specs.Served.{Served};

use chain::walk;
use service::answers::{Answer, Done, Refusal};
use service::checks;
use table::layout::Image;
use table::{layout, moves, mutexes, numbers, tasks};

pub mod quantum;

// The last of the priorities.
const LAST_PRIORITY: u32 = 62;

// Whether task i runs while the scheduler is locked.
fn runs_locked(s: &Image, i: usize) -> bool
    requires { i < task_count }
    ensures { result ≡ is_locked (view s.now) && is_running i (view s.now) }
{
    let d = numbers::get_depth(s);
    let v = numbers::get_running(s);
    (d != 0) & (v as usize == i + 1)
}

fn new_task(base: u8, quantum: u16) -> rules::Task
    ensures { result ≡ created base quantum }
{
    rules::Task {
        used: 1,
        base,
        work: base,
        quantum,
        left: quantum,
        ..rules::Task::default()
    }
}

pub fn create_task(s: &mut Image, i: u32, base: u32, quantum: u32) -> Answer
    ensures { Served (create_answer i base quantum (view s.old)) (chosen (create i base quantum (view s.old))) (number_of result) s.old s.new }
{
    let i = i as usize;
    if layout::TASKS <= i {
        return Err(Refusal::BeyondRange);
    }
    if tasks::get_used(s, i) == 1 {
        return Err(Refusal::InUse);
    }
    if LAST_PRIORITY < base {
        return Err(Refusal::BadValue);
    }
    if quantum::MOST < quantum {
        return Err(Refusal::BadValue);
    }
    let own = quantum::quantum_of(s, quantum as u16);
    moves::put_task(s, i, new_task(base as u8, own));
    moves::choose(s);
    Ok(Done::Now)
}

// Whether task i holds a mutex.
fn holds_any(s: &Image, i: usize) -> bool
    requires { i < task_count }
    ensures { result ≡ holds_below mutex_count i (view s.now) }
{
    for m in 0..layout::MUTEXES {
        let v = mutexes::get_holder(s, m);
        if v as usize == i + 1 {
            return true;
        }
    }
    false
}

pub fn delete_task(s: &mut Image, i: u32) -> Answer
    ensures { Served (delete_answer i (view s.old)) (chosen (delete i (view s.old))) (number_of result) s.old s.new }
{
    let i = checks::task_in_use(s, i)?;
    if runs_locked(s, i) {
        return Err(Refusal::WhileLocked);
    }
    if holds_any(s, i) {
        return Err(Refusal::StillNeeded);
    }
    let holder = chain::next_of(s, i);
    moves::clear_task(s, i);
    walk::walk_from(s, holder);
    moves::choose(s);
    Ok(Done::Now)
}

pub fn change_priority(s: &mut Image, i: u32, base: u32) -> Answer
    ensures { Served (priority_answer i base (view s.old)) (chosen (change_priority i base (view s.old))) (number_of result) s.old s.new }
{
    let i = checks::task_in_use(s, i)?;
    if LAST_PRIORITY < base {
        return Err(Refusal::BadValue);
    }
    tasks::set_base(s, i, base as u8);
    walk::walk_from(s, i);
    moves::choose(s);
    Ok(Done::Now)
}

// The suspend count of task i becomes n; a plain task that is suspended leaves the able queue, and goes behind its equals when it is not.
fn suspend_to(s: &mut Image, i: usize, n: u8)
    requires { i < task_count }
    ensures { view s.new ≡ put i (with_suspend n (task_of (view s.old) i)) (view s.old) }
{
    let q = moves::place_of(s, i);
    tasks::set_suspend(s, i, n);
    moves::settle(s, i, q);
}

pub fn suspend_task(s: &mut Image, i: u32) -> Answer
    ensures { Served (suspend_answer i (view s.old)) (chosen (suspend i (view s.old))) (number_of result) s.old s.new }
{
    let i = checks::task_in_use(s, i)?;
    if runs_locked(s, i) {
        return Err(Refusal::WhileLocked);
    }
    let n = tasks::get_suspend(s, i);
    if checks::MOST_NESTED <= n {
        return Err(Refusal::NestedTooDeep);
    }
    suspend_to(s, i, n + 1);
    moves::choose(s);
    Ok(Done::Now)
}

pub fn resume_task(s: &mut Image, i: u32) -> Answer
    ensures { Served (resume_answer i (view s.old)) (chosen (resume i (view s.old))) (number_of result) s.old s.new }
{
    let i = checks::task_in_use(s, i)?;
    let n = tasks::get_suspend(s, i);
    if n == 0 {
        return Err(Refusal::NotSuspended);
    }
    suspend_to(s, i, n - 1);
    moves::choose(s);
    Ok(Done::Now)
}
