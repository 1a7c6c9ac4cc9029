// The way from a call to its service. It promises what the rules say: the answer, the further result and the table, and on a refusal the very
// bytes as they came. The answer and the further result come back as one number, as ntk_serve hands them to C.
#![tactic(auto)]

ghost use Rattle.std.specs.Prelude.{◌≡◌, ◌<◌};
ghost use Rattle.rules.specs.Step.{for_interrupts, answer_to, answer, effect, told_by};
ghost use Rattle.table.specs.Image.{view};
ghost use Rattle.service.specs.Answers.{number_of};
ghost use Rattle.service.specs.Told.{Told};

use service::answers::{self, Answer};
use table::families::{Channels, Groups, Mutexes, Semaphores};
use table::layout::Image;

// The answer that no service gives: an interrupt may not make the call.
const BY_INTERRUPT: u32 = 5;

// Whether an interrupt may make this call.
fn is_for_interrupts(c: rules::Call) -> bool
    ensures { result ≡ for_interrupts c }
{
    match c {
        rules::Call::Tick => true,
        rules::Call::SemaphorePost(_) => true,
        rules::Call::GroupPost(_, _, _) => true,
        rules::Call::ChannelPost(_, _, _) => true,
        _ => false,
    }
}

// The number of an answer that nothing further goes with.
fn alone(answer: Answer) -> u32
    ensures { (result ≡ number_of answer) × (result < 256) }
{
    answers::number(answer) as u32
}

// A call made by a task.
pub fn serve_task(s: &mut Image, c: rules::Call) -> u32
    ensures { Told (answer_to c (view s.old)) (effect c (view s.old)) (told_by c (view s.old)) result s.old s.new }
{
    match c {
        rules::Call::TaskCreate(i, base, quantum) => alone(task::create_task(s, i, base, quantum)),
        rules::Call::TaskDelete(i) => alone(task::delete_task(s, i)),
        rules::Call::ChangePriority(i, base) => alone(task::change_priority(s, i, base)),
        rules::Call::Suspend(i) => alone(task::suspend_task(s, i)),
        rules::Call::Resume(i) => alone(task::resume_task(s, i)),
        rules::Call::Yield => alone(time::yield_turn(s)),
        rules::Call::Delay(n) => alone(time::delay_by(s, n)),
        rules::Call::DelayResume(i) => alone(time::delay_resume(s, i)),
        rules::Call::Lock => alone(time::lock::lock_on(s)),
        rules::Call::Unlock => alone(time::lock::unlock_once(s)),
        rules::Call::Tick => {
            tick::tick_once(s);
            0
        }
        rules::Call::SetDefaultQuantum(n) => alone(task::quantum::set_default(s, n)),
        rules::Call::SemaphoreCreate(i, count) => alone(semaphore::create(s, i, count)),
        rules::Call::SemaphoreDelete(i, force) => alone(object::delete::<Semaphores>(s, i, force)),
        rules::Call::SemaphoreWait(i, block, limit) => alone(semaphore::wait(s, i, block, limit)),
        rules::Call::SemaphorePost(i) => alone(semaphore::post(s, i)),
        rules::Call::SemaphoreAbort(i) => alone(object::abort::<Semaphores>(s, i)),
        rules::Call::MutexCreate(i) => alone(mutex::create(s, i)),
        rules::Call::MutexDelete(i, force) => alone(object::delete::<Mutexes>(s, i, force)),
        rules::Call::MutexWait(i, block, limit) => alone(mutex::wait(s, i, block, limit)),
        rules::Call::MutexPost(i) => alone(mutex::post(s, i)),
        rules::Call::MutexAbort(i) => alone(object::abort::<Mutexes>(s, i)),
        rules::Call::GroupCreate(i, flags) => alone(group::create(s, i, flags)),
        rules::Call::GroupDelete(i, force) => alone(object::delete::<Groups>(s, i, force)),
        rules::Call::GroupWait(i, block, limit, mask, test, consume) => {
            alone(group::wait(s, i, block, limit, mask, test, consume))
        }
        rules::Call::GroupPost(i, mask, on) => alone(group::post(s, i, mask, on)),
        rules::Call::GroupAbort(i) => alone(object::abort::<Groups>(s, i)),
        rules::Call::ChannelCreate(i, capacity) => alone(channel::create(s, i, capacity)),
        rules::Call::ChannelDelete(i, force) => alone(object::delete::<Channels>(s, i, force)),
        rules::Call::ChannelWait(i, block, limit) => alone(channel::wait(s, i, block, limit)),
        rules::Call::ChannelPost(i, v, front) => alone(channel::post(s, i, v, front)),
        rules::Call::ChannelAbort(i) => alone(object::abort::<Channels>(s, i)),
        rules::Call::ChannelFlush(i) => answers::told(channel::flush(s, i)),
    }
}

// A call, made by an interrupt or not.
pub fn serve(s: &mut Image, c: rules::Call, interrupt: bool) -> u32
    ensures { Told (answer c interrupt (view s.old)) (effect c (view s.old)) (told_by c (view s.old)) result s.old s.new }
{
    let may = is_for_interrupts(c);
    if interrupt & !may {
        return BY_INTERRUPT;
    }
    serve_task(s, c)
}
