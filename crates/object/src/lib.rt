// The calls that every kind of object has, over the kind: the checks with which its calls begin, the wait that blocks, delete and abort.
#![tactic(auto)]

ghost use Rattle.std.specs.Prelude.{◌≡◌, ℕ, ◌+◌, ◌<◌, IfOk};
ghost use Rattle.rules.specs.Sizes.{task_count, done, blocks};
ghost use Rattle.rules.specs.Table.{task_of, with_task};
ghost use Rattle.rules.specs.Move.{chosen, walk};
ghost use Rattle.rules.specs.Time.{by_caller};
ghost use Rattle.rules.specs.Object.{on_object, create_object, yes_no, on_one, object_create_answer, wait_answer_on, has_waiter, block_answer, limited, blocked, waits, taken, abort_answer, abort, object_abort_answer, object_abort, delete_answer, emptied, object_delete_answer, object_delete};
ghost use Rattle.table.specs.Image.{view};
ghost use Rattle.service.specs.Answers.{number_of, answer_after};
ghost use Rattle.service.specs.Served.{Served};
ghost use Rattle.object.specs.Asking.{asked_in};

use chain::walk;
use service::answers::{Answer, Done, Refusal};
use service::ending;
use table::families::Kind;
use table::layout::{self, Image};
use table::tasks::Asked;
use table::{families, moves, numbers, tasks};

pub mod kinds;

use kinds::Object;

// ---- the checks of any number i: how many numbers there are, and the byte that says whether this one is in use

// The answer of a create.
pub fn create_answer(used: u8, count: u32, i: u32) -> Result<(), Refusal>
    ensures { answer_after result done ≡ create_object count i used }
{
    if count <= i {
        return Err(Refusal::BeyondRange);
    }
    if used == 1 {
        return Err(Refusal::InUse);
    }
    Ok(())
}

fn use_answer(used: u8, count: u32, i: u32) -> Result<(), Refusal>
    ensures { (n : ℕ) → answer_after result n ≡ on_object count i used n }
{
    if count <= i {
        return Err(Refusal::BeyondRange);
    }
    if used != 1 {
        return Err(Refusal::NotInUse);
    }
    Ok(())
}

// The answer of a wait, as far as it is every kind's; the kind is asked then what it has to take.
pub fn ask_answer(s: &Image, used: u8, count: u32, i: u32, block: u32) -> Result<(), Refusal>
    ensures { (n : ℕ) → answer_after result n ≡ by_caller (view s.now) (on_object count i used (yes_no block n)) }
{
    if numbers::get_running(s) == 0 {
        return Err(Refusal::NoneRunning);
    }
    use_answer(used, count, i)?;
    if 1 < block {
        return Err(Refusal::BadValue);
    }
    Ok(())
}

// ---- the checks of a kind's: each gives the number, in range, or says why not

pub fn in_use<K: Kind>(s: &Image, i: u32) -> Result<usize, Refusal>
    ensures answers { (n : ℕ) → answer_after result n ≡ on_one K.family i (view s.now) n }
    ensures within { IfOk result (λ j. (j ≡ i) × (j < K.family.count)) }
{
    let j = i as usize;
    use_answer(families::used_at::<K>(s, j), K::COUNT as u32, i)?;
    Ok(j)
}

// What a new object is, each kind stores itself: its clause says it.
pub fn may_create<K: Kind>(s: &Image, i: u32) -> Result<usize, Refusal>
    ensures answers { answer_after result done ≡ object_create_answer K.family i (view s.now) }
    ensures within { IfOk result (λ j. (j ≡ i) × (j < K.family.count)) }
{
    let j = i as usize;
    create_answer(families::used_at::<K>(s, j), K::COUNT as u32, i)?;
    Ok(j)
}

// Each kind's `wait` is this and its own `take`: one over the kinds would need a trait that says of each what it takes, for two lines. The words of a
// call stay apart, as they come.
pub fn may_wait<K: Kind>(s: &Image, i: u32, block: u32) -> Result<usize, Refusal>
    ensures answers { (n : ℕ) → answer_after result n ≡ wait_answer_on K.family i block n (view s.now) }
    ensures within { IfOk result (λ j. (j ≡ i) × (j < K.family.count)) }
{
    let j = i as usize;
    ask_answer(s, families::used_at::<K>(s, j), K::COUNT as u32, i, block)?;
    Ok(j)
}

// ---- a wait

// The caller takes the object at once: outcome 0.
pub fn take_now(s: &mut Image)
    ensures { view s.new ≡ taken (view s.old) }
{
    let i = numbers::caller_of(s);
    if layout::TASKS <= i {
        return;
    }
    tasks::set_outcome(s, i, ending::GIVEN);
}

// Task i has the due mark of a time limit, or none where there is no limit.
fn set_limit(s: &mut Image, i: usize, limit: u32)
    requires { i < task_count }
    ensures { view s.new ≡ with_task i (limited limit (view s.old) (task_of (view s.old) i)) (view s.old) }
{
    if limit == 0 {
        tasks::set_mark(s, i, 0, 0);
        return;
    }
    let due = time::mark_in(s, limit);
    tasks::set_mark(s, i, 1, due);
}

// The caller leaves the able queue and goes behind its equals in the object's queue; what it asks of flags stands in its record. It takes the
// numbers and not the kind: it is large, and would stand there four times.
pub fn block_on(s: &mut Image, state: u8, object: u8, limit: u32, asked: Asked)
    ensures { view s.new ≡ blocked state object limit (asked_in asked) (view s.old) }
{
    let i = numbers::caller_of(s);
    if layout::TASKS <= i {
        return;
    }
    let q = moves::place_of(s, i);
    set_limit(s, i, limit);
    tasks::set_state(s, i, state, object);
    tasks::set_asked(s, i, asked);
    moves::settle(s, i, q);
}

// Whether a wait for an object in use that has nothing to take may block.
pub fn block_answer(s: &Image, block: u32) -> Result<(), Refusal>
    ensures { answer_after result blocks ≡ block_answer block (view s.now) }
{
    if block == 0 {
        return Err(Refusal::NothingToTake);
    }
    if numbers::get_depth(s) != 0 {
        return Err(Refusal::WhileLocked);
    }
    Ok(())
}

// The wait that finds nothing to take, of any state and number. Where it blocks, the chain from the holder moves. Within its callers, as seven numbers do
// not fit the registers.
#[inline(always)]
pub fn wait_for(
    s: &mut Image,
    state: u8,
    object: u8,
    holder: usize,
    block: u32,
    limit: u32,
    asked: Asked,
) -> Answer
    ensures { Served (block_answer block (view s.old)) (chosen (walk holder (blocked state object limit (asked_in asked) (view s.old)))) (number_of result) s.old s.new }
{
    block_answer(s, block)?;
    block_on(s, state, object, limit, asked);
    walk::walk_from(s, holder);
    moves::choose(s);
    Ok(Done::Waits)
}

// The same for number i of a kind.
pub fn wait_on<K: Object>(s: &mut Image, i: usize, block: u32, limit: u32, asked: Asked) -> Answer
    requires { i < K.family.count }
    ensures { Served (block_answer block (view s.old)) (chosen (waits K.family i limit (asked_in asked) (view s.old))) (number_of result) s.old s.new }
{
    let holder = K::get_holder(s, i);
    wait_for(s, K::STATE, i as u8, holder, block, limit, asked)
}

// ---- abort and delete

// The abort of number i, whose waiters stand in the queue of this number behind `first`.
pub fn abort_object(s: &mut Image, used: u8, count: u32, first: u8, i: u32) -> Answer
    ensures { Served (on_object count i used (abort_answer (first + i) (view s.old))) (chosen (abort (first + i) (view s.old))) (number_of result) s.old s.new }
{
    use_answer(used, count, i)?;
    let Some(w) = moves::first_in(s, first as usize + i as usize) else {
        return Err(Refusal::NoWaiter);
    };
    ending::end_wait(s, ending::ABORTED, w);
    moves::choose(s);
    Ok(Done::Now)
}

pub fn abort<K: Kind>(s: &mut Image, i: u32) -> Answer
    ensures { Served (object_abort_answer K.family i (view s.old)) (chosen (object_abort K.family i (view s.old))) (number_of result) s.old s.new }
{
    let used = families::used_at::<K>(s, i as usize);
    abort_object(s, used, K::COUNT as u32, K::FIRST as u8, i)
}

fn has_waiter(s: &Image, q: usize) -> bool
    ensures { result ≡ has_waiter q (view s.now) }
{
    moves::first_in(s, q).is_some()
}

// The delete of number i as far as it is every kind's: each of its waiters is let go. Then the object goes.
pub fn delete_waiters(s: &mut Image, used: u8, count: u32, first: u8, i: u32, force: u32) -> Answer
    ensures { Served (on_object count i used (delete_answer force (first + i) (view s.old))) (emptied (first + i) (view s.old)) (number_of result) s.old s.new }
{
    use_answer(used, count, i)?;
    if 1 < force {
        return Err(Refusal::BadValue);
    }
    let q = first as usize + i as usize;
    if (force == 0) & has_waiter(s, q) {
        return Err(Refusal::StillNeeded);
    }
    ending::end_all(s, ending::OBJECT_DELETED, q);
    Ok(Done::Now)
}

// The holder of number i, where there is such a number.
fn holder_at<K: Object>(s: &Image, i: usize) -> usize
    ensures { i < K.family.count → result ≡ K.family.holder (view s.now) i }
{
    if K::COUNT <= i {
        return layout::TASKS;
    }
    K::get_holder(s, i)
}

// The object goes when its waiters are let go, and then the chain moves from whoever held it before.
pub fn delete<K: Object>(s: &mut Image, i: u32, force: u32) -> Answer
    ensures { Served (object_delete_answer K.family i force (view s.old)) (chosen (object_delete K.family i (view s.old))) (number_of result) s.old s.new }
{
    let j = i as usize;
    let holder = holder_at::<K>(s, j);
    let used = families::used_at::<K>(s, j);
    let answer = delete_waiters(s, used, K::COUNT as u32, K::FIRST as u8, i, force)?;
    K::clear(s, j);
    walk::walk_from(s, holder);
    moves::choose(s);
    Ok(answer)
}
