// Whether another able task has a task's working priority.
ghost use Rattle.std.specs.Prelude.{◌≡◌, ◌<◌};
ghost use Rattle.rules.specs.Sizes.{task_count};
ghost use Rattle.rules.specs.Sound.{once};
ghost use Rattle.rules.specs.Table.{task_of};
ghost use Rattle.rules.specs.Move.{peer_below};
ghost use Rattle.table.specs.Image.{view};
ghost use Rattle.time.specs.Peers.{is_plain_with, plain_below, is_alone, is_peer, is_second_peer};

use table::layout::Image;
use table::{layout, moves, tasks};

// Whether task j is able, other than i, and of the working priority w.
fn is_peer(s: &Image, j: usize, i: usize, w: u8) -> bool
    requires { j < task_count }
    ensures { result ≡ is_peer j i w (view s.now) }
{
    let able = moves::is_able(s, j);
    let work = tasks::get_work(s, j);
    !(j == i) & (able & (work == w))
}

// Whether another able task has the working priority of task i: each task is asked.
fn find_peer(s: &Image, i: usize) -> bool
    ensures { result ≡ peer_below task_count i (view s.now) }
{
    let w = tasks::work_at(s, i);
    for j in (0..layout::TASKS).rev() {
        if is_peer(s, j, i, w) {
            return true;
        }
    }
    false
}

// 1 where task j is plain and of the working priority w.
fn counts_as(s: &Image, j: usize, w: u8) -> u8
    requires { j < task_count }
    ensures { result ≡ once (is_plain_with w (task_of (view s.now) j)) }
{
    let work = tasks::get_work(s, j);
    let state = tasks::get_state(s, j);
    ((work == w) & (state == tasks::PLAIN)) as u8
}

// How many tasks are plain and of the working priority w. No branch for a task, so that the compiler takes many at once.
fn plain_with(s: &Image, w: u8) -> u8
    ensures { result ≡ plain_below task_count w (view s.now) }
{
    let mut n: u8 = 0;
    for j in 0..layout::TASKS {
        n += counts_as(s, j, w);
    }
    n
}

// Whether task i, plain, is the only one of its working priority that is.
fn is_alone(s: &Image, i: usize) -> bool
    ensures { result ≡ is_alone i (view s.now) }
{
    if layout::TASKS <= i {
        return false;
    }
    if tasks::get_state(s, i) != tasks::PLAIN {
        return false;
    }
    let w = tasks::get_work(s, i);
    plain_with(s, w) <= 1
}

// Whether the second of the able queue is a peer of task i.
fn is_second_peer(s: &Image, i: usize) -> bool
    ensures { result ≡ is_second_peer i (view s.now) }
{
    let v = moves::slot_in(s, layout::ABLE_QUEUE, 1) as usize;
    if v == 0 {
        return false;
    }
    if layout::TASKS < v {
        return false;
    }
    let w = tasks::work_at(s, i);
    is_peer(s, v - 1, i, w)
}

// Whether another able task has the working priority of task i. Two quick questions mostly settle it, and else each task is asked.
pub fn has_peer(s: &Image, i: usize) -> bool
    ensures { result ≡ peer_below task_count i (view s.now) }
{
    if is_alone(s, i) {
        return false;
    }
    if is_second_peer(s, i) {
        return true;
    }
    find_peer(s, i)
}
