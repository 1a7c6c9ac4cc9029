// The rules on an object's fields.
ghost use Rattle.std.specs.Prelude.{◌≡◌, ◌<◌, eqb};
ghost use Rattle.rules.specs.Sizes.{mutex_count};
ghost use Rattle.rules.specs.Table.{mutex_of};
ghost use Rattle.rules.specs.Sound.{implies, is_no_mutex};
ghost use Rattle.table.specs.Image.{view};
ghost use Rattle.why.specs.Tests.{kept_in, object_tests, group_tests};

use table::layout::Image;
use table::{groups, mutexes, semaphores};

// A free mutex has zero fields. They are its own, so each kind has its test.
fn is_free_mutex_right(s: &Image, i: usize) -> bool
    requires { i < mutex_count }
    ensures { result ≡ implies (eqb (mutex_of (view s.now) i).used 0) (is_no_mutex (mutex_of (view s.now) i)) }
{
    let used = mutexes::get_used(s, i);
    let holder = mutexes::get_holder(s, i);
    let nesting = mutexes::get_nesting(s, i);
    (used != 0) | ((holder == 0) & (nesting == 0))
}

#[tactic(auto, unfolding(crate::specs::Tests::kept_in))]
pub fn is_right(s: &Image, rule: u32, i: usize) -> bool
    ensures { result ≡ kept_in object_tests rule i (view s.now) }
{
    if 16 <= i {
        return true;
    }
    match rule {
        0x20 => semaphores::get_used(s, i) <= 1,
        0x21 => semaphores::get_count(s, i) <= 4294967295,
        0x22 => (semaphores::get_used(s, i) != 0) | (semaphores::get_count(s, i) == 0),
        0x30 => mutexes::get_used(s, i) <= 1,
        0x31 => mutexes::get_holder(s, i) <= 32,
        0x32 => mutexes::get_nesting(s, i) <= 250,
        0x33 => is_free_mutex_right(s, i),
        0x34 => (mutexes::get_holder(s, i) != 0) | (mutexes::get_nesting(s, i) == 0),
        0x35 => (mutexes::get_holder(s, i) == 0) | (1 <= mutexes::get_nesting(s, i)),
        _ => true,
    }
}

#[tactic(auto, unfolding(crate::specs::Tests::kept_in))]
pub fn is_group_right(s: &Image, rule: u32, i: usize) -> bool
    ensures { result ≡ kept_in group_tests rule i (view s.now) }
{
    if 8 <= i {
        return true;
    }
    match rule {
        0x40 => groups::get_used(s, i) <= 1,
        0x41 => (groups::get_flags(s, i) as u64) < 4294967296,
        0x42 => (groups::get_used(s, i) != 0) | (groups::get_flags(s, i) == 0),
        _ => true,
    }
}
