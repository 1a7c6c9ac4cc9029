// The kinds of objects that tasks wait for: each is a family of the rules, and what is the same of every kind is said once, over a kind.
ghost use Rattle.std.specs.Prelude.{◌≡◌, refl, List, ℕ, ◌+◌, ◌≤◌, ◌<◌, length};
ghost use Rattle.std.proofs.Common.{rules};
ghost use Rattle.rules.specs.Family.{Family, semaphores, mutexes, groups, channels};
ghost use Rattle.rules.specs.Table.{queue_count};
ghost use Rattle.table.specs.Image.{image_size, view};
ghost use Rattle.table.specs.Beyond.{no_semaphore_beyond, no_mutex_beyond, no_group_beyond, no_channel_beyond};

use crate::layout::Image;
use crate::{layout, tasks};

pub trait Kind {
    // The state of a task that waits for one of them, how many there are, and the queue of number 0.
    const STATE: u8;

    const COUNT: usize;

    const FIRST: usize;

    ghost STATE: { ℕ };

    ghost COUNT: { ℕ };

    ghost FIRST: { ℕ };

    ghost family: { Family };

    // Whether number i is in use: 1 where it is.
    fn get_used(s: &Image, i: usize) -> u8
        requires { i < family.count }
        ensures { result ≡ family.used (view s.now) i };

    ghost state_is: { STATE ≡ family.state };

    ghost count_is: { COUNT ≡ family.count };

    ghost first_is: { FIRST ≡ family.first };

    ghost queues: { family.first + family.count ≤ queue_count };

    ghost beyond: { (l : List ℕ) → length l ≡ image_size → (i : ℕ) → family.count ≤ i → 0 ≡ family.used (view l) i };
}

pub struct Semaphores;

pub struct Mutexes;

pub struct Groups;

// Message queues.
pub struct Channels;

impl Kind for Semaphores {
    const STATE: u8 = tasks::WAITS_SEMAPHORE;

    const COUNT: usize = layout::SEMAPHORES;

    const FIRST: usize = layout::SEMAPHORE_QUEUE;

    ghost STATE = { semaphores.state };

    ghost COUNT = { semaphores.count };

    ghost FIRST = { semaphores.first };

    ghost family = { semaphores };

    fn get_used(s: &Image, i: usize) -> u8 {
        crate::semaphores::get_used(s, i)
    }

    ghost state_is = { refl };

    ghost count_is = { refl };

    ghost first_is = { refl };

    ghost queues = { Prim.search rules };

    ghost beyond = { no_semaphore_beyond };
}

impl Kind for Mutexes {
    const STATE: u8 = tasks::WAITS_MUTEX;

    const COUNT: usize = layout::MUTEXES;

    const FIRST: usize = layout::MUTEX_QUEUE;

    ghost STATE = { mutexes.state };

    ghost COUNT = { mutexes.count };

    ghost FIRST = { mutexes.first };

    ghost family = { mutexes };

    fn get_used(s: &Image, i: usize) -> u8 {
        crate::mutexes::get_used(s, i)
    }

    ghost state_is = { refl };

    ghost count_is = { refl };

    ghost first_is = { refl };

    ghost queues = { Prim.search rules };

    ghost beyond = { no_mutex_beyond };
}

impl Kind for Groups {
    const STATE: u8 = tasks::WAITS_FLAGS;

    const COUNT: usize = layout::GROUPS;

    const FIRST: usize = layout::GROUP_QUEUE;

    ghost STATE = { groups.state };

    ghost COUNT = { groups.count };

    ghost FIRST = { groups.first };

    ghost family = { groups };

    fn get_used(s: &Image, i: usize) -> u8 {
        crate::groups::get_used(s, i)
    }

    ghost state_is = { refl };

    ghost count_is = { refl };

    ghost first_is = { refl };

    ghost queues = { Prim.search rules };

    ghost beyond = { no_group_beyond };
}

impl Kind for Channels {
    const STATE: u8 = tasks::WAITS_MESSAGE;

    const COUNT: usize = layout::CHANNELS;

    const FIRST: usize = layout::CHANNEL_QUEUE;

    ghost STATE = { channels.state };

    ghost COUNT = { channels.count };

    ghost FIRST = { channels.first };

    ghost family = { channels };

    fn get_used(s: &Image, i: usize) -> u8 {
        crate::channels::get_used(s, i)
    }

    ghost state_is = { refl };

    ghost count_is = { refl };

    ghost first_is = { refl };

    ghost queues = { Prim.search rules };

    ghost beyond = { no_channel_beyond };
}

// The same of every number, 0 where there is no such number, as the rules have it: what a task waits for comes out of the bytes.
pub fn used_at<K: Kind>(s: &Image, i: usize) -> u8
    ensures { result ≡ K.family.used (view s.now) i }
{
    if K::COUNT <= i {
        return 0;
    }
    K::get_used(s, i)
}
