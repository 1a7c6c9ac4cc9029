// What delete and a wait that blocks must know of a kind beside its numbers.
ghost use Rattle.std.specs.Prelude.{◌≡◌, ◌<◌};
ghost use Rattle.table.specs.Image.{view};

use table::families::{Channels, Groups, Kind, Mutexes, Semaphores};
use table::layout::{self, Image};
use table::{channels, groups, messages, mutexes, semaphores};

pub trait Object: Kind {
    // The task that holds number i, where the chain begins that moves; one past the last task where none does, as
    // `chain::holder_of` has it. No body here for the kinds that nobody holds: that nobody does is a fact of each family.
    fn get_holder(s: &Image, i: usize) -> usize
        requires { i < Self.family.count }
        ensures { result ≡ Self.family.holder (view s.now) i };

    // Number i is free, and nobody waits for it.
    fn clear(s: &mut Image, i: usize)
        requires { i < Self.family.count }
        ensures { view s.new ≡ Self.family.gone i (view s.old) };
}

impl Object for Semaphores {
    fn get_holder(_: &Image, _: usize) -> usize {
        layout::TASKS
    }

    fn clear(s: &mut Image, i: usize) {
        semaphores::store(s, i, rules::Semaphore::default());
    }
}

impl Object for Mutexes {
    fn get_holder(s: &Image, i: usize) -> usize {
        chain::holder_of(s, i)
    }

    fn clear(s: &mut Image, i: usize) {
        mutexes::store(s, i, rules::Mutex::default());
    }
}

impl Object for Groups {
    fn get_holder(_: &Image, _: usize) -> usize {
        layout::TASKS
    }

    fn clear(s: &mut Image, i: usize) {
        groups::store(s, i, rules::Group::default());
    }
}

// Its messages go with a channel.
impl Object for Channels {
    fn get_holder(_: &Image, _: usize) -> usize {
        layout::TASKS
    }

    fn clear(s: &mut Image, i: usize) {
        messages::clear(s, i);
        channels::store(s, i, rules::Channel::default());
    }
}
