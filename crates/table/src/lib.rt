// The kernel's table in the bytes that the caller lends, changed in place. docs/IMAGE.md has the layout.
#![tactic(auto)]

pub mod channels;
pub mod families;
pub mod fresh;
pub mod groups;
pub mod layout;
pub mod levels;
pub mod messages;
pub mod moves;
pub mod mutexes;
pub mod numbers;
pub mod semaphores;
pub mod tasks;
