// The records and calls that the rules and the code share. What they mean stands in specs/.
#![tactic(auto)]

// A task. `object` is the number of the object that it waits for, and `due` its due mark; each is 0 where there is none. `mask`, `test` and
// `consume` are what it asks of the flags that it waits for, 0 where it waits for none. `message` is the last message that it was given, 0 where
// it has had none. The fields are the numbers of the image: one that is not sound may hold any, so none of them is a bool, an Option or an enum.
#[derive(Clone, Copy, Default)]
pub struct Task {
    pub used: u8,
    pub base: u8,
    pub work: u8,
    pub suspend: u8,
    pub quantum: u16,
    pub left: u16,
    pub state: u8,
    pub object: u8,
    pub marked: u8,
    pub due: u32,
    pub outcome: u8,
    pub mask: u32,
    pub test: u8,
    pub consume: u8,
    pub message: u32,
}

#[derive(Clone, Copy, Default)]
pub struct Semaphore {
    pub used: u8,
    pub count: u32,
}

// The holder is a task's number plus 1, or 0 for none.
#[derive(Clone, Copy, Default)]
pub struct Mutex {
    pub used: u8,
    pub holder: u8,
    pub nesting: u8,
}

// A group of 32 flags.
#[derive(Clone, Copy, Default)]
pub struct Group {
    pub used: u8,
    pub flags: u32,
}

// A message queue, called a channel here, since a queue is a row of tasks. `held` is how many messages it has; they stand in the table's row of it.
#[derive(Clone, Copy, Default)]
pub struct Channel {
    pub used: u8,
    pub capacity: u8,
    pub held: u8,
}

// A service call or tick, with its numbers in the order of the tape.
#[derive(Clone, Copy)]
pub enum Call {
    TaskCreate(u32, u32, u32),
    TaskDelete(u32),
    ChangePriority(u32, u32),
    Suspend(u32),
    Resume(u32),
    Yield,
    Delay(u32),
    DelayResume(u32),
    Lock,
    Unlock,
    Tick,
    SetDefaultQuantum(u32),
    SemaphoreCreate(u32, u32),
    SemaphoreDelete(u32, u32),
    SemaphoreWait(u32, u32, u32),
    SemaphorePost(u32),
    SemaphoreAbort(u32),
    MutexCreate(u32),
    MutexDelete(u32, u32),
    MutexWait(u32, u32, u32),
    MutexPost(u32),
    MutexAbort(u32),
    GroupCreate(u32, u32),
    GroupDelete(u32, u32),
    GroupWait(u32, u32, u32, u32, u32, u32),
    GroupPost(u32, u32, u32),
    GroupAbort(u32),
    ChannelCreate(u32, u32),
    ChannelDelete(u32, u32),
    ChannelWait(u32, u32, u32),
    ChannelPost(u32, u32, u32),
    ChannelAbort(u32),
    ChannelFlush(u32),
}

// What a kind byte and its numbers say: the call, none where the list lacks the kind, and whether an interrupt made it, which is no
// flag of the call: either holds with any.
#[derive(Clone, Copy)]
pub struct Reading {
    pub call: Option<Call>,
    pub interrupt: bool,
}
