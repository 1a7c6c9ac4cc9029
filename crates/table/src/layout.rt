// Where things stand in the image: each column begins behind the one before. docs/IMAGE.md has the reasons. A column for each field and no record
// for each task, since C keeps these bytes and loads them again. Numbers of tasks, objects, queues and slots are plain ones: they come from C, from bytes or
// from loops and go into offsets, so the clauses say that they are below these.

// How many there are of each.
pub const TASKS: usize = 32;

pub const SEMAPHORES: usize = 16;

pub const MUTEXES: usize = 16;

pub const GROUPS: usize = 8;

// Message queues, called channels, since a queue is a row of tasks; and the messages that each may hold.
pub const CHANNELS: usize = 16;

pub const MOST_MESSAGES: usize = 32;

// The queue of the able tasks, then those of the semaphores, of the mutexes, of the groups and of the channels.
pub const ABLE_QUEUE: usize = 0;

pub const SEMAPHORE_QUEUE: usize = ABLE_QUEUE + 1;

pub const MUTEX_QUEUE: usize = SEMAPHORE_QUEUE + SEMAPHORES;

pub const GROUP_QUEUE: usize = MUTEX_QUEUE + MUTEXES;

pub const CHANNEL_QUEUE: usize = GROUP_QUEUE + GROUPS;

pub const QUEUES: usize = CHANNEL_QUEUE + CHANNELS;

pub const SLOTS: usize = TASKS;

// Tasks: a byte for each, then two, then four.
pub const USED: usize = 0;

pub const BASE: usize = USED + TASKS;

pub const WORK: usize = BASE + TASKS;

pub const SUSPEND: usize = WORK + TASKS;

pub const STATE: usize = SUSPEND + TASKS;

pub const OBJECT: usize = STATE + TASKS;

pub const MARKED: usize = OBJECT + TASKS;

pub const OUTCOME: usize = MARKED + TASKS;

pub const TEST: usize = OUTCOME + TASKS;

pub const CONSUME: usize = TEST + TASKS;

pub const QUANTUM: usize = CONSUME + TASKS;

pub const LEFT: usize = QUANTUM + 2 * TASKS;

pub const DUE: usize = LEFT + 2 * TASKS;

pub const MASK: usize = DUE + 4 * TASKS;

pub const MESSAGE: usize = MASK + 4 * TASKS;

// Semaphores.
pub const SEMAPHORE_USED: usize = MESSAGE + 4 * TASKS;

pub const COUNT: usize = SEMAPHORE_USED + SEMAPHORES;

// Mutexes.
pub const MUTEX_USED: usize = COUNT + 4 * SEMAPHORES;

pub const HOLDER: usize = MUTEX_USED + MUTEXES;

pub const NESTING: usize = HOLDER + MUTEXES;

// Groups of flags.
pub const GROUP_USED: usize = NESTING + MUTEXES;

pub const FLAGS: usize = GROUP_USED + GROUPS;

// Channels.
pub const CHANNEL_USED: usize = FLAGS + 4 * GROUPS;

pub const CAPACITY: usize = CHANNEL_USED + CHANNELS;

pub const HELD: usize = CAPACITY + CHANNELS;

// Queue q stands SLOTS * q behind.
pub const QUEUE: usize = HELD + CHANNELS;

// Single numbers.
pub const TICK: usize = QUEUE + SLOTS * QUEUES;

pub const DEFAULT_QUANTUM: usize = TICK + 4;

pub const DEPTH: usize = DEFAULT_QUANTUM + 2;

pub const RUNNING: usize = DEPTH + 1;

pub const READY: usize = RUNNING + 1;

// The messages, four bytes each; those of channel c stand ROW * c behind.
pub const MESSAGES: usize = READY + 8;

pub const ROW: usize = 4 * MOST_MESSAGES;

// How long an image is.
pub const IMAGE_SIZE: usize = MESSAGES + ROW * CHANNELS;

// The image: its length is in its type.
pub type Image = [u8; IMAGE_SIZE];
