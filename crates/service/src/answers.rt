// What a call is answered: that it is done, or that its caller waits; or why it is refused. The numbers are those of the paper.
ghost use Rattle.std.specs.Prelude.{◌≡◌};
ghost use Rattle.service.specs.Answers.{number_of};
ghost use Rattle.service.specs.Told.{told_of};

// What became of a call that is not refused.
#[derive(Clone, Copy, PartialEq, Eq)]
pub enum Done {
    Now = 0,
    Waits = 14,
}

// Why a call is refused. That by an interrupt, 5, and that of a table which is not sound, 15, come before any service.
#[derive(Clone, Copy, PartialEq, Eq)]
pub enum Refusal {
    BeyondRange = 1,
    NotInUse = 2,
    InUse = 3,
    BadValue = 4,
    NoneRunning = 6,
    WhileLocked = 7,
    NothingToTake = 8,
    NotItsHolder = 9,
    NestedTooDeep = 10,
    CountFull = 11,
    NotLocked = 12,
    StillNeeded = 13,
    ChannelFull = 16,
    NotSuspended = 17,
    NotDelayed = 18,
    NoWaiter = 19,
    NoPeer = 20,
}

pub type Answer = Result<Done, Refusal>;

// The number of the paper. A function and no From: neither a Result nor a number is a type of this crate.
pub fn number(answer: Answer) -> u8
    ensures { result ≡ number_of answer }
{
    match answer {
        Ok(done) => done as u8,
        Err(why) => why as u8,
    }
}

// The numbers of a call that tells a further result: the answer in the lower 16 bits, and above it what it tells.
pub fn told(answer: Result<u16, Refusal>) -> u32
    ensures { result ≡ told_of answer }
{
    match answer {
        Ok(further) => 65536 * further as u32,
        Err(why) => why as u32,
    }
}
