// Sets of 32 flags: what a wait's test wants of them, what it consumes, and what a post makes of them.
ghost use Rattle.std.specs.Prelude.{◌≡◌};
ghost use Rattle.rules.specs.Group.{meeting, is_met, consumed, posted};
ghost use Rattle.object.specs.Asking.{asked_in};

use table::tasks::Asked;

// The four tests. A task's is a byte in the image, and an image that is not sound may hold any.
pub const ALL_SET: u8 = 0;

pub const ALL_CLEAR: u8 = 2;

pub const COUNT: u32 = 4;

// The flags of the mask that are as the test wants them: set, or clear.
pub fn meeting(flags: u32, asked: Asked) -> u32
    ensures { result ≡ meeting flags (asked_in asked) }
{
    let are_set = flags & asked.mask;
    if asked.test < ALL_CLEAR {
        return are_set;
    }
    asked.mask ^ are_set
}

// All of the mask, or any.
pub fn is_met(flags: u32, asked: Asked) -> bool
    ensures { result ≡ is_met flags (asked_in asked) }
{
    let right = meeting(flags, asked);
    if (asked.test == ALL_SET) | (asked.test == ALL_CLEAR) {
        return right == asked.mask;
    }
    right != 0
}

pub fn consumed(flags: u32, asked: Asked) -> u32
    ensures { result ≡ consumed flags (asked_in asked) }
{
    if asked.consume == 1 {
        return meeting(flags, asked);
    }
    0
}

// The mask's flags are set, or cleared. `on` is the word of the call, as the rules' `posted` takes it.
pub fn posted(flags: u32, mask: u32, on: u32) -> u32
    ensures { result ≡ posted mask on flags }
{
    if on == 1 {
        return flags | mask;
    }
    flags ^ (flags & mask)
}
