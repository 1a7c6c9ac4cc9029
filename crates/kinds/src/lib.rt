// What a kind byte and its numbers say: the list of kinds, for the tape and for the port.
#![tactic(auto)]

ghost use Rattle.std.specs.Prelude.{◌≡◌};
ghost use Rattle.rules.specs.Kinds.{widths, is_interrupt, plain_kind, reading};
ghost use Rattle.rules.specs.Tape.{body_length};
ghost use Rattle.kinds.specs.Row.{packed, row_of};
ghost use Rattle.kinds.specs.Interrupts.{let_in};

use rules::{Call, Reading};

// A kind plus this: made by an interrupt.
const INTERRUPT: u8 = 0x80;

pub fn is_interrupt(kind: u8) -> bool
    ensures { result ≡ is_interrupt kind }
{
    INTERRUPT <= kind
}

pub fn plain_kind(kind: u8) -> u8
    ensures { result ≡ plain_kind kind }
{
    kind % INTERRUPT
}

// The kind of the call that is let in: an interrupt's without its bit where it may make it. Else the byte stays, and no kind of the list
// has the bit: so one match on the kind finds the call and who may make it.
pub fn let_in(kind: u8) -> u8
    ensures { result ≡ let_in kind }
{
    match kind {
        0x8B => 0x0B,
        0x93 => 0x13,
        0xB3 => 0x33,
        0xC3 => 0x43,
        _ => kind,
    }
}

// A call's numbers in the order of the tape. No kind has more than six, and those that a kind does not use are not looked at.
pub type Numbers = [u32; 6];

// A kind's call, and how many bytes of the tape each of its numbers takes, a hexadecimal digit for each, the first number's the lowest.
pub type Row = (Call, u32);

// The list of kinds, by their bytes, as tapes and C have them.
pub fn row_of(k: u8, numbers: Numbers) -> Option<Row>
    ensures { result ≡ row_of k numbers }
{
    let [a, b, c, d, e, f] = numbers;
    match k {
        0x01 => Some((Call::TaskCreate(a, b, c), 0x211)),
        0x02 => Some((Call::TaskDelete(a), 0x1)),
        0x03 => Some((Call::ChangePriority(a, b), 0x11)),
        0x04 => Some((Call::Suspend(a), 0x1)),
        0x05 => Some((Call::Resume(a), 0x1)),
        0x06 => Some((Call::Yield, 0)),
        0x07 => Some((Call::Delay(a), 0x4)),
        0x08 => Some((Call::DelayResume(a), 0x1)),
        0x09 => Some((Call::Lock, 0)),
        0x0A => Some((Call::Unlock, 0)),
        0x0B => Some((Call::Tick, 0)),
        0x0D => Some((Call::SetDefaultQuantum(a), 0x2)),
        0x10 => Some((Call::SemaphoreCreate(a, b), 0x41)),
        0x11 => Some((Call::SemaphoreDelete(a, b), 0x11)),
        0x12 => Some((Call::SemaphoreWait(a, b, c), 0x411)),
        0x13 => Some((Call::SemaphorePost(a), 0x1)),
        0x14 => Some((Call::SemaphoreAbort(a), 0x1)),
        0x20 => Some((Call::MutexCreate(a), 0x1)),
        0x21 => Some((Call::MutexDelete(a, b), 0x11)),
        0x22 => Some((Call::MutexWait(a, b, c), 0x411)),
        0x23 => Some((Call::MutexPost(a), 0x1)),
        0x24 => Some((Call::MutexAbort(a), 0x1)),
        0x30 => Some((Call::GroupCreate(a, b), 0x41)),
        0x31 => Some((Call::GroupDelete(a, b), 0x11)),
        0x32 => Some((Call::GroupWait(a, b, c, d, e, f), 0x114411)),
        0x33 => Some((Call::GroupPost(a, b, c), 0x141)),
        0x34 => Some((Call::GroupAbort(a), 0x1)),
        0x40 => Some((Call::ChannelCreate(a, b), 0x11)),
        0x41 => Some((Call::ChannelDelete(a, b), 0x11)),
        0x42 => Some((Call::ChannelWait(a, b, c), 0x411)),
        0x43 => Some((Call::ChannelPost(a, b, c), 0x141)),
        0x44 => Some((Call::ChannelAbort(a), 0x1)),
        0x45 => Some((Call::ChannelFlush(a), 0x1)),
        _ => None,
    }
}

// The widths of a kind's numbers, a digit for each.
pub fn widths_of(k: u8) -> u32
    ensures { result ≡ packed (widths k) }
{
    row_of(k, [0; 6]).map_or(0, |(_, widths)| widths)
}

// The length of the body that follows a kind byte.
pub fn body_length(kind: u8) -> usize
    ensures { result ≡ body_length kind }
{
    let mut left = widths_of(plain_kind(kind)) as usize;
    let mut length = 0;
    for _ in 0..6_usize {
        length += left % 16;
        left /= 16;
    }
    length
}

pub fn reading_of(kind: u8, numbers: Numbers) -> Reading
    ensures { result ≡ reading kind numbers }
{
    Reading {
        call: row_of(plain_kind(kind), numbers).map(|(call, _)| call),
        interrupt: is_interrupt(kind),
    }
}
