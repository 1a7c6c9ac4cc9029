// Reading a field of the table, for the port, a debugger and the port's tests. Every input is taken. The fields go by
// number, since C asks by a field's number and a record's.
ghost use Rattle.std.specs.Prelude.{◌≡◌};
ghost use Rattle.std.specs.Option.{unwrap_or};
ghost use Rattle.table.specs.Image.{view};
ghost use Rattle.port.specs.Field.{no_field, shown_in, task_fields, object_fields, group_fields, channel_fields, queue_fields, message_fields, single_fields, read_of};

use table::layout::Image;

// What C is given where there is no such field or number: no field shows it.
pub const NO_FIELD: u64 = 18446744073709551615;

// The slots of all queues.
const SLOTS: u32 = 57 * 32;

// The messages of all channels.
const MESSAGES: u32 = 16 * 32;

// A function for each part of the list: its range and its clause are its own. Each is within `read`, as its Option would come back in two registers.
#[inline(always)]
#[tactic(auto, unfolding(crate::specs::Field::shown_in))]
fn task_field(field: u32, number: u32, s: &Image) -> Option<u64>
    ensures { unwrap_or result no_field ≡ shown_in task_fields field number (view s.now) }
{
    if 32 <= number {
        return None;
    }
    let i = number as usize;
    match field {
        0x00 => Some(table::tasks::get_used(s, i) as u64),
        0x01 => Some(table::tasks::get_base(s, i) as u64),
        0x02 => Some(table::tasks::get_work(s, i) as u64),
        0x03 => Some(table::tasks::get_suspend(s, i) as u64),
        0x04 => Some(table::tasks::get_quantum(s, i) as u64),
        0x05 => Some(table::tasks::get_left(s, i) as u64),
        0x06 => Some(table::tasks::get_state(s, i) as u64),
        0x07 => Some(table::tasks::get_object(s, i) as u64),
        0x08 => Some(table::tasks::get_marked(s, i) as u64),
        0x09 => Some(table::tasks::get_due(s, i) as u64),
        0x0A => Some(table::tasks::get_outcome(s, i) as u64),
        0x0B => Some(table::tasks::get_mask(s, i) as u64),
        0x0C => Some(table::tasks::get_test(s, i) as u64),
        0x0D => Some(table::tasks::get_consume(s, i) as u64),
        0x0E => Some(table::tasks::get_message(s, i) as u64),
        _ => None,
    }
}

#[inline(always)]
#[tactic(auto, unfolding(crate::specs::Field::shown_in))]
fn object_field(field: u32, number: u32, s: &Image) -> Option<u64>
    ensures { unwrap_or result no_field ≡ shown_in object_fields field number (view s.now) }
{
    if 16 <= number {
        return None;
    }
    let i = number as usize;
    match field {
        0x10 => Some(table::semaphores::get_used(s, i) as u64),
        0x11 => Some(table::semaphores::get_count(s, i) as u64),
        0x20 => Some(table::mutexes::get_used(s, i) as u64),
        0x21 => Some(table::mutexes::get_holder(s, i) as u64),
        0x22 => Some(table::mutexes::get_nesting(s, i) as u64),
        _ => None,
    }
}

#[inline(always)]
#[tactic(auto, unfolding(crate::specs::Field::shown_in))]
fn group_field(field: u32, number: u32, s: &Image) -> Option<u64>
    ensures { unwrap_or result no_field ≡ shown_in group_fields field number (view s.now) }
{
    if 8 <= number {
        return None;
    }
    let i = number as usize;
    match field {
        0x30 => Some(table::groups::get_used(s, i) as u64),
        0x31 => Some(table::groups::get_flags(s, i) as u64),
        _ => None,
    }
}

#[inline(always)]
#[tactic(auto, unfolding(crate::specs::Field::shown_in))]
fn channel_field(field: u32, number: u32, s: &Image) -> Option<u64>
    ensures { unwrap_or result no_field ≡ shown_in channel_fields field number (view s.now) }
{
    if 16 <= number {
        return None;
    }
    let i = number as usize;
    match field {
        0x40 => Some(table::channels::get_used(s, i) as u64),
        0x41 => Some(table::channels::get_capacity(s, i) as u64),
        0x42 => Some(table::channels::get_held(s, i) as u64),
        _ => None,
    }
}

// Slot j of queue q is number 32 q + j.
#[inline(always)]
#[tactic(auto, unfolding(crate::specs::Field::shown_in))]
fn slot_field(field: u32, number: u32, s: &Image) -> Option<u64>
    ensures { unwrap_or result no_field ≡ shown_in queue_fields field number (view s.now) }
{
    if SLOTS <= number {
        return None;
    }
    let i = number as usize;
    match field {
        0xE0 => Some(table::moves::slot_in(s, i / 32, i % 32) as u64),
        _ => None,
    }
}

// Slot j of the row of channel c is number 32 c + j.
#[inline(always)]
#[tactic(auto, unfolding(crate::specs::Field::shown_in))]
fn message_field(field: u32, number: u32, s: &Image) -> Option<u64>
    ensures { unwrap_or result no_field ≡ shown_in message_fields field number (view s.now) }
{
    if MESSAGES <= number {
        return None;
    }
    let i = number as usize;
    match field {
        0xE1 => Some(table::channels::get_message_at(s, i / 32, i % 32) as u64),
        _ => None,
    }
}

#[inline(always)]
#[tactic(auto, unfolding(crate::specs::Field::shown_in))]
fn single_field(field: u32, number: u32, s: &Image) -> Option<u64>
    ensures { unwrap_or result no_field ≡ shown_in single_fields field number (view s.now) }
{
    if 1 <= number {
        return None;
    }
    match field {
        0xF0 => Some(table::numbers::get_tick(s) as u64),
        0xF1 => Some(table::numbers::get_depth(s) as u64),
        0xF2 => Some(table::numbers::get_running(s) as u64),
        0xF3 => Some(table::numbers::get_default(s) as u64),
        0xF4 => Some(table::numbers::get_ready(s)),
        _ => None,
    }
}

// A field of the table that any bytes show.
fn read(field: u32, number: u32, image: &[u8]) -> Option<u64>
    ensures { unwrap_or result no_field ≡ read_of field number image.now }
{
    let s: &Image = image.as_array()?;
    match field {
        0x00..=0x0F => task_field(field, number, s),
        0x10..=0x2F => object_field(field, number, s),
        0x30..=0x3F => group_field(field, number, s),
        0x40..=0x4F => channel_field(field, number, s),
        0x50..=0xE0 => slot_field(field, number, s),
        0xE1..=0xEF => message_field(field, number, s),
        _ => single_field(field, number, s),
    }
}

pub fn ntk_read(field: u32, number: u32, image: &[u8]) -> u64
    ensures { result ≡ read_of field number image.now }
{
    read(field, number, image).unwrap_or(NO_FIELD)
}
