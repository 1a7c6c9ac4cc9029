// The first standing rule that an image breaks, and the record where: each rule is tested by itself, in the order of the numbers.
#![tactic(auto)]

ghost use Rattle.std.specs.Prelude.{◌≡◌, ◌↔◌};
ghost use Rattle.std.specs.Option.{unwrap_or};
ghost use Rattle.rules.specs.Sound.{Sound};
ghost use Rattle.table.specs.Image.{view};
ghost use Rattle.why.specs.Tests.{is_kept, record_end, found_at, reason, why_of};

use table::layout::Image;

mod channels;
mod levels;
mod objects;
mod queues;
mod singles;
mod tasks;
mod waits;
mod works;

// A rule of the list and the number of a record that breaks it.
#[derive(Clone, Copy)]
pub struct Reason {
    pub rule: u32,
    pub number: u32,
}

// The numbers of the rules are below it.
const RULE_END: u32 = 0xC0;

// Whether the record i keeps the rule. The rules go by number, since C is told these numbers: docs/IMAGE.md has the list.
// Each module tests its part of it, in its own range.
fn is_kept(s: &Image, rule: u32, i: usize) -> bool
    ensures { result ≡ is_kept rule i (view s.now) }
{
    match rule {
        0x00..=0x0F => tasks::is_in_range(s, rule, i),
        0x10..=0x1F => tasks::is_right(s, rule, i),
        0x20..=0x3F => objects::is_right(s, rule, i),
        0x40..=0x4F => objects::is_group_right(s, rule, i),
        0x50..=0x54 => channels::is_right(s, rule, i),
        0x55..=0x7F => channels::is_message_right(s, rule, i),
        0x80..=0x82 => waits::is_right(s, rule, i),
        0x83..=0x8F => waits::is_holder_right(s, rule, i),
        0x90..=0x9F => queues::is_right(s, rule, i),
        0xA0..=0xAF => works::is_right(s, rule, i),
        0xB0..=0xB7 => singles::is_right(s, rule, i),
        _ => levels::is_right(s, rule, i),
    }
}

// The records of the rule have numbers below it.
#[tactic(auto, unfolding(crate::specs::Tests::record_end))]
fn record_end(rule: u32) -> usize
    ensures { result ≡ record_end rule }
{
    match rule {
        0x55..=0x5F => channels::MESSAGES,
        0x90..=0x9F => queues::RECORDS,
        0xB8.. => levels::RECORDS,
        _ => 32,
    }
}

// The first record that breaks the rule.
fn first_at(s: &Image, rule: u32) -> Option<usize>
    ensures { result ≡ found_at rule (view s.now) }
{
    for i in 0..record_end(rule) {
        if !is_kept(s, rule, i) {
            return Some(i);
        }
    }
    None
}

// The first rule that a table breaks, and the first record that breaks it. A sound table breaks none.
pub fn why(s: &Image) -> Option<Reason>
    ensures reason { unwrap_or result (reason 0 0) ≡ why_of (view s.now) }
    ensures none { (result ≡ None) ↔ Sound (view s.now) }
{
    for rule in 0..RULE_END {
        if let Some(i) = first_at(s, rule) {
            return Some(Reason {
                rule,
                number: i as u32,
            });
        }
    }
    None
}
