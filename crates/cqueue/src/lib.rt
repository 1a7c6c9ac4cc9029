// The queues for C code: each public function of `queue` but those of `slides`, under its name, with a number for each answer. Every input is taken, as
// `queue` takes it. `cqueue_c` exports them; a slice is a pointer and then a length in C.
#![tactic(auto)]

ghost use Rattle.std.specs.Prelude.{◌≡◌, cond, get_or};
ghost use Rattle.queue.specs.Slots.{place_behind, place_before, opened, fallen, closed, without};
ghost use Rattle.queue.specs.Order.{is_ordered};
ghost use Rattle.queue.specs.Answers.{head_of, found_in, insert_answer, remove_answer, move_answer, inserted, moved_in, raised_in};
ghost use Rattle.cqueue.specs.Numbers.{first_number, place_number, answer_number};

use queue::Refusal;

// A function and no From: neither a Result nor a number is a type of this crate.
fn answer_number(answer: Result<(), Refusal>) -> u32
    ensures { result ≡ answer_number answer }
{
    match answer {
        Ok(()) => 0,
        Err(refusal) => refusal as u32,
    }
}

pub fn ntq_first(ids: &[u8]) -> u32
    ensures { result ≡ first_number (head_of ids.now) }
{
    queue::first(ids).map_or(256, u32::from)
}

pub fn ntq_find(ids: &[u8], id: u8) -> usize
    ensures { result ≡ place_number (found_in id ids.now) }
{
    queue::find(ids, id).unwrap_or(usize::MAX)
}

pub fn ntq_place_behind(ids: &[u8], keys: &[u8], key: u8) -> usize
    ensures { result ≡ place_behind keys.now key ids.now }
{
    queue::place_behind(ids, keys, key)
}

pub fn ntq_place_before(ids: &[u8], keys: &[u8], key: u8) -> usize
    ensures { result ≡ place_before keys.now key ids.now }
{
    queue::place_before(ids, keys, key)
}

pub fn ntq_open(ids: &mut [u8], at: usize, v: u8) -> u8
    ensures { (result ≡ fallen at v ids.old) × (ids.new ≡ opened at v ids.old) }
{
    queue::open(ids, at, v)
}

pub fn ntq_close(ids: &mut [u8], at: usize) -> u8
    ensures { (result ≡ get_or ids.old at 0) × (ids.new ≡ closed at ids.old) }
{
    queue::close(ids, at)
}

pub fn ntq_insert(ids: &mut [u8], keys: &[u8], id: u8) -> u32
    ensures { (result ≡ answer_number (insert_answer keys.now id ids.old)) × (ids.new ≡ inserted keys.now id ids.old) }
{
    answer_number(queue::insert(ids, keys, id))
}

pub fn ntq_remove(ids: &mut [u8], id: u8) -> u32
    ensures { (result ≡ answer_number (remove_answer id ids.old)) × (ids.new ≡ without id ids.old) }
{
    answer_number(queue::remove(ids, id))
}

pub fn ntq_move_behind(ids: &mut [u8], keys: &[u8], id: u8) -> u32
    ensures { (result ≡ answer_number (move_answer keys.now id ids.old)) × (ids.new ≡ moved_in keys.now id ids.old) }
{
    answer_number(queue::move_behind(ids, keys, id))
}

pub fn ntq_move_before(ids: &mut [u8], keys: &[u8], id: u8) -> u32
    ensures { (result ≡ answer_number (move_answer keys.now id ids.old)) × (ids.new ≡ raised_in keys.now id ids.old) }
{
    answer_number(queue::move_before(ids, keys, id))
}

// 1 or 0: a bool of C is no number of a fixed width.
pub fn ntq_is_ordered(ids: &[u8], keys: &[u8]) -> u32
    ensures { result ≡ cond (is_ordered keys.now ids.now) 1 0 }
{
    queue::is_ordered(ids, keys) as u32
}
