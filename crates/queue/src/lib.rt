// Ordered queues in place, on slices of any length. A slot is a byte: 0 is free, and v holds the id v - 1. The queue is packed to
// the front, in the order of the keys that the caller lends (a key for each id, the smaller first), and among equals by arrival.
// No public function asks anything of its caller; each refusal leaves the slots as they came. The slots are bytes that the caller keeps, C among them,
// so one that is lent, taken or given back is its byte and no Option. Slots and keys stay two slices: C lends two, and the table two parts of one.
#![tactic(auto)]

ghost use Rattle.std.specs.Prelude.{◌≡◌, length, get_or, drop, ◌+◌, ◌<◌};
ghost use Rattle.queue.specs.Slots.{first_at, same, from, place_behind, place_before, opened, fallen, closed, entered, without, replaced};
ghost use Rattle.queue.specs.Slide.{packed_at};
ghost use Rattle.queue.specs.Order.{may_precede, fits, is_ordered};
ghost use Rattle.queue.specs.Answers.{head_of, found_in, known, insert_answer, remove_answer, move_answer, inserted, replaced_in, moved_in, raised_in};

mod shifts;
pub mod slides;

use shifts::FEW;

// Why a queue stays as it came. C gets these numbers.
#[derive(Clone, Copy, PartialEq, Eq)]
pub enum Refusal {
    BeyondKeys = 1,
    AlreadyThere = 2,
    NotThere = 3,
    Full = 4,
}

// The slot j, and past the end a free one.
fn slot_or_free(ids: &[u8], j: usize) -> u8
    ensures { result ≡ get_or ids.now j 0 }
{
    ids.get(j).copied().unwrap_or(0)
}

// The first id.
#[tactic(auto, unfolding(crate::specs::Answers::head_of))]
pub fn first(ids: &[u8]) -> Option<u8>
    ensures { result ≡ head_of ids.now }
{
    match slot_or_free(ids, 0) {
        0 => None,
        v => Some(v - 1),
    }
}

// The place of an id.
pub fn find(ids: &[u8], id: u8) -> Option<usize>
    ensures { result ≡ found_in id ids.now }
{
    let at = slides::slot_of(ids, id as usize + 1);
    (at < ids.len()).then_some(at)
}

// Whether a slot is free, or its id has a greater key.
fn is_later(keys: &[u8], key: u8, v: u8) -> bool
    ensures { result ≡ from keys.now (key + 1) v }
{
    if v == 0 {
        return true;
    }
    let k = slot_or_free(keys, v as usize - 1);
    key < k
}

// Where an id with this key goes behind its equals, or the length where all slots are before it.
pub fn place_behind(ids: &[u8], keys: &[u8], key: u8) -> usize
    ensures { result ≡ place_behind keys.now key ids.now }
{
    for (i, slot) in ids.iter().enumerate() {
        if is_later(keys, key, *slot) {
            return i;
        }
    }
    ids.len()
}

// Where it goes before them: behind those of the keys before its own, and in front where there is none.
pub fn place_before(ids: &[u8], keys: &[u8], key: u8) -> usize
    ensures { result ≡ place_before keys.now key ids.now }
{
    if key == 0 {
        return 0;
    }
    place_behind(ids, keys, key - 1)
}

// v comes to the slot `at`, and those from there on move one further, up to the first free slot. Answers what falls out at
// the end: 0 where a slot was free, and v itself where `at` is past the end.
fn open_up(ids: &mut [u8], at: usize, v: u8) -> u8
    ensures { (result ≡ fallen at v ids.old) × (ids.new ≡ opened at v ids.old) }
{
    match shifts::open_each(ids, at, true, v) {
        Ok(fallen) => fallen,
        Err(carry) => shifts::open_nines(ids, at + FEW, carry),
    }
}

// The same. At the front one look tells a short queue from a longer one.
pub fn open(ids: &mut [u8], at: usize, v: u8) -> u8
    ensures { (result ≡ fallen at v ids.old) × (ids.new ≡ opened at v ids.old) }
{
    if (at == 0) & (slot_or_free(ids, FEW - 1) != 0) {
        return shifts::open_nines(ids, at, v);
    }
    open_up(ids, at, v)
}

// The slot `at` goes, and those behind it move one nearer, up to the first free slot.
fn close_up(ids: &mut [u8], at: usize)
    ensures { ids.new ≡ closed at ids.old }
{
    if shifts::close_each(ids, at, true) {
        shifts::close_nines(ids, at + FEW);
    }
}

// The same. Answers what stood there.
pub fn close(ids: &mut [u8], at: usize) -> u8
    ensures { (result ≡ get_or ids.old at 0) × (ids.new ≡ closed at ids.old) }
{
    let gone = slot_or_free(ids, at);
    close_up(ids, at);
    gone
}

// The front slot goes, the most frequent change of all.
fn close_front(ids: &mut [u8])
    ensures { ids.new ≡ closed 0 ids.old }
{
    if slot_or_free(ids, FEW) == 0 {
        close_up(ids, 0);
        return;
    }
    shifts::close_nines(ids, 0);
}

// Whether an id has a key, and a slot can hold it: 255 it cannot.
fn is_known(keys: &[u8], id: u8) -> bool
    ensures { result ≡ known keys.now id }
{
    (id < 255) & ((id as usize) < keys.len())
}

fn enter(ids: &mut [u8], keys: &[u8], id: u8, ahead: bool)
    requires { id < 255 }
    ensures { ids.new ≡ entered ahead keys.now id ids.old }
{
    let key = slot_or_free(keys, id as usize);
    let at = slides::place_at(ids, keys, key, ahead);
    open(ids, at, id + 1);
}

// The id goes behind its equals. Refused: an id without a key, or 255; one that stands there; where no slot is free.
pub fn insert(ids: &mut [u8], keys: &[u8], id: u8) -> Result<(), Refusal>
    ensures { (result ≡ insert_answer keys.now id ids.old) × (ids.new ≡ inserted keys.now id ids.old) }
{
    if !is_known(keys, id) {
        return Err(Refusal::BeyondKeys);
    }
    if find(ids, id).is_some() {
        return Err(Refusal::AlreadyThere);
    }
    let free = slides::slot_of(ids, 0);
    if ids.len() <= free {
        return Err(Refusal::Full);
    }
    enter(ids, keys, id, false);
    Ok(())
}

// The id leaves. Refused: one that does not stand there.
pub fn remove(ids: &mut [u8], id: u8) -> Result<(), Refusal>
    ensures { (result ≡ remove_answer id ids.old) × (ids.new ≡ without id ids.old) }
{
    if slot_or_free(ids, 0) as usize == id as usize + 1 {
        close_front(ids);
        return Ok(());
    }
    let Some(at) = find(ids, id) else {
        return Err(Refusal::NotThere);
    };
    close_up(ids, at);
    Ok(())
}

// The slot `at`, where the id stands with no free slot before, goes, and the id comes before its equals or behind them: only the slots between move.
fn move_from(ids: &mut [u8], keys: &[u8], at: usize, id: u8, ahead: bool)
    requires { (id < 255) × (at < length ids.old) × (at ≡ packed_at (id + 1) ids.old) }
    ensures { ids.new ≡ replaced ahead keys.now id ids.old }
{
    let key = slot_or_free(keys, id as usize);
    let to = slides::place_without(ids, keys, key, ahead, at);
    slides::slide(ids, at, to, id + 1);
}

// The id leaves and goes before its equals or behind them.
fn move_anew(ids: &mut [u8], keys: &[u8], id: u8, ahead: bool) -> Result<(), Refusal>
    ensures { (result ≡ move_answer keys.now id ids.old) × (ids.new ≡ replaced_in ahead keys.now id ids.old) }
{
    if !is_known(keys, id) {
        return Err(Refusal::BeyondKeys);
    }
    let near = slides::find_packed(ids, id);
    if near < ids.len() {
        move_from(ids, keys, near, id, ahead);
        return Ok(());
    }
    // No packed queue that has the id comes here: with a free slot before it one slide would leave something else.
    let Some(at) = find(ids, id) else {
        return Err(Refusal::NotThere);
    };
    close(ids, at);
    enter(ids, keys, id, ahead);
    Ok(())
}

// The id, whose key has changed, leaves and goes behind its equals at the new level. Refused: an id without a key, or 255; one
// that does not stand there.
pub fn move_behind(ids: &mut [u8], keys: &[u8], id: u8) -> Result<(), Refusal>
    ensures { (result ≡ move_answer keys.now id ids.old) × (ids.new ≡ moved_in keys.now id ids.old) }
{
    move_anew(ids, keys, id, false)
}

// The same, before its equals.
pub fn move_before(ids: &mut [u8], keys: &[u8], id: u8) -> Result<(), Refusal>
    ensures { (result ≡ move_answer keys.now id ids.old) × (ids.new ≡ raised_in keys.now id ids.old) }
{
    move_anew(ids, keys, id, true)
}

// Whether the slot v may stand before the slot w: w is free, or its key is no smaller.
fn may_precede(keys: &[u8], v: u8, w: u8) -> bool
    requires { 0 < v }
    ensures { result ≡ may_precede keys.now v w }
{
    if w == 0 {
        return true;
    }
    let a = slot_or_free(keys, v as usize - 1);
    let b = slot_or_free(keys, w as usize - 1);
    a <= b
}

// Whether the slot j is as it should be, before those behind it.
fn is_fit(ids: &[u8], keys: &[u8], j: usize) -> bool
    requires { j < length ids.now }
    ensures { result ≡ fits keys.now (get_or ids.now j 0) (drop (j + 1) ids.now) }
{
    let v = ids[j];
    let w = slot_or_free(ids, j + 1);
    if v == 0 {
        return w == 0;
    }
    let rest = &ids[j + 1..];
    let again = slides::slot_of(rest, v as usize);
    let once = rest.len() <= again;
    let ordered = may_precede(keys, v, w);
    ((v as usize) <= keys.len()) & (once & ordered)
}

// Whether the queue is as it should be: packed, each id within the keys, none twice, in order.
pub fn is_ordered(ids: &[u8], keys: &[u8]) -> bool
    ensures { result ≡ is_ordered keys.now ids.now }
{
    for j in 0..ids.len() {
        if !is_fit(ids, keys, j) {
            return false;
        }
    }
    true
}
