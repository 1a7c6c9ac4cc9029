// A change of place in one slide: where an id stands, where it goes, and the slots between the two moved by one. For a caller whose slots and
// keys are parts of one slice; `move_behind` and `move_before` are made of the same.
ghost use Rattle.std.specs.Prelude.{◌≡◌, length, ◌+◌, ◌≤◌, ◌<◌};
ghost use Rattle.queue.specs.Slots.{first_at, same, place_from, limit};
ghost use Rattle.queue.specs.Slide.{lifted, slid, slid_within, packed_at};

// The first slot that holds v, or the length. No Option here, as `find` has it: a place past the end is what `slide` and the callers take as it comes.
pub fn slot_of(ids: &[u8], v: usize) -> usize
    ensures { result ≡ first_at (same v) ids.now }
{
    for (i, slot) in ids.iter().enumerate() {
        if *slot as usize == v {
            return i;
        }
    }
    ids.len()
}

// The place of an id, where no slot before it is free, or the length.
pub fn find_packed(ids: &[u8], id: u8) -> usize
    ensures { result ≡ packed_at (id + 1) ids.now }
{
    let v = id as usize + 1;
    for (i, slot) in ids.iter().enumerate() {
        if *slot as usize == v {
            return i;
        }
        if *slot == 0 {
            return ids.len();
        }
    }
    ids.len()
}

// Where an id with this key goes before its equals, or behind them. `ahead` says before; it is a bool, as the definitions (`limit`, `entered`) have it.
pub fn place_at(ids: &[u8], keys: &[u8], key: u8, ahead: bool) -> usize
    ensures { result ≡ place_from keys.now (limit ahead key) ids.now }
{
    if ahead {
        return crate::place_before(ids, keys, key);
    }
    crate::place_behind(ids, keys, key)
}

// The same, with the slot `at` not counted.
pub fn place_without(ids: &[u8], keys: &[u8], key: u8, ahead: bool, at: usize) -> usize
    ensures { result ≡ place_from keys.now (limit ahead key) (lifted at ids.now) }
{
    if ids.len() <= at {
        return place_at(ids, keys, key, ahead);
    }
    let front = place_at(&ids[0..at], keys, key, ahead);
    if front < at {
        return front;
    }
    let rest = place_at(&ids[at + 1..], keys, key, ahead);
    at + rest
}

// The slot `from` goes, those behind it up to `to` move one nearer, and v comes to `to`. A loop and not `copy_within` or `rotate_left`, which become
// calls of memmove: boards have no C library.
fn slide_on(ids: &mut [u8], from: usize, to: usize, v: u8)
    requires { (from ≤ to) × (to < length ids.old) }
    ensures { ids.new ≡ slid from to v ids.old }
{
    for j in from..to {
        ids[j] = ids[j + 1];
    }
    ids[to] = v;
}

// The slot `from` goes, those before it down to `to` move one further, and v comes to `to`. It runs the other way, or it would read what it has written.
fn slide_back(ids: &mut [u8], from: usize, to: usize, v: u8)
    requires { (to ≤ from) × (from < length ids.old) }
    ensures { ids.new ≡ slid from to v ids.old }
{
    for j in (to..from).rev() {
        ids[j + 1] = ids[j];
    }
    ids[to] = v;
}

// The slot `from` goes, v comes to `to`, and only the slots between move. Where one of the two is past the end, nothing moves.
pub fn slide(ids: &mut [u8], from: usize, to: usize, v: u8)
    ensures { ids.new ≡ slid_within from to v ids.old }
{
    if ids.len() <= from {
        return;
    }
    if ids.len() <= to {
        return;
    }
    if from <= to {
        slide_on(ids, from, to, v);
        return;
    }
    slide_back(ids, from, to, v);
}
