// The functions of `cqueue` as C calls them: a static library is no library for other crates, so each export here calls the library's function of
// the same name and promises what that promises.
#![tactic(auto)]

ghost use Rattle.std.specs.Prelude.{◌≡◌, cond, get_or};
ghost use Rattle.queue.specs.Slots.{place_behind, place_before, opened, fallen, closed, without};
ghost use Rattle.queue.specs.Order.{is_ordered};
ghost use Rattle.queue.specs.Answers.{head_of, found_in, insert_answer, remove_answer, move_answer, inserted, moved_in, raised_in};
ghost use Rattle.cqueue.specs.Numbers.{first_number, place_number, answer_number};

#[unsafe(no_mangle)]
pub extern "C" fn ntq_first(ids: &[u8]) -> u32
    ensures { result ≡ first_number (head_of ids.now) }
{
    cqueue::ntq_first(ids)
}

#[unsafe(no_mangle)]
pub extern "C" fn ntq_find(ids: &[u8], id: u8) -> usize
    ensures { result ≡ place_number (found_in id ids.now) }
{
    cqueue::ntq_find(ids, id)
}

#[unsafe(no_mangle)]
pub extern "C" fn ntq_place_behind(ids: &[u8], keys: &[u8], key: u8) -> usize
    ensures { result ≡ place_behind keys.now key ids.now }
{
    cqueue::ntq_place_behind(ids, keys, key)
}

#[unsafe(no_mangle)]
pub extern "C" fn ntq_place_before(ids: &[u8], keys: &[u8], key: u8) -> usize
    ensures { result ≡ place_before keys.now key ids.now }
{
    cqueue::ntq_place_before(ids, keys, key)
}

#[unsafe(no_mangle)]
pub extern "C" fn ntq_open(ids: &mut [u8], at: usize, v: u8) -> u8
    ensures { (result ≡ fallen at v ids.old) × (ids.new ≡ opened at v ids.old) }
{
    cqueue::ntq_open(ids, at, v)
}

#[unsafe(no_mangle)]
pub extern "C" fn ntq_close(ids: &mut [u8], at: usize) -> u8
    ensures { (result ≡ get_or ids.old at 0) × (ids.new ≡ closed at ids.old) }
{
    cqueue::ntq_close(ids, at)
}

#[unsafe(no_mangle)]
pub extern "C" fn ntq_insert(ids: &mut [u8], keys: &[u8], id: u8) -> u32
    ensures { (result ≡ answer_number (insert_answer keys.now id ids.old)) × (ids.new ≡ inserted keys.now id ids.old) }
{
    cqueue::ntq_insert(ids, keys, id)
}

#[unsafe(no_mangle)]
pub extern "C" fn ntq_remove(ids: &mut [u8], id: u8) -> u32
    ensures { (result ≡ answer_number (remove_answer id ids.old)) × (ids.new ≡ without id ids.old) }
{
    cqueue::ntq_remove(ids, id)
}

#[unsafe(no_mangle)]
pub extern "C" fn ntq_move_behind(ids: &mut [u8], keys: &[u8], id: u8) -> u32
    ensures { (result ≡ answer_number (move_answer keys.now id ids.old)) × (ids.new ≡ moved_in keys.now id ids.old) }
{
    cqueue::ntq_move_behind(ids, keys, id)
}

#[unsafe(no_mangle)]
pub extern "C" fn ntq_move_before(ids: &mut [u8], keys: &[u8], id: u8) -> u32
    ensures { (result ≡ answer_number (move_answer keys.now id ids.old)) × (ids.new ≡ raised_in keys.now id ids.old) }
{
    cqueue::ntq_move_before(ids, keys, id)
}

// 1 or 0: a bool of C is no number of a fixed width.
#[unsafe(no_mangle)]
pub extern "C" fn ntq_is_ordered(ids: &[u8], keys: &[u8]) -> u32
    ensures { result ≡ cond (is_ordered keys.now ids.now) 1 0 }
{
    cqueue::ntq_is_ordered(ids, keys)
}
