// Shifts of long queues, nine slots at a time where they are packed.
ghost use Rattle.std.specs.Prelude.{◌≡◌, true, ◌+◌, ◌≤◌, [], ◌∷◌, ◌++◌, length, get_or, take, drop, cond, MatchResult};
ghost use Rattle.queue.specs.Slots.{opened, fallen, closed};
ghost use Rattle.queue.specs.Packed.{packed, has_packed};

// So many slots are shifted one by one: a short queue is done by then, and nine at a time gain on a longer one.
pub const FEW: usize = 5;

// v comes to the slot `at`, and those from there on move one further, slot by slot, up to the first free one; with `few` so many at most. Answers what
// falls out at the end, or else what comes to the next slot. Within its callers, where `few` is known, a few slots are no loop.
#[inline(always)]
pub fn open_each(ids: &mut [u8], at: usize, few: bool, v: u8) -> Result<u8, u8>
    ensures { MatchResult result
        (λ out. (out ≡ fallen at v ids.old) × (ids.new ≡ opened at v ids.old))
        (λ w. (few ≡ true) × (at + FEW ≤ length ids.old) × (fallen (at + FEW) w ids.new ≡ fallen at v ids.old) × (opened (at + FEW) w ids.new ≡ opened at v ids.old)) }
{
    let mut carry = v;
    for j in at..ids.len() {
        let y = ids[j];
        ids[j] = carry;
        if y == 0 {
            return Ok(0);
        }
        carry = y;
        if few & (j + 1 - at == FEW) {
            return Err(carry);
        }
    }
    Ok(carry)
}

// The slot `at` goes, and those behind it move one nearer, slot by slot, up to the first free one; with `few` so many at most. Answers whether the next
// slot has to go then.
#[inline(always)]
pub fn close_each(ids: &mut [u8], at: usize, few: bool) -> bool
    ensures more { result ≡ true → (few ≡ true) × (at + FEW ≤ length ids.old) }
    ensures left { cond result (closed (at + FEW) ids.new) ids.new ≡ closed at ids.old }
{
    for j in at..ids.len() {
        let y = crate::slot_or_free(ids, j + 1);
        ids[j] = y;
        if y == 0 {
            return false;
        }
        if few & (j + 1 - at == FEW) {
            return true;
        }
    }
    false
}

// v comes to the first of nine slots, and the others move one further. Answers the last. All are read before any is written, and so
// the compiler makes one load and one store of eight bytes. The nine become an array here and not before: of an array made of a part of a slice
// a caller isn't told what it leaves in the slice.
fn push_nine(b: &mut [u8], v: u8) -> u8
    requires { length b.old ≡ 9 }
    ensures { (result ≡ get_or b.old 8 0) × (b.new ≡ v ∷ take 8 b.old) }
{
    let Some(nine) = b.as_mut_array::<9>() else {
        unreachable!()
    };
    let [b0, b1, b2, b3, b4, b5, b6, b7, b8] = *nine;
    *nine = [v, b0, b1, b2, b3, b4, b5, b6, b7];
    b8
}

// The first of nine slots goes, and the others move one nearer. Answers the last, which stays where it was too. It moves
// the other way, so no constant makes it of `push_nine`.
fn pull_nine(b: &mut [u8]) -> u8
    requires { length b.old ≡ 9 }
    ensures { (result ≡ get_or b.old 8 0) × (b.new ≡ take 8 (drop 1 b.old) ++ get_or b.old 8 0 ∷ []) }
{
    let Some(nine) = b.as_mut_array::<9>() else {
        unreachable!()
    };
    let [_, b1, b2, b3, b4, b5, b6, b7, b8] = *nine;
    *nine = [b1, b2, b3, b4, b5, b6, b7, b8, b8];
    b8
}

// Whether there are nine more slots, and they are packed. The compiler makes two loads and two comparisons of eight bytes of it.
fn has_nine(ids: &[u8], j: usize) -> bool
    ensures { result ≡ has_packed 9 j ids.now }
{
    if ids.len() < j {
        return false;
    }
    let [b0, b1, b2, b3, b4, b5, b6, b7, b8, ..] = &ids[j..] else {
        return false;
    };
    ((*b0 != 0) | (*b1 == 0))
        & (((*b1 != 0) | (*b2 == 0))
            & (((*b2 != 0) | (*b3 == 0))
                & (((*b3 != 0) | (*b4 == 0))
                    & (((*b4 != 0) | (*b5 == 0))
                        & (((*b5 != 0) | (*b6 == 0))
                            & (((*b6 != 0) | (*b7 == 0)) & ((*b7 != 0) | (*b8 == 0))))))))
}

// `open`, for a shift that is long.
pub fn open_nines(ids: &mut [u8], at: usize, v: u8) -> u8
    ensures { (result ≡ fallen at v ids.old) × (ids.new ≡ opened at v ids.old) }
{
    let mut carry = v;
    // A `while`, as the place where the nines end is where the rest begins.
    let mut j = at;
    while has_nine(ids, j) {
        let e = j + 9;
        carry = push_nine(&mut ids[j..e], carry);
        if carry == 0 {
            return 0;
        }
        j = e;
    }
    open_each(ids, j, false, carry).unwrap()
}

// `close`, for a shift that is long.
pub fn close_nines(ids: &mut [u8], at: usize)
    ensures { ids.new ≡ closed at ids.old }
{
    // A `while`, as in `open_nines`; each nine begins with the last slot of the one before.
    let mut j = at;
    while has_nine(ids, j) {
        let e = j + 9;
        let y = pull_nine(&mut ids[j..e]);
        if y == 0 {
            return;
        }
        j += 8;
    }
    let _ = close_each(ids, j, false);
}
