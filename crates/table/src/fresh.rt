// The fresh table.
ghost use Rattle.std.specs.Prelude.{◌≡◌, get_or};
ghost use Rattle.rules.specs.Table.{fresh_table};
ghost use Rattle.table.specs.Image.{view};
ghost use Rattle.table.specs.Shape.{fresh_bytes};

use crate::layout;
use crate::layout::Image;

// The default quantum of the fresh table. It has two bytes there, and the second is 0.
const FRESH_QUANTUM: u8 = 100;

// Byte i of the fresh image.
fn fresh_byte(i: usize) -> u8
    ensures { result ≡ get_or fresh_bytes i 0 }
{
    if i == layout::DEFAULT_QUANTUM {
        return FRESH_QUANTUM;
    }
    0
}

// Whatever the bytes were, they show the fresh table. Zeros and then the default quantum would be shorter, but of a loop that stores zeros
// compilers make a call of memset, and a board may have no C library.
pub fn write_fresh(s: &mut Image)
    ensures { view s.new ≡ fresh_table }
{
    for i in 0..layout::IMAGE_SIZE {
        s[i] = fresh_byte(i);
    }
}
