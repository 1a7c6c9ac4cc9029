// The fresh table, which is where a board begins. Every input is taken.
ghost use Rattle.port.specs.Step.{Freshened};

use crate::NOT_SOUND;

// Any bytes become the image of the fresh table. The answer is C's number.
pub fn ntk_fresh(image: &mut [u8]) -> u32
    ensures { Freshened image.old result image.new }
{
    let Some(image) = image.as_mut_array() else {
        return NOT_SOUND;
    };
    table::fresh::write_fresh(image);
    0
}
