// A part of a tape played from a table into a buffer.
#![tactic(auto)]

ghost use Rattle.std.specs.Prelude.{◌≡◌, ◌≤◌, length};
ghost use Rattle.player.specs.Part.{ends, Turned, Parted};
ghost use Rattle.player.specs.declared.Halt.TheVariants.{NoCall};

use table::layout::Image;
use tape::Stop;

// A call that was made: how many bytes of the tape it took, and where its line ends.
#[derive(Clone, Copy)]
pub struct Went {
    pub read: usize,
    pub end: usize,
}

// Why none was: there is no room for a line, or no whole call.
#[derive(Clone, Copy)]
pub enum Halt {
    Full,
    NoCall(Stop),
}

impl Halt {
    // Whether it is a kind that the list lacks.
    fn ends(self) -> bool
        ensures { result ≡ ends self }
    {
        match self {
            Halt::NoCall(Stop::NoKind) => true,
            Halt::NoCall(Stop::Cut | Stop::End) | Halt::Full => false,
        }
    }
}

impl From<Stop> for Halt {
    ghost from_gives = { λ why halt. halt ≡ NoCall why };

    fn from(why: Stop) -> Halt {
        Halt::NoCall(why)
    }
}

// How many bytes of the tape were read, how many of text were written, and whether a kind that the list lacks ended it: no error, as the numbers
// hold either way.
#[derive(Clone, Copy)]
pub struct Part {
    pub read: usize,
    pub written: usize,
    pub ended: bool,
}

// One call from the start of `tape`, its line at `end` of `out`. Buffer and place are two, as in `tape::write_line`.
fn play_one(image: &mut Image, tape: &[u8], out: &mut [u8], end: usize) -> Result<Went, Halt>
    requires { end ≤ length out.old }
    ensures { Turned image.old tape.now out.old end result image.new out.new }
{
    if out.len() - end < 6 {
        return Err(Halt::Full);
    }
    let whole = tape::read_call(tape)?;
    let told = calls::serve(image, whole.call, whole.interrupt);
    // The answer is in the lower 16 bits.
    let answer = (told % 65536) as u8;
    let runs = table::numbers::get_running(image);
    Ok(Went {
        read: whole.length,
        end: tape::write_line(out, end, answer, runs),
    })
}

// The whole calls from the start of `tape`, as long as 6 bytes are left of `out` for a line.
pub fn play_part(image: &mut Image, tape: &[u8], out: &mut [u8]) -> Part
    ensures { Parted image.old tape.now out.old result.read result.written result.ended image.new out.new }
{
    let mut read = 0;
    let mut written = 0;
    for _ in 0..tape.len() {
        match play_one(image, &tape[read..], out, written) {
            Ok(went) => {
                read += went.read;
                written = went.end;
            }
            Err(why) => {
                return Part {
                    read,
                    written,
                    ended: why.ends(),
                };
            }
        }
    }
    Part {
        read,
        written,
        ended: false,
    }
}
