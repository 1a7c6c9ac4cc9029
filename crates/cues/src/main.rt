// A cue player over `queue`, with no kernel: cues stand in a queue by their levels, the smallest first; one changes its level and
// moves; a few calls are refused; then all are played in order. No contract can say what is printed: what is played is taken out into a
// slice first, and that is proved to be in order.
#![tactic(auto)]

ghost use Rattle.std.specs.Prelude.{◌≡◌, get_or, set};
ghost use Rattle.queue.specs.Answers.{insert_answer, inserted, move_answer, moved_in};
ghost use Rattle.cues.specs.Evening.{PlayedInOrder};

use queue::Refusal;
use std::process::ExitCode;
use streams::Output;

// The levels of the cues, and the queue that they stand in.
#[derive(Clone, Copy)]
struct Desk {
    levels: [u8; 7],
    cues: [u8; 6],
}

fn level_of(levels: &[u8], cue: u8) -> u8
    ensures { result ≡ get_or levels.now cue 0 }
{
    levels.get(cue as usize).copied().unwrap_or(0)
}

fn set_level(levels: &mut [u8], cue: u8, level: u8)
    ensures { levels.new ≡ set levels.old cue level }
{
    // No `get_mut`: of a slice nobody is told what is left where it was written through.
    let i = cue as usize;
    if i < levels.len() {
        levels[i] = level;
    }
}

impl Desk {
    // A cue lines up: `lines_up` of an evening.
    fn line_up(&mut self, cue: u8) -> Result<(), Refusal>
        ensures levels { self.new.levels ≡ self.old.levels }
        ensures answer { result ≡ insert_answer self.old.levels cue self.old.cues }
        ensures lined { self.new.cues ≡ inserted self.old.levels cue self.old.cues }
    {
        queue::insert(&mut self.cues, &self.levels, cue)
    }

    // A cue changes its level, and where it stands in the queue it moves: `changes` of an evening.
    fn change_level(&mut self, cue: u8, level: u8) -> Result<(), Refusal>
        ensures levels { self.new.levels ≡ set self.old.levels cue level }
        ensures answer { result ≡ move_answer (set self.old.levels cue level) cue self.old.cues }
        ensures moved { self.new.cues ≡ moved_in (set self.old.levels cue level) cue self.old.cues }
    {
        set_level(&mut self.levels, cue, level);
        queue::move_behind(&mut self.cues, &self.levels, cue)
    }
}

// Takes the first cue out again and again, as long as there is one and there is room, and writes down which it was. Answers how many.
// They come by their levels, and among equals in the order in which they came. Into a slice of the caller's and no Vec, so that nothing can fail.
fn play_out(cues: &mut [u8], out: &mut [u8]) -> usize
    ensures { PlayedInOrder cues.old out.old result cues.new out.new }
{
    for n in 0..out.len() {
        let Some(cue) = queue::first(cues) else {
            return n;
        };
        out[n] = cue;
        let _ = queue::remove(cues, cue);
    }
    out.len()
}

// What the queue answered, as a line. No Display: `Refusal` is of `queue`, and these words are the program's.
fn say_answer(output: Output, answer: Result<(), Refusal>) -> Output {
    match answer {
        Ok(()) => output.say(b"done\n"),
        Err(Refusal::BeyondKeys) => output.say(b"refused: no such cue\n"),
        Err(Refusal::AlreadyThere) => output.say(b"refused: stands there already\n"),
        Err(Refusal::NotThere) => output.say(b"refused: does not stand there\n"),
        Err(Refusal::Full) => output.say(b"refused: no free slot\n"),
    }
}

// `main` makes its steps by this and by `say_change`, so they promise of the desk what the step does.
fn say_line_up(output: Output, desk: &mut Desk, cue: u8) -> Output
    ensures levels { desk.new.levels ≡ desk.old.levels }
    ensures lined { desk.new.cues ≡ inserted desk.old.levels cue desk.old.cues }
{
    let begun = output.say(b"cue ").say_number(cue as u64).say(b": ");
    say_answer(begun, desk.line_up(cue))
}

fn say_change(output: Output, desk: &mut Desk, cue: u8, level: u8) -> Output
    ensures levels { desk.new.levels ≡ set desk.old.levels cue level }
    ensures moved { desk.new.cues ≡ moved_in (set desk.old.levels cue level) cue desk.old.cues }
{
    let begun = output
        .say(b"cue ")
        .say_number(cue as u64)
        .say(b" to level ")
        .say_number(level as u64)
        .say(b": ");
    say_answer(begun, desk.change_level(cue, level))
}

fn say_cue(output: Output, cue: u8, levels: &[u8]) -> Output {
    let level = level_of(levels, cue);
    output
        .say(b"playing cue ")
        .say_number(cue as u64)
        .say(b" of level ")
        .say_number(level as u64)
        .say(b"\n")
}

// Says which cues were played.
fn say_played(output: Output, played: &[u8], levels: &[u8]) -> Output {
    let mut printed = output;
    for cue in played {
        printed = say_cue(printed, *cue, levels);
    }
    printed
}

fn main(rt: HostRuntime) -> ExitCode {
    let mut desk = Desk {
        levels: [3, 1, 2, 1, 3, 2, 1],
        cues: [0; 6],
    };
    let mut played: [u8; 6] = [0; 6];
    let mut output = Output::start(&rt);
    for cue in [0, 1, 2, 3, 4, 3, 9] {
        output = say_line_up(output, &mut desk, cue);
    }
    output = say_change(output, &mut desk, 4, 1);
    output = say_change(output, &mut desk, 5, 2);
    output = say_line_up(output, &mut desk, 5);
    output = say_line_up(output, &mut desk, 6);
    if queue::is_ordered(&desk.cues, &desk.levels) {
        output = output.say(b"in order\n");
    }
    let n = play_out(&mut desk.cues, &mut played);
    if n <= played.len() {
        output = say_played(output, &played[0..n], &desk.levels);
    }
    output.end("cues: cannot write")
}
