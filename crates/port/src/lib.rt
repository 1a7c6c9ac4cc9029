// The steps that the C port calls: a kind, six numbers and the table's byte image. Every input is taken.
#![tactic(auto)]

ghost use Rattle.std.specs.Prelude.{◌≡◌, cond};
ghost use Rattle.rules.specs.Tape.{Bytes};
ghost use Rattle.rules.specs.Sizes.{by_interrupt, beyond_range, not_sound};
ghost use Rattle.table.specs.Image.{view};
ghost use Rattle.service.specs.Told.{answer_in, further_in};
ghost use Rattle.port.specs.Step.{said, plainly, result_in, runs_in, version, Gives, Stepped, ServedPlainly};

use service::answers::Refusal;
use table::layout::Image;

pub mod fresh;
pub mod read;
pub mod reasons;

// The answers that no service gives.
const BY_INTERRUPT: u32 = 5;

const NOT_SOUND: u32 = 15;

// How a call was answered; the further result, 0 but for a flush that is done; and the task to run: its number plus 1, 0 for none. The three fill
// a register.
#[repr(C)]
#[derive(Clone, Copy)]
pub struct NtkOutcome {
    pub answer: u16,
    pub further: u16,
    pub runs: u32,
}

// An outcome in one number, answer and further result below and the task to run in its upper half: a struct would come back through memory.
fn outcome(res: u32, runs: u8) -> u64
    ensures { (result_in result ≡ res) × (runs_in result ≡ runs) }
{
    res as u64 + runs as u64 * 4294967296
}

// A function and no From: not every number is an outcome.
fn split(all: u64) -> NtkOutcome
    ensures { (result.answer ≡ answer_in (result_in all)) × (result.runs ≡ runs_in all) × (result.further ≡ further_in (result_in all)) }
{
    let result = all % 4294967296;
    NtkOutcome {
        answer: (result % 65536) as u16,
        further: (result / 65536) as u16,
        runs: (all / 4294967296) as u32,
    }
}

// The table is not sound, or the image's length is wrong: no task is to run.
fn not_sound() -> u64
    ensures { (result_in result ≡ not_sound) × (runs_in result ≡ 0) }
{
    outcome(NOT_SOUND, 0)
}

// The answer of a kind that the list lacks, or that an interrupt may not make: C's number, as `NtkOutcome` has it.
fn not_let_in(interrupt: bool) -> u32
    ensures { result ≡ cond interrupt by_interrupt beyond_range }
{
    if interrupt {
        return BY_INTERRUPT;
    }
    Refusal::BeyondRange as u32
}

// The answer with the further result, and the task that runs now. That the image's items are bytes is known of what is lent here.
fn answered(res: u32, image: &Image) -> u64
    ensures { (result_in result ≡ res) × (runs_in result ≡ (view image.now).running) × Bytes image.now }
{
    let v = table::numbers::get_running(image);
    outcome(res, v)
}

// A call on an image whose table is taken to be sound. The numbers are not one array, and the task to run is left in the image: either would
// go through memory.
fn serve_kind(kind: u8, a: u32, b: u32, c: u32, d: u32, e: u32, f: u32, image: &mut Image) -> u32
    ensures { Bytes image.new → Gives (plainly (said kind a b c d e f) (view image.old)) image.old (answer_in result) (view image.new).running (further_in result) image.new }
{
    match kinds::row_of(kinds::let_in(kind), [a, b, c, d, e, f]) {
        Some((call, _)) => calls::serve_task(image, call),
        None => not_let_in(kinds::is_interrupt(kind)),
    }
}

// The same, with the task to run.
fn serve_plainly(kind: u8, a: u32, b: u32, c: u32, d: u32, e: u32, f: u32, image: &mut Image) -> u64
    ensures { Gives (plainly (said kind a b c d e f) (view image.old)) image.old (answer_in (result_in result)) (runs_in result) (further_in (result_in result)) image.new }
{
    let n = serve_kind(kind, a, b, c, d, e, f, image);
    answered(n, image)
}

// The version of this library: major, minor and patch, two digits for each of the last two. The header has the same.
const VERSION: u32 = 10700;

pub fn ntk_version() -> u32
    ensures { result ≡ version }
{
    VERSION
}

// A call on any bytes.
pub fn ntk_step(
    kind: u8,
    a: u32,
    b: u32,
    c: u32,
    d: u32,
    e: u32,
    f: u32,
    image: &mut [u8],
) -> NtkOutcome
    ensures { Stepped kind a b c d e f image.old result.answer result.runs result.further image.new }
{
    let Some(image) = image.as_mut_array() else {
        return split(not_sound());
    };
    if !sound::is_sound(image) {
        return split(not_sound());
    }
    split(serve_plainly(kind, a, b, c, d, e, f, image))
}

// The same without the test of the table: for an image that this library alone has changed since `ntk_fresh` wrote it.
pub fn ntk_serve(
    kind: u8,
    a: u32,
    b: u32,
    c: u32,
    d: u32,
    e: u32,
    f: u32,
    image: &mut [u8],
) -> NtkOutcome
    ensures { ServedPlainly kind a b c d e f image.old result.answer result.runs result.further image.new }
{
    let Some(image) = image.as_mut_array() else {
        return split(not_sound());
    };
    split(serve_plainly(kind, a, b, c, d, e, f, image))
}
