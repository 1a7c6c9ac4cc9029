// The call tape: one call read, one line written.
#![tactic(auto)]

ghost use Rattle.std.specs.Prelude.{◌≡◌, true, false, [], ◌∷◌, ◌+◌, ◌-◌, ◌≤◌, ◌<◌, length, take, drop};
ghost use Rattle.rules.specs.Kinds.{widths};
ghost use Rattle.rules.specs.KindLaws.{Same};
ghost use Rattle.rules.specs.Tape.{little, sum, numbers, decimal, runner, bad_line};
ghost use Rattle.tape.specs.Next.{next_in};
ghost use Rattle.tape.specs.Line.{Wrote, line_of, line_in, bad_in};

use kinds::Numbers;
use rules::Call;

// A call that stands whole at the start of a tape, made by an interrupt or not, either with any call, with its length in bytes.
#[derive(Clone, Copy)]
pub struct Whole {
    pub call: Call,
    pub interrupt: bool,
    pub length: usize,
}

// Why none does: the tape is at its end, the call is cut, or the list lacks the kind.
#[derive(Clone, Copy)]
pub enum Stop {
    End,
    Cut,
    NoKind,
}

// The number of up to 4 bytes, the lowest first. By how many there are: copied into four they would be a call of the C library for each number.
fn little(bytes: &[u8]) -> u32
    requires { length bytes.now ≤ 4 }
    ensures { result ≡ little bytes.now }
{
    match bytes {
        [] => 0,
        [a] => u32::from_le_bytes([*a, 0, 0, 0]),
        [a, b] => u32::from_le_bytes([*a, *b, 0, 0]),
        [a, b, c] => u32::from_le_bytes([*a, *b, *c, 0]),
        [a, b, c, d, ..] => u32::from_le_bytes([*a, *b, *c, *d]),
    }
}

// The numbers of a body, each behind those before it; 0 for those that the kind does not have.
fn numbers_in(body: &[u8], k: u8) -> Numbers
    requires { sum (widths k) ≤ length body.now }
    ensures { Same result (numbers (widths k) body.now) }
{
    let mut found: Numbers = [0; 6];
    let mut widths = kinds::widths_of(k);
    let mut rest = body;
    for i in 0..6 {
        let (bytes, behind) = rest.split_at((widths % 16) as usize);
        found[i] = little(bytes);
        widths /= 16;
        rest = behind;
    }
    found
}

pub fn read_call(tape: &[u8]) -> Result<Whole, Stop>
    ensures { result ≡ next_in tape.now }
{
    let Some((&kind, body)) = tape.split_first() else {
        return Err(Stop::End);
    };
    let length = kinds::body_length(kind);
    if body.len() < length {
        // A kind that the list lacks has no body, so none of it is cut.
        return Err(Stop::Cut);
    }
    let reading = kinds::reading_of(kind, numbers_in(body, kinds::plain_kind(kind)));
    let call = reading.call.ok_or(Stop::NoKind)?;
    Ok(Whole {
        call,
        interrupt: reading.interrupt,
        length: 1 + length,
    })
}

// Writes a text at `at`, and gives back where it ends. The buffer and the place are the caller's, so they stay two parameters, as in `Wrote`.
fn write(out: &mut [u8], at: usize, text: &[u8]) -> usize
    requires { at + length text.now ≤ length out.old }
    ensures { Wrote at text.now out.old out.new result }
{
    let end = at + text.len();
    out[at..end].copy_from_slice(text);
    end
}

// Two digits at most, as `decimal` has it; itoa would write into a buffer of its own.
fn write_decimal(out: &mut [u8], at: usize, n: u8) -> usize
    requires { at + 2 ≤ length out.old }
    ensures { Wrote at (decimal n) out.old out.new result }
{
    if n < 10 {
        write(out, at, &[b'0' + n])
    } else {
        write(out, at, &[b'0' + n / 10, b'0' + n % 10])
    }
}

fn write_runner(out: &mut [u8], at: usize, runs: u8) -> usize
    requires { at + 2 ≤ length out.old }
    ensures { Wrote at (runner runs) out.old out.new result }
{
    if runs == 0 {
        write(out, at, b"-")
    } else {
        write_decimal(out, at, runs - 1)
    }
}

fn write_fitting(out: &mut [u8], at: usize, answer: u8, runs: u8) -> usize
    requires { at + 6 ≤ length out.old }
    ensures { Wrote at (line_of answer runs) out.old out.new result }
{
    let a = write_decimal(out, at, answer);
    let b = write(out, a, b" ");
    let c = write_runner(out, b, runs);
    write(out, c, b"\n")
}

// Writes the line of an answer and of the running task, and gives back where it ends; nothing where fewer than 6 bytes are left.
pub fn write_line(out: &mut [u8], at: usize, answer: u8, runs: u8) -> usize
    ensures { Wrote at (line_in answer runs (length out.old - at)) out.old out.new result }
{
    let room = out.len().saturating_sub(at);
    if room < 6 {
        return at;
    }
    write_fitting(out, at, answer, runs)
}

// What is printed of a cut call, and of a kind that the list lacks.
pub const BAD: &[u8] = b"bad\n";

// Writes `bad` and a newline, and gives back where they end; nothing where fewer than 4 bytes are left.
pub fn write_bad(out: &mut [u8], at: usize) -> usize
    ensures { Wrote at (bad_in (length out.old - at)) out.old out.new result }
{
    let room = out.len().saturating_sub(at);
    if room < 4 {
        return at;
    }
    write(out, at, BAD)
}
