// The bench's tapes, each played from the fresh table, and what `play` prints of them.
#![tactic(auto)]

ghost use Rattle.std.specs.Prelude.{◌≡◌, length};

use std::process::ExitCode;
use streams::Output;
use table::layout::IMAGE_SIZE;

// A tape that ends within a call, or has a kind that the list lacks, is `bad` there.
fn play_from(output: Output, image: &mut [u8; IMAGE_SIZE], tape: &[u8]) -> Output {
    let mut lines = [0u8; 4096];
    let part = player::play_part(image, tape, &mut lines);
    let printed = output.say(&lines[..part.written]);
    if part.ended | (part.read < tape.len()) {
        return printed.say(tape::BAD);
    }
    printed
}

fn play(output: Output, tape: &[u8]) -> Output {
    let mut image = [0u8; IMAGE_SIZE];
    table::fresh::write_fresh(&mut image);
    play_from(output, &mut image, tape)
}

// What a tape is about, and the tape.
type Case = (&'static [u8], &'static [u8]);

fn reel(output: Output, name: &[u8], tape: &[u8]) -> Output {
    play(output.say(name), tape)
}

fn reels(output: Output, cases: &[Case]) -> Output {
    let mut printed = output;
    for (name, tape) in cases {
        printed = reel(printed, name, tape);
    }
    printed
}

// Those that are proved of the rules too.
fn proved_cases(output: Output) -> Output {
    let cases: [Case; 14] = [
        (
            b"P1, inheritance\n",
            b"\x01\x03\x0a\x02\x00\x20\x00\x22\x00\x01\x00\x00\x00\x00\x01\x01\x05\x00\x00\x22\x00\x01\x00\x00\x00\x00\x01\x02\x07\x00\x00\x23\x00",
        ),
        (
            b"P2, the first of two posts\n",
            b"\x01\x03\x0a\x01\x00\x20\x00\x20\x01\x22\x00\x01\x00\x00\x00\x00\x22\x01\x01\x00\x00\x00\x00\x01\x01\x05\x01\x00\x22\x00\x01\x00\x00\x00\x00\x01\x02\x07\x01\x00\x07\x05\x00\x00\x00\x22\x01\x01\x00\x00\x00\x00\x08\x03\x01\x04\x06\x01\x00\x01\x05\x08\x01\x00\x23\x00",
        ),
        (
            b"P3, a wait times out\n",
            b"\x01\x04\x14\x01\x00\x20\x00\x20\x01\x22\x00\x01\x00\x00\x00\x00\x01\x03\x0a\x01\x00\x22\x01\x01\x00\x00\x00\x00\x22\x00\x01\x00\x00\x00\x00\x01\x01\x02\x01\x00\x22\x01\x01\x01\x00\x00\x00\x0b\x01\x07\x09\x01\x00\x01\x08\x0b\x01\x00",
        ),
        (
            b"P4, a ring\n",
            b"\x01\x04\x14\x01\x00\x20\x00\x20\x01\x22\x01\x01\x00\x00\x00\x00\x01\x03\x0a\x01\x00\x22\x00\x01\x00\x00\x00\x00\x22\x01\x01\x00\x00\x00\x00\x22\x00\x01\x00\x00\x00\x00\x24\x00",
        ),
        (
            b"P6, counts at the end of their range\n",
            b"\x10\x00\xff\xff\xff\xff\x13\x00\x10\x01\xfe\xff\xff\xff\x13\x01\x93\x01",
        ),
        (
            b"P8, lock and unlock\n",
            b"\x01\x00\x05\x01\x00\x09\x01\x01\x04\x01\x00\x0a",
        ),
        (
            b"P9, turns\n",
            b"\x01\x01\x05\x02\x00\x01\x02\x05\x01\x00\x0b\x0b\x0b",
        ),
        (b"P10, a tick on the fresh table\n", b"\x0b"),
        (
            b"event flags, the clock and then the card\n",
            b"\x01\x01\x05\x00\x00\x30\x00\x00\x00\x00\x00\x32\x00\x01\x00\x00\x00\x00\x03\x00\x00\x00\x00\x01\xb3\x00\x02\x00\x00\x00\x01\xb3\x00\x01\x00\x00\x00\x01\x32\x00\x00\x00\x00\x00\x00\x03\x00\x00\x00\x02\x00",
        ),
        (
            b"event flags, the card and then the clock\n",
            b"\x01\x01\x05\x00\x00\x30\x00\x00\x00\x00\x00\x32\x00\x01\x00\x00\x00\x00\x03\x00\x00\x00\x00\x01\xb3\x00\x01\x00\x00\x00\x01\xb3\x00\x02\x00\x00\x00\x01\x32\x00\x00\x00\x00\x00\x00\x03\x00\x00\x00\x02\x00",
        ),
        (
            b"quantum 0, the default 1 for both\n",
            b"\x0d\x01\x00\x01\x01\x05\x00\x00\x01\x02\x05\x00\x00\x0b\x0b\x0b\x0b\x0b\x0b",
        ),
        (
            b"quantum 0, the default 2 for both\n",
            b"\x0d\x02\x00\x01\x01\x05\x00\x00\x01\x02\x05\x00\x00\x0b\x0b\x0b\x0b\x0b\x0b",
        ),
        (
            b"quantum 0, the default 1 and then 2\n",
            b"\x0d\x01\x00\x01\x01\x05\x00\x00\x0d\x02\x00\x01\x02\x05\x00\x00\x0b\x0b\x0b\x0b\x0b\x0b",
        ),
        (
            b"the default 0, and by an interrupt\n",
            b"\x0d\x00\x00\x8d\x01\x00\x0d\xff\xff",
        ),
    ];
    reels(output, &cases)
}

// Those of message queues.
fn channel_cases(output: Output) -> Output {
    let cases: [Case; 2] = [
        (
            b"frames, three into a channel of two, and one to the decoder that waits\n",
            b"\x01\x01\x05\x00\x00\x40\x00\x02\x43\x00\x01\x00\x00\x00\x00\x43\x00\x02\x00\x00\x00\x00\x43\x00\x03\x00\x00\x00\x00\x01\x02\x04\x00\x00\x42\x00\x01\x00\x00\x00\x00\x42\x00\x01\x00\x00\x00\x00\x42\x00\x01\x00\x00\x00\x00\x43\x00\x04\x00\x00\x00\x00",
        ),
        (
            b"a message to the front, a flush, a channel without room\n",
            b"\x01\x01\x05\x00\x00\x40\x00\x20\x43\x00\x07\x00\x00\x00\x00\xc3\x00\x00\x00\x00\x00\x00\x43\x00\x09\x00\x00\x00\x01\x45\x00\xc5\x00\x42\x00\x00\x00\x00\x00\x00\x43\x00\x00\x00\x00\x00\x02\x40\x01\x00\x40\x01\x21",
        ),
    ];
    reels(output, &cases)
}

// Those that are only run, and the easy slips that the proved ones do not have.
fn run_only(output: Output) -> Output {
    let cases: [Case; 7] = [
        (
            b"base 62 and 63, task 31 and 32, yield alone, a free semaphore when locked\n",
            b"\x01\x00\x3e\x01\x00\x01\x01\x3f\x01\x00\x01\x1f\x05\x01\x00\x01\x20\x05\x01\x00\x06\x10\x00\x01\x00\x00\x00\x09\x12\x00\x01\x00\x00\x00\x00\x12\x00\x01\x00\x00\x00\x00\x12\x00\x00\x00\x00\x00\x00\x06\x02\x1f\x04\x1f\x07\x01\x00\x00\x00\x07\x00\x00\x00\x00",
        ),
        (
            b"a suspended waiter\n",
            b"\x10\x00\x00\x00\x00\x00\x01\x00\x05\x01\x00\x12\x00\x01\x03\x00\x00\x00\x04\x00\x13\x00\x05\x00\x12\x00\x01\x02\x00\x00\x00\x04\x00\x0b\x0b\x05\x00\x05\x00",
        ),
        (
            b"a mark is met, not passed\n",
            b"\x0b\x0b\x0b\x0b\x0b\x01\x00\x05\x01\x00\x07\xff\xff\xff\xff\x0b\x0b\x0b\x0b\x0b",
        ),
        (
            b"a ring falls\n",
            b"\x01\x04\x31\x01\x00\x20\x07\x22\x07\x01\x00\x00\x00\x00\x20\x02\x01\x0c\x19\x01\x00\x22\x02\x01\x00\x00\x00\x00\x01\x12\x16\x01\x00\x22\x02\x01\x00\x00\x00\x00\x22\x07\x01\x00\x00\x00\x00\x22\x02\x01\x00\x00\x00\x00\x24\x02\x01\x05\x17\x01\x00\x07\x32\x00\x00\x00\x07\x32\x00\x00\x00\x24\x02\x24\x07",
        ),
        (
            b"equal marks\n",
            b"\x20\x00\x01\x09\x14\x01\x00\x22\x00\x01\x00\x00\x00\x00\x01\x08\x14\x01\x00\x22\x00\x01\x02\x00\x00\x00\x07\x02\x00\x00\x00\x01\x07\x14\x01\x00\x07\x02\x00\x00\x00\x01\x06\x0a\x01\x00\x22\x00\x01\x02\x00\x00\x00\x0b\x0b",
        ),
        (
            b"locked, and none able\n",
            b"\x09\x01\x00\x05\x01\x00\x07\x01\x00\x00\x00\x0b\x06\x0a",
        ),
        (b"an empty tape\n", b""),
    ];
    reels(output, &cases)
}

// P5: a task is created, delays for 3 ticks, and three ticks come. No tape of a sensible length reaches the counter that it starts at.
fn wrapping_mark(output: Output) -> Output {
    let mut image = [0u8; IMAGE_SIZE];
    table::fresh::write_fresh(&mut image);
    table::numbers::set_tick(&mut image, 4294967294);
    play_from(
        output.say(b"P5, a mark behind the wrap\n"),
        &mut image,
        b"\x01\x00\x05\x00\x00\x07\x03\x00\x00\x00\x0b\x0b\x0b",
    )
}

// From byte 7 on, 251 waits for mutex 0 that do not block: their other bytes are zero.
fn write_waits(tape: &mut [u8; 1764]) {
    for n in 0..251 {
        tape[7 * n + 7] = 34;
    }
}

// P7: a task, a mutex, and the waits.
fn nested(output: Output) -> Output {
    let mut tape = [0u8; 1764];
    tape[0] = 1;
    tape[5] = 32;
    write_waits(&mut tape);
    reel(output, b"P7, 250 nested waits\n", &tape)
}

// A kind with 0 to 12 bytes behind it, all zero: cut, whole, or whole and then a kind 0, which the list lacks.
fn each_length(output: Output, kind: u8) -> Output {
    let mut tape = [0u8; 13];
    tape[0] = kind;
    let mut printed = output;
    for n in 1..14 {
        printed = play(printed, &tape[0..n]);
    }
    printed
}

// Every kind that a byte can name, with the interrupt bit and without.
fn every_kind(output: Output) -> Output {
    let mut printed = output.say(b"every kind at every length\n");
    for kind in 0..=u8::MAX {
        printed = each_length(printed, kind);
    }
    printed
}

fn main(rt: HostRuntime) -> ExitCode {
    let mut output = Output::start(&rt);
    output = proved_cases(output);
    output = channel_cases(output);
    output = wrapping_mark(output);
    output = nested(output);
    output = run_only(output);
    output = every_kind(output);
    output.end("reels: cannot write")
}
