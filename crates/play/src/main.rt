// Plays a call tape of any length from standard input, or from the file that the one word names, from the fresh table, and prints a line for
// each call.
#![tactic(auto)]

ghost use Rattle.std.specs.Prelude.{◌≡◌, ◌+◌, ◌≤◌, List, ℕ, [], length, take, drop, IfOk};

use std::env::FillError;
use std::fs::File;
use std::io;
use std::io::{ErrorKind, Read, Stdin};
use std::marker::Model;
use std::process::ExitCode;
use std::rt::Env;
use streams::Output;

// Where a tape comes from.
#[derive(Drop)]
enum Source {
    Standard(Stdin),
    Named(File),
}

impl Read for Source {
    fn read(&mut self, buf: &mut [u8]) -> io::Result<usize> {
        match self {
            Source::Standard(input) => input.read(buf),
            Source::Named(file) => file.read(buf),
        }
    }
}

// Bytes of the tape that are read and not yet played.
#[derive(Drop)]
struct Input {
    bytes: [u8; 4096],
    held: usize,
}

impl Model for Input {
    ghost Value = { List ℕ };

    ghost view = { λ a. take a.held a.bytes };

    ghost invariant = { λ a. a.held ≤ 4096 };
}

impl Input {
    fn new() -> Input
        ensures { result ≡ [] }
    {
        Input {
            bytes: [0; 4096],
            held: 0,
        }
    }

    fn held(&self) -> &[u8]
        ensures { result.now ≡ self.now }
    {
        &self.bytes[..self.held]
    }

    // Reads behind what is held, and answers how many bytes came, 0 at the tape's end.
    fn fill(&mut self, rt: &HostRuntime, tape: &mut Source) -> io::Result<usize>
        ensures { IfOk result (λ n. length self.new ≡ length self.old + n) }
    {
        let came = streams::read_some(rt, tape, &mut self.bytes[self.held..])?;
        self.held += came;
        Ok(came)
    }

    // Lets go of the first n bytes.
    fn advance(&mut self, n: usize)
        requires { n ≤ length self.old }
        ensures { self.new ≡ drop n self.old }
    {
        self.bytes.copy_within(n..self.held, 0);
        self.held -= n;
    }
}

// A tape that is played, from the fresh table on. A call takes a byte or more and its line 6 at most, so 6 bytes for each of the input's are
// room for every line.
#[derive(Drop)]
struct Player {
    rt: HostRuntime,
    tape: Source,
    input: Input,
    image: [u8; table::layout::IMAGE_SIZE],
    lines: [u8; 24576],
    output: Output,
}

impl Player {
    fn start(rt: &HostRuntime, tape: Source) -> Player {
        let mut image = [0u8; table::layout::IMAGE_SIZE];
        table::fresh::write_fresh(&mut image);
        Player {
            rt: *rt,
            tape,
            input: Input::new(),
            image,
            lines: [0; 24576],
            output: Output::start(rt),
        }
    }

    // Plays the whole calls of the input and prints their lines, and answers whether a kind that the list lacks ends the tape.
    fn play_held(&mut self) -> bool {
        let part = player::play_part(&mut self.image, self.input.held(), &mut self.lines);
        self.output = self.output.say(&self.lines[..part.written]);
        self.input.advance(part.read);
        part.ended
    }

    // Plays read by read to the tape's end, or until a write fails. A proved loop has to end, and nothing says that the input does: it has as
    // many turns as no run uses up.
    fn play_all(&mut self) -> io::Result<()> {
        for _ in 0..u64::MAX {
            let came = self.input.fill(&self.rt, &mut self.tape)?;
            // At the end, bytes that are left over are a call that is cut.
            let ends = if came == 0 {
                !self.input.held().is_empty()
            } else {
                self.play_held()
            };
            if ends {
                self.output = self.output.say(tape::BAD);
            }
            if ends | (came == 0) | !self.output.is_well() {
                break;
            }
        }
        Ok(())
    }
}

// Opens the file of that name, or says why it cannot.
fn open_named(rt: &HostRuntime, name: &[u8]) -> Option<Source> {
    let Ok(name) = str::from_utf8(name) else {
        let why = io::Error::new(ErrorKind::InvalidFilename, "Not UTF-8");
        streams::fail(rt, "play: the tape's name", why);
        return None;
    };
    match File::open(rt, name) {
        Ok(file) => Some(Source::Named(file)),
        Err(e) => {
            streams::fail(rt, format_args!("play: {name}"), e);
            None
        }
    }
}

// The tape, or nothing where there is none, and that has been told.
fn open_tape(rt: &HostRuntime) -> Option<Source> {
    let mut name = [0u8; 4096];
    if !matches!(rt.arg(2, &mut name), Err(FillError::NotPresent)) {
        let _ = eprintln!(rt; "play: more than one tape");
        return None;
    }
    match rt.arg(1, &mut name) {
        Ok(n) => open_named(rt, &name[..n]),
        Err(FillError::NotPresent) => Some(Source::Standard(rt.stdin())),
        Err(FillError::TooLong) => {
            let why = io::Error::new(ErrorKind::InvalidFilename, "File name too long");
            streams::fail(rt, "play: the tape's name", why);
            None
        }
    }
}

fn main(rt: HostRuntime) -> ExitCode {
    let Some(tape) = open_tape(&rt) else {
        return ExitCode::FAILURE;
    };
    let mut player = Player::start(&rt, tape);
    // A tape that cannot be read on is not one that ends: what is left over is no cut call.
    let unread = player
        .play_all()
        .err()
        .map(|why| streams::fail(&rt, "play: cannot read", why));
    let written = player.output.end("play: cannot write");
    unread.unwrap_or(written)
}
