// Reads and writes as a Unix program makes them: a call that a signal interrupts, that nothing is ready for, or that moves a part only, goes
// on. What fails is answered, and its error says why.
#![tactic(auto)]

ghost use Rattle.std.specs.Prelude.{◌≡◌, ◌≢◌, ◌≤◌, ◌⊎◌, ◌↔◌, length, IfOk, IfErr, IsErrAnd, IsNone, IsSome, OnOk, IsTrue};
ghost use Rattle.std.specs.Io.KnownBytes.{Appends, ReadConsumes, WriteAppends};
ghost use Rattle.std.specs.IoError.{error_kind};
ghost use Rattle.std.specs.Process.{exit_status};

use std::fmt::Display;
use std::fs::{File, Metadata, OpenOptions};
use std::io::{Error, ErrorKind, Read, Result, Write};
use std::process::ExitCode;
use std::time::{Clock, Duration};
use std::{fs, io, thread};

// Waits for a thousandth of a second: no call that can be had here waits until a descriptor is ready.
fn pause(clock: &impl Clock) {
    thread::sleep(clock, Duration::from_millis(1));
}

// Whether a call is to be made again: a signal came before it moved a byte, or it can move none yet.
fn goes_on(clock: &impl Clock, moved: &Result<usize>) -> bool
    ensures { IsTrue result ↔ IsErrAnd moved.now (λ e. (error_kind e ≡ ErrorKind.WouldBlock) ⊎ (error_kind e ≡ ErrorKind.Interrupted)) }
{
    let Err(error) = moved else {
        return false;
    };
    let kind = error.kind();
    if kind == ErrorKind::WouldBlock {
        pause(clock);
        return true;
    }
    kind == ErrorKind::Interrupted
}

// As `Read::read`, but what it answers is bytes, the end of the input (0) or a failure. A proved loop has to end, and nothing says that a
// descriptor becomes ready: it has as many turns as no run uses up.
pub fn read_some<C: Clock, R: Read>(clock: &C, tape: &mut R, buf: &mut [u8]) -> Result<usize>
    ensures moved { IfOk result (λ n. n ≤ length buf.old) }
    ensures bytes { ReadConsumes (R.remaining tape.old) (R.remaining tape.new) result buf.new }
    ensures waited { IfErr result (λ e. error_kind e ≢ ErrorKind.WouldBlock) }
    ensures retried { IfErr result (λ e. error_kind e ≢ ErrorKind.Interrupted) }
{
    for _ in 0..u64::MAX {
        let moved = tape.read(buf);
        if !goes_on(clock, &moved) {
            return moved;
        }
    }
    Err(Error::from(ErrorKind::TimedOut))
}

// As `Write::write`, in the same way. One loop for both would take the call as a closure, and what a closure leaves in the stream that it
// borrows is not known to its caller.
fn write_some<C: Clock, W: Write>(clock: &C, to: &mut W, buf: &[u8]) -> Result<usize>
    ensures moved { IfOk result (λ n. n ≤ length buf.now) }
    ensures bytes { WriteAppends (W.contents to.old) (W.contents to.new) result buf.now }
{
    for _ in 0..u64::MAX {
        let moved = to.write(buf);
        if !goes_on(clock, &moved) {
            return moved;
        }
    }
    Err(Error::from(ErrorKind::TimedOut))
}

// Writes all of the bytes. A write that takes no byte counts as one that failed, or the loop might not end.
fn write_whole<C: Clock, W: Write>(clock: &C, to: &mut W, buf: &[u8]) -> Result<()>
    ensures { OnOk result (Appends (W.contents to.old) (W.contents to.new) buf.now) }
{
    let mut rest = buf;
    // A `while`: each write says how much is left.
    while !rest.is_empty() {
        let put = write_some(clock, to, rest)?;
        if put == 0 {
            return Err(Error::from(ErrorKind::WriteZero));
        }
        rest = &rest[put..];
    }
    Ok(())
}

const STANDARD_OUTPUT: &str = "/proc/self/fd/1";

// Standard output once more: it may be open for writing or for reading alone.
fn reopened(rt: &HostRuntime) -> Result<File> {
    let mut options = OpenOptions::new();
    options.append(true);
    options
        .open(rt, STANDARD_OUTPUT)
        .or_else(|_| File::open(rt, STANDARD_OUTPUT))
}

// Has the system write down what it took, where that is a file: there are disks that say only here that they are full. std closes standard
// output without a word, so this asks before. What is no file, or cannot be asked, has nothing to say.
fn settle(rt: &HostRuntime) -> Result<()> {
    let is_file = fs::metadata(rt, STANDARD_OUTPUT).is_ok_and(|place: Metadata| place.is_file());
    if !is_file {
        return Ok(());
    }
    let Ok(file) = reopened(rt) else {
        return Ok(());
    };
    match file.sync_all() {
        Err(e) if e.kind() == ErrorKind::InvalidInput => Ok(()),
        settled => settled,
    }
}

// Text on its way to standard output, and why it could not be written, where a write has failed. Behind a failed write nothing more is
// written.
#[derive(Clone, Copy)]
pub struct Output {
    rt: HostRuntime,
    pub failure: Option<Error>,
}

impl Output {
    pub fn start(rt: &HostRuntime) -> Output
        ensures { IsNone result.failure }
    {
        Output {
            rt: *rt,
            failure: None,
        }
    }

    // Whether all of it could be written so far.
    pub fn is_well(&self) -> bool
        ensures { IsTrue result ↔ IsNone self.now.failure }
    {
        self.failure.is_none()
    }

    pub fn say(self, text: &[u8]) -> Output
        ensures { IsSome self.failure → result ≡ self }
    {
        if !self.is_well() {
            return self;
        }
        Output {
            rt: self.rt,
            failure: write_whole(&self.rt, &mut io::writer(&self.rt), text).err(),
        }
    }

    // The number, in decimal digits.
    pub fn say_number(self, n: u64) -> Output
        ensures { IsSome self.failure → result ≡ self }
    {
        let mut digits = itoa::Buffer::new();
        self.say(digits.format(n).as_bytes())
    }

    // Ends the output. Where that or a write failed, says on standard error what could not be done, and why.
    pub fn end(self, what: &str) -> ExitCode
        ensures { IsSome self.failure → exit_status result ≡ 1 }
    {
        match self.failure.or_else(|| settle(&self.rt).err()) {
            Some(e) => fail(&self.rt, what, e),
            None => ExitCode::SUCCESS,
        }
    }
}

// Says on standard error what could not be done, and why, and answers the status to end with. Where that cannot be written either, nobody
// is left to be told.
pub fn fail<D: Display + Drop>(rt: &HostRuntime, what: D, why: Error) -> ExitCode
    ensures { exit_status result ≡ 1 }
{
    let _ = say_failure(rt, what, why);
    ExitCode::FAILURE
}

// Where there is no memory left to take the number off, it is said with the rest.
fn say_failure<D: Display + Drop>(rt: &HostRuntime, what: D, why: Error) -> Result<()> {
    let Ok(text) = format!(in rt.alloc(); "{why}") else {
        return eprintln!(rt; "{what}: {why}");
    };
    let reason = without_number(&text);
    eprintln!(rt; "{what}: {reason}")
}

// The system's words for an error: std puts its number behind them.
fn without_number(text: &str) -> &str {
    text.rsplit_once(" (os error ")
        .map_or(text, |(words, _)| words)
}
