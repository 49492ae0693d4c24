//! The top call: all that the program does.

ghost use Rattle.std.specs.Prelude.{◌≡◌, ◌+◌, ◌^◌, ◌++◌, [], codes, IfOk, IfErr, map, string_bytes};
ghost use Rattle.round_ll.specs.Commands.{command_of};
ghost use Rattle.round_ll.specs.Ending.{line_of};
ghost use Rattle.round_ll.specs.Outside.AllBytes.{GaveAtMost};
ghost use Rattle.round_ll.specs.Running.{Made, RoundEnded, RunEnded, Says, StopCause, TakesSpelled, UnlessWriting, Wrote};

use crate::command::Command;
use crate::ended::{Ended, Fault};
use crate::outside::{Failed, Sink, Source, read_all, write_all};
use crate::rounding::{Output, round_text};
use crate::stopped::Stopped;
use itoa::Buffer;
use std::alloc::Global;

/// Does what the words ask for, and answers how it ended.
///
/// `round` reads the source to its end, makes of the text a dialect module and of that a module of
/// LLVM again, and writes both and the report to `out`. Nothing is written before the whole output is
/// there. A line on every refusal goes to `err`, whose faults change no answer.
pub fn run<S: Source, O: Sink, E: Sink>(
    alloc: Global,
    words: &[String],
    source: &mut S,
    out: &mut O,
    err: &mut E,
) -> Ended
    ensures ended { RunEnded (command_of (map (λ w. string_bytes w) words.now)) (record { bytes = S.left source.old; faults = S.faults source.old }) (record { bytes = S.left source.new; faults = S.faults source.new }) (record { bytes = O.taken out.old; faults = O.faults out.old }) (record { bytes = O.taken out.new; faults = O.faults out.new }) result }
    ensures taken { TakesSpelled (command_of (map (λ w. string_bytes w) words.now)) (record { bytes = S.left source.old; faults = S.faults source.old }) (record { bytes = S.left source.new; faults = S.faults source.new }) (record { bytes = O.taken out.old; faults = O.faults out.old }) (record { bytes = O.taken out.new; faults = O.faults out.new }) result }

    // Beside every answer but `Done` and a write fault the output is the object that it was. The source
    // is, where the words are no command, and otherwise it gave a front of what it had left.
    ensures silent { UnlessWriting result (out.new ≡ out.old) }
    ensures untouched { command_of (map (λ w. string_bytes w) words.now) ≡ None → source.new ≡ source.old }
    ensures front { GaveAtMost (2 ^ 24 + 1) (S.left source.old) (S.left source.new) }

    // Where all was done, nothing goes to `err`.
    ensures line { Says (record { bytes = E.taken err.old; faults = E.faults err.old }) (record { bytes = E.taken err.new; faults = E.faults err.new }) (line_of result) }
    ensures quiet { line_of result ≡ [] → err.new ≡ err.old }
{
    let ended = match Command::of(words) {
        Some(Command::Round) => round(alloc, source, out),
        None => Ended::Refused(Fault::Usage),
    };
    say(err, &ended);
    ended
}

/// Writes the line of an answer.
pub fn say<E: Sink>(err: &mut E, ended: &Ended)
    ensures line { Says (record { bytes = E.taken err.old; faults = E.faults err.old }) (record { bytes = E.taken err.new; faults = E.faults err.new }) (line_of ended.now) }
    ensures quiet { line_of ended.now ≡ [] → err.new ≡ err.old }
{
    let head = ended.head();
    if !head.is_empty() {
        let mut digits = Buffer::new();
        let _ = write_line(err, head, ended.name(&mut digits));
    }
}

/// Writes a line: what it begins with, the name or the number that it may end in, and its end.
fn write_line<E: Sink>(err: &mut E, head: &str, name: &str) -> Result<(), Failed>
    ensures { Says (record { bytes = E.taken err.old; faults = E.faults err.old }) (record { bytes = E.taken err.new; faults = E.faults err.new }) (head.now ++ name.now ++ codes "\n") }
{
    write_all(err, head.as_bytes())?;
    write_all(err, name.as_bytes())?;
    write_all(err, b"\n")
}

/// Text to dialect module and back.
fn round<S: Source, O: Sink>(alloc: Global, source: &mut S, out: &mut O) -> Ended
    ensures ended { RoundEnded (record { bytes = S.left source.old; faults = S.faults source.old }) (record { bytes = S.left source.new; faults = S.faults source.new }) (record { bytes = O.taken out.old; faults = O.faults out.old }) (record { bytes = O.taken out.new; faults = O.faults out.new }) result }
    ensures silent { UnlessWriting result (out.new ≡ out.old) }
    ensures front { GaveAtMost (2 ^ 24 + 1) (S.left source.old) (S.left source.new) }
{
    match make(alloc, source) {
        Ok(output) => finish(out, output),
        Err(Stopped::Refused(fault)) => Ended::Refused(fault),
        Err(Stopped::NoMemory) => Ended::NoMemory,
    }
}

/// Reads the source to its end, and makes the modules and the whole output.
fn make<S: Source>(alloc: Global, source: &mut S) -> Result<Output, Stopped>
    ensures made { IfOk result (λ o. Made (record { bytes = S.left source.old; faults = S.faults source.old }) (record { bytes = S.left source.new; faults = S.faults source.new }) o.transferred.value o.text.items) }
    ensures cause { IfErr result (λ e. StopCause (record { bytes = S.left source.old; faults = S.faults source.old }) (record { bytes = S.left source.new; faults = S.faults source.new }) e) }
    ensures front { GaveAtMost (2 ^ 24 + 1) (S.left source.old) (S.left source.new) }
{
    let bytes = read_all(alloc, source)?;
    let output = round_text(alloc, bytes)?;
    Ok(output)
}

/// Writes the whole output.
fn finish<O: Sink>(out: &mut O, output: Output) -> Ended
    ensures { Wrote (record { bytes = O.taken out.old; faults = O.faults out.old }) (record { bytes = O.taken out.new; faults = O.faults out.new }) output.transferred.value output.text.items result }
{
    match write_all(out, output.text.as_slice()) {
        Ok(()) => Ended::Done(output.transferred),
        Err(_) => Ended::Refused(Fault::WriteFault),
    }
}
