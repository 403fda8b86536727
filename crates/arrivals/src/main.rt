// Reads an input from standard input and prints what it comes to.
#![tactic(auto)]

ghost use Rattle.std.specs.Prelude.{◌≡◌, ◌≤◌, length, drop, Some, IfSome, IfOk, OnOk};
ghost use Rattle.std.specs.Io.KnownBytes.{Appends};
ghost use Rattle.text.specs.Laid.{Laid};
ghost use Rattle.text.specs.Program.{printed};

use std::io;
use std::io::{Read, Write};

// Reads an input, up to a byte more than is looked at, and lays out what it comes to.
fn lay_out<R: Read>(reader: &mut R, output: &mut [u8]) -> io::Result<usize>
    requires { 209446 ≤ length output.old }
    ensures laid { IfOk result (λ n. IfSome (R.remaining reader.old) (λ bytes. Laid output.old 0 (printed bytes) output.new n)) }
    ensures rest { IfOk result (λ n. IfSome (R.remaining reader.old) (λ bytes. R.remaining reader.new ≡ Some (drop 65537 bytes))) }
    ensures bound { IfOk result (λ n. n ≤ length output.new) }
{
    // A byte more than is looked at: an input that fills it is too long.
    let mut input = [0; program::MOST_BYTES + 1];
    let n = streams::read_full(reader, &mut input)?;
    Ok(program::perform(&input[..n], output))
}

// Reads an input and writes what it comes to.
fn perform<R: Read, W: Write>(reader: &mut R, writer: &mut W) -> io::Result<()>
    ensures writes { OnOk result (IfSome (R.remaining reader.old) (λ bytes. Appends (W.contents writer.old) (W.contents writer.new) (printed bytes))) }
    ensures rest { OnOk result (IfSome (R.remaining reader.old) (λ bytes. R.remaining reader.new ≡ Some (drop 65537 bytes))) }
{
    let mut output = [0; program::OUTPUT_BYTES];
    let n = lay_out(reader, &mut output)?;
    writer.write_all(&output[..n])
}

fn main(rt: HostRuntime) -> io::Result<()> {
    perform(&mut rt.stdin(), &mut io::writer(&rt))
}
