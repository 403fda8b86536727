// Performs stored inputs, the files 00, 01 and on: of each it writes its name, what it prints and the words of the store that it leaves.
#![tactic(auto)]

ghost use Rattle.std.specs.Prelude.{◌≡◌, ◌+◌, ◌/◌, ◌%◌, ◌≤◌, [], ◌∷◌, ◌++◌, length, OnOk};
ghost use Rattle.std.specs.Io.KnownBytes.{Appends};
ghost use Rattle.text.specs.Printing.{line};
ghost use Rattle.text.specs.Program.{printed};
ghost use Rattle.program.specs.Left.{left};

use program::Performed;
use std::io::{ErrorKind, Write};
use std::rt::Files;
use std::{fs, io, str};

// Writes what an input prints, then the words of its store in a line.
fn perform<W: Write>(input: &[u8], writer: &mut W) -> io::Result<()>
    ensures { OnOk result (Appends (W.contents writer.old) (W.contents writer.new) (printed input.now ++ line (left input.now))) }
{
    let mut space = [0; program::STORE_WORDS];
    // Room for the words of the store too.
    let mut out = [0; program::OUTPUT_BYTES];
    let Performed { bytes, words } = program::perform_in(input, &mut space, &mut out);
    writer.write_all(&out[..bytes])?;
    let e = text::put_line(&space[..words], &mut out, 0);
    writer.write_all(&out[..e])
}

// The name of file i: two digits, which are text, so that it is a path.
fn name(i: u32) -> [u8; 2]
    requires { i ≤ 99 }
    ensures { result ≡ (48 + i / 10) ∷ (48 + i % 10) ∷ [] }
{
    [b'0' + (i / 10) as u8, b'0' + (i % 10) as u8]
}

// Performs file i, and answers whether there is one.
fn perform_file(rt: &(impl Files + Print), i: u32) -> io::Result<bool>
    requires { i ≤ 99 }
{
    let name = name(i);
    let path = str::from_utf8(&name).unwrap();
    let mut file = match fs::open(rt, path) {
        Ok(file) => file,
        Err(e) if e.kind() == ErrorKind::NotFound => return Ok(false),
        Err(e) => return Err(e),
    };
    let mut writer = io::writer(rt);
    writer.write_all(b"input ")?;
    writer.write_all(&name)?;
    writer.write_all(b"\n")?;
    // A byte more than is looked at: an input that fills it is too long.
    let mut input = [0; program::MOST_BYTES + 1];
    let n = streams::read_full(&mut file, &mut input)?;
    perform(&input[..n], &mut writer)?;
    Ok(true)
}

fn main(rt: HostRuntime) -> io::Result<()> {
    for i in 0..100 {
        if !perform_file(&rt, i)? {
            break;
        }
    }
    Ok(())
}
