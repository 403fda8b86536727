// Reading from a stream into lent bytes.
#![tactic(auto)]

ghost use Rattle.std.specs.Prelude.{◌≡◌, ℕ, ◌≤◌, min, length, take, drop, Some, IfSome, IfOk, OnErr};
ghost use Rattle.std.specs.Io.{ReadsAtMost};
ghost use Rattle.std.specs.Io.KnownBytes.{Consumes};

use std::io;
use std::io::Read;

// Reads until the buffer is full or the input ends, and answers how many bytes it put at the buffer's front.
#[tactic(auto, using(crate::proofs::Fronts::front_read))]
pub fn read_full<R: Read>(reader: &mut R, buffer: &mut [u8]) -> io::Result<usize>
    ensures bound { ReadsAtMost result buffer.new }
    ensures length { length buffer.new ≡ length buffer.old }
    ensures count { IfOk result (λ n. IfSome (R.remaining reader.old) (λ bytes. n ≡ min (length bytes) (length buffer.new))) }
    ensures front { IfOk result (λ n. IfSome (R.remaining reader.old) (λ bytes. take n buffer.new ≡ take n bytes)) }
    ensures rest { IfOk result (λ n. IfSome (R.remaining reader.old) (λ bytes. R.remaining reader.new ≡ Some (drop n bytes))) }
    ensures none_lost { OnErr result ((n : ℕ) × (n ≤ length buffer.new) × Consumes (R.remaining reader.old) (R.remaining reader.new) (take n buffer.new)) }
{
    let mut done = 0;
    // No index: a read moves on by as many bytes as it gives, so the loop ends by a measure.
    while done < buffer.len() {
        let n = reader.read(&mut buffer[done..])?;
        if n == 0 {
            return Ok(done);
        }
        done += n;
    }
    Ok(done)
}
