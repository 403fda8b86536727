// Judges the stores that standard input lists, the words of one in a line, and writes the number of each in a line.
#![tactic(auto)]

ghost use Rattle.std.specs.Prelude.{◌≡◌, ◌+◌, ◌*◌, ◌≤◌, length, take, drop, Some, IfSome, IfOk, OnOk};
ghost use Rattle.std.specs.Io.KnownBytes.{Appends};
ghost use Rattle.judged.specs.Text.{word_of, words_of, number_of, answers, Put};

use std::io;
use std::io::{Read, Write};

// How many bytes are read, which is more than the list has; a line has no more words than bytes.
const MOST: usize = 131072;

// The decimal of a field, of which 32 bits are kept: a digit's value is what its code has below 16.
fn read_word(field: &[u8]) -> u32
    ensures { result ≡ word_of field.now }
{
    let mut word: u32 = 0;
    for &b in field {
        word = word.wrapping_mul(10).wrapping_add(u32::from(b % 16));
    }
    word
}

// The words of a line to the front of `store`, and how many they are.
fn read_words(line: &[u8], store: &mut [u32]) -> usize
    requires { (length line.now ≤ 131072) × (131072 ≤ length store.old) }
    ensures { Put (words_of line.now) store.old result store.new }
{
    let mut n = 0;
    for field in line.split_inclusive(|&b| b == b' ') {
        store[n] = read_word(field.strip_suffix(b" ").unwrap_or(field));
        n += 1;
    }
    n
}

// The number of the store in a line: exactly its words are lent.
fn judge_line(line: &[u8]) -> u32
    requires { length line.now ≤ 131072 }
    ensures { result ≡ number_of line.now }
{
    let mut store = [0; MOST];
    let n = read_words(line, &mut store);
    match judge::judge(&store[..n]) {
        Ok(()) => 0,
        Err(refusal) => u32::from(refusal),
    }
}

// A line with the number of each store to the front of `out`, and how many bytes that takes.
fn judge_lines(input: &[u8], out: &mut [u8]) -> usize
    requires { (length input.now ≤ 131072) × (2 * length input.now ≤ length out.old) }
    ensures put { Put (answers input.now) out.old result out.new }
    ensures prefix_len { (result ≤ length out.new) × (result ≡ length (take result out.new)) }
{
    let mut k = 0;
    for line in input.split_inclusive(|&b| b == b'\n') {
        let number = judge_line(line.strip_suffix(b"\n").unwrap_or(line));
        out[k] = b'0' + number as u8;
        out[k + 1] = b'\n';
        k += 2;
    }
    k
}

// Reads a list of stores, as much of it as is looked at, and lays out the number of each.
fn judge_listed<R: Read>(reader: &mut R, out: &mut [u8]) -> io::Result<usize>
    requires { 262144 ≤ length out.old }
    ensures put { IfOk result (λ n. IfSome (R.remaining reader.old) (λ bytes. Put (answers (take 131072 bytes)) out.old n out.new)) }
    ensures rest { IfOk result (λ n. IfSome (R.remaining reader.old) (λ bytes. R.remaining reader.new ≡ Some (drop 131072 bytes))) }
    ensures bound { IfOk result (λ n. n ≤ length out.new) }
{
    let mut input = [0; MOST];
    let n = streams::read_full(reader, &mut input)?;
    Ok(judge_lines(&input[..n], out))
}

// Reads a list of stores and writes a line with the number of each.
fn judge_stream<R: Read, W: Write>(reader: &mut R, writer: &mut W) -> io::Result<()>
    ensures writes { OnOk result (IfSome (R.remaining reader.old) (λ bytes. Appends (W.contents writer.old) (W.contents writer.new) (answers (take 131072 bytes)))) }
    ensures rest { OnOk result (IfSome (R.remaining reader.old) (λ bytes. R.remaining reader.new ≡ Some (drop 131072 bytes))) }
{
    let mut out = [0; 2 * MOST];
    let n = judge_listed(reader, &mut out)?;
    writer.write_all(&out[..n])
}

fn main(rt: HostRuntime) -> io::Result<()> {
    judge_stream(&mut rt.stdin(), &mut io::writer(&rt))
}
