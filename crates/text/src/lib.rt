// The program's text: reading lines of decimals, and laying out what is printed.
#![tactic(auto)]

ghost use Rattle.std.specs.Prelude.{◌≡◌, ◌+◌, ◌*◌, ◌/◌, ◌≤◌, [], ◌∷◌, ◌++◌, length};
ghost use mathlib.Core.List.{flat_map};
ghost use Rattle.rules.specs.Lists.{cut};
ghost use Rattle.text.specs.Reading.{number_in, lines};
ghost use Rattle.text.specs.Laid.{Laid};
ghost use Rattle.text.specs.Printing as spec;
ghost use Rattle.text.specs.Promised.{Until, LineRead, StepsRead, good_count};

// ---- reading

// Where the byte b stands first, from a place on, or where the text ends.
pub fn until(text: &[u8], from: usize, b: u8) -> usize
    requires { from ≤ length text.now }
    ensures { Until text.now from b result }
{
    from + text[from..]
        .iter()
        .position(|&c| c == b)
        .unwrap_or(text.len() - from)
}

// The decimal that a whole field is.
fn decimal(field: &[u8]) -> Option<u32>
    ensures { result ≡ number_in field.now }
{
    if field.is_empty() {
        return None;
    }
    let mut value: u32 = 0;
    for &b in field {
        if !b.is_ascii_digit() {
            return None;
        }
        value = value.checked_mul(10)?.checked_add(u32::from(b - b'0'))?;
    }
    Some(value)
}

// Reads a line of as many decimals as the slice has words, and answers whether it is one. Words from the first fault on stay.
pub fn numbers(line: &[u8], out: &mut [u32]) -> bool
    ensures { LineRead line.now out.old result out.new }
{
    let mut fields = line.split(|&b| b == b' ');
    for word in out.iter_mut() {
        let Some(value) = fields.next().and_then(decimal) else {
            return false;
        };
        *word = value;
    }
    fields.next().is_none()
}

// A bad line ended the steps, after so many good ones.
#[derive(Clone, Copy, Debug, PartialEq, Eq)]
pub struct BadLine {
    pub after: usize,
}

// Reads a text's lines, each a step of six words, up to the first bad one, and answers how many they are.
pub fn steps(text: &[u8], out: &mut [u32]) -> Result<usize, BadLine>
    requires { length text.now + 12 ≤ 2 * length out.old }
    ensures steps_read { StepsRead (lines text.now) out.old result out.new }
    ensures count_in_bounds { 12 * good_count result ≤ length text.now + 1 }
{
    let mut count = 0;
    for line in text.split_inclusive(|&b| b == b'\n') {
        let line = line.strip_suffix(b"\n").unwrap_or(line);
        if !numbers(line, &mut out[6 * count..6 * count + 6]) {
            return Err(BadLine { after: count });
        }
        count += 1;
    }
    Ok(count)
}

// ---- printing: each lays its bytes out at a place and answers the place behind them

pub fn put(bytes: &[u8], out: &mut [u8], at: usize) -> usize
    requires { at + length bytes.now ≤ length out.old }
    ensures { Laid out.old at bytes.now out.new result }
{
    let to = at + bytes.len();
    out[at..to].copy_from_slice(bytes);
    to
}

// A decimal, without leading zeros.
pub fn put_decimal(n: u32, out: &mut [u8], at: usize) -> usize
    requires { at + 10 ≤ length out.old }
    ensures laid { Laid out.old at (spec.decimal n) out.new result }
    ensures upper_bound { result ≤ at + 10 }
{
    if n < 10 {
        out[at] = b'0' + n as u8;
        return at + 1;
    }
    let e = put_decimal(n / 10, out, at);
    out[e] = b'0' + (n % 10) as u8;
    e + 1
}

// A line of decimals: a space stands between two of them, a newline behind the last.
pub fn put_line(words: &[u32], out: &mut [u8], at: usize) -> usize
    requires { at + 11 * length words.now ≤ length out.old }
    ensures laid { Laid out.old at (spec.line words.now) out.new result }
    ensures upper_bound { result ≤ at + 11 * length words.now }
{
    let mut to = at;
    for (i, &word) in words.iter().enumerate() {
        let e = put_decimal(word, out, to);
        out[e] = if i + 1 < words.len() { b' ' } else { b'\n' };
        to = e + 1;
    }
    to
}

// A label and a number, which end a line.
fn put_labelled(label: &[u8], n: u32, out: &mut [u8], at: usize) -> usize
    requires { at + length label.now + 11 ≤ length out.old }
    ensures laid { Laid out.old at (label.now ++ spec.line (n ∷ [])) out.new result }
    ensures upper_bound { result ≤ at + length label.now + 11 }
{
    let to = put(label, out, at);
    put_line(&[n], out, to)
}

#[tactic(auto, unfolding(crate::specs::Printing::start_line))]
pub fn put_start(number: u32, out: &mut [u8], at: usize) -> usize
    requires { at + 17 ≤ length out.old }
    ensures laid { Laid out.old at (spec.start_line number) out.new result }
    ensures upper_bound { result ≤ at + 17 }
{
    put_labelled(b"start ", number, out, at)
}

#[tactic(auto, unfolding(crate::specs::Printing::bad_line))]
pub fn put_bad_line(n: u32, out: &mut [u8], at: usize) -> usize
    requires { at + 20 ≤ length out.old }
    ensures laid { Laid out.old at (spec.bad_line n) out.new result }
    ensures upper_bound { result ≤ at + 20 }
{
    put_labelled(b"bad line ", n, out, at)
}

#[tactic(auto, unfolding(crate::specs::Printing::too_long))]
pub fn put_too_long(out: &mut [u8], at: usize) -> usize
    requires { at + 9 ≤ length out.old }
    ensures { Laid out.old at spec.too_long out.new result }
{
    put(b"too long\n", out, at)
}

// A line for each step, of six words, with its answer, of two: its kind, its number and its count.
pub fn put_answers(steps: &[u32], answers: &[u32], out: &mut [u8], at: usize) -> usize
    requires steps_len { (length steps.now ≡ 6 * (length steps.now / 6)) × (length answers.now ≡ 2 * (length steps.now / 6)) }
    requires out_len { at + 33 * (length steps.now / 6) ≤ length out.old }
    ensures laid { Laid out.old at (spec.step_lines (cut (length steps.now / 6) 6 steps.now) answers.now) out.new result }
    ensures upper_bound { result ≤ at + 33 * (length steps.now / 6) }
{
    let mut to = at;
    for i in 0..steps.len() / 6 {
        to = put_line(&[steps[6 * i], answers[2 * i], answers[2 * i + 1]], out, to);
    }
    to
}

// Rows of five words each, one line a row.
fn put_rows(rows: &[u32], out: &mut [u8], at: usize) -> usize
    requires { (length rows.now ≡ 5 * (length rows.now / 5)) × (at + 55 * (length rows.now / 5) ≤ length out.old) }
    ensures laid { Laid out.old at (flat_map spec.line (cut (length rows.now / 5) 5 rows.now)) out.new result }
    ensures upper_bound { result ≤ at + 55 * (length rows.now / 5) }
{
    let mut to = at;
    for row in rows.as_chunks::<5>().0 {
        to = put_line(row, out, to);
    }
    to
}

// The line over the n rows of board i.
fn put_title(i: u32, n: u32, out: &mut [u8], at: usize) -> usize
    requires { at + 33 ≤ length out.old }
    ensures laid { Laid out.old at (spec.board_title i n) out.new result }
    ensures upper_bound { result ≤ at + 33 }
{
    let a = put(b"board ", out, at);
    let b = put_decimal(i, out, a);
    put_labelled(b" rows ", n, out, b)
}

// Board i and its rows, whose number is one of 32 bits.
pub fn put_board(i: u32, rows: &[u32], out: &mut [u8], at: usize) -> usize
    requires { (length rows.now ≡ 5 * (length rows.now / 5)) × (length rows.now / 5 ≤ 4294967295) × (at + 33 + 55 * (length rows.now / 5) ≤ length out.old) }
    ensures laid { Laid out.old at (spec.board_lines i (cut (length rows.now / 5) 5 rows.now)) out.new result }
    ensures upper_bound { result ≤ at + 33 + 55 * (length rows.now / 5) }
{
    let to = put_title(i, (rows.len() / 5) as u32, out, at);
    put_rows(rows, out, to)
}
