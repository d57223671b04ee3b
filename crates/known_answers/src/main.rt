// Calls the doors with the vectors on standard input, and writes what each call answered and left in its output. The gate compares that
// with what the second program made of the same vectors.
//
// A vector is five lines. The first has the call, s for sealing, o for opening and h for the log header, and six numbers in hex: the
// stretch in 16 digits, the bytes of output that are lent and the bytes of four strings in 8 digits each. The strings follow in hex, a line
// each: key, header, text or sealed string, and an empty one; or nonce, host, collector and locale.
#![tactic(auto)]

ghost use Rattle.std.specs.Prelude.{◌<◌, ◌≤◌, length};

use answer::{Refusal, StretchBytes};
use std::io::{self, ErrorKind, Read};

// The value of a hex digit, and 0 for any other byte.
fn nibble(c: u8) -> u8
    ensures { result < 16 }
{
    match c {
        b'0'..=b'9' => c - b'0',
        b'a'..=b'f' => c - b'a' + 10,
        _ => 0,
    }
}

// The hex digit of a byte's lower half.
fn digit(n: u8) -> u8 {
    match n % 16 {
        d @ 0..=9 => b'0' + d,
        d => b'a' + (d - 10),
    }
}

// The number of some hex digits, of which the last sixteen count.
fn number(s: &[u8]) -> u64 {
    s.iter()
        .fold(0, |n, &c| (n % (1 << 60)) * 16 + u64::from(nibble(c)))
}

// The bytes of hex digits, two for each byte, put first.
fn unhex(s: &mut [u8]) {
    for i in 0..s.len() / 2 {
        s[i] = nibble(s[2 * i]) * 16 + nibble(s[2 * i + 1]);
    }
}

// Reads until s is full, and answers whether the input had as many bytes.
fn read_full(input: &mut impl Read, s: &mut [u8]) -> io::Result<bool> {
    match input.read_exact(s) {
        Ok(()) => Ok(true),
        Err(e) if e.kind() == ErrorKind::UnexpectedEof => Ok(false),
        Err(e) => Err(e),
    }
}

// Reads a line of hex digits for n bytes, which are put into s from there on.
fn field(input: &mut impl Read, n: usize, at: usize, s: &mut [u8]) -> io::Result<bool> {
    if 65600 < n || s.len() < at || s.len() - at < 2 * n + 1 {
        return Ok(false);
    }
    let line = &mut s[at..at + 2 * n + 1];
    if !read_full(input, line)? {
        return Ok(false);
    }
    unhex(line);
    Ok(true)
}

// Puts the hex digits of s into line, as far as it has room, and answers how many they are.
fn to_hex(s: &[u8], line: &mut [u8]) -> usize
    ensures { result ≤ length line.new }
{
    let mut j = 0;
    for b in s {
        if line.len() - j < 2 {
            return j;
        }
        line[j] = digit(b / 16);
        line[j + 1] = digit(*b);
        j += 2;
    }
    j
}

// Writes an answer as its number and its length, and the whole output in hex on the next line.
fn show(rt: &impl Print, answer: Result<usize, Refusal>, out: &[u8]) -> io::Result<()> {
    match answer {
        Ok(length) => println!(rt; "0 {length:x}")?,
        Err(refusal) => println!(rt; "{:x} 0", refusal.number())?,
    }
    let mut line = [0u8; 131202];
    let k = to_hex(out, &mut line);
    rt.write_all(&line[0..k])?;
    rt.write_all(b"\n")
}

// A vector's first line: the call, the stretch, the bytes of output and of each string.
#[derive(Clone, Copy)]
struct First {
    which: u8,
    stretch: u64,
    room: usize,
    a: usize,
    b: usize,
    c: usize,
    d: usize,
}

// The first line from its bytes.
fn first_line(s: [u8; 64]) -> First {
    First {
        which: s[0],
        stretch: number(&s[2..18]),
        room: number(&s[19..27]) as usize,
        a: number(&s[28..36]) as usize,
        b: number(&s[37..45]) as usize,
        c: number(&s[46..54]) as usize,
        d: number(&s[55..63]) as usize,
    }
}

// Reads the strings of a vector, each to its place; answers whether they were there.
fn strings(input: &mut impl Read, v: First, s: &mut [u8]) -> io::Result<bool> {
    Ok(
        field(input, v.a, 0, s)?
            && field(input, v.b, 65600, s)?
            && field(input, v.c, 131200, s)?
            && field(input, v.d, 196800, s)?,
    )
}

// The n bytes of s from there on, or none where s has not as many.
fn part(s: &[u8], at: usize, n: usize) -> &[u8] {
    match s.get(at..) {
        Some(rest) => rest.get(..n).unwrap_or(&[]),
        None => &[],
    }
}

// Makes the call that a vector's first letter names.
fn call(v: First, s: &[u8], out: &mut [u8]) -> Result<usize, Refusal> {
    let a = part(s, 0, v.a);
    let b = part(s, 65600, v.b);
    let c = part(s, 131200, v.c);
    match v.which {
        b's' => record::seal(a, b, StretchBytes(v.stretch), c, out),
        b'o' => record::open(a, b, StretchBytes(v.stretch), c, out),
        _ => builder::log_header(a, b, c, part(s, 196800, v.d), out),
    }
}

// Makes the call of a vector, and shows what came of it.
fn answer(rt: &impl Print, v: First, s: &[u8], out: &mut [u8]) -> io::Result<()> {
    let r = call(v, s, out);
    show(rt, r, out)
}

// The same with so much of an output as the vector asks for; answers whether there is as much.
fn answer_with_room(rt: &impl Print, v: First, s: &[u8]) -> io::Result<bool> {
    let room = v.room;
    if 65600 < room {
        return Ok(false);
    }
    let mut out = [165u8; 65600];
    answer(rt, v, s, &mut out[0..room])?;
    Ok(true)
}

// Reads and runs one vector; answers whether there may be another.
fn vector(rt: &impl Print, input: &mut impl Read) -> io::Result<bool> {
    let mut first = [0u8; 64];
    if !read_full(input, &mut first)? {
        return Ok(false);
    }
    let v = first_line(first);
    let mut s = [0u8; 328002];
    if !strings(input, v, &mut s)? {
        return Ok(false);
    }
    answer_with_room(rt, v, &s)
}

// A proved loop has to end, and nothing says that the input does: the turns are counted.
fn main(rt: HostRuntime) -> io::Result<()> {
    let mut input = rt.reader();
    for _ in 0..100000 {
        if !vector(&rt, &mut input)? {
            break;
        }
    }
    Ok(())
}
