// The bench: a command on each line of standard input, an answer on each line of standard output.
#![tactic(auto)]

ghost use Rattle.std.specs.Prelude.{◌≡◌, length};

use bench::Bench;
use line::Line;
use std::io;
use std::io::{BufWriter, Read, Write};

mod bench;
mod command;
mod line;
mod words;

// So many octets are read at once. Where a read loses what it has no room for, as of a socket of packets, no longer message comes whole.
const LONGEST_MESSAGE: usize = 65536;

// So many where there is less stack.
const BLOCK: usize = 49152;

// Answers standard input to its end, or to a read that fails. The answers to a block are out before the next is waited for.
pub fn run<R: Input + Print + Alloc>(rt: &R) -> io::Result<()> {
    let mut input = rt.reader();
    let mut out = BufWriter::new(rt.alloc(), io::writer(rt))?;
    let mut block = longest_message();
    let n = input.read(&mut block)?;
    if n == 0 {
        return Ok(());
    }
    answer_all(&mut input, &mut out, &mut block, n)
}

// The same by smaller blocks, on 16 KiB less of stack. Written out, since a call for both would move what the programs run.
pub fn run_on_less_stack<R: Input + Print + Alloc>(rt: &R) -> io::Result<()> {
    let mut input = rt.reader();
    let mut out = BufWriter::new(rt.alloc(), io::writer(rt))?;
    let mut block = [0u8; BLOCK];
    let n = input.read(&mut block)?;
    if n == 0 {
        return Ok(());
    }
    answer_all(&mut input, &mut out, &mut block, n)
}

// Apart, so that no other proof computes on so long an array.
fn longest_message() -> [u8; LONGEST_MESSAGE]
    ensures { 65536 ≡ length result }
{
    [0; LONGEST_MESSAGE]
}

// Apart, so that an input that says nothing takes no stack for what is kept.
#[inline(never)]
fn answer_all<I: Read, W: Write, const N: usize>(
    input: &mut I,
    out: &mut W,
    block: &mut [u8; N],
    first: usize,
) -> io::Result<()> {
    let mut line = Line::new();
    let mut bench = Bench::new();
    let mut n = first;
    let mut ended = Ok(());
    // to the end of the input, which has no iterator over blocks
    for _ in 0..u64::MAX {
        answer_lines(out, &block[..n.min(N)], &mut line, &mut bench)?;
        out.flush()?;
        match input.read(block) {
            Ok(0) => break,
            Ok(more) => n = more,
            Err(error) => {
                ended = Err(error);
                break;
            }
        }
    }
    // what stands behind the last line feed is a line too
    if !line.is_empty() {
        bench.answer(out, line.text())?;
    }
    out.flush()?;
    ended
}

// Octet by octet, since a line may go on in the next block.
fn answer_lines<W: Write>(
    out: &mut W,
    block: &[u8],
    line: &mut Line,
    bench: &mut Bench,
) -> io::Result<()> {
    for c in block {
        if *c == b'\n' {
            bench.answer(out, line.text())?;
            line.clear();
        } else {
            line.push(*c);
        }
    }
    Ok(())
}
