// A sheet from standard input, in blocks; the answers of a block are written before the next is read.
ghost use Rattle.std.specs.Prelude.{◌≡◌, ◌+◌, ◌≤◌, length};

use crate::buffers::{Answers, room};
use crate::kinds::Sheet;
use crate::told;
use std::io::{Input, Read, Result};

// No loop here is endless. Each read but the last brings a byte, and the numbers of that many lines fit 64 bits.
const READS: u64 = 140737488355328;

// The line that is being read, and its number.
#[derive(Clone, Copy)]
struct Begun {
    sheet: Sheet,
    number: u64,
}

impl Begun {
    fn after(self, c: u8) -> Begun
        ensures { result.number ≡ self.number }
    {
        Begun {
            sheet: self.sheet.after(c),
            number: self.number,
        }
    }

    fn next(self) -> Begun
        requires { self.number + 1 ≤ 18446744073709551615 }
        ensures { result.number ≡ self.number + 1 }
    {
        Begun {
            sheet: self.sheet.next(),
            number: self.number + 1,
        }
    }
}

// The line that a block ends in, and where the answers end.
#[derive(Clone, Copy)]
struct Walked {
    begun: Begun,
    end: usize,
}

// Puts a line's answer behind the others, or tells that it has none.
fn answer(rt: &impl Eprint, line: Begun, out: &mut [u8], end: usize) -> usize
    requires { end + 16 ≤ length out.old }
    ensures { result ≤ end + 16 }
{
    let mut text = [0u8; 20];
    let Some(length) = line.sheet.reply(&mut text) else {
        told::not_four(rt, line.number);
        return end;
    };
    out[end..end + length].copy_from_slice(&text[..length]);
    end + length
}

fn walk(rt: &impl Eprint, block: &[u8], start: Begun, out: &mut [u8]) -> Walked
    requires { (length block.now ≤ 65536) × (length out.old ≡ 1048576) × (start.number + 65536 ≤ 18446744073709551615) }
    ensures { (result.begun.number ≤ start.number + 65536) × (result.end ≤ 1048576) }
{
    let mut begun = start;
    let mut end: usize = 0;
    for c in block {
        if *c != b'\n' {
            begun = begun.after(*c);
            continue;
        }
        end = answer(rt, begun, &mut *out, end);
        begun = begun.next();
    }
    Walked { begun, end }
}

// The last line, where it is not ended.
fn finish(rt: &(impl Print + Eprint), last: Begun) -> Result<()> {
    if last.sheet.is_empty() {
        return Ok(());
    }
    let mut out = [0u8; 16];
    let end = answer(rt, last, &mut out, 0);
    rt.write_all(&out[..end])
}

// Input that cannot be read is told, and what cannot be written is an error.
pub(crate) fn run(rt: &(impl Input + Print + Eprint), sheet: Sheet) -> Result<()> {
    let mut input = rt.reader();
    let mut block = [0u8; 65536];
    let mut out: Answers = room();
    let mut begun = Begun { sheet, number: 1 };
    for _ in 0..READS {
        let Ok(count) = input.read(&mut block) else {
            told::read_failed(rt);
            return Ok(());
        };
        if count == 0 {
            return finish(rt, begun);
        }
        let walked = walk(rt, &block[..count], begun, &mut out);
        rt.write_all(&out[..walked.end])?;
        begun = walked.begun;
    }
    Ok(())
}
