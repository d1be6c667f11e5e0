// The bench: reads lines from standard input, gives them to the chip and writes what they print.
#![tactic(auto)]

ghost use Rattle.std.specs.Prelude.{◌≤◌};

use arrayvec::ArrayVec;
use line::Session;
use std::io;
use std::io::{Read, Write};
use text::BLOCK_ROOM;

// How much is read at once, and how much written.
const INPUT: usize = 16384;

const OUTPUT: usize = 16384;

// Of a line of more than 512 bytes the first 513 are kept, by which it is refused.
const LINE: usize = 513;

// What is kept of a line that comes in several reads.
type Kept = ArrayVec<u8, LINE>;

// The output: how many of its bytes wait to be written.
// Stays: no ArrayVec, for answers are written where they wait, and it lends no room behind its bytes.
#[derive(Drop)]
struct Output {
    bytes: [u8; OUTPUT],
    waiting: usize,
    ghost within: { waiting ≤ 16384 },
}

impl Output {
    // Writes what waits.
    fn flush(&mut self, rt: &impl Print) -> io::Result<()> {
        rt.write_all(&self.bytes[..self.waiting])?;
        self.waiting = 0;
        Ok(())
    }

    // Writes what waits where the longest print, that of a block read, might not fit behind it.
    fn make_room(&mut self, rt: &impl Print) -> io::Result<()> {
        if OUTPUT - self.waiting < BLOCK_ROOM {
            self.flush(rt)?;
        }
        Ok(())
    }

    // So many bytes more wait.
    fn wait(&mut self, length: usize) {
        self.waiting += length.min(OUTPUT - self.waiting);
    }
}

// The line that was put together, or the part that is a line by itself.
fn whole<'a>(kept: &'a [u8], part: &'a [u8]) -> &'a [u8] {
    if kept.is_empty() { part } else { kept }
}

// The chip, and the number of the next line.
#[derive(Drop)]
struct Bench {
    session: Session,
    number: u64,
}

impl Bench {
    // Gives a line to the chip. What it prints waits. A refused line leaves the session as it was, so it isn't copied back.
    fn give(&mut self, line: &[u8], out: &mut Output) {
        let taken = line::take_line(self.session, line, &mut out.bytes[out.waiting..]);
        let length = match taken.reply {
            Ok(length) => {
                self.session = taken.session;
                length
            }
            Err(refusal) => {
                text::write_refusal(
                    &mut out.bytes[out.waiting..],
                    self.number,
                    u8::from(refusal),
                )
            },
        };
        out.wait(length);
        self.number = self.number.saturating_add(1);
    }

    // Takes what one read brought. A line that came at once is given to the chip where it stands; of one in parts what fits is kept.
    fn take_block(
        &mut self,
        rt: &impl Print,
        block: &[u8],
        kept: &mut Kept,
        out: &mut Output,
    ) -> io::Result<()> {
        for piece in block.split_inclusive(|b| *b == b'\n') {
            if let Some(part) = piece.strip_suffix(b"\n") {
                out.make_room(rt)?;
                if !kept.is_empty() {
                    kept.write(part)?;
                }
                self.give(whole(&kept[..], part), out);
                kept.clear();
            } else {
                kept.write(piece)?;
            }
        }
        Ok(())
    }
}

// Before each read, what waits is written. A loop has to end, and nothing says that an input does, so it is bounded by a number that no run
// uses up. The last line may lack its line feed.
fn run(
    rt: &impl Print,
    reader: &mut impl Read,
    bench: &mut Bench,
    out: &mut Output,
) -> io::Result<()> {
    let mut input = [0u8; INPUT];
    let mut kept: Kept = ArrayVec::new();
    for _ in 0..u64::MAX {
        out.flush(rt)?;
        let got = reader.read(&mut input)?;
        if got == 0 {
            break;
        }
        bench.take_block(rt, &input[..got], &mut kept, out)?;
    }
    if !kept.is_empty() {
        bench.take_block(rt, b"\n", &mut kept, out)?;
    }
    out.flush(rt)
}

fn main(rt: HostRuntime) -> io::Result<()> {
    rt.write_all(b"bench\t1\n")?;
    let mut bench = Bench {
        session: line::start(),
        number: 1,
    };
    let mut out = Output {
        bytes: [0; OUTPUT],
        waiting: 0,
    };
    run(&rt, &mut rt.stdin(), &mut bench, &mut out)
}
