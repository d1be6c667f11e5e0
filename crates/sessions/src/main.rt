// Runs many sessions of lines, one after the other: a line that begins with # is the title of the next, which starts from power-on.
#![tactic(auto)]

ghost use Rattle.std.specs.Prelude.{◌≤◌, IfOk, length};

use line::Session;
use std::io;
use std::io::Read;
use text::BLOCK_ROOM;

const INPUT_MOST: usize = 65536;

// One byte more tells that there is more.
const INPUT: usize = INPUT_MOST + 1;

// A session, and the number of its next line.
#[derive(Drop)]
struct Run {
    session: Session,
    number: u64,
}

fn begin() -> Run {
    Run {
        session: line::start(),
        number: 1,
    }
}

// Gives a line to the chip and writes what it prints.
fn give(rt: &impl Print, run: Run, line: &[u8]) -> io::Result<Run> {
    let mut out = [0u8; BLOCK_ROOM];
    let taken = line::take_line(run.session, line, &mut out);
    let length = match taken.reply {
        Ok(length) => length,
        Err(refusal) => text::write_refusal(&mut out, run.number, u8::from(refusal)),
    };
    rt.write_all(&out[..length.min(BLOCK_ROOM)])?;
    Ok(Run {
        session: taken.session,
        number: run.number.saturating_add(1),
    })
}

fn take(rt: &impl Print, run: Run, line: &[u8]) -> io::Result<Run> {
    if line.starts_with(b"#") {
        rt.write_all(line)?;
        rt.write_all(b"\n")?;
        return Ok(begin());
    }
    give(rt, run, line)
}

// Stays: a loop of its own in each program, for what it hands on from line to line is another in each.
fn take_all(rt: &impl Print, input: &[u8]) -> io::Result<()> {
    let mut run = begin();
    for piece in input.split_inclusive(|b| *b == b'\n') {
        run = take(rt, run, piece.strip_suffix(b"\n").unwrap_or(piece))?;
    }
    Ok(())
}

// Stays: reading is as in `searches` and `inplace`; a crate for these lines would be longer than they are.
// Reads until the input is full or at its end, and answers how many bytes it has.
fn read_full(reader: &mut impl Read, input: &mut [u8]) -> io::Result<usize>
    ensures { IfOk result (λ n. n ≤ length input.new) }
{
    let mut done = 0;
    for _ in 0..input.len() {
        let got = reader.read(&mut input[done..])?;
        if got == 0 {
            break;
        }
        done += got;
    }
    Ok(done)
}

fn main(rt: HostRuntime) -> io::Result<()> {
    let mut input = [0u8; INPUT];
    let n = read_full(&mut rt.stdin(), &mut input)?;
    if n <= INPUT_MOST {
        take_all(&rt, &input[..n])
    } else {
        rt.eprintln("sessions: more than 65536 bytes on standard input")
    }
}
