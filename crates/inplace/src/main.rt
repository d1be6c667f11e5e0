// Gives each line to a session that is lent to the port and to one that goes by value, and what the line says to a chip that is lent to the
// port. Prints what the line prints, `differs` where the three do not agree, and at the end the register dump of the lent session and its
// zones' readings.
#![tactic(auto)]

ghost use Rattle.std.specs.Prelude.{◌≤◌, IfOk, length};

use event::{Answer, BLOCK_MOST};
use line::Session;
use state::{Chip, Refusal, Setup};
use std::io;
use std::io::Read;
use temperature::Reading;
use text::{BLOCK_ROOM, ROOM};

const INPUT: usize = 4096;

const REGISTERS: usize = 256;

const ROW: usize = 16;

const HEX_DIGITS: [u8; 16] = *b"0123456789ABCDEF";

// The session that is lent, the one by value, the chip that is lent, and the number of the next line.
#[derive(Drop)]
struct Run {
    held: Session,
    moved: Session,
    chip: Chip,
    number: u64,
}

// ---- whether they agree

// The dump of the one is the port's, of the other the one by value. A dump shows neither the kept bytes, nor which channels are in error, nor
// what a reading has below the half degree, so they are compared beside it.
fn same_chip(held: Chip, moved: Chip) -> bool {
    let mut a = [0u8; REGISTERS];
    let mut b = [0u8; REGISTERS];
    lent::dump(held, &mut a) == event::dump(moved, &mut b)
        && a == b
        && held.zones == moved.zones
        && held.kept == moved.kept
        && held.erring == moved.erring
}

fn same_session(held: Session, moved: Session) -> bool {
    held.begun == moved.begun && same_chip(held.chip, moved.chip)
}

// Of an answer to a block read the bytes, of the one chip the port's, of the other those by value.
fn same_block(answer: Answer, held: Chip, moved: Chip) -> bool {
    let Answer::Block(Some(block)) = answer else {
        return true;
    };
    let mut a = [0u8; BLOCK_MOST];
    let mut b = [0u8; BLOCK_MOST];
    lent::show_block(held, block.first, &mut a);
    event::show_block(moved, block.first, &mut b);
    a == b
}

fn complain(rt: &impl Print, alike: bool) -> io::Result<()> {
    if alike {
        return Ok(());
    }
    rt.println("differs")
}

// ---- a line

// The chip after the setup of an S line that is taken.
fn set_up(rt: &impl Print, chip: Chip, line: &[u8]) -> io::Result<Chip> {
    let Ok(setup) = settings::settings_of(line) else {
        return Ok(chip);
    };
    let on = lent::power_again(chip, setup);
    complain(rt, on.refusal.is_none())?;
    Ok(on.chip)
}

// The chip after what a line says, which may have been refused.
fn step(rt: &impl Print, chip: Chip, refused: bool, line: &[u8]) -> io::Result<Chip> {
    if parse::letter_of(line) == b'S' {
        return if refused {
            Ok(chip)
        } else {
            set_up(rt, chip, line)
        };
    }
    let Some(event) = parse::event_of(line) else {
        return Ok(chip);
    };
    let mut carried = [0u8; BLOCK_MOST];
    let count = parse::data_of(line, &mut carried);
    let stepped = lent::take_event(chip, event, &carried[..count]);
    let moved = event::step(chip, event, &carried[..count]);
    complain(rt, stepped.answer == moved.answer)?;
    complain(rt, same_block(stepped.answer, stepped.chip, moved.chip))?;
    Ok(stepped.chip)
}

// A setup out of range is refused, and the chip stays.
fn refuse(rt: &impl Print, chip: Chip, setup: Setup) -> io::Result<()> {
    let on = lent::power_again(chip, setup);
    complain(rt, on.refusal == Some(Refusal::Setup))?;
    complain(rt, same_chip(on.chip, chip))
}

// One whose duties fall, and one with an offset of 64.
fn refuse_setups(rt: &impl Print, chip: Chip) -> io::Result<()> {
    let mut falling = state::default_setup();
    falling.duties = [240, 64, 80, 96, 112, 128, 144, 160, 176, 192, 208, 224, 0];
    refuse(rt, chip, falling)?;
    let mut wide = state::default_setup();
    wide.offsets34 = [63, 63, 63, 63, 63, 63, 63, 63, 63, 63, 63, 64];
    refuse(rt, chip, wide)
}

fn write_reply(
    rt: &impl Print,
    number: u64,
    reply: Result<usize, Refusal>,
    out: &[u8; BLOCK_ROOM],
) -> io::Result<()> {
    match reply {
        Ok(length) => rt.write_all(&out[..length.min(BLOCK_ROOM)]),
        Err(refusal) => {
            let mut refused = [0u8; ROOM];
            let length = text::write_refusal(&mut refused, number, u8::from(refusal));
            rt.write_all(&refused[..length.min(ROOM)])
        }
    }
}

fn give(rt: &impl Print, run: Run, line: &[u8]) -> io::Result<Run> {
    let mut out = [0u8; BLOCK_ROOM];
    let mut moved_out = [0u8; BLOCK_ROOM];
    let held = lent::take_line(run.held, line, &mut out);
    let moved = line::take_line(run.moved, line, &mut moved_out);
    let chip = step(rt, run.chip, held.reply.is_err(), line)?;
    write_reply(rt, run.number, held.reply, &out)?;
    complain(rt, out == moved_out)?;
    complain(rt, held.reply == moved.reply)?;
    complain(rt, same_session(held.session, moved.session))?;
    complain(rt, same_chip(chip, held.session.chip))?;
    Ok(Run {
        held: held.session,
        moved: moved.session,
        chip,
        number: run.number.saturating_add(1),
    })
}

// ---- all lines

fn begin() -> Run {
    let session = line::start();
    Run {
        held: session,
        moved: session,
        chip: session.chip,
        number: 1,
    }
}

// Stays: a loop of its own in each program, for what it hands on from line to line is another in each.
fn give_all(rt: &impl Print, input: &[u8]) -> io::Result<Run> {
    let mut run = begin();
    for piece in input.split_inclusive(|b| *b == b'\n') {
        run = give(rt, run, piece.strip_suffix(b"\n").unwrap_or(piece))?;
    }
    Ok(run)
}

// ---- the dump, and the zones

// Sixteen bytes are a row.
fn write_dump(rt: &impl Print, bytes: &[u8; REGISTERS]) -> io::Result<()> {
    for (i, byte) in bytes.iter().enumerate() {
        let high = HEX_DIGITS[usize::from(*byte / 16)];
        let low = HEX_DIGITS[usize::from(*byte % 16)];
        let behind = if i % ROW == ROW - 1 { b'\n' } else { b' ' };
        rt.write_all(&[high, low, behind])?;
    }
    Ok(())
}

// The readings in sixteenths.
fn write_zones(rt: &impl Print, zones: &[Reading; 6]) -> io::Result<()> {
    print!(rt; "zones")?;
    for reading in zones {
        match *reading {
            Reading::Missing => print!(rt; " -")?,
            Reading::Taken(n) => print!(rt; " {n}")?,
        }
    }
    println!(rt; "")
}

// Stays: reading is as in `sessions` and `searches`; a crate for these lines would be longer than they are.
// Reads until the input is full or at its end, and answers how many bytes it has.
fn read_full(reader: &mut impl Read, input: &mut [u8]) -> io::Result<usize>
    ensures { IfOk result (λ n. n ≤ length input.new) }
{
    let mut done = 0;
    for _ in 0..input.len() {
        let got = reader.read(&mut input[done..])?;
        if got == 0 {
            break;
        }
        done += got;
    }
    Ok(done)
}

fn main(rt: HostRuntime) -> io::Result<()> {
    let mut input = [0u8; INPUT];
    let n = read_full(&mut rt.stdin(), &mut input)?;
    let run = give_all(&rt, &input[..n])?;
    let chip = run.held.chip;
    refuse_setups(&rt, chip)?;
    let mut all = [0u8; REGISTERS];
    let _ = lent::dump(chip, &mut all);
    write_dump(&rt, &all)?;
    write_zones(&rt, &chip.zones)
}
