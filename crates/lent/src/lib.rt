// A chip by value, lent to the port and taken back: the functions of `port`, with the promises of those that take the chip by value.
#![tactic(auto)]

ghost use Rattle.std.specs.Prelude.{◌≡◌, length};
ghost use Rattle.bus.specs.Dump.{dump_answer, dumped_into};
ghost use Rattle.bus.specs.Block.{block_bytes};
ghost use Rattle.event.specs.Event.{stepped_chip};
ghost use Rattle.line.specs.Line.{taken_line, buffer_after};
ghost use Rattle.state.specs.Powered.{powered};

use event::{Event, Stepped};
use line::{Session, Taken};
use state::{Chip, Powered, Refusal, Setup};

// Power-on from a setup, which may be refused.
pub fn power_again(chip: Chip, setup: Setup) -> Powered
    ensures { result ≡ powered chip setup }
{
    let mut held = chip;
    let done = port::power_on(&mut held, setup);
    Powered {
        chip: held,
        refusal: done.err(),
    }
}

// One event, with the bytes beside it.
pub fn take_event(chip: Chip, event: Event, bytes: &[u8]) -> Stepped
    ensures { result ≡ stepped_chip chip event bytes.now }
{
    let mut held = chip;
    let answer = port::take_event(&mut held, event, bytes);
    Stepped { chip: held, answer }
}

// One line, with a lent output for its answer.
pub fn take_line(session: Session, line: &[u8], out: &mut [u8]) -> Taken
    ensures { (result ≡ taken_line session line.now out.old) × (out.new ≡ buffer_after session line.now out.old) }
{
    let mut held = session;
    let reply = port::take_line(&mut held, line, out);
    Taken {
        session: held,
        reply,
    }
}

// The register dump, into a lent buffer.
pub fn dump(chip: Chip, out: &mut [u8]) -> Result<usize, Refusal>
    ensures { (result ≡ dump_answer out.old) × (out.new ≡ dumped_into chip out.old) }
{
    port::dump(&chip, out)
}

// What the registers from the first on show, as many as bytes are lent.
pub fn show_block(chip: Chip, first: u8, bytes: &mut [u8])
    ensures { bytes.new ≡ block_bytes chip first (length bytes.old) }
{
    port::show_block(&chip, first, bytes);
}
