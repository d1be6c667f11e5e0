// The chip that stays with the caller: each function calls the one that takes the chip by value, and stores back what it gives.
// Stays: by value within, for so document 01 has it ("A form for each place"); `event::take` takes a lent chip.
#![tactic(auto)]

ghost use Rattle.port.specs.Port.{PowersOn, TakesEvent, TakesLine, Dumps, ShowsBlock};

use event::{Answer, Event};
use line::Session;
use state::{Chip, Refusal, Setup};

// The chip at power-on from a setup; or the setup's refusal, and the chip as it was.
pub fn power_on(chip: &mut Chip, setup: Setup) -> Result<(), Refusal>
    ensures { PowersOn chip.old setup result chip.new }
{
    let done = state::power_again(*chip, setup);
    *chip = done.chip;
    match done.refusal {
        None => Ok(()),
        Some(refusal) => Err(refusal),
    }
}

// One event, with the bytes beside it.
pub fn take_event(chip: &mut Chip, event: Event, bytes: &[u8]) -> Answer
    ensures { TakesEvent chip.old event bytes.now result chip.new }
{
    let done = event::step(*chip, event, bytes);
    *chip = done.chip;
    done.answer
}

// One line, with a lent output for its answer.
pub fn take_line(session: &mut Session, line: &[u8], out: &mut [u8]) -> Result<usize, Refusal>
    ensures { TakesLine session.old line.now out.old result session.new out.new }
{
    let done = line::take_line(*session, line, out);
    *session = done.session;
    done.reply
}

// The register dump of a chip that is only looked at, into a lent buffer.
pub fn dump(chip: &Chip, out: &mut [u8]) -> Result<usize, Refusal>
    ensures { Dumps chip.now out.old result out.new }
{
    event::dump(*chip, out)
}

// What the registers from the first on show, as many as bytes are lent, of a chip that is only looked at: of a block read that was
// acknowledged, its bytes.
pub fn show_block(chip: &Chip, first: u8, bytes: &mut [u8])
    ensures { ShowsBlock chip.now first bytes.old bytes.new }
{
    event::show_block(*chip, first, bytes);
}
