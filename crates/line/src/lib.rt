// A line of text given to the chip: taken, or refused by its number (document 01, "Lines and refusals"; document 02, Q-1).
#![tactic(auto)]

ghost use Rattle.std.specs.Prelude.{◌≡◌, Ok};
ghost use Rattle.line.specs.Line.{start_session, asked_event, asked_settings, asked_other, room_for, asked_line, refused_line, setup_line, event_line, answer_text, answer_room, silent_line, taken_by, buffer_by, taken_line, buffer_after};
ghost use Rattle.settings.specs.Settings.{settings_of};
ghost use Rattle.text.specs.Answers.{block_text, BLOCK_ROOM, wrote_length, wrote_into};
ghost use Rattle.bus.specs.Block.{block_bytes};

use event::{Answer, BLOCK_MOST, Event};
use map::Block;
use state::{Chip, Refusal};
use text::{BLOCK_ROOM, ROOM};

// A chip, and whether any line has been taken.
#[derive(Clone, Copy)]
pub struct Session {
    pub chip: Chip,
    pub begun: bool,
}

// The session after a line, and its reply: how many bytes of answer it wrote, or its refusal.
#[derive(Clone, Copy)]
pub struct Taken {
    pub session: Session,
    pub reply: Result<usize, Refusal>,
}

// What a line asks for. The setup itself is not in here: it is large, and most lines have none.
// Stays: no Option of an event, for a setup is asked for as an event is.
#[derive(Clone, Copy)]
pub enum Asked {
    Setup,
    Event(Event),
}

// The longest line.
const LONGEST: usize = 512;

// A chip at power-on without a setup, and no line taken.
#[tactic(auto, using(state::specs::Powered::valid_powered, state::specs::Valid::default_valid), unfolding(crate::specs::Line::start_session, state::specs::Powered::powered_on))]
pub fn start() -> Session
    ensures { result ≡ start_session }
{
    Session {
        chip: state::power_on(state::default_setup()).chip,
        begun: false,
    }
}

// The text of a block that a chip shows, at the start of the lent buffer, and its length.
#[tactic(auto, using(bus::specs::BlockPart::block_long, text::specs::Written::block_none, text::specs::Written::wrote_none, text::specs::Written::wrote_zero))]
fn write_block_shown(chip: &Chip, block: Block, out: &mut [u8]) -> usize
    ensures { (result ≡ wrote_length BLOCK_ROOM (block_text (block_bytes chip.now block.first block.count)) out.old) × (out.new ≡ wrote_into BLOCK_ROOM (block_text (block_bytes chip.now block.first block.count)) out.old) }
{
    let mut bytes = [0u8; BLOCK_MOST];
    let n = block.count as usize;
    if BLOCK_MOST < n {
        return 0;
    }
    event::show_block(*chip, block.first, &mut bytes[..n]);
    text::write_block_shown(out, &bytes[..n])
}

// The text of an answer, at the start of the lent buffer, and its length. The bytes of a block are those of the chip beside it.
#[tactic(auto, using(text::specs::Written::wrote_none, text::specs::Written::wrote_zero), unfolding(crate::specs::Line::answer_text, crate::specs::Line::answer_room))]
fn write_answer(chip: &Chip, answer: Answer, out: &mut [u8]) -> usize
    ensures { (result ≡ wrote_length (answer_room answer) (answer_text chip.now answer) out.old) × (out.new ≡ wrote_into (answer_room answer) (answer_text chip.now answer) out.old) }
{
    match answer {
        Answer::Nothing | Answer::Refused(_) => 0,
        Answer::Acknowledged(ack) => text::write_ack(out, b'W', ack),
        Answer::Byte(Some(byte)) => text::write_shown(out, byte),
        Answer::Byte(None) => text::write_not_shown(out, b'R'),
        Answer::Ticked(t) => text::write_tick(
            out, t.alert, t.duty1, t.duty2, t.output1, t.output2, t.errors,
        ),
        Answer::Block(Some(block)) => write_block_shown(chip, block, out),
        Answer::Block(None) => text::write_not_shown(out, b'G'),
        Answer::BlockWritten(ack) => text::write_ack(out, b'P', ack),
    }
}

#[tactic(auto, unfolding(crate::specs::Line::asked_event, crate::specs::Line::asked_unless))]
fn ask_event(event: Event, bytes: &[u8]) -> Result<Asked, Refusal>
    ensures { result ≡ asked_event event bytes.now }
{
    match event::refusal_of(event, bytes) {
        None => Ok(Asked::Event(event)),
        Some(refusal) => Err(refusal),
    }
}

// An S line: its spelling, then whether it comes first, then its numbers.
#[tactic(auto, unfolding(crate::specs::Line::asked_settings, state::specs::Refusal::number_of))]
fn ask_setup(begun: bool, line: &[u8]) -> Result<Asked, Refusal>
    ensures { result ≡ asked_settings begun (settings_of line.now) }
{
    match settings::settings_of(line) {
        Err(Refusal::Spelling) => Err(Refusal::Spelling),
        _ if begun => Err(Refusal::Late),
        Err(refusal) => Err(refusal),
        Ok(_) => Ok(Asked::Setup),
    }
}

// A line that says no event: a setup, or wrong spelling.
#[tactic(auto, unfolding(crate::specs::Line::asked_other))]
fn ask_other(begun: bool, line: &[u8]) -> Result<Asked, Refusal>
    ensures { result ≡ asked_other begun line.now }
{
    if parse::letter_of(line) == b'S' {
        return ask_setup(begun, line);
    }
    Err(Refusal::Spelling)
}

// The least room for a line's answer: more for one that begins with G, whatever else is in it.
#[tactic(auto, unfolding(crate::specs::Line::room_for))]
fn room_for(line: &[u8]) -> usize
    ensures { result ≡ room_for line.now }
{
    match line {
        [b'G', ..] => BLOCK_ROOM,
        _ => ROOM,
    }
}

// What a line asks for, after others have been taken or not, with this much room for its answer: with room for any, the
// first byte is not looked at. No line that says an event carries too many bytes for it, so its refusal is that of the event with none.
#[tactic(auto, using(crate::specs::Comes::room_for_most, crate::specs::Clamped::asked_clamped, crate::specs::Clamped::asked_data), unfolding(crate::specs::Line::asked_line, crate::specs::Line::asked_text, crate::specs::Line::asked_by))]
fn ask(begun: bool, room: usize, line: &[u8]) -> Result<Asked, Refusal>
    ensures { result ≡ asked_line begun room line.now }
{
    if room < BLOCK_ROOM && room < room_for(line) {
        return Err(Refusal::Room);
    }
    if LONGEST < line.len() {
        return Err(Refusal::Spelling);
    }
    match parse::event_of(line) {
        None => ask_other(begun, line),
        Some(event) => ask_event(event, &line[..0]),
    }
}

// An S line that is taken: the chip is powered on with its setup.
#[tactic(auto, using(state::specs::Powered::valid_powered, settings::specs::InRange::settings_valid), unfolding(crate::specs::Line::silent_line, crate::specs::Line::setup_line, crate::specs::Line::begun_line, crate::specs::Line::replied, state::specs::Powered::powered_on))]
fn set_up(session: &mut Session, line: &[u8])
    ensures { silent_line (setup_line line.now) ≡ record { session = session.new; reply = Ok 0 } }
{
    let setup = settings::settings_of(line).unwrap_or_else(|_| state::default_setup());
    session.chip = state::power_on(setup).chip;
    session.begun = true;
}

// An event that is taken, and the length of its answer.
#[tactic(auto, unfolding(crate::specs::Line::taken_by, crate::specs::Line::buffer_by, crate::specs::Line::event_line, crate::specs::Line::begun_line, crate::specs::Line::replied))]
fn take_event(session: &mut Session, event: Event, bytes: &[u8], out: &mut [u8]) -> usize
    ensures { (taken_by (event_line session.old.chip event bytes.now) out.old ≡ record { session = session.new; reply = Ok result }) × (out.new ≡ buffer_by (event_line session.old.chip event bytes.now) out.old) }
{
    let answer = event::take(&mut session.chip, event, bytes);
    session.begun = true;
    write_answer(&session.chip, answer, out)
}

// The reply to a line on a session that is lent.
// Stays: no `?` (tried: the check does not see that it hands the refusal on as it is).
fn reply_to(session: &mut Session, line: &[u8], out: &mut [u8]) -> Result<usize, Refusal>
    ensures { (taken_line session.old line.now out.old ≡ record { session = session.new; reply = result }) × (out.new ≡ buffer_after session.old line.now out.old) }
{
    match ask(session.begun, out.len(), line) {
        Ok(Asked::Setup) => {
            set_up(session, line);
            Ok(0)
        }
        Ok(Asked::Event(event)) => {
            let mut carried = [0u8; BLOCK_MOST];
            let count = parse::data_of(line, &mut carried);
            Ok(take_event(session, event, &carried[..count], out))
        }
        Err(refusal) => Err(refusal),
    }
}

// Takes a line, without its line feed, or refuses it. A taken line writes only its answer's bytes into the lent buffer; a refused one leaves
// session and buffer as they were. The session is large to hand on, so it is put where it is answered at once.
pub fn take_line(session: Session, line: &[u8], out: &mut [u8]) -> Taken
    ensures { (result ≡ taken_line session line.now out.old) × (out.new ≡ buffer_after session line.now out.old) }
{
    let mut taken = Taken {
        session,
        reply: Ok(0),
    };
    taken.reply = reply_to(&mut taken.session, line, out);
    taken
}
