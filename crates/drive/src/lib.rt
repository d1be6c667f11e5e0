// What turns the fans: tables, boosts, ramps, duties and the kick (document 01, "Fan duties").
#![tactic(auto)]

ghost use Rattle.std.specs.Prelude.{◌≡◌, ◌≤◌, ◌<◌, min, max, [], ◌∷◌, slice_index};
ghost use Rattle.map.specs.Names.{SPECIAL_FUNCTION_CONTROL_2};
ghost use Rattle.temperature.specs.declared.Reading.TheVariants.{Taken};
ghost use Rattle.state.specs.Parts.{register_at};
ghost use Rattle.state.specs.Made.{of_drive};
ghost use Rattle.drive.specs.Tables.{joined_zone, followed_zone, table_of, lent, sum_to, is_reached, threshold_reached, asked_duty};
ghost use Rattle.drive.specs.Search.{look_up, downward, LooksUp, searched};
ghost use Rattle.drive.specs.Boosts.{is_latched, is_boosted};
ghost use Rattle.drive.specs.Ramps.{delay_of, moved_level, ramped_on};
ghost use Rattle.drive.specs.Duties.{bound_largest, fan_duty, kicked_fan};
ghost use Rattle.drive.specs.Tick.{seen, followed, unit_by, ask_after, steps_after, asks_after, boosts_after, ramps_after, levels_of, duty_after, kick_after, driven};

use map::{bits, registers};
use state::{Drive, Ramp, Setup};
use std::array;
use temperature::{DEGREE, HALF, Reading};

// The largest duty, 100 %.
const FULL: u16 = 256;

// What a ramp moves by.
const RAMP_STEP: u16 = 16;

// A table: its base in degrees, how many sixteenths a count of its offsets and its hysteresis is, and those counts. The offsets are lent.
#[derive(Clone, Copy)]
pub struct Table<'a> {
    pub base: i8,
    pub unit: u8,
    pub hysteresis: u8,
    pub offsets: &'a [u8; 12],
}

// A table's new step, and how many thresholds the search for it compared.
#[derive(Clone, Copy)]
pub struct Searched {
    pub step: u8,
    pub compared: u8,
}

// Where a look upward ends, the offsets up to there added, and how many thresholds were compared.
#[derive(Clone, Copy)]
struct Look {
    step: usize,
    sum: u32,
    compared: u8,
}

// A table's step, and the duty that it asks for.
#[derive(Clone, Copy)]
struct Ask {
    step: u8,
    duty: u16,
}

// A fan's output, and what is left of its start count.
#[derive(Clone, Copy)]
pub struct Kick {
    pub output: u16,
    pub start: u8,
}

// What only a tick changes, as the tick leaves it, and its two outputs.
#[derive(Clone, Copy)]
pub struct Driven {
    pub drive: Drive,
    pub outputs: [u16; 2],
}

// Zone 1 or 2: its first reading, or the hotter of both while the second is enabled.
#[tactic(auto, unfolding(crate::specs::Tables::joined_zone))]
fn joined_zone(enabled: bool, a: Reading, b: Reading) -> Reading
    ensures { result ≡ joined_zone enabled a b }
{
    if enabled {
        temperature::hotter(a, b)
    } else {
        a
    }
}

// The reading that a table follows, by 31h and 35h. Tables count from 0. Each has a bit of 35h that binds it to zone 1 or 2, the bit of 31h
// that enables that zone's second reading, the place of its first, and the place of zone 3 or 4.
#[tactic(auto, unfolding(crate::specs::Tables::followed_zone, crate::specs::Tables::zone_one, crate::specs::Tables::zone_two))]
pub fn followed_zone(zones: &[Reading; 6], source: u8, bindings: u8, table: u8) -> Reading
    ensures { result ≡ followed_zone zones.now source bindings table }
{
    let (bound, enabled, pair, alone) = match table {
        0 => (bits::LUT1_Z1, bits::Z1BE, 0, 4),
        1 => (bits::LUT2_Z2, bits::Z2BE, 2, 5),
        2 => (bits::LUT3_Z1, bits::Z1BE, 0, 4),
        _ => (bits::LUT4_Z2, bits::Z2BE, 2, 5),
    };
    if map::is_set(bindings, bound) {
        joined_zone(map::is_set(source, enabled), zones[pair], zones[pair + 1])
    } else {
        zones[alone]
    }
}

impl Table<'_> {
    // Whether a threshold, as many counts above the base as the sum says, is not above the reading.
    fn is_reached(&self, sum: u32, reading: i64) -> bool
        ensures { result ≡ is_reached self.now.base self.now.unit sum reading }
    {
        let threshold = i64::from(self.base) * i64::from(DEGREE)
            + i64::from(self.unit) * i64::from(sum);
        threshold <= reading
    }

    // The look upward from the old step. The offsets that lead there are added and not compared; from there on each threshold is one offset
    // more, and the first that is above the reading ends it.
    // Stays: by index, here and downward, for the step reached is what a look answers.
    fn look_up(&self, old: u8, reading: i64) -> Look
        ensures { LooksUp self.now.offsets.now (look_up (threshold_reached (lent self.now) reading) (min 12 old)) result }
    {
        let start = usize::from(old);
        let mut sum: u32 = 0;
        let mut compared: u8 = 0;
        for step in 0..12 {
            let next = sum + u32::from(self.offsets[step]);
            if start <= step {
                compared += 1;
                if !self.is_reached(next, reading) {
                    return Look {
                        step,
                        sum,
                        compared,
                    };
                }
            }
            sum = next;
        }
        Look {
            step: 12,
            sum,
            compared,
        }
    }

    // The look downward from where the look upward stayed. For each threshold that is above, one offset is taken away.
    fn look_down(&self, stayed: Look, held: i64) -> Searched
        requires { (stayed.step ≤ 12) × (stayed.compared ≤ 12) × (stayed.sum ≡ sum_to self.now.offsets.now stayed.step) }
        ensures { result ≡ downward (threshold_reached (lent self.now) held) stayed.step stayed.compared }
    {
        let mut sum = stayed.sum;
        let mut compared = stayed.compared;
        for step in (0..stayed.step).rev() {
            compared += 1;
            if self.is_reached(sum, held) {
                return Searched {
                    step: step as u8 + 1,
                    compared,
                };
            }
            sum -= u32::from(self.offsets[step]);
        }
        Searched { step: 0, compared }
    }

    // The search at a taken reading. An old step above 12 is taken as 12, where the look upward ends.
    fn search_taken(&self, old: u8, n: i16) -> Searched
        ensures { result ≡ searched (lent self.now) old (Taken n) }
    {
        let reading = i64::from(n);
        let held = reading + i64::from(self.unit) * i64::from(self.hysteresis);
        let up = self.look_up(old, reading);
        if up.step <= usize::from(old) {
            return self.look_down(up, held);
        }
        Searched {
            step: up.step as u8,
            compared: up.compared,
        }
    }

    // A table's new step, and how many thresholds the search for it compared.
    #[tactic(auto, unfolding(crate::specs::Tables::new_step, crate::specs::Search::walk, crate::specs::Search::searched))]
    pub fn new_step(&self, old: u8, reading: Reading) -> Searched
        ensures { result ≡ searched (lent self.now) old reading }
    {
        let Reading::Taken(n) = reading else {
            return Searched {
                step: 12,
                compared: 0,
            };
        };
        self.search_taken(old, n)
    }
}

// The duty that a table asks for at its step.
#[tactic(auto, unfolding(crate::specs::Tables::asked_duty))]
pub fn asked_duty(duties: &[u16; 13], step: u8, reading: Reading) -> u16
    ensures { result ≡ asked_duty duties.now step reading }
{
    let Reading::Taken(_) = reading else {
        return FULL;
    };
    state::at(duties, step, 0)
}

// Boost and hysteresis are in degrees, n in sixteenths.
#[tactic(auto, unfolding(crate::specs::Boosts::is_latched))]
fn is_latched(boost: i8, hysteresis: u8, n: i16, was: bool) -> bool
    ensures { result ≡ is_latched boost hysteresis n was }
{
    let on = i16::from(boost) * DEGREE;
    let off = on - i16::from(hysteresis) * DEGREE;
    on <= n || off <= n && was
}

// Whether a zone's boost is on.
#[tactic(auto, unfolding(crate::specs::Boosts::is_boosted))]
pub fn is_boosted(
    enabled: bool,
    boost: Option<i8>,
    hysteresis: u8,
    reading: Reading,
    was: bool,
) -> bool
    ensures { result ≡ is_boosted enabled boost hysteresis reading was }
{
    let Some(degrees) = boost else {
        return false;
    };
    let Reading::Taken(n) = reading else {
        return enabled;
    };
    enabled && is_latched(degrees, hysteresis, n, was)
}

// The delay of a hot input's ramp, by BFh.
#[tactic(auto, unfolding(crate::specs::Ramps::delay_of))]
pub fn delay_of(control: u8, input: u8) -> u8
    ensures { result ≡ delay_of control input }
{
    if input < 2 {
        control % 16
    } else {
        control / 16
    }
}

// A ramp's level, moved one step, within 0 to 256.
#[tactic(auto, unfolding(crate::specs::Ramps::moved_level))]
fn moved_level(level: u16, hot: bool) -> u16
    ensures { result ≡ moved_level level hot }
{
    let moved = if hot {
        level.saturating_add(RAMP_STEP)
    } else {
        level.saturating_sub(RAMP_STEP)
    };
    moved.min(FULL)
}

// A ramp after a tick.
#[tactic(auto, unfolding(crate::specs::Ramps::ramped_on))]
pub fn ramped_on(ramp: Ramp, hot: bool, delay: u8) -> Ramp
    ensures { result ≡ ramped_on ramp hot delay }
{
    if delay == 0 {
        return Ramp {
            level: if hot { FULL } else { 0 },
            wait: 0,
        };
    }
    if ramp.wait < delay - 1 {
        return Ramp {
            wait: ramp.wait + 1,
            ..ramp
        };
    }
    Ramp {
        level: moved_level(ramp.level, hot),
        wait: 0,
    }
}

// The largest of the four values that are bound, or 0.
#[tactic(auto, using(laws::specs::Shift::one_shl), unfolding(crate::specs::Duties::bound_largest))]
fn bound_largest(bound: u8, values: [u16; 4]) -> u16
    ensures { result ≡ bound_largest bound values 4 }
{
    let mut largest: u16 = 0;
    for (i, value) in values.iter().enumerate() {
        if map::is_set(bound, 1u8 << i) {
            largest = largest.max(*value);
        }
    }
    largest
}

// A fan's duty. An override stands in place of the tables.
#[tactic(auto, unfolding(crate::specs::Duties::fan_duty, crate::specs::Duties::tables_ask))]
pub fn fan_duty(
    binding: u8,
    manual: Option<u16>,
    asks: [u16; 4],
    levels: [u16; 4],
    boosted: bool,
) -> u16
    ensures { result ≡ fan_duty binding manual asks levels boosted }
{
    let tables = manual.unwrap_or_else(|| bound_largest(binding % 16, asks));
    let ramps = bound_largest(binding / 16, levels);
    let boost = if boosted { FULL } else { 0 };
    tables.max(ramps).max(boost)
}

// A fan's output and start count, from its duty before and now. The start count is loaded where the duty goes from 0 to more.
#[tactic(auto, unfolding(crate::specs::Duties::kicked_fan, crate::specs::Duties::loaded_start))]
pub fn kicked_fan(was: u16, duty: u16, start: u8, start_duty: u16, start_count: u8) -> Kick
    ensures { result ≡ kicked_fan was duty start start_duty start_count }
{
    let loaded = if was == 0 && 0 < duty {
        start_count
    } else {
        start
    };
    if loaded == 0 {
        return Kick {
            output: duty,
            start: 0,
        };
    }
    Kick {
        output: duty.max(start_duty),
        start: loaded - 1,
    }
}

// ---- one tick

// The levels of the ramps.
#[tactic(auto, unfolding(crate::specs::Tick::levels_of))]
fn levels_of(ramps: [Ramp; 4]) -> [u16; 4]
    ensures { result ≡ levels_of ramps }
{
    ramps.map(|ramp| ramp.level)
}

// What a tick looks at: the setup, the registers, the zones' readings, the hot inputs and what the last tick left.
#[derive(Clone, Copy)]
struct Before<'a> {
    setup: &'a Setup,
    file: &'a [u8; 256],
    zones: &'a [Reading; 6],
    hot: &'a [bool; 4],
    old: &'a Drive,
}

// Tables, zones, hot inputs and fans count from 0.
impl Before<'_> {
    // The byte that a register holds.
    #[tactic(auto, unfolding(state::specs::Parts::register_at))]
    fn register(&self, address: u8) -> u8
        ensures { result ≡ register_at (seen self.now) address }
    {
        self.file[address as usize]
    }

    // How many sixteenths a count of an offset or hysteresis is, by a bit of BDh.
    #[tactic(auto, unfolding(crate::specs::Tables::unit_of))]
    fn unit_by(&self, bit: u8) -> u8
        ensures { result ≡ unit_by (seen self.now) bit }
    {
        if map::is_set(self.register(registers::SPECIAL_FUNCTION_CONTROL_2), bit) {
            HALF as u8
        } else {
            DEGREE as u8
        }
    }

    // A table's setup. Tables 1 and 2 share offsets and hysteresis, 3 and 4 share theirs; each is lent its offsets.
    #[tactic(auto, unfolding(crate::specs::Tables::table_of))]
    fn table(&self, table: usize) -> Table<'_>
        requires { table < 4 }
        ensures { lent result ≡ table_of self.now.setup.now (register_at (seen self.now) SPECIAL_FUNCTION_CONTROL_2) table }
    {
        let (bit, pair, offsets) = if table < 2 {
            (bits::LT12_RS, 0, &self.setup.offsets12)
        } else {
            (bits::LT34_RS, 1, &self.setup.offsets34)
        };
        Table {
            base: self.setup.bases[table],
            unit: self.unit_by(bit),
            hysteresis: self.setup.hystereses[pair],
            offsets,
        }
    }

    // The reading that a table follows.
    #[tactic(auto, unfolding(crate::specs::Tick::followed))]
    fn followed(&self, table: u8) -> Reading
        ensures { result ≡ followed (seen self.now) table }
    {
        let source = self.register(registers::TEMPERATURE_SOURCE_SELECT);
        let bindings = self.register(registers::FAN_CONTROL_BINDINGS);
        followed_zone(self.zones, source, bindings, table)
    }

    // A table's step, and the duty that it asks for.
    #[tactic(auto, unfolding(crate::specs::Tick::ask_after, crate::specs::Tick::step_after, crate::specs::Search::searched))]
    fn ask_after(&self, table: usize) -> Ask
        requires { table < 4 }
        ensures { result ≡ ask_after (seen self.now) table }
    {
        let reading = self.followed(table as u8);
        let found = self.table(table).new_step(self.old.steps[table], reading);
        Ask {
            step: found.step,
            duty: asked_duty(&self.setup.duties, found.step, reading),
        }
    }

    // The tables' steps, and what each asks for.
    #[tactic(auto, unfolding(crate::specs::Tick::steps_after, crate::specs::Tick::asks_after))]
    fn asks_after(&self) -> ([u8; 4], [u16; 4])
        ensures steps { result.0 ≡ steps_after (seen self.now) }
        ensures asks { result.1 ≡ asks_after (seen self.now) }
    {
        let asks: [Ask; 4] = array::from_fn(|table| self.ask_after(table));
        (asks.map(|ask| ask.step), asks.map(|ask| ask.duty))
    }

    #[tactic(auto, unfolding(crate::specs::Tick::boosts_after, crate::specs::Tick::boost_after, state::specs::Parts::zone_at))]
    fn boosts_after(&self) -> [bool; 6]
        ensures { result ≡ boosts_after (seen self.now) }
    {
        let source = self.register(registers::TEMPERATURE_SOURCE_SELECT);
        array::from_fn(|zone| {
            is_boosted(
                state::zone_enabled(source, zone as u8),
                self.setup.boosts[zone],
                self.setup.boost_hysteresis,
                self.zones[zone],
                self.old.boosts[zone],
            )
        })
    }

    #[tactic(auto, unfolding(crate::specs::Tick::ramps_after, crate::specs::Tick::ramp_after, state::specs::Parts::hot_at))]
    fn ramps_after(&self) -> [Ramp; 4]
        ensures { result ≡ ramps_after (seen self.now) }
    {
        let control = self.register(registers::PWM_RAMP_CONTROL);
        array::from_fn(|input| {
            ramped_on(
                self.old.ramps[input],
                self.hot[input],
                delay_of(control, input as u8),
            )
        })
    }

    // The fans' duties before the kick.
    #[tactic(auto, unfolding(crate::specs::Tick::duty_after))]
    fn duties_after(&self, asks: [u16; 4], levels: [u16; 4], boosted: bool) -> [u16; 2]
        ensures { result ≡ duty_after self.now.setup.now 0 asks levels boosted ∷ duty_after self.now.setup.now 1 asks levels boosted ∷ [] }
    {
        array::from_fn(|fan| {
            fan_duty(
                self.setup.bindings[fan],
                self.setup.overrides[fan],
                asks,
                levels,
                boosted,
            )
        })
    }

    // The fans' outputs and start counts.
    #[tactic(auto, unfolding(crate::specs::Tick::kick_after))]
    fn kicks_after(&self, duties: [u16; 2]) -> [Kick; 2]
        ensures { result ≡ kick_after (seen self.now) 0 (slice_index duties 0) ∷ kick_after (seen self.now) 1 (slice_index duties 1) ∷ [] }
    {
        array::from_fn(|fan| {
            kicked_fan(
                self.old.duties[fan],
                duties[fan],
                self.old.starts[fan],
                self.setup.start_duties[fan],
                self.setup.start_counts[fan],
            )
        })
    }

    // Tables, boosts, ramps, duties and kick, in this order.
    fn driven(&self) -> Driven
        ensures { result ≡ driven (seen self.now) }
    {
        let (steps, asks) = self.asks_after();
        let boosts = self.boosts_after();
        let ramps = self.ramps_after();
        let boosted = boosts.iter().any(|on| *on);
        let duties = self.duties_after(asks, levels_of(ramps), boosted);
        let [first, second] = self.kicks_after(duties);
        Driven {
            drive: Drive {
                steps,
                boosts,
                ramps,
                duties,
                starts: [first.start, second.start],
            },
            outputs: [first.output, second.output],
        }
    }
}

// One tick of 50 ms.
// Stays: five parts, as a chip holds them, so that whoever has the parts can ask.
pub fn tick(
    setup: &Setup,
    file: &[u8; 256],
    zones: &[Reading; 6],
    hot: &[bool; 4],
    old: &Drive,
) -> Driven
    ensures { result ≡ driven (of_drive setup.now file.now zones.now hot.now old.now) }
{
    Before {
        setup,
        file,
        zones,
        hot,
        old,
    }
    .driven()
}
