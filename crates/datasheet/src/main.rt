// Prints the register map and the data sheet's tables that documents 01 and 02 use, as the libraries have them. What it must print is in the
// file stdout, which is worked out from the data sheet (docs/DATASHEET.md).
#![tactic(auto)]

use std::io;
use temperature::{HALF, Reading};

// A tick, which is what a ramp's delay counts.
const TICK_MS: u64 = 50;

// The data sheet's temperatures, as counts of half degrees.
const WHOLE: [i16; 8] = [250, 50, 2, 0, -2, -50, -110, -254];

const HALVES: [i16; 8] = [251, 51, 1, 0, -1, -51, -111, -255];

fn registers(rt: &impl Print) -> io::Result<()> {
    println!(rt; "registers")?;
    for address in 0..=u8::MAX {
        let default = map::default_of(address);
        let writable = map::writable_of(address);
        let mark = if map::lock_marked(address) { 'x' } else { '-' };
        let home = map::home_of(address);
        println!(rt; "{address:02X}\t{default:02X}\t{writable:02X}\t{mark}\t{home:02X}")?;
    }
    Ok(())
}

// Every command is asked for, and those that name a block are printed.
fn fixed_blocks(rt: &impl Print) -> io::Result<()> {
    println!(rt; "fixed blocks")?;
    for command in 0..=u8::MAX {
        if let Some(block) = map::block_of(command) {
            println!(rt; "{command:02X}\t{:02X}\t{}", block.first, block.count)?;
        }
    }
    Ok(())
}

fn slave_addresses(rt: &impl Print) -> io::Result<()> {
    println!(rt; "slave addresses")?;
    for level in 0..3 {
        let slave = map::slave_address(level);
        println!(rt; "{level:X}\t{slave:02X}")?;
    }
    Ok(())
}

fn ramp_delays(rt: &impl Print) -> io::Result<()> {
    println!(rt; "ramp delays")?;
    for n in 0..16 {
        let delay = n * TICK_MS;
        println!(rt; "{n:X}\t{delay}")?;
    }
    Ok(())
}

fn temperatures(rt: &impl Print) -> io::Result<()> {
    println!(rt; "whole degrees")?;
    for h in WHOLE {
        let whole = temperature::whole_byte(Reading::Taken(h * HALF));
        println!(rt; "{h}\t{whole:02X}")?;
    }
    println!(rt; "half degrees")?;
    for h in HALVES {
        let reading = Reading::Taken(h * HALF);
        let whole = temperature::whole_byte(reading);
        let half = if temperature::half_set(reading) {
            "80"
        } else {
            "00"
        };
        println!(rt; "{h}\t{whole:02X}\t{half}")?;
    }
    Ok(())
}

fn main(rt: HostRuntime) -> io::Result<()> {
    registers(&rt)?;
    fixed_blocks(&rt)?;
    slave_addresses(&rt)?;
    ramp_delays(&rt)?;
    temperatures(&rt)
}
