// Runs the step search (document 02, Q-11) on cases, one a line: old step, reading in sixteenths and hysteresis, on the table that a line
// before it gave.
// It prints the case, the new step and how many thresholds the search compared. A line that begins with # is a title, and printed.
#![tactic(auto)]

ghost use Rattle.std.specs.Prelude.{◌<◌, ◌≤◌, IfOk, length};

use state::Refusal;
use std::io;
use std::io::Read;
use temperature::{DEGREE, Reading};
use text::Number;

const INPUT_MOST: usize = 32768;

// One byte more tells that there is more.
const INPUT: usize = INPUT_MOST + 1;

// The fields of a table's line: base, how many sixteenths a count is, and the offsets.
const TABLE_FIELDS: usize = 14;

// The fields of a case.
const CASE_FIELDS: usize = 3;

#[derive(Drop)]
struct Table {
    base: i8,
    unit: u8,
    offsets: [u8; 12],
}

#[derive(Drop)]
struct Case {
    old: u8,
    reading: Reading,
    hysteresis: u8,
}

// What a line says.
#[derive(Drop)]
enum Said {
    Table(Table),
    Case(Case),
}

// ---- numbers

// The numbers of a line, all of which have to be spelled right.
fn numbers<const N: usize>(line: &[u8]) -> Result<[Number; N], Refusal> {
    let mut numbers = [Number::Dash; N];
    for (k, number) in numbers.iter_mut().enumerate() {
        *number = text::decimal(text::field(line, k)).ok_or(Refusal::Spelling)?;
    }
    Ok(numbers)
}

fn byte(number: Number) -> Result<u8, Refusal> {
    match number {
        Number::Plus(v) => u8::try_from(v).map_err(|_| Refusal::Event),
        Number::Dash | Number::Minus(_) => Err(Refusal::Event),
    }
}

// A number from -most to most.
fn signed(number: Number, most: u16) -> Result<i16, Refusal>
    requires { most < 32768 }
{
    match number {
        Number::Plus(v) if v <= most => Ok(v as i16),
        Number::Minus(v) if v <= most => Ok(-(v as i16)),
        _ => Err(Refusal::Event),
    }
}

fn degrees(number: Number) -> Result<i8, Refusal> {
    i8::try_from(signed(number, 127)?).map_err(|_| Refusal::Event)
}

fn reading(number: Number) -> Result<Reading, Refusal> {
    let Number::Dash = number else {
        return Ok(Reading::Taken(signed(number, 32767)?));
    };
    Ok(Reading::Missing)
}

// ---- lines

fn table_of(numbers: &[Number; TABLE_FIELDS]) -> Result<Table, Refusal> {
    let mut offsets = [0u8; 12];
    for (offset, number) in offsets.iter_mut().zip(&numbers[2..]) {
        *offset = byte(*number)?;
    }
    Ok(Table {
        base: degrees(numbers[0])?,
        unit: byte(numbers[1])?,
        offsets,
    })
}

fn case_of(numbers: &[Number; CASE_FIELDS]) -> Result<Case, Refusal> {
    let [old, n, hysteresis] = numbers;
    Ok(Case {
        old: byte(*old)?,
        reading: reading(*n)?,
        hysteresis: byte(*hysteresis)?,
    })
}

fn read_line(line: &[u8]) -> Result<Said, Refusal> {
    match text::count_fields(line) {
        TABLE_FIELDS => Ok(Said::Table(table_of(&numbers(line)?)?)),
        CASE_FIELDS => Ok(Said::Case(case_of(&numbers(line)?)?)),
        _ => Err(Refusal::Spelling),
    }
}

// Table 1 without a setup.
fn first_table() -> Table {
    let setup = state::default_setup();
    Table {
        base: setup.bases[0],
        unit: DEGREE as u8,
        offsets: setup.offsets12,
    }
}

fn print_case(rt: &impl Print, table: &Table, case: Case, line: &[u8]) -> io::Result<()> {
    let found = drive::Table {
        base: table.base,
        unit: table.unit,
        hysteresis: case.hysteresis,
        offsets: &table.offsets,
    }
    .new_step(case.old, case.reading);
    rt.write_all(line)?;
    println!(rt; "\t{}\t{}", found.step, found.compared)
}

// What a line prints, and the table behind it: of a line that is refused the one before it.
fn take(rt: &impl Print, table: Table, line: &[u8], number: u64) -> io::Result<Table> {
    if line.starts_with(b"#") {
        rt.write_all(line)?;
        rt.write_all(b"\n")?;
        return Ok(table);
    }
    match read_line(line) {
        Ok(Said::Table(next)) => return Ok(next),
        Ok(Said::Case(case)) => print_case(rt, &table, case, line)?,
        Err(refusal) => println!(rt; "E\t{number}\t{}", u8::from(refusal))?,
    }
    Ok(table)
}

// Stays: a loop of its own in each program, for what it hands on from line to line is another in each.
fn take_all(rt: &impl Print, input: &[u8]) -> io::Result<()> {
    let mut table = first_table();
    let mut number: u64 = 0;
    for piece in input.split_inclusive(|b| *b == b'\n') {
        number = number.saturating_add(1);
        table = take(
            rt,
            table,
            piece.strip_suffix(b"\n").unwrap_or(piece),
            number,
        )?;
    }
    Ok(())
}

// Stays: reading is as in `sessions` and `inplace`; a crate for these lines would be longer than they are.
// Reads until the input is full or at its end, and answers how many bytes it has.
fn read_full(reader: &mut impl Read, input: &mut [u8]) -> io::Result<usize>
    ensures { IfOk result (λ n. n ≤ length input.new) }
{
    let mut done = 0;
    for _ in 0..input.len() {
        let got = reader.read(&mut input[done..])?;
        if got == 0 {
            break;
        }
        done += got;
    }
    Ok(done)
}

fn main(rt: HostRuntime) -> io::Result<()> {
    let mut input = [0u8; INPUT];
    let n = read_full(&mut rt.stdin(), &mut input)?;
    if n <= INPUT_MOST {
        take_all(&rt, &input[..n])
    } else {
        rt.eprintln("searches: more than 32768 bytes on standard input")
    }
}
