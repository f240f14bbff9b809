// What a line asks for: its word, then the count of its fields and their kinds.
#![tactic(auto)]

ghost use Rattle.std.specs.Prelude.{◌≡◌};
ghost use Rattle.text.specs.Fields.{fields};
ghost use Rattle.reading.specs.Reading.{number_at, source_at, room_at, three_of, start_line, arrive_line, sourced_of, evict_line, run_line, close_line, drain_line, lone_line, read_line};

use crate::words::{Word, read_source, read_word};
use rules::Call;
use stamps::{Message, Source};
use text::fields::{count, field};
use text::numbers::read_number;

pub mod words;

// The bytes of the longest line that is read.
const LONGEST: usize = 80;

// The bytes of a line that are kept: with one more than the longest has, it reads as bad.
pub const BUFFER: usize = LONGEST + 1;

// "Numbers are 1 to 4 decimal digits."
const DIGITS: usize = 4;

// The most pairs or rows that a line may name as room; the output has room for so many pairs.
pub const ROOM: u32 = 512;

// An opening with P, M and N; a call; a drain, or a source whose rows without partner are listed, with the room that is named.
#[derive(Clone, Copy)]
pub enum Line {
    Start(u32, u32, u32),
    Ask(Call),
    Drain(u32),
    Lone(Source, u32),
}

fn number_at(line: &[u8], k: usize) -> Option<u32>
    ensures { result ≡ number_at (fields line.now) k }
{
    read_number(field(line, k), DIGITS)
}

fn source_at(line: &[u8], k: usize) -> Option<Source>
    ensures { result ≡ source_at (fields line.now) k }
{
    read_source(field(line, k))
}

// A number that may be named as room.
fn room_at(line: &[u8], k: usize) -> Option<u32>
    ensures { result ≡ room_at (fields line.now) k }
{
    number_at(line, k).filter(|room| *room <= ROOM)
}

// The three numbers after a word: P, M and N, or a heat, a car and a lap.
#[tactic(auto, unfolding(crate::specs::Reading::three_of))]
fn read_three(line: &[u8]) -> Option<(u32, u32, u32)>
    ensures { result ≡ three_of (fields line.now) }
{
    if count(line) != 4 {
        return None;
    }
    Some((
        number_at(line, 1)?,
        number_at(line, 2)?,
        number_at(line, 3)?,
    ))
}

fn start_line(line: &[u8]) -> Option<Line>
    ensures { result ≡ start_line (fields line.now) }
{
    let (parts, slots, limit) = read_three(line)?;
    Some(Line::Start(parts, slots, limit))
}

fn arrive_line(source: Source, line: &[u8]) -> Option<Line>
    ensures { result ≡ arrive_line source (fields line.now) }
{
    let (heat, car, lap) = read_three(line)?;
    Some(Line::Ask(Call::Arrive(source, Message { heat, car, lap })))
}

// A source, and the number of a partition of it.
#[tactic(auto, unfolding(crate::specs::Reading::sourced_of))]
fn read_sourced(line: &[u8]) -> Option<(Source, u32)>
    ensures { result ≡ sourced_of (fields line.now) }
{
    if count(line) != 3 {
        return None;
    }
    source_at(line, 1).zip(number_at(line, 2))
}

// A portion to evict. `run_line` differs in the call alone, but a function for both that took a closure to make the call would need
// a clause on what the closure makes, and would be longer than the two.
fn evict_line(line: &[u8]) -> Option<Line>
    ensures { result ≡ evict_line (fields line.now) }
{
    read_sourced(line).map(|(source, part)| Line::Ask(Call::Evict(source, part)))
}

// A portion to run.
fn run_line(line: &[u8]) -> Option<Line>
    ensures { result ≡ run_line (fields line.now) }
{
    read_sourced(line).map(|(source, part)| Line::Ask(Call::Run(source, part)))
}

#[tactic(auto, unfolding(crate::specs::Reading::close_line))]
fn close_line(line: &[u8]) -> Option<Line>
    ensures { result ≡ close_line (fields line.now) }
{
    if count(line) != 2 {
        return None;
    }
    source_at(line, 1).map(|source| Line::Ask(Call::Close(source)))
}

#[tactic(auto, unfolding(crate::specs::Reading::drain_line))]
fn drain_line(line: &[u8]) -> Option<Line>
    ensures { result ≡ drain_line (fields line.now) }
{
    if count(line) != 2 {
        return None;
    }
    room_at(line, 1).map(Line::Drain)
}

#[tactic(auto, unfolding(crate::specs::Reading::lone_line))]
fn lone_line(line: &[u8]) -> Option<Line>
    ensures { result ≡ lone_line (fields line.now) }
{
    if count(line) != 3 {
        return None;
    }
    Some(Line::Lone(source_at(line, 1)?, room_at(line, 2)?))
}

#[tactic(auto, unfolding(crate::specs::Reading::read_line))]
pub fn read_line(line: &[u8]) -> Option<Line>
    ensures { result ≡ read_line line.now }
{
    if LONGEST < line.len() {
        return None;
    }
    match read_word(field(line, 0))? {
        Word::Start => start_line(line),
        Word::Arrive(source) => arrive_line(source, line),
        Word::Evict => evict_line(line),
        Word::Run => run_line(line),
        Word::Close => close_line(line),
        Word::Drain => drain_line(line),
        Word::Lone => lone_line(line),
    }
}
