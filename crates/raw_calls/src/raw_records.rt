// The records of raw calls: 46 bytes of numbers, then four byte strings, each with its length in
// front: area, second, row and room. A reply has 54 bytes of numbers before area, row and room.
ghost use Rattle.std.specs.Prelude.{◌≡◌, ◌+◌, ◌*◌, ◌≤◌, length, IfSome};
ghost use Rattle.raw_calls.specs.Records.{Lying};

use layouts::{InUse, Layout};
use state::{Done, Numbers, State};
use std::convert::TryFrom;

// The most bytes of a string.
const LONGEST: usize = 16400;

// What a record can ask for.
#[derive(Clone, Copy)]
pub enum Call {
    Due,
    Format,
    Put,
    Find,
    Remove,
    Grow,
    Check,
    Shrink,
    PutRun,
    Compare,
    Merge,
}

// A number that is no call's kind.
#[derive(Clone, Copy)]
pub struct NoCall;

impl TryFrom<u16> for Call {
    type Error = NoCall;

    fn try_from(kind: u16) -> Result<Self, NoCall> {
        match kind {
            256 => Ok(Self::Due),
            257 => Ok(Self::Format),
            258 => Ok(Self::Put),
            259 => Ok(Self::Find),
            260 => Ok(Self::Remove),
            261 => Ok(Self::Grow),
            262 => Ok(Self::Check),
            263 => Ok(Self::Shrink),
            264 => Ok(Self::PutRun),
            265 => Ok(Self::Compare),
            266 => Ok(Self::Merge),
            _ => Err(NoCall),
        }
    }
}

// A call with the state and two numbers, and where area, second, row and room end in its record.
#[derive(Clone, Copy)]
pub struct Asked {
    pub call: Call,
    pub state: State,
    pub a: u64,
    pub b: u64,
    pub area: usize,
    pub second: usize,
    pub row: usize,
    pub room: usize,
}

impl Asked {
    // What a record asks: none where the kind is no call's, a string is too long, the row is no whole
    // counts, or the record doesn't end where the strings do.
    pub(crate) fn read(record: &[u8]) -> Option<Self>
        requires { (46 ≤ length record.now) × (length record.now ≤ 65662) }
        ensures { IfSome result (λ asked. Lying asked × (asked.room ≡ length record.now)) }
    {
        let area = end_of(record, 46)?;
        let second = end_of(record, area)?;
        let row = end_of(record, second)?;
        let room = end_of(record, row)?;
        if (row - second) % 4 != 0 || room != record.len() {
            return None;
        }
        let call = Call::try_from(numbers::get::<u16>(record, 4)).ok()?;
        Some(Self {
            call,
            state: slips::get_state(record, 6),
            a: numbers::get::<u64>(record, 22),
            b: numbers::get::<u64>(record, 30),
            area,
            second,
            row,
            room,
        })
    }
}

// Where the string ends whose length stands at an offset: none where there is no length, one too long,
// or too few bytes behind it.
fn end_of(record: &[u8], at: usize) -> Option<usize>
    requires { (length record.now ≤ 65662) × (at ≤ length record.now) }
    ensures { IfSome result (λ end. (at + 4 ≤ end) × (end ≤ at + 16404) × (end ≤ length record.now)) }
{
    let (length, rest) = record[at..].split_at_checked(4)?;
    let length = numbers::get::<u32>(length, 0) as usize;
    if LONGEST < length || rest.len() < length {
        return None;
    }
    Some(at + 4 + length)
}

// The file that a second string is: a state, then an area.
pub(crate) fn second_file(second: &[u8]) -> Option<(State, &[u8])> {
    let (state, area) = second.split_at_checked(16)?;
    Some((slips::get_state(state, 0), area))
}

pub(crate) fn read_row(string: &[u8], row: &mut [u32])
    requires { 4 * length row.old ≤ length string.now }
    ensures { length row.new ≡ length row.old }
{
    for (count, bytes) in row.iter_mut().zip(string.chunks_exact(4)) {
        *count = numbers::get::<u32>(bytes, 0);
    }
}

pub(crate) fn write_row(string: &mut [u8], row: &[u32])
    requires { 4 * length row.now ≤ length string.old }
    ensures { length string.new ≡ length string.old }
{
    for (bytes, count) in string.chunks_exact_mut(4).zip(row) {
        numbers::put(bytes, 0, *count);
    }
}

// What is told of a call: its own numbers, the file of two that a refusal is about, and how many bytes
// of the room a comparison took.
#[derive(Clone, Copy)]
pub struct Answered {
    pub told: Done<Numbers>,
    pub file: u16,
    pub taken: u32,
}

// An answer about one file.
impl From<Done<Numbers>> for Answered {
    fn from(told: Done<Numbers>) -> Self {
        Self {
            told,
            file: 0,
            taken: 0,
        }
    }
}

// The numbers of a reply of that length.
pub(crate) fn reply_head(answered: Answered, end: u32) -> [u8; 54] {
    let state = answered.told.state;
    let mut head = [0; 54];
    numbers::put(&mut head[..], 0, end);
    numbers::put::<u16>(&mut head[..], 4, 513);
    slips::put_reply(&mut head[..], 6, answered.told.answer);
    numbers::put(&mut head[..], 30, answered.file);
    numbers::put(&mut head[..], 32, answered.taken);
    slips::put_state(&mut head[..], 36, state);
    numbers::put(&mut head[..], 52, u16::from(state.due(InUse::NUMBER)));
    head
}
