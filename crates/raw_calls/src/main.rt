// Single calls on any bytes: each record brings its own state and byte strings, and the reply gives
// them back as the call left them.
#![tactic(auto)]

mod raw_records;

ghost use Rattle.std.specs.Prelude.{◌≡◌, ◌+◌, ◌*◌, ◌≤◌, length};
ghost use Rattle.raw_calls.specs.Records.{Lying};

use comparisons::ComparedNumbers;
use homes::Params;
use merges::MergedNumbers;
use pages::Record;
use raw_records::{Answered, Asked, Call};
use state::{Answer, Done, Numbers, State};
use std::convert::TryFrom;
use std::io::{Read, Write};

// A format whose four numbers stand in one, the first lowest, and its edition in another. A number
// that is too large for an edition is none, and so is 0.
fn format(state: State, area: &mut [u8], a: u64, b: u64) -> Done<Answer> {
    let n0 = (a % 65536) as u16;
    let n = (a / 65536 % 65536) as u16;
    let s = (a / 4294967296 % 65536) as u16;
    let cap = (a / 281474976710656) as u16;
    let edition = u16::try_from(b).unwrap_or(0);
    let params = Params { n0, n, s, edition };
    register::format(state, params, cap, area)
}

// Whether growth is due is told with every reply: asked for alone, it is an accepted call that does
// nothing.
fn due(state: State) -> Done<Numbers> {
    Done {
        state,
        answer: Numbers::default(),
    }
}

// An answer about two files, with the first one's state after the call.
fn of_two(state: State, answer: Numbers, file: u16, taken: u32) -> Answered {
    Answered {
        told: Done { state, answer },
        file,
        taken,
    }
}

fn compare(state: State, area: &[u8], there: State, other: &[u8], room: &mut [u8]) -> Answered {
    let n: ComparedNumbers = comparisons::compare(state, area, there, other, room).into();
    of_two(state, n.numbers, n.file, n.taken)
}

fn merge(state: State, area: &mut [u8], there: State, other: &[u8], row: &mut [u32]) -> Answered {
    let done = merges::merge(state, area, there, other, row);
    let n: MergedNumbers = done.answer.into();
    of_two(done.state, n.numbers, n.file, 0)
}

// The call that a record asks for: none where it is on two files and the second has no state.
fn call(
    asked: Asked,
    area: &mut [u8],
    second: &[u8],
    row: &mut [u32],
    room: &mut [u8],
) -> Option<Answered> {
    let state = asked.state;
    let key = asked.a;
    let told = match asked.call {
        Call::Due => due(state),
        Call::Format => records::tell(format(state, area, asked.a, asked.b)),
        Call::Put => {
            let value = asked.b;
            records::tell(register::put(state, area, Record { key, value, run: 0 }))
        }
        Call::Find => records::tell(register::find(state, &area[..], key)),
        Call::Remove => records::tell(register::remove(state, area, key)),
        Call::Grow => records::tell(register::grow(state, area, row)),
        Call::Check => records::tell(register::check(state, &area[..])),
        Call::Shrink => records::tell(register::shrink(state, area)),
        Call::PutRun => pay_runs::put_run(state, area, second, room),
        Call::Compare => {
            let (there, other) = raw_records::second_file(second)?;
            return Some(compare(state, &area[..], there, other, room));
        }
        Call::Merge => {
            let (there, other) = raw_records::second_file(second)?;
            return Some(merge(state, area, there, other, row));
        }
    };
    Some(Answered::from(told))
}

// The call of a record on its strings where they lie, which are lent side by side. A row is lent as
// numbers, and its bytes are written anew from them.
fn call_on(asked: Asked, record: &mut [u8], row: &mut [u32]) -> Option<Answered>
    requires { Lying asked × (asked.room ≡ length record.old) × (asked.second + 4 + 4 * length row.old ≤ asked.row) }
    ensures { length record.new ≡ length record.old }
{
    let (front, back) = record.split_at_mut(asked.second + 4);
    let (area, second) = front[50..].split_at_mut(asked.area - 50);
    let (counts, room) = back.split_at_mut(asked.row - asked.second - 4);
    raw_records::read_row(&counts[..], row);
    let second = &second[4..asked.second - asked.area];
    let answered = call(asked, area, second, row, &mut room[4..])?;
    raw_records::write_row(counts, row);
    Some(answered)
}

// A record answered: its numbers, then area, row and room as they lie in the record, with their lengths.
fn answer<W: Write>(to: &mut W, record: &mut [u8], row: &mut [u32]) -> Option<()>
    requires { (46 ≤ length record.old) × (length record.old ≤ 65662) × (length row.old ≡ 4100) }
{
    let asked = Asked::read(&record[..])?;
    let counts = (asked.row - asked.second) / 4 - 1;
    let answered = call_on(asked, record, &mut row[..counts])?;
    let end = 8 + asked.area + (record.len() - asked.second);
    let head = raw_records::reply_head(answered, end as u32);
    to.write_all(&head[..]).ok()?;
    to.write_all(&record[46..asked.area]).ok()?;
    to.write_all(&record[asked.second..]).ok()
}

// The next record answered, or none: input that is no whole record ends the run, and so does a reply
// that can't be written.
fn answer_next<R: Read, W: Write>(
    from: &mut R,
    to: &mut W,
    bytes: &mut [u8],
    row: &mut [u32],
) -> Option<()>
    requires { (length bytes.old ≡ 65662) × (length row.old ≡ 4100) }
{
    from.read_exact(&mut bytes[..4]).ok()?;
    let end = numbers::get::<u32>(&bytes[..], 0) as usize;
    if end < 46 || bytes.len() < end {
        return None;
    }
    from.read_exact(&mut bytes[4..end]).ok()?;
    answer(to, &mut bytes[..end], row)
}

// A proved loop has to end, and nothing says that an input does: it has more turns than any run uses
// up. The longest record has its numbers, and four strings of the greatest length.
fn main(rt: HostRuntime) {
    let mut from = rt.stdin();
    let mut to = rt.stdout();
    // Fixed memory, by a rule of the project: a Vec here would be one more thing that can run out.
    let mut bytes = [0u8; 65662];
    let mut row = [0u32; 4100];
    for _ in 0..u64::MAX {
        if answer_next(&mut from, &mut to, &mut bytes[..], &mut row[..]).is_none() {
            return;
        }
    }
}
