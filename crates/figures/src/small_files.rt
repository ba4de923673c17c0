// Files of one and two pages, n0, N and s all 1: what put, grow and shrink answer, and the keys that the
// pages then hold.
ghost use Rattle.std.specs.Prelude.{◌≡◌, ◌≤◌, length};

use homes::Params;
use pages::Record;
use state::{Answer, Done, Numbers, State};
use std::io;
use std::io::Write;

// The keys below a number put one after the other, each with ten times itself as its value.
fn put_below(mut state: State, area: &mut [u8], end: u64) -> State
    requires { end ≤ 13 }
{
    for key in 0..end {
        let value = 10 * key;
        state = register::put(state, area, Record { key, value, run: 0 }).state;
    }
    state
}

// A new file with the keys below a number.
fn file_of(area: &mut [u8], cap: u16, end: u64) -> State
    requires { end ≤ 13 }
{
    let zeros = Params {
        n0: 0,
        n: 0,
        s: 0,
        edition: 0,
    };
    let none = State::new(zeros, 0);
    let ones = Params {
        n0: 1,
        n: 1,
        s: 1,
        edition: 1,
    };
    let done = register::format(none, ones, cap, area);
    put_below(done.state, area, end)
}

fn print_answer<W: Write>(out: &mut W, words: &str, done: Done<Answer>) -> io::Result<()> {
    let Numbers {
        refusal,
        value,
        moved,
        ..
    } = done.answer.into();
    writeln!(
        out,
        "{words}: refusal {refusal}, value {value}, moved {moved}"
    )
}

// The keys of the slots that a page counts.
fn print_keys<W: Write>(out: &mut W, page: &[u8]) -> io::Result<()>
    requires { length page.now ≡ 256 }
{
    let count = numbers::get::<u16>(page, 8) as usize;
    write!(out, "[")?;
    for (i, slot) in page[16..].chunks_exact(20).take(count).enumerate() {
        let comma = if i == 0 { "" } else { ", " };
        let key = numbers::get::<u64>(slot, 4);
        write!(out, "{comma}{key}")?;
    }
    writeln!(out, "]")
}

// The keys of each page, a line each, with the page's number between the words.
fn print_pages<W: Write>(out: &mut W, before: &str, after: &str, area: &[u8]) -> io::Result<()> {
    for (a, page) in area.chunks_exact(256).enumerate() {
        write!(out, "{before}{a}{after}")?;
        print_keys(out, page)?;
    }
    Ok(())
}

fn print_put_12<W: Write>(out: &mut W, state: State, area: &mut [u8]) -> io::Result<()> {
    let new = Record {
        key: 12,
        value: 120,
        run: 0,
    };
    let put = register::put(state, area, new);
    print_answer(out, "  then put of key 12", put)
}

// One page less, and no page to give up then.
fn print_shrunk<W: Write>(out: &mut W, state: State, area: &mut [u8]) -> io::Result<()>
    requires { length area.old ≡ 512 }
{
    let shrunk = register::shrink(state, area);
    print_answer(out, "  then shrink", shrunk)?;
    print_pages(out, "  page ", " then holds ", &area[..])?;
    let again = register::shrink(shrunk.state, area);
    print_answer(out, "  then shrink", again)
}

fn print_grown<W: Write>(out: &mut W, area: &mut [u8], row: &mut [u32]) -> io::Result<()>
    requires { length area.old ≡ 512 }
{
    let state = file_of(area, 2, 12);
    let grown = register::grow(state, area, row);
    print_answer(out, "cap 2, keys 0 to 11, grow", grown)?;
    print_pages(out, "  page ", " then holds ", &area[..])?;
    print_put_12(out, grown.state, area)?;
    print_shrunk(out, grown.state, area)
}

fn print_spilt<W: Write>(out: &mut W, area: &mut [u8], row: &mut [u32]) -> io::Result<()>
    requires { length area.old ≡ 512 }
{
    let state = file_of(area, 2, 13);
    print_pages(out, "cap 2, keys 0 to 12, page ", " holds ", &area[..])?;
    let grown = register::grow(state, area, row);
    print_answer(out, "  then grow", grown)
}

// The held key is put again, with its value and with another.
fn print_held<W: Write>(out: &mut W, state: State, area: &mut [u8]) -> io::Result<()> {
    let again = Record {
        key: 5,
        value: 50,
        run: 0,
    };
    let held = register::put(state, area, again);
    print_answer(out, "cap 1, held key 5 (value 50) put again", held)?;
    let other = Record {
        key: 5,
        value: 1,
        run: 0,
    };
    let clash = register::put(held.state, area, other);
    print_answer(out, "cap 1, held key 5 (value 50) put with value 1", clash)
}

fn print_full<W: Write>(out: &mut W, area: &mut [u8]) -> io::Result<()> {
    let state = file_of(area, 1, 12);
    let new = Record {
        key: 12,
        value: 120,
        run: 0,
    };
    let thirteenth = register::put(state, area, new);
    print_answer(out, "cap 1, thirteenth key", thirteenth)?;
    print_held(out, thirteenth.state, area)
}

// Each file in an area that held other bytes before.
pub(crate) fn print_all<W: Write>(out: &mut W) -> io::Result<()> {
    let mut area = [255u8; 512];
    let mut row = [0u32; 2];
    print_grown(out, &mut area[..], &mut row[..])?;
    print_spilt(out, &mut area[..], &mut row[..])?;
    let mut page = [255u8; 256];
    print_full(out, &mut page[..])
}
