// Judges one good page of each layout, and the same page with one number of it changed, a case for
// each page rule. The pages are written here number by number, as the documents lay them out, and
// not by the code under test.
#![tactic(auto)]

ghost use Rattle.std.specs.Prelude.{◌≡◌, ◌+◌, ◌≤◌, length, IsSome};

use Number::{Long, Short};
use homes::{Params, Shape};
use layouts::{Layout, Ten, Twelve};
use std::io;
use std::io::Write;

// A number of a page: of two bytes, or of eight.
#[derive(Clone, Copy)]
enum Number {
    Short(u16),
    Long(u64),
}

// A slot. One of the layout of ten has a run, and is four bytes longer for it.
fn write_slot(slot: &mut [u8], kind: u16, key: u64, value: u64, run: Option<u32>)
    requires { (20 ≤ length slot.old) × (IsSome run → length slot.old ≡ 24) }
{
    numbers::put(slot, 2, kind);
    numbers::put(slot, 4, key);
    numbers::put(slot, 12, value);
    match run {
        None => numbers::put::<u16>(slot, 0, 20),
        Some(run) => {
            numbers::put::<u16>(slot, 0, 24);
            numbers::put(slot, 20, run);
        }
    }
}

fn write_head(page: &mut [u8], kind: u16)
    requires { length page.old ≡ 256 }
{
    numbers::put::<u16>(page, 0, 256);
    numbers::put(page, 2, kind);
    numbers::put::<u32>(page, 4, 5);
    numbers::put::<u16>(page, 8, 3);
    numbers::put::<u16>(page, 10, 0);
    numbers::put::<u32>(page, 12, 0);
}

// Page 5 of a file of eight pages, with keys 4, 5 and 13, whose homes are 4, 5 and 5. In the layout
// of ten their runs are 7, 0 and the highest there is.
fn good_page<L: Layout>() -> [u8; 256] {
    let has_run = L::HAS_RUN;
    let width = if has_run { 24 } else { 20 };
    let mut page = [0; 256];
    write_head(&mut page[..], if has_run { 0x0021 } else { 0x0011 });
    for (i, slot) in page[16..].chunks_exact_mut(width).enumerate() {
        let (kind, key, value, run) = match i {
            0 => (1, 4, 40, 7),
            1 => (1, 5, 50, 0),
            2 => (1, 13, 0, u32::MAX),
            3.. => (0, 0, 0, 0),
        };
        write_slot(
            slot,
            kind,
            key,
            value,
            if has_run { Some(run) } else { None },
        );
    }
    page
}

fn change(page: &mut [u8], at: usize, number: Number)
    requires { (at + 8 ≤ 256) × (length page.old ≡ 256) }
{
    match number {
        Short(x) => numbers::put::<u16>(page, at, x),
        Long(x) => numbers::put::<u64>(page, at, x),
    }
}

// The good page of a layout with a number changed, judged.
fn judge_changed<L: Layout, W: Write>(
    out: &mut W,
    name: &str,
    at: usize,
    number: Number,
) -> io::Result<()>
    requires { at + 8 ≤ 256 }
{
    let mut page = good_page::<L>();
    change(&mut page[..], at, number);
    let params = Params {
        n0: 1,
        n: 8,
        s: 1,
        edition: 1,
    };
    let shape = Shape::new(params, 8);
    let is_good = pages::judge::<L>(&page[..], 5, shape).is_some();
    writeln!(out, "{name}: {}", if is_good { "good" } else { "broken" })
}

fn head_cases<W: Write>(out: &mut W) -> io::Result<()> {
    judge_changed::<Twelve, _>(out, "nothing changed", 0, Short(256))?;
    judge_changed::<Twelve, _>(out, "head length 255", 0, Short(255))?;
    judge_changed::<Twelve, _>(out, "head kind 0x0012", 2, Short(18))?;
    judge_changed::<Twelve, _>(out, "address 6", 4, Short(6))?;
    judge_changed::<Twelve, _>(out, "address 5 + 65536", 6, Short(1))?;
    judge_changed::<Twelve, _>(out, "count 2, with three records", 8, Short(2))?;
    judge_changed::<Twelve, _>(out, "count 4, with three records", 8, Short(4))?;
    judge_changed::<Twelve, _>(out, "count 13", 8, Short(13))?;
    judge_changed::<Twelve, _>(out, "first of the six zero bytes 1", 10, Short(1))?;
    judge_changed::<Twelve, _>(out, "last of the six zero bytes 1", 14, Short(256))
}

fn slot_cases<W: Write>(out: &mut W) -> io::Result<()> {
    judge_changed::<Twelve, _>(out, "slot 0 with length 21", 16, Short(21))?;
    judge_changed::<Twelve, _>(out, "slot 11 with length 19", 236, Short(19))?;
    judge_changed::<Twelve, _>(out, "slot 0 with kind 2", 18, Short(2))?;
    judge_changed::<Twelve, _>(out, "slot 1 empty before a record", 38, Short(0))?;
    judge_changed::<Twelve, _>(out, "slot 3 a record that is not counted", 78, Short(1))?;
    judge_changed::<Twelve, _>(out, "an empty slot with a key", 80, Long(21))?;
    judge_changed::<Twelve, _>(out, "an empty slot with a value", 248, Long(1))?;
    judge_changed::<Twelve, _>(out, "another value", 48, Long(51))
}

fn order_cases<W: Write>(out: &mut W) -> io::Result<()> {
    judge_changed::<Twelve, _>(out, "home 6 on page 5", 60, Long(14))?;
    judge_changed::<Twelve, _>(out, "a lower home after a higher one", 40, Long(3))?;
    judge_changed::<Twelve, _>(out, "a lower key after a higher one", 40, Long(21))?;
    judge_changed::<Twelve, _>(out, "a key twice", 40, Long(13))?;
    judge_changed::<Twelve, _>(out, "another key in order", 60, Long(21))
}

fn ten_head_cases<W: Write>(out: &mut W) -> io::Result<()> {
    judge_changed::<Ten, _>(out, "ten: nothing changed", 0, Short(256))?;
    judge_changed::<Ten, _>(out, "ten: head length 240", 0, Short(240))?;
    judge_changed::<Ten, _>(out, "ten: head kind 0x0011", 2, Short(17))?;
    judge_changed::<Ten, _>(out, "ten: address 4", 4, Short(4))?;
    judge_changed::<Ten, _>(out, "ten: count 2, with three records", 8, Short(2))?;
    judge_changed::<Ten, _>(out, "ten: count 11", 8, Short(11))?;
    judge_changed::<Ten, _>(out, "ten: one of the six zero bytes 1", 12, Short(1))
}

fn ten_slot_cases<W: Write>(out: &mut W) -> io::Result<()> {
    judge_changed::<Ten, _>(out, "ten: slot 0 with length 20", 16, Short(20))?;
    judge_changed::<Ten, _>(out, "ten: slot 9 with length 25", 232, Short(25))?;
    judge_changed::<Ten, _>(out, "ten: slot 2 with kind 2", 66, Short(2))?;
    judge_changed::<Ten, _>(
        out,
        "ten: slot 3 a record that is not counted",
        90,
        Short(1),
    )?;
    judge_changed::<Ten, _>(out, "ten: an empty slot with a key", 92, Long(21))?;
    judge_changed::<Ten, _>(out, "ten: an empty slot with a value", 244, Long(1))?;
    judge_changed::<Ten, _>(out, "ten: an empty slot with a run", 248, Long(4294967296))?;
    judge_changed::<Ten, _>(out, "ten: another run", 36, Short(8))
}

fn ten_order_cases<W: Write>(out: &mut W) -> io::Result<()> {
    judge_changed::<Ten, _>(out, "ten: home 6 on page 5", 68, Long(14))?;
    judge_changed::<Ten, _>(out, "ten: a lower home after a higher one", 44, Long(3))?;
    judge_changed::<Ten, _>(out, "ten: a key twice", 44, Long(13))?;
    judge_changed::<Ten, _>(out, "ten: another key in order", 68, Long(21))
}

fn main(rt: HostRuntime) -> io::Result<()> {
    let mut out = rt.stdout();
    head_cases(&mut out)?;
    slot_cases(&mut out)?;
    order_cases(&mut out)?;
    ten_head_cases(&mut out)?;
    ten_slot_cases(&mut out)?;
    ten_order_cases(&mut out)
}
