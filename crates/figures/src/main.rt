// Prints 01's figures, each worked out by the code.
#![tactic(auto)]

mod small_files;

ghost use Rattle.std.specs.Prelude.{◌≤◌, ◌<◌};

use homes::{Params, Shape};
use layouts::{InUse, Layout};
use state::State;
use std::io;
use std::io::Write;

// Draw x of seed 1.
fn draw_of(x: u64) -> u32 {
    let mut draw = 1;
    for _ in 0..x {
        draw = draws::next_draw(draw);
    }
    draw
}

fn print_draws<W: Write>(out: &mut W) -> io::Result<()> {
    for x in [1, 2, 3, 4, 10000] {
        let draw = draw_of(x);
        writeln!(out, "seed 1, draw {x}: {draw}")?;
    }
    Ok(())
}

// The lowest key that lives on a page when it is the last one grown, n0 2, N 8, s 3; none where
// none below 1,000 does.
fn first_on(page: u64) -> Option<u64>
    requires { (16 ≤ page) × (page < 24) }
{
    let params = Params {
        n0: 2,
        n: 8,
        s: 3,
        edition: 1,
    };
    let shape = Shape::new(params, page + 1);
    (0..1000).find(|key| shape.home(*key) == page)
}

// The group that grows into a page, where a key tells it.
fn group_into(page: u64) -> Option<u64>
    requires { (16 ≤ page) × (page < 24) }
{
    first_on(page).map(|key| key % 8)
}

fn print_order<W: Write>(out: &mut W) -> io::Result<()> {
    write!(out, "n0 2, N 8, s 3, pages 16 to 23 come from groups: ")?;
    for page in 16..24 {
        let comma = if page == 16 { "" } else { ", " };
        match group_into(page) {
            Some(group) => write!(out, "{comma}{group}")?,
            None => write!(out, "{comma}none")?,
        }
    }
    writeln!(out)
}

fn print_homes<W: Write>(out: &mut W, key: u64) -> io::Result<()> {
    let params = Params {
        n0: 2,
        n: 2,
        s: 1,
        edition: 1,
    };
    for p in 4..9 {
        let home = Shape::new(params, p).home(key);
        writeln!(out, "n0 2, N 2, s 1, key {key}, P {p}: home {home}")?;
    }
    Ok(())
}

// Whether a key is a mover at x 1. At P 6 the first step alone has been taken, for both groups: a
// key that it moves has left page key mod 4.
fn is_mover(edition: u16, key: u64) -> bool {
    let params = Params {
        n0: 2,
        n: 2,
        s: 1,
        edition,
    };
    let shape = Shape::new(params, 6);
    shape.home(key) != key % 4
}

fn print_mover<W: Write>(out: &mut W, key: u64) -> io::Result<()> {
    let told = if is_mover(1, key) {
        "mover"
    } else {
        "no mover"
    };
    writeln!(out, "n0 2, N 2, s 1, key {key}, x 1: {told}")
}

// How many of the keys up to 42590, which all are movers in edition 1, are movers in an edition.
fn count_movers(edition: u16) -> usize {
    (0..=42590).filter(|key| is_mover(edition, *key)).count()
}

fn print_movers<W: Write>(out: &mut W, edition: u16) -> io::Result<()> {
    let count = count_movers(edition);
    writeln!(
        out,
        "n0 2, edition {edition}: of keys 0 to 42590, {count} are movers at x 1"
    )
}

fn print_due<W: Write>(out: &mut W, r: u32) -> io::Result<()> {
    let params = Params {
        n0: 2,
        n: 2,
        s: 1,
        edition: 1,
    };
    let state = State {
        params,
        p: 4,
        cap: 4,
        r,
    };
    let told = if state.due(InUse::NUMBER) {
        "due"
    } else {
        "not due"
    };
    writeln!(out, "P 4, {r} records: {told}")
}

fn main(rt: HostRuntime) -> io::Result<()> {
    let mut out = rt.stdout();
    print_draws(&mut out)?;
    print_order(&mut out)?;
    print_homes(&mut out, 0)?;
    print_homes(&mut out, 1)?;
    print_mover(&mut out, 42590)?;
    print_mover(&mut out, 42591)?;
    print_movers(&mut out, 1)?;
    print_movers(&mut out, 2)?;
    print_due(&mut out, 38)?;
    print_due(&mut out, 39)?;
    small_files::print_all(&mut out)
}
