// The homes of twelve keys at a time. Their steps are taken together, so that no branch waits for a
// draw, and nothing is divided for one key alone. Sixteen places of two bytes fill whole registers;
// the last four are idle.
ghost use Rattle.std.specs.Prelude.{◌≡◌, cond, map, ℕ, ◌*◌, ◌/◌, ◌%◌, ◌≤◌, ◌<◌, length, get_or, leb};
ghost use Rattle.draws.specs.Draws.{seed_of};
ghost use Rattle.homes.specs.Homes.{home_in};
ghost use Rattle.draws.specs.Steps.Powers.{Drawable};
ghost use Rattle.homes.specs.Steps.Sweeps.{sweeps_of};
ghost use Rattle.homes.specs.Steps.Lanes.{lane_of, InGroup, gone_to, picked, Placed};

use crate::Shape;
use crate::lane::Lane;
use crate::starts::Start;
use crate::sweeps::Sweeps;

// Each key's seed, doubled, and the page that it starts from. A row for each number, and no row of
// structs, for speed: so a row fills whole registers.
#[derive(Clone, Copy, Debug, PartialEq, Eq)]
pub struct Begun {
    pub seeds: [u64; 12],
    pub pages: [u16; 16],
}

// Where each key is on its way: its page, and the same by its group and its turn among the group's
// pages.
#[derive(Clone, Copy, Debug, PartialEq, Eq)]
pub struct Lanes {
    pub turns: [u16; 16],
    pub groups: [u16; 16],
    pub pages: [u16; 16],
}

// The keys before the first step.
fn begin(keys: [u64; 12], m: u64) -> Begun
    requires { (1 ≤ m) × (m ≤ 256) }
    ensures by_index { (i : ℕ) → i < 12 → (get_or result.seeds i 0 ≡ 2 * seed_of (get_or keys i 0)) × (get_or result.pages i 0 ≡ get_or keys i 0 % m) }
    ensures fit { (i : ℕ) → i < 16 → get_or result.pages i 0 < m }
{
    let start = Start::new(m);
    let mut seeds = [0; 12];
    let mut pages = [0; 16];
    for i in 0..12 {
        let key = keys[i];
        seeds[i] = draws::twice_seed(key);
        pages[i] = start.page(key) as u16;
    }
    Begun { seeds, pages }
}

// The pages by their groups, of g.
fn place(pages: [u16; 16], g: u16) -> Lanes
    requires { (1 ≤ g) × (g ≤ 4096) × ((i : ℕ) → i < 16 → get_or pages i 0 < 4 * g) }
    ensures { (i : ℕ) → i < 16 → Placed g result i × (get_or result.pages i 0 ≡ get_or pages i 0) }
{
    let mut turns = [0; 16];
    let mut groups = [0; 16];
    for i in 0..16 {
        let lane = Lane::new(pages[i], g);
        turns[i] = lane.turn;
        groups[i] = lane.group;
    }
    Lanes {
        turns,
        groups,
        pages,
    }
}

// 1 for each key that is a mover by this power: two bytes, as the other rows have, for speed. The idle places say what the four before them do:
// then these four and they come from one register.
fn movers(seeds: [u64; 12], power: u32, limit: u32) -> [u16; 16]
    requires { (i : ℕ) → i < 12 → Drawable (get_or seeds i 0) power }
    ensures { (i : ℕ) → i < 12 → get_or result i 0 ≡ cond (leb (power * (get_or seeds i 0 / 2) % 2147483647) limit) 1 0 }
{
    let mut moves = [0; 16];
    for i in 0..12 {
        moves[i] = u16::from(draws::draw(seeds[i], power) <= limit);
    }
    moves[12] = moves[8];
    moves[13] = moves[9];
    moves[14] = moves[10];
    moves[15] = moves[11];
    moves
}

// One step of all keys, as if every new page were there: `pick` sees to those that aren't.
fn step_all(lanes: Lanes, moves: [u16; 16], np: u16, g: u16, sweeps: Sweeps) -> Lanes
    requires le_s { (1 ≤ sweeps.s) × (sweeps.s ≤ 8) × (sweeps ≡ sweeps_of sweeps.s g) × (g ≤ 4096) × (np < 8) }
    requires by_index { (i : ℕ) → i < 16 → InGroup g (lane_of lanes i) }
    ensures by_index_2 { (i : ℕ) → i < 16 → lane_of result i ≡ gone_to sweeps.s g np (get_or moves i 0) (lane_of lanes i) }
    ensures fit { (i : ℕ) → i < 16 → Placed g result i }
{
    let old_turns = lanes.turns;
    let old_groups = lanes.groups;
    let mut turns = [0; 16];
    let mut groups = [0; 16];
    let mut pages = [0; 16];
    for i in 0..16 {
        let to = sweeps.target(g, old_groups[i]);
        let goes = moves[i] == 1;
        let turn = if goes { np } else { old_turns[i] };
        let group = if goes { to } else { old_groups[i] };
        turns[i] = turn;
        groups[i] = group;
        pages[i] = turn * g + group;
    }
    Lanes {
        turns,
        groups,
        pages,
    }
}

// The same pages with twice as many groups as g.
fn regroup(lanes: Lanes, g: u16) -> Lanes
    requires { (g ≤ 4096) × ((i : ℕ) → i < 16 → Placed g lanes i) }
    ensures { (i : ℕ) → i < 16 → Placed (2 * g) result i × (get_or result.pages i 0 ≡ get_or lanes.pages i 0) }
{
    let old_turns = lanes.turns;
    let old_groups = lanes.groups;
    let pages = lanes.pages;
    let mut turns = [0; 16];
    let mut groups = [0; 16];
    for i in 0..16 {
        let lane = Lane {
            turn: old_turns[i],
            group: old_groups[i],
        };
        let new = lane.regroup(g);
        turns[i] = new.turn;
        groups[i] = new.group;
    }
    Lanes {
        turns,
        groups,
        pages,
    }
}

// The pages after the last step, where they are below p, or else those before it.
fn pick(before: [u16; 16], after: [u16; 16], p: u16) -> [u64; 12]
    ensures by_index { (i : ℕ) → i < 12 → get_or result i 0 ≡ picked p (get_or after i 0) (get_or before i 0) }
    ensures long { length result ≡ 12 }
{
    let mut pages = [0; 12];
    for i in 0..12 {
        let is_there = after[i] < p;
        pages[i] = if is_there {
            after[i] as u64
        } else {
            before[i] as u64
        };
    }
    pages
}

// The homes of twelve keys. The groups stay as many for the n0 steps of a round, which the compiler
// makes use of. At size p a round may stop before its last step: its lanes mean nothing then, and
// its pages are what counts.
pub fn homes(shape: Shape, keys: [u64; 12]) -> [u64; 12]
    ensures { result ≡ map (home_in shape) keys }
{
    let params = shape.params;
    let p = shape.p;
    let n0 = params.n0 as u64;
    let powers = draws::powers();
    let limits = draws::limits();
    let later = draws::later(params.edition);
    let mut stage = shape.first();
    let begun = begin(keys, stage.f);
    let seeds = begun.seeds;
    let first = begun.pages;
    let mut before = first;
    let mut lanes = place(first, params.n);
    let mut sweeps = Sweeps::new(params.s, params.n);
    let mut x = 1;
    // In both loops stage, number and lanes step together: a for over one would be no plainer.
    while stage.f < p {
        let g = stage.g as u16;
        while (stage.g == g as u64) & (stage.f < p) {
            let moves = movers(seeds, powers[x + later], limits[stage.np as usize]);
            let pages = lanes.pages;
            before = pages;
            lanes = step_all(lanes, moves, stage.np as u16, g, sweeps);
            stage = stage.next(n0);
            x += 1;
        }
        lanes = regroup(lanes, g);
        sweeps = sweeps.doubled();
    }
    let after = lanes.pages;
    pick(before, after, p as u16)
}
