// Where a key lives: its home page, from the numbers of the file and the key.
#![tactic(auto)]

pub mod giving;
mod lane;
pub mod lanes;
pub mod new_homes;
mod starts;
mod sweeps;

ghost use Rattle.std.specs.Prelude.{◌≡◌, ◌*◌, ◌%◌, ◌≤◌, ◌<◌};
ghost use Rattle.homes.specs.Homes.{InRange, Ready, shape_of, home_in, new_page};
ghost use Rattle.homes.specs.Steps.Stages.{first_step, After, Bounded};
ghost use Rattle.homes.specs.Steps.Last.{Within, last_step, stays_at};

use lane::Lane;
use new_homes::Beside;
use starts::Start;
use std::marker::Model;
use sweeps::Sweeps;

// The parameters of a file: pages a group and groups at the start, sweeps, and the edition, which
// says which draws its steps take. The edition is a number, since a state may bring any, and one out of range
// is refused as such (`State::in_range`).
#[derive(Clone, Copy, Debug, PartialEq, Eq)]
pub struct Params {
    pub n0: u16,
    pub n: u16,
    pub s: u16,
    pub edition: u16,
}

// What the homes of a file depend on: its parameters, and the pages grown to. Its numbers are in
// range, always.
#[derive(Clone, Copy, Debug, PartialEq, Eq)]
pub struct Shape {
    params: Params,
    p: u64,
}

impl Model for Shape {
    ghost use Rattle.homes.specs.Homes.{Shape, InRange};

    ghost Value = { Shape };

    ghost view = { λ a. record { params = a.params; p = a.p } };

    ghost invariant = { λ a. InRange a.params a.p };

    // What `Copy` and `==` need.
    ghost inverse = { λ v. record { params = v.params; p = v.p } };
}

// A step: groups and size before it, and pages of a group.
#[derive(Clone, Copy, Debug, PartialEq, Eq)]
pub struct Stage {
    pub g: u64,
    pub f: u64,
    pub np: u64,
}

// The page that the group of a page grows into, at size f, with g groups and s sweeps.
fn new_page(s: u16, f: u64, g: u64, page: u64) -> u64
    requires { (1 ≤ s) × (s ≤ 8) × (1 ≤ g) × (g ≤ f) × (f < 4096) }
    ensures { result ≡ new_page s f g page }
{
    let groups = g as u16;
    f + Sweeps::new(s, groups).target(groups, (page % g) as u16) as u64
}

impl Stage {
    // The step after a step.
    fn next(mut self, n0: u64) -> Self
        requires { Bounded n0 self × (n0 ≤ 4) × (self.f < 4096) }
        ensures after { After n0 self result }
        ensures sound { Bounded n0 result }
    {
        self.f += self.g;
        self.np += 1;
        if self.np == 2 * n0 {
            self.np = n0;
            self.g = 2 * self.g;
        }
        self
    }
}

impl Shape {
    // The shape of a file of these numbers, made once for many keys.
    pub fn new(params: Params, p: u64) -> Self
        requires { InRange params p }
        ensures value { result ≡ shape_of params p }
        ensures ready { Ready result }
    {
        Self { params, p }
    }

    // The parameters of the file.
    pub fn params(self) -> Params
        ensures { result ≡ self.params }
    {
        let Self { params, .. } = self;
        params
    }

    // How many pages the file has.
    pub fn pages(self) -> u64
        ensures value { result ≡ self.p }
        ensures ready { Ready self }
    {
        self.p
    }

    // The first step.
    fn first(self) -> Stage
        ensures value { result ≡ first_step self }
        ensures sound { Bounded self.params.n0 result }
    {
        let n0 = self.params.n0 as u64;
        let n = self.params.n as u64;
        Stage {
            g: n,
            f: n0 * n,
            np: n0,
        }
    }

    // The home of a key. Beside `lanes::homes` for speed: one key alone would wait for twelve.
    pub fn home(self, key: u64) -> u64
        ensures value { result ≡ home_in self key }
        ensures within { result < self.p }
    {
        let params = self.params;
        let p = self.p;
        let n0 = params.n0 as u64;
        let powers = draws::powers();
        let limits = draws::limits();
        let later = draws::later(params.edition);
        let seed = draws::twice_seed(key);
        let mut stage = self.first();
        let start = Start::new(stage.f);
        let mut lane = Lane::new(start.page(key) as u16, params.n);
        let mut sweeps = Sweeps::new(params.s, params.n);
        let mut x = 1;
        // Stage, number, lane and sweeps step together: a for over one of them would be no plainer.
        while stage.f < p {
            let moves = draws::draw(seed, powers[x + later]) <= limits[stage.np as usize];
            lane = lane.step(stage, sweeps, p, moves);
            x += 1;
            let next = stage.next(n0);
            if stage.g < next.g {
                lane = lane.regroup(stage.g as u16);
                sweeps = sweeps.doubled();
            }
            stage = next;
        }
        lane.turn as u64 * stage.g + lane.group as u64
    }

    // The last step that a file of this shape takes, asked for once where a page is added or taken
    // away.
    pub fn last_step(self) -> Stage
        requires { self.params.n0 * self.params.n < self.p }
        ensures value { result ≡ last_step self }
        ensures within { Within result }
    {
        let last = self.last();
        last.stage
    }

    // Whether the keys that have their home on a page are the same with the page that the step
    // added as without it. It tells so by the page's group alone, and may say no where they are.
    fn stays(self, beside: Beside, page: u64) -> bool
        requires { Within beside.last }
        ensures { result ≡ stays_at self.params.s beside.last beside.added page }
    {
        let last = beside.last;
        let new = new_page(self.params.s, last.f, last.g, page);
        (page < beside.added) & (new != beside.added)
    }
}
