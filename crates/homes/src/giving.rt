// How a file grows into its last page: by which step, which pages give keys to it, and which of
// their keys go.
ghost use Rattle.std.specs.Prelude.{◌≡◌, ◌*◌, ◌<◌};
ghost use Rattle.homes.specs.Steps.Last.{last_of, Lasts, Within};
ghost use Rattle.homes.specs.Steps.Giving.{Gives, giving_of, takes_key, first_giver};

use crate::sweeps::Sweeps;
use crate::{Shape, Stage};

// A step, and which it is.
#[derive(Clone, Copy, Debug, PartialEq, Eq)]
pub struct Numbered {
    pub x: usize,
    pub stage: Stage,
}

// The page added last: the sweeps, the size and the groups of the step that added it, and the power
// and the limit by which that step draws. The pages that give are found, and a key is asked, with
// nothing else known of the file.
#[derive(Clone, Copy, Debug, PartialEq, Eq)]
pub struct Giving {
    pub s: u16,
    pub f: u64,
    pub g: u64,
    pub added: u64,
    pub power: u32,
    pub limit: u32,
}

impl Shape {
    // The last step that a file of this shape takes.
    pub(crate) fn last(self) -> Numbered
        requires { self.params.n0 * self.params.n < self.p }
        ensures value { result ≡ last_of self }
        ensures sound { Lasts self.params.n0 self.p result }
        ensures within { Within result.stage }
    {
        let n0 = self.params.n0 as u64;
        let p = self.p;
        let mut stage = self.first();
        let mut x = 1;
        // Stage and number step together until the size is reached: a for over one would be no plainer.
        while stage.f + stage.g < p {
            stage = stage.next(n0);
            x += 1;
        }
        Numbered { x, stage }
    }

    // How a file of this shape grew into its last page.
    pub fn giving(self) -> Giving
        requires { self.params.n0 * self.params.n < self.p }
        ensures value { result ≡ giving_of self }
        ensures gives { Gives result }
    {
        let params = self.params;
        let p = self.p;
        let powers = draws::powers();
        let limits = draws::limits();
        let later = draws::later(params.edition);
        let last = self.last();
        let x = last.x;
        let stage = last.stage;
        Giving {
            s: params.s,
            f: stage.f,
            g: stage.g,
            added: p - 1,
            power: powers[x + later],
            limit: limits[stage.np as usize],
        }
    }
}

impl Giving {
    // Whether a key of a page that gives goes.
    pub fn takes(self, key: u64) -> bool
        requires { Gives self }
        ensures { result ≡ takes_key self key }
    {
        draws::draw(draws::twice_seed(key), self.power) <= self.limit
    }

    // The lowest page that gives; the others come each g pages after the one before, below f: keys of
    // a page that the step itself added don't go, though its group may be the one that grows there.
    // It is one of the first g, and is found with nothing divided.
    pub fn first(self) -> u64
        requires { Gives self }
        ensures value { result ≡ first_giver self }
        ensures within { result < self.g }
    {
        let groups = self.g as u16;
        let behind = (self.added - self.f) as u16;
        let sweeps = Sweeps::new(self.s, groups);
        for group in 0..groups {
            if sweeps.target(groups, group) == behind {
                return group as u64;
            }
        }
        unreachable!()
    }
}
