// One key on its way home.
ghost use Rattle.std.specs.Prelude.{◌≡◌, ◌*◌, ◌/◌, ◌≤◌, ◌<◌};
ghost use Rattle.homes.specs.Steps.Sweeps.{sweeps_of};
ghost use Rattle.homes.specs.Steps.Lanes.{lane_at, InGroup, regrouped, stepped_to};

use crate::Stage;
use crate::sweeps::Sweeps;

// A page by its group, and by its turn among the pages of the group.
#[derive(Clone, Copy, Debug, PartialEq, Eq)]
pub struct Lane {
    pub turn: u16,
    pub group: u16,
}

// A page by the number of groups, of which it holds fewer than four times as many. It is compared
// and not divided.
fn turn_of(page: u16, g: u16) -> u16
    requires { (1 ≤ g) × (g ≤ 4096) × (page < 4 * g) }
    ensures { result ≡ page / g }
{
    u16::from(g <= page) + u16::from(2 * g <= page) + u16::from(3 * g <= page)
}

impl Lane {
    // The lane of a page, with g groups.
    pub fn new(page: u16, g: u16) -> Self
        requires { (1 ≤ g) × (g ≤ 4096) × (page < 4 * g) }
        ensures { result ≡ lane_at g page }
    {
        let turn = turn_of(page, g);
        Self {
            turn,
            group: page - turn * g,
        }
    }

    // The same page with twice as many groups as g.
    pub fn regroup(self, g: u16) -> Self
        requires { (g ≤ 4096) × InGroup g self }
        ensures { result ≡ regrouped g self }
    {
        Self {
            turn: self.turn / 2,
            group: self.turn % 2 * g + self.group,
        }
    }

    // A step. Where a mover goes is worked out only for a mover.
    pub fn step(self, stage: Stage, sweeps: Sweeps, p: u64, moves: bool) -> Self
        requires le_s { (1 ≤ sweeps.s) × (sweeps.s ≤ 8) × (sweeps ≡ sweeps_of sweeps.s stage.g) }
        requires g_le_f { (stage.g ≤ stage.f) × (stage.f < 4096) × (stage.np < 8) × InGroup stage.g self }
        ensures { result ≡ stepped_to sweeps.s p stage moves self }
    {
        if !moves {
            return self;
        }
        let group = sweeps.target(stage.g as u16, self.group);
        if stage.f + (group as u64) < p {
            Self {
                turn: stage.np as u16,
                group,
            }
        } else {
            self
        }
    }
}
