// Where the groups of a step grow to, with nothing divided by the sweeps.
ghost use Rattle.std.specs.Prelude.{◌≡◌, ℕ, ◌-◌, ◌*◌, ◌/◌, ◌≤◌, ◌<◌};
ghost use Rattle.homes.specs.Homes.{swept};
ghost use Rattle.homes.specs.Steps.Sweeps.{sweeps_of};

// 65535 by the sweeps.
const SHARES: [u16; 9] = [0, 65535, 32767, 21845, 16383, 13107, 10922, 9362, 8191];

// s sweeps over g groups: what `SHARES` has for s, groups of each sweep, and sweeps with one more.
#[derive(Clone, Copy, Debug, PartialEq, Eq)]
pub struct Sweeps {
    pub s: u16,
    pub share: u16,
    pub each: u16,
    pub more: u16,
}

// The number before `next` by s, where the share is that of s: exact for so few groups.
fn row_before(next: u16, share: u16) -> u16
    ensures { result ≡ next * share / 65536 }
{
    (next as u32 * share as u32 / 65536) as u16
}

impl Sweeps {
    pub fn new(s: u16, g: u16) -> Self
        requires { (1 ≤ s) × (s ≤ 8) × (g < 4096) }
        ensures { result ≡ sweeps_of s g }
    {
        let shares = SHARES;
        let share = shares[s as usize];
        let each = row_before(g + 1, share);
        Self {
            s,
            share,
            each,
            more: g - each * s,
        }
    }

    // The same sweeps over twice as many groups.
    pub fn doubled(self) -> Self
        requires { (self.each ≤ 4096) × (self.more < self.s) × (self.s ≤ 8) }
        ensures { (g : ℕ) → self ≡ sweeps_of self.s g → result ≡ sweeps_of self.s (2 * g) }
    {
        let s = self.s;
        let twice = 2 * self.more;
        let over = s <= twice;
        let less = if over { s } else { 0 };
        Self {
            s,
            share: self.share,
            each: 2 * self.each + u16::from(over),
            more: twice - less,
        }
    }

    // How far behind the first new page the new page of a group is.
    pub fn target(self, g: u16, group: u16) -> u16
        requires { (1 ≤ self.s) × (self.s ≤ 8) × (self ≡ sweeps_of self.s g) × (group < g) × (g ≤ 4096) }
        ensures value { result ≡ swept self.s 0 g (g - 1 - group) }
        ensures within { result < g }
    {
        let next = g - group;
        let row = row_before(next, self.share);
        let w = next - row * self.s - 1;
        let least = w.min(self.more);
        w * self.each + least + row
    }
}
