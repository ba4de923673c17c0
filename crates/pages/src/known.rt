// The new homes of a page's records, where most of them are known: on the pages of an image nearly
// all records lie at home, and new homes may tell that all on a page stay.
ghost use Rattle.std.specs.Prelude.{◌≡◌, map, ◌+◌, ◌*◌, ◌≤◌, ◌<◌, length};
ghost use Rattle.layouts.specs.Layout.{in_use};
ghost use Rattle.homes.specs.Homes.{home_in};
ghost use Rattle.homes.specs.Steps.NewHomes.{Usable, new_home};
ghost use Rattle.pages.specs.Page.{home_for, records_in, in_memory, padded};
ghost use Rattle.pages.specs.Steps.Slots.{records_of};
ghost use Rattle.pages.specs.Area.{part_at};
ghost use Rattle.pages.specs.Steps.Known.{KnownAs, KnownHere, KnownAt, full_before};

use crate::Page;
use homes::Shape;
use homes::new_homes::NewHomes;
use layouts::{InUse, Layout};

// Which records of a page are known to have their home on it.
#[derive(Clone, Copy, PartialEq, Eq)]
enum AtHome {
    All,
    // Those after one that has.
    AfterOne,
    Unknown,
}

// The homes of the records of page a: what isn't known is worked out.
fn homes_on(page: Page, a: u64, shape: Shape, known: AtHome) -> [u64; 12]
    requires { (page.count ≤ 12) × KnownAs (home_in shape) a known (records_of page) }
    ensures { result ≡ padded (map (home_for (home_in shape)) (records_of page)) }
{
    let mut homes = [0; 12];
    let mut here = known == AtHome::All;
    let once = known == AtHome::AfterOne;
    for i in 0..page.count {
        let home = if here { a } else { shape.home(page.keys[i]) };
        homes[i] = home;
        here = here | (once & (home == a));
    }
    homes
}

// Whether there is a page before page a, and it says that it is full.
#[tactic(auto, using(crate::proofs::Homing::full_by_count), unfolding(crate::specs::Area::part_at))]
fn full_before(area: &[u8], a: usize) -> bool
    requires { (a < 4096) × (256 * (a + 1) ≤ length area.now) }
    ensures { result ≡ full_before in_use area.now a }
{
    if a == 0 {
        return false;
    }
    let at = 256 * (a - 1);
    InUse::SLOTS <= crate::count_in::<InUse>(&area[at..at + 256])
}

// The homes of the records of page a of an image.
pub fn homes_here(area: &[u8], a: usize, page: Page, shape: Shape) -> [u64; 12]
    requires a_bound { (a < 4096) × (256 * (a + 1) ≤ length area.now) × (page ≡ in_memory (records_in in_use (part_at area.now a))) }
    requires ready { KnownHere in_use (home_in shape) area.now a }
    ensures { result ≡ padded (map (home_for (home_in shape)) (records_of page)) }
{
    let known = if full_before(area, a) {
        AtHome::AfterOne
    } else {
        AtHome::All
    };
    homes_on(page, a as u64, shape, known)
}

// The new homes of the records of page a.
pub fn homes_at(area: &[u8], a: usize, page: Page, new: NewHomes) -> [u64; 12]
    requires a_bound { (a < 4096) × (256 * (a + 1) ≤ length area.now) × (page ≡ in_memory (records_in in_use (part_at area.now a))) }
    requires usable { Usable new × KnownAt in_use new area.now a }
    ensures { result ≡ padded (map (home_for (new_home new)) (records_in in_use (part_at area.now a))) }
{
    let shape = new.shape;
    let known = if !new.keeps(a as u64) {
        AtHome::Unknown
    } else if full_before(area, a) {
        AtHome::AfterOne
    } else {
        AtHome::All
    };
    homes_on(page, a as u64, shape, known)
}
