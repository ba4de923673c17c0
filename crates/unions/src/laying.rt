// The records of two files laid anew in the area of one: those that only it holds are packed at its top end,
// all of the other's below them, and then all are sorted and laid on its pages.
ghost use Rattle.std.specs.Prelude.{◌≡◌, ◌++◌, ◌-◌, ◌*◌, ◌≤◌, length, take, drop};
ghost use Rattle.layouts.specs.Layout.{in_use};
ghost use Rattle.homes.specs.Homes.{home_in};
ghost use Rattle.placing.specs.Image.{RecordSet};
ghost use Rattle.placing.specs.Lay.{taken};
ghost use Rattle.pages.specs.Page.{key, home_for};
ghost use Rattle.pages.specs.Area.{area_from};
ghost use Rattle.entries.specs.Steps.Entries.{size, row_bytes};
ghost use Rattle.rebuild.specs.Relaid.{laid_out};
ghost use Rattle.rebuild.specs.Steps.Rebuild.{slots, packed};
ghost use Rattle.sites.specs.Steps.Sites.{Walkable};
ghost use Rattle.unions.specs.Steps.Both.{both_of, lacking_entries};

use crate::sift;
use entries::Disorder;
use homes::Shape;
use layouts::{InUse, Layout};
use sites::Site;

// The records of an area that the other file lacks as entries at its top end, in the order of the pages; the
// answer is where they begin. A page is read before entries may cover it.
fn pack_lacking(area: &mut [u8], here: Site, other: &[u8], there: Site) -> usize
    requires { Walkable area.old here × Walkable other.now there }
    ensures value { result ≡ 256 * here.cap - size * length (lacking_entries here area.old there other.now) }
    ensures area_after { area.new ≡ take result area.old ++ row_bytes (lacking_entries here area.old there other.now) }
{
    let cap = here.cap();
    let mine = here.shape();
    let theirs = there.shape();
    let mut at = 256 * cap;
    for a in (0..cap).rev() {
        let page = pages::parse_at::<InUse>(&area[..], a);
        let homes = sites::homes_under(&area[..], a, page, mine, mine);
        let sought = sites::homes_under(&area[..], a, page, mine, theirs);
        let sifted = sift(page, homes, sought, other, there, None);
        at = rebuild::pack_page(area, sifted.page, sifted.homes, a, mine, at);
    }
    at
}

// Not one function with the one above, which reads the area that it writes: a closure could not borrow it.
// All records of another file as entries, in the order of its pages, with their homes under a shape, below what
// stands from `top` on; the answer is where they begin.
fn pack_all(area: &mut [u8], top: usize, other: &[u8], site: Site, shape: Shape) -> usize
    requires { Walkable other.now site × (top ≤ length area.old) × (size * length (packed (home_in shape) site.cap other.now) ≤ top) }
    ensures value { result ≡ top - size * length (packed (home_in shape) site.cap other.now) }
    ensures area_after { area.new ≡ take result area.old ++ (row_bytes (packed (home_in shape) site.cap other.now) ++ drop top area.old) }
{
    let own = site.shape();
    let mut at = top;
    for a in (0..site.cap()).rev() {
        let page = pages::parse_at::<InUse>(other, a);
        let homes = sites::homes_under(other, a, page, own, shape);
        at = rebuild::pack_page(area, page, homes, a, shape, at);
    }
    at
}

// The records of both files in the area of the first; the answer is how many they are.
pub fn lay_both(area: &mut [u8], here: Site, other: &[u8], there: Site) -> u32
    requires walkable { Walkable area.old here × Walkable other.now there }
    requires fact { let both = both_of here area.old there other.now in RecordSet key both × (taken (home_for (home_in here.shape)) slots both here.cap ≡ length both) }
    ensures { let both = both_of here area.old there other.now in (result ≡ length both) × (area.new ≡ area_from in_use 0 (laid_out slots (home_in here.shape) here.cap both)) }
{
    let cap = here.cap();
    let top = pack_lacking(area, here, other, there);
    let base = pack_all(area, top, other, there, here.shape());
    let records = (256 * cap - base) / InUse::WIDTH;
    rebuild::lay_anew(area, cap, base, Disorder::Apart { home: 0 });
    records as u32
}
