// A search in a file that has passed its check: nothing is judged again. Of the homes on its way it
// works out that of a full page's last record, and no other. Where many keys have one home, the pages
// from there on are full of them: a long way is cut short by halves.
#![tactic(auto)]

ghost use Rattle.std.specs.Prelude.{◌≡◌, ◌≤◌, ◌<◌};
ghost use Rattle.homes.specs.Homes.{home_in};
ghost use Rattle.layouts.specs.Layout.{slots_of};
ghost use Rattle.placing.specs.Lay.{ranked};
ghost use Rattle.placing.specs.Walks.{seek, find_in};
ghost use Rattle.pages.specs.Page.{key, rank, records_in};
ghost use Rattle.pages.specs.Area.{held_from};
ghost use Rattle.lookups.specs.Steps.Told.{told};
ghost use Rattle.lookups.specs.Steps.Skips.{passes_on, Imaged, Unpassed};

use homes::Shape;
use layouts::Layout;
use pages::view::Pages;
use pages::{Rank, Record};

// So many pages a search looks at one by one: nearly every search ends among them.
const NEAR: usize = 8;

// The record of a key among those of a page.
#[tactic(auto, using(crate::proofs::Looking::sifted_none, crate::proofs::Looking::sifted_on))]
fn on_page<L: Layout>(part: &[u8; 256], sought: u64) -> Option<Record>
    ensures { result ≡ told (seek key sought (records_in L.layout part.now)) }
{
    let count = pages::count_in::<L>(part);
    for i in 0..count {
        let held = pages::slot::get::<L>(part, layouts::slot_at::<L>(i));
        if held.key == sought {
            return Some(held);
        }
    }
    None
}

// Whether a search passes a page: it is full, and its last record stands before (home, key). A page
// that neither holds the key nor is passed ends the search.
#[tactic(auto, using(crate::proofs::Looking::passes_short))]
fn passes<L: Layout>(part: &[u8; 256], shape: Shape, home: u64, sought: u64) -> bool
    ensures { result ≡ passes_on (rank (home_in shape)) (slots_of L.layout) (ranked home sought) (records_in L.layout part.now) }
{
    let slots = L::SLOTS;
    if pages::count_in::<L>(part) < slots {
        return false;
    }
    let last = pages::slot::get::<L>(part, layouts::slot_at::<L>(slots - 1));
    let met = Rank {
        home: shape.home(last.key),
        key: last.key,
    };
    met < Rank { home, key: sought }
}

// The first page from `from` on that a search doesn't pass, found by halves: in an image it passes all
// pages from its home on up to one that it passes.
fn skip<L: Layout>(pages: Pages<'_>, from: usize, shape: Shape, home: u64, sought: u64) -> usize
    requires { (home ≡ home_in shape sought) × (home ≤ from) × (from ≤ pages.cap) × Imaged L.layout pages.bytes.now (home_in shape) pages.cap }
    ensures { Unpassed L.layout pages.entry.bytes.now (home_in shape) pages.entry.cap sought from result }
{
    // A search of std by halves takes a slice of values, and a page is judged by its last record.
    let mut lo = from;
    let mut hi = pages.cap;
    while lo < hi {
        let mid = lo + (hi - lo) / 2;
        if passes::<L>(pages.part(mid), shape, home, sought) {
            lo = mid + 1;
        } else {
            hi = mid;
        }
    }
    lo
}

// From the home of a key up to the record, to a page that ends the search, or to the end. After the
// nearest pages those that are passed are skipped.
pub fn look<L: Layout>(pages: Pages<'_>, shape: Shape, home: u64, sought: u64) -> Option<Record>
    requires { (home < pages.cap) × (home ≡ home_in shape sought) × Imaged L.layout pages.bytes.now (home_in shape) pages.cap }
    ensures { result ≡ told (find_in key (home_in shape) (slots_of L.layout) sought (held_from L.layout pages.entry.bytes.now pages.entry.cap 0)) }
{
    let mut a = home as usize;
    let far = a + NEAR;
    // The address goes on by a page or by a jump, which no range counts.
    while a < pages.cap {
        let part = pages.part(a);
        if let Some(held) = on_page::<L>(part, sought) {
            return Some(held);
        }
        if !passes::<L>(part, shape, home, sought) {
            return None;
        }
        a += 1;
        if a == far {
            a = skip::<L>(pages, a, shape, home, sought);
        }
    }
    None
}
