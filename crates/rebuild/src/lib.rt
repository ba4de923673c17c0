// A file made anew in its own area: its records packed as entries at the top end, sorted by (home,
// key), and laid on the pages from below.
#![tactic(auto)]

ghost use Rattle.std.specs.Prelude.{◌≡◌, not, [], ◌++◌, map, ℕ, ◌+◌, ◌-◌, ◌*◌, ◌/◌, ◌≤◌, ◌<◌, length, take, drop, get_or, eqb};
ghost use Rattle.numbers.specs.Little.{written};
ghost use Rattle.layouts.specs.Layout.{in_use};
ghost use Rattle.homes.specs.Homes.{home_in};
ghost use Rattle.homes.specs.Steps.NewHomes.{Usable, new_home};
ghost use Rattle.placing.specs.Image.{Distinct, RecordSet, cat};
ghost use Rattle.placing.specs.Lay.{one, sort, lay, taken, Sorted};
ghost use Rattle.placing.specs.Rows.{strayed};
ghost use Rattle.pages.specs.Page.{key, home_for};
ghost use Rattle.pages.specs.Steps.Slots.{records_of};
ghost use Rattle.pages.specs.Area.{held_from, area_from};
ghost use Rattle.pages.specs.Steps.Known.{KnownAt};
ghost use Rattle.entries.specs.Steps.Entries.{size, entries_in, row_bytes, rank, home};
ghost use Rattle.rebuild.specs.Relaid.{relaid};
ghost use Rattle.rebuild.specs.Steps.Rebuild.{slots, tagged, packed, record_in, hops_from, took};

use entries::{Disorder, Entry};
use homes::Shape;
use homes::new_homes::NewHomes;
use layouts::{InUse, Layout};
use pages::{Page, Record};

// A page filled from entries: where the next entry stands, and how many came from another page.
#[derive(Clone, Copy, Debug, PartialEq, Eq)]
pub struct Took {
    pub page: Page,
    pub next: usize,
    pub moved: u32,
}

// The records of page a with their homes as entries that end at `top`; the answer is where they begin.
pub fn pack_page(
    area: &mut [u8],
    page: Page,
    homes: [u64; 12],
    a: usize,
    shape: Shape,
    top: usize,
) -> usize
    requires { (page.count ≤ 12) × (a < 4096) × (size * page.count ≤ top) × (top ≤ length area.old) × ((i : ℕ) → i < page.count → get_or homes i 0 ≡ home_in shape (get_or page.keys i 0)) }
    ensures value { result ≡ top - size * page.count }
    ensures area_after { area.new ≡ written area.old (top - size * page.count) (row_bytes (tagged (home_in shape) a (records_of page))) }
{
    // The homes are pages of this shape, which are few: each fits two bytes.
    let _ = shape.pages();
    let at = top - InUse::WIDTH * page.count;
    for i in 0..page.count {
        let e = Entry {
            home: homes[i] as u16,
            from: a as u16,
            held: Record {
                key: page.keys[i],
                value: page.values[i],
                run: page.runs[i],
            },
        };
        entries::put_entry(area, at + InUse::WIDTH * i, e);
    }
    at
}

// All records of an area as entries at its top end, in the order of the pages; the answer is where
// they begin. A page is read before entries may cover it.
pub fn pack(area: &mut [u8], cap: usize, new: NewHomes) -> usize
    requires { (cap ≤ 4096) × (length area.old ≡ 256 * cap) × Usable new × ((a : ℕ) → a < cap → KnownAt in_use new area.old a) }
    ensures value { result ≡ 256 * cap - size * length (packed (new_home new) cap area.old) }
    ensures area_after { area.new ≡ take result area.old ++ row_bytes (packed (new_home new) cap area.old) }
{
    let shape = new.shape;
    let mut at = 256 * cap;
    for a in (0..cap).rev() {
        let page = pages::parse_at::<InUse>(&area[..], a);
        // What holds a shape is copied before a loan, not beside it.
        let own = new;
        let homes = pages::known::homes_at(&area[..], a, page, own);
        at = pack_page(area, page, homes, a, shape, at);
    }
    at
}

// Page a takes entries while it has a slot and the next entry's home is not above it.
#[tactic(auto, using(crate::proofs::Take::taking_start, crate::proofs::Take::taking_turn, crate::proofs::Take::taking_above, crate::proofs::Take::taking_end, crate::proofs::Take::slot_left, crate::proofs::Take::entry_left, crate::proofs::Take::moves_fit))]
fn take_page(area: &[u8], at: usize, a: usize) -> Took
    requires { (at ≤ length area.now) × (length area.now ≡ at + size * ((length area.now - at) / size)) × (a < 4096) }
    ensures { result ≡ took a at (entries_in (drop at area.now)) }
{
    let mut keys = [0; 12];
    let mut values = [0; 12];
    let mut runs = [0; 12];
    let mut count = 0;
    let mut next = at;
    let mut moved: u32 = 0;
    // The answer is where both counters stop, by the test or before an entry of a higher home.
    while (count < InUse::SLOTS) & (next < area.len()) {
        let e = entries::get_entry(area, next);
        if (a as u16) < e.home {
            break;
        }
        keys[count] = e.held.key;
        values[count] = e.held.value;
        runs[count] = e.held.run;
        moved += strange(e.from, a);
        count += 1;
        next += InUse::WIDTH;
    }
    let page = Page {
        count,
        keys,
        values,
        runs,
    };
    Took { page, next, moved }
}

// 1 where an entry comes from another page than a.
pub fn strange(from: u16, a: usize) -> u32
    ensures { result ≡ one (not (eqb from a)) }
{
    u32::from(from as usize != a)
}

// Sorted entries at the top end of an area laid on its pages; the answer is how many came from
// another page. Where all have room, a page ends below the first entry that is not yet read.
pub fn unpack(area: &mut [u8], cap: usize, base: usize) -> u32
    requires cap_bound { (cap ≤ 4096) × (length area.old ≡ 256 * cap) × (base ≤ 256 * cap) × (256 * cap ≡ base + size * ((256 * cap - base) / size)) }
    requires fact { let es = entries_in (drop base area.old) in Sorted rank es × (taken home slots es cap ≡ length es) }
    ensures { let ps = lay home slots cap 0 (entries_in (drop base area.old)) in (result ≡ hops_from 0 ps) × (area.new ≡ area_from in_use 0 (map (map record_in) ps)) }
{
    let mut moved = 0;
    let mut at = base;
    for a in 0..cap {
        let t = take_page(&area[..], at, a);
        pages::store_at::<InUse>(area, a, t.page);
        at = t.next;
        moved += t.moved;
    }
    moved
}

// The entries at the top end of an area sorted and laid on its pages; the answer is how many came from
// another page. Where they stand out of order only makes the sorting quick.
pub fn lay_anew(area: &mut [u8], cap: usize, base: usize, disorder: Disorder) -> u32
    requires cap_bound { (cap ≤ 4096) × (length area.old ≡ 256 * cap) × (base ≤ 256 * cap) × (256 * cap ≡ base + size * ((256 * cap - base) / size)) }
    requires fact { let es = entries_in (drop base area.old) in Distinct rank es × (taken home slots es cap ≡ length es) }
    ensures { let ps = lay home slots cap 0 (sort rank (entries_in (drop base area.old))) in (result ≡ hops_from 0 ps) × (area.new ≡ area_from in_use 0 (map (map record_in) ps)) }
{
    entries::sort_row(&mut area[base..], disorder);
    unpack(area, cap, base)
}

// Which entries stand out of order where records get new homes: those of a home that is high enough, or
// the last.
fn disorder_of(new: NewHomes) -> Disorder {
    let shape = new.shape;
    if (new.apart as u64) < shape.pages() {
        Disorder::Apart { home: new.apart }
    } else {
        Disorder::AtEnd { page: new.apart }
    }
}

// The records of an area laid anew, each at its new home; the answer is how many lie on another
// page.
pub fn rebuild(area: &mut [u8], cap: usize, new: NewHomes) -> u32
    requires cap_bound { (cap ≤ 4096) × (length area.old ≡ 256 * cap) × Usable new × ((a : ℕ) → a < cap → KnownAt in_use new area.old a) }
    requires fact { let held = cat (held_from in_use area.old cap 0) [] in RecordSet key held × (taken (home_for (new_home new)) slots held cap ≡ length held) }
    ensures { let ps = held_from in_use area.old cap 0 in let qs = relaid slots (new_home new) cap ps in (result ≡ strayed key ps qs) × (area.new ≡ area_from in_use 0 qs) }
{
    // What holds a shape is copied before a loan, not beside it.
    let own = new;
    let disorder = disorder_of(own);
    let base = pack(area, cap, new);
    lay_anew(area, cap, base, disorder)
}
