// A growth that moves only the records that have to move. Those that leave for the new page were
// found before; the others keep their order and sink to where they leave room, and those that left
// stand behind them.
#![tactic(auto)]

ghost use Rattle.std.specs.Prelude.{◌≡◌, [], ℕ, ◌-◌, ◌*◌, ◌≤◌, ◌<◌, min, length, get_or};
ghost use Rattle.layouts.specs.Layout.{in_use};
ghost use Rattle.homes.specs.Homes.{first_pages, shape_of, home_in};
ghost use Rattle.placing.specs.Image.{cat};
ghost use Rattle.placing.specs.Rows.{counts, strayed};
ghost use Rattle.pages.specs.Page.{key, home_for};
ghost use Rattle.pages.specs.Area.{held_from, area_from};
ghost use Rattle.entries.specs.Steps.Entries.{entries_in, row_bytes};
ghost use Rattle.rebuild.specs.Relaid.{relaid};
ghost use Rattle.leaving.specs.Steps.Leaving.{leavers};
ghost use Rattle.rebuild.specs.Steps.Rebuild.{slots, hops_from};
ghost use Rattle.sliding.specs.Steps.Reading.{left, is_next, Whole, Stands, Stays, Passes, Pulls};
ghost use Rattle.sliding.specs.Steps.Topping.{topped, topped_hops};
ghost use Rattle.sliding.specs.Steps.Closing.{is_from, calm_at, past, own_at, closed, bytes_of, Leaving, WasImage};

use entries::Disorder;
use homes::Shape;
use layouts::{InUse, Layout};
use pages::Page;

// Where reading stands: the next record of the area, and the next of those that leave, as an offset
// into their row.
#[derive(Clone, Copy, Debug, PartialEq, Eq)]
pub struct Place {
    pub page: usize,
    pub slot: usize,
    pub next: usize,
}

// A page filled with records that stay, where reading stands then, and how many came from another
// page.
#[derive(Clone, Copy, Debug, PartialEq, Eq)]
pub struct Pulled {
    pub page: Page,
    pub place: Place,
    pub moved: u32,
}

// Whether a key is that of the next one that leaves.
#[tactic(auto, using(crate::proofs::Places::next_none, crate::proofs::Places::next_key))]
fn leaves(row: &[u8], at: usize, key: u64) -> bool
    requires { Whole at row.now }
    ensures { result ≡ is_next (left row.now at) key }
{
    at < row.len() && key == numbers::get::<u64>(row, at + 4)
}

// From a place on to the next record that stays, past those that leave.
fn to_stayer(area: &[u8], cap: usize, row: &[u8], from: Place) -> Place
    requires { (cap ≤ 4096) × (length area.now ≡ 256 * cap) × Stands area.now cap row.now from }
    ensures by_index { (h : ℕ → ℕ) → Passes h area.now cap row.now from result }
    ensures within { Stays area.now cap row.now from result }
{
    let mut page = from.page;
    let mut slot = from.slot;
    let mut next = from.next;
    // A page ends where its records do, so page and slot step together.
    while page < cap {
        if slot < pages::count_at::<InUse>(area, page) {
            let x = slots::record_at::<InUse>(area, page, slot);
            if !leaves(row, next, x.key) {
                break;
            }
            next += InUse::WIDTH;
            slot += 1;
        } else {
            page += 1;
            slot = 0;
        }
    }
    Place { page, slot, next }
}

// Page a filled from a place on with those that stay, as many as are wanted. Reading goes on to the
// next one that stays.
fn pull(area: &[u8], cap: usize, row: &[u8], from: Place, want: usize, a: usize) -> Pulled
    requires { (cap ≤ 4096) × (length area.now ≡ 256 * cap) × (want ≤ 12) × Stands area.now cap row.now from }
    ensures by_index { (h : ℕ → ℕ) → Pulls h area.now cap row.now from want a result }
    ensures within { Stays area.now cap row.now from result.place }
{
    let mut keys = [0; 12];
    let mut values = [0; 12];
    let mut runs = [0; 12];
    let mut count = 0;
    let mut moved: u32 = 0;
    let mut place = to_stayer(area, cap, row, from);
    // The counter is the answer: how many there are to take isn't known before.
    while count < want && place.page < cap {
        let x = slots::record_at::<InUse>(area, place.page, place.slot);
        keys[count] = x.key;
        values[count] = x.value;
        runs[count] = x.run;
        moved += rebuild::strange(place.page as u16, a);
        count += 1;
        let after = Place {
            slot: place.slot + 1,
            ..place
        };
        place = to_stayer(area, cap, row, after);
    }
    let page = Page {
        count,
        keys,
        values,
        runs,
    };
    Pulled { page, place, moved }
}

// Whether the next one that leaves comes from page a.
#[tactic(auto, using(crate::proofs::Places::from_none, crate::proofs::Places::from_there))]
fn comes_from(row: &[u8], at: usize, a: usize) -> bool
    requires { Whole at row.now }
    ensures { result ≡ is_from (left row.now at) a }
{
    at < row.len() && numbers::get::<u16>(row, at + 2) as usize == a
}

// Whether page a may stay as it is, which has some records and is to have so many.
fn calm(row: &[u8], place: Place, a: usize, count: usize, want: usize) -> bool
    requires { Whole place.next row.now }
    ensures { result ≡ calm_at row.now place a count want }
{
    let own = place.page == a && place.slot == 0 && !comes_from(row, place.next, a);
    count == want && (count == 0 || own)
}

// A place with page a behind it, where reading has not passed that page yet.
fn past(place: Place, a: usize) -> Place
    requires { a < 4096 }
    ensures { result ≡ past place a }
{
    if place.page == a {
        return Place {
            page: a + 1,
            slot: 0,
            ..place
        };
    }
    place
}

// How many records of home a stay: none of the new page, or of one above it.
fn own(counts: &[u32], added: usize, a: usize) -> usize
    requires { added ≤ length counts.now }
    ensures { result ≡ own_at counts.now added a }
{
    if a < added { counts[a] as usize } else { 0 }
}

// The records that stay, sunk to where those that leave make room, from page 0 upward; the answer is
// how many change their page. How many come to lie on a page the counts alone say, and a page that
// neither loses nor gets a record is not written.
fn close_up(area: &mut [u8], cap: usize, shape: Shape, counts: &[u32], row: &[u8]) -> u32
    requires cap_bound { (cap ≤ 4096) × (length area.old ≡ 256 * cap) × (shape.p ≤ cap) × (1 ≤ shape.p) × (length counts.now ≡ cap) × ((k : ℕ) → get_or counts.now k 0 ≤ 49152) }
    requires leaving { Leaving (home_in shape) (shape.p - 1) cap area.old counts.now row.now }
    ensures { let ps = closed (home_in shape) (shape.p - 1) cap area.old in (result ≡ hops_from 0 ps) × (area.new ≡ bytes_of ps) }
{
    let added = (shape.pages() - 1) as usize;
    let mut place = Place {
        page: 0,
        slot: 0,
        next: 0,
    };
    let mut over = 0;
    let mut moved = 0;
    for a in 0..cap {
        let waiting = over + own(counts, added, a);
        let want = waiting.min(InUse::SLOTS);
        let count = pages::count_at::<InUse>(&area[..], a);
        if calm(row, place, a, count, want) {
            place = past(place, a);
        } else {
            let pulled = pull(&area[..], cap, row, place, want, a);
            pages::store_at::<InUse>(area, a, pulled.page);
            place = pulled.place;
            moved += pulled.moved;
        }
        over = waiting - want;
    }
    moved
}

// Those that left, in their order, behind what stands on the pages from the new one on; the answer is
// how many come to lie on another page than the one that they come from.
fn top_up(area: &mut [u8], cap: usize, added: usize, row: &[u8]) -> u32
    requires cap_bound { (cap ≤ 4096) × (length area.old ≡ 256 * cap) × (added ≤ cap) × Whole 0 row.now × (length row.now ≤ 65536) }
    requires area_value { area.old ≡ area_from in_use 0 (held_from in_use area.old cap 0) }
    ensures { let ps = held_from in_use area.old cap 0 in let m = entries_in row.now in (result ≡ topped_hops added 0 ps m) × (area.new ≡ area_from in_use 0 (topped added ps m)) }
{
    let mut at = 0;
    let mut moved = 0;
    let mut a = added;
    // Either the page steps or the row does: a for over one of them would be no plainer.
    while a < cap && at < row.len() {
        let count = pages::count_at::<InUse>(&area[..], a);
        if count < InUse::SLOTS {
            let e = entries::get_entry(row, at);
            slots::insert_at::<InUse>(area, a, count, e.held);
            moved += rebuild::strange(e.from, a);
            at += InUse::WIDTH;
        } else {
            a += 1;
        }
    }
    moved
}

// The records of a file that was an image before its last page was added, laid anew; the answer is how
// many come to lie on another page. The row has those whose home is that page, in the order in which they
// stand, and `homes` says how many have each home.
pub fn slide(area: &mut [u8], cap: usize, shape: Shape, homes: &[u32], row: &mut [u8]) -> u32
    requires cap_bound { (cap ≤ 4096) × (length area.old ≡ 256 * cap) × (first_pages shape.params < shape.p) × (shape.p ≤ cap) × (length row.old ≤ 65536) }
    requires was_image { WasImage (home_in (shape_of shape.params (shape.p - 1))) cap area.old }
    requires homes_value { (homes.now ≡ counts (home_for (home_in shape)) (cat (held_from in_use area.old cap 0) []) cap 0) × (row.old ≡ row_bytes (leavers (home_in shape) (shape.p - 1) cap area.old)) }
    ensures { let ps = held_from in_use area.old cap 0 in let qs = relaid slots (home_in shape) cap ps in (result ≡ strayed key ps qs) × (area.new ≡ area_from in_use 0 qs) }
{
    let added = shape.pages() - 1;
    let sunk = close_up(area, cap, shape, homes, &row[..]);
    entries::sort_row(row, Disorder::Apart { home: added as u16 });
    let gone = top_up(area, cap, added as usize, &row[..]);
    sunk + gone
}
