// Places among the records of a page, and a record put in or taken out where they stand: the slots
// behind it move by one, whatever the layout. What a page then holds is said of one whose bytes are
// well formed, as those of a page are that was judged good.
#![tactic(auto)]

ghost use Rattle.std.specs.Prelude.{◌≡◌, true, [], ◌∷◌, ◌++◌, ℕ, suc, ◌+◌, ◌-◌, ◌*◌, ◌^◌, ◌≤◌, ◌<◌, length, take, drop, get_or};
ghost use Rattle.numbers.specs.Fields.{encode};
ghost use Rattle.numbers.specs.Little.{written};
ghost use Rattle.layouts.specs.Layout.{slots_of, slot_at};
ghost use Rattle.homes.specs.Homes.{home_in};
ghost use Rattle.placing.specs.Lay.{ranked, ins};
ghost use Rattle.pages.specs.Page.{key, vacant, rank, slot, slot_of, record_slot, page_bytes, count_in, records_in, well_formed};
ghost use Rattle.pages.specs.Area.{part_at, with_page};
ghost use Rattle.pages.specs.Places.{closed, ahead};
ghost use Rattle.pages.specs.Steps.Slots.{opened, up_to_back, backed};

use homes::Shape;
use layouts::Layout;
use pages::{Rank, Record};

// The record in a slot of a page, or another where there is none.
#[tactic(auto, using(pages::proofs::Read::held_at, pages::proofs::Read::held_past, pages::proofs::Read::slot_lies))]
fn record_or<L: Layout>(part: &[u8], i: usize, other: Record) -> Record
    requires { length part.now ≡ 256 }
    ensures { result ≡ get_or (records_in L.layout part.now) i other }
{
    if pages::count_in::<L>(part) <= i {
        return other;
    }
    pages::slot::get::<L>(part, layouts::slot_at::<L>(i))
}

#[tactic(auto, using(pages::proofs::Read::held_at, pages::proofs::Read::slot_lies))]
fn key_in<L: Layout>(part: &[u8], i: usize) -> u64
    requires { (length part.now ≡ 256) × (i < count_in L.layout part.now) }
    ensures { result ≡ key (get_or (records_in L.layout part.now) i vacant) }
{
    numbers::get::<u64>(part, layouts::slot_at::<L>(i) + 4)
}

// How many records of a page stand before (home, key), from the front. Their homes are worked out
// as they are met.
fn place_ahead<L: Layout>(part: &[u8], shape: Shape, home: u64, key: u64) -> usize
    requires { length part.now ≡ 256 }
    ensures { result ≡ ahead (rank (home_in shape)) (ranked home key) (records_in L.layout part.now) }
{
    let count = pages::count_in::<L>(part);
    let sought = Rank { home, key };
    for i in 0..count {
        let other = key_in::<L>(part, i);
        let met = Rank {
            home: shape.home(other),
            key: other,
        };
        let is_before = met < sought;
        if !is_before {
            return i;
        }
    }
    count
}

// The same from the back, for a record that belongs at the end more often than not. Which end is met first
// is all that the two differ in: one function would have to be told, and ask at each record.
fn place_back<L: Layout>(part: &[u8], shape: Shape, home: u64, key: u64) -> usize
    requires { length part.now ≡ 256 }
    ensures { let rs = records_in L.layout part.now in result ≡ up_to_back (rank (home_in shape)) (ranked home key) vacant rs (length rs) }
{
    let sought = Rank { home, key };
    for i in (0..pages::count_in::<L>(part)).rev() {
        let other = key_in::<L>(part, i);
        let met = Rank {
            home: shape.home(other),
            key: other,
        };
        if met < sought {
            return i + 1;
        }
    }
    0
}

// Bytes moved so far up, the last of them first. By hand, as the next: of `copy_within` the compiler makes
// a memmove, which a program in C need not bring (c/reefcushion.h).
fn shift_up(part: &mut [u8], start: usize, end: usize, by: usize)
    requires { (start ≤ end) × (end + by ≤ length part.old) }
    ensures { let l = part.old in part.new ≡ written l (start + by) (take (end - start) (drop start l)) }
{
    let mut i = end;
    while start < i {
        i -= 1;
        part[i + by] = part[i];
    }
}

// Bytes moved so far down, the first of them first.
fn shift_down(part: &mut [u8], start: usize, end: usize, by: usize)
    requires { (by ≤ start) × (start ≤ end) × (end ≤ length part.old) }
    ensures { let l = part.old in part.new ≡ written l (start - by) (take (end - start) (drop start l)) }
{
    let mut i = start;
    while i < end {
        part[i - by] = part[i];
        i += 1;
    }
}

// A record to a slot. What stood there and after it goes one slot on, and the last drops out.
#[tactic(auto, using(crate::proofs::Moving::opened_twice, layouts::proofs::Lying::slot_fits))]
fn open_slot<L: Layout>(part: &mut [u8], at: usize, x: Record)
    requires { (length part.old ≡ 256) × (at < slots_of L.layout) }
    ensures { let l = part.old in part.new ≡ written l (slot_at L.layout at) (encode (record_slot L.layout x) ++ take (256 - slot_at L.layout (suc at)) (drop (slot_at L.layout at) l)) }
{
    let width = L::WIDTH;
    let start = layouts::slot_at::<L>(at);
    shift_up(part, start, 256 - width, width);
    pages::slot::put::<L>(part, start, Some(x));
}

// The slots closed up over one of them, with a record at the end or an empty slot.
#[tactic(auto, using(crate::proofs::Moving::closed_twice, layouts::proofs::Lying::slot_next, layouts::proofs::Lying::slot_fits))]
fn close_slot<L: Layout>(part: &mut [u8], at: usize, x: Option<Record>)
    requires { (length part.old ≡ 256) × (at < slots_of L.layout) }
    ensures { let l = part.old in part.new ≡ written l (slot_at L.layout at) (drop (slot_at L.layout (suc at)) l ++ encode (slot_of L.layout x)) }
{
    let width = L::WIDTH;
    let start = layouts::slot_at::<L>(at + 1);
    shift_down(part, start, 256, width);
    pages::slot::put::<L>(part, 256 - width, x);
}

// A record to a place of a page. Of one more than there are slots the last comes back; where there
// are not so many, the record itself does.
fn insert<L: Layout>(part: &mut [u8], at: usize, x: Record) -> Record
    requires { (length part.old ≡ 256) × (at ≤ count_in L.layout part.old) }
    ensures value { result ≡ get_or (opened at x (records_in L.layout part.old)) (slots_of L.layout) x }
    ensures fact { let l = part.old in ((a : ℕ) → well_formed L.layout a l ≡ true → part.new ≡ page_bytes L.layout a (take (slots_of L.layout) (opened at x (records_in L.layout l)))) }
{
    let slots = L::SLOTS;
    if at == slots {
        return x;
    }
    let count = pages::count_in::<L>(&part[..]);
    let over = record_or::<L>(&part[..], slots - 1, x);
    open_slot::<L>(part, at, x);
    let held = (count + 1).min(slots);
    numbers::put(part, 8, held as u16);
    over
}

// The record at a place of a page taken out, if there is one.
fn take_out<L: Layout>(part: &mut [u8], at: usize)
    requires { length part.old ≡ 256 }
    ensures { let l = part.old in ((a : ℕ) → well_formed L.layout a l ≡ true → part.new ≡ page_bytes L.layout a (closed at (records_in L.layout l))) }
{
    let count = pages::count_in::<L>(&part[..]);
    if count <= at {
        return;
    }
    close_slot::<L>(part, at, None);
    numbers::put(part, 8, (count - 1) as u16);
}

// A record to its place in order on a page, and the record that the page then doesn't hold.
fn push<L: Layout>(part: &mut [u8], shape: Shape, x: Record) -> Record
    requires { length part.old ≡ 256 }
    ensures value { result ≡ get_or (ins (rank (home_in shape)) x (records_in L.layout part.old)) (slots_of L.layout) x }
    ensures fact { let l = part.old in ((a : ℕ) → well_formed L.layout a l ≡ true → part.new ≡ page_bytes L.layout a (take (slots_of L.layout) (ins (rank (home_in shape)) x (records_in L.layout l)))) }
{
    let place = place_ahead::<L>(&part[..], shape, shape.home(x.key), x.key);
    insert::<L>(part, place, x)
}

// The record at a place of a page taken out, if there is one, and then another put to its place,
// sought from the back.
fn refill<L: Layout>(part: &mut [u8], shape: Shape, at: usize, x: Record)
    requires { length part.old ≡ 256 }
    ensures { let l = part.old in ((a : ℕ) → a < 2 ^ 32 → well_formed L.layout a l ≡ true → part.new ≡ page_bytes L.layout a (backed (slots_of L.layout) (home_in shape) x (closed at (records_in L.layout l)))) }
{
    take_out::<L>(part, at);
    let place = place_back::<L>(&part[..], shape, shape.home(x.key), x.key);
    insert::<L>(part, place, x);
}

// The record in a slot of the page at an address, or all zeros where there is none: its contract says so by
// `get_or`, and those that call it know that there is one.
pub fn record_at<L: Layout>(area: &[u8], a: usize, i: usize) -> Record
    requires { (a < 4096) × (256 * (a + 1) ≤ length area.now) }
    ensures { result ≡ get_or (records_in L.layout (part_at area.now a)) i vacant }
{
    let from = 256 * a;
    record_or::<L>(&area[from..from + 256], i, Record::default())
}

// A record to a place of the page at an address. What follows here lends the part of the area that is a page's
// own to the functions above, each in two lines: a part handed out by one function would need a proof of its
// own that the rest of the area stays.
#[tactic(auto, using(pages::proofs::Write::part_written, pages::proofs::Areas::lent_part))]
pub fn insert_at<L: Layout>(area: &mut [u8], a: usize, at: usize, x: Record) -> Record
    requires { (a < 4096) × (256 * (a + 1) ≤ length area.old) × (at ≤ count_in L.layout (part_at area.old a)) × (well_formed L.layout a (part_at area.old a) ≡ true) }
    ensures value { result ≡ get_or (opened at x (records_in L.layout (part_at area.old a))) (slots_of L.layout) x }
    ensures area_after { let l = area.old in area.new ≡ with_page L.layout l a (take (slots_of L.layout) (opened at x (records_in L.layout (part_at l a)))) }
{
    let from = 256 * a;
    insert::<L>(&mut area[from..from + 256], at, x)
}

// A record to its place in order on the page at an address.
#[tactic(auto, using(pages::proofs::Write::part_written, pages::proofs::Areas::lent_part))]
pub fn push_at<L: Layout>(area: &mut [u8], a: usize, shape: Shape, x: Record) -> Record
    requires { (a < 4096) × (256 * (a + 1) ≤ length area.old) × (well_formed L.layout a (part_at area.old a) ≡ true) }
    ensures value { result ≡ get_or (ins (rank (home_in shape)) x (records_in L.layout (part_at area.old a))) (slots_of L.layout) x }
    ensures area_after { let l = area.old in area.new ≡ with_page L.layout l a (take (slots_of L.layout) (ins (rank (home_in shape)) x (records_in L.layout (part_at l a)))) }
{
    let from = 256 * a;
    push::<L>(&mut area[from..from + 256], shape, x)
}

// The record at a place of the page at an address taken out, and another put to its place.
#[tactic(auto, using(pages::proofs::Write::part_written, pages::proofs::Areas::lent_part))]
pub fn refill_at<L: Layout>(area: &mut [u8], a: usize, shape: Shape, at: usize, x: Record)
    requires { (a < 4096) × (256 * (a + 1) ≤ length area.old) × (well_formed L.layout a (part_at area.old a) ≡ true) }
    ensures { let l = area.old in area.new ≡ with_page L.layout l a (backed (slots_of L.layout) (home_in shape) x (closed at (records_in L.layout (part_at l a)))) }
{
    let from = 256 * a;
    refill::<L>(&mut area[from..from + 256], shape, at, x);
}

// The record at a place of the full page at an address taken out, and another put behind the last.
// The count stays, and no home is worked out.
pub fn exchange_at<L: Layout>(area: &mut [u8], a: usize, at: usize, x: Record)
    requires { (a < 4096) × (256 * (a + 1) ≤ length area.old) × (at < slots_of L.layout) × (count_in L.layout (part_at area.old a) ≡ slots_of L.layout) × (well_formed L.layout a (part_at area.old a) ≡ true) }
    ensures { let l = area.old in area.new ≡ with_page L.layout l a (closed at (records_in L.layout (part_at l a)) ++ (x ∷ [])) }
{
    let from = 256 * a;
    close_slot::<L>(&mut area[from..from + 256], at, Some(x));
}

// The record at a place of the page at an address taken out, if there is one.
#[tactic(auto, using(pages::proofs::Write::part_written, pages::proofs::Areas::lent_part))]
pub fn take_out_at<L: Layout>(area: &mut [u8], a: usize, at: usize)
    requires { (a < 4096) × (256 * (a + 1) ≤ length area.old) × (well_formed L.layout a (part_at area.old a) ≡ true) }
    ensures { let l = area.old in area.new ≡ with_page L.layout l a (closed at (records_in L.layout (part_at l a))) }
{
    let from = 256 * a;
    take_out::<L>(&mut area[from..from + 256], at);
}
