// A page of records: 256 bytes of a lent area in some layout, and one value in memory.
#![tactic(auto)]

pub mod known;
pub mod slot;
pub mod view;

ghost use Rattle.std.specs.Prelude.{◌≡◌, cond, ◌&&◌, List, [], map, ℕ, ◌+◌, ◌*◌, ◌≤◌, ◌<◌, length, get_or, ltb};
ghost use Rattle.std.proofs.Math.Option.{none, some};
ghost use Rattle.numbers.specs.Fields.{encode, matches};
ghost use Rattle.numbers.specs.Little.{written};
ghost use Rattle.layouts.specs.Layout.{slots_of};
ghost use Rattle.homes.specs.Homes.{home_in};
ghost use Rattle.pages.specs.Page.{key, value, run, head, slots, page_bytes, count_in, records_in, records_from, well_formed, homes_to, rises, read_page, padded, in_memory, judged};
ghost use Rattle.placing.specs.Lay.{ranked};
ghost use Rattle.pages.specs.Steps.Slots.{records_of};
ghost use Rattle.pages.specs.Area.{part_at, with_page};

use homes::Shape;
use layouts::Layout;

// The key is a request number, the value the commit that it became, the run its pay run, which is 0
// where the layout has none. A run has four bytes on a page, and in memory a place like the others.
#[derive(Clone, Copy, Debug, Default, PartialEq, Eq)]
pub struct Record {
    pub key: u64,
    pub value: u64,
    pub run: u64,
}

// Where a record stands in a file: by its home, and at one home by its key.
#[derive(Clone, Copy, Debug, PartialEq, Eq, PartialOrd, Ord)]
pub struct Rank {
    pub home: u64,
    pub key: u64,
}

#[derive(Clone, Copy, Debug, PartialEq, Eq)]
pub struct Page {
    pub count: usize,
    pub keys: [u64; 12],
    pub values: [u64; 12],
    pub runs: [u64; 12],
}

// A page that was judged good: the keys of its records, and their homes.
#[derive(Clone, Copy, Debug, PartialEq, Eq)]
pub struct Judged {
    pub count: usize,
    pub keys: [u64; 12],
    pub homes: [u64; 12],
}

// A page with no record.
#[tactic(auto, unfolding(crate::specs::Page::in_memory))]
pub fn blank() -> Page
    ensures { result ≡ in_memory [] }
{
    Page {
        count: 0,
        keys: [0; 12],
        values: [0; 12],
        runs: [0; 12],
    }
}

// How many records a page says that it holds, of its slots at most.
pub fn count_in<L: Layout>(part: &[u8]) -> usize
    requires { length part.now ≡ 256 }
    ensures { result ≡ count_in L.layout part.now }
{
    let count = numbers::get::<u16>(part, 8) as usize;
    count.min(L::SLOTS)
}

// The keys of a page's records.
#[tactic(auto, using(crate::proofs::Read::row_left, crate::proofs::Read::row_turn, crate::proofs::Read::row_done))]
fn keys_in<L: Layout>(part: &[u8], count: usize) -> [u64; 12]
    requires { (length part.now ≡ 256) × (count ≡ count_in L.layout part.now) }
    ensures { result ≡ padded (map key (records_in L.layout part.now)) }
{
    let mut keys = [0; 12];
    for i in 0..count {
        keys[i] = slot::get::<L>(part, layouts::slot_at::<L>(i)).key;
    }
    keys
}

// The runs of a page's records. Where slots have none nothing is read, and they are zeros.
#[tactic(auto, using(crate::proofs::Read::row_left, crate::proofs::Read::row_turn, crate::proofs::Read::row_done, crate::proofs::Read::no_runs))]
fn runs_in<L: Layout>(part: &[u8], count: usize) -> [u64; 12]
    requires { (length part.now ≡ 256) × (count ≡ count_in L.layout part.now) }
    ensures { result ≡ padded (map run (records_in L.layout part.now)) }
{
    let mut runs = [0; 12];
    if !L::HAS_RUN {
        return runs;
    }
    for i in 0..count {
        runs[i] = slot::get_run::<L>(part, layouts::slot_at::<L>(i));
    }
    runs
}

// What any 256 bytes hold at the places of a page's records. Nothing is judged.
#[tactic(auto, using(crate::proofs::Read::row_left, crate::proofs::Read::row_turn, crate::proofs::Read::row_done, crate::proofs::Read::parsed))]
pub fn parse<L: Layout>(part: &[u8]) -> Page
    requires { length part.now ≡ 256 }
    ensures { result ≡ in_memory (records_in L.layout part.now) }
{
    let count = count_in::<L>(part);
    let runs = runs_in::<L>(part, count);
    let mut keys = [0; 12];
    let mut values = [0; 12];
    for i in 0..count {
        let x = slot::get::<L>(part, layouts::slot_at::<L>(i));
        keys[i] = x.key;
        values[i] = x.value;
    }
    Page {
        count,
        keys,
        values,
        runs,
    }
}

fn head_exact<L: Layout>(part: &[u8], address: u32, count: usize) -> bool
    requires { length part.now ≡ 256 }
    ensures { result ≡ matches part.now 0 (head L.layout address count) }
{
    let length = numbers::get::<u16>(part, 0) == 256;
    let kind = numbers::get::<u16>(part, 2) == L::KIND;
    let place = numbers::get::<u32>(part, 4) == address;
    let used = numbers::get::<u16>(part, 8) as usize == count;
    let zero = numbers::get::<u16>(part, 10) == 0;
    let zeros = numbers::get::<u32>(part, 12) == 0;
    length & (kind & (place & (used & (zero & zeros))))
}

#[tactic(auto, using(crate::proofs::Read::slots_start))]
fn slots_formed<L: Layout>(part: &[u8], count: usize) -> bool
    requires { length part.now ≡ 256 }
    ensures { result ≡ matches part.now 16 (slots L.layout (slots_of L.layout) (records_from L.layout count 0 part.now)) }
{
    for i in 0..L::SLOTS {
        if !slot::formed::<L>(part, layouts::slot_at::<L>(i), i < count) {
            return false;
        }
    }
    true
}

#[tactic(auto, using(crate::proofs::Read::no_head, crate::proofs::Read::slots_decide))]
fn well_formed<L: Layout>(part: &[u8], address: u32) -> bool
    requires { length part.now ≡ 256 }
    ensures { result ≡ well_formed L.layout address part.now }
{
    let count = count_in::<L>(part);
    if !head_exact::<L>(part, address, count) {
        return false;
    }
    slots_formed::<L>(part, count)
}

// The homes of a page's keys, worked out together. A page without records has none.
pub fn homes_of(count: usize, keys: [u64; 12], shape: Shape) -> [u64; 12]
    requires { count ≤ 12 }
    ensures { (i : ℕ) → i < count → get_or result i 0 ≡ home_in shape (get_or keys i 0) }
{
    if count == 0 {
        return [0; 12];
    }
    homes::lanes::homes(shape, keys)
}

// The rules about homes and order, by the keys of a page's records. A home is worked out once, and
// kept.
fn judge_keys(count: usize, keys: [u64; 12], address: u64, shape: Shape) -> Option<Judged>
    requires { count ≤ 12 }
    ensures { (rs : List Record) → count ≡ length rs → keys ≡ padded (map key rs) → result ≡ judged (home_in shape) (cond (homes_to (home_in shape) address rs && rises (home_in shape) rs) (some rs) none) }
{
    let found = homes_of(count, keys, shape);
    let mut homes = [0; 12];
    let mut last = Rank { home: 0, key: 0 };
    for i in 0..count {
        let here = Rank {
            home: found[i],
            key: keys[i],
        };
        let low = here.home <= address;
        let next = (i == 0) | (last < here);
        if !(low & next) {
            return None;
        }
        homes[i] = here.home;
        last = here;
    }
    Some(Judged { count, keys, homes })
}

// A page's part of the area, judged by the page rules: none, if it breaks one. Its keys are read
// first: they are then at hand where their homes are worked out, twelve at once.
#[tactic(auto, using(crate::proofs::Judging::judged_unformed, crate::proofs::Judging::judged_formed, crate::proofs::Read::length_held))]
pub fn judge<L: Layout>(part: &[u8], address: u32, shape: Shape) -> Option<Judged>
    requires { length part.now ≡ 256 }
    ensures { result ≡ judged (home_in shape) (read_page L.layout (home_in shape) address part.now) }
{
    let count = count_in::<L>(part);
    let keys = keys_in::<L>(part, count);
    if !well_formed::<L>(part, address) {
        return None;
    }
    judge_keys(count, keys, address as u64, shape)
}

fn put_head<L: Layout>(part: &mut [u8], address: u32, count: usize)
    requires { (length part.old ≡ 256) × (count ≤ 12) }
    ensures { part.new ≡ written part.old 0 (encode (head L.layout address count)) }
{
    numbers::put::<u16>(part, 0, 256);
    numbers::put(part, 2, L::KIND);
    numbers::put(part, 4, address);
    numbers::put(part, 8, count as u16);
    numbers::put::<u16>(part, 10, 0);
    numbers::put::<u32>(part, 12, 0);
}

// A page to its part of the area. A layout without runs keeps none.
#[tactic(auto, using(crate::proofs::Write::slots_done))]
pub fn store<L: Layout>(part: &mut [u8], address: u32, page: Page)
    requires { (length part.old ≡ 256) × (page.count ≤ 12) × (page ≡ in_memory (records_of page)) }
    ensures { part.new ≡ page_bytes L.layout address (records_of page) }
{
    put_head::<L>(part, address, page.count);
    for i in 0..L::SLOTS {
        let x = if i < page.count {
            Some(Record {
                key: page.keys[i],
                value: page.values[i],
                run: page.runs[i],
            })
        } else {
            None
        };
        slot::put::<L>(part, layouts::slot_at::<L>(i), x);
    }
}

// The page at an address, judged.
#[tactic(auto, using(crate::proofs::Areas::lent_part))]
pub fn judge_at<L: Layout>(area: &[u8], a: usize, shape: Shape) -> Option<Judged>
    requires { (a < 4096) × (256 * (a + 1) ≤ length area.now) }
    ensures { result ≡ judged (home_in shape) (read_page L.layout (home_in shape) a (part_at area.now a)) }
{
    let at = 256 * a;
    judge::<L>(&area[at..at + 256], a as u32, shape)
}

// What any bytes hold at the places of the records of the page at an address.
#[tactic(auto, unfolding(crate::specs::Area::part_at))]
pub fn parse_at<L: Layout>(area: &[u8], a: usize) -> Page
    requires { (a < 4096) × (256 * (a + 1) ≤ length area.now) }
    ensures { result ≡ in_memory (records_in L.layout (part_at area.now a)) }
{
    let at = 256 * a;
    parse::<L>(&area[at..at + 256])
}

// How many records the page at an address says that it holds.
#[tactic(auto, using(crate::proofs::Read::length_held), unfolding(crate::specs::Area::part_at))]
pub fn count_at<L: Layout>(area: &[u8], a: usize) -> usize
    requires { (a < 4096) × (256 * (a + 1) ≤ length area.now) }
    ensures { result ≡ length (records_in L.layout (part_at area.now a)) }
{
    let at = 256 * a;
    count_in::<L>(&area[at..at + 256])
}

// A page to its place in the area: the part that is its own is lent on.
#[tactic(auto, using(crate::proofs::Write::part_written))]
pub fn store_at<L: Layout>(area: &mut [u8], a: usize, page: Page)
    requires { (a < 4096) × (256 * (a + 1) ≤ length area.old) × (page.count ≤ 12) × (page ≡ in_memory (records_of page)) }
    ensures { area.new ≡ with_page L.layout area.old a (records_of page) }
{
    let at = 256 * a;
    store::<L>(&mut area[at..at + 256], a as u32, page);
}
