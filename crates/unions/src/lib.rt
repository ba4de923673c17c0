// The records of two files together: whether they clash, and how many have each home in one of the two.
#![tactic(auto)]

pub mod laying;

ghost use Rattle.std.specs.Prelude.{◌≡◌, map, ℕ, ◌+◌, ◌≤◌, ◌<◌, length, get_or, replicate, not};
ghost use Rattle.std.proofs.Math.Option.{none};
ghost use Rattle.homes.specs.Homes.{Ready, home_in};
ghost use Rattle.placing.specs.Lay.{one};
ghost use Rattle.placing.specs.Rows.{counts, is_there};
ghost use Rattle.pages.specs.Page.{key, home_for};
ghost use Rattle.pages.specs.Steps.Slots.{records_of};
ghost use Rattle.survey.specs.Steps.Looks.{tallied};
ghost use Rattle.lookups.specs.Steps.Told.{held_by};
ghost use Rattle.sites.specs.Held.{same};
ghost use Rattle.sites.specs.Steps.Sites.{on_pages, Walkable, look};
ghost use Rattle.two_sets.specs.Steps.Lowest.{lower, lower_if, lowest_in};
ghost use Rattle.unions.specs.Steps.Both.{clash_by, Sifts, lacking_on, both_of};

use homes::Shape;
use layouts::InUse;
use pages::{Page, Record};
use sites::Site;

// Those of a page's records that another file lacks, with their homes, and the lowest key so far
// that both hold with two values.
#[derive(Clone, Copy)]
pub struct Sifted {
    pub page: Page,
    pub homes: [u64; 12],
    pub clash: Option<u64>,
}

// The lower of a key and the lowest clash so far.
fn lower(low: Option<u64>, key: u64) -> Option<u64>
    ensures { clash_by result ≡ lower key (clash_by low) }
{
    match low {
        None => Some(key),
        Some(lowest) => Some(key.min(lowest)),
    }
}

// The lowest key with two values once a record is seen too, by what the other file holds at its key.
fn weigh(held: Option<Record>, x: Record, low: Option<u64>) -> Option<u64>
    ensures { clash_by result ≡ lower_if key same x (held_by held) (clash_by low) }
{
    match held {
        Some(held) if x.value != held.value => lower(low, x.key),
        _ => low,
    }
}

// 1 where nothing was found.
fn absent(held: Option<Record>) -> usize
    ensures { result ≡ one (not (is_there (held_by held))) }
{
    usize::from(held.is_none())
}

// A page's records, each sought in another file, where it lives at `there`; `here` are their homes in their own.
// Each is written behind those that were kept, and the next goes over it unless it is kept too.
pub fn sift(
    page: Page,
    here: [u64; 12],
    there: [u64; 12],
    other: &[u8],
    site: Site,
    low: Option<u64>,
) -> Sifted
    requires { (page.count ≤ 12) × Walkable other.now site × ((i : ℕ) → i < page.count → get_or there i 0 ≡ home_in site.shape (get_or page.keys i 0)) }
    ensures { Sifts (look site other.now) page here low result }
{
    let mut keys = [0; 12];
    let mut values = [0; 12];
    let mut runs = [0; 12];
    let mut homes = [0; 12];
    let mut n = 0;
    let mut clash = low;
    for i in 0..page.count {
        let x = Record {
            key: page.keys[i],
            value: page.values[i],
            run: page.runs[i],
        };
        let held = sites::seek(other, site, there[i], x.key);
        clash = weigh(held, x, clash);
        keys[n] = x.key;
        values[n] = x.value;
        runs[n] = x.run;
        homes[n] = here[i];
        n += absent(held);
    }
    let page = Page {
        count: n,
        keys,
        values,
        runs,
    };
    Sifted { page, homes, clash }
}

// The records of a page, whose homes under a shape these are, counted by them.
fn add_homes(row: &mut [u32], page: Page, homes: [u64; 12], shape: Shape)
    requires count_bound { (page.count ≤ 12) × Ready shape × (shape.p ≤ length row.old) × (length row.old ≤ 4096) × ((k : ℕ) → get_or row.old k 0 ≤ 1000000) }
    requires by_index { (i : ℕ) → i < page.count → get_or homes i 0 ≡ home_in shape (get_or page.keys i 0) }
    ensures { row.new ≡ tallied (map (home_for (home_in shape)) (records_of page)) row.old }
{
    for i in 0..page.count {
        row[homes[i] as usize] += 1;
    }
}

// The records of an area that the other file lacks, counted by their homes; the answer is the lowest key
// that both hold with two values, if there is one.
fn tally_lacking(row: &mut [u32], area: &[u8], here: Site, other: &[u8], there: Site) -> Option<u64>
    requires { Walkable area.now here × Walkable other.now there × (length row.old ≡ here.cap) × ((k : ℕ) → get_or row.old k 0 ≤ 100000) }
    ensures result_value { clash_by result ≡ lowest_in key same (look there other.now) (on_pages here area.now) none }
    ensures row_after { row.new ≡ tallied (map (home_for (home_in here.shape)) (lacking_on here area.now there other.now)) row.old }
    ensures few { (k : ℕ) → get_or row.new k 0 ≤ get_or row.old k 0 + 49152 }
{
    let mine = here.shape();
    let theirs = there.shape();
    let mut clash = None;
    for a in 0..here.cap() {
        let page = pages::parse_at::<InUse>(area, a);
        let homes = sites::homes_under(area, a, page, mine, mine);
        let sought = sites::homes_under(area, a, page, mine, theirs);
        let sifted = sift(page, homes, sought, other, there, clash);
        add_homes(row, sifted.page, sifted.homes, mine);
        clash = sifted.clash;
    }
    clash
}

// All records of a file counted by their homes under a shape. It shares the call of `add_homes` with the one
// above: a closure for the rest, with the clash to carry, would be no plainer.
fn tally_all(row: &mut [u32], area: &[u8], site: Site, shape: Shape)
    requires { Walkable area.now site × Ready shape × (shape.p ≤ length row.old) × (length row.old ≤ 4096) × ((k : ℕ) → get_or row.old k 0 ≤ 100000) }
    ensures { row.new ≡ tallied (map (home_for (home_in shape)) (on_pages site area.now)) row.old }
{
    let own = site.shape();
    for a in 0..site.cap() {
        let page = pages::parse_at::<InUse>(area, a);
        let homes = sites::homes_under(area, a, page, own, shape);
        add_homes(row, page, homes, shape);
    }
}

// The records of both files, each once, counted in a row of zeros by their homes in the first; the answer is
// the lowest key that both hold with two values, if there is one.
pub fn tally(row: &mut [u32], area: &[u8], here: Site, other: &[u8], there: Site) -> Option<u64>
    requires { Walkable area.now here × Walkable other.now there × (row.old ≡ replicate here.cap 0) }
    ensures result_value { clash_by result ≡ lowest_in key same (look there other.now) (on_pages here area.now) none }
    ensures row_after { row.new ≡ counts (home_for (home_in here.shape)) (both_of here area.now there other.now) here.cap 0 }
{
    let clash = tally_lacking(row, area, here, other, there);
    tally_all(row, other, there, here.shape());
    clash
}
