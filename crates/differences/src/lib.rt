// What differs between the records of one file and another file: a pass that seeks each record in the
// other, counts those that differ and writes entries of them where there is room.
#![tactic(auto)]

pub mod unpacking;

ghost use Rattle.std.specs.Prelude.{◌≡◌, [], ◌∷◌, ◌+◌, ◌*◌, ◌≤◌, length};
ghost use Rattle.layouts.specs.Layout.{in_use};
ghost use Rattle.homes.specs.Homes.{home_in};
ghost use Rattle.placing.specs.Image.{cat};
ghost use Rattle.pages.specs.Page.{Record, key};
ghost use Rattle.pages.specs.Steps.Slots.{records_of};
ghost use Rattle.pages.specs.Area.{held_from};
ghost use Rattle.lookups.specs.Steps.Told.{held_by};
ghost use Rattle.sites.specs.Steps.Sites.{Walkable, look};
ghost use Rattle.differences.specs.Steps.Passes.{of_one, kind_in, tally_of_one, fitted, entries_of, Passes};

use entries::Entry;
use layouts::{InUse, Layout};
use pages::{Page, Record};
use sites::{Site, Which};

// How a record differs: the other file lacks its key, or holds it with another value.
#[derive(Clone, Copy, Debug, PartialEq, Eq)]
pub enum Difference {
    OnlyFirst,
    OnlySecond,
    Unlike,
}

// The kind of the list's record.
impl From<Difference> for u16 {
    ghost use Rattle.std.specs.Prelude.{◌≡◌};
    ghost use Rattle.differences.specs.Steps.Passes.{number_of};

    ghost from_gives = { λ difference kind. kind ≡ number_of difference };

    fn from(difference: Difference) -> Self {
        match difference {
            Difference::OnlyFirst => 769,
            Difference::OnlySecond => 770,
            Difference::Unlike => 771,
        }
    }
}

// How many records the other file lacks, and how many it holds with another value.
#[derive(Clone, Copy, Debug, PartialEq, Eq)]
pub struct Tally {
    pub absent: u32,
    pub unlike: u32,
}

// The difference that a record of a file makes, by what the other holds at its key. A key of both
// counts once, with the first.
fn difference_of(held: Option<Record>, which: Which, x: Record) -> Option<Difference>
    ensures { result ≡ kind_in (of_one which x (held_by held)) }
{
    match (held, which) {
        (None, Which::First) => Some(Difference::OnlyFirst),
        (None, Which::Second) => Some(Difference::OnlySecond),
        (Some(_), Which::Second) => None,
        (Some(held), Which::First) => {
            let is_unlike = x.value != held.value;
            if is_unlike {
                Some(Difference::Unlike)
            } else {
                None
            }
        }
    }
}

// The entry of a record that differs, where it has room.
#[tactic(auto, unfolding(crate::specs::Steps::Passes::fitted))]
fn put_marked(row: &mut [u8], at: usize, difference: Option<Difference>, x: Record)
    requires { at ≤ 4194304 }
    ensures { row.new ≡ fitted row.old at (entries_of difference x) }
{
    let Some(difference) = difference else {
        return;
    };
    if row.len() < at + InUse::WIDTH {
        return;
    }
    let e = Entry {
        home: InUse::WIDTH as u16,
        from: u16::from(difference),
        held: x,
    };
    entries::put_entry(row, at, e);
}

// The tally of one record.
fn tally_of_one(difference: Option<Difference>) -> Tally
    ensures { result ≡ tally_of_one difference }
{
    match difference {
        None => Tally {
            absent: 0,
            unlike: 0,
        },
        Some(Difference::OnlyFirst | Difference::OnlySecond) => Tally {
            absent: 1,
            unlike: 0,
        },
        Some(Difference::Unlike) => Tally {
            absent: 0,
            unlike: 1,
        },
    }
}

// One record, which lives at `home` in the other file.
fn pass_one(
    row: &mut [u8],
    at: usize,
    x: Record,
    home: u64,
    other: &[u8],
    site: Site,
    which: Which,
) -> Tally
    requires { Walkable other.now site × (home ≡ home_in site.shape (key x)) × (at ≤ 4194304) }
    ensures { Passes which (look site other.now) (x ∷ []) row.old at result row.new }
{
    let held = sites::seek(other, site, home, x.key);
    let difference = difference_of(held, which, x);
    put_marked(row, at, difference, x);
    tally_of_one(difference)
}

// The records of a page.
fn pass_page(row: &mut [u8], at: usize, page: Page, other: &[u8], site: Site, which: Which) -> Tally
    requires { (page.count ≤ 12) × Walkable other.now site × (at ≤ 4000000) }
    ensures { Passes which (look site other.now) (records_of page) row.old at result row.new }
{
    let homes = pages::homes_of(page.count, page.keys, site.shape());
    let mut absent: u32 = 0;
    let mut unlike: u32 = 0;
    for i in 0..page.count {
        let x = Record {
            key: page.keys[i],
            value: page.values[i],
            run: page.runs[i],
        };
        let to = at + InUse::WIDTH * (absent as usize + unlike as usize);
        let t = pass_one(row, to, x, homes[i], other, site, which);
        absent += t.absent;
        unlike += t.unlike;
    }
    Tally { absent, unlike }
}

// All records of a file.
pub fn pass(
    row: &mut [u8],
    at: usize,
    area: &[u8],
    cap: usize,
    other: &[u8],
    site: Site,
    which: Which,
) -> Tally
    requires { (cap ≤ 4096) × (length area.now ≡ 256 * cap) × Walkable other.now site × (at ≤ 2000000) }
    ensures { Passes which (look site other.now) (cat (held_from in_use area.now cap 0) []) row.old at result row.new }
{
    let mut absent: u32 = 0;
    let mut unlike: u32 = 0;
    for a in 0..cap {
        let page = pages::parse_at::<InUse>(area, a);
        let to = at + InUse::WIDTH * (absent as usize + unlike as usize);
        let t = pass_page(row, to, page, other, site, which);
        absent += t.absent;
        unlike += t.unlike;
    }
    Tally { absent, unlike }
}
