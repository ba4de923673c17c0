// Looks at all pages of an area: whether they are an image, and how many records there are of each
// home.
#![tactic(auto)]

ghost use Rattle.std.specs.Prelude.{◌≡◌, [], ℕ, ◌+◌, ◌≤◌, length, take, get_or, eqb};
ghost use Rattle.homes.specs.Homes.{home_in};
ghost use Rattle.layouts.specs.Layout.{slots_of};
ghost use Rattle.placing.specs.Image.{cat};
ghost use Rattle.placing.specs.Rows.{left_over};
ghost use Rattle.pages.specs.Area.{held_from};
ghost use Rattle.survey.specs.Survey.{surveyed};
ghost use Rattle.survey.specs.Steps.Looks.{unseen, looked, added, tallied};
ghost use Rattle.survey.specs.Steps.Counts.{Counts};

use homes::Shape;
use layouts::Layout;
use pages::view::Pages;
use pages::{Judged, Rank};

// What is told of pages of which none is broken: whether they are an image, and of how many records.
#[derive(Clone, Copy, Debug, PartialEq, Eq)]
pub struct Whole {
    pub image: bool,
    pub records: u32,
}

// What has been seen of the pages so far: whether they may be an image, whether the last of them is
// full, and where the last record stands, if there is any.
#[derive(Clone, Copy)]
pub struct Seen {
    pub image: bool,
    pub full: bool,
    pub last: Option<Rank>,
    pub records: u32,
}

// Before the first page.
fn unseen() -> Seen
    ensures { result ≡ unseen }
{
    Seen {
        image: true,
        full: true,
        last: None,
        records: 0,
    }
}

// What has been seen after page a.
fn look<L: Layout>(seen: Seen, judged: Judged, a: usize) -> Seen
    requires { (judged.count ≤ 12) × (seen.records ≤ 49152) }
    ensures { result ≡ looked L.layout seen a judged.count judged.homes judged.keys }
{
    let records = seen.records + judged.count as u32;
    if judged.count == 0 {
        return Seen {
            full: false,
            records,
            ..seen
        };
    }
    let homes = judged.homes;
    let keys = judged.keys;
    let first = Rank {
        home: homes[0],
        key: keys[0],
    };
    let at_home = seen.full | (a as u64 <= first.home);
    let rising = match seen.last {
        None => true,
        Some(last) => last < first,
    };
    let last = judged.count - 1;
    Seen {
        image: seen.image & at_home & rising,
        full: judged.count == L::SLOTS,
        last: Some(Rank {
            home: homes[last],
            key: keys[last],
        }),
        records,
    }
}

// n more at a place of a row, if it has that place.
fn add(row: &mut [u32], at: usize, n: u32)
    requires { get_or row.old at 0 + n ≤ 4294967295 }
    ensures { row.new ≡ added row.old at n }
{
    if at < row.len() {
        row[at] += n;
    }
}

// The records of a judged page, counted by their homes in a row that has a place for them. Records of
// one home mostly stand side by side, so a run of them is counted first, and goes to the row where it
// ends.
fn tally(judged: Judged, row: &mut [u32])
    requires { (judged.count ≤ 12) × (length judged.homes ≡ 12) × ((k : ℕ) → get_or row.old k 0 ≤ 49152) }
    ensures { row.new ≡ tallied (take judged.count judged.homes) row.old }
{
    if row.is_empty() {
        return;
    }
    let homes = judged.homes;
    let mut seen: usize = 0;
    let mut n: u32 = 0;
    for &home in &homes[..judged.count] {
        if home as usize != seen {
            add(row, seen, n);
            seen = home as usize;
            n = 0;
        }
        n += 1;
    }
    add(row, seen, n);
}

// Judges the pages from 0 upward, and stops at the first broken one, which it tells. Where none is
// broken, the row has the number of records of each home that it has a place for.
pub fn survey<L: Layout>(pages: Pages<'_>, shape: Shape, row: &mut [u32]) -> Result<Whole, usize>
    ensures value { result ≡ surveyed L.layout (home_in shape) pages.entry.bytes.now pages.entry.cap }
    ensures counted { Counts result (home_in shape) (cat (held_from L.layout pages.entry.bytes.now pages.entry.cap 0) []) (length row.old) row.new }
{
    row.fill(0);
    let mut seen = unseen();
    for a in 0..pages.cap {
        let Some(judged) = pages.judge::<L>(a, shape) else {
            return Err(a);
        };
        seen = look::<L>(seen, judged, a);
        tally(judged, row);
    }
    Ok(Whole {
        image: seen.image,
        records: seen.records,
    })
}

// Whether records of these homes find room on pages of a layout, each at its home or higher: what does
// not fit on a page goes on to the next.
pub fn has_room<L: Layout>(row: &[u32]) -> bool
    requires { length row.now ≤ 4096 }
    ensures { result ≡ eqb (left_over (slots_of L.layout) row.now 0) 0 }
{
    let slots = L::SLOTS as u64;
    let mut over: u64 = 0;
    for &count in row {
        over = (over + count as u64).saturating_sub(slots);
    }
    over == 0
}

// Counts into a row that is lent for them.
pub fn fill_row(row: &mut [u32], counts: &[u32])
    requires { length row.old ≡ length counts.now }
    ensures { row.new ≡ counts.now }
{
    row.copy_from_slice(counts);
}
