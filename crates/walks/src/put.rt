// A put in two phases: every page is judged and the pages to change are settled, and then they are
// written.
ghost use Rattle.std.specs.Prelude.{◌≡◌, true, suc, ◌+◌, ◌-◌, ◌*◌, ◌≤◌, ◌<◌, length, take, get_or};
ghost use Rattle.layouts.specs.Layout.{in_use};
ghost use Rattle.homes.specs.Homes.{home_in};
ghost use Rattle.placing.specs.Lay.{ins};
ghost use Rattle.pages.specs.Page.{rank, well_formed};
ghost use Rattle.pages.specs.Places.{ahead};
ghost use Rattle.pages.specs.Area.{part_at, pages_from, with_page};
ghost use Rattle.walks.specs.Walks.{put_walk, writes};
ghost use Rattle.walks.specs.Steps.Plans.{slots, poured, rising, reached, planned, PlanIn, PlacedIn, Formed, FormedIn, RisesIn, FullTo, held};

use crate::{Change, Met};
use homes::Shape;
use layouts::{InUse, Layout};
use pages::Record;
use pages::view::Pages;
use state::Refusal;

// From a full page, whose last record has this home, on to the first page that isn't full.
fn reach(
    pages: Pages<'_>,
    shape: Shape,
    first: usize,
    at: usize,
    seen: u32,
    home: u64,
) -> Result<Change, Refusal>
    requires cap_bound { (first < pages.cap) × (at < 12) × (seen ≤ first + 1) }
    requires full_to { FullTo (home_in shape) pages.bytes.now first home }
    ensures value { result ≡ reached slots (rising (home_in shape) pages.entry.bytes.now first) first at (suc first) seen (pages_from in_use (home_in shape) pages.entry.bytes.now (pages.entry.cap - suc first) (suc first)) }
    ensures within { PlanIn pages.entry.cap result }
{
    let edge = slots::record_at::<InUse>(pages.bytes, first, InUse::SLOTS - 1);
    let mut last_home = home;
    let mut last_key = edge.key;
    let mut rises = true;
    let mut read = seen;
    for a in first + 1..pages.cap {
        read += 1;
        let Some(judged) = pages.judge::<InUse>(a, shape) else {
            return Err(Refusal::Broken {
                page: a as u16,
                read,
            });
        };
        rises = rises & crate::joins(last_home, last_key, judged);
        let has_space = judged.count < InUse::SLOTS;
        if has_space {
            return Ok(Change {
                first,
                at,
                last: a,
                read,
                rises,
            });
        }
        last_home = judged.homes[InUse::SLOTS - 1];
        last_key = judged.keys[InUse::SLOTS - 1];
    }
    Err(Refusal::NoRoom { read })
}

// The first phase of a put, of a record whose home is known.
pub fn plan_put(pages: Pages<'_>, shape: Shape, home: u64, new: Record) -> Result<Change, Refusal>
    requires { (home < pages.cap) × (home ≡ home_in shape new.key) }
    ensures result_value { planned (λ n a i. poured (home_in shape) pages.entry.bytes.now (suc n) a new) result ≡ put_walk in_use (home_in shape) pages.entry.bytes.now pages.entry.cap new }
    ensures within { PlanIn pages.entry.cap result × PlacedIn (home_in shape) pages.entry.bytes.now new.key result × FormedIn pages.entry.bytes.now result × RisesIn (home_in shape) pages.entry.bytes.now result }
{
    let walk = crate::meet_from(pages, shape, home, new.key)?;
    let met = walk.met;
    match met {
        Met::Found {
            page: _,
            slot: _,
            count: _,
            value: old,
            read,
        } => Err(Refusal::again(new.value, old, read)),
        Met::AtEnd { read } => Err(Refusal::NoRoom { read }),
        Met::Ends {
            page,
            at,
            count,
            read,
        } => {
            if count < InUse::SLOTS {
                return Ok(Change {
                    first: page,
                    at,
                    last: page,
                    read,
                    rises: true,
                });
            }
            reach(pages, shape, page, at, read, walk.last)
        }
    }
}

// A record handed on to the page at an address. Where it is known to stand before all records there
// no home is worked out.
fn hand_on(area: &mut [u8], a: usize, shape: Shape, front: bool, x: Record) -> Record
    requires a_bound { (a < 4096) × (256 * (a + 1) ≤ length area.old) × (well_formed in_use a (part_at area.old a) ≡ true) }
    requires a_value { front ≡ true → ahead (rank (home_in shape)) (rank (home_in shape) x) (held area.old a) ≡ 0 }
    ensures value { result ≡ get_or (ins (rank (home_in shape)) x (held area.old a)) slots x }
    ensures area_after { let l = area.old in area.new ≡ with_page in_use l a (take slots (ins (rank (home_in shape)) x (held l a))) }
{
    if front {
        return slots::insert_at::<InUse>(area, a, 0, x);
    }
    slots::push_at::<InUse>(area, a, shape, x)
}

// The second phase of a put: the record goes to its place on the first page, and the last record of
// a full page to its place on the next. The pages are those that the first phase judged, which told
// whether their seams rise.
pub fn pour(area: &mut [u8], shape: Shape, change: Change, new: Record)
    requires first_le_last { (change.first ≤ change.last) × (change.last < 4096) × (256 * (change.last + 1) ≤ length area.old) × (change.at < 12) }
    requires at_value { (change.at ≡ ahead (rank (home_in shape)) (rank (home_in shape) new) (held area.old change.first)) × Formed area.old change.first change.last × (change.rises ≡ rising (home_in shape) area.old change.first change.last) }
    ensures { area.new ≡ writes in_use area.old (poured (home_in shape) area.old (suc (change.last - change.first)) change.first new) }
{
    let Change {
        first,
        at,
        last,
        rises,
        ..
    } = change;
    let mut x = slots::insert_at::<InUse>(area, first, at, new);
    for a in first + 1..last + 1 {
        x = hand_on(area, a, shape, rises, x);
    }
}
