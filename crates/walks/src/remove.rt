// A remove in two phases, as a put goes.
ghost use Rattle.std.specs.Prelude.{◌≡◌, true, suc, ◌+◌, ◌-◌, ◌*◌, ◌≤◌, ◌<◌, length};
ghost use Rattle.layouts.specs.Layout.{in_use};
ghost use Rattle.homes.specs.Homes.{home_in};
ghost use Rattle.pages.specs.Page.{well_formed};
ghost use Rattle.pages.specs.Places.{closed};
ghost use Rattle.pages.specs.Steps.Slots.{backed};
ghost use Rattle.pages.specs.Area.{part_at, pages_from, with_page};
ghost use Rattle.walks.specs.Walks.{remove_walk, writes};
ghost use Rattle.walks.specs.Steps.Plans.{slots, held, first_of, seam, drawn, rising, reached_back, planned, PlanIn, Formed, FormedIn, RisesIn, FullTo};

use crate::{Change, Met};
use homes::Shape;
use layouts::{InUse, Layout};
use pages::view::Pages;
use state::Refusal;

// From a full page, whose last record has this home, on, page by page, while the next page's first
// record has a home no higher than the page before it.
fn reach_back(
    pages: Pages<'_>,
    shape: Shape,
    first: usize,
    at: usize,
    seen: u32,
    home: u64,
) -> Result<Change, Refusal>
    requires cap_bound { (first < pages.cap) × (at < 12) × (seen ≤ first + 1) }
    requires full_to { FullTo (home_in shape) pages.bytes.now first home }
    ensures value { result ≡ reached_back slots (rising (home_in shape) pages.entry.bytes.now first) (home_in shape) first at first seen (pages_from in_use (home_in shape) pages.entry.bytes.now (pages.entry.cap - suc first) (suc first)) }
    ensures within { PlanIn pages.entry.cap result }
{
    let edge = slots::record_at::<InUse>(pages.bytes, first, InUse::SLOTS - 1);
    let mut last_home = home;
    let mut last_key = edge.key;
    let mut rises = true;
    let mut read = seen;
    // The last page that the remove changes is the answer, so the loop counts it.
    let mut a = first;
    while a + 1 < pages.cap {
        read += 1;
        let Some(judged) = pages.judge::<InUse>(a + 1, shape) else {
            return Err(Refusal::Broken {
                page: (a + 1) as u16,
                read,
            });
        };
        let homes = judged.homes;
        if (judged.count == 0) | (a < homes[0] as usize) {
            break;
        }
        a += 1;
        rises = rises & crate::joins(last_home, last_key, judged);
        if judged.count < InUse::SLOTS {
            break;
        }
        last_home = homes[InUse::SLOTS - 1];
        last_key = judged.keys[InUse::SLOTS - 1];
    }
    Ok(Change {
        first,
        at,
        last: a,
        read,
        rises,
    })
}

// The first phase of a remove.
pub fn plan_remove(pages: Pages<'_>, shape: Shape, key: u64) -> Result<Change, Refusal>
    requires { shape.p ≤ pages.cap }
    ensures result_value { planned (drawn (home_in shape) pages.entry.bytes.now) result ≡ remove_walk in_use (home_in shape) pages.entry.bytes.now pages.entry.cap key }
    ensures within { PlanIn pages.entry.cap result × FormedIn pages.entry.bytes.now result × RisesIn (home_in shape) pages.entry.bytes.now result }
{
    let walk = crate::meet_from(pages, shape, shape.home(key), key)?;
    let met = walk.met;
    match met {
        Met::Found {
            page,
            slot,
            count,
            value: _,
            read,
        } => {
            if count < InUse::SLOTS {
                return Ok(Change {
                    first: page,
                    at: slot,
                    last: page,
                    read,
                    rises: true,
                });
            }
            reach_back(pages, shape, page, slot, read, walk.last)
        }
        Met::Ends {
            page: _,
            at: _,
            count: _,
            read,
        } => Err(Refusal::Absent { read }),
        Met::AtEnd { read } => Err(Refusal::Absent { read }),
    }
}

// The record in a slot of a page taken out, and the first record of the next page put to its place.
// Where it is known to stand behind all records here no home is worked out.
fn fill_up(area: &mut [u8], a: usize, shape: Shape, behind: bool, slot: usize)
    requires a_bound { (a + 1 < 4096) × (256 * (a + 2) ≤ length area.old) × (slot < 12) × (well_formed in_use a (part_at area.old a) ≡ true) }
    requires a_value { behind ≡ true → seam (home_in shape) (held area.old a) (held area.old (a + 1)) ≡ true }
    ensures { let l = area.old in area.new ≡ with_page in_use l a (backed slots (home_in shape) (first_of (held l (a + 1))) (closed slot (held l a))) }
{
    let next = slots::record_at::<InUse>(&area[..], a + 1, 0);
    if behind {
        slots::exchange_at::<InUse>(area, a, slot, next);
        return;
    }
    slots::refill_at::<InUse>(area, a, shape, slot, next);
}

// The second phase of a remove: the slots are closed up, and each page but the last takes the first
// record of the next. The pages are those that the first phase judged, which told whether their
// seams rise.
pub fn draw_back(area: &mut [u8], shape: Shape, change: Change)
    requires first_le_last { (change.first ≤ change.last) × (change.last < 4096) × (256 * (change.last + 1) ≤ length area.old) × (change.at < 12) }
    requires formed { Formed area.old change.first change.last × (change.rises ≡ rising (home_in shape) area.old change.first change.last) }
    ensures { area.new ≡ writes in_use area.old (drawn (home_in shape) area.old (change.last - change.first) change.first change.at) }
{
    let Change {
        first,
        at,
        last,
        rises,
        ..
    } = change;
    let mut slot = at;
    for a in first..last {
        fill_up(area, a, shape, rises, slot);
        slot = 0;
    }
    slots::take_out_at::<InUse>(area, last, slot);
}
