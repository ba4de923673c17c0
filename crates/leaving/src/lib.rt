// The records that a growth takes to its new page, found where the counts of homes say that they
// stand.
#![tactic(auto)]

ghost use Rattle.std.specs.Prelude.{◌≡◌, [], ◌+◌, ◌-◌, ◌*◌, ◌/◌, ◌^◌, ◌≤◌, ◌<◌, length, take};
ghost use Rattle.numbers.specs.Little.{written};
ghost use Rattle.layouts.specs.Layout.{in_use};
ghost use Rattle.homes.specs.Homes.{first_pages, shape_of, home_in};
ghost use Rattle.homes.specs.Steps.Giving.{Gives, takes_key};
ghost use Rattle.placing.specs.Image.{cat};
ghost use Rattle.placing.specs.Lay.{rank_in, Sorted};
ghost use Rattle.placing.specs.Rows.{counts};
ghost use Rattle.placing.specs.Steps.Packed.{Packed};
ghost use Rattle.pages.specs.Page.{key, home_for};
ghost use Rattle.pages.specs.Area.{held_from};
ghost use Rattle.entries.specs.Steps.Entries.{size, row_bytes};
ghost use Rattle.rebuild.specs.Steps.Rebuild.{slots};
ghost use Rattle.leaving.specs.Steps.Leaving.{leavers, going, entered};

use entries::Entry;
use homes::Shape;
use homes::giving::Giving;
use layouts::{InUse, Layout};

// The records of home a, `held` from place `over` on, of which those that go are written as entries
// to the room from `start` on, as far as it has bytes; the answer is where they end, or would.
fn leave_home(
    area: &[u8],
    giving: Giving,
    a: usize,
    over: usize,
    held: usize,
    room: &mut [u8],
    start: usize,
) -> usize
    requires { (length area.now ≤ 256 * 4096) × (over + held ≤ slots * (length area.now / 256 - a)) × Gives giving × (start ≤ 2 ^ 32) }
    ensures value { result ≡ start + size * length (going (takes_key giving) area.now giving.added a held over) }
    ensures room_after { room.new ≡ entered room.old start (going (takes_key giving) area.now giving.added a held over) }
{
    let added = giving.added as u16;
    let mut at = start;
    for j in over..over + held {
        let page = a + j / InUse::SLOTS;
        let x = slots::record_at::<InUse>(area, page, j % InUse::SLOTS);
        if giving.takes(x.key) {
            if at + InUse::WIDTH <= room.len() {
                let e = Entry {
                    home: added,
                    from: page as u16,
                    held: x,
                };
                entries::put_entry(room, at, e);
            }
            at += InUse::WIDTH;
        }
    }
    at
}

// The records that a growth takes to its new page, in the order in which they stand, as entries in a
// room; the answer is how many bytes they are, which may be more than it has. The counts of homes,
// before the growth, become those after it. `over` records of lower homes lie from page a on. The
// next page that gives is known ahead, so that no page's group is worked out; it gives only if the
// step found it there.
pub fn leave(area: &[u8], cap: usize, shape: Shape, row: &mut [u32], room: &mut [u8]) -> usize
    requires cap_bound { (cap ≤ 4096) × (length area.now ≡ 256 * cap) × (first_pages shape.params < shape.p) × (shape.p ≤ cap) }
    requires fact { let was = home_in (shape_of shape.params (shape.p - 1)) in let ps = held_from in_use area.now cap 0 in Packed (home_for was) slots 0 ps [] × Sorted (rank_in key was) (cat ps []) × (row.old ≡ counts (home_for was) (cat ps []) cap 0) }
    ensures value { result ≡ size * length (leavers (home_in shape) (shape.p - 1) cap area.now) }
    ensures row_after { row.new ≡ counts (home_for (home_in shape)) (cat (held_from in_use area.now cap 0) []) cap 0 }
    ensures room_after { room.new ≡ written room.old 0 (row_bytes (take (length room.old / size) (leavers (home_in shape) (shape.p - 1) cap area.now))) }
{
    let giving = shape.giving();
    let added = (shape.pages() - 1) as usize;
    let old = giving.f as usize;
    let groups = giving.g as usize;
    let mut next = giving.first() as usize;
    let mut over = 0;
    let mut at = 0;
    for a in 0..added {
        let held = row[a] as usize;
        if a == next && next < old {
            let end = leave_home(area, giving, a, over, held, room, at);
            row[a] -= ((end - at) / InUse::WIDTH) as u32;
            at = end;
            next += groups;
        }
        over = (over + held).saturating_sub(InUse::SLOTS);
    }
    row[added] = (at / InUse::WIDTH) as u32;
    at
}
