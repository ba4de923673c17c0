// A growth past its entry: the whole file is judged while the homes of its records are counted. The
// counts tell where those stand that go to the new page; without these they fill the row, which decides
// whether there is room.
ghost use Rattle.std.specs.Prelude.{◌≡◌, true, [], ◌<◌, ◌≤◌, length};
ghost use Rattle.layouts.specs.Layout.{in_use};
ghost use Rattle.placing.specs.Image.{cat};
ghost use Rattle.placing.specs.Rows.{counts};
ghost use Rattle.pages.specs.Page.{home_for};
ghost use Rattle.pages.specs.Area.{held_from};
ghost use Rattle.state.specs.State.{homes, grown};
ghost use Rattle.state.specs.Done.{done_of};
ghost use Rattle.gates.specs.Gates.{opens, image_gate};
ghost use Rattle.gates.specs.Steps.Past.{OpenImage, EnteredToGrow};
ghost use Rattle.register.specs.Steps.Past.{Judgeable, CountedIf, Parted, grew_entered};
ghost use Rattle.register.specs.Calls.{grown_counts, grow_open, has_room, remade};

use crate::remaking;
use layouts::InUse;
use pages::view::Pages;
use state::{Outcome, Refusal, State};

// Whether the area is the image of the state's records; their homes are counted meanwhile.
fn judge(state: State, area: &[u8], counts: &mut [u32]) -> Result<(), Refusal>
    requires { Judgeable state (length area.now) (length counts.old) }
    ensures value { result ≡ image_gate in_use state area.now }
    ensures counted { CountedIf result state area.now counts.new }
{
    let pages = Pages::new(area, state.cap as usize);
    let shape = state.shape();
    let verdict = survey::survey::<InUse>(pages, shape, counts);
    gates::image_of(state, verdict)
}

// The file with a page more, where its records have room. Those that go to that page stand in the room
// behind each other, as far as it has bytes; where it hasn't enough all records are laid anew.
// The end stands beside the room, since it may lie past it: no slice says how many bytes are wanted.
fn grow_roomy(state: State, area: &mut [u8], row: &[u32], room: &mut [u8], end: usize) -> Outcome
    requires open_image { OpenImage in_use state area.old × (state.p < state.cap) × (row.now ≡ grown_counts in_use state area.old) × (has_room in_use state (grown state) area.old ≡ true) }
    requires parted { Parted state area.old room.old end }
    ensures { let o = remade in_use state (grown state) area.old in (done_of state result ≡ o.done) × (area.new ≡ o.area) }
{
    let next = state.grown();
    if room.len() < end {
        let new = remaking::beside(next, next);
        return Ok(remaking::remake(state, next, new, area));
    }
    let cap = state.cap as usize;
    let shape = next.shape();
    let moved = sliding::slide(area, cap, shape, row, &mut room[..end]);
    Ok((next, remaking::made(cap as u32, moved)))
}

// A growth of a file that is an image, with the row filled: it decides whether there is room.
fn grow_filled(state: State, area: &mut [u8], row: &[u32], room: &mut [u8], end: usize) -> Outcome
    requires open_image { OpenImage in_use state area.old × (state.p < state.cap) × (row.now ≡ grown_counts in_use state area.old) }
    requires parted { Parted state area.old room.old end }
    ensures { let o = grow_open in_use state area.old in (done_of state result ≡ o.done) × (area.new ≡ o.area) }
{
    if !survey::has_room::<InUse>(row) {
        return Err(Refusal::NoRoom {
            read: state.cap as u32,
        });
    }
    grow_roomy(state, area, row, room, end)
}

// A growth of a file that is an image: those that go to the new page are found where the counts say
// that they stand, and the counts without them fill the row.
fn grow_parted(
    state: State,
    area: &mut [u8],
    row: &mut [u32],
    held: &mut [u32],
    room: &mut [u8],
) -> Outcome
    requires open_image { OpenImage in_use state area.old × (state.p < state.cap) × (length row.old ≡ state.cap) × (length room.old ≤ 65536) }
    requires held_value { held.old ≡ counts (home_for (homes state)) (cat (held_from in_use area.old state.cap 0) []) state.cap 0 }
    ensures fact { let o = grow_open in_use state area.old in (done_of state result ≡ o.done) × (area.new ≡ o.area) }
    ensures row_after { row.new ≡ grown_counts in_use state area.old }
{
    let cap = state.cap as usize;
    let next = state.grown();
    let shape = next.shape();
    let end = leaving::leave(&area[..], cap, shape, held, room);
    survey::fill_row(row, &held[..]);
    grow_filled(state, area, &row[..], room, end)
}

// A growth that is not refused before it looks at a page.
fn grow_counting(
    state: State,
    area: &mut [u8],
    row: &mut [u32],
    counts: &mut [u32],
    room: &mut [u8],
) -> Outcome
    requires { EnteredToGrow in_use state (length area.old) (length row.old) opens × (length counts.old ≡ state.cap) × (length room.old ≤ 65536) }
    ensures { let o = grew_entered state area.old row.old in (done_of state result ≡ o.done) × ((area.new ≡ o.area) × (row.new ≡ o.row)) }
{
    judge(state, &area[..], counts)?;
    grow_parted(state, area, row, counts, room)
}

// The counts have memory of their own: the row stays as it is until all pages are judged.
pub(crate) fn grow_entered(state: State, area: &mut [u8], row: &mut [u32]) -> Outcome
    requires { EnteredToGrow in_use state (length area.old) (length row.old) opens }
    ensures { let o = grew_entered state area.old row.old in (done_of state result ≡ o.done) × ((area.new ≡ o.area) × (row.new ≡ o.row)) }
{
    let cap = state.cap as usize;
    let mut counts = [0; 4096];
    let mut room = [0; 2040];
    grow_counting(state, area, row, &mut counts[..cap], &mut room[..])
}
