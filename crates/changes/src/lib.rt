// Put and remove past the gates: a state in range, and an area of its length. The register judges
// both first; a run that knows the homes of its keys comes here too.
#![tactic(auto)]

ghost use Rattle.std.specs.Prelude.{◌≡◌, true, ◌-◌, ◌*◌, ◌≤◌, ◌<◌, length};
ghost use Rattle.layouts.specs.Layout.{in_use};
ghost use Rattle.state.specs.State.{in_range, homes};
ghost use Rattle.state.specs.Answer.{accepted};
ghost use Rattle.state.specs.Done.{done_of};
ghost use Rattle.changes.specs.Changes.{put_open, remove_open};

use layouts::{InUse, Layout};
use pages::Record;
use pages::view::Pages;
use state::{Accepted, Outcome, Refusal, State};
use walks::Change;

// What a put or a remove answers that carried a change out: a record moved from each page to its
// neighbour, but for one.
fn accepted(change: Change) -> Accepted
    requires { (change.first ≤ change.last) × (change.last < 4096) }
    ensures { result ≡ accepted 0 change.read (change.last - change.first) }
{
    Accepted {
        value: 0,
        read: change.read,
        moved: (change.last - change.first) as u32,
    }
}

// A put past the gate, of a record whose home is known.
pub fn put_open(state: State, area: &mut [u8], home: u64, new: Record) -> Outcome
    requires { (in_range in_use state ≡ true) × (length area.old ≡ 256 * state.cap) × (home ≡ homes state new.key) }
    ensures { let o = put_open in_use state area.old new in (done_of state result ≡ o.done) × (area.new ≡ o.area) }
{
    let shape = state.shape();
    let pages = Pages::new(&area[..], state.cap as usize);
    let change = walks::put::plan_put(pages, shape, home, new)?;
    if state.r == InUse::SLOTS as u32 * (state.cap as u32) {
        return Err(Refusal::NotImage { read: change.read });
    }
    walks::put::pour(area, shape, change, new);
    Ok((state.one_more(), accepted(change)))
}

// A remove past the gate.
pub fn remove_open(state: State, area: &mut [u8], key: u64) -> Outcome
    requires { (in_range in_use state ≡ true) × (length area.old ≡ 256 * state.cap) }
    ensures { let o = remove_open in_use state area.old key in (done_of state result ≡ o.done) × (area.new ≡ o.area) }
{
    let shape = state.shape();
    let pages = Pages::new(&area[..], state.cap as usize);
    let change = walks::remove::plan_remove(pages, shape, key)?;
    if state.r == 0 {
        return Err(Refusal::NotImage { read: change.read });
    }
    walks::remove::draw_back(area, shape, change);
    Ok((state.one_less(), accepted(change)))
}
