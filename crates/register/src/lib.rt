// The register: request number -> the commit it became, in a lent area of pages. Every call takes
// any numbers and any bytes, and answers.
#![tactic(auto)]

mod growth;
mod remaking;
mod shrinking;

ghost use Rattle.std.specs.Prelude.{◌≡◌, [], ◌*◌, ◌≤◌, length, replicate, Ok};
ghost use Rattle.layouts.specs.Layout.{in_use};
ghost use Rattle.pages.specs.Area.{area_from};
ghost use Rattle.walks.specs.Walks.{find_answer};
ghost use Rattle.state.specs.Done.{done, done_of};
ghost use Rattle.register.specs.Calls.{formatted, found, stored, removed, checked, grew, shrank};

use homes::Params;
use layouts::InUse;
use pages::Record;
use pages::view::Pages;
use state::{Accepted, Answer, Done, Outcome, Refusal, State};
use walks::Met;

// All pages empty.
fn clear_pages(area: &mut [u8], cap: usize)
    requires { (cap ≤ 4096) × (length area.old ≡ 256 * cap) }
    ensures { area.new ≡ area_from in_use 0 (replicate cap []) }
{
    let blank = pages::blank();
    for a in 0..cap {
        pages::store_at::<InUse>(area, a, blank);
    }
}

fn try_format(params: Params, cap: u16, area: &mut [u8]) -> Outcome
    ensures call { (state : State) → let o = formatted in_use state params cap area.old in (done_of state result ≡ o.done) × (area.new ≡ o.area) }
{
    if 65535 < (params.n0 as u32) * (params.n as u32) {
        return Err(Refusal::OutOfRange);
    }
    let fresh = State::new(params, cap);
    gates::enter::<InUse>(fresh, area.len())?;
    clear_pages(area, cap as usize);
    Ok((fresh, Accepted::default()))
}

// An empty file, whatever was held before. It is judged on the numbers that are asked for; a
// refused one leaves the old file and its state.
pub fn format(state: State, params: Params, cap: u16, area: &mut [u8]) -> Done<Answer>
    ensures { let o = formatted in_use state params cap area.old in (result ≡ o.done) × (area.new ≡ o.area) }
{
    Done::of(state, try_format(params, cap, area))
}

// The walk's answer to a find.
fn find_answer(met: Met) -> Answer
    ensures { result ≡ find_answer (Ok met) }
{
    match met {
        Met::Found { value, read, .. } => Ok(Accepted {
            value,
            read,
            moved: 0,
        }),
        Met::Ends { read, .. } => Err(Refusal::Absent { read }),
        Met::AtEnd { read } => Err(Refusal::Absent { read }),
    }
}

fn try_find(state: State, area: &[u8], key: u64) -> Answer
    ensures { done state result ≡ found in_use state area.now key }
{
    gates::enter::<InUse>(state, area.len())?;
    let pages = Pages::new(area, state.cap as usize);
    let met = walks::meet(pages, state.shape(), key)?;
    find_answer(met)
}

// The value of a key.
pub fn find(state: State, area: &[u8], key: u64) -> Done<Answer>
    ensures { result ≡ found in_use state area.now key }
{
    Done {
        state,
        answer: try_find(state, area, key),
    }
}

#[tactic(auto, using(state::proofs::Ranges::in_shape))]
fn try_put(state: State, area: &mut [u8], new: Record) -> Outcome
    ensures { let o = stored in_use state area.old new in (done_of state result ≡ o.done) × (area.new ≡ o.area) }
{
    gates::enter::<InUse>(state, area.len())?;
    let home = state.shape().home(new.key);
    changes::put_open(state, area, home, new)
}

// A record more, unless its key is held.
pub fn put(state: State, area: &mut [u8], new: Record) -> Done<Answer>
    ensures { let o = stored in_use state area.old new in (result ≡ o.done) × (area.new ≡ o.area) }
{
    Done::of(state, try_put(state, area, new))
}

fn try_remove(state: State, area: &mut [u8], key: u64) -> Outcome
    ensures { let o = removed in_use state area.old key in (done_of state result ≡ o.done) × (area.new ≡ o.area) }
{
    gates::enter::<InUse>(state, area.len())?;
    changes::remove_open(state, area, key)
}

// A record less.
pub fn remove(state: State, area: &mut [u8], key: u64) -> Done<Answer>
    ensures { let o = removed in_use state area.old key in (result ≡ o.done) × (area.new ≡ o.area) }
{
    Done::of(state, try_remove(state, area, key))
}

fn try_check(state: State, area: &[u8]) -> Answer
    ensures { done state result ≡ checked in_use state area.now }
{
    gates::check_gate::<InUse>(state, area)?;
    Ok(Accepted {
        read: state.cap as u32,
        ..Accepted::default()
    })
}

// The whole file judged.
pub fn check(state: State, area: &[u8]) -> Done<Answer>
    ensures { result ≡ checked in_use state area.now }
{
    Done {
        state,
        answer: try_check(state, area),
    }
}

#[tactic(auto, unfolding(gates::specs::Gates::grow_gate))]
fn try_grow(state: State, area: &mut [u8], row: &mut [u32]) -> Outcome
    ensures { let o = grew in_use state area.old row.old in (done_of state result ≡ o.done) × ((area.new ≡ o.area) × (row.new ≡ o.row)) }
{
    gates::grow_entry::<InUse>(state, area.len(), row.len())?;
    growth::grow_entered(state, area, row)
}

// One page more, with a lent row of counts, one a page.
pub fn grow(state: State, area: &mut [u8], row: &mut [u32]) -> Done<Answer>
    ensures { let o = grew in_use state area.old row.old in (result ≡ o.done) × ((area.new ≡ o.area) × (row.new ≡ o.row)) }
{
    Done::of(state, try_grow(state, area, row))
}

#[tactic(auto, unfolding(gates::specs::Gates::shrink_gate))]
fn try_shrink(state: State, area: &mut [u8]) -> Outcome
    ensures { let o = shrank in_use state area.old in (done_of state result ≡ o.done) × (area.new ≡ o.area) }
{
    gates::shrink_entry::<InUse>(state, area.len())?;
    shrinking::shrink_entered(state, area)
}

// One page less.
pub fn shrink(state: State, area: &mut [u8]) -> Done<Answer>
    ensures { let o = shrank in_use state area.old in (result ≡ o.done) × (area.new ≡ o.area) }
{
    Done::of(state, try_shrink(state, area))
}
