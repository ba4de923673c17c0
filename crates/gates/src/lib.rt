// What a call refuses before it does anything.
#![tactic(auto)]

ghost use Rattle.std.specs.Prelude.{◌≡◌, true, ℕ, ◌*◌, ◌<◌, length, Err};
ghost use Rattle.state.specs.State.{in_range};
ghost use Rattle.gates.specs.Gates.{gate_of, image_of, image_gate, check_gate, row_entry, merge_gate, grow_entry, shrink_entry};
ghost use Rattle.gates.specs.Steps.Past.{OpenFor, Checked, EnteredWithRow, OpenWithRow, EnteredToGrow, EnteredToShrink};

use layouts::Layout;
use pages::view::Pages;
use state::{Refusal, State};
use survey::Whole;

// The refusals that need no page: a number out of range, an area of another length.
#[tactic(auto, unfolding(crate::specs::Gates::gate_of))]
pub fn enter<L: Layout>(state: State, length: usize) -> Result<(), Refusal>
    ensures value { result ≡ gate_of L.layout state length }
    ensures within { OpenFor L.layout state length result }
{
    if !state.in_range(L::NUMBER) {
        return Err(Refusal::OutOfRange);
    }
    if length != 256 * (state.cap as usize) {
        return Err(Refusal::WrongArea);
    }
    Ok(())
}

// What a look at all pages comes to.
pub fn image_of(state: State, verdict: Result<Whole, usize>) -> Result<(), Refusal>
    requires { (a : ℕ) → verdict ≡ Err a → a < 4096 }
    ensures { result ≡ image_of state verdict }
{
    let whole = match verdict {
        Err(page) => {
            return Err(Refusal::Broken {
                page: page as u16,
                read: page as u32 + 1,
            });
        }
        Ok(whole) => whole,
    };
    if whole.image & (whole.records == state.r) {
        return Ok(());
    }
    Err(Refusal::NotImage {
        read: state.cap as u32,
    })
}

// Whether the area is the image of the records that the state tells of.
pub fn image_gate<L: Layout>(state: State, area: &[u8]) -> Result<(), Refusal>
    requires { (in_range L.layout state ≡ true) × (length area.now ≡ 256 * state.cap) }
    ensures { result ≡ image_gate L.layout state area.now }
{
    let shape = state.shape();
    let pages = Pages::new(area, state.cap as usize);
    let verdict = survey::survey::<L>(pages, shape, &mut []);
    image_of(state, verdict)
}

// What a check refuses: it enters, and looks at all pages.
#[tactic(auto, using(crate::proofs::Gating::shut_refuses, crate::proofs::Gating::whole), unfolding(crate::specs::Gates::check_gate))]
pub fn check_gate<L: Layout>(state: State, area: &[u8]) -> Result<(), Refusal>
    ensures value { result ≡ check_gate L.layout state area.now }
    ensures within { Checked L.layout state area.now result }
{
    enter::<L>(state, area.len())?;
    image_gate::<L>(state, area)
}

// What a call refuses before it looks at a page that is lent an area of m bytes and a row of n counts.
#[tactic(auto, using(crate::proofs::Gating::shut_refuses))]
fn row_entry<L: Layout>(state: State, m: usize, n: usize) -> Result<(), Refusal>
    ensures value { result ≡ row_entry L.layout state m n }
    ensures within { EnteredWithRow L.layout state m n result }
{
    enter::<L>(state, m)?;
    if n != state.cap as usize {
        return Err(Refusal::WrongRow);
    }
    Ok(())
}

// What a merge refuses of the file that it goes into, with a row of n counts.
#[tactic(auto, using(crate::proofs::Gating::whole), unfolding(crate::specs::Gates::merge_gate))]
pub fn merge_gate<L: Layout>(state: State, area: &[u8], n: usize) -> Result<(), Refusal>
    ensures value { result ≡ merge_gate L.layout state area.now n }
    ensures within { OpenWithRow L.layout state area.now n result }
{
    row_entry::<L>(state, area.len(), n)?;
    image_gate::<L>(state, area)
}

// What a growth refuses before it looks at a page.
#[tactic(auto, using(crate::proofs::Gating::past_entry))]
pub fn grow_entry<L: Layout>(state: State, m: usize, n: usize) -> Result<(), Refusal>
    ensures value { result ≡ grow_entry L.layout state m n }
    ensures within { EnteredToGrow L.layout state m n result }
{
    row_entry::<L>(state, m, n)?;
    if state.p == state.cap {
        return Err(Refusal::AtCap);
    }
    Ok(())
}

// What a shrinking refuses before it looks at a page, with an area of m bytes.
#[tactic(auto, using(crate::proofs::Gating::start_fits, crate::proofs::Gating::past_start))]
pub fn shrink_entry<L: Layout>(state: State, m: usize) -> Result<(), Refusal>
    ensures value { result ≡ shrink_entry L.layout state m }
    ensures within { EnteredToShrink L.layout state m result }
{
    enter::<L>(state, m)?;
    if state.p == state.params.n0 * state.params.n {
        return Err(Refusal::AtStart);
    }
    Ok(())
}
