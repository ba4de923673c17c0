// A file made anew in its own area, with a page more or less.
ghost use Rattle.std.specs.Prelude.{◌≡◌, true, ◌<◌, Ok};
ghost use Rattle.layouts.specs.Layout.{in_use};
ghost use Rattle.homes.specs.Homes.{first_pages, shape_of};
ghost use Rattle.homes.specs.Steps.NewHomes.{Usable};
ghost use Rattle.state.specs.Answer.{accepted};
ghost use Rattle.state.specs.Done.{done};
ghost use Rattle.state.specs.State.{in_range};
ghost use Rattle.gates.specs.Steps.Past.{OpenImage};
ghost use Rattle.register.specs.Steps.Past.{besides, Rehomes};
ghost use Rattle.register.specs.Calls.{has_room, remade};

use homes::new_homes::{Beside, NewHomes};
use state::{Accepted, State};

// The homes in the file `next`, which has a page more or less: `larger` is the one of the two with
// that page. They stay on the pages that the step leaves alone by which it comes; records that go to
// it stand apart, and those that leave it stand last.
#[tactic(auto, using(state::proofs::Ranges::in_shape))]
pub(crate) fn beside(next: State, larger: State) -> NewHomes
    requires { (in_range in_use next ≡ true) × (in_range in_use larger ≡ true) × (first_pages larger.params < larger.p) }
    ensures value { result ≡ besides next larger }
    ensures usable { Usable result }
{
    let shape = next.shape();
    let whole = larger.shape();
    let last = whole.last_step();
    let added = larger.p - 1;
    NewHomes {
        shape,
        stays: Some(Beside {
            last,
            added: added as u64,
        }),
        apart: added,
    }
}

// An image made anew for the state `next`, where its records have room.
pub(crate) fn remake(state: State, next: State, new: NewHomes, area: &mut [u8]) -> (State, Accepted)
    requires { OpenImage in_use state area.old × Rehomes state new × (new.shape ≡ shape_of next.params next.p) × (has_room in_use state next area.old ≡ true) }
    ensures { let o = remade in_use state next area.old in (done result.0 (Ok result.1) ≡ o.done) × (area.new ≡ o.area) }
{
    let cap = state.cap as usize;
    let moved = rebuild::rebuild(area, cap, new);
    (next, made(cap as u32, moved))
}

// What is told of a file that was made anew, after so many pages were read.
pub(crate) fn made(read: u32, moved: u32) -> Accepted
    ensures { result ≡ accepted 0 read moved }
{
    Accepted {
        value: 0,
        read,
        moved,
    }
}
