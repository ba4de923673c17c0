// A shrinking past its entry. No home is higher with a page less, so a file that is an image has room,
// and none is counted.
ghost use Rattle.std.specs.Prelude.{◌≡◌, length};
ghost use Rattle.layouts.specs.Layout.{in_use};
ghost use Rattle.state.specs.Done.{done_of};
ghost use Rattle.gates.specs.Gates.{opens};
ghost use Rattle.gates.specs.Steps.Past.{EnteredToShrink};
ghost use Rattle.register.specs.Steps.Past.{shrank_entered};

use crate::remaking;
use layouts::InUse;
use state::{Outcome, State};

pub(crate) fn shrink_entered(state: State, area: &mut [u8]) -> Outcome
    requires { EnteredToShrink in_use state (length area.old) opens }
    ensures { let o = shrank_entered state area.old in (done_of state result ≡ o.done) × (area.new ≡ o.area) }
{
    gates::image_gate::<InUse>(state, &area[..])?;
    let next = state.shrunk();
    let new = remaking::beside(next, state);
    Ok(remaking::remake(state, next, new, area))
}
