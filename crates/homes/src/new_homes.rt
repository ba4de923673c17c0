// New homes for the keys of a file, and on which pages the old ones stay.
ghost use Rattle.std.specs.Prelude.{◌≡◌};
ghost use Rattle.homes.specs.Steps.NewHomes.{Usable, keeps_at};

use crate::{Shape, Stage};

// The page that is added or taken away, and the step by which it comes: homes stay on the pages that
// this step leaves alone.
#[derive(Clone, Copy, Debug, PartialEq, Eq)]
pub struct Beside {
    pub last: Stage,
    pub added: u64,
}

// The shape that gives the new homes, and beside which page the old ones are known to stay, if they
// are anywhere. `apart` says from which home on
// records stand out of order; where no home is so high, the last ones do. Sorting is right with any
// number, and quick with a high one that is true.
#[derive(Clone, Copy, Debug, PartialEq, Eq)]
pub struct NewHomes {
    pub shape: Shape,
    pub stays: Option<Beside>,
    pub apart: u16,
}

impl NewHomes {
    // Whether all keys that had their home on a page are known to have it there still.
    #[tactic(auto, unfolding(crate::specs::Steps::NewHomes::keeps_at))]
    pub fn keeps(self, page: u64) -> bool
        requires { Usable self }
        ensures { result ≡ keeps_at self page }
    {
        match self.stays {
            None => false,
            Some(beside) => self.shape.stays(beside, page),
        }
    }
}
