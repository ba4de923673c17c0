// The pages of an area, to be read: their number travels with the bytes, and what both are to each
// other is known wherever they go. A reader of one page has its address alone to show.
ghost use Rattle.std.specs.Prelude.{◌≡◌, ◌*◌, ◌≤◌, ◌<◌, length};
ghost use Rattle.numbers.specs.Little.{Bytes};
ghost use Rattle.homes.specs.Homes.{home_in};
ghost use Rattle.pages.specs.Page.{records_in, read_page, in_memory, judged};
ghost use Rattle.pages.specs.Area.{part_at};

use crate::{Judged, Page};
use homes::Shape;
use layouts::Layout;

/// So many pages of an area, which are all of it. Naming both fields asks for a proof of that.
#[derive(Clone, Copy)]
pub struct Pages<'a> {
    pub bytes: &'a [u8],
    pub cap: usize,
    ghost few: { cap ≤ 4096 },
    ghost whole: { length bytes.now ≡ 256 * cap },
    // Of a slice alone the check knows it by its type, of one in a struct it does not.
    ghost small: { Bytes bytes.now },
}

impl<'a> Pages<'a> {
    pub fn new(bytes: &'a [u8], cap: usize) -> Self
        requires { (cap ≤ 4096) × (length bytes.now ≡ 256 * cap) }
        ensures bytes { result.bytes.now ≡ bytes.now }
        ensures cap { result.cap ≡ cap }
    {
        Self { bytes, cap }
    }

    /// The bytes of the page at an address.
    pub fn part(self, a: usize) -> &'a [u8; 256]
        requires { a < self.cap }
        ensures { result.now ≡ part_at self.entry.bytes.now a }
    {
        let bytes = self.bytes;
        let Some(part) = bytes[256 * a..].first_chunk::<256>() else {
            unreachable!();
        };
        part
    }

    /// The page at an address, judged.
    pub fn judge<L: Layout>(self, a: usize, shape: Shape) -> Option<Judged>
        requires { a < self.cap }
        ensures { result ≡ judged (home_in shape) (read_page L.layout (home_in shape) a (part_at self.entry.bytes.now a)) }
    {
        crate::judge::<L>(self.part(a), a as u32, shape)
    }

    /// What stands at the places of the records of the page at an address.
    pub fn parse<L: Layout>(self, a: usize) -> Page
        requires { a < self.cap }
        ensures { result ≡ in_memory (records_in L.layout (part_at self.entry.bytes.now a)) }
    {
        crate::parse::<L>(self.part(a))
    }

    /// How many records the page at an address says that it holds.
    #[tactic(auto, using(crate::proofs::Read::length_held))]
    pub fn count<L: Layout>(self, a: usize) -> usize
        requires { a < self.cap }
        ensures { result ≡ length (records_in L.layout (part_at self.entry.bytes.now a)) }
    {
        crate::count_in::<L>(self.part(a))
    }
}
