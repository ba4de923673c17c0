// A file that has passed its check, as calls on two files take it: what a search needs of it, and how the
// pages read of two files are counted.
#![tactic(auto)]

ghost use Rattle.std.specs.Prelude.{◌≡◌, true, ℕ, ◌+◌, ◌*◌, ◌≤◌, ◌<◌, length, get_or};
ghost use Rattle.layouts.specs.Layout.{in_use};
ghost use Rattle.homes.specs.Homes.{home_in};
ghost use Rattle.pages.specs.Page.{records_in, in_memory};
ghost use Rattle.pages.specs.Area.{part_at};
ghost use Rattle.pages.specs.Steps.Known.{KnownHere};
ghost use Rattle.lookups.specs.Steps.Told.{told};
ghost use Rattle.state.specs.State.{in_range};
ghost use Rattle.state.specs.Answer as answers;
ghost use Rattle.sites.specs.Held.{read_over};
ghost use Rattle.sites.specs.Steps.Sites.{site_of, Walkable, look};

use homes::Shape;
use layouts::InUse;
use pages::view::Pages;
use pages::{Page, Record};
use state::{Answer, Numbers, State};
use std::marker::Model;

// What a search needs of a file beside its pages.
#[derive(Clone, Copy, Debug, PartialEq, Eq)]
pub struct Site {
    cap: usize,
    shape: Shape,
}

// One value for a caller: a struct with a `Shape` in it can't be passed on in a loop field by field.
impl Model for Site {
    ghost use Rattle.sites.specs.Site.{Site};

    ghost Value = { Site };

    ghost view = { λ a. record { cap = a.cap; shape = a.shape } };

    // What `Copy` needs.
    ghost inverse = { λ v. record { cap = v.cap; shape = v.shape } };
}

impl Site {
    // A file of any shape, as a search takes it.
    pub fn new(cap: usize, shape: Shape) -> Self
        ensures { (result.cap ≡ cap) × (result.shape ≡ shape) }
    {
        Self { cap, shape }
    }

    pub fn cap(self) -> usize
        ensures { result ≡ self.cap }
    {
        self.cap
    }

    pub fn shape(self) -> Shape
        ensures { result ≡ self.shape }
    {
        self.shape
    }
}

// Which of the two files.
#[derive(Clone, Copy, Debug, PartialEq, Eq)]
pub enum Which {
    First,
    Second,
}

// The number by which an answer tells the file.
impl From<Which> for u16 {
    ghost use Rattle.std.specs.Prelude.{◌≡◌};
    ghost use Rattle.sites.specs.Told.{file_of};

    ghost from_gives = { λ which number. number ≡ file_of which };

    fn from(which: Which) -> Self {
        match which {
            Which::First => 1,
            Which::Second => 2,
        }
    }
}

#[tactic(auto, using(state::proofs::Ranges::in_shape))]
pub fn site_of(state: State) -> Site
    requires { in_range in_use state ≡ true }
    ensures { result ≡ site_of state }
{
    Site::new(state.cap as usize, state.shape())
}

// What a file holds at a key, which lives at `home` there.
#[tactic(auto, unfolding(crate::specs::Steps::Sites::look))]
pub fn seek(area: &[u8], site: Site, home: u64, key: u64) -> Option<Record>
    requires { Walkable area.now site × (home ≡ home_in site.shape key) }
    ensures { result ≡ told (look site area.now key) }
{
    let pages = Pages::new(area, site.cap());
    lookups::look::<InUse>(pages, site.shape(), home, key)
}

// The homes under some shape of the records of page a of a file. Under its own shape most are known.
pub fn homes_under(area: &[u8], a: usize, page: Page, own: Shape, shape: Shape) -> [u64; 12]
    requires { (a < 4096) × (256 * (a + 1) ≤ length area.now) × (page ≡ in_memory (records_in in_use (part_at area.now a))) × KnownHere in_use (home_in own) area.now a }
    ensures { (i : ℕ) → i < page.count → get_or result i 0 ≡ home_in shape (get_or page.keys i 0) }
{
    if own == shape {
        return pages::known::homes_here(area, a, page, shape);
    }
    let count = page.count;
    let keys = page.keys;
    pages::homes_of(count, keys, shape)
}

// The pages read up to a file's answer, after so many pages of another. A refusal that looks at no page
// counts none.
pub fn read_over(before: u32, why: Answer) -> u32
    requires { (before ≤ 65535) × ((answers.numbers why).read ≤ 4096) }
    ensures { result ≡ read_over before (answers.numbers why).read }
{
    let own = Numbers::from(why).read;
    if own == 0 { 0 } else { before + own }
}
