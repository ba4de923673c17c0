// The walks of find, put and remove over the pages of a lent area. Put and remove first judge every
// page that they look at and settle what to write; only then do they write.
#![tactic(auto)]

pub mod put;
pub mod remove;

ghost use Rattle.std.specs.Prelude.{◌≡◌, ◌&&◌, ◌≤◌, ◌<◌, get_or, ltb};
ghost use Rattle.layouts.specs.Layout.{in_use};
ghost use Rattle.homes.specs.Homes.{home_in};
ghost use Rattle.placing.specs.Lay.{ranked};
ghost use Rattle.walks.specs.Walks.{walk};
ghost use Rattle.walks.specs.Steps.Plans.{ended, WalkIn, EndIn};

use homes::Shape;
use layouts::{InUse, Layout};
use pages::view::Pages;
use pages::{Judged, Rank};
use state::Refusal;

// What the walk to a key meets, where no page on its way is broken: the key, the page that ends it
// with the key's place there, or the end of the area.
#[derive(Clone, Copy, Debug, PartialEq, Eq)]
pub enum Met {
    Found {
        page: usize,
        slot: usize,
        count: usize,
        value: u64,
        read: u32,
    },
    Ends {
        page: usize,
        at: usize,
        count: usize,
        read: u32,
    },
    AtEnd {
        read: u32,
    },
}

// What the walk to a key met, with the home of the record in the last slot of the page where it
// ended, or 0 where no record stands there.
#[derive(Clone, Copy, Debug, PartialEq, Eq)]
pub struct Walk {
    pub met: Met,
    pub last: u64,
}

// What a put or a remove is going to do: change the pages from the first to the last, at a slot of
// the first, after so many were read. The seams rise where each of these pages but the last is full
// of records that stand before the first record of the next.
#[derive(Clone, Copy, Debug, PartialEq, Eq)]
pub struct Change {
    pub first: usize,
    pub at: usize,
    pub last: usize,
    pub read: u32,
    pub rises: bool,
}

// The walk to a key from its home, page by page and slot by slot, left from inside: at a slot that
// is empty or stands after the sought (home, key), and at the key.
pub fn meet_from(pages: Pages<'_>, shape: Shape, home: u64, key: u64) -> Result<Walk, Refusal>
    requires { (home < pages.cap) × (home ≡ home_in shape key) }
    ensures value { result ≡ ended (home_in shape) pages.entry.bytes.now (walk in_use (home_in shape) pages.entry.bytes.now pages.entry.cap key) }
    ensures within { WalkIn pages.entry.cap result }
{
    let sought = Rank { home, key };
    let mut a = home as usize;
    let mut read: u32 = 0;
    'pages: loop {
        if pages.cap <= a {
            let met = Met::AtEnd { read };
            break 'pages Ok(Walk { met, last: 0 });
        }
        read += 1;
        let Some(judged) = pages.judge::<InUse>(a, shape) else {
            break 'pages Err(Refusal::Broken {
                page: a as u16,
                read,
            });
        };
        let count = judged.count;
        let keys = judged.keys;
        let homes = judged.homes;
        let last = homes[InUse::SLOTS - 1];
        for slot in 0..InUse::SLOTS {
            let here = Rank {
                home: homes[slot],
                key: keys[slot],
            };
            let is_past = (slot == count) | (sought < here);
            if is_past {
                let met = Met::Ends {
                    page: a,
                    at: slot,
                    count,
                    read,
                };
                break 'pages Ok(Walk { met, last });
            }
            if keys[slot] == key {
                let held = slots::record_at::<InUse>(pages.bytes, a, slot);
                let met = Met::Found {
                    page: a,
                    slot,
                    count,
                    value: held.value,
                    read,
                };
                break 'pages Ok(Walk { met, last });
            }
        }
        a += 1;
    }
}

// The walk to a key whose home isn't known yet.
pub fn meet(pages: Pages<'_>, shape: Shape, key: u64) -> Result<Met, Refusal>
    requires { shape.p ≤ pages.cap }
    ensures value { result ≡ walk in_use (home_in shape) pages.entry.bytes.now pages.entry.cap key }
    ensures within { EndIn pages.entry.cap result }
{
    let home = shape.home(key);
    let walk = meet_from(pages, shape, home, key)?;
    Ok(walk.met)
}

// Whether (home, key) stands before the first record of a page that was judged.
fn joins(home: u64, key: u64, next: Judged) -> bool
    ensures { result ≡ (ltb 0 next.count && ltb (ranked home key) (ranked (get_or next.homes 0 0) (get_or next.keys 0 0))) }
{
    let first = Rank {
        home: next.homes[0],
        key: next.keys[0],
    };
    (0 < next.count) & (Rank { home, key } < first)
}
