// What differs between two registers: the list of differences, rising by key, in lent room. It takes no
// other memory: the entries of what differs are sorted in the room and unpacked there.
#![tactic(auto)]

ghost use Rattle.std.specs.Prelude.{◌≡◌, ◌+◌, ◌≤◌, length};
ghost use Rattle.layouts.specs.Layout.{in_use};
ghost use Rattle.placing.specs.Lay.{sort};
ghost use Rattle.pages.specs.Page.{key};
ghost use Rattle.entries.specs.Steps.Entries.{rank};
ghost use Rattle.state.specs.Answer.{refused};
ghost use Rattle.gates.specs.Steps.Past.{OpenImage};
ghost use Rattle.sites.specs.Held.{same, held_in, read_over};
ghost use Rattle.sites.specs.Steps.Sites.{Walkable, look};
ghost use Rattle.two_sets.specs.Differences.{differences};
ghost use Rattle.differences.specs.Steps.Unpacked.{unpacked};
ghost use Rattle.comparisons.specs.declared.CompareRefusal.TheVariants.{File};
ghost use Rattle.comparisons.specs.Compare.{contrasted, compared, refused_numbers};
ghost use Rattle.comparisons.specs.Steps.Past.{entries_of_both, Sortable, counts_of};

use differences::unpacking;
use differences::unpacking::MORE;
use entries::Disorder;
use layouts::{InUse, Layout};
use sites::{Site, Which};
use state::{Answer, Numbers, Refusal, State};

// A comparison that wrote its list, of so many bytes. `read` counts the pages of both files.
#[derive(Clone, Copy, Debug, PartialEq, Eq)]
pub struct Listed {
    pub length: u32,
    pub read: u32,
}

// Why there is no list: one of the two files is refused, or the room is shorter than the list, which wants
// so many bytes.
#[derive(Clone, Copy, Debug, PartialEq, Eq)]
pub enum CompareRefusal {
    File {
        which: Which,
        why: Refusal,
        read: u32,
    },
    Short {
        wanted: u32,
        read: u32,
    },
}

// What a comparison comes to.
pub type Compared = Result<Listed, CompareRefusal>;

// The same in numbers: those of every answer, the file that a refusal is about, how many bytes of the
// room were taken, and how many the whole list takes.
#[derive(Clone, Copy, Debug, PartialEq, Eq, Default)]
pub struct ComparedNumbers {
    pub numbers: Numbers,
    pub file: u16,
    pub taken: u32,
    pub wanted: u32,
}

// How many records are only in the first, only in the second, and in both with two values.
#[derive(Clone, Copy, Debug, PartialEq, Eq)]
pub struct Counts {
    pub first: u32,
    pub second: u32,
    pub both: u32,
}

// The three counts, by one pass over the first file: those only in the second are as many as it holds
// beyond those that both do.
fn count_all(first: State, area: &[u8], second: State, other: &[u8]) -> Counts
    requires { OpenImage in_use first area.now × OpenImage in_use second other.now }
    ensures value { result ≡ counts_of (differences key same (held_in in_use first area.now) (held_in in_use second other.now)) }
    ensures few { (result.first + result.both ≤ 49152) × (result.second + result.both ≤ 49152) }
{
    let site = sites::site_of(second);
    let mut none = [0; 0];
    let t = differences::pass(
        &mut none[..],
        0,
        area,
        first.cap as usize,
        other,
        site,
        Which::First,
    );
    Counts {
        first: t.absent,
        second: second.r - (first.r - t.absent),
        both: t.unlike,
    }
}

// The records of the list, in a row that they fill: the entries of both files are written from `base` on,
// sorted by key, and unpacked. Where nothing differs there is no second look at the files.
fn write_list(row: &mut [u8], base: usize, area: &[u8], here: Site, other: &[u8], there: Site)
    requires walkable { Walkable area.now here × Walkable other.now there × (base ≤ 1000000) }
    requires sortable { Sortable row.old base (entries_of_both here area.now there other.now) }
    ensures { row.new ≡ unpacked (look there other.now) (sort rank (entries_of_both here area.now there other.now)) }
{
    if row.len() == 0 {
        return;
    }
    let t = differences::pass(row, base, area, here.cap(), other, there, Which::First);
    let at = base + InUse::WIDTH * (t.absent as usize + t.unlike as usize);
    differences::pass(row, at, other, there.cap(), area, here, Which::Second);
    entries::sort_row(&mut row[base..], Disorder::Apart { home: 0 });
    unpacking::unpack(row, base, other, there);
}

// A comparison of two files that pass.
fn contrast(first: State, area: &[u8], second: State, other: &[u8], room: &mut [u8]) -> Compared
    requires { OpenImage in_use first area.now × OpenImage in_use second other.now }
    ensures { let o = contrasted in_use first area.now second other.now room.old in (result ≡ o.answer) × (room.new ≡ o.room) }
{
    let read = first.cap as u32 + second.cap as u32;
    let n = count_all(first, area, second, other);
    let base = MORE * (n.both as usize);
    let top = base + InUse::WIDTH * (n.first as usize + n.second as usize + n.both as usize);
    let length = (top + 16) as u32;
    if room.len() < top + 16 {
        return Err(CompareRefusal::Short {
            wanted: length,
            read,
        });
    }
    let here = sites::site_of(first);
    let there = sites::site_of(second);
    write_list(&mut room[..top], base, area, here, other, there);
    unpacking::put_closing(room, top, n.first, n.second, n.both);
    Ok(Listed { length, read })
}

// A file refused, after so many pages of the other.
fn refuse(which: Which, why: Refusal, before: u32) -> CompareRefusal
    requires { (before ≤ 65535) × ((refused why).read ≤ 4096) }
    ensures { result ≡ File which why (read_over before (refused why).read) }
{
    CompareRefusal::File {
        which,
        why,
        read: sites::read_over(before, Err(why)),
    }
}

// What differs between two files, in lent room.
#[tactic(auto, unfolding(crate::specs::Compare::compared))]
pub fn compare(first: State, area: &[u8], second: State, other: &[u8], room: &mut [u8]) -> Compared
    ensures { let o = compared in_use first area.now second other.now room.old in (result ≡ o.answer) × (room.new ≡ o.room) }
{
    if let Err(why) = gates::check_gate::<InUse>(first, area) {
        return Err(refuse(Which::First, why, 0));
    }
    if let Err(why) = gates::check_gate::<InUse>(second, other) {
        return Err(refuse(Which::Second, why, first.cap as u32));
    }
    contrast(first, area, second, other, room)
}

impl ComparedNumbers {
    // What is told of a file that is refused, by any number for the file and any answer.
    pub fn refused(file: u16, why: Answer, read: u32) -> Self
        ensures { result ≡ refused_numbers file why read }
    {
        Self {
            numbers: Numbers {
                value: 0,
                read,
                moved: 0,
                ..Numbers::from(why)
            },
            file,
            ..Self::default()
        }
    }
}

impl From<Compared> for ComparedNumbers {
    ghost use Rattle.std.specs.Prelude.{◌≡◌};
    ghost use Rattle.comparisons.specs.Compare.{compared_numbers};

    ghost from_gives = { λ compared numbers. numbers ≡ compared_numbers compared };

    fn from(compared: Compared) -> Self {
        match compared {
            Ok(Listed { length, read }) => ComparedNumbers {
                numbers: Numbers {
                    read,
                    ..Numbers::default()
                },
                file: 0,
                taken: length,
                wanted: length,
            },
            Err(CompareRefusal::File { which, why, read }) => {
                ComparedNumbers::refused(u16::from(which), Err(why), read)
            }
            Err(CompareRefusal::Short { wanted, read }) => ComparedNumbers {
                numbers: Numbers {
                    refusal: 15,
                    read,
                    ..Numbers::default()
                },
                wanted,
                ..ComparedNumbers::default()
            },
        }
    }
}
