// Another file's records merged into a living one: it ends as the image of both record sets, laid anew in its
// own area. The other file is only read.
#![tactic(auto)]

ghost use Rattle.std.specs.Prelude.{◌≡◌, ◌+◌, ◌≤◌, length, replicate};
ghost use Rattle.std.proofs.Math.Option.{none};
ghost use Rattle.layouts.specs.Layout.{in_use};
ghost use Rattle.placing.specs.Rows.{counts};
ghost use Rattle.pages.specs.Page.{key, home_for};
ghost use Rattle.state.specs.State.{homes, holding};
ghost use Rattle.state.specs.Answer.{refused};
ghost use Rattle.gates.specs.Steps.Past.{OpenImage};
ghost use Rattle.sites.specs.Held.{held_in, same, read_over};
ghost use Rattle.two_sets.specs.Union.{union, lowest_clash};
ghost use Rattle.merges.specs.declared.MergeRefusal.TheVariants.{File};
ghost use Rattle.merges.specs.Merge.{done_of, joined, settled, merged, refused_numbers};

use layouts::InUse;
use sites::Which;
use state::{Answer, Done, Numbers, Refusal, State};
use unions::laying;

// An accepted merge. `read` counts the pages of both files.
#[derive(Clone, Copy, Debug, PartialEq, Eq)]
pub struct Joined {
    pub read: u32,
}

// Why there is no merge: one of the two files is refused, the living one or the other; both hold a key with
// two values; or there is no room. It changes neither the area nor the state.
#[derive(Clone, Copy, Debug, PartialEq, Eq)]
pub enum MergeRefusal {
    File {
        which: Which,
        why: Refusal,
        read: u32,
    },
    Clash {
        lowest: u64,
        read: u32,
    },
    NoRoom {
        read: u32,
    },
}

// What a merge answers.
pub type Merged = Result<Joined, MergeRefusal>;

// What it comes to inside: the living file's state afterwards too, or why it is refused.
type Outcome = Result<(State, Joined), MergeRefusal>;

// The answer in numbers: those of every answer, and the file that a refusal is about.
#[derive(Clone, Copy, Debug, PartialEq, Eq)]
pub struct MergedNumbers {
    pub numbers: Numbers,
    pub file: u16,
}

// A refused merge leaves the state that it was given.
fn done_of(state: State, outcome: Outcome) -> Done<Merged>
    ensures { result ≡ done_of state outcome }
{
    match outcome {
        Ok((next, joined)) => Done {
            state: next,
            answer: Ok(joined),
        },
        Err(why) => Done {
            state,
            answer: Err(why),
        },
    }
}

// A file refused, after so many pages of the other.
fn refuse(which: Which, why: Refusal, before: u32) -> MergeRefusal
    requires { (before ≤ 65535) × ((refused why).read ≤ 4096) }
    ensures { result ≡ File which why (read_over before (refused why).read) }
{
    MergeRefusal::File {
        which,
        why,
        read: sites::read_over(before, Err(why)),
    }
}

// A state with so many records held.
fn holding(mut state: State, r: u32) -> State
    ensures { result ≡ holding state r }
{
    state.r = r;
    state
}

// A merge of two files that pass and don't clash, with the row filled: it decides whether there is room. The
// living file is written only where there is.
fn join(state: State, area: &mut [u8], second: State, other: &[u8], row: &[u32]) -> Outcome
    requires open_image { OpenImage in_use state area.old × OpenImage in_use second other.now × (lowest_clash key same (held_in in_use state area.old) (held_in in_use second other.now) ≡ none) }
    requires row_value { row.now ≡ counts (home_for (homes state)) (union key (held_in in_use state area.old) (held_in in_use second other.now)) state.cap 0 }
    ensures { let o = joined in_use state area.old (union key (held_in in_use state area.old) (held_in in_use second other.now)) (state.cap + second.cap) in (done_of state result ≡ o.merge) × (area.new ≡ o.area) }
{
    let read = state.cap as u32 + second.cap as u32;
    let fits = survey::has_room::<InUse>(row);
    let is_full = !fits;
    if is_full {
        return Err(MergeRefusal::NoRoom { read });
    }
    let here = sites::site_of(state);
    let there = sites::site_of(second);
    let r = laying::lay_both(area, here, other, there);
    Ok((holding(state, r), Joined { read }))
}

// A merge of two files that pass. The counts have memory of their own: the row stays as it is until it is known
// that no key clashes.
fn settle(
    state: State,
    area: &mut [u8],
    second: State,
    other: &[u8],
    row: &mut [u32],
    counts: &mut [u32],
) -> Outcome
    requires { OpenImage in_use state area.old × OpenImage in_use second other.now × (length row.old ≡ state.cap) × (counts.old ≡ replicate state.cap 0) }
    ensures { let o = settled in_use state area.old row.old second other.now in (done_of state result ≡ o.merge) × ((area.new ≡ o.area) × (row.new ≡ o.row)) }
{
    let here = sites::site_of(state);
    let there = sites::site_of(second);
    let clash = unions::tally(counts, &area[..], here, other, there);
    if let Some(lowest) = clash {
        let read = state.cap as u32 + second.cap as u32;
        return Err(MergeRefusal::Clash { lowest, read });
    }
    survey::fill_row(row, &counts[..]);
    join(state, area, second, other, &row[..])
}

fn merge_open(
    state: State,
    area: &mut [u8],
    second: State,
    other: &[u8],
    row: &mut [u32],
) -> Outcome
    requires { OpenImage in_use state area.old × OpenImage in_use second other.now × (length row.old ≡ state.cap) }
    ensures { let o = settled in_use state area.old row.old second other.now in (done_of state result ≡ o.merge) × ((area.new ≡ o.area) × (row.new ≡ o.row)) }
{
    let cap = state.cap as usize;
    let mut counts = [0; 4096];
    settle(state, area, second, other, row, &mut counts[..cap])
}

#[tactic(auto, unfolding(crate::specs::Merge::merged))]
fn try_merge(state: State, area: &mut [u8], second: State, other: &[u8], row: &mut [u32]) -> Outcome
    ensures { let o = merged in_use state area.old row.old second other.now in (done_of state result ≡ o.merge) × ((area.new ≡ o.area) × (row.new ≡ o.row)) }
{
    if let Err(why) = gates::merge_gate::<InUse>(state, &area[..], row.len()) {
        return Err(refuse(Which::First, why, 0));
    }
    if let Err(why) = gates::check_gate::<InUse>(second, other) {
        return Err(refuse(Which::Second, why, state.cap as u32));
    }
    merge_open(state, area, second, other, row)
}

// The records of another file into a living one, with a lent row of counts, one a page of the living file.
pub fn merge(
    state: State,
    area: &mut [u8],
    second: State,
    other: &[u8],
    row: &mut [u32],
) -> Done<Merged>
    ensures { let o = merged in_use state area.old row.old second other.now in (result ≡ o.merge) × ((area.new ≡ o.area) × (row.new ≡ o.row)) }
{
    done_of(state, try_merge(state, area, second, other, row))
}

impl MergedNumbers {
    // What is told of a file that is refused, by any number for the file and any answer.
    pub fn refused(file: u16, why: Answer, read: u32) -> Self
        ensures { result ≡ refused_numbers file why read }
    {
        Self {
            numbers: Numbers {
                value: 0,
                read,
                moved: 0,
                ..Numbers::from(why)
            },
            file,
        }
    }
}

impl From<Merged> for MergedNumbers {
    ghost use Rattle.std.specs.Prelude.{◌≡◌};
    ghost use Rattle.merges.specs.Merge.{merged_numbers};

    ghost from_gives = { λ merged numbers. numbers ≡ merged_numbers merged };

    fn from(merged: Merged) -> Self {
        match merged {
            Ok(Joined { read }) => MergedNumbers {
                numbers: Numbers {
                    read,
                    ..Numbers::default()
                },
                file: 0,
            },
            Err(MergeRefusal::File { which, why, read }) => {
                MergedNumbers::refused(u16::from(which), Err(why), read)
            }
            Err(MergeRefusal::Clash { lowest, read }) => MergedNumbers {
                numbers: Numbers::from(Refusal::Clash {
                    value: lowest,
                    read,
                }),
                file: 0,
            },
            Err(MergeRefusal::NoRoom { read }) => MergedNumbers {
                numbers: Numbers::from(Refusal::NoRoom { read }),
                file: 0,
            },
        }
    }
}
