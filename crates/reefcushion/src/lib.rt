// The calls for programs in other languages. Each is the register's call on the state that a slip
// of forty bytes brings; the slip then holds the state after it and the answer. It takes any
// lengths and any bytes, and returns the number of its refusal.
#![tactic(auto)]

ghost use Rattle.std.specs.Prelude.{◌≡◌, length, MatchOption};
ghost use Rattle.numbers.specs.Fields.{encode};
ghost use Rattle.homes.specs.Homes.{params};
ghost use Rattle.pages.specs.Page.{record_with};
ghost use Rattle.state.specs.Answer.{numbers};
ghost use Rattle.register.specs.Files.{format, find, put, remove, grow, shrink, check};
ghost use Rattle.reefcushion.specs.Slip.{renumbered, state_in, slip_of, slip_about, served, served_row, served_run, served_room, comparison_fields, served_compare, served_merge, due_on};

use comparisons::ComparedNumbers;
use homes::Params;
use layouts::{InUse, Layout};
use merges::MergedNumbers;
use pages::Record;
use state::{Answer, Done, Numbers, State};

// The bytes of a slip.
const SLIP: usize = 40;

// The bytes that a comparison is told in.
const COMPARISON: usize = 20;

// What a call returns that has no slip of that length. It then does nothing.
const NO_SLIP: u32 = 100;

// The state with its edition so many more, as numbers of two bytes go round. A slip has the edition
// less 1.
fn renumbered(state: State, by: u16) -> State
    ensures { result ≡ renumbered by state }
{
    let params = Params {
        edition: state.params.edition.wrapping_add(by),
        ..state.params
    };
    State { params, ..state }
}

// The state that a slip brings, if it has a slip's length.
fn state_in(slip: &[u8]) -> Option<State>
    ensures { MatchOption result (length slip.now ≡ 40 → ⊥) (λ state. (length slip.now ≡ 40) × (state ≡ state_in slip.now)) }
{
    if slip.len() != SLIP {
        return None;
    }
    Some(renumbered(slips::get_state(slip, 0), 1))
}

// What a call came to, over all of the slip, with the file that a refusal is about, or 0. It brings the next
// call the state that this one left.
fn hand_back(slip: &mut [u8], told: Done<Numbers>, file: u16) -> u32
    requires { length slip.old ≡ 40 }
    ensures value { result ≡ told.answer.refusal }
    ensures slip_after { slip.new ≡ slip_about told.state told.answer file }
    ensures again { state_in slip.new ≡ told.state }
{
    slips::put_state(slip, 0, renumbered(told.state, 65535));
    slips::put_answer(slip, 16, told.answer, file);
    u32::from(told.answer.refusal)
}

fn tell(slip: &mut [u8], done: Done<Answer>) -> u32
    requires { length slip.old ≡ 40 }
    ensures value { result ≡ (numbers done.answer).refusal }
    ensures slip_after { slip.new ≡ slip_of done.state (numbers done.answer) }
    ensures again { state_in slip.new ≡ done.state }
{
    hand_back(slip, records::tell(done), 0)
}

// A file of the edition that is asked for.
#[tactic(auto, unfolding(crate::specs::Slip::served, register::specs::Files::left))]
#[unsafe(no_mangle)]
pub extern "C" fn reefcushion_format_edition(
    slip: &mut [u8],
    area: &mut [u8],
    n0: u16,
    n: u16,
    s: u16,
    cap: u16,
    edition: u16,
) -> u32
    ensures { let o = served slip.old area.old (format (params n0 n s edition) cap) in (result ≡ o.returned) × ((slip.new ≡ o.slip) × ((area.new ≡ o.file.area) × (state_in slip.new ≡ o.file.state))) }
{
    let Some(state) = state_in(slip) else {
        return NO_SLIP;
    };
    let params = Params { n0, n, s, edition };
    tell(slip, register::format(state, params, cap, area))
}

// A file of edition 1, which a format makes that names none.
#[unsafe(no_mangle)]
pub extern "C" fn reefcushion_format(
    slip: &mut [u8],
    area: &mut [u8],
    n0: u16,
    n: u16,
    s: u16,
    cap: u16,
) -> u32
    ensures { let o = served slip.old area.old (format (params n0 n s 1) cap) in (result ≡ o.returned) × ((slip.new ≡ o.slip) × ((area.new ≡ o.file.area) × (state_in slip.new ≡ o.file.state))) }
{
    reefcushion_format_edition(slip, area, n0, n, s, cap, 1)
}

#[tactic(auto, unfolding(crate::specs::Slip::served, register::specs::Files::left))]
#[unsafe(no_mangle)]
pub extern "C" fn reefcushion_find(slip: &mut [u8], area: &[u8], key: u64) -> u32
    ensures { let o = served slip.old area.now (find key) in (result ≡ o.returned) × ((slip.new ≡ o.slip) × (state_in slip.new ≡ o.file.state)) }
{
    let Some(state) = state_in(slip) else {
        return NO_SLIP;
    };
    tell(slip, register::find(state, area, key))
}

#[tactic(auto, unfolding(crate::specs::Slip::served, register::specs::Files::left))]
#[unsafe(no_mangle)]
pub extern "C" fn reefcushion_put(slip: &mut [u8], area: &mut [u8], key: u64, value: u64) -> u32
    ensures { let o = served slip.old area.old (put (record_with key value 0)) in (result ≡ o.returned) × ((slip.new ≡ o.slip) × ((area.new ≡ o.file.area) × (state_in slip.new ≡ o.file.state))) }
{
    let Some(state) = state_in(slip) else {
        return NO_SLIP;
    };
    tell(
        slip,
        register::put(state, area, Record { key, value, run: 0 }),
    )
}

#[tactic(auto, unfolding(crate::specs::Slip::served, register::specs::Files::left))]
#[unsafe(no_mangle)]
pub extern "C" fn reefcushion_remove(slip: &mut [u8], area: &mut [u8], key: u64) -> u32
    ensures { let o = served slip.old area.old (remove key) in (result ≡ o.returned) × ((slip.new ≡ o.slip) × ((area.new ≡ o.file.area) × (state_in slip.new ≡ o.file.state))) }
{
    let Some(state) = state_in(slip) else {
        return NO_SLIP;
    };
    tell(slip, register::remove(state, area, key))
}

#[tactic(auto, unfolding(crate::specs::Slip::served, crate::specs::Slip::served_row, register::specs::Files::left))]
#[unsafe(no_mangle)]
pub extern "C" fn reefcushion_grow(slip: &mut [u8], area: &mut [u8], row: &mut [u32]) -> u32
    ensures { let o = served slip.old area.old (grow row.old) in (result ≡ o.returned) × ((slip.new ≡ o.slip) × ((area.new ≡ o.file.area) × ((row.new ≡ served_row slip.old area.old row.old) × (state_in slip.new ≡ o.file.state)))) }
{
    let Some(state) = state_in(slip) else {
        return NO_SLIP;
    };
    tell(slip, register::grow(state, area, row))
}

#[tactic(auto, unfolding(crate::specs::Slip::served, register::specs::Files::left))]
#[unsafe(no_mangle)]
pub extern "C" fn reefcushion_shrink(slip: &mut [u8], area: &mut [u8]) -> u32
    ensures { let o = served slip.old area.old shrink in (result ≡ o.returned) × ((slip.new ≡ o.slip) × ((area.new ≡ o.file.area) × (state_in slip.new ≡ o.file.state))) }
{
    let Some(state) = state_in(slip) else {
        return NO_SLIP;
    };
    tell(slip, register::shrink(state, area))
}

#[tactic(auto, unfolding(crate::specs::Slip::served, register::specs::Files::left))]
#[unsafe(no_mangle)]
pub extern "C" fn reefcushion_check(slip: &mut [u8], area: &[u8]) -> u32
    ensures { let o = served slip.old area.now check in (result ≡ o.returned) × ((slip.new ≡ o.slip) × (state_in slip.new ≡ o.file.state)) }
{
    let Some(state) = state_in(slip) else {
        return NO_SLIP;
    };
    tell(slip, register::check(state, area))
}

// A pay run: put records end to end, and a reply of 28 bytes for each.
#[tactic(auto, unfolding(crate::specs::Slip::served_run, crate::specs::Slip::served_room))]
#[unsafe(no_mangle)]
pub extern "C" fn reefcushion_put_run(
    slip: &mut [u8],
    area: &mut [u8],
    input: &[u8],
    replies: &mut [u8],
) -> u32
    ensures { let o = served_run slip.old area.old input.now replies.old in (result ≡ o.returned) × ((slip.new ≡ o.slip) × ((area.new ≡ o.file.area) × ((replies.new ≡ served_room slip.old area.old input.now replies.old) × (state_in slip.new ≡ o.file.state)))) }
{
    let Some(state) = state_in(slip) else {
        return NO_SLIP;
    };
    hand_back(slip, pay_runs::put_run(state, area, input, replies), 0)
}

// What a comparison came to, over all of the bytes that it is told in.
fn put_comparison(told: &mut [u8], n: ComparedNumbers)
    requires { length told.old ≡ 20 }
    ensures { told.new ≡ encode (comparison_fields n) }
{
    numbers::put(told, 0, n.numbers.refusal);
    numbers::put(told, 2, n.file);
    numbers::put(told, 4, n.numbers.page);
    numbers::put::<u16>(told, 6, 0);
    numbers::put(told, 8, n.numbers.read);
    numbers::put(told, 12, n.taken);
    numbers::put(told, 16, n.wanted);
}

// What differs between two files, in lent room. It writes neither file, nor its slip.
#[tactic(auto, unfolding(crate::specs::Slip::served_compare))]
#[unsafe(no_mangle)]
pub extern "C" fn reefcushion_compare(
    slip: &[u8],
    area: &[u8],
    other_slip: &[u8],
    other_area: &[u8],
    list: &mut [u8],
    told: &mut [u8],
) -> u32
    ensures { let o = served_compare slip.now area.now other_slip.now other_area.now list.old told.old in (result ≡ o.returned) × ((list.new ≡ o.list) × (told.new ≡ o.comparison)) }
{
    let Some(first) = state_in(slip) else {
        return NO_SLIP;
    };
    let Some(second) = state_in(other_slip) else {
        return NO_SLIP;
    };
    if told.len() != COMPARISON {
        return NO_SLIP;
    }
    let compared: ComparedNumbers = comparisons::compare(
        first, area, second, other_area, list,
    ).into();
    put_comparison(told, compared);
    u32::from(compared.numbers.refusal)
}

// The other file's records into the living one. It writes neither the other file nor its slip.
#[tactic(auto, unfolding(crate::specs::Slip::served_merge))]
#[unsafe(no_mangle)]
pub extern "C" fn reefcushion_merge(
    slip: &mut [u8],
    area: &mut [u8],
    other_slip: &[u8],
    other_area: &[u8],
    row: &mut [u32],
) -> u32
    ensures { let o = served_merge slip.old area.old other_slip.now other_area.now row.old in (result ≡ o.served.returned) × ((slip.new ≡ o.served.slip) × ((area.new ≡ o.served.file.area) × ((row.new ≡ o.row) × (state_in slip.new ≡ o.served.file.state)))) }
{
    let Some(state) = state_in(slip) else {
        return NO_SLIP;
    };
    let Some(second) = state_in(other_slip) else {
        return NO_SLIP;
    };
    let done = merges::merge(state, area, second, other_area, row);
    let merged: MergedNumbers = done.answer.into();
    let told = Done {
        state: done.state,
        answer: merged.numbers,
    };
    hand_back(slip, told, merged.file)
}

// Whether growth is due, 1 or 0. It leaves the slip as it is.
#[tactic(auto, unfolding(crate::specs::Slip::due_on))]
#[unsafe(no_mangle)]
pub extern "C" fn reefcushion_due(slip: &[u8]) -> u32
    ensures { result ≡ due_on slip.now }
{
    let Some(state) = state_in(slip) else {
        return 0;
    };
    u32::from(state.due(InUse::NUMBER))
}
