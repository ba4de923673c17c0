// A pay run in one call: put records end to end, and a reply for each in lent room.
#![tactic(auto)]

ghost use Rattle.std.specs.Prelude.{◌≡◌, true, ◌*◌, ◌≤◌, length, eqb, MatchResult};
ghost use Rattle.numbers.specs.Fields.{encode};
ghost use Rattle.layouts.specs.Layout.{in_use};
ghost use Rattle.homes.specs.Homes.{home_in};
ghost use Rattle.state.specs.State.{in_range, homes};
ghost use Rattle.state.specs.Done.{done_of};
ghost use Rattle.register.specs.Calls.{stored};
ghost use Rattle.register.specs.Files.{put, file_of, left, after, numbers_of};
ghost use Rattle.records.specs.Records.{record_in, reply_of, bytes_of_all};
ghost use Rattle.pay_runs.specs.PayRun.{items, end_to_end, puts_in, replies_to, run_refusal, ran, told_of};
ghost use Rattle.pay_runs.specs.Steps.Ahead.{key_after, Ahead, Homed};
ghost use Rattle.pay_runs.specs.Steps.Refusals.{refusal_of};

use homes::Shape;
use layouts::{InUse, Layout};
use pages::Record;
use state::{Answer, Done, Numbers, Outcome, State};

// The bytes of a put record, and of a reply.
const RECORD: usize = 20;

const REPLY: usize = 28;

// How many homes are worked out together.
const LANES: usize = 12;

// Why a run is refused: its bytes are not whole put records with right heads, or the room is not that
// of a reply for each.
#[derive(Clone, Copy, Debug, PartialEq, Eq)]
enum RunRefusal {
    NotPuts,
    NoRoom,
}

impl RunRefusal {
    // The number of the refusal.
    fn number(self) -> u16
        ensures { result ≡ refusal_of self }
    {
        match self {
            RunRefusal::NotPuts => 10,
            RunRefusal::NoRoom => 15,
        }
    }
}

impl From<RunRefusal> for Numbers {
    ghost use Rattle.std.specs.Prelude.{◌≡◌};
    ghost use Rattle.records.specs.Records.{refused_by};
    ghost use Rattle.pay_runs.specs.Steps.Refusals.{refusal_of};

    ghost from_gives = { λ why told. told ≡ refused_by (refusal_of why) };

    fn from(why: RunRefusal) -> Numbers {
        Numbers {
            refusal: why.number(),
            ..Numbers::default()
        }
    }
}

// Whether the bytes are whole put records with right heads.
fn are_puts(input: &[u8]) -> bool
    ensures { result ≡ end_to_end (items input.now) input.now }
{
    let count = input.len() / RECORD;
    for i in 0..count {
        if !records::is_put(&input[RECORD * i..]) {
            return false;
        }
    }
    input.len() == RECORD * count
}

// Whether the room is that of a reply for each item.
fn has_room(input: &[u8], room: &[u8]) -> bool
    ensures { result ≡ eqb (length room.now) (28 * items input.now) }
{
    room.len() == REPLY * (input.len() / RECORD)
}

// The homes of the next items, twelve or as many as there are, worked out together: that takes
// hardly longer than one.
fn homes_ahead(shape: Shape, input: &[u8]) -> [u64; LANES]
    ensures { Ahead (home_in shape) input.now result }
{
    let lanes = (input.len() / RECORD).min(LANES);
    let mut keys = [0u64; LANES];
    for k in 0..lanes {
        keys[k] = records::record_in(&input[RECORD * k..]).key;
    }
    homes::lanes::homes(shape, keys)
}

// The homes ahead of a state. One out of range has none, and every put on it is refused.
#[tactic(auto, using(state::proofs::Ranges::in_shape))]
fn look_ahead(state: State, input: &[u8]) -> [u64; LANES]
    ensures { in_range in_use state ≡ true → Ahead (homes state) input.now result }
{
    if !state.in_range(InUse::NUMBER) {
        return [0u64; LANES];
    }
    homes_ahead(state.shape(), input)
}

fn try_put_known(state: State, area: &mut [u8], home: u64, new: Record) -> Outcome
    requires { Homed state new.key home }
    ensures { let o = stored in_use state area.old new in (done_of state result ≡ o.done) × (area.new ≡ o.area) }
{
    gates::enter::<InUse>(state, area.len())?;
    changes::put_open(state, area, home, new)
}

// A put of a record whose home is known where there is one.
fn put_known(state: State, area: &mut [u8], home: u64, new: Record) -> Done<Answer>
    requires { Homed state new.key home }
    ensures { let o = stored in_use state area.old new in (result ≡ o.done) × (area.new ≡ o.area) }
{
    Done::of(state, try_put_known(state, area, home, new))
}

// One item: its put, and the reply with the state after it.
#[tactic(auto, unfolding(register::specs::Files::left))]
fn put_one(state: State, area: &mut [u8], home: u64, input: &[u8], part: &mut [u8]) -> State
    requires { Homed state (key_after input.now 0) home × ((20 ≤ length input.now) × (length part.old ≡ 28)) }
    ensures { let o = left (file_of state area.old) (put (record_in input.now)) in (result ≡ o.file.state) × ((area.new ≡ o.file.area) × (part.new ≡ encode (reply_of (numbers_of o.said) o.file.state))) }
{
    let new = records::record_in(input);
    let told = records::tell(put_known(state, area, home, new));
    records::reply(part, told.answer, told.state);
    told.state
}

// The items one by one, each with the pages and the state that the last one left. Puts leave
// parameters and pages as they are, so homes hold until they are used up.
fn put_each(state: State, area: &mut [u8], input: &[u8], room: &mut [u8]) -> State
    requires { length room.old ≡ 28 * items input.now }
    ensures { let f = file_of state area.old in let cs = puts_in (items input.now) input.now in (result ≡ (after f cs).state) × ((area.new ≡ (after f cs).area) × (room.new ≡ bytes_of_all (replies_to f cs))) }
{
    let count = input.len() / RECORD;
    let mut after = state;
    let mut ahead = [0u64; LANES];
    for i in 0..count {
        let lane = i % LANES;
        let is_first = lane == 0;
        if is_first {
            ahead = look_ahead(after, &input[RECORD * i..]);
        }
        let at = REPLY * i;
        after = put_one(
            after,
            area,
            ahead[lane],
            &input[RECORD * i..],
            &mut room[at..at + REPLY],
        );
    }
    after
}

// Whether a run is refused, and why: all heads are looked at, and then the room.
fn judge(input: &[u8], room: &[u8]) -> Result<(), RunRefusal>
    ensures { MatchResult result (λ _. (end_to_end (items input.now) input.now ≡ true) × (length room.now ≡ 28 * items input.now)) (λ why. run_refusal input.now room.now ≡ refusal_of why) }
{
    if !are_puts(input) {
        return Err(RunRefusal::NotPuts);
    }
    if !has_room(input, room) {
        return Err(RunRefusal::NoRoom);
    }
    Ok(())
}

// A run. It is judged before any item is run, so what is refused changes nothing. The refusals of
// single items stand in their replies.
#[tactic(auto, unfolding(crate::specs::PayRun::ran))]
pub fn put_run(state: State, area: &mut [u8], input: &[u8], room: &mut [u8]) -> Done<Numbers>
    ensures { let o = ran (file_of state area.old) input.now room.old in (result ≡ told_of o) × ((area.new ≡ o.file.area) × (room.new ≡ o.room)) }
{
    match judge(input, &room[..]) {
        Err(why) => Done {
            state,
            answer: why.into(),
        },
        Ok(()) => Done {
            state: put_each(state, area, input, room),
            answer: Numbers::default(),
        },
    }
}
