// A state and an answer as bytes, read from and written to lent bytes at an offset: as slips and
// the records of raw calls have them. A list of fields stands once, in the definitions that the clauses
// name; `From` would have no offset, and a trait over these lists would only give each a second name.
#![tactic(auto)]

ghost use Rattle.std.specs.Prelude.{◌≡◌, ◌+◌, ◌≤◌, length};
ghost use Rattle.numbers.specs.Little.{written};
ghost use Rattle.numbers.specs.Fields.{encode};
ghost use Rattle.slips.specs.Slips.{state_at, state_fields, answer_fields, reply_fields};

use homes::Params;
use state::{Numbers, State};

// The state whose sixteen bytes stand at an offset.
pub fn get_state(bytes: &[u8], at: usize) -> State
    requires { at + 16 ≤ length bytes.now }
    ensures { result ≡ state_at bytes.now at }
{
    let params = Params {
        n0: numbers::get::<u16>(bytes, at),
        n: numbers::get::<u16>(bytes, at + 2),
        s: numbers::get::<u16>(bytes, at + 4),
        edition: numbers::get::<u16>(bytes, at + 10),
    };
    State {
        params,
        p: numbers::get::<u16>(bytes, at + 6),
        cap: numbers::get::<u16>(bytes, at + 8),
        r: numbers::get::<u32>(bytes, at + 12),
    }
}

// A state's sixteen bytes to an offset.
pub fn put_state(bytes: &mut [u8], at: usize, state: State)
    requires { at + 16 ≤ length bytes.old }
    ensures { bytes.new ≡ written bytes.old at (encode (state_fields state)) }
{
    numbers::put(bytes, at, state.params.n0);
    numbers::put(bytes, at + 2, state.params.n);
    numbers::put(bytes, at + 4, state.params.s);
    numbers::put(bytes, at + 6, state.p);
    numbers::put(bytes, at + 8, state.cap);
    numbers::put(bytes, at + 10, state.params.edition);
    numbers::put(bytes, at + 12, state.r);
}

// An answer's 24 bytes in a slip, with the file that it is about, or 0.
pub fn put_answer(bytes: &mut [u8], at: usize, told: Numbers, file: u16)
    requires { at + 24 ≤ length bytes.old }
    ensures { bytes.new ≡ written bytes.old at (encode (answer_fields told file)) }
{
    numbers::put(bytes, at, told.value);
    numbers::put(bytes, at + 8, told.read);
    numbers::put(bytes, at + 12, told.moved);
    numbers::put(bytes, at + 16, told.refusal);
    numbers::put(bytes, at + 18, told.page);
    numbers::put(bytes, at + 20, file);
    numbers::put::<u16>(bytes, at + 22, 0);
}

// And in a reply.
pub fn put_reply(bytes: &mut [u8], at: usize, told: Numbers)
    requires { at + 24 ≤ length bytes.old }
    ensures { bytes.new ≡ written bytes.old at (encode (reply_fields told)) }
{
    numbers::put(bytes, at, told.refusal);
    numbers::put(bytes, at + 2, told.page);
    numbers::put(bytes, at + 4, told.value);
    numbers::put::<u32>(bytes, at + 12, 0);
    numbers::put(bytes, at + 16, told.read);
    numbers::put(bytes, at + 20, told.moved);
}
