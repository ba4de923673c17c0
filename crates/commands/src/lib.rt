// The log: commands read from bytes, carried out on a state and lent pages, and answered in bytes.
#![tactic(auto)]

pub mod execute;

ghost use Rattle.std.specs.Prelude.{◌≡◌, ◌/◌, length};
ghost use Rattle.numbers.specs.Little.{written};
ghost use Rattle.records.specs.Records.{bytes_of_all};
ghost use Rattle.commands.specs.Execute.{site};
ghost use Rattle.commands.specs.Log.{turn, log, ran_of};
ghost use Rattle.commands.specs.Steps.Within.{step_of, site_after, reply_after, Takes, RanIn};

use records::Unread;
use state::State;

// The bytes of a reply.
const REPLY: usize = 28;

// What comes of one record: nothing yet, a reply that is the last, or a reply after which the log
// goes on.
#[derive(Clone, Copy)]
pub enum Step {
    Waits,
    Stops,
    Goes { state: State, length: usize },
}

// How far a log went: the state after it, the bytes taken and given, and whether it has stopped.
#[derive(Clone, Copy)]
pub struct Ran {
    pub state: State,
    pub taken: usize,
    pub given: usize,
    pub stopped: bool,
}

// The first record of the input carried out, and its reply written.
#[tactic(auto, unfolding(crate::specs::Log::turn))]
fn serve_one(
    state: State,
    space: &mut [u8],
    row: &mut [u32],
    input: &[u8],
    last: bool,
    part: &mut [u8],
) -> Step
    requires { length part.old ≡ 28 }
    ensures { let d = site state space.old row.old in let t = turn last d input.now in (result ≡ step_of t) × ((space.new ≡ (site_after d t).space) × ((row.new ≡ (site_after d t).row) × ((part.new ≡ reply_after d part.old t) × Takes (length input.now) result))) }
{
    if input.is_empty() {
        return Step::Waits;
    }
    let asked = match records::first(input) {
        Ok(asked) => asked,
        Err(Unread::CutOff) if !last => return Step::Waits,
        Err(unread) => {
            records::reply(part, unread.into(), state);
            return Step::Stops;
        }
    };
    let told = execute::execute(state, space, row, asked.command);
    records::reply(part, told.answer, told.state);
    Step::Goes {
        state: told.state,
        length: asked.length,
    }
}

// A log, as far as its input and the room for its replies go. The input may come in parts: `last`
// says that none follows, and what was not taken goes before the next.
pub fn log(
    state: State,
    space: &mut [u8],
    row: &mut [u32],
    input: &[u8],
    last: bool,
    replies: &mut [u8],
) -> Ran
    ensures { let o = log last (length replies.old / 28) (site state space.old row.old) input.now in (result ≡ ran_of o) × ((space.new ≡ o.site.space) × ((row.new ≡ o.site.row) × ((replies.new ≡ written replies.old 0 (bytes_of_all o.replies)) × RanIn (length input.now) (length replies.old) result))) }
{
    let room = replies.len() / REPLY;
    let mut after = state;
    let mut taken = 0;
    for told in 0..room {
        let at = REPLY * told;
        let part = &mut replies[at..at + REPLY];
        match serve_one(after, space, row, &input[taken..], last, part) {
            Step::Waits => {
                return Ran {
                    state: after,
                    taken,
                    given: at,
                    stopped: false,
                };
            }
            Step::Stops => {
                return Ran {
                    state: after,
                    taken,
                    given: at + REPLY,
                    stopped: true,
                };
            }
            Step::Goes { state, length } => {
                after = state;
                taken += length;
            }
        }
    }
    Ran {
        state: after,
        taken,
        given: REPLY * room,
        stopped: false,
    }
}
