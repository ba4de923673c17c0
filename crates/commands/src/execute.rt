// One command carried out on a state, its pages and its row.
ghost use Rattle.std.specs.Prelude.{◌≡◌, true, false, MatchResult};
ghost use Rattle.layouts.specs.Layout.{in_use};
ghost use Rattle.numbers.specs.Little.{written};
ghost use Rattle.register.specs.Files.{file_of, left};
ghost use Rattle.commands.specs.Execute.{site, call_of, lent_to, too_many, executed, told_of};
ghost use Rattle.commands.specs.Steps.Within.{told_left};

use records::Command;
use state::{Done, Numbers, State};

// Why the log refuses a command itself.
#[derive(Clone, Copy, Debug, PartialEq, Eq)]
enum Unlent {
    TooManyPages,
}

impl Unlent {
    // The number of the refusal.
    fn number(self) -> u16
        ensures { result ≡ 12 }
    {
        match self {
            Unlent::TooManyPages => 12,
        }
    }
}

impl From<Unlent> for Numbers {
    ghost use Rattle.std.specs.Prelude.{◌≡◌};
    ghost use Rattle.records.specs.Records.{refused_by};

    ghost from_gives = { λ why told. told ≡ refused_by 12 };

    fn from(why: Unlent) -> Numbers {
        Numbers {
            refusal: why.number(),
            ..Numbers::default()
        }
    }
}

// How many pages a command is lent: a format those that it asks for, every other command those that
// the state tells of.
fn pages_lent(state: State, command: Command) -> Result<u16, Unlent>
    ensures { MatchResult result (λ pages. (too_many command ≡ false) × (pages ≡ lent_to state command)) (λ _. too_many command ≡ true) }
{
    match command {
        Command::Format { params: _, cap } => {
            if 128 < cap {
                return Err(Unlent::TooManyPages);
            }
            Ok(cap)
        }
        Command::Put { .. }
        | Command::Find { .. }
        | Command::Remove { .. }
        | Command::Grow
        | Command::Check
        | Command::Shrink => Ok(state.cap),
    }
}

// The register's call for a command, on what it is lent. Only a growth looks at the row.
#[tactic(auto, unfolding(register::specs::Files::left), using(crate::proofs::Lending::none_written, numbers::proofs::Laws::written_all))]
fn call(state: State, area: &mut [u8], row: &mut [u32], command: Command) -> Done<Numbers>
    ensures { let l = left (file_of state area.old) (call_of command row.old) in (result ≡ told_left l) × ((area.new ≡ l.file.area) × (row.new ≡ written row.old 0 l.row)) }
{
    let done = match command {
        Command::Format { params, cap } => register::format(state, params, cap, area),
        Command::Put { new } => register::put(state, area, new),
        Command::Find { key } => register::find(state, area, key),
        Command::Remove { key } => register::remove(state, area, key),
        Command::Grow => register::grow(state, area, row),
        Command::Check => register::check(state, area),
        Command::Shrink => register::shrink(state, area),
    };
    records::tell(done)
}

// A command is lent its pages and a count for each; where there are fewer, the call refuses them.
#[tactic(auto, unfolding(crate::specs::Execute::executed))]
pub fn execute(state: State, space: &mut [u8], row: &mut [u32], command: Command) -> Done<Numbers>
    ensures { let o = executed (site state space.old row.old) command in (result ≡ told_of o) × ((space.new ≡ o.site.space) × (row.new ≡ o.site.row)) }
{
    let pages = match pages_lent(state, command) {
        Ok(pages) => pages as usize,
        Err(why) => {
            return Done {
                state,
                answer: why.into(),
            };
        }
    };
    let end = space.len().min(256 * pages);
    let counts = row.len().min(pages);
    call(state, &mut space[..end], &mut row[..counts], command)
}
