// The log's records: a command read, a reply written. They stand by themselves, so that a pay run
// needs no log.
#![tactic(auto)]

ghost use Rattle.std.specs.Prelude.{◌≡◌, ◌≤◌, length};
ghost use Rattle.numbers.specs.Fields.{encode};
ghost use Rattle.records.specs.Records.{length_of, form_for, format_for, form_of, record_in, format_in, command_of, refusal_of, first_of, is_put, tells, reply_of};
ghost use Rattle.records.specs.Steps.Within.{Formed, Lies};

use homes::Params;
use layouts::{InUse, Layout};
use pages::Record;
use state::{Answer, Done, Numbers, State};

// What a kind stands for. A format's record has two lengths, of which the longer one names the
// edition.
#[derive(Clone, Copy, Debug, PartialEq, Eq)]
pub enum Kind {
    Format,
    FormatEdition,
    Put,
    Find,
    Remove,
    Grow,
    Check,
    Shrink,
}

// A kind's command, and the length of its record.
#[derive(Clone, Copy, Debug, PartialEq, Eq)]
pub struct Form {
    pub kind: Kind,
    pub length: u16,
}

// A command with its numbers.
#[derive(Clone, Copy)]
pub enum Command {
    Format { params: Params, cap: u16 },
    Put { new: Record },
    Find { key: u64 },
    Remove { key: u64 },
    Grow,
    Check,
    Shrink,
}

// A command that an input begins with, and how many bytes its record takes.
#[derive(Clone, Copy)]
pub struct Asked {
    pub command: Command,
    pub length: usize,
}

// Why no command was read: a kind that is unknown or a length that is wrong for it, or a record
// that the input ends within.
#[derive(Clone, Copy, Debug, PartialEq, Eq)]
pub enum Unread {
    UnknownKind,
    CutOff,
}

impl Unread {
    // The number of the refusal.
    pub fn number(self) -> u16
        ensures { result ≡ refusal_of self }
    {
        match self {
            Unread::UnknownKind => 10,
            Unread::CutOff => 11,
        }
    }
}

impl From<Unread> for Numbers {
    ghost use Rattle.std.specs.Prelude.{◌≡◌};
    ghost use Rattle.records.specs.Records.{refusal_of, refused_by};

    ghost from_gives = { λ why told. told ≡ refused_by (refusal_of why) };

    fn from(why: Unread) -> Numbers {
        Numbers {
            refusal: why.number(),
            ..Numbers::default()
        }
    }
}

// Which of a format's two records one of this length is.
fn format_form(told: u16) -> Form
    ensures { result ≡ form_for (format_for told) }
{
    if told == 14 {
        return Form {
            kind: Kind::FormatEdition,
            length: 14,
        };
    }
    Form {
        kind: Kind::Format,
        length: 12,
    }
}

// The command that a kind stands for, and the length of its record, where this one is told. No
// catch-all: each kind is in an arm of its own or in one of the two ranges.
#[tactic(auto, unfolding(crate::specs::Records::form_of))]
fn form_of(told: u16, kind: u16) -> Option<Form>
    ensures value { result ≡ form_of told kind }
    ensures within { Formed result }
{
    let form = match kind {
        0..=256 => return None,
        257 => format_form(told),
        258 => Form {
            kind: Kind::Put,
            length: 20,
        },
        259 => Form {
            kind: Kind::Find,
            length: 12,
        },
        260 => Form {
            kind: Kind::Remove,
            length: 12,
        },
        261 => Form {
            kind: Kind::Grow,
            length: 4,
        },
        262 => Form {
            kind: Kind::Check,
            length: 4,
        },
        263 => Form {
            kind: Kind::Shrink,
            length: 4,
        },
        264..=65535 => return None,
    };
    Some(form)
}

// The request and the commit of a put record. It names no run.
pub fn record_in(input: &[u8]) -> Record
    requires { 20 ≤ length input.now }
    ensures { result ≡ record_in input.now }
{
    Record {
        key: numbers::get::<u64>(input, 4),
        value: numbers::get::<u64>(input, 12),
        run: 0,
    }
}

// A format of this edition, from its record.
fn format_in(input: &[u8], edition: u16) -> Command
    requires { 12 ≤ length input.now }
    ensures { result ≡ format_in input.now edition }
{
    let params = Params {
        n0: numbers::get::<u16>(input, 4),
        n: numbers::get::<u16>(input, 6),
        s: numbers::get::<u16>(input, 8),
        edition,
    };
    Command::Format {
        params,
        cap: numbers::get::<u16>(input, 10),
    }
}

// The command of a whole record, from its body.
fn command_of(kind: Kind, input: &[u8]) -> Command
    requires { length_of kind ≤ length input.now }
    ensures { result ≡ command_of kind input.now }
{
    match kind {
        Kind::Format => format_in(input, 1),
        Kind::FormatEdition => format_in(input, numbers::get::<u16>(input, 12)),
        Kind::Put => Command::Put {
            new: record_in(input),
        },
        Kind::Find => Command::Find {
            key: numbers::get::<u64>(input, 4),
        },
        Kind::Remove => Command::Remove {
            key: numbers::get::<u64>(input, 4),
        },
        Kind::Grow => Command::Grow,
        Kind::Check => Command::Check,
        Kind::Shrink => Command::Shrink,
    }
}

// The first record of an input.
#[tactic(auto, unfolding(crate::specs::Records::first_of))]
pub fn first(input: &[u8]) -> Result<Asked, Unread>
    ensures value { result ≡ first_of input.now }
    ensures within { Lies (length input.now) result }
{
    if input.len() < 4 {
        return Err(Unread::CutOff);
    }
    let told = numbers::get::<u16>(input, 0);
    let Some(form) = form_of(told, numbers::get::<u16>(input, 2)) else {
        return Err(Unread::UnknownKind);
    };
    if told != form.length {
        return Err(Unread::UnknownKind);
    }
    let length = form.length as usize;
    if input.len() < length {
        return Err(Unread::CutOff);
    }
    Ok(Asked {
        command: command_of(form.kind, input),
        length,
    })
}

// Whether an input begins with a whole put record.
pub fn is_put(input: &[u8]) -> bool
    ensures { result ≡ is_put (first_of input.now) }
{
    match first(input) {
        Ok(asked) => matches!(asked.command, Command::Put { .. }),
        Err(_) => false,
    }
}

// What one of the register's calls came to, in numbers.
pub fn tell(done: Done<Answer>) -> Done<Numbers>
    ensures { result ≡ tells done }
{
    Done {
        state: done.state,
        answer: done.answer.into(),
    }
}

// A reply, with P and due of the state after the command.
pub fn reply(part: &mut [u8], told: Numbers, state: State)
    requires { length part.old ≡ 28 }
    ensures { part.new ≡ encode (reply_of told state) }
{
    let due = u16::from(state.due(InUse::NUMBER));
    numbers::put::<u16>(part, 0, 28);
    numbers::put::<u16>(part, 2, 513);
    numbers::put(part, 4, told.refusal);
    numbers::put(part, 6, told.page);
    numbers::put(part, 8, told.value);
    numbers::put(part, 16, told.read);
    numbers::put(part, 20, told.moved);
    numbers::put(part, 24, state.p);
    numbers::put(part, 26, due);
}
