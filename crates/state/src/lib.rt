// The state of a file, which goes into each call as a value and comes back as a value, and the
// answers of the calls.
#![tactic(auto)]

ghost use Rattle.std.specs.Prelude.{◌≡◌, ◌≤◌, ◌<◌};
ghost use Rattle.homes.specs.Homes.{InRange, Ready, first_pages, shape_of};
ghost use Rattle.state.specs.State.{in_range, is_due, fresh, one_more, one_less, grown, shrunk};
ghost use Rattle.state.specs.Answer.{number, again};
ghost use Rattle.state.specs.Done.{done_of};

use homes::{Params, Shape};

// The parameters, pages grown to, pages lent, records held.
#[derive(Clone, Copy, Debug, PartialEq, Eq)]
pub struct State {
    pub params: Params,
    pub p: u16,
    pub cap: u16,
    pub r: u32,
}

// What an accepted call answers. `read` counts the pages judged, `moved` the records that went to
// another page.
#[derive(Clone, Copy, Debug, PartialEq, Eq, Default)]
pub struct Accepted {
    pub value: u64,
    pub read: u32,
    pub moved: u32,
}

// Why a call is refused. A refusal changes neither the area nor the state.
#[derive(Clone, Copy, Debug, PartialEq, Eq)]
pub enum Refusal {
    OutOfRange,
    WrongArea,
    WrongRow,
    Broken { page: u16, read: u32 },
    Absent { read: u32 },
    Held { value: u64, read: u32 },
    NoRoom { read: u32 },
    AtCap,
    NotImage { read: u32 },
    Clash { value: u64, read: u32 },
    AtStart,
}

// What a call answers.
pub type Answer = Result<Accepted, Refusal>;

// What a call comes to inside: the state after it and what it answers, or why it is refused.
pub type Outcome = Result<(State, Accepted), Refusal>;

// An answer in the numbers of the refusal table.
#[derive(Clone, Copy, Debug, PartialEq, Eq, Default)]
pub struct Numbers {
    pub refusal: u16,
    pub page: u16,
    pub value: u64,
    pub read: u32,
    pub moved: u32,
}

// The state after a call, and what the call came to.
#[derive(Clone, Copy, Debug, PartialEq, Eq)]
pub struct Done<A> {
    pub state: State,
    pub answer: A,
}

impl State {
    // The state of an empty file.
    pub fn new(params: Params, cap: u16) -> Self
        requires { first_pages params < 65536 }
        ensures { result ≡ fresh params cap }
    {
        State {
            params,
            p: params.n0 * params.n,
            cap,
            r: 0,
        }
    }

    // Whether its numbers are in their ranges. The tests are joined without a branch.
    #[tactic(auto, using(crate::proofs::Ranges::product_fits))]
    pub fn in_range(self, layout: u8) -> bool
        ensures { result ≡ in_range layout self }
    {
        let n0 = self.params.n0;
        let n = self.params.n;
        let s = self.params.s;
        let edition = self.params.edition;
        let p = self.p;
        let cap = self.cap;
        let most = layouts::slots_on_by_number(layout, cap as u32);
        (1 <= n0)
            & (n0 <= 4)
            & (1 <= n)
            & (n <= 64)
            & (1 <= s)
            & (s <= 8)
            & (1 <= edition)
            & (edition <= 2)
            & (1 <= cap)
            & (cap <= 4096)
            & ((n0 as u32) * (n as u32) <= p as u32)
            & (p <= cap)
            & (self.r <= most)
    }

    // Whether growth is due.
    pub fn due(self, layout: u8) -> bool
        ensures { result ≡ is_due layout self }
    {
        let slots = layouts::slots_on_by_number(layout, self.p as u32);
        self.in_range(layout) & (4 * (slots as u64) < 5 * (self.r as u64))
    }

    pub fn one_more(mut self) -> Self
        requires { self.r < 49152 }
        ensures { result ≡ one_more self }
    {
        self.r = self.r + 1;
        self
    }

    pub fn one_less(mut self) -> Self
        requires { 1 ≤ self.r }
        ensures { result ≡ one_less self }
    {
        self.r = self.r - 1;
        self
    }

    // One page more.
    pub fn grown(mut self) -> Self
        requires { self.p < 4096 }
        ensures { result ≡ grown self }
    {
        self.p = self.p + 1;
        self
    }

    // One page less.
    pub fn shrunk(mut self) -> Self
        requires { 1 ≤ self.p }
        ensures { result ≡ shrunk self }
    {
        self.p = self.p - 1;
        self
    }

    // What the homes of its keys depend on.
    pub fn shape(self) -> Shape
        requires { InRange self.params self.p }
        ensures value { result ≡ shape_of self.params self.p }
        ensures ready { Ready result }
    {
        let params = self.params;
        Shape::new(params, self.p as u64)
    }
}

impl Done<Answer> {
    // A refused call leaves the state that it was given.
    pub fn of(state: State, outcome: Outcome) -> Self
        ensures { result ≡ done_of state outcome }
    {
        match outcome {
            Ok((next, accepted)) => Done {
                state: next,
                answer: Ok(accepted),
            },
            Err(why) => Done {
                state,
                answer: Err(why),
            },
        }
    }
}

impl Refusal {
    // The refusal of a put of a key that is held: a repeat where it offers the value held, and else a
    // clash. Both tell the value held.
    pub fn again(offered: u64, held: u64, read: u32) -> Self
        ensures { result ≡ again offered held read }
    {
        if offered == held {
            return Refusal::Held { value: held, read };
        }
        Refusal::Clash { value: held, read }
    }

    // Its number in 01's table, and 02's.
    pub fn number(self) -> u16
        ensures { result ≡ number self }
    {
        match self {
            Refusal::OutOfRange => 1,
            Refusal::WrongArea => 2,
            Refusal::WrongRow => 3,
            Refusal::Broken { .. } => 4,
            Refusal::Absent { .. } => 5,
            Refusal::Held { .. } => 6,
            Refusal::NoRoom { .. } => 7,
            Refusal::AtCap => 8,
            Refusal::NotImage { .. } => 9,
            Refusal::Clash { .. } => 13,
            Refusal::AtStart => 14,
        }
    }
}

impl From<Refusal> for Numbers {
    ghost use Rattle.std.specs.Prelude.{◌≡◌};
    ghost use Rattle.state.specs.Answer.{refused};

    ghost from_gives = { λ why numbers. numbers ≡ refused why };

    fn from(why: Refusal) -> Numbers {
        let refused = Numbers {
            refusal: why.number(),
            ..Numbers::default()
        };
        match why {
            Refusal::OutOfRange => refused,
            Refusal::WrongArea => refused,
            Refusal::WrongRow => refused,
            Refusal::Broken { page, read } => Numbers {
                page,
                read,
                ..refused
            },
            Refusal::Absent { read } => Numbers { read, ..refused },
            Refusal::Held { value, read } => Numbers {
                value,
                read,
                ..refused
            },
            Refusal::NoRoom { read } => Numbers { read, ..refused },
            Refusal::AtCap => refused,
            Refusal::NotImage { read } => Numbers { read, ..refused },
            Refusal::Clash { value, read } => Numbers {
                value,
                read,
                ..refused
            },
            Refusal::AtStart => refused,
        }
    }
}

impl From<Answer> for Numbers {
    ghost use Rattle.std.specs.Prelude.{◌≡◌};
    ghost use Rattle.state.specs.Answer.{numbers};

    ghost from_gives = { λ answer told. told ≡ numbers answer };

    fn from(answer: Answer) -> Numbers {
        match answer {
            Ok(accepted) => Numbers {
                refusal: 0,
                page: 0,
                value: accepted.value,
                read: accepted.read,
                moved: accepted.moved,
            },
            Err(why) => why.into(),
        }
    }
}
