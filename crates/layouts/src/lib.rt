// The layouts of a page: its kind, how many slots it has, how long they are, and whether a record
// carries a run. A layout is a type. The definitions know it by a number: 0 has twelve slots, any
// other has ten.
#![tactic(auto)]

ghost use Rattle.std.specs.Prelude.{◌≡◌, ◌*◌, ◌≤◌};
ghost use Rattle.layouts.specs.Layout.{slot_at, slots_on};

// How a page lays out its slots.
pub trait Layout {
    const NUMBER: u8;

    const KIND: u16;

    const SLOTS: usize;

    // How many bytes a slot has.
    const WIDTH: usize;

    // Whether a slot has a place for a run.
    const HAS_RUN: bool;

    ghost use Rattle.std.specs.Prelude.{◌≡◌, ℕ, ◌+◌, ◌*◌, ◌≤◌, Bool};
    ghost use Rattle.layouts.specs.Layout.{kind_of, slots_of, width_of, slot_at, has_run};

    // The constants, as clauses see them.
    ghost NUMBER: { ℕ };

    ghost KIND: { ℕ };

    ghost SLOTS: { ℕ };

    ghost WIDTH: { ℕ };

    ghost HAS_RUN: { Bool };

    // The number by which the definitions know it.
    ghost layout: { ℕ };

    ghost number_is: { NUMBER ≡ layout };

    ghost kind_is: { KIND ≡ kind_of layout };

    ghost slots_is: { SLOTS ≡ slots_of layout };

    ghost width_is: { WIDTH ≡ width_of layout };

    ghost run_is: { HAS_RUN ≡ has_run layout };

    ghost starts: { (i : ℕ) → slot_at layout i ≡ 16 + WIDTH * i };

    ghost some: { 1 ≤ SLOTS };

    ghost few: { SLOTS ≤ 12 };

    ghost narrow: { WIDTH ≤ 24 };

    ghost fits: { 16 + WIDTH * SLOTS ≤ 256 };
}

// Twelve slots, each with a key and a value.
#[derive(Clone, Copy, Debug, PartialEq, Eq)]
pub struct Twelve;

// Ten slots, each with a run besides.
#[derive(Clone, Copy, Debug, PartialEq, Eq)]
pub struct Ten;

// The layout of the files that the register makes and takes.
pub type InUse = Twelve;

impl Layout for Twelve {
    const NUMBER: u8 = 0;

    const KIND: u16 = 0x0011;

    const SLOTS: usize = 12;

    const WIDTH: usize = 20;

    const HAS_RUN: bool = false;

    ghost use Rattle.std.specs.Prelude.{true, false};
    ghost use Rattle.std.proofs.Common.{arith, refl};

    ghost NUMBER = { 0 };

    ghost KIND = { 17 };

    ghost SLOTS = { 12 };

    ghost WIDTH = { 20 };

    ghost HAS_RUN = { false };

    ghost layout = { 0 };

    ghost number_is = { refl };

    ghost kind_is = { refl };

    ghost slots_is = { refl };

    ghost width_is = { refl };

    ghost run_is = { refl };

    ghost starts = { λ i. refl };

    ghost some = { Prim.omega arith };

    ghost few = { Prim.omega arith };

    ghost narrow = { Prim.omega arith };

    ghost fits = { Prim.omega arith };
}

impl Layout for Ten {
    const NUMBER: u8 = 1;

    const KIND: u16 = 0x0021;

    const SLOTS: usize = 10;

    const WIDTH: usize = 24;

    const HAS_RUN: bool = true;

    ghost use Rattle.std.specs.Prelude.{true, false};
    ghost use Rattle.std.proofs.Common.{arith, refl};

    ghost NUMBER = { 1 };

    ghost KIND = { 33 };

    ghost SLOTS = { 10 };

    ghost WIDTH = { 24 };

    ghost HAS_RUN = { true };

    ghost layout = { 1 };

    ghost number_is = { refl };

    ghost kind_is = { refl };

    ghost slots_is = { refl };

    ghost width_is = { refl };

    ghost run_is = { refl };

    ghost starts = { λ i. refl };

    ghost some = { Prim.omega arith };

    ghost few = { Prim.omega arith };

    ghost narrow = { Prim.omega arith };

    ghost fits = { Prim.omega arith };
}

// Where a slot starts.
pub fn slot_at<L: Layout>(i: usize) -> usize
    requires { i ≤ 12 }
    ensures { result ≡ slot_at L.layout i }
{
    16 + L::WIDTH * i
}

// How many slots some pages have.
pub fn slots_on<L: Layout>(pages: u32) -> u32
    requires { pages ≤ 65535 }
    ensures value { result ≡ slots_on L.layout pages }
    ensures within { result ≤ 12 * pages }
{
    L::SLOTS as u32 * pages
}

// The same where the layout comes as a number: the theorem `due` of crate `demands` asks a state with
// any number.
pub fn slots_on_by_number(layout: u8, pages: u32) -> u32
    requires { pages ≤ 65535 }
    ensures value { result ≡ slots_on layout pages }
    ensures within { result ≤ 12 * pages }
{
    if layout == Twelve::NUMBER {
        return slots_on::<Twelve>(pages);
    }
    slots_on::<Ten>(pages)
}
