// One slot of a page: its length, its kind, a record's key and value and, where the layout has it,
// its run.
ghost use Rattle.std.specs.Prelude.{◌≡◌, cond, ◌+◌, ◌≤◌, length};
ghost use Rattle.numbers.specs.Fields.{encode, matches};
ghost use Rattle.numbers.specs.Little.{written};
ghost use Rattle.layouts.specs.Layout.{width_of};
ghost use Rattle.pages.specs.Page.{run_at, run_field, slot, slot_of, record_slot, empty_slot, record_in};

use crate::Record;
use layouts::Layout;

// The run of the slot at an offset, or 0 where slots have none.
pub fn get_run<L: Layout>(part: &[u8], at: usize) -> u64
    requires { at + width_of L.layout ≤ length part.now }
    ensures { result ≡ run_at L.layout part.now (at + 20) }
{
    if !L::HAS_RUN {
        return 0;
    }
    numbers::get::<u32>(part, at + 20) as u64
}

// What stands at the places of a record in the slot at an offset.
pub fn get<L: Layout>(part: &[u8], at: usize) -> Record
    requires { (at + 20 ≤ length part.now) × (at + width_of L.layout ≤ length part.now) }
    ensures { result ≡ record_in L.layout part.now at }
{
    let key = numbers::get(part, at + 4);
    let value = numbers::get(part, at + 12);
    let run = get_run::<L>(part, at);
    Record { key, value, run }
}

// Whether a slot is a record's, or an empty one. A record may be any numbers.
pub fn formed<L: Layout>(part: &[u8], at: usize, used: bool) -> bool
    requires { (at + 20 ≤ length part.now) × (at + width_of L.layout ≤ length part.now) }
    ensures { result ≡ matches part.now at (cond used (record_slot L.layout (record_in L.layout part.now at)) (empty_slot L.layout)) }
{
    let length = numbers::get::<u16>(part, at) as usize == L::WIDTH;
    let kind: u16 = numbers::get(part, at + 2);
    if used {
        return length & (kind == 1);
    }
    let x = get::<L>(part, at);
    length & ((kind == 0) & ((x.key == 0) & ((x.value == 0) & (x.run == 0))))
}

// The run to its place in the slot at an offset, where slots have one.
#[tactic(auto, using(crate::proofs::Write::run_written, crate::proofs::Write::no_run_written))]
pub fn put_run<L: Layout>(part: &mut [u8], at: usize, run: u64)
    requires { at + width_of L.layout ≤ length part.old }
    ensures { part.new ≡ written part.old (at + 20) (encode (run_field L.layout run)) }
{
    if !L::HAS_RUN {
        return;
    }
    numbers::put_bytes(part, at + 20, 4, run);
}

// A slot of any kind, with any numbers, to an offset. Records and empty slots are written by `put`.
pub fn put_kind<L: Layout>(part: &mut [u8], at: usize, kind: u16, x: Record)
    requires { (at + 20 ≤ length part.old) × (at + width_of L.layout ≤ length part.old) }
    ensures { part.new ≡ written part.old at (encode (slot L.layout kind x)) }
{
    numbers::put(part, at, L::WIDTH as u16);
    numbers::put(part, at + 2, kind);
    numbers::put(part, at + 4, x.key);
    numbers::put(part, at + 12, x.value);
    put_run::<L>(part, at, x.run);
}

// A record's slot, or an empty one, to an offset.
pub fn put<L: Layout>(part: &mut [u8], at: usize, x: Option<Record>)
    requires { (at + 20 ≤ length part.old) × (at + width_of L.layout ≤ length part.old) }
    ensures { part.new ≡ written part.old at (encode (slot_of L.layout x)) }
{
    match x {
        Some(x) => put_kind::<L>(part, at, 1, x),
        None => put_kind::<L>(part, at, 0, Record::default()),
    }
}
