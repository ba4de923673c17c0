// Sorted entries made the records of the list, in place: upward from the start of a row, as the entries
// at its end are read.
ghost use Rattle.std.specs.Prelude.{◌≡◌, ◌+◌, ◌-◌, ◌*◌, ◌/◌, ◌≤◌, length, drop};
ghost use Rattle.numbers.specs.Little.{written};
ghost use Rattle.numbers.specs.Fields.{width, encode};
ghost use Rattle.layouts.specs.Layout.{in_use};
ghost use Rattle.pages.specs.Page.{payload};
ghost use Rattle.lookups.specs.Steps.Told.{held_by};
ghost use Rattle.entries.specs.Steps.Entries.{size, entries_in};
ghost use Rattle.sites.specs.Steps.Sites.{Walkable, look};
ghost use Rattle.differences.specs.Listing.{closing};
ghost use Rattle.differences.specs.Steps.Unpacked.{more, or_vacant, entry_fields, unpacked, wide};

use crate::Difference;
use entries::Entry;
use layouts::{InUse, Layout};
use pages::Record;
use sites::Site;

// The bytes of a second value.
pub const MORE: usize = 8;

// The record that was found, or zeros.
fn record_of(held: Option<Record>) -> Record
    ensures { result ≡ or_vacant (held_by held) }
{
    held.unwrap_or_default()
}

// What a record says of its key.
fn put_payload(row: &mut [u8], at: usize, x: Record)
    requires { at + more ≤ length row.old }
    ensures { row.new ≡ written row.old at (encode (payload in_use x)) }
{
    numbers::put(row, at, x.value);
}

// An entry as a record of the list; the answer is where it ends. A record of one file is the entry
// itself; behind one of both files the second value stands, which is sought there again.
fn put_record(row: &mut [u8], at: usize, e: Entry, other: &[u8], site: Site) -> usize
    requires { Walkable other.now site × (at + width (entry_fields (look site other.now) e) ≤ length row.old) }
    ensures value { result ≡ at + width (entry_fields (look site other.now) e) }
    ensures row_after { row.new ≡ written row.old at (encode (entry_fields (look site other.now) e)) }
{
    let unlike = u16::from(Difference::Unlike);
    if e.from != unlike {
        entries::put_entry(row, at, e);
        return at + InUse::WIDTH;
    }
    let first = e.held;
    let shape = site.shape();
    let home = shape.home(first.key);
    let sought = sites::seek(other, site, home, first.key);
    let second = record_of(sought);
    let long = Entry {
        home: (InUse::WIDTH + MORE) as u16,
        from: unlike,
        held: first,
    };
    entries::put_entry(row, at, long);
    put_payload(row, at + InUse::WIDTH, second);
    at + InUse::WIDTH + MORE
}

// The entries from `base` to the end of a row made records from its start on. As many bytes stand free
// before the entries as the records are longer, so a record ends where the next entry begins, or below.
pub fn unpack(row: &mut [u8], base: usize, other: &[u8], site: Site)
    requires { Walkable other.now site × (base ≤ length row.old) × (length row.old ≡ base + size * ((length row.old - base) / size)) × (base ≡ more * wide (entries_in (drop base row.old))) }
    ensures { row.new ≡ unpacked (look site other.now) (entries_in (drop base row.old)) }
{
    let mut to = 0;
    let mut from = base;
    // Two offsets step together, each by its own length: a `for` over one would be no plainer.
    while from < row.len() {
        let e = entries::get_entry(&row[..], from);
        to = put_record(row, to, e, other, site);
        from += InUse::WIDTH;
    }
}

// The closing record.
pub fn put_closing(room: &mut [u8], at: usize, first: u32, second: u32, both: u32)
    requires { at + 16 ≤ length room.old }
    ensures { room.new ≡ written room.old at (encode (closing first second both)) }
{
    numbers::put::<u16>(room, at, 16);
    numbers::put::<u16>(room, at + 2, 772);
    numbers::put(room, at + 4, first);
    numbers::put(room, at + 8, second);
    numbers::put(room, at + 12, both);
}
