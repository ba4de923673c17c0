// The calls for C and C++ as one archive. Each export has the name and the clauses of the library's
// call, and is that call: what calls it from Rattle takes the library, since a crate is a library or
// an archive, and not both.
#![tactic(auto)]

ghost use Rattle.std.specs.Prelude.{◌≡◌};
ghost use Rattle.homes.specs.Homes.{params};
ghost use Rattle.pages.specs.Page.{record_with};
ghost use Rattle.register.specs.Files.{format, find, put, remove, grow, shrink, check};
ghost use Rattle.reefcushion.specs.Slip.{state_in, served, served_row, served_run, served_room, served_compare, served_merge, due_on};

// A file of the edition that is asked for.
#[unsafe(no_mangle)]
pub extern "C" fn reefcushion_format_edition(
    slip: &mut [u8],
    area: &mut [u8],
    n0: u16,
    n: u16,
    s: u16,
    cap: u16,
    edition: u16,
) -> u32
    ensures { let o = served slip.old area.old (format (params n0 n s edition) cap) in (result ≡ o.returned) × ((slip.new ≡ o.slip) × ((area.new ≡ o.file.area) × (state_in slip.new ≡ o.file.state))) }
{
    reefcushion::reefcushion_format_edition(slip, area, n0, n, s, cap, edition)
}

// A file of edition 1, which a format makes that names none.
#[unsafe(no_mangle)]
pub extern "C" fn reefcushion_format(
    slip: &mut [u8],
    area: &mut [u8],
    n0: u16,
    n: u16,
    s: u16,
    cap: u16,
) -> u32
    ensures { let o = served slip.old area.old (format (params n0 n s 1) cap) in (result ≡ o.returned) × ((slip.new ≡ o.slip) × ((area.new ≡ o.file.area) × (state_in slip.new ≡ o.file.state))) }
{
    reefcushion::reefcushion_format(slip, area, n0, n, s, cap)
}

#[unsafe(no_mangle)]
pub extern "C" fn reefcushion_find(slip: &mut [u8], area: &[u8], key: u64) -> u32
    ensures { let o = served slip.old area.now (find key) in (result ≡ o.returned) × ((slip.new ≡ o.slip) × (state_in slip.new ≡ o.file.state)) }
{
    reefcushion::reefcushion_find(slip, area, key)
}

#[unsafe(no_mangle)]
pub extern "C" fn reefcushion_put(slip: &mut [u8], area: &mut [u8], key: u64, value: u64) -> u32
    ensures { let o = served slip.old area.old (put (record_with key value 0)) in (result ≡ o.returned) × ((slip.new ≡ o.slip) × ((area.new ≡ o.file.area) × (state_in slip.new ≡ o.file.state))) }
{
    reefcushion::reefcushion_put(slip, area, key, value)
}

#[unsafe(no_mangle)]
pub extern "C" fn reefcushion_remove(slip: &mut [u8], area: &mut [u8], key: u64) -> u32
    ensures { let o = served slip.old area.old (remove key) in (result ≡ o.returned) × ((slip.new ≡ o.slip) × ((area.new ≡ o.file.area) × (state_in slip.new ≡ o.file.state))) }
{
    reefcushion::reefcushion_remove(slip, area, key)
}

#[unsafe(no_mangle)]
pub extern "C" fn reefcushion_grow(slip: &mut [u8], area: &mut [u8], row: &mut [u32]) -> u32
    ensures { let o = served slip.old area.old (grow row.old) in (result ≡ o.returned) × ((slip.new ≡ o.slip) × ((area.new ≡ o.file.area) × ((row.new ≡ served_row slip.old area.old row.old) × (state_in slip.new ≡ o.file.state)))) }
{
    reefcushion::reefcushion_grow(slip, area, row)
}

#[unsafe(no_mangle)]
pub extern "C" fn reefcushion_shrink(slip: &mut [u8], area: &mut [u8]) -> u32
    ensures { let o = served slip.old area.old shrink in (result ≡ o.returned) × ((slip.new ≡ o.slip) × ((area.new ≡ o.file.area) × (state_in slip.new ≡ o.file.state))) }
{
    reefcushion::reefcushion_shrink(slip, area)
}

#[unsafe(no_mangle)]
pub extern "C" fn reefcushion_check(slip: &mut [u8], area: &[u8]) -> u32
    ensures { let o = served slip.old area.now check in (result ≡ o.returned) × ((slip.new ≡ o.slip) × (state_in slip.new ≡ o.file.state)) }
{
    reefcushion::reefcushion_check(slip, area)
}

// A pay run: put records end to end, and a reply of 28 bytes for each.
#[unsafe(no_mangle)]
pub extern "C" fn reefcushion_put_run(
    slip: &mut [u8],
    area: &mut [u8],
    input: &[u8],
    replies: &mut [u8],
) -> u32
    ensures { let o = served_run slip.old area.old input.now replies.old in (result ≡ o.returned) × ((slip.new ≡ o.slip) × ((area.new ≡ o.file.area) × ((replies.new ≡ served_room slip.old area.old input.now replies.old) × (state_in slip.new ≡ o.file.state)))) }
{
    reefcushion::reefcushion_put_run(slip, area, input, replies)
}

// What differs between two files, in lent room. It writes neither file, nor its slip.
#[unsafe(no_mangle)]
pub extern "C" fn reefcushion_compare(
    slip: &[u8],
    area: &[u8],
    other_slip: &[u8],
    other_area: &[u8],
    list: &mut [u8],
    told: &mut [u8],
) -> u32
    ensures { let o = served_compare slip.now area.now other_slip.now other_area.now list.old told.old in (result ≡ o.returned) × ((list.new ≡ o.list) × (told.new ≡ o.comparison)) }
{
    reefcushion::reefcushion_compare(slip, area, other_slip, other_area, list, told)
}

// The other file's records into the living one. It writes neither the other file nor its slip.
#[unsafe(no_mangle)]
pub extern "C" fn reefcushion_merge(
    slip: &mut [u8],
    area: &mut [u8],
    other_slip: &[u8],
    other_area: &[u8],
    row: &mut [u32],
) -> u32
    ensures { let o = served_merge slip.old area.old other_slip.now other_area.now row.old in (result ≡ o.served.returned) × ((slip.new ≡ o.served.slip) × ((area.new ≡ o.served.file.area) × ((row.new ≡ o.row) × (state_in slip.new ≡ o.served.file.state)))) }
{
    reefcushion::reefcushion_merge(slip, area, other_slip, other_area, row)
}

// Whether growth is due, 1 or 0. It leaves the slip as it is.
#[unsafe(no_mangle)]
pub extern "C" fn reefcushion_due(slip: &[u8]) -> u32
    ensures { result ≡ due_on slip.now }
{
    reefcushion::reefcushion_due(slip)
}
