// What differs between two register files: compare_files FIRST SECOND. A register file is the sixteen
// bytes of state that a slip begins with, and then the pages. The list goes to standard output or, where
// a file is refused, one record of kind 513.
#![tactic(auto)]

ghost use Rattle.std.specs.Io.KnownBytes.{Consumes};
ghost use Rattle.std.specs.Prelude.{◌≡◌, ◌-◌, ◌≤◌, ◌++◌, length, take, drop, replicate, IfOk, IfSome};

use reefcushion::reefcushion_compare;
use std::env::FillError;
use std::fs::File;
use std::io::{Read, Write};
use std::rt::{Env, Files};
use std::{io, str};

// The most bytes of a register file, and one more, so that a longer file is known as one.
const MOST: usize = 1048593;

// The bytes of the longest list: 20 for each record of two full files, and the closing record.
const ROOM: usize = 1966096;

// Reads until the buffer is full, the input ends or a read fails: how many bytes stand at its front,
// which are those that were read.
fn read_full<R: Read>(from: &mut R, buffer: &mut [u8]) -> usize
    ensures long { result ≤ length buffer.old }
    ensures bytes { Consumes (R.remaining from.old) (R.remaining from.new) (take result buffer.new) }
{
    let mut done = 0;
    // Each turn goes on by as many bytes as came, so no range has its steps.
    while done < buffer.len() {
        match from.read(&mut buffer[done..]) {
            Ok(0) => break,
            Ok(came) => done += came,
            Err(_) => break,
        }
    }
    done
}

// The words for an argument that is no file's name are those of the system's own errors.
fn no_name(rt: &impl Eprint, error: FillError) {
    let words = match error {
        FillError::NotPresent => "Invalid argument",
        FillError::TooLong => "File name too long",
    };
    let _ = eprintln!(rt; "compare_files FIRST SECOND: {words}");
}

// How many bytes of a file stand at the front of a buffer, as far as it goes. A read that fails ends
// the file: what came before is judged like any other bytes.
fn read_file<R: Files>(rt: &R, name: &str, buffer: &mut [u8]) -> io::Result<usize>
    ensures { IfOk result (λ count. count ≤ length buffer.old) }
{
    let mut file = File::open(rt, name)?;
    Ok(read_full(&mut file, buffer))
}

// The file that an argument names, to the front of a buffer: how many bytes it has there. What can't
// be read is told on standard error.
fn load<R: Files + Env + Eprint>(rt: &R, argument: usize, buffer: &mut [u8]) -> Option<usize>
    ensures { IfSome result (λ count. count ≤ length buffer.old) }
{
    let mut path = [0u8; 4096];
    let n = match rt.arg(argument, &mut path[..]) {
        Ok(n) => n,
        Err(error) => {
            no_name(rt, error);
            return None;
        }
    };
    let Ok(name) = str::from_utf8(&path[..n]) else {
        let _ = eprintln!(rt; "compare_files FIRST SECOND: a name is not UTF-8");
        return None;
    };
    match read_file(rt, name, buffer) {
        Ok(count) => Some(count),
        Err(error) => {
            let _ = eprintln!(rt; "{name}: {error}");
            None
        }
    }
}

// The slip of a file, which is its state and zeros where an answer stands, and its pages. A file that
// is shorter than a state has no pages, and is refused.
fn split_file(file: &[u8]) -> ([u8; 40], &[u8])
    ensures slip { result.0 ≡ take 16 file.now ++ replicate (40 - length (take 16 file.now)) 0 }
    ensures pages { result.1.now ≡ drop 16 file.now }
{
    let (state, pages) = file.split_at(file.len().min(16));
    let mut slip = [0u8; 40];
    slip[..state.len()].copy_from_slice(state);
    (slip, pages)
}

// One record instead of a list: the refusal, the broken page if there is one, the pages read and the file,
// as the twenty bytes of a comparison have them.
fn refused(told: &[u8]) -> [u8; 16]
    requires { length told.now ≡ 20 }
    ensures { 16 ≡ length result }
{
    let mut record = [0u8; 16];
    numbers::put::<u16>(&mut record[..], 0, 16);
    numbers::put::<u16>(&mut record[..], 2, 513);
    numbers::put(&mut record[..], 4, numbers::get::<u16>(told, 0));
    numbers::put(&mut record[..], 6, numbers::get::<u16>(told, 4));
    numbers::put(&mut record[..], 8, numbers::get::<u32>(told, 8));
    numbers::put(&mut record[..], 12, numbers::get::<u16>(told, 2));
    record
}

fn write(rt: &(impl Print + Eprint), output: &[u8]) {
    if let Err(error) = io::writer(rt).write_all(output) {
        let _ = eprintln!(rt; "standard output: {error}");
    }
}

// The list of two files, or the refusal. No list is longer than the room that it was written to.
fn tell(rt: &(impl Print + Eprint), first: &[u8], second: &[u8], room: &mut [u8]) {
    let (here, first_pages) = split_file(first);
    let (there, second_pages) = split_file(second);
    let mut told = [0u8; 20];
    let refusal = reefcushion_compare(
        &here[..],
        first_pages,
        &there[..],
        second_pages,
        room,
        &mut told[..],
    );
    if refusal != 0 {
        let record = refused(&told[..]);
        write(rt, &record[..]);
        return;
    }
    let length = numbers::get::<u32>(&told[..], 12) as usize;
    if length <= room.len() {
        write(rt, &room[..length]);
    }
}

// Both files, and what differs.
fn run<R: Files + Env + Print + Eprint>(
    rt: &R,
    first: &mut [u8],
    second: &mut [u8],
    room: &mut [u8],
)
    requires { (length first.old ≡ 1048593) × (length second.old ≡ 1048593) × (length room.old ≡ 1966096) }
{
    let Some(here) = load(rt, 1, first) else {
        return;
    };
    let Some(there) = load(rt, 2, second) else {
        return;
    };
    tell(rt, &first[..here], &second[..there], room);
}

// Zeros for a file, and for the list. Fixed memory, by a rule of the project: a Vec in their place is one
// more thing that can run out.
fn file_space() -> [u8; MOST]
    ensures { 1048593 ≡ length result }
{
    [0; MOST]
}

fn list_space() -> [u8; ROOM]
    ensures { 1966096 ≡ length result }
{
    [0; ROOM]
}

fn main(rt: HostRuntime) {
    let mut first = file_space();
    let mut second = file_space();
    let mut room = list_space();
    run(&rt, &mut first[..], &mut second[..], &mut room[..]);
}
