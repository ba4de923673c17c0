// The log program: commands on standard input, replies on standard output, at most 128 pages.
#![tactic(auto)]

ghost use Rattle.std.specs.Prelude.{◌≡◌, ◌-◌, ◌≤◌, IfOk, OnOk, length, take, drop, not};
ghost use Rattle.std.specs.Io.KnownBytes.{Appends, ReadConsumes};

use commands::Ran;
use homes::Params;
use state::State;
use std::io;
use std::io::{Read, Write};

// What was not taken goes to the front; answered is how many bytes that is.
fn keep(input: &mut [u8], taken: usize, have: usize) -> usize
    requires { (taken ≤ have) × (have ≤ length input.old) }
    ensures value { result ≡ have - taken }
    ensures input_after { take result input.new ≡ take result (drop taken input.old) }
{
    input.copy_within(taken..have, 0);
    have - taken
}

// One read into the free end of the input: how many bytes came, none where the input ends. A read
// that fails takes nothing from it.
fn read_more<R: Read>(from: &mut R, free: &mut [u8]) -> io::Result<usize>
    ensures long { IfOk result (λ n. n ≤ length free.old) }
    ensures bytes { ReadConsumes (R.remaining from.old) (R.remaining from.new) result free.new }
{
    from.read(free)
}

// The replies out, in one write: whether the log goes on.
fn send<W: Write>(to: &mut W, replies: &[u8], ran: Ran) -> io::Result<bool>
    requires { ran.given ≤ length replies.now }
    ensures goes_on { IfOk result (λ b. b ≡ not ran.stopped) }
    ensures bytes { OnOk result (Appends (W.contents to.old) (W.contents to.new) (take ran.given replies.now)) }
{
    to.write_all(&replies[..ran.given])?;
    Ok(!ran.stopped)
}

// A turn answers what is there, or else reads more: so every reply is out before the program waits.
// A proved loop has to end, and nothing says that an input does: it has more turns than any run uses
// up. A read that fails ends the input too: what is there is still answered, and only then does the
// program end with the error.
fn main(rt: HostRuntime) -> io::Result<()> {
    let mut from = rt.stdin();
    let mut to = rt.stdout();
    let mut space = [0u8; 32768];
    let mut row = [0u32; 128];
    // Fixed memory, by a rule of the project: a Vec here would be one more thing that can run out.
    let mut input = [0u8; 65536];
    let mut replies = [0u8; 65536];
    let zeros = Params {
        n0: 0,
        n: 0,
        s: 0,
        edition: 0,
    };
    let mut state = State::new(zeros, 0);
    let mut have = 0;
    let mut ended = None;
    for _ in 0..u64::MAX {
        let ran = commands::log(
            state,
            &mut space[..],
            &mut row[..],
            &input[..have],
            ended.is_some(),
            &mut replies[..],
        );
        state = ran.state;
        have = keep(&mut input[..], ran.taken, have);
        if ran.given > 0 {
            if !send(&mut to, &replies[..], ran)? {
                break;
            }
        } else if ended.is_some() {
            break;
        } else {
            match read_more(&mut from, &mut input[have..]) {
                Ok(0) => ended = Some(Ok(())),
                Ok(came) => have += came,
                Err(error) => ended = Some(Err(error)),
            }
        }
    }
    ended.unwrap_or(Ok(()))
}
