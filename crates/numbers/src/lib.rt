// Little-endian numbers of two, four and eight bytes, read from and written to lent bytes at an
// offset.
#![tactic(auto)]

ghost use Rattle.std.specs.Prelude.{◌≡◌, ◌+◌, ◌^◌, ◌≤◌, ◌<◌, length};
ghost use Rattle.numbers.specs.Little.{bytes_of, number_at, written};

// The number of `width` bytes at an offset. The highest byte is read first.
fn get_bytes(s: &[u8], at: usize, width: usize) -> u64
    requires { (width ≤ 8) × (at + width ≤ length s.now) }
    ensures value { result ≡ number_at width s.now at }
    ensures within { result < 256 ^ width }
{
    let mut r: u64 = 0;
    for i in (0..width).rev() {
        r = r * 256 + s[at + i] as u64;
    }
    r
}

// The lowest `width` bytes of a number to an offset, the lowest byte first. A caller takes it where a
// number has fewer bytes there than its type: a run has eight in memory and four on a page.
pub fn put_bytes(s: &mut [u8], at: usize, width: usize, x: u64)
    requires { at + width ≤ length s.old }
    ensures { s.new ≡ written s.old at (bytes_of width x) }
{
    let mut y = x;
    for i in 0..width {
        s[at + i] = (y % 256) as u8;
        y /= 256;
    }
}

// An unsigned number, and how many bytes hold it.
pub trait Number: Copy {
    const WIDTH: usize;

    ghost use Rattle.std.specs.Prelude.{◌≡◌, ℕ, ◌^◌, ◌≤◌, ◌<◌};

    ghost WIDTH: { ℕ };

    // The number that a value is.
    ghost number: { Self → ℕ };

    ghost narrow: { WIDTH ≤ 8 };

    fn from_low(x: u64) -> Self
        requires { x < 256 ^ WIDTH }
        ensures { number result ≡ x };

    fn widened(self) -> u64
        ensures { result ≡ number self };
}

impl Number for u16 {
    const WIDTH: usize = 2;

    ghost use Rattle.std.proofs.Common.{arith};

    ghost WIDTH = { 2 };

    ghost number = { λ x. x };

    ghost narrow = { Prim.omega arith };

    fn from_low(x: u64) -> u16 {
        x as u16
    }

    fn widened(self) -> u64 {
        self as u64
    }
}

impl Number for u32 {
    const WIDTH: usize = 4;

    ghost use Rattle.std.proofs.Common.{arith};

    ghost WIDTH = { 4 };

    ghost number = { λ x. x };

    ghost narrow = { Prim.omega arith };

    fn from_low(x: u64) -> u32 {
        x as u32
    }

    fn widened(self) -> u64 {
        self as u64
    }
}

impl Number for u64 {
    const WIDTH: usize = 8;

    ghost use Rattle.std.proofs.Common.{arith};

    ghost WIDTH = { 8 };

    ghost number = { λ x. x };

    ghost narrow = { Prim.omega arith };

    fn from_low(x: u64) -> u64 {
        x
    }

    fn widened(self) -> u64 {
        self
    }
}

// The number at an offset: its type says how many bytes it has.
pub fn get<T: Number>(s: &[u8], at: usize) -> T
    requires { at + T.WIDTH ≤ length s.now }
    ensures { T.number result ≡ number_at T.WIDTH s.now at }
{
    T::from_low(get_bytes(s, at, T::WIDTH))
}

// A number to an offset.
pub fn put<T: Number>(s: &mut [u8], at: usize, x: T)
    requires { at + T.WIDTH ≤ length s.old }
    ensures { s.new ≡ written s.old at (bytes_of T.WIDTH (T.number x)) }
{
    put_bytes(s, at, T::WIDTH, x.widened());
}
