// The page that a key starts from: its remainder by the n0 x N pages of the first step.
ghost use Rattle.std.specs.Prelude.{◌≡◌, ◌/◌, ◌%◌, ◌≤◌, ◌<◌};
ghost use Rattle.homes.specs.Steps.Starts.{start_of};

// How remainders by m are found without dividing by it: 2^34 by m, and what 2^24 and 2^34 leave.
#[derive(Clone, Copy, Debug, PartialEq, Eq)]
pub struct Start {
    pub m: u64,
    pub by: u64,
    pub of_24: u64,
    pub of_34: u64,
}

// What m leaves of a number below 2^26, where `by` is (2^34 - 1) / m: for these the product with
// `by` is close enough to give the quotient.
fn rest(x: u64, m: u64, by: u64) -> u64
    requires { (1 ≤ m) × (m ≤ 256) × (by ≡ 17179869183 / m) × (x < 67108864) }
    ensures { result ≡ x % m }
{
    x - (x + 1) * by / 17179869184 * m
}

impl Start {
    // The one division by a number of the file: once for many keys.
    pub fn new(m: u64) -> Self
        requires { (1 ≤ m) × (m ≤ 256) }
        ensures { result ≡ start_of m }
    {
        let by = 17179869183 / m;
        let of_24 = rest(16777216, m, by);
        Self {
            m,
            by,
            of_24,
            of_34: 17179869184 - by * m,
        }
    }

    // The remainder of a key. Its high bits, times what their weight leaves, are added to its low
    // ones, twice; what is then left is small.
    pub fn page(self, key: u64) -> u64
        requires { (1 ≤ self.m) × (self.m ≤ 256) × (self ≡ start_of self.m) }
        ensures value { result ≡ key % self.m }
        ensures within { result < self.m }
    {
        let near = key % 17179869184 + key / 17179869184 * self.of_34;
        let low = near % 16777216 + near / 16777216 * self.of_24;
        rest(low, self.m, self.by)
    }
}
