// Draws from a table. Draw x of a key is its seed times power x of 16807, in one step, so no draw
// waits for the one before it. A constant table is written out where it is used, so a loop takes it
// once, before its first turn.
#![tactic(auto)]

ghost use Rattle.std.specs.Prelude.{◌≡◌, ℕ, ◌*◌, ◌/◌, ◌%◌, ◌≤◌, ◌<◌, get_or};
ghost use Rattle.draws.specs.Draws.{seed_of, later};
ghost use Rattle.draws.specs.Steps.Powers.{power, limit, Drawable};

// Power 0 is 1, and each next 16807 times the last, modulo 2147483647. A file takes forty steps at
// most, and edition 2 begins ten draws later.
const POWERS: [u32; 51] = [
    1, 16807, 282475249, 1622650073, 984943658, 1144108930, 470211272, 101027544, 1457850878,
    1458777923, 2007237709, 823564440, 1115438165, 1784484492, 74243042, 114807987, 1137522503,
    1441282327, 16531729, 823378840, 143542612, 896544303, 1474833169, 1264817709, 1998097157,
    1817129560, 1131570933, 197493099, 1404280278, 893351816, 1505795335, 1954899097, 1636807826,
    563613512, 101929267, 1580723810, 704877633, 1358580979, 1624379149, 2128236579, 784558821,
    530511967, 2110010672, 1551901393, 1617819336, 1399125485, 156091745, 1356425228, 1899894091,
    585640194, 937186357,
];

// The largest draw that makes a mover, by the pages of a group.
const LIMITS: [u32; 8] = [
    2147483647, 1073741823, 715827882, 536870911, 429496729, 357913941, 306783378, 268435455,
];

pub fn powers() -> [u32; 51]
    ensures { (x : ℕ) → x < 51 → get_or result x 0 ≡ power x }
{
    POWERS
}

pub fn limits() -> [u32; 8]
    ensures { (np : ℕ) → np < 8 → get_or result np 0 ≡ limit np }
{
    LIMITS
}

// How many draws after draw x step x takes its draw.
pub fn later(edition: u16) -> usize
    ensures value { result ≡ later edition }
    ensures within { result ≤ 10 }
{
    if edition == 2 { 10 } else { 0 }
}

// Twice the seed of a key: all that its draws need of it.
pub fn twice_seed(key: u64) -> u64
    ensures { result ≡ 2 * seed_of key }
{
    2 * (key % 2147483646) + 2
}

// The draw of a power and a seed that is given doubled. The modulus is 2^31 - 1, so 2^31 counts as
// 1: the product's high half and its low bits are added, and the sum's bit 31 once more. As the
// seed is doubled, the high half begins at bit 32, where it costs nothing to take. The first
// remainder says that the seed has 32 bits, for which there is a quicker product.
pub fn draw(twice: u64, power: u32) -> u32
    requires { Drawable twice power }
    ensures { result ≡ power * (twice / 2) % 2147483647 }
{
    let product = twice % 4294967296 * power as u64;
    let sum = (product / 4294967296) as u32 + (product % 4294967296) as u32 / 2;
    sum / 2147483648 + sum % 2147483648
}

// The draw after a draw; after the seed, the first. Homes take their draws from the table; this
// is for draws that it doesn't reach. The modulus is 2^31 - 1, so 2^31 counts as 1: the high
// bits are added to the low ones, and nothing is divided.
pub fn next_draw(draw: u32) -> u32
    requires { draw < 2147483647 }
    ensures value { result ≡ 16807 * draw % 2147483647 }
    ensures within { result < 2147483647 }
{
    let product = 16807 * draw as u64;
    let folded = (product / 2147483648) as u32 + (product % 2147483648) as u32;
    if folded < 2147483647 {
        folded
    } else {
        folded - 2147483647
    }
}
