// The nearest f32 to a square root, over whole numbers. A guess, of which nothing is proved but its size, is the answer
// where two whole-number tests say so, and is walked from otherwise.
ghost use Rattle.std.specs.Prelude.{◌≡◌, ◌&&◌, ◌+◌, ◌*◌, ◌/◌, ◌%◌, ◌^◌, ◌<◌, ◌≤◌, leb};
ghost use Rattle.std.specs.Float.{binary32};
ghost use Rattle.std.specs.Float.Ieee.{to_bits, of_bits};
ghost use Rattle.floats.specs.Floats.{root, nearest_root};

// A cubic in d, whose terms after the first are taken off. The four count in 2^-8, 2^-32, 2^-57 and 2^-64; the first has
// a half more, so that the whole number below is the nearest, and 2^20 less, which keeps every step above zero.
#[derive(Drop)]
struct Cubic(u32, u32, u32, u16);

// √ on the parts from 2^46 to 2^47, sixteen, and from there to 2^48, with d counted down from a part's last number:
// through the four Chebyshev points of each part. No promise rests on these numbers. A match becomes a table in the
// program; a constant array would be copied at every call.
fn part(i: u64) -> Cubic {
    match i {
        0 => Cubic(1945140034, 2083374269, 1957955854, 15177),
        1 => Cubic(2009314933, 2024674438, 1797373897, 13100),
        2 => Cubic(2071730612, 1970672289, 1657587348, 11401),
        3 => Cubic(2132524271, 1920772888, 1535014435, 9994),
        4 => Cubic(2191816157, 1874481715, 1426828810, 8820),
        5 => Cubic(2249712353, 1831383868, 1330773666, 7829),
        6 => Cubic(2306307012, 1791128308, 1245027562, 6988),
        7 => Cubic(2361684154, 1753415752, 1168106049, 6268),
        8 => Cubic(2415919132, 1717989255, 1098788513, 5648),
        9 => Cubic(2469079830, 1684626810, 1036063065, 5110),
        10 => Cubic(2521227665, 1653135469, 979084536, 4642),
        11 => Cubic(2572418415, 1623346624, 927142100, 4231),
        12 => Cubic(2622702920, 1595112202, 879634074, 3870),
        13 => Cubic(2672127669, 1568301553, 836048120, 3550),
        14 => Cubic(2720735312, 1542798902, 795945551, 3266),
        15 => Cubic(2768565082, 1518501241, 758948798, 3013),
        16 => Cubic(2862032970, 2946336146, 2768967724, 21463),
        17 => Cubic(2952789983, 2863322050, 2541870541, 18527),
        18 => Cubic(3041059082, 2786951478, 2344182508, 16123),
        19 => Cubic(3127034300, 2716383069, 2170838233, 14134),
        20 => Cubic(3210885689, 2650917464, 2017840654, 12473),
        21 => Cubic(3292763274, 2589967904, 1881998166, 11072),
        22 => Cubic(3372800209, 2533037945, 1760734863, 9883),
        23 => Cubic(3451115315, 2479704337, 1651951417, 8864),
        24 => Cubic(3527815155, 2429603704, 1553921617, 7987),
        25 => Cubic(3602995736, 2382422083, 1465214439, 7227),
        26 => Cubic(3676743911, 2337886600, 1384634630, 6564),
        27 => Cubic(3749138565, 2295758812, 1311176932, 5984),
        28 => Cubic(3820251592, 2255829309, 1243990437, 5472),
        29 => Cubic(3890148744, 2217913326, 1182350590, 5020),
        30 => Cubic(3958890332, 2181847132, 1125636994, 4619),
        31 => Cubic(4026531841, 2147485049, 1073315683, 4261),
        _ => Cubic(0, 0, 0, 0),
    }
}

// The cubic at d, to the whole number below.
fn value(c: Cubic, d: u64) -> u64
    requires { d < 2 ^ 19 }
    ensures { result < 2 ^ 25 }
{
    let bend = c.2 as u64 * 128 + c.3 as u64 * d;
    let less = c.1 as u64 * d + d * d / 16384 * bend / 262144;
    (c.0 as u64 * 16777216 + 0x0010_0000_0000_0000 - less) / 4294967296
}

// A guess at the root of m * 2^(23 + g % 2), for t = (g - 1) * 2^23 + m: one in a hundred is off by one.
fn guess(t: u64) -> u64
    ensures { result < 2 ^ 25 }
{
    value(part(t / 524288 % 32), 524287 - t % 524288)
}

// The whole number nearest to √n, from any start.
fn walked(n: u64, start: u64) -> u64
    requires { (0 < n) × (n < 2 ^ 48) × (start < 2 ^ 25) }
    ensures { (result * result < n + result) × (n ≤ result * result + result) × (result ≤ 2 ^ 24) }
{
    let mut r = start;
    while n + r <= r * r {
        r -= 1;
    }
    while r * r + r < n {
        r += 1;
    }
    r
}

// The same, where the start is most often the answer: then it takes two tests and no loop.
fn nearest_root(n: u64, start: u64) -> u64
    requires { (0 < n) × (n < 2 ^ 48) × (start < 2 ^ 25) }
    ensures { (result * result < n + result) × (n ≤ result * result + result) × (result ≤ 2 ^ 24) }
{
    let s = start * start;
    if n + start <= s {
        return walked(n, start);
    }
    if s + start < n {
        return walked(n, start);
    }
    start
}

// The pattern of the root of m * 2^(g + 21) squares of the smallest value, for t = (g - 1) * 2^23 + m and an m of 24 digits.
fn positive(t: u64) -> u32
    requires { (2 ^ 24 ≤ t) × (t < 400 * 2 ^ 23) }
    ensures { result ≡ to_bits binary32 (nearest_root binary32 ((t % 2 ^ 23 + 2 ^ 23) * 2 ^ (t / 2 ^ 23 + 21))) }
{
    let g = t / 8388608;
    let q = nearest_root((t % 8388608 + 8388608) << (23 + g % 2), guess(t));
    ((g / 2 - 1) * 8388608 + q) as u32
}

// The pattern with 127 added to the exponent. Below the normal range the digits are moved up to 24, and the exponent goes on down.
fn lifted(b: u32) -> u64
    requires { (0 < b) × (b < 255 * 2 ^ 23) }
    ensures lower_bound { (2 ^ 24 ≤ result) × (result < 400 * 2 ^ 23) }
    ensures result_value { to_bits binary32 (nearest_root binary32 ((result % 2 ^ 23 + 2 ^ 23) * 2 ^ (result / 2 ^ 23 + 21))) ≡ to_bits binary32
        (root binary32 (of_bits binary32 b)) }
{
    if b < 8388608 {
        let s = u32::leading_zeros(b) - 8;
        return (127 - s as u64) * 8388608 + ((b as u64) << s);
    }
    b as u64 + 1065353216
}

// The infinity, every NaN, and every negative pattern.
fn special(b: u32) -> u32
    requires { 0x7f80_0000 ≤ b }
    ensures { result ≡ to_bits binary32 (root binary32 (of_bits binary32 b)) }
{
    if b == 0x7f80_0000 {
        return b;
    }
    if b == 0x8000_0000 {
        return b;
    }
    0x7fc0_0000
}

fn is_near_one(b: u32) -> bool
    ensures { result ≡ (leb 0x3f7f_f000 b && leb b 0x3f80_1000) }
{
    if b < 0x3f7f_f000 {
        return false;
    }
    b <= 0x3f80_1000
}

// By the patterns, the root of a number near one is half as far from one, to the whole number below. Most roots are of a unit vector's
// square, and need no guess.
fn near_one(b: u32) -> u32
    requires { (0x3f7f_f000 ≤ b) × (b ≤ 0x3f80_1000) }
    ensures { result ≡ to_bits binary32 (root binary32 (of_bits binary32 b)) }
{
    (b + 0x3f80_0000) / 2
}

pub fn root_bits(b: u32) -> u32
    ensures { result ≡ to_bits binary32 (root binary32 (of_bits binary32 b)) }
{
    if is_near_one(b) {
        return near_one(b);
    }
    if 0x7f80_0000 <= b {
        return special(b);
    }
    if b == 0 {
        return 0;
    }
    positive(lifted(b))
}

// The root of a float.
pub fn square_root(x: f32) -> f32
    ensures { result ≡ root binary32 x }
{
    if x != x {
        return 0.0 / 0.0;
    }
    let r = root_bits(f32::to_bits(x));
    if r == 0x7fc0_0000 {
        return 0.0 / 0.0;
    }
    f32::from_bits(r)
}
