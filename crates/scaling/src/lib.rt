// The size of a model: what a scale that a user writes means, and what it does to coordinates.
#![tactic(auto)]

ghost use Rattle.std.specs.Prelude.{◌≡◌, ◌+◌, ◌-◌, ◌^◌, ◌≤◌};
ghost use Rattle.scaling.specs.Scale.{formed, within, factor_in, factor, scaled};

// Whether so many digits, points and digits behind them are a scale, and all of so many bytes.
fn is_formed(front: usize, point: usize, back: usize, bytes: usize) -> bool
    requires { front + point + back ≤ 8 }
    ensures { result ≡ formed front point back bytes }
{
    (1..=4).contains(&front) && point <= back && back <= 3 * point && front + point + back == bytes
}

// What a number with so many digits behind its point is to be multiplied by, so that it is in thousandths.
fn tens(back: usize) -> u64
    ensures { (result ≡ 10 ^ (3 - back)) × (result ≤ 1000) }
{
    match back {
        0 => 1000,
        1 => 100,
        2 => 10,
        _ => 1,
    }
}

fn within(m: u64) -> Option<u32>
    ensures { result ≡ within m }
{
    if (1..=1000000).contains(&m) {
        return Some(m as u32);
    }
    None
}

// The scale that a user wrote, in thousandths of a millimetre for an angstrom; `None` where it is none.
pub fn factor_in(l: &[u8]) -> Option<u32>
    ensures { result ≡ factor_in l.now }
{
    if 8 < l.len() {
        return None;
    }
    let whole = pdb_fields::digits(l, 0, 0);
    let front = whole.next;
    let point = pdb_fields::lead_at(l, front, 46);
    let all = pdb_fields::digits(l, front + point, whole.value);
    let back = all.next - (front + point);
    if is_formed(front, point, back, l.len()) {
        return within((all.value as u64) * tens(back));
    }
    None
}

// The factor itself: `m` is exact in f32, and so is 1000, so the division alone rounds.
pub fn factor_of(m: u32) -> f32
    requires { m ≤ 1000000 }
    ensures { result ≡ factor m }
{
    (m as f32) / 1000.0
}

// Each coordinate times `k`, in place.
pub fn scale_positions(positions: &mut [f32], k: f32)
    ensures { positions.new ≡ scaled k positions.old }
{
    for x in positions.iter_mut() {
        *x = *x * k;
    }
}
