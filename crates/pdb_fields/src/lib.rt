// Numbers in the columns of a line.
#![tactic(auto)]

ghost use Rattle.std.specs.Prelude.{◌≡◌, false, ◌+◌, ◌*◌, ◌-◌, ◌^◌, ◌<◌, ◌≤◌, length, drop};
ghost use Rattle.pdb_fields.specs.Numbers.{run, is_blank, is_digit, lead, whole, thousandths};
ghost use Rattle.pdb_fields.specs.Post.{Digits};

// A number with its sign. Fields that hold none give `None`.
#[derive(Clone, Copy)]
pub struct Signed {
    pub minus: bool,
    pub size: u32,
}

#[derive(Drop)]
pub struct Run {
    pub next: usize,
    pub value: u32,
}

// Past the blanks from `i` on.
fn past_blanks(l: &[u8], i: usize) -> usize
    requires { i ≤ length l.now }
    ensures { (result ≡ i + run is_blank (drop i l.now)) × (result ≤ length l.now) }
{
    for k in i..l.len() {
        if l[k] != 32 {
            return k;
        }
    }
    l.len()
}

fn is_digit(b: u8) -> bool
    ensures { result ≡ is_digit b }
{
    (48..=57).contains(&b)
}

// 1 where the byte `b` stands at `i`.
pub fn lead_at(l: &[u8], i: usize, b: u8) -> usize
    requires { i ≤ length l.now }
    ensures { (result ≡ lead b (drop i l.now)) × (i + result ≤ length l.now) }
{
    if i < l.len() && l[i] == b { 1 } else { 0 }
}

// The digits from `i` on, `v` standing before them.
pub fn digits(l: &[u8], i: usize, v: u32) -> Run
    requires { (i ≤ length l.now) × (length l.now ≤ 8) × (v < 10 ^ i) }
    ensures { (Digits l.now i v result.next result.value) × (result.value < 10 ^ result.next) }
{
    let mut value = v;
    for k in i..l.len() {
        let b = l[k];
        if !is_digit(b) {
            return Run { next: k, value };
        }
        value = 10 * value + ((b - 48) as u32);
    }
    Run {
        next: l.len(),
        value,
    }
}

// A whole number.
pub fn whole_in(l: &[u8]) -> Option<Signed>
    requires { length l.now ≤ 8 }
    ensures { result ≡ whole l.now }
{
    let a = past_blanks(l, 0);
    let m = lead_at(l, a, 45);
    let d = digits(l, a + m, 0);
    let next = d.next;
    if next == a + m {
        return None;
    }
    if past_blanks(l, next) != l.len() {
        return None;
    }
    Some(Signed {
        minus: m == 1,
        size: d.value,
    })
}

// A number with three decimal places, in thousandths.
pub fn thousandths_in(l: &[u8]) -> Option<Signed>
    requires { length l.now ≤ 8 }
    ensures { result ≡ thousandths l.now }
{
    let a = past_blanks(l, 0);
    let m = lead_at(l, a, 45);
    let d = digits(l, a + m, 0);
    let next = d.next;
    if next == a + m {
        return None;
    }
    if lead_at(l, next, 46) != 1 {
        return None;
    }
    let e = digits(l, next + 1, d.value);
    let end = e.next;
    if end != next + 4 {
        return None;
    }
    if past_blanks(l, end) != l.len() {
        return None;
    }
    Some(Signed {
        minus: m == 1,
        size: e.value,
    })
}
