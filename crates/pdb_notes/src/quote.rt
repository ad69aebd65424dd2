// Bytes of a file on a terminal: nothing that is written here can move its cursor.
ghost use Rattle.std.specs.Prelude.{◌≤◌};

use files::STDERR_FILENO;

// A printing ASCII character is shown as it is, any other byte as a question mark.
fn shown(b: u8) -> u8 {
    if (b' '..=b'~').contains(&b) { b } else { b'?' }
}

// The text's length with this byte, while there is room. A tight text has one blank where there are several, and none in front.
fn put_shown(text: &mut [u8; 80], n: usize, b: u8, tight: bool) -> usize
    requires { n ≤ 80 }
    ensures { result ≤ 80 }
{
    if n == 80 {
        return n;
    }
    let mut before = b' ';
    if 0 < n {
        before = text[n - 1];
    }
    text[n] = shown(b);
    if tight && b == b' ' && before == b' ' {
        return n;
    }
    n + 1
}

// A tight text has no blank behind it.
fn end_of(text: &[u8; 80], n: usize, tight: bool) -> usize
    requires { n ≤ 80 }
    ensures { result ≤ 80 }
{
    if tight && 0 < n && text[n - 1] == b' ' {
        return n - 1;
    }
    n
}

// The first 80 bytes.
pub fn say_bytes(l: &[u8], tight: bool) {
    let mut text = [0u8; 80];
    let mut n = 0;
    for b in l {
        n = put_shown(&mut text, n, *b, tight);
    }
    let end = end_of(&text, n, tight);
    io::write_all(STDERR_FILENO, &text[..end]);
}
