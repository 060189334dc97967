//! Counts the newlines of a text.
ghost use Rattle.std.specs.Prelude.{◌≡◌, ◌≤◌, length};
ghost use Rattle.lp_format.specs.format.Bytes.{newlines_in};

// The newlines of this many bytes are counted in one byte, so that the compiler counts 16 at a time.
const FEW: usize = 240;

// Returns how many newlines at most `FEW` bytes have.
fn few_newlines(bytes: &[u8]) -> u8
    requires { length bytes.now ≤ FEW }
    ensures few { result ≤ length bytes.now }
    ensures value { result ≡ newlines_in bytes.now }
{
    let mut count = 0;
    for at in 0..bytes.len() {
        if bytes[at] == b'\n' {
            count += 1;
        }
    }
    count
}

/// Returns how many newlines the bytes have. It looks at each byte once, and takes no memory.
///
/// ```text
/// newlines_in(b"a\nb\n")  gives  2
/// ```
pub fn newlines_in(bytes: &[u8]) -> usize
    ensures few { result ≤ length bytes.now }
    ensures value { result ≡ newlines_in bytes.now }
{
    let mut count = 0;
    let mut rest = bytes;
    while FEW < rest.len() {
        let (few, others) = rest.split_at(FEW);
        count += few_newlines(few) as usize;
        rest = others;
    }
    count + few_newlines(rest) as usize
}
