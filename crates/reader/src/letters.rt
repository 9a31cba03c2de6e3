// Counts letters, many bytes at once.
ghost use Rattle.std.specs.Prelude.{◌≡◌, ◌-◌, ◌≤◌, ◌<◌, length};
ghost use Rattle.rules.specs.Name.{follows};
ghost use Rattle.reader.specs.Letters.{one, letters_from};

// 1 for a byte that may follow in a name.
fn letter(b: u8) -> u8
    ensures { result ≡ one (follows b) }
{
    u8::from(b.is_ascii_alphanumeric() || b == b'_')
}

// In a byte, so that many are counted at once.
fn count_block(s: &[u8], from: usize, to: usize) -> u8
    requires { (from ≤ to) × (to ≤ length s.now) × (to - from ≤ 128) }
    ensures { result ≡ letters_from s.now from (to - from) }
{
    let mut count = 0;
    for i in from..to {
        count += letter(s[i]);
    }
    count
}

// Where the next 128 bytes end, or all do.
fn block_end(i: usize, to: usize) -> usize
    requires { i < to }
    ensures { (i < result) × (result ≤ to) × (result - i ≤ 128) }
{
    i + (to - i).min(128)
}

pub fn count_letters(s: &[u8], from: usize, to: usize) -> usize
    requires { (from ≤ to) × (to ≤ length s.now) }
    ensures { result ≡ letters_from s.now from (to - from) }
{
    let mut count = 0;
    let mut i = from;
    while i < to {
        let stop = block_end(i, to);
        let part = count_block(s, i, stop);
        count += part as usize;
        i = stop;
    }
    count
}
