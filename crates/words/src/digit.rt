// Numbers as decimal digits.
ghost use Rattle.std.specs.Prelude.{◌+◌, ◌≤◌, length};
ghost use Rattle.rules.specs.Basic.{decimal};
ghost use Rattle.buffer.specs.Wrote.{Wrote};

// The digits of a number, and the place after them.
pub fn put_decimal(n: u64, out: &mut [u8], at: usize) -> usize
    requires { at + length (decimal n) ≤ length out.old }
    ensures { Wrote out.old at (decimal n) out.new result }
{
    if n < 10 {
        out[at] = b'0' + n as u8;
        return at + 1;
    }
    let past = put_decimal(n / 10, out, at);
    out[past] = b'0' + (n % 10) as u8;
    past + 1
}
