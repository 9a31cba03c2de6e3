// The list: records, one after the other. A record is the number of a call, in one byte, and six fields; a field is a length in two bytes, low first,
// and the bytes. A number in a field has four bytes, low first. Where bytes are missing, zeros are read. What the fields hold, host/cases says, which prints them.
ghost use Rattle.std.specs.Prelude.{◌≡◌, [], ◌∷◌, ◌+◌, ◌*◌, get_or, MatchOption};
ghost use Rattle.std.specs.Int.{from_le_bytes, w32};
ghost use Rattle.vectors.specs.Fields.{field, behind, Begins};

#[derive(Clone, Copy)]
pub struct Record<'a> {
    pub call: u8,
    pub numbers: &'a [u8],
    pub wanted: &'a [u8],
    pub output: &'a [u8],
    pub first: &'a [u8],
    pub second: &'a [u8],
    pub third: &'a [u8],
}

// The first record of a list, and what stands behind it.
pub fn split_record(list: &[u8]) -> Option<(Record<'_>, &[u8])>
    ensures { MatchOption result (list.now ≡ []) (λ r. Begins list.now r.0.call r.0.numbers.now r.0.wanted.now r.0.output.now r.0.first.now r.0.second.now r.0.third.now r.1.now) }
{
    let (call, rest) = list.split_first()?;
    let (numbers, rest) = split_field(rest);
    let (wanted, rest) = split_field(rest);
    let (output, rest) = split_field(rest);
    let (first, rest) = split_field(rest);
    let (second, rest) = split_field(rest);
    let (third, rest) = split_field(rest);
    let record = Record {
        call: *call,
        numbers,
        wanted,
        output,
        first,
        second,
        third,
    };
    Some((record, rest))
}

// The field that bytes begin with, and what stands behind it. One that runs past the end is cut there.
fn split_field(bytes: &[u8]) -> (&[u8], &[u8])
    ensures { (result.0.now ≡ field bytes.now) × (result.1.now ≡ behind bytes.now) }
{
    match bytes.split_first_chunk::<2>() {
        Some((length, rest)) => {
            let length = usize::from(u16::from_le_bytes(*length));
            rest.split_at(length.min(rest.len()))
        }
        None => (&[], &[]),
    }
}

// Number i of a field.
pub fn number(field: &[u8], i: u8) -> u32
    ensures { result ≡ from_le_bytes w32 (get_or field.now (4 * i) 0 ∷ get_or field.now (4 * i + 1) 0 ∷ get_or field.now (4 * i + 2) 0 ∷ get_or field.now (4 * i + 3) 0 ∷ []) }
{
    let at = 4 * usize::from(i);
    u32::from_le_bytes([
        byte_at(field, at),
        byte_at(field, at + 1),
        byte_at(field, at + 2),
        byte_at(field, at + 3),
    ])
}

fn byte_at(bytes: &[u8], at: usize) -> u8
    ensures { result ≡ get_or bytes.now at 0 }
{
    bytes.get(at).copied().unwrap_or(0)
}
