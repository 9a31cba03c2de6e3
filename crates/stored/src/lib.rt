// The stored form: a term or a proof as blocks, each with its check.
#![tactic(auto)]

ghost use Rattle.std.specs.Prelude.{◌≡◌, ◌≤◌, length, take};
ghost use Rattle.rules.specs.Limits.{limits, stored_room};
ghost use Rattle.rules.specs.Stored.{stored, read_kind};
ghost use Rattle.rules.specs.Calls.{store_call, load_call};
ghost use Rattle.stored.specs.Storing.{is_size_wrong};
ghost use Rattle.stored.specs.Answers.{Filled, accepted};

use blocks::{open_blocks, put_blocks};
use buffer::run::{clear, copy};
use proof::proof_input;
use reader::{refused, term_input};
use rules::{BLOCK_BYTES, BLOCK_CONTENT, Kind, OUTPUT_ROOM, Reason, Refusal, STORED_ROOM};

pub mod block;
mod blocks;
pub mod check;
mod writing;

// The content of as many blocks as a stored file may have.
const GATHER_ROOM: usize = STORED_ROOM / BLOCK_BYTES * BLOCK_CONTENT;

// Refusal 10: a stored length of 0, of no whole blocks, or over the limit.
fn size_wrong(size: usize) -> bool
    ensures { result ≡ is_size_wrong limits size }
{
    size == 0 || size % BLOCK_BYTES != 0 || STORED_ROOM < size
}

// The stored form of content, then zeros.
fn put_stored(kind: Kind, content: &[u8], out: &mut [u8]) -> Result<usize, Refusal>
    requires { (length content.now ≤ limits.bytes) × (stored_room limits ≤ length out.old) }
    ensures { Filled out.old (stored kind content.now) out.new result }
{
    let size = put_blocks(kind, content, out);
    clear(out, size);
    Ok(size)
}

// The content that was gathered, then zeros.
fn put_content(s: &[u8], size: usize, out: &mut [u8]) -> Result<usize, Refusal>
    requires { (size ≤ length s.now) × (size ≤ length out.old) }
    ensures { Filled out.old (take size s.now) out.new result }
{
    let past = copy(s, 0, size, out, 0);
    clear(out, past);
    Ok(past)
}

// What content must read as, by its kind.
fn content_input(kind: Kind, content: &[u8]) -> Result<usize, Refusal>
    ensures { read_kind limits kind 1 content.now ≡ accepted result }
{
    match kind {
        Kind::Term => term_input(content, 1),
        Kind::Proof => proof_input(content, 1),
    }
}

// Writes content of a kind in its stored form.
pub fn store(kind: Kind, content: &[u8], out: &mut [u8]) -> Result<usize, Refusal>
    ensures value { result ≡ (store_call limits kind content.now out.old).answer }
    ensures out_after { out.new ≡ (store_call limits kind content.now out.old).output }
{
    if out.len() < STORED_ROOM {
        return Err(Refusal::of_no_input(Reason::ShortBuffer));
    }
    content_input(kind, content)?;
    put_stored(kind, content, out)
}

// Gives the content of a stored file. It is gathered in a buffer of its own, since a refusal leaves the output untouched.
pub fn load(kind: Kind, file: &[u8], out: &mut [u8]) -> Result<usize, Refusal>
    ensures value { result ≡ (load_call limits kind file.now out.old).answer }
    ensures out_after { out.new ≡ (load_call limits kind file.now out.old).output }
{
    if out.len() < OUTPUT_ROOM {
        return Err(Refusal::of_no_input(Reason::ShortBuffer));
    }
    if size_wrong(file.len()) {
        return refused(Reason::StoredLength, 0, 1);
    }
    let mut content = [0u8; GATHER_ROOM];
    let size = open_blocks(kind, file, &mut content)?;
    content_input(kind, &content[..size])?;
    put_content(&content, size, out)
}
