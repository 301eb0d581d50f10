// A local variable of a function: its name is copied into space that the caller lends.
#![tactic(auto)]

ghost use Rattle.std.specs.Prelude.{◌≡◌, ◌++◌, ◌≤◌, length, drop};
ghost use Rattle.format.specs.ReadChunk.{read};
ghost use Rattle.show_row.specs.Asked.{entry_of};
ghost use Rattle.show_local.specs.Locals.{shown_local, name_written};
ghost use Rattle.show_local.specs.Inner.Names.{name_length, name_bytes, Stands};

use format::limits::ResourceLimits;
use format::refusal::Refusal;
use read_field::string::StringAt;
use read_nth::debug::nth_local;
use show_row::place::{EntryKind, entry_list};
use slice::lent::copy_bytes;

// What is shown of a local variable: how long its name is, and the two numbers between which it is live.
#[derive(Clone, Copy)]
pub struct LocalShown {
    pub name_len: usize,
    pub startpc: usize,
    pub endpc: usize,
}

// How long a name is; an absent one is `?`.
fn name_len(name: Option<StringAt>) -> usize
    ensures { result ≡ name_length name }
{
    match name {
        Some(present) => present.len,
        None => 1,
    }
}

// Writes a name to the front of the lent space.
fn put_name(s: &[u8], name: Option<StringAt>, out: &mut [u8])
    requires stands { Stands name (length s.now) }
    requires name_in_bounds { name_length name ≤ length out.old }
    ensures { out.new ≡ name_bytes name s.now ++ drop (name_length name) out.old }
{
    match name {
        Some(present) => {
            copy_bytes(s, present.place, present.len, out, 0);
        }
        None => {
            out[0] = b'?';
        }
    }
}

// A local variable of a function, by their numbers: where it is live, and its name in the lent space, if it has room.
// Ruled out: a name that is cut to the lent space, an absent name that leaves the space as it was.
pub fn local(
    s: &[u8],
    limits: ResourceLimits,
    function: usize,
    entry: usize,
    name: &mut [u8],
) -> Result<LocalShown, Refusal>
    ensures value { result ≡ shown_local (length name.old) (entry_of (λ p. p.loc_vars) function entry (read limits s.now)) }
    ensures name_after { name.new ≡ name_written name.old (entry_of (λ p. p.loc_vars) function entry (read limits s.now)) }
{
    let list = entry_list(s, limits, function, EntryKind::Local, entry)?;
    let (found, _) = nth_local(s, list, entry, limits.max_string_bytes)?;
    let len = name_len(found.name);
    if name.len() < len {
        return Err(Refusal::LentSpace);
    }
    put_name(s, found.name, name);
    Ok(LocalShown {
        name_len: len,
        startpc: found.startpc,
        endpc: found.endpc,
    })
}
