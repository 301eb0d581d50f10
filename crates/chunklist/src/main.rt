// Lists the chunk on standard input: a line for it and one for each of its functions, or the refusal (01, 'Calls').
#![tactic(auto)]

use chunklist_listing::file::list_file;
use std::io;

fn main(rt: HostRuntime) -> io::Result<()> {
    list_file(&mut rt.reader(), &mut io::writer(&rt))
}
