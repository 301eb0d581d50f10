// What stands before main in a copy.
ghost use Rattle.std.specs.Prelude.{◌++◌};
ghost use Rattle.format.specs.Copy.{field_bytes, header_bytes};
ghost use Rattle.copy_put.specs.Inner.Put.{Put};

use crate::raw::{put_byte, put_bytes};

// The header with format 0, and main's upvalue count modulo 256.
pub fn put_front(upvalues: usize, out: &mut [u8]) -> usize
    ensures { Put (header_bytes 0 ++ field_bytes 1 upvalues) 0 out.old result out.new }
{
    let behind = put_bytes(
        b"\x1bLua\x54\x00\x19\x93\x0d\x0a\x1a\x0a\x04\x08\x08\x78\x56\x00\x00\x00\x00\x00\x00\x00\x00\x00\x00\x00\x28\x77\x40",
        0,
        31,
        out,
        0,
    );
    put_byte(out, behind, (upvalues % 256) as u8)
}
