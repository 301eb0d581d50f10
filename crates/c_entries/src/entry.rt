// Entries of a function.
ghost use Rattle.std.specs.Prelude.{◌≡◌};
ghost use Rattle.c_entries.specs.EntryNumbers.{constant_numbers, upvalue_numbers, anchor_numbers, local_numbers};

use c_boundary::signed::complement_of;
use format::entry::{AbsLineInfo, UpvalueDesc};
use read_entry::constant::ConstantValue;

// The tag, what stands behind it, and a string's length. Ruled out: true shown as false, a long string shown as a short one.
pub fn constant_numbers(k: ConstantValue) -> [u64; 3]
    ensures { result ≡ constant_numbers k }
{
    match k {
        ConstantValue::Nil => [0, 0, 0],
        ConstantValue::Boolean(b) => {
            if b {
                return [17, 0, 0];
            }
            [1, 0, 0]
        }
        ConstantValue::Integer(z) => [3, complement_of(z), 0],
        ConstantValue::Float(bits) => [19, bits, 0],
        ConstantValue::ShortString(t) => [4, t.place as u64, t.len as u64],
        ConstantValue::LongString(t) => [20, t.place as u64, t.len as u64],
    }
}

// The numbers of an upvalue, for C.
pub fn upvalue_numbers(y: UpvalueDesc) -> [u64; 3]
    ensures { result ≡ upvalue_numbers y }
{
    [y.instack as u64, y.idx as u64, y.kind as u64]
}

// The numbers of an anchor, for C.
pub fn anchor_numbers(y: AbsLineInfo) -> [u64; 2]
    ensures { result ≡ anchor_numbers y }
{
    [y.pc as u64, y.line as u64]
}

// The numbers of a local variable, for C.
pub fn local_numbers(name_len: usize, startpc: usize, endpc: usize) -> [u64; 3]
    ensures { result ≡ local_numbers name_len startpc endpc }
{
    [name_len as u64, startpc as u64, endpc as u64]
}
