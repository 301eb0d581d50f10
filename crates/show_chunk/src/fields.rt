// A function's fields, by its number.
ghost use Rattle.std.specs.Prelude.{◌≡◌};
ghost use Rattle.format.specs.ReadChunk.{read};
ghost use Rattle.show_row.specs.Asked.{function_of};
ghost use Rattle.show_chunk.specs.Fields.{shown_fields};
ghost use Rattle.show_chunk.specs.Inner.Rows.{fields_shown};

use format::limits::ResourceLimits;
use format::refusal::Refusal;
use read_field::string::StringAt;
use read_prototype::row::FunctionRow;
use show_row::row::function_row;

// How many entries each list has, in the order of the file.
#[derive(Clone, Copy)]
pub struct Counts {
    pub instructions: usize,
    pub constants: usize,
    pub upvalues: usize,
    pub protos: usize,
    pub line_info: usize,
    pub abs_line_info: usize,
    pub loc_vars: usize,
    pub upvalue_names: usize,
}

#[derive(Clone, Copy)]
pub struct FunctionFields {
    pub depth: usize,
    // The parent's number; 0 for main.
    pub parent: usize,
    pub source_name: Option<StringAt>,
    pub line_defined: usize,
    pub last_line_defined: usize,
    pub numparams: u8,
    pub is_vararg: u8,
    pub maxstacksize: u8,
    pub counts: Counts,
}

fn counts_of(row: FunctionRow) -> Counts
    ensures { result ≡ (fields_shown row).counts }
{
    let lists = row.lists;
    let instructions = lists.instructions;
    let constants = lists.constants;
    let upvalues = lists.upvalues;
    let protos = lists.protos;
    let line_info = lists.line_info;
    let abs_line_info = lists.abs_line_info;
    let loc_vars = lists.loc_vars;
    let upvalue_names = lists.upvalue_names;
    Counts {
        instructions: instructions.count,
        constants: constants.count,
        upvalues: upvalues.count,
        protos: protos.count,
        line_info: line_info.count,
        abs_line_info: abs_line_info.count,
        loc_vars: loc_vars.count,
        upvalue_names: upvalue_names.count,
    }
}

fn fields_of(row: FunctionRow) -> FunctionFields
    ensures { result ≡ fields_shown row }
{
    let source_name = row.source_name;
    let lines = row.lines;
    let sizes = row.sizes;
    FunctionFields {
        depth: row.depth,
        parent: row.parent,
        source_name: source_name,
        line_defined: lines.line_defined,
        last_line_defined: lines.last_line_defined,
        numparams: sizes.numparams,
        is_vararg: sizes.is_vararg,
        maxstacksize: sizes.maxstacksize,
        counts: counts_of(row),
    }
}

// Depth, parent, source, lines, three bytes and eight counts. Ruled out: nested functions that all show main's fields, the counts of locals and names exchanged.
pub fn function_fields(
    s: &[u8],
    limits: ResourceLimits,
    function: usize,
) -> Result<FunctionFields, Refusal>
    ensures { result ≡ shown_fields (function_of function (read limits s.now)) }
{
    let row = function_row(s, limits, function)?;
    Ok(fields_of(row))
}
