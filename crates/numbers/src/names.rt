// The names of the sections in an object file, one table for all that read, write or print them.
ghost use Rattle.std.specs.Prelude.{◌≡◌, map, ◌<◌};
ghost use Rattle.numbers.specs.Names.{section_names, section_name};

use crate::sections::CODES;

// The length of the longest name.
pub const NAME_LIMIT: usize = 22;

// By code; no section has code 0.
const NAMES: [&[u8]; CODES] = [
    b"",
    b".debug_info.dwo",
    b".debug_types.dwo",
    b".debug_abbrev.dwo",
    b".debug_line.dwo",
    b".debug_loc.dwo",
    b".debug_str_offsets.dwo",
    b".debug_macinfo.dwo",
    b".debug_macro.dwo",
    b".debug_loclists.dwo",
    b".debug_rnglists.dwo",
    b".debug_str.dwo",
    b".debug_cu_index",
    b".debug_tu_index",
];

// The one place that reads the constant. Its contract is the statement over the whole table.
pub fn section_names() -> [&'static [u8]; CODES]
    ensures { map (λ name. name.now) result ≡ section_names }
{
    NAMES
}

// The name of the section of a code.
pub fn section_name(code: usize) -> &'static [u8]
    requires { code < 14 }
    ensures { result.now ≡ section_name code }
{
    let names = section_names();
    names[code]
}
