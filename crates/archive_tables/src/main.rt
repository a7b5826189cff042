// Three tables worked out from their rules, a line for each entry: section names, columns of an index, widths of forms. None of the source's
// tables is read here; specs/Agreement.antt says that they are the same.
#![tactic(auto)]

mod columns;
mod forms;
mod laws;
mod names;

use std::io;

fn main(rt: HostRuntime) -> io::Result<()> {
    names::print_names(&rt)?;
    columns::print_columns(&rt)?;
    forms::print_forms(&rt)
}
