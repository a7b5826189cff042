// The columns of an index by its version, in order.
ghost use Rattle.std.specs.Prelude.{◌≡◌};
ghost use Rattle.archive_tables.specs.ColumnRule.{column_by_rule};
ghost use Rattle.archive_tables.specs.Rows.{standing};

use numbers::sections::{INFO, LOC, LOCLISTS, MACINFO, MACRO, RNGLISTS, TYPES};
use numbers::tables::{INDEX_2, INDEX_5};
use std::{io, slice};

// One more than the last section with a column in version 2.
const SECTIONS_END: usize = 9;

// The sections that a version has in the place of one of version 2.
#[tactic(auto, unfolding(crate::specs::Rows::standing, crate::specs::ColumnRule::in_its_place))]
fn in_its_place(version: u32, section: &usize) -> &[usize]
    ensures { result.now ≡ standing version section.now }
{
    match (version, *section) {
        (INDEX_5, TYPES | MACINFO) => &[],
        (INDEX_5, LOC) => &[LOCLISTS, RNGLISTS],
        _ => slice::from_ref(section),
    }
}

#[tactic(auto, unfolding(crate::specs::ColumnRule::column_by_rule, crate::specs::ColumnRule::column_five))]
fn column_by_rule(version: u32, section: usize) -> usize
    ensures { result ≡ column_by_rule version section }
{
    match (version, section) {
        (INDEX_5, LOCLISTS) => LOC,
        (INDEX_5, MACRO) => MACINFO,
        (INDEX_5, RNGLISTS) => MACRO,
        _ => section,
    }
}

fn print_each(rt: &impl Print, version: u32, sections: &[usize]) -> io::Result<()> {
    for section in sections {
        let column = column_by_rule(version, *section);
        println!(rt; "{version} {section} {column}")?;
    }
    Ok(())
}

fn print_version(rt: &impl Print, version: u32) -> io::Result<()> {
    for section in INFO..SECTIONS_END {
        print_each(rt, version, in_its_place(version, &section))?;
    }
    Ok(())
}

pub fn print_columns(rt: &impl Print) -> io::Result<()> {
    print_version(rt, INDEX_2)?;
    print_version(rt, INDEX_5)
}
