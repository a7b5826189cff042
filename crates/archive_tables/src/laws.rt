// The tables of the source are, entry for entry, what the rules work out: each the contract of a function that does nothing.
ghost use Rattle.archive_tables.specs.Agreement.{SectionNamesAgree, ColumnsAgree, FormsAgree};

// Section names, by code.
#[tactic(auto, using(crate::proofs::Agreement::section_names_agree))]
pub fn section_names()
    ensures { SectionNamesAgree }
{}

// The columns of an index, in version 2 and in version 5.
#[tactic(auto, using(crate::proofs::Agreement::columns_agree))]
pub fn columns_of_both_versions()
    ensures { ColumnsAgree }
{}

// Forms and their widths, rising.
#[tactic(auto, using(crate::proofs::Agreement::forms_agree))]
pub fn widths_of_forms()
    ensures { FormsAgree }
{}
