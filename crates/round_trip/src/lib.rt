// Laws alone: a package that `elf_writer` writes as an ELF file is read back by `elf`.
#![tactic(auto)]
