// The two classes of ELF files.

// In a file of 32 bits numbers take 4 bytes, and its section headers 40; in one of 64 bits 8 and 64.
#[derive(Clone, Copy)]
pub enum Class {
    Elf32,
    Elf64,
}
