// The fields of the file's header and of a section's header.
ghost use Rattle.std.specs.Prelude.{◌≡◌, ◌+◌, ◌≤◌, ◌<◌, ◌^◌, length};
ghost use Rattle.octets.specs.Octets.{placed};
ghost use Rattle.elf.specs.Writer.{machine_good, is_machine, order_code, identification, file_header, section_header};

const AMD64: u32 = 62;

const AARCH64: u32 = 183;

const RISCV: u32 = 243;

// The greatest number of a machine.
const MOST: u32 = 0xFFFF;

// Refusal 36: the machines that a file can be for.
#[tactic(auto, unfolding(elf::specs::Writer::machine_good))]
pub fn machine_good(machine: u32) -> bool
    ensures { result ≡ machine_good machine }
{
    matches!(machine, AMD64 | AARCH64 | RISCV)
}

// Refusal 36 of the call for any machine: a file names it in two bytes, and 0 is none.
#[tactic(auto, unfolding(elf::specs::Writer::is_machine))]
pub fn is_machine(machine: u32) -> bool
    ensures { result ≡ is_machine machine }
{
    1 <= machine && machine <= MOST
}

#[tactic(auto, unfolding(elf::specs::Writer::order_code))]
fn order_code(big: bool) -> u8
    ensures { result ≡ order_code big }
{
    if big { 2 } else { 1 }
}

// Class 2 is 64 bits; then the byte order and version 1.
#[tactic(auto, using(crate::proofs::Headers::identification_is))]
fn put_identification(big: bool, d: &mut [u8])
    requires { 16 ≤ length d.old }
    ensures { d.new ≡ placed d.old 0 (identification big) }
{
    let order = order_code(big);
    let bytes = [
        0x7F, 0x45, 0x4C, 0x46, 2, order, 1, 0, 0, 0, 0, 0, 0, 0, 0, 0,
    ];
    octets::put_bytes(d, 0, &bytes);
}

// The file's header, where n section headers stand at a place.
#[tactic(auto, using(crate::proofs::Headers::file_put))]
pub fn put_file_header(big: bool, machine: u32, at: usize, n: usize, d: &mut [u8])
    requires { (at < 2 ^ 32) × (n < 2 ^ 16) × (0 < n) × (64 ≤ length d.old) }
    ensures { d.new ≡ placed d.old 0 (file_header big machine at n) }
{
    let count = n as u32;
    let kind = [1, machine];
    let places = [0, 0, at as u32];
    let sizes = [64, 0, 0, 64, count, count - 1];
    put_identification(big, d);
    octets::put_numbers(big, 2, &kind, d, 16);
    octets::put_u32(big, 1, d, 20);
    octets::put_numbers(big, 8, &places, d, 24);
    octets::put_u32(big, 0, d, 48);
    octets::put_numbers(big, 2, &sizes, d, 52);
}

// What differs between the headers of sections.
#[derive(Clone, Copy)]
pub struct SectionHeader {
    // where its name stands in the name table
    pub name: usize,
    pub kind: u32,
    pub offset: usize,
    pub size: usize,
}

#[tactic(auto, using(crate::proofs::Headers::section_put))]
pub fn put_section_header(big: bool, h: SectionHeader, d: &mut [u8], at: usize)
    requires { (h.name < 2 ^ 32) × (h.offset < 2 ^ 32) × (h.size < 2 ^ 32) × (at + 64 ≤ length d.old) }
    ensures { d.new ≡ placed d.old at (section_header big h.name h.kind h.offset h.size) }
{
    let names = [h.name as u32, h.kind];
    let places = [0, 0, h.offset as u32, h.size as u32];
    let links = [0, 0];
    let alignment = [1, 0];
    octets::put_numbers(big, 4, &names, d, at);
    octets::put_numbers(big, 8, &places, d, at + 8);
    octets::put_numbers(big, 4, &links, d, at + 40);
    octets::put_numbers(big, 8, &alignment, d, at + 48);
}
