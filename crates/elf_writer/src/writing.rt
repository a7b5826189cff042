// A package written as an ELF64 file: 36, 21 and 37, in this order.
ghost use Rattle.std.specs.Prelude.{◌≡◌, ◌-◌, length};
ghost use Rattle.octets.specs.Octets.{padded, zeros};
ghost use Rattle.answers.specs.Answers.{output_of, written_of};
ghost use Rattle.answers.specs.Written.{written_as};
ghost use Rattle.elf.specs.Writer.{file_made, in_output, elf_written, elf_written_for};
ghost use Rattle.elf_writer.specs.Held.{Within, Ready, headers_place, file_size, file_of};

use crate::sections;
use crate::sections::{Extent, Sections};
use answers::{Unwritten, Written};
use elf::file::HEADER;
use lookup::package::Package;
use numbers::refusals::Refusal;

// The section headers stand at a multiple of this.
const ALIGNMENT: usize = 8;

impl Extent {
    // Where the section headers stand.
    fn headers_place(self) -> usize
        requires { Within self }
        ensures { result ≡ headers_place self }
    {
        (HEADER + self.bodies + self.names).next_multiple_of(ALIGNMENT)
    }

    fn file_size(self) -> usize
        requires { Within self }
        ensures { result ≡ file_size self }
    {
        self.headers_place() + HEADER * (self.count + 2)
    }
}

// The file, into an output that is zero, so that the zeros in front of the headers and the null header stand there.
#[tactic(auto, using(crate::proofs::Matched::bounded))]
fn put_file(package: &Package, machine: u32, e: Extent, out: &mut [u8])
    requires { Ready «package».now e out.old }
    ensures { out.new ≡ padded (file_of «package».now.bytes.now machine) (length out.old - length (file_of «package».now.bytes.now machine)) }
{
    let head = package.head;
    let big = head.encoding.big;
    let at = e.headers_place();
    crate::fields::put_file_header(big, machine, at, e.count + 2, out);
    sections::put_bodies(package, out);
    sections::put_name_table(head.sections, out, HEADER + e.bodies);
    let all = Sections {
        scan: head.sections,
    };
    all.put_headers(big, e.names, out, at + HEADER);
}

// The same, or 21 or 37, whatever the machine.
#[tactic(auto, using(crate::proofs::Matched::bounded))]
fn write_package(package: &[u8], machine: u32, out: &mut [u8]) -> Result<usize, Unwritten>
    requires { out.old ≡ zeros (length out.old) }
    ensures answer { written_as result ≡ written_of (in_output (file_made «package».now machine) (length out.old)) }
    ensures output { out.new ≡ output_of (in_output (file_made «package».now machine) (length out.old)) (length out.old) }
{
    let opened = Package::open(package)?;
    let all = Sections {
        scan: opened.head.sections,
    };
    let e = all.measure();
    let length = e.file_size();
    if out.len() < length {
        return Err(Unwritten::Refused(Refusal::FileShort));
    }
    put_file(&opened, machine, e, out);
    Ok(length)
}

// The same for one of three machines: 36 first.
fn write_into(package: &[u8], machine: u32, out: &mut [u8]) -> Result<usize, Unwritten>
    requires { out.old ≡ zeros (length out.old) }
    ensures answer { written_as result ≡ written_of (elf_written «package».now machine (length out.old)) }
    ensures output { out.new ≡ output_of (elf_written «package».now machine (length out.old)) (length out.old) }
{
    if !crate::fields::machine_good(machine) {
        return Err(Unwritten::Refused(Refusal::OtherMachine));
    }
    write_package(package, machine, out)
}

// The same for any machine.
fn write_into_for(package: &[u8], machine: u32, out: &mut [u8]) -> Result<usize, Unwritten>
    requires { out.old ≡ zeros (length out.old) }
    ensures answer { written_as result ≡ written_of (elf_written_for «package».now machine (length out.old)) }
    ensures output { out.new ≡ output_of (elf_written_for «package».now machine (length out.old)) (length out.old) }
{
    if !crate::fields::is_machine(machine) {
        return Err(Unwritten::Refused(Refusal::OtherMachine));
    }
    write_package(package, machine, out)
}

// Whatever the package holds: the file and zeros, or a refusal; then the output is zeros only.
pub fn write_elf(package: &[u8], machine: u32, out: &mut [u8]) -> Written
    ensures answer { result ≡ written_of (elf_written «package».now machine (length out.old)) }
    ensures output { out.new ≡ output_of (elf_written «package».now machine (length out.old)) (length out.old) }
{
    out.fill(0);
    Written::from(write_into(package, machine, out))
}

// The same for any machine.
pub fn write_elf_for(package: &[u8], machine: u32, out: &mut [u8]) -> Written
    ensures answer { result ≡ written_of (elf_written_for «package».now machine (length out.old)) }
    ensures output { out.new ≡ output_of (elf_written_for «package».now machine (length out.old)) (length out.old) }
{
    out.fill(0);
    Written::from(write_into_for(package, machine, out))
}
