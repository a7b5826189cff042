// The C entries on files.
ghost use Rattle.std.specs.Prelude.{◌≡◌, length};
ghost use Rattle.answers.specs.Answers.{written_of, output_of};
ghost use Rattle.elf.specs.Reader.{elf_read};
ghost use Rattle.elf.specs.Elf32.{elf32_read};
ghost use Rattle.elf.specs.Writer.{elf_written, elf_written_for};
ghost use Rattle.join.specs.Join.{joining, memory_after};
ghost use Rattle.join.specs.Open.{opened};

use answers::Written;

// Code 0: the bundle of the file's object, of that length, and zeros following it. 18: the length that the output needs. Else the refusal, with 0.
// But for 0 the output is zeros.
#[unsafe(no_mangle)]
pub extern "C" fn barthovin_read_elf(file: &[u8], output: &mut [u8]) -> Written
    ensures answer { result ≡ written_of (elf_read file.now (length output.old)) }
    ensures output { output.new ≡ output_of (elf_read file.now (length output.old)) (length output.old) }
{
    elf::reading::read_elf(file, output)
}

// The same of an ELF32 file.
#[unsafe(no_mangle)]
pub extern "C" fn barthovin_read_elf32(file: &[u8], output: &mut [u8]) -> Written
    ensures answer { result ≡ written_of (elf32_read file.now (length output.old)) }
    ensures output { output.new ≡ output_of (elf32_read file.now (length output.old)) (length output.old) }
{
    elf::reading::read_elf32(file, output)
}

// Code 0: the package as an ELF64 file for a machine (62, 183 or 243), of that length, and zeros following it. 36: another machine. 21: a bad package.
// 37: an output too short. After a refusal the length is 0 and the output is zeros.
#[unsafe(no_mangle)]
pub extern "C" fn barthovin_write_elf(package: &[u8], machine: u32, output: &mut [u8]) -> Written
    ensures answer { result ≡ written_of (elf_written «package».now machine (length output.old)) }
    ensures output { output.new ≡ output_of (elf_written «package».now machine (length output.old)) (length output.old) }
{
    elf_writer::writing::write_elf(package, machine, output)
}

// The same for any machine from 1 to 65,535; 36: 0, or a greater number.
#[unsafe(no_mangle)]
pub extern "C" fn barthovin_write_elf_for(
    package: &[u8],
    machine: u32,
    output: &mut [u8],
) -> Written
    ensures answer { result ≡ written_of (elf_written_for «package».now machine (length output.old)) }
    ensures output { output.new ≡ output_of (elf_written_for «package».now machine (length output.old)) (length output.old) }
{
    elf_writer::writing::write_elf_for(package, machine, output)
}

// The objects of a file behind those of the bundle in the first bytes of the memory, none where it has no bytes so far. Code 0: the joined bundle has that length, and
// zeros follow it. 18: the length that it needs. 3 of a bundle without a head or an end, or longer than the memory. 45 of a file of the other byte order. Else the
// refusal of the file's reader, with 0. But for 0 the bundle is as it was, and zeros follow it.
#[unsafe(no_mangle)]
pub extern "C" fn barthovin_join(bundle: &mut [u8], used: usize, file: &[u8]) -> Written
    ensures answer { result ≡ written_of (joining bundle.old used file.now) }
    ensures memory { bundle.new ≡ memory_after (joining bundle.old used file.now) bundle.old used }
{
    join::joining::join(bundle, used, file)
}

// Code 0: the words of the package that the file is, or that an ELF file (.dwp) has, of that length, and zeros following them. 18: the length that the output needs.
// 21: no package. Else the refusal of the file's reader, with 0. But for 0 the output is zeros.
#[unsafe(no_mangle)]
pub extern "C" fn barthovin_open(file: &[u8], output: &mut [u8]) -> Written
    ensures answer { result ≡ written_of (opened file.now (length output.old)) }
    ensures output { output.new ≡ output_of (opened file.now (length output.old)) (length output.old) }
{
    join::opening::open(file, output)
}
