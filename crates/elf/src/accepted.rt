// A file that 31 lets pass, and its wanted sections.
ghost use Rattle.std.specs.Prelude.{◌≡◌, ◌<◌, IfOk};
ghost use Rattle.elf.specs.Held.{WantedInside};

use crate::file::ElfFile;
use crate::judging;
use numbers::refusals::Refusal;

// A wanted section: its code and its bytes.
#[derive(Clone, Copy)]
pub struct Section<'a> {
    pub code: usize,
    pub bytes: &'a [u8],
}

// A file whose wanted sections have all their bytes in it.
#[derive(Clone, Copy)]
pub struct Accepted<'a> {
    pub file: ElfFile<'a>,
    pub ghost wanted_inside: { WantedInside file },
}

impl<'a> Accepted<'a> {
    ghost use Rattle.octets.specs.Checked.{mapped};
    ghost use Rattle.numbers.specs.Refused.{told};
    ghost use Rattle.elf.specs.File.{elf_of};
    ghost use Rattle.elf.specs.Elf32.{elf32_of};
    ghost use Rattle.elf.specs.Held.{file_is, header_sections, sections_found};

    // Refusal 31, all of it: the file, its names and the places of its wanted sections.
    pub fn open(f: &'a [u8]) -> Result<Accepted<'a>, Refusal>
        ensures file { mapped (λ a. file_is a.file) (told result) ≡ elf_of f.now }
        ensures bytes { IfOk result (λ a. a.file.bytes.now ≡ f.now) }
    {
        let file = ElfFile::open(f)?;
        if judging::headers_good(&file) {
            Ok(Accepted { file })
        } else {
            Err(Refusal::NotElf)
        }
    }

    // The same of an ELF32 file.
    pub fn open_elf32(f: &'a [u8]) -> Result<Accepted<'a>, Refusal>
        ensures file { mapped (λ a. file_is a.file) (told result) ≡ elf32_of f.now }
        ensures bytes { IfOk result (λ a. a.file.bytes.now ≡ f.now) }
    {
        let file = ElfFile::open_elf32(f)?;
        if judging::headers_good(&file) {
            Ok(Accepted { file })
        } else {
            Err(Refusal::NotElf)
        }
    }

    // The section of a header, if it is wanted.
    #[tactic(auto, using(crate::proofs::Opened::section_none, crate::proofs::Opened::section_inside, crate::proofs::Opened::section_some))]
    pub fn section(&self, i: usize) -> Option<Section<'a>>
        requires { i < self.now.file.count }
        ensures { sections_found result ≡ header_sections self.now.file i }
    {
        let h = self.file.header(i);
        let code = self.file.code_of(h)?;
        let bytes = h.stored(self.file.bytes);
        Some(Section { code, bytes })
    }
}
