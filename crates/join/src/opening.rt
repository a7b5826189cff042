// Files opened as packages.
ghost use Rattle.std.specs.Prelude.{◌≡◌, length};
ghost use Rattle.answers.specs.Answers.{output_of, written_of, answered};
ghost use Rattle.join.specs.Open.{words_of, opened};

use crate::files;
use answers::Written;

// The words of an ELF file, or of any other as it is.
fn put_words_of(file: &[u8], output: &mut [u8]) -> Written
    ensures answer { result ≡ written_of (answered (words_of file.now) (length output.old)) }
    ensures output { output.new ≡ output_of (answered (words_of file.now) (length output.old)) (length output.old) }
{
    if files::is_elf(file) {
        files::read_elf(file, output)
    } else {
        files::put_words(file, output)
    }
}

// Whatever the two hold: the package's words and zeros, 18 with the length needed, or a refusal; then the output is zeros only.
pub fn open(file: &[u8], output: &mut [u8]) -> Written
    ensures answer { result ≡ written_of (opened file.now (length output.old)) }
    ensures output { output.new ≡ output_of (opened file.now (length output.old)) (length output.old) }
{
    let answer = put_words_of(file, output);
    if answer.code != 0 {
        return answer;
    }
    match lookup::opening::open_package(&output[..answer.length]) {
        Ok(_) => answer,
        Err(refusal) => files::refuse(refusal, output),
    }
}
