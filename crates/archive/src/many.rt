// Many questions for one package.
ghost use Rattle.std.specs.Prelude.{◌≡◌, length};
ghost use Rattle.answers.specs.Answers.{output_of, written_of};
ghost use Rattle.batch.specs.Batch.{batch_answered};

use answers::Written;

// Each question is three words: 40000000 hexadecimal, the section code times 16 and the table, in one; the identity's low word; its high word.
// Code 0: so many words of answers, four for each question in order (0 found, 1 absent, else the refusal; start; length; looks), and zeros after them.
// 38: the questions are ill-formed or more than 1,024, or there are too few words for the answers; the answers are zeros.
#[unsafe(no_mangle)]
pub extern "C" fn barthovin_lookup_batch(
    package: &[u8],
    version: u32,
    questions: &[u32],
    answers: &mut [u32],
) -> Written
    ensures answer { result ≡ written_of (batch_answered «package».now version questions.now (length answers.old)) }
    ensures output { answers.new ≡ output_of (batch_answered «package».now version questions.now (length answers.old)) (length answers.old) }
{
    batch::answer_batch(package, version, questions, answers)
}
