// Many questions for one package, which is opened once for all of them.
#![tactic(auto)]

ghost use Rattle.std.specs.Prelude.{◌≡◌, length, slice_index};
ghost use Rattle.std.proofs.Props.{props};
ghost use Rattle.octets.specs.Octets.{placed};
ghost use Rattle.answers.specs.Answers.{output_of, written_of};
ghost use Rattle.lookup.specs.Answers.{numbered};
ghost use Rattle.batch.specs.Batch.{question, asked, answers_to, batch_answered, words_of};
ghost use Rattle.batch.specs.Ties.{
  are_questions,
  questions_in,
  is_taken,
  OpenedAs,
  Ready,
  Narrow,
};

use answers::{Unwritten, Written};
use lookup::answering::Answer;
use lookup::package::Package;
use lookup::searching::UnitAsked;
use numbers::limits::QUESTIONS_LIMIT;
use numbers::refusals::Refusal;

// Kind 4 and the zeros of a question's first word, above its lowest 8 bits.
const QUESTION_KIND: u32 = 0x40_0000;

// ---- refusal 38: the questions are ill-formed or too many, or there are too few words for their answers
// Each question is three words, the first of them of its kind.
#[tactic(auto, using(crate::proofs::Questions::not_whole))]
fn are_questions(words: &[u32]) -> bool
    ensures { result ≡ are_questions words.now }
{
    words.len() % 3 == 0 && (0..words.len() / 3).all(|i| words[3 * i] / 256 == QUESTION_KIND)
}

#[tactic(auto, using(crate::proofs::Answering::taken_by))]
fn is_taken(words: &[u32], room: usize) -> bool
    ensures { result ≡ is_taken words.now room }
{
    let count = words.len() / 3;
    are_questions(words) && count <= QUESTIONS_LIMIT && 4 * count <= room
}

// ---- the answers
// The four words of an answer.
#[tactic(auto, unfolding(crate::specs::Batch::words_of))]
fn words_of(answer: Answer) -> [u32; 4]
    requires { Narrow answer }
    ensures { result ≡ words_of answer }
{
    [
        answer.code,
        answer.start as u32,
        answer.length as u32,
        answer.looks as u32,
    ]
}

// The package that all questions go to, opened or refused, and the version that they ask by.
#[derive(Clone, Copy)]
struct AskedPackage<'a> {
    bytes: &'a [u8],
    opened: Result<Package<'a>, Refusal>,
    version: u32,
    ghost as_opened: { OpenedAs bytes.now opened } by { Prim.hlevel props },
}

impl AskedPackage<'_> {
    // One question, of three words.
    #[tactic(auto, using(crate::proofs::Answering::opened_bytes, crate::proofs::Answering::opened_refused, lookup::proofs::Lookups::looked_closed), unfolding(crate::specs::Batch::asked, crate::specs::Batch::question))]
    fn ask(&self, words: &[u32]) -> Answer
        requires { length words.now ≡ 3 }
        ensures { result ≡ numbered (asked self.now.bytes.now self.now.version (question (slice_index words.now 0) (slice_index words.now 1) (slice_index words.now 2))) }
    {
        let unit = UnitAsked {
            version: self.version,
            table: words[0] % 16,
            identity: octets::number_of(words[1], words[2]),
        };
        let located = match &self.opened {
            Ok(package) => package.locate(unit, words[0] / 16 % 16),
            Err(refusal) => Err(*refusal),
        };
        Answer::from(located)
    }

    // All answers, in order, from the front. The caller has judged the questions. By number: in a loop over `chunks_exact` and `chunks_exact_mut` the
    // answers are no longer at hand, only the chunks to come, and its proof did not close.
    #[tactic(auto, using(crate::proofs::Answering::answering_cases, crate::proofs::Sizes::asked_narrow))]
    fn put_answers(&self, questions: &[u32], answers: &mut [u32])
        requires { Ready questions.now (length answers.old) }
        ensures { answers.new ≡ placed answers.old 0 (answers_to self.now.bytes.now self.now.version (questions_in questions.now)) }
    {
        for i in 0..questions.len() / 3 {
            let answer = self.ask(&questions[3 * i..3 * i + 3]);
            answers[4 * i..4 * i + 4].copy_from_slice(&words_of(answer));
        }
    }
}

// Code 0: so many words of answers, four for each question, and zeros after them. 38: zeros only.
#[tactic(auto, using(crate::proofs::Answering::call_cases), unfolding(octets::specs::Octets::zeros))]
pub fn answer_batch(package: &[u8], version: u32, questions: &[u32], answers: &mut [u32]) -> Written
    ensures answer { result ≡ written_of (batch_answered «package».now version questions.now (length answers.old)) }
    ensures output { answers.new ≡ output_of (batch_answered «package».now version questions.now (length answers.old)) (length answers.old) }
{
    answers.fill(0);
    if !is_taken(questions, answers.len()) {
        return Written::from(Err(Unwritten::Refused(Refusal::BadQuestions)));
    }
    let asked = AskedPackage {
        bytes: package,
        opened: Package::open(package),
        version,
    };
    asked.put_answers(questions, answers);
    Written::from(Ok(4 * (questions.len() / 3)))
}
