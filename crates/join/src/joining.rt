// A file joined to a bundle, in the memory that the bundle stands in: what it costs goes by the file and by the memory behind the bundle, not by the bundle.
ghost use Rattle.std.specs.Prelude.{◌≡◌, true, Bool, ◌+◌, ◌≤◌, length, take};
ghost use Rattle.octets.specs.Octets.{part};
ghost use Rattle.answers.specs.Answers.{written_of, answered};
ghost use Rattle.join.specs.Join.{framed, joined_behind, joining, memory_after};
ghost use Rattle.join.specs.Held.{answer_behind};

use crate::files;
use answers::Written;
use numbers::limits::PACKAGE_LIMIT;
use numbers::refusals::Refusal;

// The heads of bundles whose data is little-endian and big-endian, and the least end word.
const LITTLE_HEAD: u32 = 0xF000_0000;

const BIG_HEAD: u32 = 0xF000_0001;

const END: usize = 0x3000_0000;

// The refusal of a file whose byte order is not that of the bundle.
const OTHER_ORDER: u32 = 45;

// The bytes of the last two words of a bundle. The bundle of a file is read from there on: its head lies over the first of them, which is put back, and its objects
// lie where the end word was.
const LAST: usize = 8;

// Whether a head word starts these bytes, and an end word with their number ends them. No other word is looked at.
#[tactic(auto, unfolding(crate::specs::Join::framed))]
fn framed(bundle: &[u8]) -> bool
    ensures { result ≡ framed bundle.now }
{
    let length = bundle.len();
    if length < LAST || length % 4 != 0 {
        return false;
    }
    let head = octets::word_at(bundle, 0);
    (head == LITTLE_HEAD || head == BIG_HEAD)
        && octets::word_at(bundle, length - 4) as usize == END + length / 4
}

// The bytes of the last two words.
fn last_words(bundle: &[u8], from: usize) -> [u8; LAST]
    requires { from + 8 ≤ length bundle.now }
    ensures { result ≡ part bundle.now from 8 }
{
    let mut last = [0; LAST];
    last.copy_from_slice(&bundle[from..from + LAST]);
    last
}

// What the file's reader answered, as an answer on the joined bundle: 45 where the byte order is not the same, 19 where both are too long, and the length with the
// bytes before it.
#[tactic(auto, unfolding(crate::specs::Held::answer_behind))]
fn answer_behind(answer: Written, before: usize, same_order: bool) -> Written
    ensures { result ≡ answer_behind answer before same_order }
{
    if answer.code != 0 && answer.code != Refusal::OutputShort.number() {
        return answer;
    }
    if !same_order {
        return Written {
            code: OTHER_ORDER,
            length: 0,
        };
    }
    if PACKAGE_LIMIT < before || PACKAGE_LIMIT - before < answer.length {
        return files::refused(Refusal::SectionTooLong);
    }
    Written {
        code: answer.code,
        length: before + answer.length,
    }
}

// Behind a bundle of so many bytes, whose head and end were seen.
fn join_behind(bundle: &mut [u8], used: usize, file: &[u8]) -> Written
    requires { (used ≤ length bundle.old) × (framed (take used bundle.old) ≡ true) }
    ensures answer { result ≡ written_of (answered (joined_behind (take used bundle.old) file.now) (length bundle.old)) }
    ensures memory { bundle.new ≡ memory_after (answered (joined_behind (take used bundle.old) file.now) (length bundle.old)) bundle.old used }
{
    let from = used - LAST;
    let same_order = octets::word_at(bundle, 0) == files::file_head(file);
    let last = last_words(bundle, from);
    let read = files::put_file(file, &mut bundle[from..]);
    let answer = answer_behind(read, from, same_order);
    if answer.code == 0 {
        octets::put_bytes(bundle, from, &last[..4]);
        bundle::put_end(bundle, answer.length - 4);
    } else {
        files::clear(&mut bundle[from..]);
        octets::put_bytes(bundle, from, &last);
    }
    answer
}

// The objects of a file behind those of the bundle in the first bytes of the memory, none where it has no bytes so far. Whatever the three hold: the joined bundle
// and zeros; 18 with the length needed, or a refusal, and then the bundle is as it was, and zeros follow it.
pub fn join(bundle: &mut [u8], used: usize, file: &[u8]) -> Written
    ensures answer { result ≡ written_of (joining bundle.old used file.now) }
    ensures memory { bundle.new ≡ memory_after (joining bundle.old used file.now) bundle.old used }
{
    if bundle.len() < used {
        return files::refused(Refusal::BadWords);
    }
    if used == 0 {
        return files::put_file(file, bundle);
    }
    if !framed(&bundle[..used]) {
        return files::refuse(Refusal::BadWords, &mut bundle[used..]);
    }
    join_behind(bundle, used, file)
}
