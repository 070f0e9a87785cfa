// Archive words: the kind in the top four bits, the payload in the other 28.
ghost use Rattle.std.specs.Prelude.{◌≡◌, ◌^◌, ◌<◌, ◌==◌};
ghost use Rattle.std.specs.Bool.{then_some};
ghost use Rattle.lives.specs.Archive.{check_of, check_step as next_sum, kind_of, payload_of, word_of};
ghost use Rattle.lives.specs.Words.{kind_number};

// The kinds of words, by their numbers.
#[derive(Clone, Copy, PartialEq, Eq, Debug)]
pub(crate) enum WordKind {
    Form = 1,
    Count = 2,
    Serial = 3,
    Entry = 4,
    Exit = 5,
    Status = 6,
}

impl WordKind {
    fn number(self) -> u32
        ensures number { result ≡ kind_number self }
        ensures within { result < 16 }
    {
        self as u32
    }
}

// The form of the archive, the payload of its first word.
pub(crate) const FORM: u32 = 1;

// Added to the status of a struck life.
pub(crate) const STRUCK: u32 = 4;

pub(crate) fn word(kind: WordKind, payload: u32) -> u32
    requires { payload < 2 ^ 28 }
    ensures { result ≡ word_of (kind_number kind) payload }
{
    (kind.number() << 28) | payload
}

// Whether the word is of this kind.
pub(crate) fn has_kind(word: u32, kind: WordKind) -> bool
    ensures { result ≡ (kind_of word == kind_number kind) }
{
    word >> 28 == kind.number()
}

// The payload, whatever the kind.
pub(crate) fn payload(word: u32) -> u32
    ensures { result ≡ payload_of word }
{
    word & 0x0fff_ffff
}

// The payload, if the word is of this kind.
pub(crate) fn payload_as(kind: WordKind, word: u32) -> Option<u32>
    ensures { result ≡ then_some (kind_of word == kind_number kind) (payload_of word) }
{
    has_kind(word, kind).then_some(payload(word))
}

// The check word: from 0, turned left by five places for each word, which is then added modulo 2^32.
pub(crate) fn check_word(words: &[u32]) -> u32
    ensures { result ≡ check_of words.now }
{
    words.iter().fold(0, |sum, word| check_step(sum, *word))
}

#[tactic(auto, using(crate::proofs::Turned::turned_is))]
fn check_step(sum: u32, word: u32) -> u32
    ensures { result ≡ next_sum sum word }
{
    sum.rotate_left(5).wrapping_add(word)
}
