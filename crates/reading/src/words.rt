// The words of a line, compared as fixed byte strings.
ghost use Rattle.std.specs.Prelude.{◌≡◌};
ghost use Rattle.reading.specs.Words.{source_of, word_of};

use stamps::Source;

// The first field of a line; A and B are the words of an arrival.
#[derive(Clone, Copy)]
pub enum Word {
    Start,
    Arrive(Source),
    Evict,
    Run,
    Close,
    Drain,
    Lone,
}

// "A source is A or B." No `TryFrom`: it would stand in `stamps`, which knows no bytes.
#[tactic(auto, using(crate::proofs::WordTests::word_tests), unfolding(crate::specs::Words::source_of))]
pub fn read_source(text: &[u8]) -> Option<Source>
    ensures { result ≡ source_of text.now }
{
    match text {
        b"A" => Some(Source::A),
        b"B" => Some(Source::B),
        _ => None,
    }
}

#[tactic(auto, using(crate::proofs::WordTests::word_tests), unfolding(crate::specs::Words::word_of, crate::specs::Words::source_of))]
pub fn read_word(text: &[u8]) -> Option<Word>
    ensures { result ≡ word_of text.now }
{
    match text {
        b"START" => Some(Word::Start),
        b"A" => Some(Word::Arrive(Source::A)),
        b"B" => Some(Word::Arrive(Source::B)),
        b"EVICT" => Some(Word::Evict),
        b"RUN" => Some(Word::Run),
        b"CLOSE" => Some(Word::Close),
        b"DRAIN" => Some(Word::Drain),
        b"LONE" => Some(Word::Lone),
        _ => None,
    }
}
