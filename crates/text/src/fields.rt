// The fields of a line: parted by commas, blanks cut at both ends. A field handed back is a part of the lent line.
ghost use Rattle.std.specs.Prelude.{◌≡◌, length};
ghost use Rattle.text.specs.Fields.{is_blank, front_cut, end_cut, fields, field_at};

fn is_blank(byte: u8) -> bool
    ensures { result ≡ is_blank byte }
{
    matches!(byte, b' ' | b'\t')
}

// The text without the blanks in front. The library's `trim_ascii_start` would cut a CR too, which is no blank here.
#[tactic(auto, using(crate::proofs::FieldTurns::front_steps))]
fn trim_front(text: &[u8]) -> &[u8]
    ensures { result.now ≡ front_cut text.now }
{
    let mut left = text;
    while let [first, rest @ ..] = left
        && is_blank(*first)
    {
        left = rest;
    }
    left
}

// The text without the blanks at its end. `trim_ascii_end` would cut the CR of a CRLF too.
#[tactic(auto, using(crate::proofs::FieldTurns::end_steps))]
fn trim_end(text: &[u8]) -> &[u8]
    ensures { result.now ≡ end_cut text.now }
{
    let mut left = text;
    while let [rest @ .., last] = left
        && is_blank(*last)
    {
        left = rest;
    }
    left
}

// Field k, from 0; nothing where the line has fewer.
pub fn field(line: &[u8], k: usize) -> &[u8]
    ensures { result.now ≡ field_at line.now k }
{
    let raw = line.split(|byte| *byte == b',').nth(k).unwrap_or(&[]);
    trim_end(trim_front(raw))
}

// One more than there are commas.
pub fn count(line: &[u8]) -> usize
    ensures { result ≡ length (fields line.now) }
{
    line.split(|byte| *byte == b',').count()
}
