// Cutting an input into lines, a piece of it at a time. As many of a line's bytes are kept as there is room for: what comes
// after is dropped.
ghost use Rattle.std.specs.Prelude.{[], ◌∷◌, ◌-◌, take};
ghost use Rattle.text.specs.Gathering.{fitting, behind_lf, Lent};

use crate::texts::Text;

// A byte of the line, dropped where there is no room for it.
fn keep<T: Text>(line: &mut T, byte: u8)
    ensures { T.Puts line.old (take (T.most line.old - T.at line.old) (byte ∷ [])) line.new }
{
    if !line.is_full() {
        line.put_byte(byte);
    }
}

// Bytes of the input go to the line, up to an LF: what stands behind it is handed back, or None where the input holds none.
#[tactic(auto, using(crate::proofs::GatherTurns::line_ends))]
pub fn take_line<'i, T: Text>(line: &mut T, input: &'i [u8]) -> Option<&'i [u8]>
    ensures line { T.Puts line.old (fitting (T.most line.old - T.at line.old) input.now) line.new }
    ensures rest { Lent (behind_lf input.now) result }
{
    for (at, &byte) in input.iter().enumerate() {
        if byte == b'\n' {
            return Some(&input[at + 1..]);
        }
        keep(line, byte);
    }
    None
}
