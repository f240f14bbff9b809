// What texts are put into: behind what a text of fixed capacity holds, or at a place in a lent buffer.
ghost use Rattle.std.specs.Prelude.{◌≡◌, ◌+◌, ◌-◌, ◌≤◌, ◌++◌, ◌↔◌, IsTrue, List, [], ◌∷◌, ℕ, length, take, refl};
ghost use Rattle.std.proofs.Common.{◌∙◌, ap};
ghost use Rattle.arrayvec.specs.ArrayVec.{array_vec_len};
ghost use Rattle.text.specs.Texts.{Put};
ghost use Rattle.text.specs.TextLaws.{behind_none, behind_both, behind_long, put_none, put_then, put_held, held_room};

use arrayvec::ArrayVec;

// What says of each text where bytes are put, and what becomes of it.
pub trait Text {
    // The place of the next byte.
    ghost at: { Self → ℕ };

    // The first place with room for none.
    ghost most: { Self → ℕ };

    // Bytes are put at the place of the next, and nothing else has changed.
    ghost Puts: { Self → List ℕ → Self → Type 0 };

    // The bytes in front of that place.
    ghost held: { Self → List ℕ };

    // The first place is that of the next byte again, and nothing else has changed.
    ghost Clears: { Self → Self → Type 0 };

    // Whether there is room for none.
    fn is_full(&self) -> bool
        ensures { IsTrue result ↔ (most self.now ≤ at self.now) };

    fn held(&self) -> &[u8]
        ensures { result.now ≡ held self.now };

    fn clear(&mut self)
        ensures { Clears self.old self.new };

    fn put(&mut self, more: &[u8])
        requires { at self.old + length more.now ≤ most self.old }
        ensures { Puts self.old more.now self.new };

    fn put_byte(&mut self, byte: u8)
        requires { at self.old + 1 ≤ most self.old }
        ensures { Puts self.old (byte ∷ []) self.new };

    // No bytes are no change.
    ghost puts_none: { (s : Self) → Puts s [] s };

    // Bytes put, and then others, are both put, one behind the other.
    ghost puts_both: { (s t u : Self) → (v w : List ℕ) → Puts s v t → Puts t w u → Puts s (v ++ w) u };

    // The place moves by as many, and the room ends where it did.
    ghost puts_at: { (s t : Self) → (v : List ℕ) → Puts s v t → at t ≡ at s + length v };

    ghost puts_most: { (s t : Self) → (v : List ℕ) → Puts s v t → most t ≡ most s };

    // What is put stands behind the bytes in front of its place, where it has room.
    ghost puts_held: { (s t : Self) → (v : List ℕ) → length v ≤ most s - at s → Puts s v t → held t ≡ held s ++ v };

    // There is as much room behind these as from the place on.
    ghost held_room: { (s : Self) → most s - length (held s) ≡ most s - at s };

    // A text begun anew has no byte in front of its place, and the room ends where it did.
    ghost clears_at: { (s t : Self) → Clears s t → at t ≡ 0 };

    ghost clears_most: { (s t : Self) → Clears s t → most t ≡ most s };

    ghost clears_held: { (s t : Self) → Clears s t → held t ≡ [] };
}

// They are put behind those that it holds.
impl<const N: usize> Text for ArrayVec<u8, N> {
    ghost at = { array_vec_len };

    ghost most = { λ s. N };

    ghost Puts = { λ s v t. t.items ≡ s.items ++ v };

    ghost held = { λ s. s.items };

    ghost Clears = { λ s t. t.items ≡ [] };

    fn is_full(&self) -> bool {
        self.len() == N
    }

    fn held(&self) -> &[u8] {
        self.as_slice()
    }

    fn clear(&mut self) {
        self.clear();
    }

    fn put(&mut self, more: &[u8]) {
        let _ = self.try_extend_from_slice(more);
    }

    fn put_byte(&mut self, byte: u8) {
        self.push(byte);
    }

    ghost puts_none = { λ s. behind_none s.items };

    ghost puts_both = { λ s t u v w. behind_both s.items v w };

    ghost puts_at = { λ s t v. behind_long s.items v };

    ghost puts_most = { λ s t v p. refl };

    ghost puts_held = { λ s t v b p. p };

    ghost held_room = { λ s. refl };

    ghost clears_at = { λ s t c. ap length c };

    ghost clears_most = { λ s t c. refl };

    ghost clears_held = { λ s t c. c };
}

// A place in a lent buffer. What is put stands from there on, over what stood there, and `at` is then the place behind it.
#[derive(Drop)]
pub struct Placed<'b> {
    pub buf: &'b mut [u8],
    pub at: usize,
}

impl Text for Placed<'_> {
    ghost at = { λ s. s.at };

    ghost most = { λ s. length s.buf.now };

    ghost Puts = { λ s v t. (t.buf.ghost_name ≡ s.buf.ghost_name) × Put s.buf.now s.at v t.at t.buf.now };

    ghost held = { λ s. take s.at s.buf.now };

    ghost Clears = { λ s t. (t.buf.ghost_name ≡ s.buf.ghost_name) × (t.buf.now ≡ s.buf.now) × (t.at ≡ 0) };

    fn is_full(&self) -> bool {
        self.at >= self.buf.len()
    }

    // All of the buffer, where the place is past its end.
    #[tactic(auto, using(std::proofs::lemmas::List::take_min))]
    fn held(&self) -> &[u8] {
        &self.buf[..self.at.min(self.buf.len())]
    }

    fn clear(&mut self) {
        self.at = 0;
    }

    #[tactic(auto, using(crate::specs::TextLaws::put_part))]
    fn put(&mut self, more: &[u8]) {
        let end = self.at + more.len();
        self.buf[self.at..end].copy_from_slice(more);
        self.at = end;
    }

    #[tactic(auto, using(crate::specs::TextLaws::put_one))]
    fn put_byte(&mut self, byte: u8) {
        self.buf[self.at] = byte;
        self.at += 1;
    }

    ghost puts_none = { λ s. (refl, put_none s.buf.now s.at) };

    ghost puts_both = { λ s t u v w p q. (q.0 ∙ p.0, put_then p.1 q.1) };

    ghost puts_at = { λ s t v p. p.1.next };

    ghost puts_most = { λ s t v p. p.1.long };

    ghost puts_held = { λ s t v b p. put_held b p.1 };

    ghost held_room = { λ s. held_room s.buf.now s.at };

    ghost clears_at = { λ s t c. c.2 };

    ghost clears_most = { λ s t c. ap length c.1 };

    ghost clears_held = { λ s t c. ap (λ (k : ℕ). take k t.buf.now) c.2 };
}
