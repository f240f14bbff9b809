// A list handed out in rooms, by drains and by lone calls. That the output has the room is asked by each function that writes: it is a fact about
// a lent `&mut`, which a struct could keep only with a clause on its ghost name in every contract.

// What was written, whether any remain, and the position after them: a call says all three, whatever it found.
#[derive(Clone, Copy)]
pub struct Written {
    pub count: usize,
    pub more: bool,
    pub next: usize,
}
