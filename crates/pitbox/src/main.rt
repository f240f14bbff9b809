// The session program: lines from standard input, replies to standard output. What a line means and what it is answered
// is decided in the crates below; here bytes are read, handed on and written. A read or a write that fails ends the program with
// that error: the sheets are then as the lines answered so far have left them, and the writer may have some of the replies.
#![tactic(auto)]

ghost use Rattle.std.specs.Prelude.{◌≡◌, ◌≤◌, List, [], length, ℕ, Option, OnOk, OnErr, IfOk, IfSome, IsTrue};
ghost use Rattle.std.specs.Io.KnownBytes.{Appends, append_known};
ghost use Rattle.text.specs.Gathering.{rest_line, lines_of};
ghost use Rattle.answering.specs.Answering.{Left, silent, unstarted};
ghost use Rattle.lines.specs.Serving.{talk};
ghost use Rattle.pitbox.specs.Session.{sheets_of, Underway};

use answering::{OUTPUT, REPLY};
use arrayvec::ArrayVec;
use lines::serving::{finish, serve};
use reading::BUFFER;
use rules::Session;
use sheets::layout::{LIST, ROW};
use std::io;
use std::io::{Read, Write};
use text::putting::put_text;

// The words of a sheet of 1024 rows, and of the lists of 16 partitions for both sources.
const ROWS: usize = 1024 * ROW;

const PROBES: usize = 2 * 16 * LIST;

// The bytes that are read at a time, and those of the replies that are gathered before they are written.
const INPUT: usize = 65536;

const TEXT: usize = 65536;

// What each call is lent: the sheets and the output.
#[derive(Drop)]
struct Storage {
    a: [u32; ROWS],
    b: [u32; ROWS],
    probe: [u32; PROBES],
    out: [u32; OUTPUT],
}

// What is carried from one read to the next: the session, and the line that is begun.
#[derive(Drop)]
struct Going {
    state: Option<Session>,
    line: ArrayVec<u8, BUFFER>,
}

// A reply put behind those gathered; where it does not fit, they are written first: what is written and what is gathered behind it
// grow by the reply.
fn add_reply<W: Write>(to: &mut W, text: &mut ArrayVec<u8, TEXT>, reply: &[u8]) -> io::Result<()>
    requires { length reply.now ≤ TEXT }
    ensures ok { OnOk result (Appends (append_known (W.contents to.old) text.old.items) (append_known (W.contents to.new) text.new.items) reply.now) }
    ensures err { OnErr result (text.new ≡ text.old) }
{
    if text.try_extend_from_slice(reply).is_err() {
        to.write_all(text)?;
        text.clear();
        put_text(text, reply);
    }
    Ok(())
}

// Answers the lines that end in a piece of the input, and writes their replies: none is left to answer.
fn feed<W: Write>(
    to: &mut W,
    going: &mut Going,
    storage: &mut Storage,
    piece: &[u8],
) -> io::Result<()>
    ensures { (all : Left) (begun : List ℕ) (k : Option (List ℕ)) → Underway all begun k piece.now going.old storage.old (W.contents to.old) →
        OnOk result (Underway all begun k [] going.new storage.new (W.contents to.new)) }
{
    let mut text = ArrayVec::new();
    let mut reply = ArrayVec::<u8, REPLY>::new();
    let mut rest = piece;
    while let Some(behind) = serve(
        &mut going.state,
        &mut going.line,
        rest,
        &mut storage.a,
        &mut storage.b,
        &mut storage.probe,
        &mut storage.out,
        &mut reply,
    ) {
        add_reply(to, &mut text, &reply)?;
        rest = behind;
    }
    to.write_all(&text)
}

// Answers a last line without LF: then everything is said and written.
fn answer_rest<W: Write>(to: &mut W, going: &mut Going, storage: &mut Storage) -> io::Result<()>
    ensures { (all : Left) (begun : List ℕ) (k : Option (List ℕ)) → Underway all begun k [] going.old storage.old (W.contents to.old) →
        OnOk result (Appends k (W.contents to.new) (talk all (rest_line begun)).text) }
{
    let mut reply = ArrayVec::<u8, REPLY>::new();
    finish(
        &mut going.state,
        &going.line,
        &mut storage.a,
        &mut storage.b,
        &mut storage.probe,
        &mut storage.out,
        &mut reply,
    );
    to.write_all(&reply)
}

// Answers the whole input, and says whether its end was met: then exactly the answers to the lines of the input are written, in
// their order, wherever reads cut it. The end of the input ends the program, and so does a read or a write that fails. A proved loop
// has to end, and nothing says that the input does: it takes as many turns as no run uses up.
fn answer_input<R: Read, W: Write>(
    from: &mut R,
    to: &mut W,
    storage: &mut Storage,
) -> io::Result<bool>
    ensures { IfOk result (λ ended. IsTrue ended → IfSome (R.remaining from.old) (λ input. Appends (W.contents to.old) (W.contents to.new)
        (talk (silent unstarted (sheets_of storage.old) storage.old.out) (lines_of input)).text)) }
{
    let mut input = [0; INPUT];
    let mut going = Going {
        state: None,
        line: ArrayVec::new(),
    };
    for _ in 0..u64::MAX {
        let n = from.read(&mut input)?;
        if n == 0 {
            answer_rest(to, &mut going, storage)?;
            return Ok(true);
        }
        feed(to, &mut going, storage, &input[..n])?;
    }
    Ok(false)
}

fn main(rt: HostRuntime) -> io::Result<()> {
    // Neither has a buffer of its own, so what is written is there before the next read waits.
    let mut from = rt.stdin();
    let mut to = rt.stdout();
    let mut storage = Storage {
        a: [0; ROWS],
        b: [0; ROWS],
        probe: [0; PROBES],
        out: [0; OUTPUT],
    };
    answer_input(&mut from, &mut to, &mut storage)?;
    Ok(())
}
