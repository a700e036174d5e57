// Draws the record file on standard input and prints the sheet, or why there is none.
#![tactic(auto)]

mod text;

ghost use Rattle.std.specs.Prelude.{IfOk};
ghost use Rattle.io.specs.Counts.{IsPrefixLen};
ghost use Rattle.print.specs.Run.{Answers, Holds};

use std::io;
use std::io::{Read, Write};

/// What was read: how many bytes, and whether no read failed. No `Result`, since what came before a failed read is counted too.
#[derive(Clone, Copy, Debug, PartialEq, Eq, Hash)]
struct Input {
    count: usize,
    whole: bool,
}

/// Reads until the input ends, the room is full or a read fails.
fn read_input<R: Read>(reader: &mut R, room: &mut [u8]) -> Input
    ensures counts { IsPrefixLen result.count room.new }
    ensures holds { Holds (R.remaining reader.old) result.whole result.count room.new }
{
    let mut count: usize = 0;
    while count < room.len() {
        match reader.read(&mut room[count..]) {
            Err(_) => {
                return Input {
                    count,
                    whole: false,
                };
            }
            Ok(0) => break,
            Ok(more) => count += more,
        }
    }
    Input { count, whole: true }
}

/// Writes the reply to what the reader has, and answers whether no read failed.
fn answer<R: Read, W: Write>(reader: &mut R, writer: &mut W) -> io::Result<bool>
    ensures { IfOk result (λ whole. Answers (R.remaining reader.old) (W.contents writer.old) (W.contents writer.new) whole) }
{
    // One byte more than is drawn, so that a longer input shows.
    let mut file = [0u8; 4097];
    let input = read_input(reader, &mut file);
    let mut out = [0u8; 136];
    let length = text::reply(input.whole, &file[..input.count], &mut out);
    writer.write_all(&out[..length])?;
    Ok(input.whole)
}

fn main(rt: HostRuntime) {
    if answer(&mut rt.stdin(), &mut rt.stdout()).is_err() {
        let _ = eprintln!(rt; "output cannot be written");
    }
}
