// Recorded calls of clients, played through the functions on a lent record and compared: lines C, Q, P and I, each with its answer (=) and the record after it (;), as
// host/README.md tells them.
// Kept: the number of a call, since a recorded line has it.
use crate::{lent, number};
use client::Client;
use comparing::{memory, words};
use numbers::View;
use std::io;

// What was played: the record, the last call's number and how many bytes it wrote to an area of so many, and how many lines were compared and how many differ.
#[derive(Clone, Copy)]
struct Played {
    pub client: Client,
    pub code: u8,
    pub written: usize,
    pub room: usize,
    pub calls: u64,
    pub records: u64,
    pub differ: u64,
}

impl Played {
    // A call more.
    fn answered(self, client: Client, code: u8, written: usize, room: usize) -> Played {
        Played {
            client,
            code,
            written,
            room,
            calls: self.calls.wrapping_add(1),
            ..self
        }
    }

    // A line more that is compared.
    fn judged(self, same: bool) -> Played {
        Played {
            records: self.records.wrapping_add(1),
            differ: if same {
                self.differ
            } else {
                self.differ.wrapping_add(1)
            },
            ..self
        }
    }
}

// A word's number, or the greatest of its type where it is greater.
fn low(line: &[u8], k: usize) -> u32 {
    u32::try_from(words::decimal(line, k)).unwrap_or(u32::MAX)
}

fn byte(line: &[u8], k: usize) -> u8 {
    u8::try_from(words::decimal(line, k)).unwrap_or(u8::MAX)
}

// The area that a call is lent: as many bytes as word k says, of those that there are.
fn lend<'a>(line: &[u8], k: usize, area: &'a mut [u8]) -> &'a mut [u8] {
    let n = words::decimal(line, k).min(area.len() as u64) as usize;
    memory::spoil(area, n);
    &mut area[..n]
}

fn create(p: Played, line: &[u8]) -> Played {
    let after = client::create(low(line, 1), words::decimal(line, 2));
    p.answered(after.client, number(after.answer), 0, 0)
}

fn request(p: Played, line: &[u8], area: &mut [u8]) -> Played {
    let part = lend(line, 4, area);
    let room = part.len();
    let after = lent::request(
        p.client,
        byte(line, 1),
        low(line, 2),
        words::decimal(line, 3),
        part,
    );
    let written = after.answer.map_or(0, |sent| sent.written);
    p.answered(after.client, number(after.answer), written, room)
}

fn idle(p: Played, line: &[u8], area: &mut [u8]) -> Played {
    let part = lend(line, 1, area);
    let room = part.len();
    let after = lent::idle(p.client, part);
    p.answered(
        after.client,
        number(after.answer),
        after.answer.unwrap_or(0),
        room,
    )
}

// The number that is told of a reply: 1 where it answers what is pending.
fn reply(p: Played, line: &[u8]) -> Played {
    let after = lent::reply(p.client, words::decimal(line, 1), View(low(line, 2)));
    p.answered(after.client, after.answer.unwrap_or(false) as u8, 0, 0)
}

// Whether the line says what the call answered, and the area behind it is as it was.
fn same_answer(p: Played, line: &[u8], area: &[u8]) -> bool {
    if p.code as u64 != words::decimal(line, 1) {
        return false;
    }
    match area.get(..p.written) {
        None => false,
        Some(bytes) => words::same(line, 2, bytes) && memory::untouched(area, p.written, p.room),
    }
}

// Whether the line says what the record is: view, next number, pending.
fn same_record(c: Client, line: &[u8]) -> bool {
    if c.view.0 as u64 != words::decimal(line, 1) {
        return false;
    }
    if c.next != words::decimal(line, 2) {
        return false;
    }
    match c.pending {
        None => words::same(line, 3, &[]),
        Some(entry) => entry.request == words::decimal(line, 3),
    }
}

fn by_line(p: Played, line: &[u8], area: &mut [u8]) -> Played {
    match line.first() {
        Some(b'C') => create(p, line),
        Some(b'Q') => request(p, line, area),
        Some(b'P') => reply(p, line),
        Some(b'I') => idle(p, line, area),
        Some(b'=') => p.judged(same_answer(p, line, area)),
        Some(b';') => p.judged(same_record(p.client, line)),
        _ => p,
    }
}

// A trace played, and the counts. Its last line may have no end.
pub fn replay<W: io::Write>(writer: &mut W, trace: &[u8]) -> io::Result<()> {
    let mut area = [0u8; 512];
    let mut p = Played {
        client: client::create(3, 0).client,
        code: 0,
        written: 0,
        room: 0,
        calls: 0,
        records: 0,
        differ: 0,
    };
    for line in trace.split(|b| *b == b'\n') {
        p = by_line(p, line, &mut area);
    }
    write!(writer, "recorded: {} calls of clients, ", p.calls)?;
    writeln!(
        writer,
        "{} answers and records compared, {} differ",
        p.records, p.differ
    )
}
