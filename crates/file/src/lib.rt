// What the programs read and write: BOOK.HEX, which they read the book's text from, a request on standard input, and MENDED.HEX, which `salvage` writes.
// The files are in the current folder.
#![tactic(auto)]

ghost use Rattle.std.specs.Prelude.{◌≡◌, ◌+◌, ◌%◌, take, OnOk};
ghost use Rattle.std.specs.Io.KnownBytes.{Consumes, Appends};
ghost use Rattle.file.specs.Counts.{IsPrefixLen};
ghost use Rattle.file.specs.Names.{name_of};

use arrayvec::ArrayString;
use std::fmt::Write as _;
use std::fs::{File, OpenFile};
use std::io::{ErrorKind, Read, Write};
use std::rt::Files;
use std::{fs, io};

// Reads until the buffer is full, the input ends or a read fails: how many bytes came.
// Kept: by hand, since `read_to_end` needs a heap and `read_exact` does not say how much came.
pub fn read_full<R: Read>(input: &mut R, buffer: &mut [u8]) -> usize
    ensures within { IsPrefixLen result buffer.new }
    ensures bytes { Consumes (R.remaining input.old) (R.remaining input.new) (take result buffer.new) }
{
    let mut n = 0;
    while n < buffer.len() {
        match input.read(&mut buffer[n..]) {
            Ok(0) | Err(_) => return n,
            Ok(more) => n += more,
        }
    }
    n
}

// How many bytes of the file came: none if it will not open.
// Kept: no `Option`, since no BOOK.HEX counts as an empty book, refusal 3.
pub fn read_book_file(rt: &impl Files, buffer: &mut [u8]) -> usize
    ensures { IsPrefixLen result buffer.new }
{
    match File::open(rt, "BOOK.HEX") {
        Ok(mut file) => read_full(&mut file, buffer),
        Err(_) => 0,
    }
}

// The last number that gives a name of its own.
const LAST: u32 = 999999;

// The last digit of a number.
fn digit(number: u32) -> char
    ensures { result ≡ 48 + number % 10 }
{
    char::from(b'0' + (number % 10) as u8)
}

// The name beside MENDED.HEX that a number gives: its last six digits stand behind it.
fn name_of(number: u32) -> ArrayString<17>
    ensures { result.bytes ≡ name_of number }
{
    let mut name = ArrayString::new();
    name.push_str("MENDED.HEX.");
    for unit in [100000, 10000, 1000, 100, 10, 1] {
        name.push(digit(number / unit));
    }
    name
}

// A file that was made, open for writing, and the number that gave it its name.
#[derive(Drop)]
struct Made<F> {
    number: u32,
    file: F,
}

// Makes a file of the first name that none has.
fn make<R: Files>(rt: &R) -> io::Result<Made<R::File>> {
    for number in 0..LAST {
        match File::create_new(rt, name_of(number).as_str()) {
            Ok(file) => return Ok(Made { number, file }),
            Err(error) if error.kind() == ErrorKind::AlreadyExists => {}
            Err(error) => return Err(error),
        }
    }
    let file = File::create_new(rt, name_of(LAST).as_str())?;
    Ok(Made { number: LAST, file })
}

// Puts the text into the open file, all the way to the device.
fn fill<F: Write + OpenFile>(file: &mut F, text: &[u8]) -> io::Result<()>
    ensures { OnOk result (Appends (F.contents file.old) (F.contents file.new) text.now) }
{
    file.write_all(text)?;
    file.sync_all()
}

// Fills the file that was made, closes it and renames it.
fn hand_over<R: Files>(rt: &R, name: &str, made: R::File, text: &[u8]) -> io::Result<()> {
    let mut file = made;
    fill(&mut file, text)?;
    drop(file);
    fs::rename(rt, name, "MENDED.HEX")
}

// Puts the text into MENDED.HEX. It is written under another name first; where it cannot be put, nothing of that name is left.
fn put(rt: &impl Files, text: &[u8]) -> io::Result<()> {
    let made = make(rt)?;
    let name = name_of(made.number);
    let put = hand_over(rt, name.as_str(), made.file, text);
    if put.is_err() {
        let _ = fs::remove_file(rt, name.as_str());
    }
    put
}

// The system's words for an error, without the number that `io::Error` puts behind them.
fn reason(words: &str) -> &str {
    match words.split_once(" (os error ") {
        Some((reason, _)) => reason,
        None => words,
    }
}

// Says on standard error why MENDED.HEX could not be put.
fn complain(rt: &impl Eprint, error: io::Error) {
    let mut words = ArrayString::<256>::new();
    let _ = write!(words, "{error}");
    let reason = reason(words.as_str());
    let _ = eprintln!(rt; "MENDED.HEX: {reason}");
}

// Puts the text into MENDED.HEX, in the place of one that is there: whether it did. It is written under another name first, so under that name there is
// never a part of it; where it cannot be put, standard error says why.
pub fn write_mended_file(rt: &(impl Files + Eprint), text: &[u8]) -> bool {
    match put(rt, text) {
        Ok(()) => true,
        Err(error) => {
            complain(rt, error);
            false
        }
    }
}
