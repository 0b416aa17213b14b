// The text of a book or a request, read and written: a record is a line of hexadecimal digits and LF.
#![tactic(auto)]

ghost use Rattle.std.specs.Prelude.{◌≡◌, ◌++◌, ◌<◌, ◌≤◌, ◌+◌, ◌-◌, ◌*◌, ◌/◌, min, length, get_or, map, drop};
ghost use Rattle.std.specs.List.{list_all};
ghost use Rattle.record.specs.Bytes.{size};
ghost use Rattle.record.specs.Table.{tab};
ghost use Rattle.text.specs.Hex.{digit_of, is_digit, digit_value, letter_of};
ghost use Rattle.text.specs.Text.{book, request, missing, line_length, start, width, good_line, judge_from, refusal_of};
ghost use Rattle.text.specs.Text.{byte_at, text_at, read_of, write_of, output_after};
ghost use Rattle.text.specs.Wrong.{legible, zeroed};

use record::{Part, Refusal};

// The bytes that a line says without the issuer's.
const SHORT: usize = 16;

// The digits of a line that is written, and its bytes: the digits and LF.
const DIGITS: usize = 2 * record::SIZE;

pub const LINE: usize = DIGITS + 1;

pub const LF: u8 = 10;

// The bytes of the longest text of a book, and of a request, and one more, by which a longer text is told.
pub const BOOK_TEXT: usize = record::MOST_RECORDS * LINE + 1;

pub const REQUEST_TEXT: usize = record::MOST_ENTRIES * LINE + 1;

// What a book and a request differ in: how many records there may be at most, whether there may be none, and the part that a refusal names.
#[derive(Clone, Copy)]
pub struct Kind {
    pub most: usize,
    pub empty: bool,
    pub part: Part,
}

const BOOK: Kind = Kind {
    most: record::MOST_RECORDS,
    empty: false,
    part: Part::Book,
};

const REQUEST: Kind = Kind {
    most: record::MOST_ENTRIES,
    empty: true,
    part: Part::Request,
};

// Whether there is nothing where something must be.
fn missing(kind: Kind, n: usize) -> bool
    ensures { result ≡ missing kind n }
{
    !kind.empty && n == 0
}

// What a byte says as a hexadecimal digit.
// Kept: by hand, here and in `letter`, since the definitions `digit_of` and `letter_of` are by bytes.
#[tactic(auto, unfolding(crate::specs::Hex::digit_of))]
fn digit(c: u8) -> Option<u8>
    ensures { result ≡ digit_of c }
{
    match c {
        b'0'..=b'9' => Some(c - b'0'),
        b'A'..=b'F' => Some(c - b'A' + 10),
        b'a'..=b'f' => Some(c - b'a' + 10),
        _ => None,
    }
}

#[tactic(auto, unfolding(crate::specs::Hex::is_digit))]
fn is_digit(c: u8) -> bool
    ensures { result ≡ is_digit c }
{
    digit(c).is_some()
}

// The value of a digit, and 0 of any other byte.
#[tactic(auto, using(crate::proofs::Laws::value_small), unfolding(crate::specs::Hex::digit_value))]
fn value(c: u8) -> u8
    ensures { (result ≡ digit_value c) × (result < 16) }
{
    digit(c).unwrap_or(0)
}

// The last hexadecimal digit of a number, as a capital.
#[tactic(auto, unfolding(crate::specs::Hex::letter_of))]
pub fn letter(n: usize) -> u8
    ensures { result ≡ letter_of n }
{
    let d = (n % 16) as u8;
    if d < 10 { b'0' + d } else { b'A' - 10 + d }
}

// How many bytes a line says: line 1 fixes it by where its LF stands.
#[tactic(auto, unfolding(crate::specs::Text::width))]
fn width(text: &[u8]) -> usize
    ensures { (result ≡ width text.now) × (result ≤ size) }
{
    if text.get(2 * SHORT) == Some(&LF) {
        SHORT
    } else {
        record::SIZE
    }
}

// Where the first n lines of a text end; the text's own end, where it has fewer.
#[tactic(auto, unfolding(crate::specs::Text::start))]
pub fn lines_end(text: &[u8], n: usize) -> usize
    ensures { (result ≡ min (start (width text.now) n) (length text.now)) × (result ≤ length text.now) }
{
    let line = 2 * width(text) + 1;
    line.saturating_mul(n).min(text.len())
}

// Whether all of these bytes are digits.
fn all_digits(text: &[u8]) -> bool
    ensures { result ≡ list_all is_digit text.now }
{
    text.iter().all(|c| is_digit(*c))
}

// Whether the digits of w bytes and LF stand at this place.
#[tactic(auto, unfolding(crate::specs::Text::good_line))]
fn good_line(w: usize, text: &[u8], at: usize) -> bool
    requires { (w ≤ size) × (at ≤ length text.now) }
    ensures { result ≡ good_line w text.now at }
{
    let end = at + 2 * w;
    text.get(end) == Some(&LF) && all_digits(&text[at..end])
}

// A byte of a line that is good or not: itself, or the digit 0, but LF stays.
#[tactic(auto, unfolding(crate::specs::Wrong::legible))]
fn legible(good: bool, c: u8) -> u8
    ensures { result ≡ legible good c }
{
    if good || c == LF { c } else { b'0' }
}

// Makes each byte of a line legible.
fn zero_line(line: &mut [u8], good: bool)
    ensures { line.new ≡ map (legible good) line.old }
{
    for c in line {
        *c = legible(good, *c);
    }
}

// Puts zeros for every line that is not good, LF excepted: one of the right length with a wrong digit is then read as a record of zeros.
pub fn zero_wrong(text: &mut [u8])
    ensures { text.new ≡ zeroed text.old }
{
    let w = width(text);
    let line = 2 * w + 1;
    // Kept: by places and not by `chunks_mut`, whose clauses do not say what the text holds after the loop.
    for n in 0..text.len().div_ceil(line) {
        let at = line * n;
        let end = text.len().min(at + line);
        let good = good_line(w, text, at);
        zero_line(&mut text[at..end], good);
    }
}

// What is wrong with the lines of a text: this is the first that is not good, or there are too many.
// Kept: no `Option<usize>`: it is the error of a `Result`, and too many lines is no missing one.
#[derive(Clone, Copy)]
pub enum Fault {
    Wrong(usize),
    Over,
}

// A text, and how many bytes each of its lines says.
#[derive(Clone, Copy)]
struct Lines<'a> {
    text: &'a [u8],
    w: usize,
    ghost fixed: { (w ≡ width text.now) × (w ≤ size) },
}

impl<'a> Lines<'a> {
    // How many lines there are, if all are good.
    fn judge(self, most: usize) -> Result<usize, Fault>
        ensures { result ≡ judge_from (width self.entry.text.now) self.entry.text.now most 0 }
    {
        let line = 2 * self.w + 1;
        for n in 0..most {
            if self.text.len() <= line * n {
                return Ok(n);
            }
            if !good_line(self.w, self.text, line * n) {
                return Err(Fault::Wrong(n + 1));
            }
        }
        if self.text.len() <= line * most {
            Ok(most)
        } else {
            Err(Fault::Over)
        }
    }

    // Byte i of the records that the text says.
    #[tactic(auto, unfolding(crate::specs::Text::start, crate::specs::Text::byte_at))]
    fn byte_at(self, i: usize) -> u8
        requires { start self.w (i / size) + line_length self.w ≤ length self.text.now }
        ensures { result ≡ byte_at self.entry.text.now i }
    {
        let k = i % record::SIZE;
        if self.w <= k {
            return 0;
        }
        let p = (2 * self.w + 1) * (i / record::SIZE) + 2 * k;
        16 * value(self.text[p]) + value(self.text[p + 1])
    }

    // The records of n lines, into the first places.
    // Kept: by place, since `tab` says each byte by its place.
    #[tactic(auto, using(crate::proofs::Lists::tab_next), unfolding(record::specs::Table::tab, crate::specs::Text::start))]
    fn decode(self, n: usize, out: &mut [u8])
        requires { (start self.w n ≤ length self.text.now) × (size * n ≤ length out.old) }
        ensures { out.new ≡ tab (byte_at self.entry.text.now) (size * n) ++ drop (size * n) out.old }
    {
        for i in 0..record::SIZE * n {
            out[i] = self.byte_at(i);
        }
    }
}

// What is told of a fault in this part.
fn refusal(part: Part, fault: Fault) -> Refusal
    ensures { result ≡ refusal_of part fault }
{
    match fault {
        Fault::Wrong(line) => Refusal::BadLine(part, line),
        Fault::Over => Refusal::TooMany(part),
    }
}

// All lines are judged before the first byte is written.
#[tactic(auto, unfolding(crate::specs::Text::read_of, crate::specs::Text::read_judged, crate::specs::Text::output_after))]
fn read_text(text: &[u8], kind: Kind, out: &mut [u8]) -> Result<usize, Refusal>
    ensures { (result ≡ read_of kind text.now (length out.old)) × (out.new ≡ output_after (byte_at text.now) result out.old) }
{
    let lines = Lines {
        text,
        w: width(text),
    };
    let n = lines
        .judge(kind.most)
        .map_err(|fault| refusal(kind.part, fault))?;
    if missing(kind, n) {
        return Err(Refusal::NoRecord(kind.part));
    }
    let size = record::SIZE * n;
    if out.len() < size {
        return Err(Refusal::NoRoom);
    }
    lines.decode(n, out);
    Ok(size)
}

// Byte j of the text that the records make.
#[tactic(auto, unfolding(crate::specs::Text::text_at))]
fn text_at(records: &[u8], j: usize) -> u8
    requires { size * (j / line_length size) + size ≤ length records.now }
    ensures { result ≡ text_at records.now j }
{
    let k = j % LINE;
    if k == DIGITS {
        return LF;
    }
    let b = usize::from(records[record::SIZE * (j / LINE) + k / 2]);
    if k % 2 == 0 {
        letter(b / 16)
    } else {
        letter(b)
    }
}

// The text of n records, into the first places.
// Kept: by place, since `tab` says each byte by its place.
#[tactic(auto, using(crate::proofs::Lists::tab_next), unfolding(record::specs::Table::tab))]
fn encode(records: &[u8], n: usize, out: &mut [u8])
    requires { (size * n ≤ length records.now) × (line_length size * n ≤ length out.old) }
    ensures { out.new ≡ tab (text_at records.now) (line_length size * n) ++ drop (line_length size * n) out.old }
{
    for j in 0..LINE * n {
        out[j] = text_at(records, j);
    }
}

#[tactic(auto, unfolding(crate::specs::Text::write_of, crate::specs::Text::output_after))]
fn write_text(records: &[u8], kind: Kind, out: &mut [u8]) -> Result<usize, Refusal>
    ensures { (result ≡ write_of kind records.now (length out.old)) × (out.new ≡ output_after (text_at records.now) result out.old) }
{
    if missing(kind, records.len()) {
        return Err(Refusal::NoRecord(kind.part));
    }
    if 0 < records.len() % record::SIZE {
        return Err(Refusal::CutShort(kind.part));
    }
    let n = records.len() / record::SIZE;
    if kind.most < n {
        return Err(Refusal::TooMany(kind.part));
    }
    if out.len() / LINE < n {
        return Err(Refusal::NoRoom);
    }
    encode(records, n, out);
    Ok(LINE * n)
}

// Kept: the calls for a book and for a request differ in the kind alone, and `docs/CONTRACTS.md` names each.
// Reads the text of a book, and writes its records into `out`.
pub fn read_book(text: &[u8], out: &mut [u8]) -> Result<usize, Refusal>
    ensures { (result ≡ read_of book text.now (length out.old)) × (out.new ≡ output_after (byte_at text.now) result out.old) }
{
    read_text(text, BOOK, out)
}

// Reads the text of a request, and writes its entries into `out`.
pub fn read_request(text: &[u8], out: &mut [u8]) -> Result<usize, Refusal>
    ensures { (result ≡ read_of request text.now (length out.old)) × (out.new ≡ output_after (byte_at text.now) result out.old) }
{
    read_text(text, REQUEST, out)
}

// Writes the records of a book as text into `out`, in capitals.
pub fn write_book(records: &[u8], out: &mut [u8]) -> Result<usize, Refusal>
    ensures { (result ≡ write_of book records.now (length out.old)) × (out.new ≡ output_after (text_at records.now) result out.old) }
{
    write_text(records, BOOK, out)
}

// Writes the entries of a request as text into `out`, in capitals.
pub fn write_request(records: &[u8], out: &mut [u8]) -> Result<usize, Refusal>
    ensures { (result ≡ write_of request records.now (length out.old)) × (out.new ≡ output_after (text_at records.now) result out.old) }
{
    write_text(records, REQUEST, out)
}
