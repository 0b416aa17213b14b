// The table of elders: for each record the one before it in its row of siblings, so that a row can be walked from its last record to its first.
#![tactic(auto)]

ghost use Rattle.std.specs.Prelude.{◌≡◌, ◌+◌, ◌*◌, ◌-◌, ◌<◌, ◌≤◌, length, get_or, IfSome, IfNone};
ghost use Rattle.record.specs.Bytes.{size, most_records, byte_of};
ghost use Rattle.record.specs.Forest.{forest};
ghost use Rattle.elders.specs.Links.{Linked, Linked-prop, Below, Below-prop, below, Before, Taken, First, Kept};

// A place for each record that a book can have.
pub type Elders = [u16; record::MOST_RECORDS];

// A record's number as one of the table.
// Kept: a name for the cast, whose clause says that the number fits, and which the proof of `link` uses twice.
fn narrow(x: usize) -> u16
    requires { x ≤ most_records }
    ensures { result ≡ x }
{
    x as u16
}

// A record and all below it, which ends at `stop`; each row below it is linked.
#[derive(Clone, Copy)]
pub struct Node<'a> {
    pub book: &'a [u8],
    pub elders: &'a Elders,
    pub at: usize,
    pub stop: usize,
    pub ghost some: { at < stop },
    pub ghost most: { stop ≤ most_records },
    pub ghost bytes: { stop * size ≤ length book.now },
    pub ghost linked: { Linked elders.now (below book.now at stop) } by { Linked-prop elders.now (below book.now at stop) },
}

// The children of a record that are still to be walked, from the last to the first: they end at `next`, and the last of them is `last`.
// Kept: loops over it alike in six places: a function with a closure that writes out would ask each caller for its closure's clause.
#[derive(Clone, Copy)]
pub struct Row<'a> {
    pub parent: Node<'a>,
    pub next: usize,
    pub last: usize,
    pub ghost low: { next ≤ parent.stop },
    pub ghost walked: { ∥ Before parent.book.now parent.elders.now (parent.at + 1) parent.stop next last ∥₁ },
}

// The siblings from one of a row to its last, to be walked from the first.
#[derive(Clone, Copy)]
pub struct Rest<'a> {
    pub book: &'a [u8],
    pub elders: &'a Elders,
    pub from: usize,
    pub stop: usize,
    pub ghost low: { from ≤ stop },
    pub ghost most: { stop ≤ most_records },
    pub ghost bytes: { stop * size ≤ length book.now },
    pub ghost below: { Below elders.now (forest book.now from (stop - from)) } by { Below-prop elders.now (forest book.now from (stop - from)) },
}

impl<'a> Node<'a> {
    // Which kind of record it is, and its choice.
    pub fn kind(self) -> usize
        ensures { (result ≡ byte_of self.entry.book.now self.entry.at 0) × (result < 256) }
    {
        record::byte(self.book, self.at, 0)
    }

    pub fn choice(self) -> usize
        ensures { (result ≡ byte_of self.entry.book.now self.entry.at 1) × (result < 256) }
    {
        record::byte(self.book, self.at, 1)
    }

    // Its children, from the first on.
    pub fn rest(self) -> Rest<'a>
        ensures { (result.book.now ≡ self.entry.book.now) × (result.elders.now ≡ self.entry.elders.now)
            × (result.from ≡ self.entry.at + 1) × (result.stop ≡ self.entry.stop) }
    {
        Rest {
            book: self.book,
            elders: self.elders,
            from: self.at + 1,
            stop: self.stop,
        }
    }

    // Its children, from the last on.
    pub fn children(self) -> Row<'a>
        ensures { (result.parent ≡ self.entry) × (result.next ≡ self.entry.stop) }
    {
        let first = self.at + 1;
        let last = if first < self.stop {
            elder(self.elders, first)
        } else {
            first
        };
        Row {
            parent: self,
            next: self.stop,
            last,
        }
    }
}

impl<'a> Row<'a> {
    // The last child that was not walked yet.
    pub fn take_last(&mut self) -> Option<Node<'a>>
        ensures parent { self.new.parent ≡ self.old.parent }
        ensures none { IfNone result (self.old.next ≤ self.old.parent.at + 1) }
        ensures child { IfSome result (λ child. Taken self.old.parent.book.now self.old.parent.elders.now (self.old.parent.at + 1) self.old.parent.stop
            self.old.next self.new.next child.book.now child.elders.now child.at child.stop) }
    {
        let Row {
            parent,
            next,
            last: at,
        } = *self;
        if next <= parent.at + 1 {
            return None;
        }
        *self = Row {
            parent,
            next: at,
            last: elder(parent.elders, at),
        };
        Some(Node {
            book: parent.book,
            elders: parent.elders,
            at,
            stop: next,
        })
    }
}

impl<'a> Rest<'a> {
    // The first of the siblings.
    pub fn take_first(&mut self) -> Option<Node<'a>>
        ensures none { IfNone result (self.old.stop ≤ self.old.from) }
        ensures first { IfSome result (λ first. First self.old.book.now self.old.elders.now self.old.from self.old.stop
            first.book.now first.elders.now first.at first.stop self.new.book.now self.new.elders.now self.new.from self.new.stop) }
    {
        let Rest {
            book,
            elders,
            from,
            stop,
        } = *self;
        if from == stop {
            return None;
        }
        let next = from + record::span_in(book, from, stop - from);
        *self = Rest {
            book,
            elders,
            from: next,
            stop,
        };
        Some(Node {
            book,
            elders,
            at: from,
            stop: next,
        })
    }
}

// The record before record i in its row of siblings; of the first, the last.
pub fn elder(elders: &Elders, i: usize) -> usize
    requires { i < most_records }
    ensures { result ≡ get_or elders.now i 0 }
{
    usize::from(elders[i])
}

// Puts into `elders` which record is before each, of those from `from` to `stop` and all below them.
// Kept: a loop by hand, since it walks by spans while the table is made, and a node is of a table that is whole.
pub fn link(book: &[u8], from: usize, stop: usize, elders: &mut Elders)
    requires { (from ≤ stop) × (stop ≤ most_records) × (stop * size ≤ length book.now) × (stop ≤ length elders.old) }
    ensures { Linked elders.new (forest book.now from (stop - from)) × Kept from stop elders.old elders.new }
{
    if from == stop {
        return;
    }
    let mut i = from;
    let mut last = from;
    while i < stop {
        let s = record::span_in(book, i, stop - i);
        let next = i + s;
        elders[i] = narrow(last);
        // Nothing stands below most records, and a call for these too would be slower.
        if s != 1 {
            link(book, i + 1, next, elders);
        }
        last = i;
        i = next;
    }
    elders[from] = narrow(last);
}
