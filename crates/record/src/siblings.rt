// Records that stand beside each other: each with the place where it begins and its span, one after another.
ghost use Rattle.std.specs.Prelude.{◌≡◌, ◌+◌, ◌*◌, ◌≤◌, length};
ghost use Rattle.record.specs.Bytes.{size};

#[derive(Drop)]
pub struct Siblings<'a> {
    book: &'a [u8],
    at: usize,
    left: usize,
    pub ghost fits: { (at + left) * size ≤ length book.now },
}

impl<'a> Siblings<'a> {
    // The records side by side among `count` records from `from` on.
    pub fn new(book: &'a [u8], from: usize, count: usize) -> Siblings<'a>
        requires { (from + count) * size ≤ length book.now }
        ensures book { result.book.now ≡ book.now }
        ensures at { result.at ≡ from }
        ensures left { result.left ≡ count }
    {
        Siblings {
            book,
            at: from,
            left: count,
        }
    }
}

impl<'a> Iterator for Siblings<'a> {
    ghost use Rattle.std.specs.Iterator.{at_most};
    ghost use Rattle.record.specs.Siblings.{WalksOn};

    type Item = (usize, usize);

    ghost next_gives = { WalksOn };

    ghost remaining = { λ s. at_most s.left };

    #[inline]
    fn next(&mut self) -> Option<(usize, usize)> {
        if self.left == 0 {
            return None;
        }
        let i = self.at;
        let s = crate::span_in(self.book, i, self.left);
        self.at += s;
        self.left -= s;
        Some((i, s))
    }
}
