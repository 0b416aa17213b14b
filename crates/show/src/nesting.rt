// Which records stand above a record: its depth, and its parent.
ghost use Rattle.std.specs.Prelude.{◌≡◌, ◌+◌, ◌*◌, ◌≤◌, length};
ghost use Rattle.record.specs.Bytes.{size};
ghost use Rattle.operands.specs.Parent.{covers, parent_of};
ghost use Rattle.placement.specs.Place.{depth_of};

// Whether the span of the earlier record j covers record i.
#[tactic(auto, unfolding(operands::specs::Parent::end_of))]
fn covers(book: &[u8], i: usize, j: usize) -> bool
    requires { (j + 1) * size ≤ length book.now }
    ensures { result ≡ covers book.now i j }
{
    i < j + record::span(book, j)
}

// The depth of record i: line 1 has 1, and each earlier record whose span covers it is one more.
pub fn depth(book: &[u8], i: usize) -> usize
    requires { (i + 1) * size ≤ length book.now }
    ensures { result ≡ depth_of book.now i }
{
    (0..i).filter(|j| covers(book, i, *j)).count() + 1
}

// The parent of record i: the innermost earlier record whose span covers it.
pub fn parent(book: &[u8], i: usize) -> usize
    requires { (i + 1) * size ≤ length book.now }
    ensures { (result ≡ parent_of book.now i) × (result ≤ i) }
{
    (0..i).rfind(|j| covers(book, i, *j)).unwrap_or(0)
}
