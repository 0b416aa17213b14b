// The static library of `mender`: its call under the name and by the calling convention that a C host links.
// Kept: a wrapper, since the C name and calling convention stand here alone, and docs/CONTRACTS.md names the call of `mender`.
#![tactic(auto)]

ghost use Rattle.std.specs.Prelude.{◌≡◌, length};
ghost use Rattle.mending.specs.Salvaged.{answer_of, mended_out, replaced_out};
ghost use Rattle.mender.specs.Mender.{salvaged_number};

// Mends a half-copied book: its records into `mended`, and four bytes a replacement into `replaced`.
#[unsafe(no_mangle)]
pub extern "C" fn bachumoi_salvage(book: &[u8], mended: &mut [u8], replaced: &mut [u8]) -> u64
    ensures { (result ≡ salvaged_number (answer_of book.now (length mended.old) (length replaced.old)))
        × (mended.new ≡ mended_out book.now (answer_of book.now (length mended.old) (length replaced.old)) mended.old)
        × (replaced.new ≡ replaced_out book.now (answer_of book.now (length mended.old) (length replaced.old)) replaced.old) }
{
    mender::bachumoi_salvage(book, mended, replaced)
}
